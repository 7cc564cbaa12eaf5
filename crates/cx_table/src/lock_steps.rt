//! The step calls on locks: tries and releases. A call that begins a right hands out its token beside the word found,
//! and a call that ends one takes it. `Halt` comes exactly where the seat's steps equal its limit, and then nothing changes.

ghost use Rattle.std.specs.Prelude.{◌≡◌, OnOk, IfOk};
ghost use Rattle.cx_core.specs.declared.kinds.Kind.TheVariants.{BackOff, Downgrade, ReleaseExclusive, TryExclusive, TryShared};
ghost use Rattle.cx_core.specs.Base.{LawfulBase};
ghost use Rattle.cx_core.specs.LockEvents.{CanBackOff};
ghost use Rattle.table_invariant.specs.Fitting.{base_of};
ghost use Rattle.table_invariant.specs.Running.{IsSeatOf, instance_at};
ghost use Rattle.table_invariant.specs.Seats.{known_of};
ghost use Rattle.table_invariant.specs.Steps.{Steps, StepsCopied, StepsTaking};
ghost use Rattle.table_invariant.specs.Stores.{IsReplayedIn, IsReplayedToPlaceIn};
ghost use Rattle.cx_table.specs.Tokens.{HandsExclusive, HandsShared, IsCopiedFrom, IsDowngradedOf, IsExclusiveOf, IsRightOf, IsTakenFrom, TriedExclusive, TriedShared, replica_of};
ghost use Rattle.cx_table.specs.Calls.{MakesFittingStep, MakesStep, MayStep};
ghost use Rattle.cx_table.specs.Releases.{IsMovedFrom, MayRelease};
ghost use Rattle.cx_table.specs.Words.{IsOfOne, KeepsTableKnowing};
ghost use Rattle.caller_cache.specs.Summaries.{Follows};

use crate::events::{Instruction, StepEffect};
use crate::seat::CallerSeat;
use crate::shared::Shared;
use crate::tokens::{Downgraded, Exclusive, Passer, SharedHold, SharedRight, Token};
use atomic_table::Seat;
use caller_cache::CachedLocal;
use cx_base::{Halt, Object};
use cx_core::Kind;
use cx_core::layout::{EXCLUSIVE_MARK, lock_at};
use std::marker::{Brand, PhantomData};
use table_invariant::View;

impl<O: Object> Shared<O> {
    /// Tries to take a replica exclusively: a compare-exchange of its lock word from 0. It gives the word found, and where
    /// that is 0 the replica's token. `Halt` comes only where the limit leaves no step.
    pub fn try_exclusive(
        &self,
        seat: &mut CallerSeat,
        r: u64,
    ) -> Result<(u64, Option<Exclusive>), Halt>
        requires { MayStep O.Object self.now (TryExclusive r) seat.old }
        ensures step { MakesFittingStep O.Object self.now seat.old seat.new result (λ x. Steps self.now O.step O.only_reads (TryExclusive r) x.0 seat.old seat.new) }
        ensures token { IfOk result (λ x. TriedExclusive self.now.callers r seat.new x.0 x.1) }
    {
        let word = lock_at(self.callers.number, r);
        let exchange = Instruction::Exchange(0, EXCLUSIVE_MARK);
        let found = self.made(seat, &Kind::TryExclusive { r }, word, exchange)?;
        Ok((found, exclusive_token(found, r as u32, seat.summary.number)))
    }

    /// Tries to take a replica shared: adds 1 to its lock word. It gives the word found, and where that is below 2^32 a hold,
    /// else a passer, which has to be taken back. `Halt` comes only where the limit leaves no step.
    pub fn try_shared(
        &self,
        seat: &mut CallerSeat,
        r: u64,
    ) -> Result<(u64, Result<SharedHold, Passer>), Halt>
        requires { MayStep O.Object self.now (TryShared r) seat.old }
        ensures step { MakesFittingStep O.Object self.now seat.old seat.new result (λ x. Steps self.now O.step O.only_reads (TryShared r) x.0 seat.old seat.new) }
        ensures token { IfOk result (λ x. TriedShared self.now.callers r seat.new x.0 x.1) }
    {
        let word = lock_at(self.callers.number, r);
        let found = self.made(seat, &Kind::TryShared { r }, word, Instruction::Add(1))?;
        Ok((found, shared_token(found, r as u32, seat.summary.number)))
    }

    /// Releases a shared right or a downgraded one, or takes a passer's mark back: subtracts 1 from the lock word. It gives the word
    /// found. `Halt` comes only where the limit leaves no step.
    pub fn back_off(&self, seat: &mut CallerSeat, right: SharedRight) -> Result<u64, Halt>
        requires seat { IsSeatOf self.now seat.old }
        requires right { IsRightOf self.now.callers seat.old right }
        ensures { MakesStep self.now seat.old seat.new result (λ found. Steps self.now O.step O.only_reads (BackOff (replica_of right)) found seat.old seat.new) }
    {
        let r = replica_in(right) as u64;
        let word = lock_at(self.callers.number, r);
        self.made(seat, &Kind::BackOff { r }, word, Instruction::Subtract(1))
    }

    /// Releases a shared right whose words were copied over the replica held exclusively: each was loaded, and it is the
    /// word that was loaded or stored last there. The words loaded are then what is noted of the replica held exclusively, with
    /// nothing stored since. It gives the word found. `Halt` comes only where the limit leaves no step.
    pub fn release_copied(
        &self,
        seat: &mut CallerSeat,
        held: &Exclusive,
        source: SharedHold,
    ) -> Result<u64, Halt>
        requires seat { IsSeatOf self.now seat.old }
        requires copied { IsCopiedFrom self.now.callers seat.old held.now source }
        ensures step { MakesFittingStep O.Object self.now seat.old seat.new result (λ found. StepsCopied self.now O.step O.only_reads source.replica found seat.old seat.new) }
        ensures held { OnOk result (IsExclusiveOf self.now.callers seat.new held.now) }
    {
        self.release_moved(seat, held, source)
    }

    /// Releases a shared right whose words were copied over the replica held exclusively, as far as that may be told. The words loaded are then
    /// what is noted of the replica held exclusively. It gives the word found.
    pub(crate) fn release_moved(
        &self,
        seat: &mut CallerSeat,
        held: &Exclusive,
        source: SharedHold,
    ) -> Result<u64, Halt>
        requires seat { IsSeatOf self.now seat.old }
        requires moved { IsMovedFrom (instance_at self.now O.step O.only_reads) seat.old held.now source }
        ensures step { MakesFittingStep O.Object self.now seat.old seat.new result (λ found. StepsCopied self.now O.step O.only_reads source.replica found seat.old seat.new) }
        ensures held { OnOk result (IsExclusiveOf self.now.callers seat.new held.now) }
    {
        self.table_is_running();
        seat.summary.check()?;
        Ok(self.give_back::<Brand, ()>(&mut seat.seat, &mut seat.summary, &(), source))
    }

    /// Releases a shared right on a replica all of whose words were loaded: they are these, a lawful base, and one image more that the
    /// caller took. It gives the word found. `Halt` comes only where the limit leaves no step.
    pub fn release_with_image(
        &self,
        seat: &mut CallerSeat,
        source: SharedHold,
        image: &[u64],
    ) -> Result<u64, Halt>
        requires seat { IsSeatOf self.now seat.old }
        requires taken { IsTakenFrom self.now.callers seat.old source image.now }
        ensures step { MakesFittingStep O.Object self.now seat.old seat.new result (λ found. StepsTaking self.now O.step O.only_reads source.replica found image.now seat.old seat.new) }
        ensures base { OnOk result (LawfulBase self.now.lines (O.lawful self.now.object) (base_of image.now)) }
    {
        self.table_is_running();
        seat.summary.check()?;
        Ok(self.give_back::<Brand, &[u64]>(&mut seat.seat, &mut seat.summary, &image, source))
    }

    /// Takes a shared right back by a step that tells this: subtracts 1 from the lock word. It gives the word found. What it is about is for the
    /// proofs alone.
    fn give_back<J: StepEffect, A>(
        &self,
        seat: &mut Seat<u8, View>,
        summary: &mut CachedLocal,
        about: &A,
        source: SharedHold,
    ) -> u64
        requires one { IsOfOne self.now seat.old.table_id seat.old.me }
        requires right { CanBackOff self.now.callers source.replica (known_of seat.old.me.0).local }
        requires allows { MayRelease (instance_at self.now O.step O.only_reads) source.replica self.now.table.slots seat.old.id seat.old.me J.tells }
        ensures taught { KeepsTableKnowing seat.old.table_id seat.new.table_id (J.tells result seat.new.me) }
        ensures summary { Follows self.now.callers (BackOff source.replica) result summary.old summary.new }
    {
        let Token {
            replica,
            caller: _,
            kind: _,
        } = source;
        let r = replica as u64;
        let word = lock_at(self.callers.number, r);
        let found = self.run::<J, A>(seat, about, word, Instruction::Subtract(1));
        summary.back_off(r);
        found
    }

    /// Turns an exclusive right into a shared one, where no word is dirty and whatever fits what is noted is the image after
    /// the place noted, by entries that the caller has. It gives the word found and the token of the shared right. `Halt` comes only where
    /// the limit leaves no step.
    pub fn downgrade(
        &self,
        seat: &mut CallerSeat,
        held: Exclusive,
    ) -> Result<(u64, Downgraded), Halt>
        requires may { MayStep O.Object self.now (Downgrade held.replica) seat.old }
        requires held { IsExclusiveOf self.now.callers seat.old held }
        requires replayed { IsReplayedToPlaceIn O.Object self.now seat.old.known }
        ensures step { MakesStep self.now seat.old seat.new result (λ x. Steps self.now O.step O.only_reads (Downgrade held.replica) x.0 seat.old seat.new) }
        ensures token { IfOk result (λ x. (x.1.replica ≡ held.replica) × IsDowngradedOf self.now.callers seat.new x.1) }
    {
        let Token {
            replica,
            caller,
            kind: _,
        } = held;
        let r = replica as u64;
        let word = lock_at(self.callers.number, r);
        let lowering = Instruction::Subtract(EXCLUSIVE_MARK - 1);
        let found = self.made_learned(seat, &Kind::Downgrade { r }, word, lowering)?;
        let lowered = Token {
            replica,
            caller,
            kind: PhantomData,
        };
        Ok((found, lowered))
    }

    /// Releases an exclusive right, where no word is dirty and whatever fits what is noted is the image after its place, by
    /// entries that the caller has. It gives the word found. `Halt` comes only where the limit leaves no step.
    pub fn release_exclusive(&self, seat: &mut CallerSeat, held: Exclusive) -> Result<u64, Halt>
        requires may { MayStep O.Object self.now (ReleaseExclusive held.replica) seat.old }
        requires held { IsExclusiveOf self.now.callers seat.old held }
        requires replayed { IsReplayedIn O.Object self.now seat.old.known }
        ensures { MakesStep self.now seat.old seat.new result (λ found. Steps self.now O.step O.only_reads (ReleaseExclusive held.replica) found seat.old seat.new) }
    {
        let Token {
            replica,
            caller: _,
            kind: _,
        } = held;
        let r = replica as u64;
        let kind = Kind::ReleaseExclusive { r };
        let word = lock_at(self.callers.number, r);
        self.made_learned(seat, &kind, word, Instruction::Subtract(EXCLUSIVE_MARK))
    }
}

/// The token of an exclusive try that found this word.
fn exclusive_token(found: u64, replica: u32, caller: u32) -> Option<Exclusive>
    ensures { HandsExclusive replica caller found result }
{
    if found == 0 {
        Some(Token::of(replica, caller))
    } else {
        None
    }
}

/// The token of a shared try that found this word.
fn shared_token(found: u64, replica: u32, caller: u32) -> Result<SharedHold, Passer>
    ensures { HandsShared replica caller found result }
{
    if found < EXCLUSIVE_MARK {
        Ok(Token::of(replica, caller))
    } else {
        Err(Token::of(replica, caller))
    }
}

/// The replica that a right is on.
fn replica_in(right: SharedRight) -> u32
    ensures { result ≡ replica_of right }
{
    match right {
        SharedRight::Hold(held) => held.replica,
        SharedRight::Passer(mark) => mark.replica,
        SharedRight::Downgraded(held) => held.replica,
    }
}

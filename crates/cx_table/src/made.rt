//! A step as data: its kind, its word, and its instruction or the word that it stores. What the seat keeps in plain memory follows by the kind. Each
//! step call names its kind, and these functions are inlined there, so that the compiled step has the code of its kind alone. `Halt` comes exactly
//! where the seat's steps equal its limit, and then nothing changes.

ghost use Rattle.std.specs.Prelude.{◌≡◌, ℕ};
ghost use Rattle.cx_core.specs.declared.local.Local.{Local};
ghost use Rattle.table_invariant.specs.Running.{instance_at};
ghost use Rattle.table_invariant.specs.Seats.{kind_found};
ghost use Rattle.table_invariant.specs.Steps.{IsBlind, MayStepKnowing, IsStoreEvent, Puts, Steps};
ghost use Rattle.cx_table.specs.Calls.{IsShownStep, MakesFittingStep, MayMake};
ghost use Rattle.cx_table.specs.Words.{put_by};

use crate::events::Instruction;
use crate::seat::CallerSeat;
use crate::shared::Shared;
use caller_cache::follow;
use cx_base::{Halt, Object};
use cx_core::Kind;

impl<O: Object> Shared<O> {
    /// Makes the step of this kind: an instruction on its word. It gives the word found.
    #[inline(always)]
    pub(crate) fn made(
        &self,
        seat: &mut CallerSeat,
        kind: &Kind,
        word: usize,
        instruction: Instruction,
    ) -> Result<u64, Halt>
        requires may { MayMake O.Object self.now kind.now word seat.old }
        requires shown { IsShownStep O.Object self.now kind.now word seat.old }
        requires puts { Puts (instance_at self.now O.step O.only_reads) kind.now seat.old.known.local (put_by instruction) }
        ensures { MakesFittingStep O.Object self.now seat.old seat.new result (λ found. Steps self.now O.step O.only_reads kind.now found seat.old seat.new) }
    {
        self.made_learned(seat, kind, word, instruction)
    }

    /// Makes the step of this kind, as what its caller noted tells it: an instruction on its word. It gives the word found, by which a load that may be
    /// marked as a refusal is marked.
    #[inline(always)]
    pub(crate) fn made_learned(
        &self,
        seat: &mut CallerSeat,
        kind: &Kind,
        word: usize,
        instruction: Instruction,
    ) -> Result<u64, Halt>
        requires may { MayMake O.Object self.now kind.now word seat.old }
        requires learns { MayStepKnowing (instance_at self.now O.step O.only_reads) kind.now seat.old.known word (put_by instruction) }
        ensures { MakesFittingStep O.Object self.now seat.old seat.new result (λ found. Steps self.now O.step O.only_reads (kind_found (instance_at self.now O.step O.only_reads) kind.now seat.old.known.local found) found seat.old seat.new) }
    {
        seat.summary.check()?;
        let found = self.learned(&mut seat.seat, kind, word, instruction);
        follow(&mut seat.summary, &mut seat.copy, self.callers, kind, found);
        Ok(found)
    }

    /// Makes the step of this kind that stores a word.
    #[inline(always)]
    pub(crate) fn stored(
        &self,
        seat: &mut CallerSeat,
        kind: &Kind,
        word: usize,
        new: u64,
    ) -> Result<(), Halt>
        requires may { MayMake O.Object self.now kind.now word seat.old }
        requires shown { IsShownStep O.Object self.now kind.now word seat.old }
        requires stores { IsStoreEvent (instance_at self.now O.step O.only_reads) kind.now seat.old.known new }
        ensures { MakesFittingStep O.Object self.now seat.old seat.new result (λ _. Steps self.now O.step O.only_reads kind.now 0 seat.old seat.new) }
    {
        self.stored_learned(seat, kind, word, new)
    }

    /// Makes the step of this kind that stores a word, as what its caller noted tells it.
    #[inline(always)]
    pub(crate) fn stored_learned(
        &self,
        seat: &mut CallerSeat,
        kind: &Kind,
        word: usize,
        new: u64,
    ) -> Result<(), Halt>
        requires may { MayMake O.Object self.now kind.now word seat.old }
        requires learns { MayStepKnowing (instance_at self.now O.step O.only_reads) kind.now seat.old.known word (λ _. new) }
        requires plain { (l : Local) (found : ℕ) → kind_found (instance_at self.now O.step O.only_reads) kind.now l found ≡ kind.now }
        requires blind { IsBlind (instance_at self.now O.step O.only_reads) kind.now seat.old.known }
        ensures { MakesFittingStep O.Object self.now seat.old seat.new result (λ _. Steps self.now O.step O.only_reads kind.now 0 seat.old seat.new) }
    {
        seat.summary.check()?;
        self.store_learned(&mut seat.seat, kind, word, new);
        follow(&mut seat.summary, &mut seat.copy, self.callers, kind, 0);
        Ok(())
    }
}

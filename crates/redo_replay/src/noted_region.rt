//! A replica held exclusively as a memory that notes what is stored.

ghost use Rattle.std.specs.Prelude.{◌≡◌, ◌+◌, IfOk, IsTrue, OnErr, OnOk, Some};
ghost use Rattle.cx_base.specs.Memory.{Becomes};
ghost use Rattle.cx_core.specs.Region.{region_words};
ghost use Rattle.cx_core.specs.Step.{IsStepped};
ghost use Rattle.table_invariant.specs.Fitting.{FitsKnown};
ghost use Rattle.table_invariant.specs.Seats.{IsWithinLimit};
ghost use Rattle.table_invariant.specs.Stores.{FitsIn, TellsSetIn};
ghost use Rattle.cx_table.specs.Runs.{StartsAt};
ghost use Rattle.cx_table.specs.Seats.{HasMadeSteps};
ghost use Rattle.redo_replay.specs.Noting.{BeginsNoting, CanNote, IsNotingOf, Notes};
ghost use Rattle.replica.specs.Held.{IsHeld, left_of};
ghost use Rattle.replica.specs.Regions.{HasPlace};
ghost use Rattle.replica.specs.Replays.{IsAfterFullStep, ComesNext, IsReady, ShowsReplyIn, noted_place};

use crate::facts::steps_are_within_limit;
use cx_base::{Halt, Memory, Object, OpWords};
use cx_core::{Entry, full_step_into};
use cx_table::{CallerSeat, Exclusive, Shared};
use redo_set::{WriteSet, note_gaps};
use replica::HeldWords;
use std::marker::{Brand, PhantomData};

/// What a seat knew when the noting began. It is for the proofs alone: a call at `Brand` picks it.
pub trait KnowledgeAtStart {
    ghost use Rattle.table_invariant.specs.declared.rule.Known.{Known};

    ghost known: { Known };
}

impl KnowledgeAtStart for Brand {
    ghost use Rattle.table_invariant.specs.Seats.{nobody};

    ghost known = { nobody };
}

/// A replica held exclusively as a memory, for loads and stores. Each store is also noted, while the set has room. The place was
/// loaded before.
#[derive(Drop)]
pub struct NotingRegion<'a, T: HeldWords, J: KnowledgeAtStart> {
    table: &'a T,
    seat: &'a mut CallerSeat,
    held: &'a Exclusive,
    /// Where the replica's words begin in the table.
    start: usize,
    set: &'a mut WriteSet,
    /// Whether each store was noted.
    whole: bool,
    began: PhantomData<J>,
    ghost of: { IsHeld (T.line_count table.now) (T.running table.now) (T.lawful table.now) (T.step table.now) seat.now held.now },
    ghost starts: { StartsAt (T.running table.now) held.now.replica start },
    ghost within: { IsWithinLimit seat.now.known.local },
    ghost place: { HasPlace seat.now.known.accesses },
    ghost since: { HasMadeSteps J.known.local.steps seat.now },
    ghost notes: { IsTrue whole → ∥ Notes (FitsKnown (T.line_count table.now) (T.lawful table.now) (T.running table.now).base (T.step table.now) J.known) (FitsKnown (T.line_count table.now) (T.lawful table.now) (T.running table.now).base (T.step table.now) seat.now.known) (region_words (T.line_count table.now)) set.now ∥₁ },
}

impl<'a, T: HeldWords, J: KnowledgeAtStart> NotingRegion<'a, T, J> {
    /// The region of the replica that a token is of, of which nothing is noted yet.
    pub fn of(
        table: &'a T,
        seat: &'a mut CallerSeat,
        held: &'a Exclusive,
        set: &'a mut WriteSet,
    ) -> NotingRegion<'a, T, J>
        requires held { IsHeld (T.line_count table.now) (T.running table.now) (T.lawful table.now) (T.step table.now) seat.old held.now }
        requires begins { BeginsNoting J.known seat.old }
        ensures of { IsNotingOf table.now result.table.now seat.old result.seat.now held.now result.held.now }
        ensures names { (result.seat.ghost_name ≡ seat.entry.ghost_name) × (result.set.ghost_name ≡ set.entry.ghost_name) }
    {
        steps_are_within_limit(seat);
        let start = table.start_held(seat, held);
        set.clear();
        NotingRegion {
            table,
            seat,
            held,
            start,
            set,
            whole: true,
            began: PhantomData,
        }
    }
}

impl<T: HeldWords, J: KnowledgeAtStart> Memory for NotingRegion<'_, T, J> {
    ghost use Rattle.std.specs.Prelude.{true, List, ℕ};
    ghost use Rattle.std.specs.Borrow.{GName};
    ghost use Rattle.redo_replay.specs.Noting.{NotingFixed};
    ghost use Rattle.replica.specs.Held.{unchanged_by_access};
    ghost use Rattle.replica.specs.Regions.{known_words};

    ghost size = { λ r. region_words (T.line_count r.table.now) };

    ghost Fixed = { NotingFixed GName T };

    ghost fixed = { λ r. record { name = r.seat.ghost_name; set = r.set.ghost_name; table = r.table.now; held = r.held.now; rest = unchanged_by_access r.held.now.replica r.seat.now } };

    ghost writable = { λ _. true };

    ghost left = { λ r. left_of r.seat.now.known.local };

    ghost Key = { List ℕ };

    ghost stands = { λ r. FitsKnown (T.line_count r.table.now) (T.lawful r.table.now) (T.running r.table.now).base (T.step r.table.now) r.seat.now.known };

    ghost some_stands = { λ r. r.of.some };

    ghost words = { λ r. known_words (T.line_count r.table.now) (T.lawful r.table.now) (T.running r.table.now).base (T.step r.table.now) r.seat.now.known };

    fn load(&mut self, at: u64) -> Result<u64, Halt> {
        self.table.load_held(self.seat, self.held, self.start, at)
    }

    fn load_words(&mut self, at: u64, into: &mut [u64]) -> Result<(), Halt> {
        self.table
            .load_held_words(self.seat, self.held, self.start, at, into)
    }

    fn store(&mut self, at: u64, v: u64) -> Result<(), Halt> {
        self.table.store_held(self.seat, self.held, at, v)?;
        self.whole = self.whole && self.set.note(at, v);
        Ok(())
    }
}

/// Does the full step of an entry on a replica held exclusively, and notes what it stores. It answers whether the set has room for all. The noting
/// begins with what the seat knows.
fn step_noting<O: Object, J: KnowledgeAtStart>(
    shared: &Shared<O>,
    seat: &mut CallerSeat,
    held: &Exclusive,
    entry: &Entry,
    set: &mut WriteSet,
    reply: &mut OpWords,
) -> (Result<(), Halt>, bool)
    requires can { CanNote O.Object shared.now held.now entry.now seat.old }
    requires began { J.known ≡ seat.old.known }
    ensures done { OnOk result.0 (Becomes (FitsIn O.Object shared.now seat.old.known) (FitsIn O.Object shared.now seat.new.known) (IsStepped (O.step shared.now.object) entry.now reply.new)) }
    ensures noted { IsTrue result.1 → ∥ Notes (FitsIn O.Object shared.now J.known) (FitsIn O.Object shared.now seat.new.known) (region_words (O.line_count shared.now.object)) set.new ∥₁ }
    ensures halts { OnErr result.0 (left_of seat.new.known.local ≡ Some 0) }
    ensures leaves { IsAfterFullStep O.Object shared.now held.now seat.old seat.new }
{
    let object = shared.object();
    let mut region = NotingRegion::<'_, Shared<O>, J>::of(shared, seat, held, set);
    let done = full_step_into(object, &mut region, entry, reply);
    let NotingRegion { whole, .. } = region;
    (done, whole)
}

/// Does the full step of the entry of the place of a replica held exclusively, as `apply` of `replica` does, and notes what it stores. It
/// answers whether the set has room for all: then it is known to be a write set of the entry's ticket, and the gaps that it leaves are noted in the
/// ring for that ticket. `Halt` comes only where the seat's steps equal its limit.
pub fn apply_noting<O: Object>(
    shared: &Shared<O>,
    seat: &mut CallerSeat,
    held: &Exclusive,
    entry: &Entry,
    set: &mut WriteSet,
    reply: &mut OpWords,
) -> Result<bool, Halt>
    requires ready { IsReady O.Object shared.now held.now (noted_place seat.old) seat.old }
    requires next { ComesNext entry.now seat.old }
    ensures ready { OnOk result (IsReady O.Object shared.now held.now (noted_place seat.old + 1) seat.new × ShowsReplyIn O.Object shared.now seat.new.known entry.now.caller reply.new) }
    ensures tells { IfOk result (λ whole. IsTrue whole → TellsSetIn O.Object shared.now seat.new.known (noted_place seat.old) set.new) }
    ensures halts { OnErr result (left_of seat.new.known.local ≡ Some 0) }
    ensures leaves { IsAfterFullStep O.Object shared.now held.now seat.old seat.new }
{
    let ticket = seat.noted_place();
    let (done, whole) = step_noting::<O, Brand>(shared, seat, held, entry, set, reply);
    // pairs are few
    let _pairs = set.len();
    done?;
    if !whole {
        return Ok(false);
    }
    note_gaps(shared, seat, ticket, set)?;
    steps_are_within_limit(seat);
    Ok(true)
}

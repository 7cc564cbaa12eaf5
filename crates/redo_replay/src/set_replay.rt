//! Entries that are brought onto a replica held exclusively by their write sets: an older one of the caller's own, and another's where its set is
//! offered. An own entry that is done for the first time is brought by its step, and its write set is then offered, or kept where nobody else reads
//! it. A set is stored over the image after the place that is its ticket, and makes the image after the next.

ghost use Rattle.std.specs.Prelude.{◌+◌, ◌<◌, IsTrue, MatchResult, IfOk, ◌≡◌, OnErr, OnOk, Some};
ghost use Rattle.cx_core.specs.QueueEvents.{cell_of};
ghost use Rattle.cx_core.specs.Region.{region_words};
ghost use Rattle.table_invariant.specs.Fitting.{IsSetWithin};
ghost use Rattle.table_invariant.specs.Seats.{IsAtLimit};
ghost use Rattle.replica.specs.Replays.{ComesNext, IsReady, IsAfterFullStep, noted_place};
ghost use Rattle.replica.specs.Held.{IsSized, KeepsHeld, IsHeldIn, left_of};
ghost use Rattle.redo_replay.specs.Offered.{ReplaysOffered, BringsOffered, KeepsOffered};
ghost use Rattle.redo_replay.specs.Own.{HasApplied, KeepsOwn};
ghost use Rattle.cx_table.specs.Calls.{MakesStep};
ghost use Rattle.mutation_queue.specs.Entries.{LoadsLink, MayReplay};
ghost use Rattle.replica.specs.Regions.{HasPlace};
ghost use Rattle.redo_replay.specs.Storing.{IsPairStored, IsSetStored, OwnSetComesNext, SetComesNext};

use crate::facts::steps_are_within_limit;
use crate::noted_region::apply_noting;
use cx_base::{Halt, Object, OpWords, link_cell};
use cx_core::layout::cell_count;
use cx_core::{Entry, HEAD_LINES, LINE_WORDS};
use cx_table::{CallerSeat, Exclusive, Shared};
use redo_set::{WriteSet, keep, offer, take, take_kept};
use replica::HeldWords;

/// Whether the set of the caller's own entry, whose ticket is the place of a replica held exclusively, is offered, or kept by the only caller of a table;
/// if so the set brings the replica on, from the seat's memory: a store of each pair, and no load. If not, no step is made. `Halt` comes only where the
/// seat's steps equal its limit. What the set given has is left open.
pub fn replay_own<O: Object>(
    shared: &Shared<O>,
    seat: &mut CallerSeat,
    held: &Exclusive,
    ticket: u64,
    set: &mut WriteSet,
) -> Result<bool, Halt>
    requires ready { IsReady O.Object shared.now held.now ticket seat.old }
    ensures replayed { MatchResult result (ReplaysOffered O.Object shared.now held.now ticket seat.new) (λ _. IsAtLimit seat.new.known.local) }
    ensures leaves { KeepsHeld O.Object shared.now held.now seat.old seat.new }
{
    if shared.callers() == 1 {
        return replay_kept(shared, seat, held, ticket, set);
    }
    replay_cell(shared, seat, held, ticket)
}

/// Whether the caller keeps the set of its own entry with a ticket, which is the replica's place; if so the set brings the replica on.
fn replay_kept<O: Object>(
    shared: &Shared<O>,
    seat: &mut CallerSeat,
    held: &Exclusive,
    ticket: u64,
    set: &mut WriteSet,
) -> Result<bool, Halt>
    requires ready { IsReady O.Object shared.now held.now ticket seat.old }
    ensures replayed { MatchResult result (ReplaysOffered O.Object shared.now held.now ticket seat.new) (λ _. IsAtLimit seat.new.known.local) }
    ensures leaves { KeepsHeld O.Object shared.now held.now seat.old seat.new }
{
    if !take_kept(seat, ticket, set) {
        return Ok(false);
    }
    store_set(shared, seat, held, set)?;
    Ok(true)
}

/// Whether the caller's own entry with a ticket, which is the replica's place, is offered in a cell; if so the set in that cell brings the replica on.
fn replay_cell<O: Object>(
    shared: &Shared<O>,
    seat: &mut CallerSeat,
    held: &Exclusive,
    ticket: u64,
) -> Result<bool, Halt>
    requires ready { IsReady O.Object shared.now held.now ticket seat.old }
    ensures replayed { MatchResult result (ReplaysOffered O.Object shared.now held.now ticket seat.new) (λ _. IsAtLimit seat.new.known.local) }
    ensures leaves { KeepsHeld O.Object shared.now held.now seat.old seat.new }
{
    let Some(cell) = seat.offered_cell(ticket) else {
        return Ok(false);
    };
    if !is_within(shared, seat, cell) {
        return Ok(false);
    }
    store_own_set(shared, seat, held, cell)?;
    Ok(true)
}

/// Whether the set of an own cell has the addresses of a region alone. Each that was offered has, which the seat does not show.
fn is_within<O: Object>(shared: &Shared<O>, seat: &CallerSeat, cell: u64) -> bool
    requires sized { IsSized (O.line_count shared.now.object) shared.now }
    requires few { cell < 16 }
    ensures { IsTrue result → IsSetWithin (region_words (O.line_count shared.now.object)) (cell_of seat.now.known.local cell).set }
{
    let region = LINE_WORDS * (HEAD_LINES + shared.lines());
    let count = seat.set_word(cell, 0);
    if count > 256 {
        return false;
    }
    for m in 0..count {
        if seat.set_word(cell, 2 * m + 1) >= region {
            return false;
        }
    }
    true
}

/// Does the full step of the caller's own entry, whose ticket is the place of a replica held exclusively, and offers what it stored as the
/// entry's write set, where that has room for it and the entry is not offered yet. The only caller of a table keeps it instead, since nobody else
/// reads it. The reply is written into the caller's buffer, and is the one
/// that the replica then has for the entry's caller. `Halt` comes only where the seat's steps equal its limit.
pub fn step_and_offer<O: Object>(
    shared: &Shared<O>,
    seat: &mut CallerSeat,
    held: &Exclusive,
    ticket: u64,
    entry: &Entry,
    set: &mut WriteSet,
    reply: &mut OpWords,
) -> Result<(), Halt>
    requires ready { IsReady O.Object shared.now held.now ticket seat.old }
    requires next { ComesNext entry.now seat.old }
    ensures applied { MatchResult result (λ _. HasApplied O.Object shared.now held.now (ticket + 1) entry.now.caller reply.new seat.new) (λ _. IsAtLimit seat.new.known.local) }
    ensures leaves { KeepsOwn shared.now held.now.replica seat.old seat.new }
{
    let whole = apply_noting(shared, seat, held, entry, set, reply)?;
    if !whole {
        return Ok(());
    }
    if shared.callers() == 1 {
        keep(shared, seat, ticket, set);
        return Ok(());
    }
    let Some(cell) = seat.unoffered_cell(ticket) else {
        return Ok(());
    };
    offer(shared, seat, cell, ticket, set)?;
    Ok(())
}

/// Whether the entry whose ticket is the place of a replica held exclusively is offered; if so its write set brings the replica on: a look at its slot, a
/// load of the offer, a load of each word of the set, and a store of each pair. Where it is not offered, the replica is as it was. A set that is counted is
/// one whose pairs were stored. `Halt` comes only where the seat's steps equal its limit.
pub fn replay_offered<O: Object>(
    shared: &Shared<O>,
    seat: &mut CallerSeat,
    held: &Exclusive,
    ticket: u64,
    set: &mut WriteSet,
) -> Result<bool, Halt>
    requires ready { IsReady O.Object shared.now held.now ticket seat.old }
    requires may { MayReplay shared.now ticket seat.old }
    ensures replayed { MatchResult result (ReplaysOffered O.Object shared.now held.now ticket seat.new) (λ _. IsAtLimit seat.new.known.local) }
    ensures brought { IfOk result (BringsOffered O.Object shared.now ticket set.new seat.old seat.new) }
    ensures leaves { KeepsOffered shared.now held.now.replica seat.old seat.new }
{
    let cell = see_cell(shared, seat, ticket)?;
    let taken = take(shared, seat, cell, ticket, set)?;
    if !taken {
        return Ok(false);
    }
    store_set(shared, seat, held, set)?;
    Ok(true)
}

/// The cell of a ticket, by one look at its slot.
fn see_cell<O: Object>(shared: &Shared<O>, seat: &mut CallerSeat, ticket: u64) -> Result<u64, Halt>
    requires may { MayReplay shared.now ticket seat.old }
    ensures { MakesStep shared.now seat.old seat.new result (λ cell. LoadsLink shared.now ticket cell seat.old seat.new) }
{
    let callers = shared.callers();
    let slot = ticket % cell_count(callers);
    let word = shared.look(seat, slot)?;
    Ok(u64::from(link_cell(callers, word)))
}

/// Stores the pairs of the write set with the place of a replica held exclusively as its ticket: it is the image after its place, and then
/// that after the next, as after the full step of that entry. `Halt` comes only where the seat's steps equal its limit.
pub fn store_set<O: Object>(
    shared: &Shared<O>,
    seat: &mut CallerSeat,
    held: &Exclusive,
    set: &WriteSet,
) -> Result<(), Halt>
    requires ready { IsReady O.Object shared.now held.now (noted_place seat.old) seat.old }
    requires next { SetComesNext (region_words (O.line_count shared.now.object)) set.now seat.old }
    ensures stored { OnOk result (IsSetStored O.Object shared.now held.now set.now seat.old seat.new) }
    ensures halts { OnErr result (left_of seat.new.known.local ≡ Some 0) }
    ensures leaves { IsAfterFullStep O.Object shared.now held.now seat.old seat.new }
{
    steps_are_within_limit(seat);
    for m in 0..set.len() {
        let (at, v) = set.pair(m);
        put_pair(shared, seat, held, at, v)?;
    }
    Ok(())
}

/// Stores the pairs of the set of the caller's own entry in a cell, from the seat's memory, where the entry's ticket is the place of a replica held
/// exclusively: it is the image after its place, and then that after the next. `Halt` comes only where the seat's steps equal its limit.
pub fn store_own_set<O: Object>(
    shared: &Shared<O>,
    seat: &mut CallerSeat,
    held: &Exclusive,
    cell: u64,
) -> Result<(), Halt>
    requires ready { IsReady O.Object shared.now held.now (noted_place seat.old) seat.old }
    requires next { OwnSetComesNext (region_words (O.line_count shared.now.object)) cell seat.old }
    ensures ready { OnOk result (IsReady O.Object shared.now held.now (noted_place seat.old + 1) seat.new) }
    ensures halts { OnErr result (left_of seat.new.known.local ≡ Some 0) }
    ensures leaves { IsAfterFullStep O.Object shared.now held.now seat.old seat.new }
{
    steps_are_within_limit(seat);
    for m in 0..seat.set_word(cell, 0) {
        let at = seat.set_word(cell, 2 * m + 1);
        let v = seat.set_word(cell, 2 * m + 2);
        put_pair(shared, seat, held, at, v)?;
    }
    Ok(())
}

/// Stores a word over a replica held exclusively, by one access.
fn put_pair<O: Object>(
    shared: &Shared<O>,
    seat: &mut CallerSeat,
    held: &Exclusive,
    at: u64,
    v: u64,
) -> Result<(), Halt>
    requires held { IsHeldIn O.Object shared.now seat.old held.now }
    requires begun { HasPlace seat.old.known.accesses }
    requires at { at < region_words (O.line_count shared.now.object) }
    ensures stored { OnOk result (IsPairStored O.Object shared.now at v seat.old seat.new) }
    ensures halts { OnErr result (left_of seat.new.known.local ≡ Some 0) }
    ensures leaves { IsAfterFullStep O.Object shared.now held.now seat.old seat.new }
{
    steps_are_within_limit(seat);
    shared.store_held(seat, held, at, v)
}

//! A replica held exclusively is brought up to a ticket by the entries of the queue.

ghost use Rattle.std.specs.Prelude.{◌+◌, ◌<◌, ◌∷◌, ◌≡◌, ◌≤◌, MatchResult, OnOk, Some, true, ℕ};
ghost use Rattle.cx_base.specs.Memory.{Reads};
ghost use Rattle.cx_core.specs.Region.{slot_reply};
ghost use Rattle.cx_core.specs.RingEvents.{Protects};
ghost use Rattle.table_invariant.specs.Seats.{IsAtLimit};
ghost use Rattle.table_invariant.specs.Stores.{FitsIn};
ghost use Rattle.cx_attempts.specs.Bringing.{CountsEntries};
ghost use Rattle.cx_attempts.specs.Keeping.{IsKeptFor};
ghost use Rattle.cx_attempts.specs.Replaying.{AppliesAnother, IsApplied, IsBroughtUp, IsReplayedPast, IsReplayedWith, IsReplicaSettled, LoadsOnly, MayApply, ReadsNext, ReplaysAnother, unchanged_by_bringing, unchanged_by_replay, unchanged_by_work};
ghost use Rattle.cx_attempts.specs.Attempts.{KeepsSeat};
ghost use Rattle.mutation_queue.specs.Entries.{MayReplay};
ghost use Rattle.replica.specs.Held.{IsHeldIn, unchanged_by_access, left_of};
ghost use Rattle.replica.specs.Regions.{HasPlace};
ghost use Rattle.replica.specs.Replays.{IsReady, ShowsReplyIn, noted_place};

use crate::facts::{callers_are_few, tickets_are_few};
use crate::renewal::unguard;
use crate::scratch::Scratch;
use cx_base::{ENTRY_WORDS, Halt, Object, OpWords};
use cx_core::Entry;
use cx_table::{CallerSeat, Exclusive, Shared};
use mutation_queue::entry;
use redo_replay::{apply_noting, replay_offered, replay_own, step_and_offer};
use redo_set::WriteSet;
use replica::{Region, flush, outcome};

/// Brings a replica that was kept for the entries up to a ticket up to it, removes the protection, and makes it durable. The reply to the
/// caller's last entry there is the one that the step of that entry gave, where it was made here, and else it is read. `Halt` comes only
/// where the seat's steps equal its limit.
pub(crate) fn bring_up<O: Object>(
    shared: &Shared<O>,
    seat: &mut CallerSeat,
    held: &Exclusive,
    ticket: u64,
    scratch: &mut Scratch,
    reply: &mut OpWords,
) -> Result<(), Halt>
    requires kept { IsKeptFor O.Object shared.now ticket seat.old held.now }
    ensures brought { MatchResult result (λ _. IsBroughtUp O.Object shared.now held.now ticket seat.new reply.new) (λ _. IsAtLimit seat.new.known.local) }
    ensures counted { OnOk result (CountsEntries scratch.old.taken seat.old scratch.new.taken seat.new) }
    ensures keeps { KeepsSeat shared.now unchanged_by_bringing seat.old seat.new }
{
    let replied = replay_to(shared, seat, held, ticket, scratch, reply)?;
    unguard(shared, seat)?;
    settle(shared, seat, held, replied, reply)?;
    Ok(())
}

/// Makes a replica held exclusively durable that is the image after its place, once the caller has the reply to its last entry there.
fn settle<O: Object>(
    shared: &Shared<O>,
    seat: &mut CallerSeat,
    held: &Exclusive,
    replied: bool,
    reply: &mut OpWords,
) -> Result<(), Halt>
    requires may { IsReplayedWith O.Object shared.now held.now reply.old seat.old replied }
    ensures settled { MatchResult result (λ _. IsReplicaSettled O.Object shared.now held.now seat.old seat.new reply.new) (λ _. IsAtLimit seat.new.known.local) }
    ensures keeps { KeepsSeat shared.now unchanged_by_work seat.old seat.new }
{
    own_reply(shared, seat, held, replied, reply)?;
    flush(shared, seat, held)?;
    Ok(())
}

/// Reads the reply to the caller's own last entry in a replica held exclusively, where the caller does not have it.
fn own_reply<O: Object>(
    shared: &Shared<O>,
    seat: &mut CallerSeat,
    held: &Exclusive,
    replied: bool,
    reply: &mut OpWords,
) -> Result<(), Halt>
    requires may { IsReplayedWith O.Object shared.now held.now reply.old seat.old replied }
    ensures reply { MatchResult result (λ _. ShowsReplyIn O.Object shared.now seat.new.known seat.new.known.local.number reply.new) (λ _. IsAtLimit seat.new.known.local) }
    ensures ready { IsReady O.Object shared.now held.now (noted_place seat.old) seat.new }
    ensures keeps { KeepsSeat shared.now (unchanged_by_access held.now.replica) seat.old seat.new }
{
    if replied {
        return Ok(());
    }
    load_own(shared, seat, held, reply)
}

/// Applies the entries from the place of a replica held exclusively up to a ticket, in order, each by its write set where the caller has that
/// or it is offered, and else by its step: where the place is above the ticket, none. The caller's own are had from the seat's memory, and what is
/// read of another's is read from the queue while the caller's protection keeps it. The write set of an own entry whose step is done is offered. The
/// replica is the image after its place before and afterwards, and then its place is above the ticket. It tells whether the last one that it
/// applied is the caller's own by its step, whose reply it then gives. `Halt` comes only where the seat's steps equal its limit.
pub fn replay_to<O: Object>(
    shared: &Shared<O>,
    seat: &mut CallerSeat,
    held: &Exclusive,
    ticket: u64,
    scratch: &mut Scratch,
    reply: &mut OpWords,
) -> Result<bool, Halt>
    requires ready { IsReady O.Object shared.now held.now (noted_place seat.old) seat.old }
    requires linked { ticket < seat.old.known.local.front }
    requires protected { (t : ℕ) → noted_place seat.old ≤ t → t ≤ ticket → Protects t seat.old.known.local.protection }
    ensures replayed { MatchResult result (IsReplayedPast O.Object shared.now held.now ticket reply.new seat.new) (λ _. IsAtLimit seat.new.known.local) }
    ensures counted { OnOk result (CountsEntries scratch.old.taken seat.old scratch.new.taken seat.new) }
    ensures keeps { KeepsSeat shared.now unchanged_by_replay seat.old seat.new }
{
    tickets_are_few(seat);
    let place = seat.noted_place();
    if ticket < place {
        return Ok(false);
    }
    let mut own = false;
    for at in place..ticket + 1 {
        own = replay_next(shared, seat, held, at, scratch, reply)?;
    }
    Ok(own)
}

/// Applies the entry of the place of a replica held exclusively. It tells whether that is the caller's own, whose step was done; then its write set
/// is offered.
fn replay_next<O: Object>(
    shared: &Shared<O>,
    seat: &mut CallerSeat,
    held: &Exclusive,
    at: u64,
    scratch: &mut Scratch,
    reply: &mut OpWords,
) -> Result<bool, Halt>
    requires may { MayApply O.Object shared.now held.now at seat.old }
    ensures applied { MatchResult result (IsApplied O.Object shared.now held.now at reply.new seat.new) (λ _. IsAtLimit seat.new.known.local) }
    ensures counted { OnOk result (CountsEntries scratch.old.taken seat.old scratch.new.taken seat.new) }
    ensures keeps { KeepsSeat shared.now unchanged_by_replay seat.old seat.new }
{
    let done = replay_own(shared, seat, held, at, &mut scratch.set)?;
    if done {
        return Ok(false);
    }
    if seat.own_entry(at, &mut scratch.next) {
        callers_are_few(shared);
        step_and_offer(
            shared,
            seat,
            held,
            at,
            &scratch.next,
            &mut scratch.set,
            reply,
        )?;
        return Ok(true);
    }
    replay_another(shared, seat, held, at, scratch, reply)?;
    Ok(false)
}

/// Applies another's entry, whose ticket is the place of a replica held exclusively, and counts its write set where it was applied by that.
fn replay_another<O: Object>(
    shared: &Shared<O>,
    seat: &mut CallerSeat,
    held: &Exclusive,
    at: u64,
    scratch: &mut Scratch,
    reply: &mut OpWords,
) -> Result<(), Halt>
    requires may { MayApply O.Object shared.now held.now at seat.old }
    ensures applied { MatchResult result (λ _. ReplaysAnother O.Object shared.now held.now at scratch.old.taken seat.old scratch.new.taken seat.new) (λ _. IsAtLimit seat.new.known.local) }
    ensures keeps { KeepsSeat shared.now unchanged_by_replay seat.old seat.new }
{
    let Scratch {
        words,
        next,
        set,
        ..
    } = scratch;
    let taken = apply_another(shared, seat, held, at, words, next, set, reply)?;
    if taken {
        scratch.taken = scratch.taken.saturating_add(1);
    }
    Ok(())
}

/// Applies another's entry, whose ticket is the place of a replica held exclusively: by its write set where that is offered, at once or by the time
/// that the entry was read, and else by its step. It is true where it was by its write set.
fn apply_another<O: Object>(
    shared: &Shared<O>,
    seat: &mut CallerSeat,
    held: &Exclusive,
    at: u64,
    words: &mut [u64; ENTRY_WORDS],
    next: &mut Entry,
    set: &mut WriteSet,
    reply: &mut OpWords,
) -> Result<bool, Halt>
    requires may { MayApply O.Object shared.now held.now at seat.old }
    ensures applied { MatchResult result (AppliesAnother O.Object shared.now held.now at seat.old seat.new) (λ _. IsAtLimit seat.new.known.local) }
    ensures keeps { KeepsSeat shared.now unchanged_by_replay seat.old seat.new }
{
    let taken = replay_offered(shared, seat, held, at, set)?;
    if taken {
        return Ok(true);
    }
    let taken_late = step_another(shared, seat, held, at, words, next, set, reply)?;
    Ok(taken_late)
}

/// Reads another's entry, whose ticket is the place of a replica held exclusively, and does its step, unless it is offered by then: it is true where
/// it was, and then the replica was brought on by its write set.
fn step_another<O: Object>(
    shared: &Shared<O>,
    seat: &mut CallerSeat,
    held: &Exclusive,
    at: u64,
    words: &mut [u64; ENTRY_WORDS],
    next: &mut Entry,
    set: &mut WriteSet,
    reply: &mut OpWords,
) -> Result<bool, Halt>
    requires may { MayApply O.Object shared.now held.now at seat.old }
    ensures applied { MatchResult result (AppliesAnother O.Object shared.now held.now at seat.old seat.new) (λ _. IsAtLimit seat.new.known.local) }
    ensures keeps { KeepsSeat shared.now unchanged_by_replay seat.old seat.new }
{
    read_next(shared, seat, at, words, next)?;
    // its caller may have been in the midst of its own step, which takes about as long as this reading
    let taken = replay_offered(shared, seat, held, at, set)?;
    if taken {
        return Ok(true);
    }
    apply_noting(shared, seat, held, next, set, reply)?;
    Ok(false)
}

/// Reads the entry with a ticket, which is linked and protected.
fn read_next<O: Object>(
    shared: &Shared<O>,
    seat: &mut CallerSeat,
    ticket: u64,
    words: &mut [u64; ENTRY_WORDS],
    next: &mut Entry,
) -> Result<(), Halt>
    requires may { MayReplay shared.now ticket seat.old }
    ensures read { MatchResult result (λ _. ReadsNext O.Object shared.now ticket next.new seat.old seat.new) (λ _. IsAtLimit seat.new.known.local) }
    ensures keeps { KeepsSeat shared.now unchanged_by_work seat.old seat.new }
{
    let caller = entry(shared, seat, ticket, words)?;
    set_entry(next, caller, words);
    Ok(())
}

/// Makes an entry that of a caller, of these words.
fn set_entry(entry: &mut Entry, caller: u32, words: &[u64; ENTRY_WORDS])
    ensures caller { entry.new.caller ≡ caller }
    ensures words { entry.new.number ∷ entry.new.op ≡ words.now }
{
    entry.caller = caller;
    entry.number = words[0];
    entry.op.copy_from_slice(&words[1..]);
}

/// Loads the reply to the caller's own last entry in a replica held exclusively.
fn load_own<O: Object>(
    shared: &Shared<O>,
    seat: &mut CallerSeat,
    held: &Exclusive,
    reply: &mut OpWords,
) -> Result<(), Halt>
    requires held { IsHeldIn O.Object shared.now seat.old held.now }
    requires begun { HasPlace seat.old.known.accesses }
    ensures read { MatchResult result (λ _. Reads (FitsIn O.Object shared.now seat.old.known) (FitsIn O.Object shared.now seat.new.known) (λ region. slot_reply seat.old.known.local.number region ≡ reply.new)) (λ _. left_of seat.new.known.local ≡ Some 0) }
    ensures loads { LoadsOnly O.Object shared.now held.now seat.old seat.new }
{
    callers_are_few(shared);
    let caller = seat.number();
    outcome(&mut Region::placed(shared, seat, held), caller, reply)?;
    Ok(())
}

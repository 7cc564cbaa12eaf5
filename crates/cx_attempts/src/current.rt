//! The current replica is read beside the queue. `Halt` comes only where no access is left.

ghost use Rattle.std.specs.Prelude.{◌*◌, ◌<◌, ◌^◌, ◌≡◌, IsTrue, MatchResult, None, Some};
ghost use Rattle.cx_base.specs.Calls.{Finds};
ghost use Rattle.cx_base.specs.Memory.{Always};
ghost use Rattle.cx_core.specs.Region.{object_part, region_words};
ghost use Rattle.table_invariant.specs.Seats.{IsAtLimit};
ghost use Rattle.table_invariant.specs.Raises.{TellsRead};
ghost use Rattle.cx_attempts.specs.Keeping.{HoldsCurrent, HoldsNamed, MayTakeCurrent, TakesCurrent};
ghost use Rattle.cx_attempts.specs.Reads.{HoldsPlace, IsReplyRead, MayReadReply, ReadsCurrent, unchanged_by_read};
ghost use Rattle.cx_attempts.specs.Attempts.{HaltsAttempt, KeepsSeatIn, KeepsSeat};
ghost use Rattle.replica.specs.Held.{unchanged_by_shared_access};
ghost use Rattle.strong_trylock.specs.Held.{all_rights, no_rights};

use crate::facts::{callers_are_few, refusals_fit, table_is_running};
use cx_base::{Halt, Memory, Object, OpWords, root_place, root_replica};
use cx_core::{LINE_WORDS, OBJECT_START, Part};
use cx_table::{CallerSeat, Shared, SharedHold};
use replica::ReadRegion;
use strong_trylock::{SharedTried, release_shared, try_shared};

/// The word of a region that has the place.
const PLACE_AT: u64 = 0;

/// Makes the object's reply to an operation that only reads, on the object part of a region, and stores nothing. `Halt` comes only where
/// the memory has no access left.
pub fn query_part<O: Object, M: Memory>(
    object: &O,
    mem: &mut M,
    op: &OpWords,
    reply: &mut OpWords,
) -> Result<(), Halt>
    requires size { M.size mem.old ≡ region_words (O.line_count object.now) }
    requires small { region_words (O.line_count object.now) < 2 ^ 64 }
    requires lawful { Always (M.stands mem.old) (λ region. O.lawful object.now (object_part region)) }
    requires reads { IsTrue (O.only_reads object.now op.now) }
    ensures { Finds M.Memory mem.old mem.new result (λ _ region. (O.step object.now (object_part region) op.now).1 ≡ reply.new) }
{
    let len = LINE_WORDS * object.lines();
    let mut part = Part {
        inner: mem,
        from: OBJECT_START,
        len,
    };
    object.query_into(&mut part, op, reply)
}

/// Makes the object's reply to an operation that only reads, on a replica held shared whose place was loaded. That the place was
/// loaded stays known. `Halt` comes only where the seat's steps equal its limit.
pub fn query_held<O: Object>(
    shared: &Shared<O>,
    seat: &mut CallerSeat,
    held: &SharedHold,
    place: u64,
    op: &OpWords,
    reply: &mut OpWords,
) -> Result<(), Halt>
    requires placed { HoldsPlace O.Object shared.now place seat.old held.now }
    requires reads { IsTrue (O.only_reads shared.now.object op.now) }
    ensures placed { HoldsPlace O.Object shared.now place seat.new held.now }
    ensures reply { MatchResult result (λ _. TellsRead (O.line_count shared.now.object) (O.lawful shared.now.object) shared.now.base (O.step shared.now.object) seat.new.known op.now reply.new) (λ _. IsAtLimit seat.new.known.local) }
    ensures keeps { KeepsSeat shared.now (unchanged_by_shared_access held.now.replica) seat.old seat.new }
{
    let object = shared.object();
    query_part(
        object,
        &mut ReadRegion::placed(shared, seat, held, place),
        op,
        reply,
    )
}

/// Reads the replica that the code last loaded from CUR names, where nothing ended that code's use since. It takes the replica
/// shared, loads its place, and where that is the code's place makes the reply to an operation that only reads, and gives the right
/// under which it was found. `None` comes exactly where another holds the replica exclusively or its place is another one. Then a
/// refusal is met, and the caller has no right.
pub fn read_current<O: Object>(
    shared: &Shared<O>,
    seat: &mut CallerSeat,
    op: &OpWords,
    reply: &mut OpWords,
) -> Result<Option<SharedHold>, Halt>
    requires ready { MayReadReply shared.now seat.old }
    requires reads { IsTrue (O.only_reads shared.now.object op.now) }
    ensures read { MatchResult result (ReadsCurrent O.Object shared.now op.now reply.new seat.old seat.new) (λ _. HaltsAttempt seat.old seat.new) }
    ensures keeps { KeepsSeat shared.now unchanged_by_read seat.old seat.new }
{
    callers_are_few(shared);
    match take_current(shared, seat)? {
        Some(hold) => Ok(Some(read_taken(shared, seat, hold, op, reply)?)),
        None => Ok(None),
    }
}

/// Reads the reply from the replica that was just taken, held shared at the place of CUR's code, and hands the hold on.
fn read_taken<O: Object>(
    shared: &Shared<O>,
    seat: &mut CallerSeat,
    hold: SharedHold,
    op: &OpWords,
    reply: &mut OpWords,
) -> Result<SharedHold, Halt>
    requires current { HoldsCurrent O.Object shared.now no_rights seat.old seat.old hold }
    requires reads { IsTrue (O.only_reads shared.now.object op.now) }
    ensures read { MatchResult result (IsReplyRead O.Object shared.now op.now reply.new seat.old seat.new) (λ _. HaltsAttempt seat.old seat.new) }
    ensures keeps { KeepsSeat shared.now unchanged_by_read seat.old seat.new }
{
    let place = root_place(shared.callers(), seat.seen_cur());
    query_held(shared, seat, &hold, place, op, reply)?;
    Ok(hold)
}

/// Takes the replica shared that the code last loaded from CUR names, where nothing ended that code's use since, and loads its place.
/// `None` comes exactly where another holds the replica exclusively or its place is not the code's. Then a refusal is met, and the caller
/// has the rights that it had.
pub(crate) fn take_current<O: Object>(
    shared: &Shared<O>,
    seat: &mut CallerSeat,
) -> Result<Option<SharedHold>, Halt>
    requires may { MayTakeCurrent shared.now seat.old }
    ensures taken { MatchResult result (TakesCurrent O.Object shared.now (all_rights seat.old) seat.old seat.new) (λ _. HaltsAttempt seat.old seat.new) }
    ensures keeps { KeepsSeatIn shared.now unchanged_by_read 3 seat.old seat.new }
{
    refusals_fit(seat);
    table_is_running(shared);
    let replica = root_replica(shared.callers(), seat.seen_cur());
    match try_shared(shared, seat, replica)? {
        SharedTried::Got(hold) => test_place(shared, seat, hold),
        SharedTried::Held { found: _ } => Ok(None),
    }
}

/// Loads the place of a replica held shared, and gives the right back where it is not that of the code last loaded from CUR, which names
/// the replica.
fn test_place<O: Object>(
    shared: &Shared<O>,
    seat: &mut CallerSeat,
    hold: SharedHold,
) -> Result<Option<SharedHold>, Halt>
    requires named { HoldsNamed O.Object shared.now seat.old hold }
    ensures taken { MatchResult result (TakesCurrent O.Object shared.now (record (all_rights seat.old) { shared = None }) seat.old seat.new) (λ _. HaltsAttempt seat.old seat.new) }
    ensures keeps { KeepsSeatIn shared.now unchanged_by_read 2 seat.old seat.new }
{
    refusals_fit(seat);
    let place = root_place(shared.callers(), seat.seen_cur());
    let found = shared.load_word(seat, hold.replica() as u64, PLACE_AT, true)?;
    if found != place {
        release_shared(shared, seat, hold)?;
        return Ok(None);
    }
    Ok(Some(hold))
}

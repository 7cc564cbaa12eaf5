//! A replica is taken, replayed with linked entries, made durable and released.

ghost use Rattle.std.specs.Prelude.{◌≡◌, ◌+◌, ◌*◌, ◌∷◌, ◌≤◌, ◌<◌, IfOk, IfSome, OnOk};
ghost use Rattle.cx_base.specs.Memory.{Words};
ghost use Rattle.cx_core.specs.declared.local.Protection.TheVariants.{Confirmed, Unprotected};
ghost use Rattle.cx_core.specs.RingEvents.{Protects};
ghost use Rattle.table_invariant.specs.Running.{IsSeatOf};
ghost use Rattle.cx_table.specs.Tokens.{IsDowngradedOf};
ghost use Rattle.replica.specs.Held.{IsHeldShared, IsSized};
ghost use Rattle.replica.specs.Laws.{IsTaken};
ghost use Rattle.replica.specs.Replays.{ComesNext, IsReady};
ghost use Rattle.table_tests.specs.Replaying.{IsFree, IsNew, Keeps};

use crate::holds::holds;
use crate::tables::{NO_LIMIT, NO_LIMITS, made, update};
use cx_base::tally::Tally;
use cx_base::{Halt, Memory, Object};
use cx_core::Entry;
use cx_table::{CallerSeat, Downgraded, Exclusive, Shared, SharedHold};
use mutation_queue::{LinkTried, Protected, entry, protect, unprotect};
use replica::{ReadRegion, Region, begin, flush, outcome, place, replay_one};
use std::alloc::{AllocError, Global};
use std::test::Fail;

// Takes replica `r` exclusively; `None` where somebody holds it. The caller has no right before, and nothing is noted of the replica that it takes.
fn take<O: Object>(
    shared: &Shared<O>,
    seat: &mut CallerSeat,
    r: u64,
) -> Result<Option<Exclusive>, Halt>
    requires free { IsFree shared.now seat.old }
    requires sized { IsSized (O.line_count shared.now.object) shared.now }
    requires few { r < 2 * shared.now.callers }
    ensures taken { IfOk result (λ o. IfSome o (λ held. IsTaken (O.line_count shared.now.object) shared.now (O.lawful shared.now.object) (O.step shared.now.object) seat.new held)) }
    ensures keeps { IfOk result (λ o. IfSome o (λ _. Keeps seat.old seat.new)) }
{
    let (_, right) = shared.try_exclusive(seat, r)?;
    Ok(right)
}

// The entry of a caller from the words of a cell: its number, and the 144 words of its operation.
fn entry_of(caller: u32, words: &[u64; 145]) -> Entry
    ensures caller { result.caller ≡ caller }
    ensures words { result.number ∷ result.op ≡ words.now }
    ensures op { Words 144 result.op }
{
    let mut op = [0; 144];
    op.copy_from_slice(&words[1..]);
    Entry {
        caller,
        number: words[0],
        op,
    }
}

// Reads the entry with this ticket from the log. It is the next one for the replica `held`, which is the image after as many entries. The caller
// knows that the entry is linked, and protects its ticket.
fn read_next<O: Object>(
    shared: &Shared<O>,
    seat: &mut CallerSeat,
    held: &Exclusive,
    ticket: u64,
) -> Result<Entry, Halt>
    requires ready { IsReady O.Object shared.now held.now ticket seat.old }
    requires linked { ticket < seat.old.known.local.front }
    requires later { shared.now.base.place ≤ ticket }
    requires protected { Protects ticket seat.old.known.local.protection }
    ensures ready { OnOk result (IsReady O.Object shared.now held.now ticket seat.new) }
    ensures keeps { OnOk result (Keeps seat.old seat.new) }
    ensures next { IfOk result (λ next. ComesNext next seat.new) }
{
    let mut words = [0; 145];
    let caller = entry(shared, seat, ticket, &mut words)?;
    Ok(entry_of(caller, &words))
}

// Applies the entry with this ticket to the replica `held`, which is the image after as many entries, and then after one more.
fn replay_ticket<O: Object>(
    shared: &Shared<O>,
    seat: &mut CallerSeat,
    held: &Exclusive,
    ticket: u64,
) -> Result<(), Halt>
    requires ready { IsReady O.Object shared.now held.now ticket seat.old }
    requires linked { ticket < seat.old.known.local.front }
    requires later { shared.now.base.place ≤ ticket }
    requires protected { Protects ticket seat.old.known.local.protection }
    ensures ready { OnOk result (IsReady O.Object shared.now held.now (ticket + 1) seat.new) }
    ensures keeps { OnOk result (Keeps seat.old seat.new) }
{
    let next = read_next(shared, seat, held, ticket)?;
    replay_one(&mut Region::of(shared, seat, held), &next)
}

// Applies the entries with the tickets from `place` to before `end` to the replica `held`, which is the image after the place. The caller knows that
// they are linked, and protects the tickets from the place on.
fn replay_to<O: Object>(
    shared: &Shared<O>,
    seat: &mut CallerSeat,
    held: &Exclusive,
    place: u64,
    end: u64,
) -> Result<(), Halt>
    requires ready { IsReady O.Object shared.now held.now place seat.old }
    requires linked { end ≤ seat.old.known.local.front }
    requires later { shared.now.base.place ≤ place }
    requires order { place ≤ end }
    requires protected { seat.old.known.local.protection ≡ Confirmed place }
    ensures ready { OnOk result (IsReady O.Object shared.now held.now end seat.new) }
    ensures keeps { OnOk result (Keeps seat.old seat.new) }
{
    for ticket in place..end {
        replay_ticket(shared, seat, held, ticket)?;
    }
    Ok(())
}

// Applies the entries with the tickets from `place` to before `end` to the replica `held`, under a protection that is released afterwards. Nobody
// collects cells here, so that no caller is behind: one that is stops as if it was halted.
fn replay_protected<O: Object>(
    shared: &Shared<O>,
    seat: &mut CallerSeat,
    held: &Exclusive,
    place: u64,
    end: u64,
) -> Result<(), Halt>
    requires ready { IsReady O.Object shared.now held.now place seat.old }
    requires linked { end ≤ seat.old.known.local.front }
    requires later { shared.now.base.place ≤ place }
    requires order { place ≤ end }
    requires none { seat.old.known.local.protection ≡ Unprotected }
    ensures ready { OnOk result (IsReady O.Object shared.now held.now end seat.new) }
    ensures keeps { OnOk result (Keeps seat.old seat.new) }
{
    // tickets are few
    let _front = seat.front();
    let Protected::Kept = protect(shared, seat, place)? else {
        return Err(Halt);
    };
    replay_to(shared, seat, held, place, end)?;
    unprotect(shared, seat)
}

/// Takes replica `r`, applies the entries with tickets below `end` to it, persists what was stored, and turns the right into a shared one. `None`
/// where somebody holds the replica, or its place is above `end`.
pub(crate) fn renew<O: Object>(
    shared: &Shared<O>,
    seat: &mut CallerSeat,
    r: u64,
    end: u64,
) -> Result<Option<Downgraded>, Halt>
    requires free { IsFree shared.now seat.old }
    requires sized { IsSized (O.line_count shared.now.object) shared.now }
    requires few { r < 2 * shared.now.callers }
    requires base { shared.now.base.place ≡ 0 }
    requires linked { end ≤ seat.old.known.local.front }
    ensures downgraded { IfOk result (λ o. IfSome o (λ held. IsDowngradedOf shared.now.callers seat.new held)) }
    ensures seat { IfOk result (λ o. IfSome o (λ _. IsSeatOf shared.now seat.new)) }
{
    let Some(held) = take(shared, seat, r)? else {
        return Ok(None);
    };
    let place = begin(shared, seat, &held)?;
    if place > end {
        return Ok(None);
    }
    replay_protected(shared, seat, &held, place, end)?;
    flush(shared, seat, &held)?;
    let (_, token) = shared.downgrade(seat, held)?;
    Ok(Some(token))
}

// What a caller sees of a replica: its place, the number and the reply of caller 0, and its first two words.
#[derive(Drop)]
struct Seen {
    place: u64,
    number: u64,
    reply: [u64; 144],
    words: [u64; 2],
}

// Whether a caller takes replica `r` shared and finds in it what `want` says; `false` also where it is refused or stops.
fn sees<O: Object>(shared: &Shared<O>, seat: &mut CallerSeat, r: u64, want: &Seen) -> bool
    requires free { IsFree shared.now seat.old }
    requires sized { IsSized (O.line_count shared.now.object) shared.now }
    requires few { r < 2 * shared.now.callers }
{
    match share(shared, seat, r) {
        Ok(Some(held)) => sees_held(shared, seat, &held, want) == Ok(true),
        Ok(None) | Err(Halt) => false,
    }
}

// Takes replica `r` shared; `None` where somebody holds it exclusively.
fn share<O: Object>(
    shared: &Shared<O>,
    seat: &mut CallerSeat,
    r: u64,
) -> Result<Option<SharedHold>, Halt>
    requires free { IsFree shared.now seat.old }
    requires sized { IsSized (O.line_count shared.now.object) shared.now }
    requires few { r < 2 * shared.now.callers }
    ensures { IfOk result (λ o. IfSome o (IsHeldShared (O.line_count shared.now.object) shared.now (O.lawful shared.now.object) seat.new)) }
{
    let (_, right) = shared.try_shared(seat, r)?;
    Ok(right.ok())
}

// Whether a caller finds in the replica `held`, which it holds shared, what `want` says.
fn sees_held<O: Object>(
    shared: &Shared<O>,
    seat: &mut CallerSeat,
    held: &SharedHold,
    want: &Seen,
) -> Result<bool, Halt>
    requires held { IsHeldShared (O.line_count shared.now.object) shared.now (O.lawful shared.now.object) seat.old held.now }
{
    let mut region = ReadRegion::of(shared, seat, held);
    let place = place(&mut region)?;
    let mut reply = [0; 144];
    let number = outcome(&mut region, 0, &mut reply)?;
    let words = [region.load(0)?, region.load(1)?];
    Ok(place == want.place && number == want.number && reply == want.reply && words == want.words)
}

// The words of an operation of Tally that adds `n`, which are those of the reply with the sum `n` too.
pub(crate) fn adds(n: u64) -> [u64; 144] {
    let mut op = [0; 144];
    op[0] = n;
    op
}

// Whether caller 0 links an entry that adds 5 and applies it to replica 1, and caller 1 then finds there place 1, and the number and the reply of
// that entry.
fn is_own_replayed(alloc: Global) -> Result<bool, AllocError> {
    let (shared, mut first, mut second) = made(alloc, Tally, &NO_LIMITS)?;
    let Ok(LinkTried::Linked { ticket: 0 }) = update(&shared, &mut first, &adds(5)) else {
        return Ok(false);
    };
    let Ok(Some(token)) = renew(&shared, &mut first, 1, 1) else {
        return Ok(false);
    };
    let want = Seen {
        place: 1,
        number: 1,
        reply: adds(5),
        words: [1, 0],
    };
    Ok(token.replica() == 1 && token.caller() == 0 && sees(&shared, &mut second, 1, &want))
}

// How many steps a caller makes that links its first entry and renews a replica with it. The number and a word of the operation, which the cell does
// not have yet, and 2 steps to link; a try and the load of the place; 2 steps to protect it; 146 steps for the entry; for the full step the place
// loaded, Tally's load and store, the number loaded and stored, the reply loaded and its first word stored, the place stored; 1 step to give the
// protection up; 4 words to persist; a downgrade.
const ALL: u64 = 4 + 2 + 2 + 146 + (1 + 2 + 2 + 145 + 1) + 1 + 4 + 1;

// Whether a caller with a limit of steps links an entry and renews a replica with it exactly where the limit allows `ALL` steps, and else stops at
// the limit.
fn stops_at(alloc: Global, limit: u64) -> Result<bool, AllocError> {
    let (shared, mut first, _second) = made(alloc, Tally, &[limit, NO_LIMIT])?;
    let is_done = update_and_renew(&shared, &mut first, &adds(5), 1);
    Ok(is_done == (limit >= ALL) && first.steps() == limit.min(ALL))
}

// The first limit of steps at which a caller does not do as `stops_at` says; `None` where there is none.
fn first_wrong_limit(alloc: Global) -> Result<Option<u64>, AllocError> {
    for limit in 0..=ALL {
        if !stops_at(alloc, limit)? {
            return Ok(Some(limit));
        }
    }
    Ok(None)
}

// A caller without entries links one with the operation `op`, and renews replica `r` with it. Returns whether both were done; `false` also for a
// caller that was halted.
fn update_and_renew<O: Object>(
    shared: &Shared<O>,
    seat: &mut CallerSeat,
    op: &[u64; 144],
    r: u64,
) -> bool
    requires new { IsNew shared.now seat.old }
    requires sized { IsSized (O.line_count shared.now.object) shared.now }
    requires few { r < 2 * shared.now.callers }
    requires base { shared.now.base.place ≡ 0 }
{
    match update(shared, seat, op) {
        Ok(LinkTried::Linked { ticket: _ }) => {
            let end = seat.front();
            matches!(renew(shared, seat, r, end), Ok(Some(_)))
        }
        Ok(_) | Err(_) => false,
    }
}

// An entry is applied to a replica, as another caller then sees it, and each lower limit of steps stops a caller before that.
#[test]
fn entries_are_replayed_unless_a_limit_halts(rt: HostRuntime) -> Result<(), Fail> {
    let alloc = rt.alloc();
    holds(&rt, is_own_replayed(alloc)?);
    holds(&rt, first_wrong_limit(alloc)?.is_none());
    Ok(())
}

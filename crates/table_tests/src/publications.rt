//! Replicas that were replayed are published, and the table is closed before the wins are retired. A win is the token of a publication that put its
//! code into CUR; to retire it subtracts 1 from the lock word of the replica that was published before.

ghost use Rattle.std.specs.Prelude.{◌≡◌, ◌*◌, ◌<◌, ◌≤◌, IfOk, IfSome, IsTrue};
ghost use Rattle.cx_core.specs.RootEvents.{CanPublish};
ghost use Rattle.table_invariant.specs.Running.{IsSeatOf};
ghost use Rattle.cx_table.specs.Tokens.{IsDowngradedOf};
ghost use Rattle.replica.specs.Held.{IsSized};
ghost use Rattle.table_tests.specs.Replaying.{GivenBack, IsNew};

use crate::holds::holds;
use crate::replayed::{adds, renew};
use crate::tables::{NO_LIMITS, closed, made, update};
use cx_base::tally::Tally;
use cx_base::{Halt, Object, root_place};
use cx_table::{CallerSeat, Downgraded, Shared, Won};
use mutation_queue::LinkTried;
use std::alloc::{AllocError, Global};
use std::test::Fail;

// Whether a caller may publish the replica that it has downgraded: the place of that is above the one of the code that the caller found last in CUR,
// and the caller has no win of an earlier publication left to retire. `false` also where it has downgraded none.
fn may_publish(callers: u32, seat: &CallerSeat) -> bool
    requires some { 1 ≤ callers }
    requires few { callers ≤ 8 }
    ensures { IsTrue result → CanPublish callers seat.now.known.local }
{
    if seat.won().is_some() {
        return false;
    }
    match seat.downgraded() {
        None => false,
        Some(held) => root_place(callers, seat.seen_cur()) < held.place,
    }
}

// The code that a publication found in CUR. Where it put its own code there, the win, which names both codes; where CUR was another than the caller
// expected, the right that it had.
type Published = (u64, Result<Won, Downgraded>);

// Publishes the replica that was downgraded (`held`); `None` where its caller may not. A right whose publication lost is given back.
fn publish<O: Object>(
    shared: &Shared<O>,
    seat: &mut CallerSeat,
    held: Downgraded,
) -> Result<Option<Published>, Halt>
    requires seat { IsSeatOf shared.now seat.old }
    requires held { IsDowngradedOf shared.now.callers seat.old held }
    ensures seat { IsSeatOf shared.now seat.new }
    ensures given { IfOk result (λ o. IfSome o (λ x. GivenBack shared.now.callers seat.new x.1)) }
{
    if !may_publish(shared.callers(), seat) {
        return Ok(None);
    }
    let done = shared.publish(seat, held)?;
    Ok(Some(done))
}

// A caller without entries links one with the operation `op`, applies all entries that it knows to be linked to replica `r`, and turns its right into
// a shared one. `None` where the entry was not linked or the replica not brought up.
fn link_and_renew<O: Object>(
    shared: &Shared<O>,
    seat: &mut CallerSeat,
    op: &[u64; 144],
    r: u64,
) -> Result<Option<Downgraded>, Halt>
    requires new { IsNew shared.now seat.old }
    requires sized { IsSized (O.line_count shared.now.object) shared.now }
    requires few { r < 2 * shared.now.callers }
    requires base { shared.now.base.place ≡ 0 }
    ensures downgraded { IfOk result (λ o. IfSome o (λ held. IsDowngradedOf shared.now.callers seat.new held)) }
    ensures seat { IfOk result (λ o. IfSome o (λ _. IsSeatOf shared.now seat.new)) }
{
    match update(shared, seat, op)? {
        LinkTried::Linked { ticket: _ } => {
            let end = seat.front();
            renew(shared, seat, r, end)
        }
        LinkTried::Again | LinkTried::Worn => Ok(None),
    }
}

// Whether a win is of the code `code`, put over the code `old` by this caller.
fn is_won(won: &Won, code: u64, old: u64, caller: u32) -> bool {
    won.code() == code && won.old() == old && won.caller() == caller
}

// Whether the first caller links an entry and publishes replica 1 at place 1 over the opening code 0. The code of a root is the place times the 4
// replicas, and the replica's number: 5 here. `None` where the replica was not published.
fn first_publishes<O: Object>(shared: &Shared<O>, seat: &mut CallerSeat) -> Option<bool>
    requires new { IsNew shared.now seat.old }
    requires sized { IsSized (O.line_count shared.now.object) shared.now }
    requires callers { shared.now.callers ≡ 2 }
    requires base { shared.now.base.place ≡ 0 }
    ensures seat { IfSome result (λ _. IsSeatOf shared.now seat.new) }
{
    let Ok(Some(held)) = link_and_renew(shared, seat, &adds(5), 1) else {
        return None;
    };
    // CUR has the opening code, which the publication then expects
    let is_opening = shared.load_cur(seat) == Ok(0);
    match publish(shared, seat, held) {
        Ok(Some((0, Ok(won)))) => Some(is_opening && is_won(&won, 5, 0, 0)),
        _ => None,
    }
}

// Whether the second caller, which expects the opening code in CUR, finds code 5 where it publishes replica 3, and then publishes it at place 2. The
// code of that is the place times the 4 replicas, and the replica's number: 11. `None` where one of these was not done.
fn second_publishes<O: Object>(shared: &Shared<O>, seat: &mut CallerSeat) -> Option<bool>
    requires new { IsNew shared.now seat.old }
    requires sized { IsSized (O.line_count shared.now.object) shared.now }
    requires callers { shared.now.callers ≡ 2 }
    requires base { shared.now.base.place ≡ 0 }
    ensures seat { IfSome result (λ _. IsSeatOf shared.now seat.new) }
{
    let Ok(Some(held)) = link_and_renew(shared, seat, &adds(6), 3) else {
        return None;
    };
    // it expects the opening code, finds that of the first caller, and gives the right back
    let Ok(Some((5, Err(held)))) = publish(shared, seat, held) else {
        return None;
    };
    // now it expects the code that it found
    match publish(shared, seat, held) {
        Ok(Some((5, Ok(won)))) => Some(is_won(&won, 11, 5, 1)),
        _ => None,
    }
}

// Whether two callers publish one after another, and the closing of the table hands out the codes of both, since neither retired its win.
fn are_handed_out(alloc: Global) -> Result<bool, AllocError> {
    let (shared, mut first, mut second) = made(alloc, Tally, &NO_LIMITS)?;
    let Some(is_first) = first_publishes(&shared, &mut first) else {
        return Ok(false);
    };
    let Some(is_second) = second_publishes(&shared, &mut second) else {
        return Ok(false);
    };
    match closed(alloc, shared, first, second)? {
        Some(left) => Ok(
            is_first && is_second && left.published.as_slice() == [0, 5, 11].as_slice(),
        ),
        None => Ok(false),
    }
}

// The closing of a table hands out the opening code and the codes of two publications, in rising order.
#[test]
fn published_codes_are_handed_out(rt: HostRuntime) -> Result<(), Fail> {
    holds(&rt, are_handed_out(rt.alloc())?);
    Ok(())
}

//! Tickets are protected and cells collected by two callers of one table.

ghost use Rattle.std.specs.Prelude.{◌≡◌, ◌^◌, ◌≤◌, None, IfSome, OnOk};
ghost use Rattle.cx_table.specs.Running.{IsSeatOf};

use crate::holds::holds;
use crate::links::made;
use crate::tables::{NO_LIMIT, NO_LIMITS};
use cx_base::tally::Tally;
use cx_base::{Halt, root_place};
use cx_core::Protection;
use cx_table::{CallerSeat, Shared};
use mutation_queue::{Collected, Protected, collect, protect, unprotect};
use std::alloc::{AllocError, Global};
use std::test::Fail;

// Protects the tickets from a place on; `None` where the caller has a protection already.
fn try_protect(
    shared: &Shared<Tally>,
    seat: &mut CallerSeat,
    place: u64,
) -> Option<Result<Protected, Halt>>
    requires seat { IsSeatOf shared.now seat.old }
    requires place { place ≤ 2 ^ 40 }
    ensures seat { IsSeatOf shared.now seat.new }
    ensures scan { seat.new.known.local.scan ≡ seat.old.known.local.scan }
{
    let Protection::Unprotected = seat.protection() else {
        return None;
    };
    Some(protect(shared, seat, place))
}

// Releases the caller's protection; `None` where it has none that is confirmed.
fn give_up(shared: &Shared<Tally>, seat: &mut CallerSeat) -> Option<Result<(), Halt>>
    requires seat { IsSeatOf shared.now seat.old }
    ensures seat { IsSeatOf shared.now seat.new }
    ensures scan { seat.new.known.local.scan ≡ seat.old.known.local.scan }
{
    let Protection::Confirmed(_) = seat.protection() else {
        return None;
    };
    Some(unprotect(shared, seat))
}

// Collects cells up to a target; `None` where the target is above the place of the code that the caller found last in CUR.
fn try_collect(
    shared: &Shared<Tally>,
    seat: &mut CallerSeat,
    target: u64,
) -> Option<Result<Collected, Halt>>
    requires seat { IsSeatOf shared.now seat.old }
    requires none { seat.old.known.local.scan ≡ None }
    ensures seat { IsSeatOf shared.now seat.new }
    ensures none { IfSome result (λ r. OnOk r (seat.new.known.local.scan ≡ None)) }
{
    if target > root_place(shared.callers(), seat.seen_cur()) {
        return None;
    }
    Some(collect(shared, seat, target))
}

// What the caller of `seat` collects up to a target while the caller of `other` protects the tickets from a place on. That protection is released
// afterwards. `None` where one of the three was not done.
fn collect_beside(
    shared: &Shared<Tally>,
    seat: &mut CallerSeat,
    other: &mut CallerSeat,
    target: u64,
    place: u64,
) -> Option<Result<Collected, Halt>>
    requires seat { IsSeatOf shared.now seat.old }
    requires other { IsSeatOf shared.now other.old }
    requires none { seat.old.known.local.scan ≡ None }
    requires place { place ≤ 2 ^ 40 }
    ensures seat { IsSeatOf shared.now seat.new }
    ensures other { IsSeatOf shared.now other.new }
    ensures scan { other.new.known.local.scan ≡ other.old.known.local.scan }
{
    let Some(Ok(Protected::Kept)) = try_protect(shared, other, place) else {
        return None;
    };
    let collected = try_collect(shared, seat, target);
    let Some(Ok(())) = give_up(shared, other) else {
        return None;
    };
    collected
}

// Whether a caller protects the tickets from this place on, and this is confirmed.
fn protects_from(seat: &CallerSeat, place: u64) -> bool {
    match seat.protection() {
        Protection::Confirmed(from) => from == place,
        _ => false,
    }
}

// Whether LOW, which is 100, is compared with the place: 99 is behind it, and 100 is kept.
fn is_low_compared(alloc: Global) -> Result<bool, AllocError> {
    // LOW and FREE open at the place of the base
    let (shared, mut first, _second) = made(alloc, 100, &NO_LIMITS)?;
    // the place is stated, LOW is loaded, and the protection is released: three steps, and no refusal is counted
    let is_behind = matches!(
        try_protect(&shared, &mut first, 99),
        Some(Ok(Protected::Behind { low: 100 }))
    );
    let is_free = matches!(first.protection(), Protection::Unprotected)
        && first.steps() == 3
        && first.met() == 0;
    // the place is stated and LOW is loaded: two steps
    let is_kept = matches!(
        try_protect(&shared, &mut first, 100),
        Some(Ok(Protected::Kept))
    );
    Ok(is_behind && is_free && is_kept && protects_from(&first, 100) && first.steps() == 5)
}

// Whether cells were collected, with this FREE at the end, and with `need` the least need of all callers, which `holder` is the first to have.
fn is_collected(
    collected: Option<Result<Collected, Halt>>,
    free: u64,
    holder: u32,
    need: u64,
) -> bool {
    match collected {
        Some(Ok(found)) => found.free == free && found.holder == holder && found.need == need,
        _ => false,
    }
}

// Whether a caller that collects finds the need of the other caller, which is 103, and no need where no caller protects a ticket: that is given as
// 2^64 - 1. FREE stays 100. The other caller makes 8 steps: two to protect, one to release that, and five to collect.
fn is_need_noted(alloc: Global) -> Result<bool, AllocError> {
    let (shared, mut first, mut second) = made(alloc, 100, &NO_LIMITS)?;
    let beside_need = collect_beside(&shared, &mut first, &mut second, 100, 103);
    let without_need = try_collect(&shared, &mut second, 90);
    Ok(
        is_collected(beside_need, 100, 1, 103)
            && is_collected(without_need, 100, 0, u64::MAX)
            && second.steps() == 8
            && second.scans() == 1,
    )
}

// Whether a caller collects in five steps where its limit allows them, and else stops at the limit.
fn stops_at(alloc: Global, limit: u64) -> Result<bool, AllocError> {
    let (shared, mut first, _second) = made(alloc, 100, &[limit, NO_LIMIT])?;
    let collected = try_collect(&shared, &mut first, 100);
    // LOW is raised, two callers are scanned, and FREE is raised and loaded
    let is_right = if limit < 5 {
        matches!(collected, Some(Err(Halt)))
    } else {
        is_collected(collected, 100, 0, u64::MAX)
    };
    Ok(is_right && first.steps() == limit.min(5))
}

// The first limit of steps at which a caller does not do as `stops_at` says; `None` where there is none.
fn first_wrong_limit(alloc: Global) -> Result<Option<u64>, AllocError> {
    for limit in 0..7 {
        if !stops_at(alloc, limit)? {
            return Ok(Some(limit));
        }
    }
    Ok(None)
}

// A protection is compared with LOW, a collection finds the least need, and each limit of steps stops it where it should.
#[test]
fn tickets_are_protected_and_cells_collected(rt: HostRuntime) -> Result<(), Fail> {
    let alloc = rt.alloc();
    holds(&rt, is_low_compared(alloc)?);
    holds(&rt, is_need_noted(alloc)?);
    holds(&rt, first_wrong_limit(alloc)?.is_none());
    Ok(())
}

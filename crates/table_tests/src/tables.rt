//! Tables of two callers, and how they end.

ghost use Rattle.std.specs.Prelude.{◌≡◌, ◌≤◌, [], ◌∷◌, IfOk, IfSome, IsTrue, OnOk};
ghost use Rattle.table_invariant.specs.Running.{IsSeatOf};
ghost use Rattle.mutation_queue.specs.Tests.{IsPairOf};
ghost use Rattle.table_tests.specs.Replaying.{IsFree, IsNew, KnowsLinked};
ghost use Rattle.strong_trylock.specs.Held.{all_rights, no_rights};

use cx_base::{Halt, Object};
use cx_core::Base;
use cx_table::{CallerSeat, Remains, Shared};
use mutation_queue::{LinkTried, announce, link};
use std::alloc::{AllocError, Global};

/// What stands for a limit of steps where there is none.
pub(crate) const NO_LIMIT: u64 = u64::MAX;

/// The limits of two callers of which neither has one.
pub(crate) const NO_LIMITS: [u64; 2] = [NO_LIMIT, NO_LIMIT];

/// A table of two callers, which opens with an object's first base at place 0, and the seats of caller 0 and caller 1. `limits` are their limits of
/// steps. The object has 64 to 16,384 lines.
pub(crate) fn made<O: Object>(
    alloc: Global,
    object: O,
    limits: &[u64; 2],
) -> Result<(Shared<O>, CallerSeat, CallerSeat), AllocError>
    requires enough { 64 ≤ O.line_count object }
    requires small { O.line_count object ≤ 16384 }
    ensures object { IfOk result (λ r. r.0.object ≡ object) }
    ensures callers { IfOk result (λ r. r.0.callers ≡ 2) }
    ensures base { IfOk result (λ r. r.0.base.place ≡ 0) }
    ensures first { IfOk result (λ r. IsNew r.0 r.1) }
    ensures second { IfOk result (λ r. IsNew r.0 r.2) }
{
    let base = Base::fresh(alloc, &object)?;
    let (shared, seats) = Shared::make(alloc, object, 2, limits, &base)?;
    match two(seats) {
        Some((first, second)) => Ok((shared, first, second)),
        None => Err(AllocError),
    }
}

/// The two items of a list of two, in their order; `None` where it has another number of items.
pub(crate) fn two<T: Drop>(mut items: Vec<T>) -> Option<(T, T)>
    ensures { IfSome result (λ r. items.items ≡ r.0 ∷ r.1 ∷ []) }
{
    let second = items.pop()?;
    let first = items.pop()?;
    if items.is_empty() {
        Some((first, second))
    } else {
        None
    }
}

/// A caller without entries announces the operation `op` in its cell 0, and tries up to four times to link it. It has no right before and none after,
/// and knows of its entry where that was linked.
pub(crate) fn update<O: Object>(
    shared: &Shared<O>,
    seat: &mut CallerSeat,
    op: &[u64; 144],
) -> Result<LinkTried, Halt>
    requires { IsNew shared.now seat.old }
    ensures free { OnOk result (IsFree shared.now seat.new) }
    ensures rights { OnOk result (all_rights seat.new ≡ no_rights) }
    ensures linked { IfOk result (KnowsLinked seat.new) }
    ensures seat { IsSeatOf shared.now seat.new }
{
    announce(shared, seat, 0, op)?;
    link(shared, seat, 0, 4)
}

// Whether two seats are of callers 0 and 1, and there are no others.
fn are_pair<O: Object>(shared: &Shared<O>, first: &CallerSeat, second: &CallerSeat) -> bool
    requires first { IsSeatOf shared.now first.now }
    requires second { IsSeatOf shared.now second.now }
    ensures { IsTrue result → IsPairOf shared.now first.now second.now }
{
    shared.callers() == 2 && first.number() == 0 && second.number() == 1
}

/// Closes a table of two callers, and returns what it left. `None` where the seats are not those of callers 0 and 1, or memory ran out.
pub(crate) fn closed<O: Object>(
    alloc: Global,
    shared: Shared<O>,
    first: CallerSeat,
    second: CallerSeat,
) -> Result<Option<Remains>, AllocError>
    requires first { IsSeatOf shared first }
    requires second { IsSeatOf shared second }
{
    if !are_pair(&shared, &first, &second) {
        return Ok(None);
    }
    let seats = vec![in alloc; first, second]?;
    Ok(shared.gather(alloc, seats).ok())
}

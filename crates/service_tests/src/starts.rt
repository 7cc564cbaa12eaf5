//! Services that are started for the tests, and closed.

ghost use Rattle.std.specs.Prelude.{◌≡◌, [], ◌∷◌, All, IfOk, IfSome};
ghost use Rattle.cx_base.specs.Tally.{IsTally};
ghost use Rattle.cx_core.specs.Base.{LawfulBase};
ghost use Rattle.cx_table.specs.Remains.{AreSeats};
ghost use Rattle.cx_service.specs.Callers.{IsCallerOf};
ghost use Rattle.cx_service.specs.Closes.{seat_of};
ghost use Rattle.mutation_queue.specs.Tests.{IsPairOf};
ghost use Rattle.service_tests.specs.Closed.{IsClosedTally, IsOpenedTally};

use cx_base::tally::Tally;
use cx_base::{Items, Object};
use cx_core::Base;
use cx_service::{Caller, Handed, Service, StartFault};
use cx_table::Remains;
use std::alloc::{AllocError, Global};

pub(crate) const NO_LIMIT: u64 = u64::MAX;

/// The first base of the running sum, with its place changed to `place`. No base has a place above 2^40.
pub(crate) fn base_at(alloc: Global, place: u64) -> Result<Base, AllocError>
    ensures { IfOk result (LawfulBase 64 IsTally) }
{
    if place > 1 << 40 {
        return Err(AllocError);
    }
    let fresh = Base::fresh(alloc, &Tally)?;
    let mut words = fresh.words.into_vec();
    words[0] = place;
    Ok(Base {
        place,
        words: Items::of(words),
    })
}

/// A service of one caller without a limit.
pub(crate) fn one_started<O: Object>(
    alloc: Global,
    object: O,
    base: &Base,
) -> Result<(Service<O>, Caller), AllocError>
    requires { LawfulBase (O.line_count object) (O.lawful object) base.now }
    ensures { IfOk result (λ r. IsCallerOf r.0 r.1) }
{
    let Ok((service, callers)) = Service::start(alloc, object, 1, &[NO_LIMIT], base) else {
        return Err(AllocError);
    };
    match one(callers) {
        Some(caller) => Ok((service, caller)),
        None => Err(AllocError),
    }
}

// The only caller of a list. `None` where the list has none, or more than one.
fn one(mut callers: Vec<Caller>) -> Option<Caller>
    ensures { IfSome result (λ c. callers.items ≡ c ∷ []) }
{
    let caller = callers.pop()?;
    if callers.is_empty() {
        Some(caller)
    } else {
        None
    }
}

/// A service of two callers with these limits of steps, which opens from a base, and its callers.
pub(crate) fn two_started(
    alloc: Global,
    limits: &[u64; 2],
    base: &Base,
) -> Result<(Service<Tally>, Caller, Caller), AllocError>
    requires { LawfulBase 64 IsTally base.now }
    ensures opened { IfOk result (λ r. IsOpenedTally r.0) }
    ensures pair { IfOk result (λ r. IsPairOf r.0 r.1 r.2) }
    ensures first { IfOk result (λ r. IsCallerOf r.0 r.1) }
    ensures second { IfOk result (λ r. IsCallerOf r.0 r.2) }
{
    let Ok((service, callers)) = Service::start(alloc, Tally, 2, limits, base) else {
        return Err(AllocError);
    };
    match two(callers) {
        Some((first, second)) => Ok((service, first, second)),
        None => Err(AllocError),
    }
}

/// The two callers of a list, in their order. `None` where the list has not just two.
pub(crate) fn two(mut callers: Vec<Caller>) -> Option<(Caller, Caller)>
    ensures { IfSome result (λ r. callers.items ≡ r.0 ∷ r.1 ∷ []) }
{
    let second = callers.pop()?;
    let first = callers.pop()?;
    if callers.is_empty() {
        Some((first, second))
    } else {
        None
    }
}

/// Closes a service of two callers.
pub(crate) fn two_closed(
    alloc: Global,
    service: Service<Tally>,
    first: Handed,
    second: Handed,
) -> Result<Remains, AllocError>
    requires opened { IsOpenedTally service }
    requires pair { IsPairOf service (seat_of first) (seat_of second) }
    ensures { IfOk result IsClosedTally }
{
    let callers = vec![in alloc; first, second]?;
    match service.close(alloc, callers) {
        Ok(remains) => Ok(remains),
        Err(_) => Err(AllocError),
    }
}

/// A service of callers without limits that opens from the object's fresh base.
pub(crate) fn all_started<O: Object>(
    alloc: Global,
    object: O,
    callers: u32,
) -> Result<(Service<O>, Vec<Caller>), StartFault>
    ensures each { IfOk result (λ r. All (IsCallerOf r.0) r.1.items) }
    ensures all { IfOk result (λ r. AreSeats r.0 r.1.items) }
{
    let Ok(base) = Base::fresh(alloc, &object) else {
        return Err(StartFault::Memory);
    };
    let Ok(limits) = Vec::from_elem(alloc, NO_LIMIT, callers as usize) else {
        return Err(StartFault::Memory);
    };
    Service::start(alloc, object, callers, &limits, &base)
}

/// Whether a closed service has published codes, and they rise.
pub(crate) fn has_rising_codes(remains: &Remains) -> bool {
    let codes = remains.published.as_slice();
    !codes.is_empty() && codes.is_sorted_by(|a, b| a < b)
}

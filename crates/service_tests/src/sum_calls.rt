//! What callers of one thread do with a running sum, part by part.

ghost use Rattle.std.specs.Prelude.{IfOk};
ghost use Rattle.cx_base.specs.Tally.{IsTally};
ghost use Rattle.cx_core.specs.Base.{LawfulBase};
ghost use Rattle.cx_service.specs.Closes.{seat_of};
ghost use Rattle.service_tests.specs.Closed.{IsClosedTally};
ghost use Rattle.service_tests.specs.Tests.{IsHandedBack, IsHandedCaller};

use crate::calls::{Call, Way, all_asked};
use crate::starts::{base_at, one_started, two_closed, two_started};
use crate::tasks::{Work, adds};
use cx_base::tally::Tally;
use cx_core::Base;
use cx_service::{Handed, Service};
use cx_table::Remains;
use std::alloc::{AllocError, Global};

/// A part: the caller, which is caller 1 for any number but 0, the operations that it asks for, and the way in which it calls.
pub(crate) type Part = (u32, Work, Way);

/// What callers were told, in the order of their calls, and what their service left when it was closed.
#[derive(Drop)]
pub(crate) struct Outcome {
    pub(crate) log: Vec<Call>,
    pub(crate) remains: Remains,
}

/// A service of two callers with limits of steps, which opens from the first base at a place, and is closed
/// once the callers have asked for their parts.
pub(crate) fn played(
    alloc: Global,
    place: u64,
    limits: &[u64; 2],
    parts: &[Part],
) -> Result<Outcome, AllocError>
    ensures { IfOk result (λ p. IsClosedTally p.remains) }
{
    let base = base_at(alloc, place)?;
    played_from(alloc, &base, limits, parts)
}

/// A service of two callers with limits of steps, which opens from a base, and is closed once the callers have asked for their parts.
pub(crate) fn played_from(
    alloc: Global,
    base: &Base,
    limits: &[u64; 2],
    parts: &[Part],
) -> Result<Outcome, AllocError>
    requires { LawfulBase 64 IsTally base.now }
    ensures { IfOk result (λ p. IsClosedTally p.remains) }
{
    let (service, first, second) = two_started(alloc, limits, base)?;
    let mut log = Vec::new(alloc);
    let pair = Pair {
        first: Handed::Idle(first),
        second: Handed::Idle(second),
    };
    let Pair { first, second } = parts_asked(&service, pair, parts, &mut log);
    match two_closed(alloc, service, first, second) {
        Ok(remains) => Ok(Outcome { log, remains }),
        Err(fault) => Err(fault),
    }
}

/// The two callers of a service, as their last calls handed them back.
#[derive(Drop)]
pub(crate) struct Pair {
    pub(crate) first: Handed,
    pub(crate) second: Handed,
}

// One of two callers asks for the operations of a part, and both callers are returned.
fn part_asked(service: &Service<Tally>, pair: Pair, part: &Part, log: &mut Vec<Call>) -> Pair
    requires first { IsHandedCaller service.now pair.first }
    requires second { IsHandedCaller service.now pair.second }
    ensures first { IsHandedBack service.now (seat_of pair.first) result.first }
    ensures second { IsHandedBack service.now (seat_of pair.second) result.second }
{
    let (number, work, way) = *part;
    let Pair { first, second } = pair;
    if number == 0 {
        let first = all_asked(service, first, work, way, log);
        Pair { first, second }
    } else {
        let second = all_asked(service, second, work, way, log);
        Pair { first, second }
    }
}

// Two callers ask for the operations of the parts, one part after another, and both callers are returned.
fn parts_asked(service: &Service<Tally>, pair: Pair, parts: &[Part], log: &mut Vec<Call>) -> Pair
    requires first { IsHandedCaller service.now pair.first }
    requires second { IsHandedCaller service.now pair.second }
    ensures first { IsHandedBack service.now (seat_of pair.first) result.first }
    ensures second { IsHandedBack service.now (seat_of pair.second) result.second }
{
    let mut pair = pair;
    for part in parts {
        pair = part_asked(service, pair, part, log);
    }
    pair
}

/// What the only caller of a service is told of its calls, where the service opens from the first base at a place.
pub(crate) fn played_alone(
    alloc: Global,
    place: u64,
    work: Work,
    way: Way,
) -> Result<Vec<Call>, AllocError> {
    let base = base_at(alloc, place)?;
    let (service, caller) = one_started(alloc, Tally, &base)?;
    let mut log = Vec::new(alloc);
    all_asked(&service, Handed::Idle(caller), work, way, &mut log);
    Ok(log)
}

/// Whether updates that add `amount` are answered one after another at the tickets from `from` on, each with the sum after it, where the sum is `sum`
/// before the first.
pub(crate) fn adds_up(log: &[Call], from: u64, sum: u64, amount: u64) -> bool {
    let mut ticket = from;
    let mut total = sum;
    for call in log {
        total = total.wrapping_add(amount);
        if !call.is_updated(ticket) || call.reply != adds(total) {
            return false;
        }
        ticket = ticket.wrapping_add(1);
    }
    true
}

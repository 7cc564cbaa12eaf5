//! What two callers do on one thread with any object, turn by turn.

ghost use Rattle.std.specs.Prelude.{◌≡◌, IfOk};
ghost use Rattle.cx_service.specs.Callers.{IsCallerOf};
ghost use Rattle.cx_service.specs.Closes.{seat_of};
ghost use Rattle.mutation_queue.specs.Tests.{IsPairOf};
ghost use Rattle.recovery.specs.Kept.{IsOpened};
ghost use Rattle.service_tests.specs.Closed.{IsClosed};
ghost use Rattle.service_tests.specs.Tests.{IsHandedBack, IsHandedCaller};

use crate::calls::{Call, UPDATE_TWICE, asked_between};
use crate::starts::{NO_LIMIT, two};
use crate::sum_calls::Pair;
use crate::tasks::Work;
use cx_base::Object;
use cx_core::Base;
use cx_service::{Caller, Handed, Service};
use cx_table::Remains;
use std::alloc::{AllocError, Global};

/// A turn: the caller, which is caller 1 for any number but 0, and how many operations it has asked for in all when the turn ends.
pub(crate) type Turn = (u32, u64);

/// What two callers were told, of caller 0 first, and what their service left when it was closed.
#[derive(Drop)]
pub(crate) struct Ended {
    pub(crate) logs: Vec<Vec<Call>>,
    pub(crate) remains: Remains,
}

// A service of two callers, the second of which has a limit of steps, from the object's fresh base.
fn pair_started<O: Object>(
    alloc: Global,
    object: O,
    limit: u64,
) -> Result<(Service<O>, Caller, Caller), AllocError>
    ensures opened { IfOk result (λ r. IsOpened O.line_count O.lawful r.0) }
    ensures object { IfOk result (λ r. r.0.object ≡ object) }
    ensures pair { IfOk result (λ r. IsPairOf r.0 r.1 r.2) }
    ensures first { IfOk result (λ r. IsCallerOf r.0 r.1) }
    ensures second { IfOk result (λ r. IsCallerOf r.0 r.2) }
{
    let base = Base::fresh(alloc, &object)?;
    let Ok((service, callers)) = Service::start(alloc, object, 2, &[NO_LIMIT, limit], &base) else {
        return Err(AllocError);
    };
    match two(callers) {
        Some((first, second)) => Ok((service, first, second)),
        None => Err(AllocError),
    }
}

// Closes a service of two callers.
fn pair_closed<O: Object>(
    alloc: Global,
    service: Service<O>,
    first: Handed,
    second: Handed,
) -> Result<Remains, AllocError>
    requires opened { IsOpened O.line_count O.lawful service }
    requires pair { IsPairOf service (seat_of first) (seat_of second) }
    ensures { IfOk result (IsClosed O.Object (O.line_count service.object)) }
{
    let callers = vec![in alloc; first, second]?;
    match service.close(alloc, callers) {
        Ok(remains) => Ok(remains),
        Err(_) => Err(AllocError),
    }
}

// One of two callers makes a turn, and what it is told is put at the end of its list: `one` of caller 0, `other` of caller 1. Both callers are returned.
fn attempt_made<O: Object>(
    service: &Service<O>,
    pair: Pair,
    work: Work,
    turn: &Turn,
    one: &mut Vec<Call>,
    other: &mut Vec<Call>,
) -> Pair
    requires first { IsHandedCaller service.now pair.first }
    requires second { IsHandedCaller service.now pair.second }
    ensures first { IsHandedBack service.now (seat_of pair.first) result.first }
    ensures second { IsHandedBack service.now (seat_of pair.second) result.second }
{
    let (number, to) = *turn;
    let Pair { first, second } = pair;
    if number == 0 {
        let ends = (one.len() as u64, to);
        let first = asked_between(service, first, work, ends, UPDATE_TWICE, one);
        Pair { first, second }
    } else {
        let ends = (other.len() as u64, to);
        let second = asked_between(service, second, work, ends, UPDATE_TWICE, other);
        Pair { first, second }
    }
}

// Two callers make turns, one turn after another, and both callers are returned.
fn turns_made<O: Object>(
    service: &Service<O>,
    pair: Pair,
    work: Work,
    turns: &[Turn],
    one: &mut Vec<Call>,
    other: &mut Vec<Call>,
) -> Pair
    requires first { IsHandedCaller service.now pair.first }
    requires second { IsHandedCaller service.now pair.second }
    ensures first { IsHandedBack service.now (seat_of pair.first) result.first }
    ensures second { IsHandedBack service.now (seat_of pair.second) result.second }
{
    let mut pair = pair;
    for turn in turns {
        pair = attempt_made(service, pair, work, turn, one, other);
    }
    pair
}

/// A service of two callers, the second of which has a limit of steps, is started, they make their turns, and it is closed.
pub(crate) fn run_pair<O: Object>(
    alloc: Global,
    object: O,
    limit: u64,
    work: Work,
    turns: &[Turn],
) -> Result<Ended, AllocError>
    ensures { IfOk result (λ e. IsClosed O.Object (O.line_count object) e.remains) }
{
    let (service, first, second) = pair_started(alloc, object, limit)?;
    let mut one = Vec::new(alloc);
    let mut other = Vec::new(alloc);
    let pair = Pair {
        first: Handed::Idle(first),
        second: Handed::Idle(second),
    };
    let Pair { first, second } = turns_made(&service, pair, work, turns, &mut one, &mut other);
    let logs = vec![in alloc; one, other]?;
    match pair_closed(alloc, service, first, second) {
        Ok(remains) => Ok(Ended { logs, remains }),
        Err(fault) => Err(fault),
    }
}

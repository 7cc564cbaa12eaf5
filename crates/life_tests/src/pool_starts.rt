//! A pool of counters is opened.

ghost use Rattle.std.specs.Prelude.{IfOk};
ghost use Rattle.client_pool.specs.Pools.{AreNewCallers};
ghost use Rattle.life_tests.specs.Tests.{AreCounterClients, IsCounterPool};

use bounded_counters::{Counters, operations_are_read, read_words};
use client_pool::{Client, Pool};
use cx_base::Object;
use cx_core::Base;
use cx_service::{Caller, Service};
use std::alloc::{AllocError, Global};
use std::sync::Wait;

/// A service that starts from the object's opening image, and its callers, each with the step limit `limit`. No caller has linked an entry yet.
fn started<O: Object>(
    alloc: Global,
    object: O,
    callers: u32,
    limit: u64,
) -> Result<(Service<O>, Vec<Caller>), AllocError>
    ensures { IfOk result (λ r. AreNewCallers r.0 r.1.items) }
{
    let base = Base::fresh(alloc, &object)?;
    let limits = Vec::from_elem(alloc, limit, callers as usize)?;
    match Service::start(alloc, object, callers, &limits, &base) {
        Ok((service, callers)) => Ok((service, callers)),
        Err(_) => Err(AllocError),
    }
}

/// A pool of counters with `callers` callers, each with the step limit `limit`, and its 1 to 64 clients. `Err` also where the numbers are not
/// allowed.
pub(crate) fn opened<R: Wait>(
    rt: &R,
    alloc: Global,
    callers: u32,
    clients: u32,
    limit: u64,
) -> Result<(Pool<Counters>, Vec<Client>), AllocError>
    ensures counts { IfOk result (λ r. IsCounterPool r.0) }
    ensures clients { IfOk result (λ r. AreCounterClients r.0 r.1.items) }
{
    if clients < 1 || clients > 64 {
        return Err(AllocError);
    }
    let (service, seats) = started(alloc, Counters::of(64, 1_000_000), callers, limit)?;
    operations_are_read();
    match Pool::open(rt, alloc, service, seats, clients, read_words(0)) {
        Ok((pool, clients)) => Ok((pool, clients)),
        Err(_) => Err(AllocError),
    }
}

//! A service for the life of a pool.

ghost use Rattle.std.specs.Prelude.{IfOk};
ghost use Rattle.cx_core.specs.Base.{LawfulBase};
ghost use Rattle.cx_service.specs.Starts.{AreFewCallers, AreFewLines};
ghost use Rattle.cx_lives.specs.Life.{IsServiceOf};
ghost use Rattle.pool_lives.specs.Running.{IsServiceReady};

use cx_core::Base;
use cx_service::{Caller, Service, StartFault};
use std::alloc::{AllocError, Global};
use typed_object::TypedObject;

/// Starts a service of this many callers, none of which has a limit of steps. `Err` means out of memory.
pub(crate) fn start<O: TypedObject>(
    alloc: Global,
    object: &O,
    seats: u32,
    base: &Base,
) -> Result<(Service<O>, Vec<Caller>), AllocError>
    requires lines { AreFewLines (O.line_count object.now) }
    requires base { LawfulBase (O.line_count object.now) (O.lawful object.now) base.now }
    requires seats { AreFewCallers seats }
    ensures service { IfOk result (λ r. IsServiceOf object.now (O.line_count object.now) seats base.now r.0) }
    ensures ready { IfOk result (λ r. IsServiceReady object.now r.0 r.1.items) }
{
    let limits = Vec::from_elem(alloc, u64::MAX, seats as usize)?;
    match Service::start(alloc, object.duplicate(), seats, &limits, base) {
        Ok(started) => Ok(started),
        Err(StartFault::Memory) => Err(AllocError),
        Err(StartFault::Callers { .. } | StartFault::Lines { .. }) => unreachable!(),
    }
}

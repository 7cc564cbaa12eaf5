//! One life of a service: from a base to what it leaves.

ghost use Rattle.std.specs.Prelude.{◌≡◌, IfOk, length};
ghost use Rattle.cx_core.specs.Merge.{IsHistory};
ghost use Rattle.cx_service.specs.ClosedOrder.{IsClosedLinearizable};
ghost use Rattle.cx_service.specs.Closes.{seats_of};
ghost use Rattle.cx_service.specs.Starts.{AreFewCallers};
ghost use Rattle.cx_table.specs.Remains.{AreSeats, locals_of};
ghost use Rattle.recovery.specs.Kept.{IsOpened};
ghost use Rattle.table_invariant.specs.Running.{instance_at};
ghost use Rattle.service_parts.specs.Lives.{IsOpenWith, IsServiceFrom, IsServedBy, MayServe};

use crate::workers::{Worker, work_together};
use cx_base::Object;
use cx_core::Base;
use cx_service::{Caller, Handed, Service, StartFault};
use cx_table::Remains;
use std::alloc::{AllocError, Global};
use std::sync::Wait;
use std::thread::Threads;

/// The limits of 8 callers, none of which has a limit of steps.
const NO_LIMITS: [u64; 8] = [u64::MAX; 8];

/// A service of 1 to 8 callers without limits that starts from a base, and its callers. `Err` means out of memory.
pub fn started<O: Object>(
    alloc: Global,
    object: O,
    callers: u32,
    base: &Base,
) -> Result<(Service<O>, Vec<Caller>), AllocError>
    requires callers { AreFewCallers callers }
    requires may { MayServe O.Object object base.now }
    ensures { IfOk result (λ r. IsOpenWith O.Object object callers base.now r.0 r.1.items) }
{
    let limits = &NO_LIMITS[..callers as usize];
    match Service::start(alloc, object, callers, limits, base) {
        Ok((service, callers)) => Ok((service, callers)),
        Err(StartFault::Memory) => Err(AllocError),
        Err(StartFault::Callers { .. } | StartFault::Lines { .. }) => unreachable!(),
    }
}

/// Closes a service, whose callers are handed in, of caller 0 first: what it leaves. Its history has each caller's entries, each once and
/// in order. `Err` means out of memory, and drops the service.
pub fn closed<O: Object>(
    alloc: Global,
    service: Service<O>,
    callers: Vec<Handed>,
) -> Result<Remains, AllocError>
    requires service { IsOpened O.line_count O.lawful service }
    requires callers { AreSeats service (seats_of callers.items) }
    ensures history { IfOk result (λ r. IsHistory service.base.place r.trail.history (locals_of (seats_of callers.items))) }
    ensures left { IfOk result (IsServiceFrom O.Object service.object service.callers service.base) }
    ensures leaves { IfOk result (IsClosedLinearizable service (instance_at service O.step O.only_reads) (seats_of callers.items)) }
{
    match service.close(alloc, callers) {
        Ok(remains) => Ok(remains),
        Err(_) => Err(AllocError),
    }
}

/// One life of a service of 1 to 8 callers: the service starts from a base, the worker does each caller's work, on a thread of its own where one can
/// be started, and the service is closed. Gives the output of each caller's work, of caller 0 first, and what the service leaves; what the worker
/// says of an output is so of the caller. `Err` means out of memory, and gives nothing back.
///
/// A life of four callers, and after a crash one of a caller alone. From `crates/shared_bank/src/callers.rt`:
/// ```rattle
/// let base = Base::fresh(alloc, &bank)?;
/// let (counts, remains) = serve(rt, alloc, bank, 4, &base, &Mover { from: 0 })?;
/// let base = recovered(alloc, &bank, &remains, 0)?;
/// let (found, _remains) = serve(rt, alloc, bank, 1, &base, &Looker)?;
/// ```
pub fn serve<O: Object + Send + Sync, R: Threads + Wait + Sync, W: Worker<O> + Sync>(
    rt: &R,
    alloc: Global,
    object: O,
    callers: u32,
    base: &Base,
    worker: &W,
) -> Result<(Vec<W::Output>, Remains), AllocError>
    requires callers { AreFewCallers callers }
    requires may { MayServe O.Object object base.now }
    ensures count { IfOk result (λ r. length r.0.items ≡ callers) }
    ensures served { IfOk result (λ r. IsServiceFrom O.Object object callers base.now r.1) }
    ensures tells { IfOk result (λ r. IsServedBy O.Object object callers base.now (W.tells worker.now) r.1 r.0.items) }
{
    let (service, callers) = started(alloc, object, callers, base)?;
    let (handed, outputs) = work_together(rt, alloc, &service, callers, worker)?;
    let remains = closed(alloc, service, handed)?;
    Ok((outputs, remains))
}

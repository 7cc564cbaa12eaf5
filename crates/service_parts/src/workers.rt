//! A worker for each caller, each on a thread of its own.

ghost use Rattle.std.specs.Prelude.{◌≡◌, ◌<◌, ℕ, IfOk, map, slice_index_or, vec_len};
ghost use Rattle.table_invariant.specs.Running.{Running};
ghost use Rattle.table_invariant.specs.Seats.{Seated};
ghost use Rattle.cx_service.specs.Callers.{IsCallerOf};
ghost use Rattle.cx_service.specs.Closes.{seats_of};
ghost use Rattle.service_parts.specs.Callers.{AreAllCallers, HaveWorked, IsWorked};

use cx_base::Object;
use cx_service::{Caller, Handed, Service};
use std::alloc::{AllocError, Global};
use std::sync::Wait;
use std::thread::{Threads, map_vec};

/// The result of a worker: the caller that it was lent, in whatever state it is, and what the worker returns of its work.
#[derive(Drop)]
pub struct Worked<T> {
    pub caller: Handed,
    pub output: T,
}

/// What the callers of a service do.
pub trait Worker<O: Object> {
    /// What the work of one caller returns.
    type Output: Send + Drop;

    /// The statement that holds of a caller whose work returned this output: about its service, and its seat as it was lent and as it is handed back.
    ghost tells: { Self → Running O → Seated → Seated → Self.Output → Type 0 };

    /// Does the work of one caller, and hands the caller back. The work of each caller runs on a thread of its own where one can be started.
    fn work<R: Wait>(&self, rt: &R, service: &Service<O>, caller: Caller) -> Worked<Self::Output>
        requires { IsCallerOf service.now caller }
        ensures { IsWorked service.now (tells self.now) caller result.caller result.output };
}

/// Gives each caller to the worker, all at once, and joins them: the callers, and the outputs, in order. Where a thread cannot be started,
/// the calling thread does its work. `Err` means out of memory, and drops the callers.
pub fn work_together<O: Object + Send + Sync, R: Threads + Wait + Sync, W: Worker<O> + Sync>(
    rt: &R,
    alloc: Global,
    service: &Service<O>,
    callers: Vec<Caller>,
    worker: &W,
) -> Result<(Vec<Handed>, Vec<W::Output>), AllocError>
    requires { AreAllCallers service.now callers.items }
    ensures { IfOk result (λ r. HaveWorked service.now (W.tells worker.now service.now) callers.items (seats_of r.0.items) r.1.items) }
{
    let all = all_work(rt, service, callers, worker)?;
    let (handed, outputs) = parted(alloc, all)?;
    Ok((handed, outputs))
}

/// The results of the work of all callers, in the order of the callers.
fn all_work<O: Object + Send + Sync, R: Threads + Wait + Sync, W: Worker<O> + Sync>(
    rt: &R,
    service: &Service<O>,
    callers: Vec<Caller>,
    worker: &W,
) -> Result<Vec<Worked<W::Output>>, AllocError>
    requires { AreAllCallers service.now callers.items }
    ensures { IfOk result (λ v. HaveWorked service.now (W.tells worker.now service.now) callers.items (seats_of (map (λ w. w.caller) v.items)) (map (λ w. w.output) v.items)) }
{
    let all = each_works(rt, service, callers, worker)?;
    Ok(all)
}

/// The result of the work of each caller, on a thread of its own where one can be started: result `i` is of caller `i` of the list.
fn each_works<O: Object + Send + Sync, R: Threads + Wait + Sync, W: Worker<O> + Sync>(
    rt: &R,
    service: &Service<O>,
    callers: Vec<Caller>,
    worker: &W,
) -> Result<Vec<Worked<W::Output>>, AllocError>
    requires { AreAllCallers service.now callers.items }
    ensures long { IfOk result (λ v. vec_len v ≡ vec_len callers) }
    ensures each { IfOk result (λ v. (i : ℕ) (d : _) (e : _) → i < vec_len callers → IsWorked service.now (W.tells worker.now) (slice_index_or callers.items i d) (slice_index_or v.items i e).caller (slice_index_or v.items i e).output) }
{
    map_vec(
        rt,
        callers,
        &|caller: Caller| -> Worked<W::Output>
            requires { IsCallerOf service.now caller }
            ensures { IsWorked service.entry.now (W.tells worker.entry.now) caller result.caller result.output }
        { worker.work(rt, service, caller) },
    )
}

/// The callers of all results, and what the work of each returned, in two lists.
fn parted<T: Drop>(alloc: Global, all: Vec<Worked<T>>) -> Result<(Vec<Handed>, Vec<T>), AllocError>
    ensures callers { IfOk result (λ r. r.0.items ≡ map (λ w. w.caller) all.items) }
    ensures outputs { IfOk result (λ r. r.1.items ≡ map (λ w. w.output) all.items) }
{
    let mut callers = Vec::new(alloc);
    let mut outputs = Vec::new(alloc);
    for worked in all {
        let Worked { caller, output } = worked;
        callers.push(caller)?;
        outputs.push(output)?;
    }
    Ok((callers, outputs))
}

//! A worker for each client, each on a thread of its own.

ghost use Rattle.std.specs.Prelude.{◌≡◌, All, IfOk, vec_len};
ghost use Rattle.life_records.specs.Limits.{IsLifeInLimits};
ghost use Rattle.cx_lives.specs.Ends.{IsNewIn};
ghost use Rattle.cx_lives.specs.Works.{AreResultsOf, ServedOf};

use crate::work::{WorkerOutcome, serve};
use cx_base::Gate;
use cx_service::{Caller, Service};
use life_records::BorrowedLife;
use std::alloc::{AllocError, Global};
use std::sync::Wait;
use std::thread::{Threads, map_vec};
use typed_object::TypedObject;

/// Runs a worker for each client, all at once, and joins them. A worker whose thread cannot be started is run by the calling thread.
pub(crate) fn run_workers<O: TypedObject + Sync, R: Threads + Wait + Sync, G: Gate + Sync>(
    rt: &R,
    alloc: Global,
    service: &Service<O>,
    callers: Vec<Caller>,
    life: &BorrowedLife<'_, O::Op>,
    gate: &G,
) -> Result<Vec<Result<WorkerOutcome<O::Reply>, AllocError>>, AllocError>
    requires callers { All (IsNewIn life.now service.now) callers.items }
    requires life { IsLifeInLimits (O.meaning service.now.object).is_op 8 life.now }
    ensures len { IfOk result (λ works. vec_len works ≡ vec_len callers) }
    ensures each { IfOk result (λ works. AreResultsOf (λ caller. ServedOf (O.meaning service.now.object) life.now service.now caller.known.local.number) callers.items works.items) }
{
    // `map_vec` halves the list and runs both halves at once. To part a list takes memory: where one half finds none while the other
    // runs, its workers are not run at all, and a gate that waits for one of them may wait for good.
    map_vec(
        rt,
        callers,
        &|caller: Caller| -> Result<WorkerOutcome<O::Reply>, AllocError>
            requires { IsNewIn life.now service.now caller × IsLifeInLimits (O.meaning service.now.object).is_op 8 life.now }
            ensures { IfOk result (ServedOf (O.meaning service.entry.now.object) life.entry.now service.entry.now caller.known.local.number) }
        { serve(rt, alloc, service, life, gate, caller) },
    )
}

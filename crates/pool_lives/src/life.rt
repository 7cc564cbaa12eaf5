//! A life of clients of a pool on threads, up to the closing of the pool.

ghost use Rattle.std.specs.Prelude.{◌+◌, ◌^◌, ◌≤◌, IfOk, IsTrue, length};
ghost use Rattle.pool_lives.specs.PoolRuns.{IsLifeOfPool, IsProbe};
ghost use Rattle.pool_lives.specs.Running.{HasMet, IsServiceReady};

use crate::gather::{GatheredClients, gather};
use crate::workers::run_workers;
use client_pool::Pool;
use cx_base::{Gate, Items, OpWords};
use cx_lives::Lines;
use cx_service::{Caller, Service};
use cx_table::Remains;
use life_records::{BorrowedLife, LifeRecord, steps_are_meant};
use std::alloc::{AllocError, Global};
use std::sync::Wait;
use std::thread::Threads;
use typed_object::TypedObject;

/// Runs a worker for each client of a pool, in which the clients share the callers, and closes the pool. Gives the record of the life
/// before the crash, with nothing kept, and what the service leaves. `Err` means out of memory.
pub(crate) fn live<O: TypedObject + Sync, R: Threads + Wait + Sync, G: Gate + Sync>(
    rt: &R,
    alloc: Global,
    object: &O,
    service: Service<O>,
    callers: Vec<Caller>,
    life: &BorrowedLife<'_, O::Op>,
    probe: &O::Op,
    gate: &G,
) -> Result<(LifeRecord<O::Reply>, Remains), AllocError>
    requires ready { IsServiceReady object.now service callers.items }
    requires life { IsLifeOfPool (O.meaning object.now) life.now × (service.base.place + length life.now.commands ≤ 2 ^ 40) }
    requires probe { IsProbe (O.meaning object.now) probe.now }
    ensures { IfOk result (λ r. HasMet (O.meaning object.now) O.step O.only_reads life.now service r.0 r.1) }
{
    // a running table began from a lawful base
    let _lines = service.lines();
    let probe = probe_words(object, probe);
    let count = life.clients();
    let Ok((pool, clients)) = Pool::open(rt, alloc, service, callers, count, probe) else {
        return Err(AllocError);
    };
    let works = run_workers(rt, alloc, object, &pool, clients, life, gate)?;
    let GatheredClients {
        clients,
        lines,
        impossible,
    } = gather(alloc, object, &pool, life, works)?;
    let Lines { mut entries, reads } = lines;
    entries.sort_unstable_by_key(|line| line.ticket);
    // the object's steps are what its operations mean
    steps_are_meant(object);
    let Ok(remains) = pool.close(rt, alloc, clients) else {
        return Err(AllocError);
    };
    if impossible {
        unreachable!()
    }
    let journal = Items::of(entries);
    let reads = Items::of(reads);
    let stops = Items::new(alloc);
    let fulls = Items::new(alloc);
    let choice = life.choice();
    let report = LifeRecord {
        clients: count,
        from: remains.first,
        journal,
        reads,
        stops,
        fulls,
        choice,
        kept: 0,
        items: 0,
    };
    Ok((report, remains))
}

/// The words of an operation that only reads.
fn probe_words<O: TypedObject>(object: &O, probe: &O::Op) -> OpWords
    requires { IsProbe (O.meaning object.now) probe.now }
    ensures { IsTrue (O.only_reads object.now result) }
{
    object.op_is_a_value(probe);
    object.words_of(probe)
}

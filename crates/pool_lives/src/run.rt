//! A life of a pool is run, and ends in a crash.

ghost use Rattle.std.specs.Prelude.{IfOk};
ghost use Rattle.cx_service.specs.Starts.{AreFewCallers, AreFewLines};
ghost use Rattle.pool_lives.specs.PoolRuns.{HasPooledOver, IsLifeOfPool, IsProbe};

use crate::laws::told_pools_have_lived;
use crate::life::live;
use crate::start::start;
use cx_base::Gate;
use cx_lives::{end_in_crash, first_base};
use cx_table::Remains;
use life_records::{
    BorrowedLife, LifeRecord, operations_are_values, replies_are_values, steps_are_meant,
};
use std::alloc::{AllocError, Global};
use std::sync::Wait;
use std::thread::Threads;
use typed_object::TypedObject;

/// Runs a life whose clients share `seats` callers of one service, from the object's opening on: one worker for each client, on a thread of its own, makes the
/// client's commands in order, and tries again where no cell is idle. A worker whose thread cannot be started is run by the calling thread. Then the pool is
/// closed, and the life ends in a crash. As in `cx_lives::run_lives`, the life's choice picks the root code whose place ends what is kept, and each worker
/// passes the gate before and after each command.
/// Where a client is lent a caller that has not seen all that the client was answered before, the caller reads the probe until it has: the probe is an
/// operation that only reads.
///
/// Gives the record of the life, and what its service left. `Err` means out of memory, and gives nothing back. The call waits: it does not return where the
/// gate holds a worker for good.
pub fn run_pool<O: TypedObject + Sync, R: Threads + Wait + Sync, G: Gate + Sync>(
    rt: &R,
    alloc: Global,
    object: &O,
    life: &BorrowedLife<'_, O::Op>,
    probe: &O::Op,
    seats: u32,
    gate: &G,
) -> Result<(LifeRecord<O::Reply>, Remains), AllocError>
    requires lines { AreFewLines (O.line_count object.now) }
    requires life { IsLifeOfPool (O.meaning object.now) life.now }
    requires probe { IsProbe (O.meaning object.now) probe.now }
    requires seats { AreFewCallers seats }
    ensures { IfOk result (λ r. HasPooledOver O.Object object.now (O.meaning object.now) life.now seats r.0 r.1) }
{
    let base = first_base(alloc, object)?;
    let (service, callers) = start(alloc, object, seats, &base)?;
    let (report, remains) = live(rt, alloc, object, service, callers, life, probe, gate)?;
    let crashed = end_in_crash(alloc, object, &base, life.choice(), &remains)?;
    let pooled = LifeRecord {
        kept: crashed.kept,
        items: crashed.items,
        ..report
    };
    // each operation of the life is a value of its type
    operations_are_values(object, life);
    // each reply of the record is a value of its type
    replies_are_values(object, &pooled);
    // the record is one of a legal life, where its lines are those of the callers' calls
    told_pools_have_lived(object, &base);
    // the object's steps are what its operations mean
    steps_are_meant(object);
    Ok((pooled, remains))
}

//! A life of clients on threads, and its record.

ghost use Rattle.std.specs.Prelude.{IfOk};
ghost use Rattle.cx_lives.specs.Life.{CanRun, HasRun};
ghost use Rattle.life_records.specs.Meanings.{IsMeant};

use crate::gather::{Ends, GatheredWork, finish_and_gather};
use crate::lines::Lines;
use crate::workers::run_workers;
use cx_base::{Gate, Items};
use cx_service::{Caller, Service};
use cx_table::Remains;
use life_records::laws::journals_are_told;
use life_records::{BorrowedLife, LifeRecord, steps_are_meant};
use std::alloc::{AllocError, Global};
use std::sync::Wait;
use std::thread::Threads;
use typed_object::TypedObject;

/// Runs a life on a service: one worker for each client, on a thread of its own, makes the client's commands in order, until all are
/// answered or the client is stopped at its limit of steps. A worker whose thread cannot be started is run by the calling thread. Then
/// the service is closed. Gives the record of the life before the crash, with nothing kept, and what the service leaves.
///
/// A client's entries take its 16 cells in turn, and a worker tries again where no cell is idle, since another client keeps them. In a
/// life with a cut line it leaves its client after 1,000 such answers to one command, one after another. Once all workers have ended,
/// each client that was left goes on from that command, one client after another. It ends Full in a command, which then has a full line,
/// only where the client that keeps its cells was stopped, and makes no later one.
///
/// The gate is for tests that bring about an order among the clients: each worker passes it before each of its commands and after it,
/// also where the client was stopped or ended Full in that command, with the client's number, the number of the command among the
/// client's, from 1 on, and whether this is the pass after it. The gate holds a worker as long as its `pass` does not return. The record says what
/// came, whatever the gate does. `OpenGate` holds none.
///
/// `Err` means out of memory, in a worker or after them, and gives nothing back. There is no other refusal.
///
/// The call waits: it does not return where the gate holds a worker for good. A client may have any number of commands.
pub fn run_life<O: TypedObject + Sync, R: Threads + Wait + Sync, G: Gate + Sync>(
    rt: &R,
    alloc: Global,
    service: Service<O>,
    callers: Vec<Caller>,
    life: &BorrowedLife<'_, O::Op>,
    gate: &G,
) -> Result<(LifeRecord<O::Reply>, Remains), AllocError>
    requires { CanRun (O.meaning service.object) life.now service callers.items }
    ensures { IfOk result (λ r. HasRun (O.meaning service.object) O.step O.only_reads life.now service r.0 r.1) }
{
    let works = run_workers(rt, alloc, &service, callers, life, gate)?;
    let GatheredWork {
        handed,
        lines,
        ends,
    } = finish_and_gather(rt, alloc, &service, life, gate, works)?;
    let Lines { mut entries, reads } = lines;
    let Ends {
        stops,
        fulls,
        impossible,
    } = ends;
    entries.sort_unstable_by_key(|line| line.ticket);
    // put by ticket, the lines are still those of the clients, and a record of them agrees with the service's history
    journals_are_told::<O::Op, O::Reply>();
    // a running table began from a lawful base
    let _lines = service.lines();
    // the object's steps are what its operations mean
    object_is_meant(&service);
    let Ok(remains) = service.close(alloc, handed) else {
        return Err(AllocError);
    };
    if impossible {
        unreachable!()
    }
    let clients = life.clients();
    let choice = life.choice();
    let report = LifeRecord {
        clients,
        from: remains.first,
        journal: Items::of(entries),
        reads: Items::of(reads),
        stops: Items::of(stops),
        fulls: Items::of(fulls),
        choice,
        kept: 0,
        items: 0,
    };
    Ok((report, remains))
}

/// The law that the steps of the service's object are what its operations mean.
fn object_is_meant<O: TypedObject>(service: &Service<O>)
    ensures { IsMeant O.Object service.now.object (O.meaning service.now.object) }
{
    steps_are_meant(service.object());
}

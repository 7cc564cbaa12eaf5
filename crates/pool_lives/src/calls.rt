//! A client's calls of its pool, each made again while others keep the cells that it needs.

ghost use Rattle.std.specs.Prelude.{IfOk};
ghost use Rattle.pool_lives.specs.Asking.{ClientAsksOnce, ClientRequestEnds, MayAskFor};

use client_pool::{Client, Pool, Pooled, PooledRead};
use cx_base::{Object, OpWords};
use std::alloc::AllocError;
use std::sync::Wait;
use std::thread;

/// The result of an operation that a client asks for.
#[derive(Drop)]
pub(crate) enum CallOutcome {
    /// The operation is answered as an entry of the queue at this ticket.
    Done(u64),
    /// The operation is answered beside the queue at this place.
    Read(u64),
    /// There is no further ticket.
    Worn,
}

/// Asks for an operation until it is answered or there is no further ticket, and writes its reply into `reply`. Where no cell is idle it
/// asks again, until those who keep the cells release them. `Err` means out of memory.
pub(crate) fn ask<O: Object, R: Wait>(
    rt: &R,
    pool: &Pool<O>,
    client: &mut Client,
    op: &OpWords,
    reply: &mut OpWords,
    reads: bool,
) -> Result<CallOutcome, AllocError>
    requires { MayAskFor O.only_reads pool.now client.old reads op.now }
    ensures { IfOk result (ClientRequestEnds pool.now.service pool.now.line.table.shared.table_id op.now reply.new client.old client.new) }
{
    for _ in rt.forever() {
        match ask_once(rt, pool, client, op, reply, reads)? {
            Some(asked) => return Ok(asked),
            None => thread::yield_now(),
        }
    }
    unreachable!()
}

/// Asks for an operation once: by a read where it only reads, and as an entry of the queue where it does not. `None` where no cell is idle.
fn ask_once<O: Object, R: Wait>(
    rt: &R,
    pool: &Pool<O>,
    client: &mut Client,
    op: &OpWords,
    reply: &mut OpWords,
    reads: bool,
) -> Result<Option<CallOutcome>, AllocError>
    requires { MayAskFor O.only_reads pool.now client.old reads op.now }
    ensures { IfOk result (ClientAsksOnce pool.now.service pool.now.line.table.shared.table_id op.now reply.new client.old client.new) }
{
    if reads {
        match pool.read(rt, client, op, reply) {
            PooledRead::Read(place) => Ok(Some(CallOutcome::Read(place))),
            PooledRead::Queued(ticket) => Ok(Some(CallOutcome::Done(ticket))),
            PooledRead::Full(_) => Ok(None),
            PooledRead::Worn => Ok(Some(CallOutcome::Worn)),
            PooledRead::Stopped { .. } => unreachable!(),
            PooledRead::Memory => Err(AllocError),
        }
    } else {
        match pool.update(rt, client, op, reply) {
            Pooled::Done(ticket) => Ok(Some(CallOutcome::Done(ticket))),
            Pooled::Full(_) => Ok(None),
            Pooled::Worn => Ok(Some(CallOutcome::Worn)),
            Pooled::Stopped { .. } => unreachable!(),
            Pooled::Memory => Err(AllocError),
        }
    }
}

//! A pool, and the results of its calls.

use crate::call::Answered;
use cx_base::{Object, OpWords};
use cx_core::FullNote;
use cx_service::{Handed, Service};
use seat_pool::LenderQueue;

/// A service, the queue in which its callers wait for clients, and an operation that only reads, the probe. Threads share a pool.
#[derive(Drop)]
pub struct Pool<O: Object> {
    pub(crate) service: Service<O>,
    pub(crate) line: LenderQueue,
    pub(crate) probe: OpWords,
}

/// What is left of a client when its pool is to be closed. No caller is lent to it any more.
#[derive(Drop)]
pub struct FormerClient {
    pub number: u32,
    pub floor: u64,
    pub answers: Vec<Answered>,
}

/// A pool that was not closed since memory ran out: its service and all callers, of caller 0 first, and what its clients were answered.
#[derive(Drop)]
pub struct PoolKept<O: Object> {
    pub service: Service<O>,
    pub callers: Vec<Handed>,
    pub clients: Vec<FormerClient>,
}

/// The result of an update.
#[derive(Clone, Copy, Debug, PartialEq, Eq, Drop)]
pub enum Pooled {
    /// The entry at this ticket is applied and durable, and the reply is written.
    Done(u64),
    /// No cell of the caller is idle: the note names another caller that needs entries in them. The client keeps its caller.
    Full(FullNote),
    /// There is no further ticket. The client keeps its caller.
    Worn,
    /// The caller's step limit was reached: the ticket of its linked entry that no call has answered, if there is one. The client keeps the caller, and
    /// makes no further call.
    Stopped { linked: Option<u64> },
    /// There is no memory for the answer, and nothing was done.
    Memory,
}

/// What catching up with a place returns.
#[derive(Clone, Copy, Debug, PartialEq, Eq, Drop)]
pub enum PooledCatchUp {
    /// The client has seen the place.
    Caught,
    /// The current place, given here, is below the place asked for.
    Behind(u64),
    /// The caller's step limit was reached. The client keeps the caller, and makes no further call.
    Stopped,
}

/// The result of a read.
#[derive(Clone, Copy, Debug, PartialEq, Eq, Drop)]
pub enum PooledRead {
    /// The read is answered beside the queue at this place, and the reply there is written.
    Read(u64),
    /// The read is answered as an entry of the queue at this ticket, and the reply is written.
    Queued(u64),
    /// No cell of the caller is idle: the note names another caller that needs entries in them. The client keeps its caller.
    Full(FullNote),
    /// There is no further ticket. The client keeps its caller.
    Worn,
    /// The caller's step limit was reached: the ticket of its linked entry that no call has answered, if there is one. The client keeps the caller, and
    /// makes no further call.
    Stopped { linked: Option<u64> },
    /// There is no memory for the answer, and nothing was done.
    Memory,
}

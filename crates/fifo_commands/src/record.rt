//! Scripts of lives of a queue, and what is recorded of them. No client is stopped, since there are no cuts.

use cx_base::Items;
use fifo_object::{FifoOp, FifoReply};
use life_records::{Command, JournalLine, ReadLine};

/// A request of a client. The clients of a life have the numbers from 0 on.
pub type FifoCommand = Command<FifoOp>;

/// An entry of the history, with its reply.
pub type FifoLine = JournalLine<FifoReply>;

/// A read that was answered beside the history, with its place and its reply.
pub type FifoRead = ReadLine<FifoReply>;

/// What a run is asked for: how many lines the queue has, and its lives in order.
#[derive(Drop)]
pub struct FifoScript {
    pub lines: u64,
    pub lives: Items<FifoLife>,
}

/// The time from one start to the next crash: the number of clients, the choice that the crash makes among the images
/// that it may leave, and the commands of all clients.
#[derive(Drop)]
pub struct FifoLife {
    pub clients: u32,
    pub choice: u64,
    pub commands: Items<FifoCommand>,
}

/// A life as it went: the entries of its history by ticket, the reads that were answered beside it by client, and how many of the
/// entries the crash kept.
#[derive(Drop)]
pub struct FifoRecord {
    pub clients: u32,
    /// The place at which the life began, the number of entries kept in all lives before.
    pub from: u64,
    pub journal: Items<FifoLine>,
    pub reads: Items<FifoRead>,
    pub choice: u64,
    /// This many entries, the first ones, survive the crash.
    pub kept: u64,
    /// The number of texts in the queue with which the next life begins.
    pub items: u64,
}

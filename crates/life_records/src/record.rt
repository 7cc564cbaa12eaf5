//! What is recorded of a life.

use cx_base::Items;
use cx_core::FullNote;

/// A life as it went: the entries of its history by ticket; the reads that were answered beside it, the clients that were
/// stopped and those that ended Full, each by client; and how many of the entries the crash kept.
#[derive(Drop)]
pub struct LifeRecord<Reply> {
    pub clients: u32,
    /// The place at which the life began, the number of entries kept in all lives before.
    pub from: u64,
    pub journal: Items<JournalLine<Reply>>,
    pub reads: Items<ReadLine<Reply>>,
    pub stops: Items<StopLine>,
    pub fulls: Items<FullLine>,
    pub choice: u64,
    /// How many entries survive the crash: the first ones.
    pub kept: u64,
    /// The items of the store that the next life begins with, which are the documents of a document store.
    pub items: u64,
}

/// An entry of the history: which command of which client it is, and its reply where the client was answered. A
/// client's commands are counted from 1 in each life.
#[derive(Drop)]
pub struct JournalLine<Reply> {
    pub ticket: u64,
    pub client: u32,
    pub command: u64,
    pub reply: Option<Reply>,
}

/// A read that did not go through the history. It was answered by the store after the entries below its place.
#[derive(Drop)]
pub struct ReadLine<Reply> {
    pub client: u32,
    pub command: u64,
    pub place: u64,
    pub reply: Reply,
}

/// A client that was stopped in a command, at its limit of steps, and whether the command's entry survives the crash.
#[derive(Clone, Copy, Debug, PartialEq, Eq, Drop)]
pub struct StopLine {
    pub client: u32,
    pub command: u64,
    pub steps: u64,
    pub kept: bool,
}

/// A client that ended Full in a command: another that was stopped kept its cells.
#[derive(Clone, Copy, Debug, PartialEq, Eq, Drop)]
pub struct FullLine {
    pub client: u32,
    pub command: u64,
    pub note: FullNote,
}

//! Records of lives, made from rows. A record says what happened in a life, from its start to the crash that ends it.

use cx_base::{Bytes, Items};
use cx_core::FullNote;
use doc_model::Reply;
use doc_text::{FullLine, JournalLine, LifeRecord, ReadLine, StopLine};
use std::alloc::{AllocError, Global};

/// The reply to a command, as rows have it.
#[derive(Clone, Copy)]
pub(crate) enum RowReply {
    /// The key was not there, and is now.
    New,
    /// The key was there, and has the new document.
    Replaced,
    /// The key was there, and is no more.
    Deleted,
    /// The key, or any key above, is not there.
    Absent,
    /// The document.
    Doc(&'static [u8]),
    /// The number after an addition.
    Sum(i64),
    /// The document is not the text of a 64-bit integer, so that nothing was added.
    NotNumber,
    /// The sum is no 64-bit integer, so that nothing was added.
    Overflow,
    /// The store has too few lines for the change.
    NoRoom,
    /// The least key above.
    Key(&'static [u8]),
    /// The number of documents.
    Number(u64),
    /// The document was set, and has this revision.
    Set(u64),
    /// The document has this revision, and not the one that was asked for, so that nothing was set.
    Stale(u64),
    /// The revision of the document.
    Revision(u64),
}

/// An entry of the history: the ticket, the client, the number of its command, counted from 1, and the reply, if the client was answered.
pub(crate) type JournalRow = (u64, u32, u64, Option<RowReply>);

/// A read of client 0 that was answered beside the log: the number of its command, counted from 1, the place, and the reply.
pub(crate) type ReadRow = (u64, u64, RowReply);

/// A client that was stopped: the client, the number of its command, its limit of steps, and whether the entry of the command is kept.
pub(crate) type StopRow = (u32, u64, u64, bool);

/// A client that found none of its cells free: the client and the number of its command; then the stopped client that keeps the cells in use, the
/// place from which on that one needs entries, and the least ticket of the client's cells.
pub(crate) type FullRow = (u32, u64, u32, u64, u64);

/// A life. The columns: its clients and the place where it begins; the entries of its history; the reads beside the log; the clients that were
/// stopped, and those that found no cell free; then the choice of the crash, the number of entries kept, and the number of documents.
pub(crate) type Lived = (
    (u32, u64),
    &'static [JournalRow],
    &'static [ReadRow],
    (&'static [StopRow], &'static [FullRow]),
    (u64, u64, u64),
);

/// The records of lives, one for each life in order. `Err` means out of memory.
pub(crate) fn records_of(alloc: Global, lives: &[Lived]) -> Result<Vec<LifeRecord>, AllocError> {
    let mut records = Vec::new(alloc);
    for life in lives {
        records.push(record_of(alloc, life)?)?;
    }
    Ok(records)
}

// The record of a life. `Err` means out of memory.
fn record_of(alloc: Global, life: &Lived) -> Result<LifeRecord, AllocError> {
    // `clients` and `from` are the first column of a life, and `choice`, `kept` and `items` the last one.
    let ((clients, from), _, _, _, (choice, kept, items)) = *life;
    let mut report = LifeRecord {
        clients,
        from,
        journal: Items::new(alloc),
        reads: Items::new(alloc),
        stops: Items::new(alloc),
        fulls: Items::new(alloc),
        choice,
        kept,
        items,
    };
    match add_lines(alloc, &mut report, life) {
        Ok(()) => Ok(report),
        Err(AllocError) => Err(AllocError),
    }
}

// Adds to a record the lines of a life: its journal, its reads, its stopped clients and those that found no cell free. `Err` means out of memory.
fn add_lines(alloc: Global, report: &mut LifeRecord, life: &Lived) -> Result<(), AllocError> {
    let (_, journal, reads, (stops, fulls), _) = *life;
    add_journal(alloc, &mut report.journal, journal)?;
    add_reads(alloc, &mut report.reads, reads)?;
    add_stops(&mut report.stops, stops)?;
    add_fulls(&mut report.fulls, fulls)
}

// Adds a line to the journal for each row. `Err` means out of memory.
fn add_journal(
    alloc: Global,
    journal: &mut Items<JournalLine>,
    rows: &[JournalRow],
) -> Result<(), AllocError> {
    for (ticket, client, command, row_reply) in rows {
        let reply = match row_reply {
            Some(row_reply) => Some(reply_of(alloc, *row_reply)?),
            None => None,
        };
        journal.push(JournalLine {
            ticket: *ticket,
            client: *client,
            command: *command,
            reply,
        })?;
    }
    Ok(())
}

// Adds a line to the reads for each row, all of client 0. `Err` means out of memory.
fn add_reads(
    alloc: Global,
    reads: &mut Items<ReadLine>,
    rows: &[ReadRow],
) -> Result<(), AllocError> {
    for (command, place, row_reply) in rows {
        let reply = reply_of(alloc, *row_reply)?;
        reads.push(ReadLine {
            client: 0,
            command: *command,
            place: *place,
            reply,
        })?;
    }
    Ok(())
}

// Adds a line for each client that was stopped. `Err` means out of memory.
fn add_stops(stops: &mut Items<StopLine>, rows: &[StopRow]) -> Result<(), AllocError> {
    for (client, command, steps, kept) in rows {
        stops.push(StopLine {
            client: *client,
            command: *command,
            steps: *steps,
            kept: *kept,
        })?;
    }
    Ok(())
}

// Adds a line for each client that found no cell free. `Err` means out of memory.
fn add_fulls(fulls: &mut Items<FullLine>, rows: &[FullRow]) -> Result<(), AllocError> {
    for (client, command, holder, need, ticket) in rows {
        fulls.push(FullLine {
            client: *client,
            command: *command,
            note: FullNote {
                holder: *holder,
                need: *need,
                ticket: *ticket,
            },
        })?;
    }
    Ok(())
}

// The reply that a row has, with its own memory for a document or a key. `Err` means out of memory.
fn reply_of(alloc: Global, row_reply: RowReply) -> Result<Reply, AllocError> {
    Ok(match row_reply {
        RowReply::New => Reply::New,
        RowReply::Replaced => Reply::Replaced,
        RowReply::Deleted => Reply::Deleted,
        RowReply::Absent => Reply::Absent,
        RowReply::Doc(document) => Reply::Doc(Bytes::of(alloc, document)?),
        RowReply::Sum(sum) => Reply::Sum(sum),
        RowReply::NotNumber => Reply::NotNumber,
        RowReply::Overflow => Reply::Overflow,
        RowReply::NoRoom => Reply::NoRoom,
        RowReply::Key(key) => Reply::Key(Bytes::of(alloc, key)?),
        RowReply::Number(count) => Reply::Number(count),
        RowReply::Set(revision) => Reply::Set(revision),
        RowReply::Stale(revision) => Reply::Stale(revision),
        RowReply::Revision(revision) => Reply::Revision(revision),
    })
}

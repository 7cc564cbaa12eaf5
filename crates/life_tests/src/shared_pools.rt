//! What clients of a pool are answered, and what the pool leaves when it is closed.

use crate::clients::all_work;
use crate::holds::holds;
use crate::pool_starts::opened;
use client_pool::{Answered, Client};
use cx_base::{root_place, root_replica};
use cx_core::{HEAD_LINES, LINE_WORDS, OBJECT_START};
use cx_table::Remains;
use std::alloc::{AllocError, Global};
use std::sync::Wait;
use std::test::Fail;
use std::thread::Threads;

/// No limit of steps.
const NO_LIMIT: u64 = u64::MAX;

/// `callers` callers, each with the step limit `limit`, are lent to `clients` clients. Each client adds 1 to counter 0 `additions` times, and then
/// reads it. They do so on threads of their own where `threads` is true, and otherwise one client after another.
struct Row {
    callers: u32,
    clients: u32,
    limit: u64,
    additions: u64,
    threads: bool,
}

/// How many answers there were: to additions (`added`), and to reads that went into the log as entries (`queued`).
#[derive(Clone, Copy)]
struct Sum {
    added: u64,
    queued: u64,
}

/// The sum in an answer, and whether what was answered is an entry of the log; `before` is the sum in the client's answer before. `None` where a read
/// sees less than that, where an addition does not see more, and where an addition is answered as no entry.
fn seen(answered: &Answered, before: u64, is_read: bool) -> Option<(u64, bool)> {
    let (sum, is_entry) = match answered {
        Answered::Updated { answer, .. } => (answer.reply[1], true),
        Answered::Read { seen } => (seen.reply[1], false),
    };
    let rises = if is_read {
        sum >= before
    } else {
        is_entry && sum > before
    };
    if rises { Some((sum, is_entry)) } else { None }
}

/// What a client was answered in all. `None` where an answer does not have the additions before it, where a client of a caller without a limit of
/// steps is not live or lacks an answer, and where a client of a caller with one is live or has all its answers.
fn sum_of(client: &Client, row: &Row) -> Option<Sum> {
    let answers = client.answers();
    // whether the client has the answers to all additions and to the read
    let is_whole = answers.len() as u64 == row.additions.wrapping_add(1);
    if client.is_live() != (row.limit == NO_LIMIT) || client.is_live() != is_whole {
        return None;
    }
    let mut before = 0u64;
    let mut sum = Sum {
        added: 0,
        queued: 0,
    };
    for (i, answered) in answers.iter().enumerate() {
        let is_read = i as u64 == row.additions;
        // the last answer is that of the read; `found` is the sum that this answer has
        let (found, is_entry) = seen(answered, before, is_read)?;
        before = found;
        if !is_read {
            sum.added = sum.added.wrapping_add(1);
        } else if is_entry {
            sum.queued = sum.queued.wrapping_add(1);
        }
    }
    Some(sum)
}

/// How many answers all clients of a pool had. `None` where `sum_of` of one of them is `None`.
fn sum_of_all(clients: &[Client], row: &Row) -> Option<Sum> {
    let mut all = Sum {
        added: 0,
        queued: 0,
    };
    for client in clients {
        let sum = sum_of(client, row)?;
        all.added = all.added.wrapping_add(sum.added);
        all.queued = all.queued.wrapping_add(sum.queued);
    }
    Some(all)
}

/// The place of the replica that was published last, and what counter 0 has there. `None` where `remains`, which a closed service leaves, names no
/// such word.
pub(crate) fn last(remains: &Remains) -> Option<(u64, u64)> {
    // the root that was published last names a replica and its place
    let code = *remains.published.last()?;
    let callers = remains.callers;
    if callers < 1 || callers > 8 {
        return None;
    }
    // each replica has its head and the object's lines; word 1 of the object is counter 0
    let length = remains
        .lines
        .checked_add(HEAD_LINES)?
        .checked_mul(LINE_WORDS)?;
    let from = length.checked_mul(u64::from(root_replica(callers, code)))?;
    let at = from.checked_add(OBJECT_START)?.checked_add(1)?;
    Some((
        root_place(callers, code),
        *remains.volatile.get(at as usize)?,
    ))
}

/// Whether the replica that was published last has all entries that were answered, and counter 0 has the additions among them. Without a step limit
/// these are all additions; with one, some are missing, and the replica may have one addition that was not answered.
fn is_left(remains: &Remains, sum: Sum, row: &Row) -> bool {
    let Some((place, count)) = last(remains) else {
        return false;
    };
    // the entries that nobody was answered: these are additions
    let unanswered = place.wrapping_sub(sum.added.wrapping_add(sum.queued));
    let all = u64::from(row.clients).wrapping_mul(row.additions);
    count == sum.added.wrapping_add(unanswered)
        && if row.limit == NO_LIMIT {
            unanswered == 0 && sum.added == all
        } else {
            unanswered <= 1 && sum.added < all
        }
}

/// Whether the clients of a row are answered as `sum_of` and `is_left` ask, once their pool is closed. `Err` where memory runs out.
fn is_right<R: Wait + Threads + Sync>(
    rt: &R,
    alloc: Global,
    row: &Row,
) -> Result<bool, AllocError> {
    let (pool, clients) = opened(rt, alloc, row.callers, row.clients, row.limit)?;
    let clients = all_work(rt, alloc, &pool, clients, row.additions, row.threads)?;
    let sum = sum_of_all(&clients, row);
    match pool.close(rt, alloc, clients) {
        Ok(remains) => Ok(match sum {
            Some(sum) => is_left(&remains, sum, row),
            None => false,
        }),
        Err(_) => Err(AllocError),
    }
}

/// The index of the first of `rows` whose clients are not answered as they are to be, or whose pool leaves other entries. `None` where there is none.
fn first_wrong<R: Wait + Threads + Sync>(
    rt: &R,
    alloc: Global,
    rows: &[Row],
) -> Result<Option<usize>, AllocError> {
    for (i, row) in rows.iter().enumerate() {
        if !is_right(rt, alloc, row)? {
            return Ok(Some(i));
        }
    }
    Ok(None)
}

const ROWS: [Row; 4] = [
    // as many clients as a pool may have, one after another, by one caller
    Row {
        callers: 1,
        clients: 64,
        limit: NO_LIMIT,
        additions: 1,
        threads: false,
    },
    // more clients than callers, on threads
    Row {
        callers: 2,
        clients: 3,
        limit: NO_LIMIT,
        additions: 200,
        threads: true,
    },
    // eight threads share one caller
    Row {
        callers: 1,
        clients: 8,
        limit: NO_LIMIT,
        additions: 10,
        threads: true,
    },
    // the limit of steps stops the only caller before its client has made all additions
    Row {
        callers: 1,
        clients: 1,
        limit: 2000,
        additions: 200,
        threads: false,
    },
];

#[test]
fn clients_share_callers(rt: HostRuntime) -> Result<(), Fail> {
    holds(&rt, first_wrong(&rt, rt.alloc(), &ROWS)?.is_none());
    Ok(())
}

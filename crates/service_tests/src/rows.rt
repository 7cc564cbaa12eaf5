//! Worked rows: a reader that stops, and callers alone up to the end of tickets.

use crate::calls::{Call, Came, READ, SUBMIT, UPDATE, Way};
use crate::holds::holds;
use crate::starts::NO_LIMIT;
use crate::sum_calls::{Part, adds_up, played, played_alone};
use crate::tasks::{Work, adds};
use std::alloc::{AllocError, Global};
use std::test::Fail;

// Caller 0 reads the sum, and then caller 1 makes an update that adds 5.
const READER: [Part; 2] = [
    (0, Work::Sum, READ),
    (
        1,
        Work::Adds {
            amount: 5,
            count: 1,
        },
        UPDATE,
    ),
];

// Whether caller 0 is stopped after two steps of its read, and the update of caller 1 is answered at ticket 0 with the sum 5.
fn is_reader_stopped(log: &[Call]) -> bool {
    match log {
        [reader, other] => {
            reader.is_halted(None)
                && reader.steps == 2
                && other.is_updated(0)
                && other.reply == adds(5)
        }
        _ => false,
    }
}

#[test]
fn a_stopped_reader_blocks_nobody(rt: HostRuntime) -> Result<(), Fail> {
    let played = played(rt.alloc(), 0, &[2, NO_LIMIT], &READER)?;
    holds(&rt, is_reader_stopped(&played.log));
    Ok(())
}

// What a caller alone is told.
#[derive(Clone, Copy)]
enum Want {
    // this many updates, each of which adds the amount, are answered at the tickets from 0 on
    Sums(u64, usize),
    // this many updates are answered at the tickets from 0 on
    Answers(usize),
    // the only call finds no further ticket, and the caller's front is this
    Worn(u64),
}

// From which place on the service opens, what the caller asks for, and what it is told.
const ALONE: [(u64, Work, Way, Want); 3] = [
    // 64 updates are more than the 16 cells of a caller
    (
        0,
        Work::Adds {
            amount: 3,
            count: 64,
        },
        UPDATE,
        Want::Sums(3, 64),
    ),
    // the cells of updates that are answered are given to later ones
    (0, Work::Rising(64), UPDATE, Want::Answers(64)),
    // the tickets end at 2^40, so none is left
    (
        1 << 40,
        Work::Adds {
            amount: 5,
            count: 1,
        },
        SUBMIT,
        Want::Worn(1 << 40),
    ),
];

// Whether the log of a caller alone is as wanted.
fn is_as_wanted(log: &[Call], want: Want) -> bool {
    match want {
        Want::Sums(amount, count) => log.len() == count && adds_up(log, 0, 0, amount),
        Want::Answers(count) => log.len() == count && are_in_order(log),
        Want::Worn(front) => is_worn(log, front),
    }
}

// Whether updates are answered at the tickets from 0 on.
fn are_in_order(log: &[Call]) -> bool {
    let mut ticket = 0u64;
    for call in log {
        if !call.is_updated(ticket) {
            return false;
        }
        ticket = ticket.wrapping_add(1);
    }
    true
}

// Whether the only call found no further ticket.
fn is_worn(log: &[Call], front: u64) -> bool {
    match log {
        [call] => match call.came {
            Came::Worn(at) => at == front,
            _ => false,
        },
        _ => false,
    }
}

// The first row whose caller is told something else than the row says.
fn first_wrong(
    alloc: Global,
    rows: &[(u64, Work, Way, Want)],
) -> Result<Option<usize>, AllocError> {
    for (i, (place, work, way, want)) in rows.iter().enumerate() {
        if !is_as_wanted(&played_alone(alloc, *place, *work, *way)?, *want) {
            return Ok(Some(i));
        }
    }
    Ok(None)
}

#[test]
fn a_caller_alone_is_never_full(rt: HostRuntime) -> Result<(), Fail> {
    holds(&rt, first_wrong(rt.alloc(), &ALONE)?.is_none());
    Ok(())
}

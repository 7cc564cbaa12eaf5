//! The cells of a caller are given to its later updates, or kept by another caller that is stopped.

use crate::calls::{Call, Came, SUBMIT_TWICE, UPDATE, UPDATE_TWICE};
use crate::holds::holds;
use crate::starts::NO_LIMIT;
use crate::sum_calls::{Part, played};
use crate::tasks::Work;
use cx_core::FullNote;
use std::alloc::{AllocError, Global};
use std::test::Fail;

// Caller 1 makes an update with a limit of steps. Then caller 0 makes 16 updates, as many as it has cells, and submits a further one.
const PARTS: [Part; 3] = [
    (
        1,
        Work::Adds {
            amount: 1,
            count: 1,
        },
        UPDATE,
    ),
    (
        0,
        Work::Adds {
            amount: 1,
            count: 16,
        },
        UPDATE_TWICE,
    ),
    (
        0,
        Work::Adds {
            amount: 1,
            count: 1,
        },
        SUBMIT_TWICE,
    ),
];

// The note that caller 0 is given where caller 1 keeps its cells.
const KEPT: FullNote = FullNote {
    holder: 1,
    need: 0,
    ticket: 1,
};

// Whether each call in a log is answered.
fn are_answered(log: &[Call]) -> bool {
    for call in log {
        if !call.is_answered() {
            return false;
        }
    }
    true
}

// Whether the last call of caller 0 found its cells kept by caller 1. `Some(false)`: it linked its entry at ticket 16, or at 17 behind the
// entry of caller 1. `None`: it came to something else, an earlier update was not answered, or caller 1 keeps the cells and was not stopped.
fn is_full(log: &[Call]) -> Option<bool> {
    let (first, rest) = log.split_first()?;
    let (last, sixteen) = rest.split_last()?;
    if sixteen.len() != 16 || !are_answered(sixteen) {
        return None;
    }
    match last.came {
        Came::Linked(16..18) => Some(false),
        Came::Full(note) if note == KEPT && is_stopped(first) => Some(true),
        _ => None,
    }
}

// Whether a caller was stopped by its limit.
fn is_stopped(call: &Call) -> bool {
    match call.came {
        Came::Halted(_) => true,
        _ => false,
    }
}

// Whether `is_full` returns an answer at each limit of caller 1 up to the first at which its update is answered, and caller 1 keeps the cells of caller 0
// at one of them.
fn are_kept_at_some_limit(alloc: Global) -> Result<bool, AllocError> {
    let mut kept = false;
    for limit in 0..2000u64 {
        let played = played(alloc, 0, &[NO_LIMIT, limit], &PARTS)?;
        let log = played.log.as_slice();
        match is_full(log) {
            Some(full) => kept = kept || full,
            None => return Ok(false),
        }
        match log.first() {
            Some(first) if is_stopped(first) => {}
            _ => return Ok(kept),
        }
    }
    Ok(false)
}

#[test]
fn a_caller_stops_at_each_step(rt: HostRuntime) -> Result<(), Fail> {
    holds(&rt, are_kept_at_some_limit(rt.alloc())?);
    Ok(())
}

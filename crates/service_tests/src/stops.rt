//! A caller stops at each of its steps, and another goes on.

use crate::calls::{Call, READ, UPDATE, Way};
use crate::holds::holds;
use crate::starts::{NO_LIMIT, has_rising_codes};
use crate::sum_calls::{Part, adds_up, played};
use crate::tasks::Work;
use cx_table::Remains;
use std::alloc::{AllocError, Global};
use std::test::Fail;

// The steps by which an entry is linked where each word of its operation is written.
const STEPS_TO_LINK: u64 = 148;

// Caller 1 makes 16 updates that add 1. Where caller 0 linked an entry before, the front of caller 1 is at the ticket of that entry, so caller 1 needs two
// submits.
const OTHER: Part = (
    1,
    Work::Adds {
        amount: 1,
        count: 16,
    },
    Way {
        twice: false,
        turns: 3,
        beside: false,
    },
);

// What caller 0 asks for with a limit of steps, and then caller 1.
#[derive(Clone, Copy)]
struct Row {
    parts: [Part; 2],
    // whether caller 0 links an entry, which adds 1000
    links: bool,
    // caller 0 is answered at some limit below this one
    most: u64,
    // the first limit at which caller 0 is answered is not below this one
    above: u64,
}

const ROWS: [Row; 2] = [
    Row {
        parts: [(0, Work::Filled(1000), UPDATE), OTHER],
        links: true,
        most: 2000,
        above: STEPS_TO_LINK,
    },
    Row {
        parts: [(0, Work::Sum, READ), OTHER],
        links: false,
        most: 100,
        above: 3,
    },
];

// Whether the 16 updates of caller 1 are answered at the tickets after `linked` entries that add 1000 each, and the published codes rise.
fn goes_on(others: &[Call], remains: &Remains, linked: u64) -> bool {
    others.len() == 16
        && adds_up(others, linked, linked.wrapping_mul(1000), 1)
        && has_rising_codes(remains)
}

// Whether caller 0 was answered with a limit of steps, and otherwise was stopped, with the ticket of its entry from the link on. `None`: neither, or
// caller 1's updates were not all answered as they are to be.
fn is_answered(alloc: Global, row: &Row, limit: u64) -> Result<Option<bool>, AllocError> {
    let played = played(alloc, 0, &[limit, NO_LIMIT], &row.parts)?;
    let links = row.links && limit >= STEPS_TO_LINK;
    let ticket = if links { Some(0) } else { None };
    Ok(match played.log.as_slice() {
        [first, others @ ..] if goes_on(others, &played.remains, u64::from(links)) => {
            if first.is_halted(ticket) {
                Some(false)
            } else if first.is_answered() {
                Some(true)
            } else {
                None
            }
        }
        _ => None,
    })
}

// Whether caller 1 goes on at each limit up to the first at which caller 0 is answered, and this one is within the row's bounds.
fn is_right(alloc: Global, row: &Row) -> Result<bool, AllocError> {
    for limit in 0..row.most {
        match is_answered(alloc, row, limit)? {
            Some(true) => return Ok(limit >= row.above),
            Some(false) => {}
            None => return Ok(false),
        }
    }
    Ok(false)
}

// The first row in which caller 1 does not go on at some limit, or the first limit at which caller 0 is answered is out of bounds.
fn first_wrong(alloc: Global, rows: &[Row]) -> Result<Option<usize>, AllocError> {
    for (i, row) in rows.iter().enumerate() {
        if !is_right(alloc, row)? {
            return Ok(Some(i));
        }
    }
    Ok(None)
}

#[test]
fn a_caller_stops_at_each_step(rt: HostRuntime) -> Result<(), Fail> {
    holds(&rt, first_wrong(rt.alloc(), &ROWS)?.is_none());
    Ok(())
}

//! Two callers submit, one after the other, at each limit of steps, and at the end of tickets.

use crate::calls::{Call, Came, SUBMIT, SUBMIT_TWICE};
use crate::holds::holds;
use crate::starts::NO_LIMIT;
use crate::sum_calls::{Part, played};
use crate::tasks::Work;
use cx_table::Remains;
use std::alloc::{AllocError, Global};
use std::test::Fail;

// The steps by which an entry is linked where each word of its operation is written: a load of CUR, the words of the cell, a look and a link.
const STEPS_TO_LINK: u64 = 148;

// Whether a call linked its entry at `ticket`.
fn is_linked(call: &Call, ticket: u64) -> bool {
    match call.came {
        Came::Linked(at) => at == ticket,
        _ => false,
    }
}

// Both callers submit. The front of caller 1 is at the ticket that caller 0 linked, so caller 1 submits twice.
const IN_ORDER: [Part; 3] = [
    (0, Work::Filled(5), SUBMIT),
    (1, Work::Filled(7), SUBMIT),
    (1, Work::Filled(7), SUBMIT),
];

// Whether caller 0 linked at ticket 0 by `STEPS_TO_LINK` steps, and caller 1 found that link by its first submit and linked at ticket 1 by its second.
fn are_linked(log: &[Call]) -> bool {
    match log {
        [one, again, other] => {
            is_linked(one, 0)
                && one.steps == STEPS_TO_LINK
                && matches!(again.came, Came::Again)
                && is_linked(other, 1)
        }
        _ => false,
    }
}

// Whether what was left is of a service of two callers and 64 lines that opened at place 0.
fn is_closed(remains: &Remains) -> bool {
    remains.callers == 2 && remains.lines == 64 && remains.first == 0
}

#[test]
fn two_callers_link_one_after_the_other(rt: HostRuntime) -> Result<(), Fail> {
    let played = played(rt.alloc(), 0, &[NO_LIMIT, NO_LIMIT], &IN_ORDER)?;
    holds(&rt, are_linked(&played.log));
    holds(&rt, is_closed(&played.remains));
    Ok(())
}

// Caller 0 submits one update.
const ONE: [Part; 1] = [(0, Work::Filled(5), SUBMIT_TWICE)];

// Whether the only call was halted at its limit of steps where this is below `STEPS_TO_LINK`, and otherwise linked at ticket 0 by just so many steps.
fn is_halted_or_linked(log: &[Call], limit: u64) -> bool {
    match log {
        [call] if limit < STEPS_TO_LINK => call.is_halted(None) && call.steps == limit,
        [call] => is_linked(call, 0) && call.steps == STEPS_TO_LINK,
        _ => false,
    }
}

// The first limit of steps at which caller 0 is neither halted below `STEPS_TO_LINK` nor linked from there on.
fn first_wrong(alloc: Global) -> Result<Option<u64>, AllocError> {
    for limit in 0..150u64 {
        let played = played(alloc, 0, &[limit, NO_LIMIT], &ONE)?;
        if !is_halted_or_linked(&played.log, limit) {
            return Ok(Some(limit));
        }
    }
    Ok(None)
}

#[test]
fn each_limit_halts_until_the_link(rt: HostRuntime) -> Result<(), Fail> {
    holds(&rt, first_wrong(rt.alloc())?.is_none());
    Ok(())
}

// Both callers submit one update, where one ticket is left.
const AT_THE_END: [Part; 2] = [
    (0, Work::Filled(5), SUBMIT_TWICE),
    (1, Work::Filled(7), SUBMIT_TWICE),
];

// Whether caller 0 linked at the last ticket, and caller 1 was told that there is none left.
fn is_last_ticket_taken(log: &[Call]) -> bool {
    match log {
        [one, other] => is_linked(one, (1 << 40) - 1) && matches!(other.came, Came::Worn(_)),
        _ => false,
    }
}

#[test]
fn no_ticket_is_left(rt: HostRuntime) -> Result<(), Fail> {
    let played = played(
        rt.alloc(),
        (1 << 40) - 1,
        &[NO_LIMIT, NO_LIMIT],
        &AT_THE_END,
    )?;
    holds(&rt, is_last_ticket_taken(&played.log));
    Ok(())
}

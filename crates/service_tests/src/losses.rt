//! A caller stops at each step of an update, and what was answered is recovered.

ghost use Rattle.std.specs.Prelude.{◌≤◌, IfOk};
ghost use Rattle.service_tests.specs.Closed.{IsClosedTally};

use crate::calls::{Call, UPDATE};
use crate::closed::recovered;
use crate::holds::holds;
use crate::starts::NO_LIMIT;
use crate::sum_calls::{Outcome, Part, played};
use crate::tasks::Work;
use cx_core::{Base, OBJECT_START};
use cx_table::Remains;
use std::alloc::{AllocError, Global};
use std::test::Fail;

// What the loss of power leaves of a dirty word: its durable value by choice 0, its volatile value by choice 1, and by another choice a value that is
// computed from the choice and the word's address.
const CHOICES: [u64; 5] = [0, 1, 2, 3, 0x9e37_79b9_7f4a_7c15];

// Caller 1 makes an update that adds 1, whereupon caller 0 comes with a limit of steps and an update that adds 1000.
const PARTS: [Part; 2] = [
    (
        1,
        Work::Adds {
            amount: 1,
            count: 1,
        },
        UPDATE,
    ),
    (
        0,
        Work::Adds {
            amount: 1000,
            count: 1,
        },
        UPDATE,
    ),
];

// Whether the last call in the log, which is caller 0's, was answered.
fn is_answered(log: &[Call]) -> bool {
    match log.last() {
        Some(call) => call.is_answered(),
        None => false,
    }
}

// The word of a base at a place of its region, and 0 where the region has no such place.
fn word(base: &Base, at: usize) -> u64 {
    base.words.as_slice().get(at).copied().unwrap_or(0)
}

// Where the sum stands in a region: word 1 of the object part.
const SUM_AT: usize = OBJECT_START as usize + 1;

// The slot of caller 0: the number of its last entry, and behind it the reply.
const FIRST_SLOT: usize = 8;

// The slot of caller 1, behind the 145 words of that of caller 0.
const SECOND_SLOT: usize = 153;

// Whether a base has the place `place` and the sum `sum`, in the slot of caller 0 the number `number` and the reply `reply`, and in the slot of caller 1
// the number 1 and the reply 1.
fn is_base(base: &Base, place: u64, sum: u64, number: u64, reply: u64) -> bool {
    base.place == place
        && word(base, SUM_AT) == sum
        && word(base, FIRST_SLOT) == number
        && word(base, FIRST_SLOT + 1) == reply
        && word(base, SECOND_SLOT) == 1
        && word(base, SECOND_SLOT + 1) == 1
}

// Whether caller 0's update is kept in a base. `None`: the base is neither the one with that update nor the one without it.
fn is_kept(base: &Base) -> Option<bool> {
    if is_base(base, 2, 1001, 1, 1001) {
        return Some(true);
    }
    if is_base(base, 1, 1, 0, 0) {
        return Some(false);
    }
    None
}

// Whether caller 0's update is kept by a choice.
fn is_kept_by(alloc: Global, remains: &Remains, choice: u64) -> Option<bool>
    requires { IsClosedTally remains.now }
{
    match recovered(alloc, remains, choice) {
        Ok(again) => is_kept(&again),
        Err(_) => None,
    }
}

// How many of the choices keep caller 0's update.
fn kept(alloc: Global, remains: &Remains) -> Option<u64>
    requires { IsClosedTally remains.now }
{
    let mut count = 0u64;
    for choice in CHOICES {
        if is_kept_by(alloc, remains, choice)? {
            count = count.wrapping_add(1);
        }
    }
    Some(count)
}

// What a service leaves when it is closed, after `PARTS` were asked for with a limit of steps for caller 0.
fn stopped(alloc: Global, limit: u64) -> Result<Outcome, AllocError>
    ensures { IfOk result (λ p. IsClosedTally p.remains) }
{
    played(alloc, 0, &[limit, NO_LIMIT], &PARTS)
}

// How many of the choices keep caller 0's update where it has this limit of steps, and whether the update was answered.
fn kept_at(alloc: Global, limit: u64) -> Result<(Option<u64>, bool), AllocError> {
    let stopped = stopped(alloc, limit)?;
    Ok((kept(alloc, &stopped.remains), is_answered(&stopped.log)))
}

// The steps by which caller 0's update is linked. With fewer it is lost.
const LINKED: u64 = 148;

// The steps by which caller 0's update is published, where it takes the write set of caller 1's update before it.
const PUBLISHED: u64 = 193;

// The steps by which caller 0's update is answered.
const ANSWERED: u64 = 195;

// The first of limits, each `step` above the one before, at which the update is kept or answered.
fn first_kept(alloc: Global, from: u64, to: u64, step: usize) -> Result<Option<u64>, AllocError>
    requires { 1 ≤ step }
{
    for limit in (from..to).step_by(step) {
        let (count, answered) = kept_at(alloc, limit)?;
        if count != Some(0) || answered {
            return Ok(Some(limit));
        }
    }
    Ok(None)
}

#[test]
fn updates_are_lost_before_they_are_published(rt: HostRuntime) -> Result<(), Fail> {
    holds(&rt, first_kept(rt.alloc(), 0, LINKED, 21)?.is_none());
    holds(&rt, first_kept(rt.alloc(), LINKED, PUBLISHED, 4)?.is_none());
    Ok(())
}

// Whether the update is kept by each choice where it was answered, and by some and not by others at one of the limits.
fn are_parted(alloc: Global) -> Result<bool, AllocError> {
    let mut parted = false;
    for limit in PUBLISHED..ANSWERED {
        let (Some(count), answered) = kept_at(alloc, limit)? else {
            return Ok(false);
        };
        if answered && count != 5 {
            return Ok(false);
        }
        parted = parted || (0 < count && count < 5);
    }
    Ok(parted)
}

// Whether caller 0's update is answered at this limit of steps, and kept by each of the five choices.
fn is_answered_at(alloc: Global, limit: u64) -> Result<bool, AllocError> {
    let (count, answered) = kept_at(alloc, limit)?;
    Ok(answered && count == Some(5))
}

#[test]
fn published_updates_may_be_kept_and_answered_ones_are(rt: HostRuntime) -> Result<(), Fail> {
    holds(&rt, are_parted(rt.alloc())?);
    holds(&rt, is_answered_at(rt.alloc(), ANSWERED)?);
    Ok(())
}

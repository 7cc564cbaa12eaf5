//! A replica is brought up and released, and copied over another that differs, at each limit of steps within the copy.

ghost use Rattle.std.specs.Prelude.{◌≡◌, IfOk, IfSome};
ghost use Rattle.cx_core.specs.LockEvents.{CanTryShared};
ghost use Rattle.table_invariant.specs.Running.{IsSeatOf};
ghost use Rattle.replica.specs.Copies.{HoldsBoth};
ghost use Rattle.replica.specs.Held.{IsHeld};
ghost use Rattle.table_tests.specs.Replaying.{IsNew};
ghost use Rattle.table_tests.specs.Turns.{TakesIt};

use crate::holds::holds;
use crate::images::{
    LINES, Replica, differing, first_entry, is_clean, is_marked, opening, replica_of, stepped,
};
use crate::tables::{NO_LIMIT, closed, made, update};
use crate::turns::{try_one, turn};
use cx_attempts::Scratch;
use cx_base::{Halt, Object};
use cx_table::{CallerSeat, Exclusive, Remains, Shared, SharedHold};
use doc_store::DocStore;
use mutation_queue::LinkTried;
use replica::renew_from;
use std::alloc::{AllocError, Global};
use std::test::Fail;

/// The replica that is brought up, and then copied.
pub(crate) const SOURCE: u32 = 1;

// The replica that is copied over.
const TARGET: u32 = 2;

/// Tries to take replica `r` shared, while the caller holds another one exclusively (`held`). Where it is taken, the caller holds both; `None` where
/// it is held exclusively.
pub(crate) fn share_beside<O: Object>(
    shared: &Shared<O>,
    seat: &mut CallerSeat,
    held: &Exclusive,
    r: u64,
) -> Result<Option<SharedHold>, Halt>
    requires held { IsHeld (O.line_count shared.now.object) shared.now (O.lawful shared.now.object) (O.step shared.now.object) seat.old held.now }
    requires free { CanTryShared shared.now.callers r seat.old.known.local }
    ensures both { IfOk result (λ o. IfSome o (HoldsBoth (O.line_count shared.now.object) shared.now (O.lawful shared.now.object) (O.step shared.now.object) seat.new held.now)) }
    ensures seat { IsSeatOf shared.now seat.new }
{
    let _ = held;
    let (_, right) = shared.try_shared(seat, r)?;
    Ok(right.ok())
}

/// How many steps the caller had made before a copy, and the place that the copy returned.
pub(crate) type Copied = (u64, u64);

// Copies replica `SOURCE` over replica 2, which was just taken (`held`); `None` where `SOURCE` is held exclusively.
fn copy_beside<O: Object>(
    shared: &Shared<O>,
    seat: &mut CallerSeat,
    held: &Exclusive,
) -> Result<Option<Copied>, Halt>
    requires callers { shared.now.callers ≡ 2 }
    requires taken { TakesIt (O.line_count shared.now.object) shared.now (O.lawful shared.now.object) (O.step shared.now.object) seat.old held.now }
    requires target { held.now.replica ≡ 2 }
    ensures seat { IsSeatOf shared.now seat.new }
{
    let Some(source) = share_beside(shared, seat, held, u64::from(SOURCE))? else {
        return Ok(None);
    };
    let before = seat.steps();
    let place = renew_from(shared, seat, held, source)?;
    Ok(Some((before, place)))
}

// A caller without entries links one with the operation `op`, brings replica `SOURCE` up to it and gives that up, and copies it over `TARGET`. `None`
// where the entry was not linked, or a replica was refused to the copy.
fn renew_and_copy<O: Object>(
    shared: &Shared<O>,
    seat: &mut CallerSeat,
    op: &[u64; 144],
    scratch: &mut Scratch,
) -> Result<Option<Copied>, Halt>
    requires callers { shared.now.callers ≡ 2 }
    requires new { IsNew shared.now seat.old }
    ensures seat { IsSeatOf shared.now seat.new }
{
    let LinkTried::Linked { ticket } = update(shared, seat, op)? else {
        return Ok(None);
    };
    turn(shared, seat, SOURCE, ticket, scratch)?;
    match try_one(shared, seat, TARGET)? {
        Some(held) => copy_beside(shared, seat, &held),
        None => Ok(None),
    }
}

/// What a caller with a limit did: its copy (`copied`), which is `None` where it stopped before the end of it, all its steps, and what the closed
/// table left.
#[derive(Drop)]
pub(crate) struct Outcome {
    pub(crate) copied: Option<Copied>,
    pub(crate) steps: u64,
    pub(crate) left: Remains,
}

/// A caller with a limit of steps links an entry with the operation `op`, brings a replica up to it and copies that; then the table is closed. `None`
/// where it could not be closed.
pub(crate) fn at_limit(
    alloc: Global,
    op: &[u64; 144],
    limit: u64,
) -> Result<Option<Outcome>, AllocError> {
    let (shared, mut first, second) = made(alloc, DocStore::of(LINES), &[limit, NO_LIMIT])?;
    let mut scratch = Scratch::new(alloc)?;
    let copied = renew_and_copy(&shared, &mut first, op, &mut scratch)
        .ok()
        .flatten();
    let steps = first.steps();
    match closed(alloc, shared, first, second)? {
        Some(left) => Ok(Some(Outcome {
            copied,
            steps,
            left,
        })),
        None => Ok(None),
    }
}

/// The steps before the copy, those of the whole run, and the place that the copy returned.
pub(crate) type Whole = (u64, u64, u64);

/// What a caller without a limit of steps does with an entry of the operation `op`; `None` where it made no copy.
pub(crate) fn whole_run(alloc: Global, op: &[u64; 144]) -> Result<Option<Whole>, AllocError> {
    match at_limit(alloc, op, NO_LIMIT)? {
        Some(outcome) => Ok(whole_of(outcome.copied, outcome.steps)),
        None => Ok(None),
    }
}

// The result of a run of `steps` steps in all; `None` where no copy was made.
fn whole_of(copied: Option<Copied>, steps: u64) -> Option<Whole> {
    let (before, place) = copied?;
    Some((before, steps, place))
}

// The loads of a line: 8 words of each of two replicas.
const LINE_LOADS: u64 = 16;

// Whether the first `steps` steps of a copy of `words` over the words `before` leave the words `found`. A step is one load or one store; after the
// last store the copy makes one that releases the source.
fn is_copied_to(words: &[u64], before: &[u64], found: &[u64], steps: u64) -> bool {
    let lines = words.len() / 8;
    let mut line = 0usize;
    let mut left = steps;
    for ((words, before), found) in words.chunks(8).zip(before.chunks(8)).zip(found.chunks(8)) {
        // `left` are the steps that remain for this line and those behind it
        left = left.saturating_sub(loads_before(line, lines));
        match line_left(words, before, found, left) {
            Some(steps) => left = steps,
            None => return false,
        }
        line = line.saturating_add(1);
    }
    true
}

// How many loads a copy makes just before its stores to the line `line`, of `lines` lines. It loads line 0 alone, and behind it each group of 8
// lines, or as many as are left, before it stores a word of the group.
fn loads_before(line: usize, lines: usize) -> u64 {
    if line == 0 {
        return LINE_LOADS;
    }
    if line % 8 != 1 {
        return 0;
    }
    LINE_LOADS.saturating_mul(lines.saturating_sub(line).min(8) as u64)
}

// How many of `steps` steps are left after a copy stored each word of a line that differs from the word `before`, one in each step, as far as the
// steps go. `None` where `found` is not the line that these stores leave.
fn line_left(words: &[u64], before: &[u64], found: &[u64], steps: u64) -> Option<u64> {
    let mut left = steps;
    for ((word, before), found) in words.iter().zip(before.iter()).zip(found.iter()) {
        let is_stored = *word != *before && left > 0;
        if is_stored {
            left -= 1;
        }
        let want = if is_stored { *word } else { *before };
        if *found != want {
            return None;
        }
    }
    Some(left)
}

// Whether the replica that is copied over has the words that a copy of `source` stores over `opening` in `steps` steps. None of them is durable yet,
// and exactly the words that differ from the durable ones are marked dirty.
fn is_begun(replica: &Replica, source: &[u64], opening: &[u64], steps: u64) -> bool {
    replica.durable == opening
        && is_copied_to(source, opening, replica.volatile, steps)
        && is_marked(replica)
}

// Whether a caller that made `steps` steps of a copy left the replicas so: `SOURCE` durable with the words `source`, `TARGET` with the words that
// were stored so far, and replicas 0 and 3 untouched.
fn is_copied(left: &Remains, source: &[u64], opening: &[u64], steps: u64) -> bool {
    let Some(target) = replica_of(left, TARGET as usize, opening.len()) else {
        return false;
    };
    is_begun(&target, source, opening, steps)
        && is_clean(left, SOURCE as usize, source)
        && is_clean(left, 0, opening)
        && is_clean(left, 3, opening)
}

// How many words a copy without a limit stores, where it makes the right steps and gives place 1; else `None`. It loads each of the 1680 words of
// both replicas, stores those that differ, and gives the shared right back.
fn whole_copy(alloc: Global) -> Result<Option<u64>, AllocError> {
    let entry = first_entry();
    let Some((before, steps, place)) = whole_run(alloc, &entry.op)? else {
        return Ok(None);
    };
    let (source, _) = stepped(alloc, &entry, None)?;
    let differ = differing(&opening(alloc)?, &source);
    let all = before
        .saturating_add(2 * 1680)
        .saturating_add(differ)
        .saturating_add(1);
    Ok(if place == 1 && steps == all {
        Some(differ)
    } else {
        None
    })
}

// A copy without a limit gives the place of its source, and stores 12 words or more.
#[test]
fn a_whole_copy_gives_the_place(rt: HostRuntime) -> Result<(), Fail> {
    let differ = whole_copy(rt.alloc())?;
    holds(&rt, differ.is_some_and(|differ| differ >= 12));
    Ok(())
}

// The operation of the entry that is replayed before a copy (`op`), the words that are copied (`source`), and the words of the opening image under
// them (`opening`).
#[derive(Drop)]
struct Words<'a> {
    op: &'a [u64; 144],
    source: &'a [u64],
    opening: &'a [u64],
}

// Whether a caller that may make `steps` steps of its copy, after the `before` steps ahead of it, makes exactly these, and leaves the replicas as so
// many steps of a copy do. The copy is to be complete exactly where `is_whole` says so.
fn is_right_at(
    alloc: Global,
    words: &Words,
    before: u64,
    steps: u64,
    is_whole: bool,
) -> Result<bool, AllocError> {
    let limit = before.saturating_add(steps);
    match at_limit(alloc, words.op, limit)? {
        Some(outcome) => Ok(
            outcome.steps == limit
                && outcome.copied.is_some() == is_whole
                && is_copied(&outcome.left, words.source, words.opening, steps),
        ),
        None => Ok(false),
    }
}

// How many limits of steps within a copy were tried: `from`, and each fourth one after it. `None` where one of them leaves anything else than as many
// steps of a copy do.
fn right_limits(alloc: Global, words: &Words, from: u64) -> Result<Option<u64>, AllocError> {
    let Some((before, all, _)) = whole_run(alloc, words.op)? else {
        return Ok(None);
    };
    let copy = all.saturating_sub(before);
    let mut tried = 0u64;
    for k in 0..=copy / 4 {
        let steps = k.saturating_mul(4).saturating_add(from);
        if steps > copy {
            return Ok(Some(tried));
        }
        if !is_right_at(alloc, words, before, steps, steps == copy)? {
            return Ok(None);
        }
        tried = tried.saturating_add(1);
    }
    Ok(Some(tried))
}

// Whether each fourth limit of steps within a copy, from `from` on, leaves what as many steps of a copy do; there are 840 such limits or more.
fn are_right(alloc: Global, from: u64) -> Result<bool, AllocError> {
    let entry = first_entry();
    let (source, _) = stepped(alloc, &entry, None)?;
    let opening = opening(alloc)?;
    let words = Words {
        op: &entry.op,
        source: &source,
        opening: &opening,
    };
    let tried = right_limits(alloc, &words, from)?;
    Ok(tried.is_some_and(|tried| tried >= 840))
}

// Each limit of steps within the copy is tried by this test or one of the three below.
#[test]
fn limits_leave_a_copy_begun(rt: HostRuntime) -> Result<(), Fail> {
    holds(&rt, are_right(rt.alloc(), 0)?);
    Ok(())
}

// The limits of 1, 5, 9 steps of the copy and so on.
#[test]
fn limits_past_one_step_leave_a_copy_begun(rt: HostRuntime) -> Result<(), Fail> {
    holds(&rt, are_right(rt.alloc(), 1)?);
    Ok(())
}

// The limits of 2, 6, 10 steps of the copy and so on.
#[test]
fn limits_past_two_steps_leave_a_copy_begun(rt: HostRuntime) -> Result<(), Fail> {
    holds(&rt, are_right(rt.alloc(), 2)?);
    Ok(())
}

// The limits of 3, 7, 11 steps of the copy and so on.
#[test]
fn limits_past_three_steps_leave_a_copy_begun(rt: HostRuntime) -> Result<(), Fail> {
    holds(&rt, are_right(rt.alloc(), 3)?);
    Ok(())
}

//! What a flush leaves in the medium, and what a copy leaves that finds no word that differs.

ghost use Rattle.std.specs.Prelude.{◌≡◌, ◌<◌};
ghost use Rattle.cx_base.specs.Tally.{IsTally, tally_step};
ghost use Rattle.table_invariant.specs.Running.{IsSeatOf};
ghost use Rattle.replica.specs.Held.{IsHeld};
ghost use Rattle.table_tests.specs.Replaying.{IsNew};

use crate::copy_tests::share_beside;
use crate::holds::holds;
use crate::images::is_clean;
use crate::tables::{NO_LIMITS, closed, made};
use crate::turns::try_one;
use cx_base::Halt;
use cx_base::tally::Tally;
use cx_core::Base;
use cx_table::{CallerSeat, Exclusive, Remains, Shared};
use replica::{HeldWords, copy_from, flush};
use std::alloc::{AllocError, Global};
use std::test::Fail;

// The words of a replica of Tally.
const REGION: u64 = 1680;

// The value that these tests store over words.
const WORD: u64 = 1 << 40;

// Stores `WORD` at the address `at` of the replica `held`.
fn store_at(
    shared: &Shared<Tally>,
    seat: &mut CallerSeat,
    held: &Exclusive,
    at: u64,
) -> Result<(), Halt>
    requires held { IsHeld 64 shared.now IsTally tally_step seat.old held.now }
    requires at { at < 1680 }
    ensures { IsHeld 64 shared.now IsTally tally_step seat.new held.now }
{
    shared.store_held(seat, held, at, WORD)
}

// Stores `WORD` over each of the last `count` words of the replica `held`, and persists them.
fn store_and_flush(
    shared: &Shared<Tally>,
    seat: &mut CallerSeat,
    held: &Exclusive,
    count: u64,
) -> Result<(), Halt>
    requires { IsHeld 64 shared.now IsTally tally_step seat.old held.now }
    ensures { IsHeld 64 shared.now IsTally tally_step seat.new held.now }
{
    for at in REGION.saturating_sub(count)..REGION {
        store_at(shared, seat, held, at)?;
    }
    flush(shared, seat, held)
}

// Takes replica 1, stores `WORD` over its last `count` words, and persists them. It returns whether the replica was taken.
fn take_and_flush(shared: &Shared<Tally>, seat: &mut CallerSeat, count: u64) -> Result<bool, Halt>
    requires callers { shared.now.callers ≡ 2 }
    requires new { IsNew shared.now seat.old }
    ensures seat { IsSeatOf shared.now seat.new }
{
    match try_one(shared, seat, 1)? {
        Some(held) => {
            store_and_flush(shared, seat, &held, count)?;
            Ok(true)
        }
        None => Ok(false),
    }
}

// A caller without entries takes replica 1 exclusively and replica 0 shared, and copies replica 0 over replica 1. It returns whether the copy gave
// place 0; `false` also where a replica was refused.
fn copy_at_opening(shared: &Shared<Tally>, seat: &mut CallerSeat) -> Result<bool, Halt>
    requires callers { shared.now.callers ≡ 2 }
    requires new { IsNew shared.now seat.old }
    ensures seat { IsSeatOf shared.now seat.new }
{
    let Some(held) = try_one(shared, seat, 1)? else {
        return Ok(false);
    };
    let Some(source) = share_beside(shared, seat, &held, 0)? else {
        return Ok(false);
    };
    Ok(copy_from(shared, seat, &held, &source)? == 0)
}

// Stores and flushes `flushed` words, or copies a replica where that is `None`. It returns whether this was done.
fn flush_or_copy(
    shared: &Shared<Tally>,
    seat: &mut CallerSeat,
    flushed: Option<u64>,
) -> Result<bool, Halt>
    requires callers { shared.now.callers ≡ 2 }
    requires new { IsNew shared.now seat.old }
    ensures seat { IsSeatOf shared.now seat.new }
{
    match flushed {
        Some(count) => take_and_flush(shared, seat, count),
        None => copy_at_opening(shared, seat),
    }
}

// The steps of a caller: a try, and each word stored once and persisted once; or, where `flushed` is `None`, two tries, and each word of two replicas
// loaded once.
fn steps_of(flushed: Option<u64>) -> u64 {
    match flushed {
        Some(count) => count.saturating_mul(2).saturating_add(1),
        None => 2 + 2 * REGION,
    }
}

// What a table left whose caller stored and flushed `flushed` words, or copied a replica where that is `None`. `None` where this took another number
// of steps than it should, or was not done.
fn left_by(alloc: Global, flushed: Option<u64>) -> Result<Option<Remains>, AllocError> {
    let (shared, mut first, second) = made(alloc, Tally, &NO_LIMITS)?;
    let is_done = flush_or_copy(&shared, &mut first, flushed) == Ok(true)
        && first.steps() == steps_of(flushed);
    let left = closed(alloc, shared, first, second)?;
    Ok(if is_done { left } else { None })
}

// The words that a table of Tally opens with, with `WORD` in place of each of the last `count`.
fn words_with(alloc: Global, count: u64) -> Result<Vec<u64>, AllocError> {
    let base = Base::fresh(alloc, &Tally)?;
    let mut words = base.words.into_vec();
    let kept = REGION.saturating_sub(count) as usize;
    if let Some(last) = words.as_mut_slice().get_mut(kept..) {
        last.fill(WORD);
    }
    Ok(words)
}

// Whether replica 1 was left with `words`, and the three others with the words `opening` that they opened with, all durable and none of them dirty.
fn is_left(left: &Remains, opening: &[u64], words: &[u64]) -> bool {
    is_clean(left, 0, opening)
        && is_clean(left, 1, words)
        && is_clean(left, 2, opening)
        && is_clean(left, 3, opening)
}

// Whether replica 1 has each word that was flushed in memory and on the medium, and no other word of the table is changed. `flushed` is how many
// words a caller stored and flushed, or `None` for a copy.
fn is_right(alloc: Global, flushed: Option<u64>) -> Result<bool, AllocError> {
    let opening = words_with(alloc, 0)?;
    let words = words_with(alloc, flushed.unwrap_or(0))?;
    match left_by(alloc, flushed)? {
        Some(left) => Ok(left.dirty.len() == 4 * 1680 && is_left(&left, &opening, &words)),
        None => Ok(false),
    }
}

// How many words are flushed: none, few, about the 512 dirty words that a seat lists at most, one more than twice as many, and the whole region.
// `None` is a copy: in the opening state no word differs from another replica's, so it makes no word dirty.
const ROWS: [Option<u64>; 8] = [
    Some(0),
    Some(12),
    Some(511),
    Some(512),
    Some(513),
    Some(1025),
    Some(1680),
    None,
];

// The number of the first row that leaves another table than it should; `None` where all are right.
fn first_wrong(alloc: Global, rows: &[Option<u64>]) -> Result<Option<usize>, AllocError> {
    for (i, row) in rows.iter().enumerate() {
        if !is_right(alloc, *row)? {
            return Ok(Some(i));
        }
    }
    Ok(None)
}

// Each word that a caller stores and flushes is durable, and a copy that finds no difference makes no word dirty.
#[test]
fn flushed_words_are_durable_and_copied_ones_clean(rt: HostRuntime) -> Result<(), Fail> {
    holds(&rt, first_wrong(rt.alloc(), &ROWS)?.is_none());
    Ok(())
}

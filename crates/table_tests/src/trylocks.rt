//! A shared try that is refused, at each limit of its steps, and the lock word that it leaves.

ghost use Rattle.std.specs.Prelude.{◌*◌, ◌<◌, IfOk, OnOk};
ghost use Rattle.table_tests.specs.Trylocks.{ArePair, IsFreeIn};

use crate::holds::holds;
use crate::tables::{NO_LIMIT, two};
use cx_base::Halt;
use cx_base::tally::Tally;
use cx_core::Base;
use cx_table::{CallerSeat, Shared};
use std::alloc::{AllocError, Global};
use std::test::Fail;
use strong_trylock::{ExclusiveTried, SharedTried, release, try_exclusive, try_shared};

// A table of two callers without rights, and their seats.
fn made(
    alloc: Global,
    limits: &[u64; 2],
) -> Result<(Shared<Tally>, CallerSeat, CallerSeat), AllocError>
    ensures { IfOk result (λ r. ArePair r.0 r.1 r.2) }
{
    let base = Base::fresh(alloc, &Tally)?;
    let (shared, seats) = Shared::make(alloc, Tally, 2, limits, &base)?;
    match two(seats) {
        Some((first, second)) => Ok((shared, first, second)),
        None => Err(AllocError),
    }
}

// The mark of an exclusive right in a lock word, 2^32.
const EXCLUSIVE: u64 = 4_294_967_296;

// Takes replica `r` exclusively and gives it up again, and returns `None`; where it is refused, the lock word that was found.
fn take_and_release(
    shared: &Shared<Tally>,
    seat: &mut CallerSeat,
    r: u32,
) -> Result<Option<u64>, Halt>
    requires free { IsFreeIn shared.now seat.old }
    requires few { r < 2 * shared.now.callers }
    ensures { OnOk result (IsFreeIn shared.now seat.new) }
{
    match try_exclusive(shared, seat, r)? {
        ExclusiveTried::Got(held) => {
            release(shared, seat, held)?;
            Ok(None)
        }
        ExclusiveTried::Held { found } => Ok(Some(found)),
    }
}

// The answer to a shared try of the second caller while the first holds replica `r` exclusively, and the lock word that is left after the first
// released its right, or `None` where that is 0.
fn words_left(
    shared: &Shared<Tally>,
    first: &mut CallerSeat,
    second: &mut CallerSeat,
    r: u32,
) -> Result<(Result<SharedTried, Halt>, Option<u64>), Halt>
    requires first { IsFreeIn shared.now first.old }
    requires second { IsFreeIn shared.now second.old }
    requires few { r < 2 * shared.now.callers }
{
    let ExclusiveTried::Got(held) = try_exclusive(shared, first, r)? else {
        return Err(Halt);
    };
    let tried = try_shared(shared, second, r);
    release(shared, first, held)?;
    let left = take_and_release(shared, first, r)?;
    Ok((tried, left))
}

// A shared try adds 1 to the lock word, and takes it back where the word has the mark of an exclusive right. First: the word that the second caller
// finds in its shared try, or `None` where it is halted. Second: the lock word that is left when the first has released its right, or `None` where
// that is 0. The number of the row is the second caller's limit of steps.
const REFUSED: [(Option<u64>, Option<u64>); 3] = [
    // the try is not begun
    (None, None),
    // the 1 that the try added is left
    (None, Some(1)),
    // the 1 that the try added is taken back
    (Some(EXCLUSIVE), None),
];

// Whether a shared try beside an exclusive right, with a limit of steps, finds the word `found`, or halts where that is `None`, and leaves the lock
// word `left`, or 0 where that is `None`.
fn stops_at(
    alloc: Global,
    limit: u64,
    found: Option<u64>,
    left: Option<u64>,
) -> Result<bool, AllocError> {
    let (shared, mut first, mut second) = made(alloc, &[NO_LIMIT, limit])?;
    let Ok((tried, word)) = words_left(&shared, &mut first, &mut second, 1) else {
        return Ok(false);
    };
    let is_tried = match (tried, found) {
        (Ok(SharedTried::Held { found }), Some(word)) => found == word,
        (Err(Halt), None) => true,
        _ => false,
    };
    Ok(is_tried && word == left && second.steps() == limit)
}

// The first limit of steps at which a try finds or leaves another word than its row says; `None` where there is none.
fn first_wrong_limit(alloc: Global) -> Result<Option<usize>, AllocError> {
    for (limit, (found, left)) in REFUSED.iter().enumerate() {
        if !stops_at(alloc, limit as u64, *found, *left)? {
            return Ok(Some(limit));
        }
    }
    Ok(None)
}

// At each limit of steps, a refused shared try leaves the lock word that its row says.
#[test]
fn lock_words_are_exact(rt: HostRuntime) -> Result<(), Fail> {
    holds(&rt, first_wrong_limit(rt.alloc())?.is_none());
    Ok(())
}

//! A caller that fell behind the ring of cells renews its replica by the lines that changed, where the ring of gaps has them, or whole: entries of as
//! many changed lines as that ring has words for, and of one more, and callers behind by as many tickets as it has slots for, and by more.

use crate::alone::{last_region, made_alone};
use crate::calls::Call;
use crate::holds::holds;
use crate::pairs::{Ended, Turn, run_pair};
use crate::starts::NO_LIMIT;
use crate::tasks::Work;
use cx_base::Object;
use cx_core::{HEAD_LINES, LINE_WORDS};
use cx_table::Remains;
use doc_store::DocStore;
use std::alloc::{AllocError, Global};
use std::test::Fail;

/// The fewest lines of an object for which the ring of gaps is written.
pub(crate) const LINES: u64 = 4096;

/// The fewest steps of a copy of all lines of an object of `LINES` lines: a load of each word of both replicas.
pub(crate) const WHOLE: u64 = 2 * LINE_WORDS * (HEAD_LINES + LINES);

// Caller 0 makes its first updates and caller 1 its own, then caller 0 makes enough more for caller 1 to fall behind, which then makes one more.
const BEHIND: [Turn; 4] = [(0, 2), (1, 1), (0, 66), (1, 2)];

// As `BEHIND`, and then a third update of caller 1: before its second update caller 0 makes more than the 1,024 updates of a round of the ring of gaps,
// and before its third fewer.
const ROUND: [Turn; 6] = [(0, 2), (1, 1), (0, 1150), (1, 2), (0, 1250), (1, 3)];

// What the callers ask for, their turns, how many lines each update of caller 0 changes beside the place's, and whether the last copy of
// caller 1 is whole.
#[derive(Clone, Copy)]
struct Row {
    work: Work,
    turns: &'static [Turn],
    lines: u64,
    is_whole: bool,
}

const ROWS: [Row; 7] = [
    // the header, a node and the blocks of the document, and the caller's number
    Row {
        work: Work::Blocks {
            count: 12,
            wider: 1,
        },
        turns: &BEHIND,
        lines: 15,
        is_whole: false,
    },
    Row {
        work: Work::Blocks {
            count: 13,
            wider: 1,
        },
        turns: &BEHIND,
        lines: 16,
        is_whole: true,
    },
    // one of caller 0's updates in between changes one line more than a slot of the ring of gaps has room for
    Row {
        work: Work::Blocks {
            count: 12,
            wider: 30,
        },
        turns: &BEHIND,
        lines: 15,
        is_whole: true,
    },
    // the caller's number and reply alone: 7 words of the document are in one line, 8 in each further one
    Row {
        work: Work::Gets { bytes: 888 },
        turns: &BEHIND,
        lines: 15,
        is_whole: false,
    },
    Row {
        work: Work::Gets { bytes: 889 },
        turns: &BEHIND,
        lines: 16,
        is_whole: true,
    },
    // the slot of an entry of a line more has the words of a ticket of the round before
    Row {
        work: Work::Blocks {
            count: 12,
            wider: 1,
        },
        turns: &ROUND,
        lines: 15,
        is_whole: false,
    },
    Row {
        work: Work::Blocks {
            count: 12,
            wider: 1200,
        },
        turns: &ROUND,
        lines: 15,
        is_whole: true,
    },
];

// The steps of the last call of a caller, and 0 where it made none.
fn last_steps(log: &[Call]) -> u64 {
    match log {
        [.., before, last] => last.steps.saturating_sub(before.steps),
        [only] => only.steps,
        _ => 0,
    }
}

// The steps of the last call of caller 1. `None` where the object alone does not reply what the callers were told, or the region published last is not
// the object's.
fn steps_alone(alloc: Global, ended: &Ended, work: Work) -> Result<Option<u64>, AllocError> {
    let Some(alone) = made_alone(alloc, &DocStore::of(LINES), work, &ended.logs)? else {
        return Ok(None);
    };
    Ok(match ended.logs.last() {
        Some(log) if alone.is_left(&ended.remains, &ended.logs) => Some(last_steps(log)),
        _ => None,
    })
}

// How many lines of two regions differ, without the line of the place, which is the first.
fn lines_apart(one: &[u64], other: &[u64]) -> u64 {
    let mut count = 0u64;
    for (line, old) in one.chunks(8).zip(other.chunks(8)).skip(1) {
        if line != old {
            count = count.saturating_add(1);
        }
    }
    count
}

// How many lines differ between the regions that two closed services published last, without the line of the place.
fn apart(one: &Remains, other: &Remains) -> Option<u64> {
    Some(lines_apart(last_region(one)?, last_region(other)?))
}

// How many lines an update of caller 0 changes, without the line of the place.
fn lines_changed(alloc: Global, work: Work) -> Result<Option<u64>, AllocError> {
    let before = run_pair(alloc, DocStore::of(LINES), NO_LIMIT, work, &[(0, 20)])?;
    let after = run_pair(alloc, DocStore::of(LINES), NO_LIMIT, work, &[(0, 21)])?;
    Ok(apart(&before.remains, &after.remains))
}

// Whether caller 1 copies all lines in its last call, or not all, as `is_whole` says, and all is as the object alone has it.
fn is_copied(
    alloc: Global,
    work: Work,
    turns: &[Turn],
    is_whole: bool,
) -> Result<bool, AllocError> {
    let ended = run_pair(alloc, DocStore::of(LINES), NO_LIMIT, work, turns)?;
    Ok(match steps_alone(alloc, &ended, work)? {
        Some(steps) => (steps >= WHOLE) == is_whole,
        None => false,
    })
}

// Whether the updates of a row change as many lines as the row says, and the last copy of caller 1 is whole where the row says so and by lines elsewhere.
fn is_right(alloc: Global, row: &Row) -> Result<bool, AllocError> {
    if lines_changed(alloc, row.work)? != Some(row.lines) {
        return Ok(false);
    }
    is_copied(alloc, row.work, row.turns, row.is_whole)
}

// The first row whose updates change another number of lines, or whose last copy is not as the row says.
fn first_wrong(alloc: Global, rows: &[Row]) -> Result<Option<usize>, AllocError> {
    for (i, row) in rows.iter().enumerate() {
        if !is_right(alloc, row)? {
            return Ok(Some(i));
        }
    }
    Ok(None)
}

#[test]
fn entries_of_fifteen_lines_are_listed_and_of_sixteen_are_not(rt: HostRuntime) -> Result<(), Fail> {
    holds(&rt, first_wrong(rt.alloc(), &ROWS)?.is_none());
    Ok(())
}

// Each update changes the header, a node and a block or two, and its caller's number.
const SMALL: Work = Work::Blocks { count: 1, wider: 1 };

// How many updates caller 0 makes before the first update of caller 1, and whether caller 1 copies all lines then.
const COUNTS: [(u64, bool); 6] = [
    // the ring of cells has the entries, and nothing is copied
    (1, false),
    (16, false),
    // the ring of gaps has a slot for each ticket
    (64, false),
    (1024, false),
    // it has none for the first of them
    (1025, true),
    (2000, true),
];

// The first row whose copy is not as the row says.
fn first_wrong_count(alloc: Global, rows: &[(u64, bool)]) -> Result<Option<usize>, AllocError> {
    for (i, (count, is_whole)) in rows.iter().enumerate() {
        if !is_copied(alloc, SMALL, &[(0, *count), (1, 1)], *is_whole)? {
            return Ok(Some(i));
        }
    }
    Ok(None)
}

#[test]
fn callers_behind_the_ring_of_gaps_copy_all(rt: HostRuntime) -> Result<(), Fail> {
    holds(&rt, first_wrong_count(rt.alloc(), &COUNTS)?.is_none());
    Ok(())
}

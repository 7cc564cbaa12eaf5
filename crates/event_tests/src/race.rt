//! A race of two callers that publish, and what comes before it.

use crate::board::{Board, Row};
use crate::facts::{Fact, SUM_ADDRESS, SeenRow};
use cx_core::{Kind, WonCode};
use std::alloc::{AllocError, Global};

/// Two callers link an entry each: caller 0 adds 5 at ticket 0, caller 1 adds 7 at ticket 1. Each row: the caller, the step, and whether the step
/// is allowed. `WriteCell` stores `v` as word `i` of the caller's cell `j`; word 0 is the entry's number, and word 1 what it adds.
pub const LINKED: [Row; 9] = [
    (0, Kind::WriteCell { j: 0, i: 0, v: 1 }, true),
    (0, Kind::WriteCell { j: 0, i: 1, v: 5 }, true),
    (0, Kind::Look { s: 0 }, true),
    (0, Kind::Link { j: 0 }, true),
    (1, Kind::WriteCell { j: 0, i: 0, v: 1 }, true),
    (1, Kind::WriteCell { j: 0, i: 1, v: 7 }, true),
    // caller 1 finds slot 0 in use, and links at slot 1
    (1, Kind::Look { s: 0 }, true),
    (1, Kind::Look { s: 1 }, true),
    (1, Kind::Link { j: 0 }, true),
];

/// The words of a region after the first of these entries that differ from the base's, as pairs of address and word: the sum, the number and reply
/// of caller 0, and the place.
pub const AFTER_ONE: [(u64, u64); 4] = [(SUM_ADDRESS, 5), (8, 1), (9, 5), (0, 1)];

/// The words of a region after both of these entries that differ from the base's, as pairs of address and word: the sum, the numbers and replies of
/// both callers, and the place.
pub const AFTER_TWO: [(u64, u64); 6] = [
    (SUM_ADDRESS, 12),
    (8, 1),
    (9, 5),
    (153, 1),
    (154, 12),
    (0, 2),
];

/// Both callers found code 0 in CUR. Caller 0 publishes replica 1 at place 1, so that CUR is code 5. So the first try of caller 1, which has
/// replica 2 at place 2, is lost; its second one puts code 10 in the place of 5: the chain of roots is 0, 5, 10. Each caller raises DUR by its own
/// code, and then retires it: it releases the replica of the code that its own has replaced.
/// Each row: the caller, the step, and whether the step is allowed; then what it leaves: CUR and DUR, and what callers 0 and 1 have put into CUR
/// and not retired.
pub static RACE: [SeenRow; 12] = [
    ((0, Kind::LoadCur, true), Fact::Root([0, 0], [None, None])),
    ((1, Kind::LoadCur, true), Fact::Root([0, 0], [None, None])),
    // caller 0 publishes first, and caller 1 loses its first try
    (
        (0, Kind::Publish, true),
        Fact::Root([5, 0], [FIRST_WIN, None]),
    ),
    (
        (1, Kind::Publish, true),
        Fact::Root([5, 0], [FIRST_WIN, None]),
    ),
    // caller 1 publishes
    (
        (1, Kind::Publish, true),
        Fact::Root([10, 0], [FIRST_WIN, SECOND_WIN]),
    ),
    // a code is retired only once its caller has raised DUR to it or beyond
    (
        (0, Kind::Retire, false),
        Fact::Root([10, 0], [FIRST_WIN, SECOND_WIN]),
    ),
    (
        (0, RAISE_5, true),
        Fact::Root([10, 5], [FIRST_WIN, SECOND_WIN]),
    ),
    (
        (1, Kind::Retire, false),
        Fact::Root([10, 5], [FIRST_WIN, SECOND_WIN]),
    ),
    (
        (1, RAISE_10, true),
        Fact::Root([10, 10], [FIRST_WIN, SECOND_WIN]),
    ),
    // a raise by a smaller code leaves DUR as it is
    (
        (0, RAISE_5, true),
        Fact::Root([10, 10], [FIRST_WIN, SECOND_WIN]),
    ),
    // both callers retire their codes
    (
        (0, Kind::Retire, true),
        Fact::Root([10, 10], [None, SECOND_WIN]),
    ),
    ((1, Kind::Retire, true), Fact::Root([10, 10], [None, None])),
];

// What caller 0 puts into CUR, code 5, with the code that it replaces, 0.
const FIRST_WIN: Option<WonCode> = Some(WonCode { code: 5, before: 0 });

/// What caller 1 puts into CUR, code 10, with the code that it replaces, 5.
pub const SECOND_WIN: Option<WonCode> = Some(WonCode {
    code: 10,
    before: 5,
});

// The step that raises DUR by code 5, and asks for no read.
const RAISE_5: Kind = Kind::Raise {
    code: 5,
    read: None,
};

// The step that raises DUR by code 10, and asks for no read.
const RAISE_10: Kind = Kind::Raise {
    code: 10,
    read: None,
};

/// Makes what comes before the race: both entries are linked, and each caller has got its replica ready and downgraded its right on it. It returns
/// whether each of these steps was allowed; `Err` means out of memory.
pub fn begins(alloc: Global, board: &mut Board) -> Result<bool, AllocError> {
    Ok(
        board.first_wrong(alloc, &LINKED)?.is_none()
            && board.prepare(alloc, 0, 1, &AFTER_ONE)?
            && board.prepare(alloc, 1, 2, &AFTER_TWO)?,
    )
}

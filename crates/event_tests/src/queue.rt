//! The steps that link entries: two callers by hand, each step at its limits, and a script of three callers with tickets written by hand.

use crate::board::{Board, Row, holds};
use crate::facts::{Fact, Known, SeenRow};
use crate::scripts::{Part, Script, are_seen, are_so, first_wrong};
use cx_core::Kind;
use std::alloc::{AllocError, Global};
use std::test::Fail;

// Two callers link an entry each. Caller 1 finds slot 0 in use, and links at slot 1. Each row: the caller, the step, and whether the step is
// allowed; then what it leaves: the caller's front, which is the ticket after the last linked entry as far as it knows.
const TWO_CALLERS: [SeenRow; 9] = [
    // `WriteCell` stores `v` as word `i` of the caller's cell `j`; `Look` loads the word of link slot `s`; `Link` puts cell `j` at the front
    (
        (0, Kind::WriteCell { j: 0, i: 0, v: 1 }, true),
        Fact::Of(0, Known::Front(0)),
    ),
    ((0, Kind::Look { s: 0 }, true), Fact::Of(0, Known::Front(0))),
    ((0, Kind::Link { j: 0 }, true), Fact::Of(0, Known::Front(1))),
    (
        (1, Kind::WriteCell { j: 0, i: 0, v: 1 }, true),
        Fact::Of(1, Known::Front(0)),
    ),
    // caller 1 finds an entry at ticket 0, so that its front is 1; it may link there only once it has looked at slot 1
    ((1, Kind::Look { s: 0 }, true), Fact::Of(1, Known::Front(1))),
    (
        (1, Kind::Link { j: 0 }, false),
        Fact::Of(1, Known::Front(1)),
    ),
    ((1, Kind::Look { s: 1 }, true), Fact::Of(1, Known::Front(1))),
    ((1, Kind::Link { j: 0 }, true), Fact::Of(1, Known::Front(2))),
    ((1, Kind::LoadFree, true), Fact::Of(1, Known::Front(2))),
];

// Steps of two callers at the limits of their arguments and beyond them. Each row: the caller, the step, and whether the step is allowed.
const LIMITS: [Row; 34] = [
    // allowed: the last word of the last cell of a caller
    (
        0,
        Kind::WriteCell {
            j: 15,
            i: 144,
            v: u64::MAX,
        },
        true,
    ),
    // refused: there is no cell 16 of a caller
    (
        0,
        Kind::WriteCell {
            j: 16,
            i: 144,
            v: 1,
        },
        false,
    ),
    // refused: there is no word 145 of a cell
    (
        0,
        Kind::WriteCell {
            j: 15,
            i: 145,
            v: 1,
        },
        false,
    ),
    // refused: there is no caller 2
    (
        2,
        Kind::WriteCell {
            j: 15,
            i: 144,
            v: 1,
        },
        false,
    ),
    // slot 31 is the last one of two callers, and there is no slot 32 and no caller 2
    (0, Kind::Look { s: 31 }, true),
    (0, Kind::Look { s: 32 }, false),
    (2, Kind::Look { s: 31 }, false),
    (0, Kind::LoadFree, true),
    (2, Kind::LoadFree, false),
    // caller 0 has not looked at slot 0; once it has, its cell 0 still has no number of an entry
    (0, Kind::Link { j: 0 }, false),
    (0, Kind::Look { s: 0 }, true),
    (0, Kind::Link { j: 0 }, false),
    // the first entry of a caller has the number 1, and not 2; there is no cell 16 and no caller 2
    (0, Kind::WriteCell { j: 0, i: 0, v: 2 }, true),
    (0, Kind::Link { j: 0 }, false),
    (0, Kind::WriteCell { j: 0, i: 0, v: 1 }, true),
    (0, Kind::Link { j: 16 }, false),
    (2, Kind::Link { j: 0 }, false),
    (0, Kind::Link { j: 0 }, true),
    // cell 0 is in use, and a second entry is not linked before the first one is answered
    (0, Kind::WriteCell { j: 0, i: 1, v: 1 }, false),
    (0, Kind::WriteCell { j: 1, i: 0, v: 2 }, true),
    (0, Kind::Look { s: 1 }, true),
    (0, Kind::Link { j: 1 }, false),
    // caller 1 has not looked at slot 0
    (1, Kind::ReadCell { t: 0, k: 0, i: 0 }, false),
    (1, Kind::Look { s: 0 }, true),
    // caller 1 reads a word of cell 0, which slot 0 names, only once it has a confirmed protection
    (1, Kind::ReadCell { t: 0, k: 0, i: 144 }, false),
    (1, Kind::Protect { p: 0 }, true),
    (1, Kind::ReadCell { t: 0, k: 0, i: 144 }, false),
    (1, Kind::Confirm, true),
    (1, Kind::ReadCell { t: 0, k: 0, i: 144 }, true),
    // there is no word 145 of a cell; slot 0 names cell 0 and ticket 0, and neither cell 1 nor tickets 1 and 32; there is no caller 2
    (1, Kind::ReadCell { t: 0, k: 0, i: 145 }, false),
    (1, Kind::ReadCell { t: 0, k: 1, i: 0 }, false),
    (1, Kind::ReadCell { t: 1, k: 0, i: 0 }, false),
    (1, Kind::ReadCell { t: 32, k: 0, i: 0 }, false),
    (2, Kind::ReadCell { t: 0, k: 0, i: 0 }, false),
];

// Each script: the number of callers, then its parts: the rows above from the opening state on, and what holds after them.
static SCRIPTS: [Script; 2] = [
    (
        2,
        &[
            Part::Seen(&TWO_CALLERS),
            // the word of a link slot is the ticket times the number of cells, which is 32, plus the number of the cell, plus 1
            Part::Are(&[Fact::Links([1, 49, 0, 0]), Fact::Free(0)]),
        ],
    ),
    (
        2,
        &[
            Part::Rows(&[&LIMITS]),
            Part::Are(&[
                // caller 0 has linked an entry, at ticket 0, and caller 1 none
                Fact::Of(0, Known::Ticket(Some(0))),
                Fact::Of(1, Known::Ticket(None)),
            ]),
        ],
    ),
];

// Asserts that all steps of the scripts are allowed or refused as their rows say, and that all facts hold.
#[test]
fn two_callers_link_and_arguments_are_at_their_limits(rt: HostRuntime) -> Result<(), Fail> {
    holds(&rt, first_wrong(rt.alloc(), &SCRIPTS)?.is_none());
    Ok(())
}

// Each of three callers, one after another, writes words 0 to 19 of its cell 0: 60 steps. Returns whether all were allowed. `Err` means out of
// memory.
fn announce(alloc: Global, board: &mut Board) -> Result<bool, AllocError> {
    for i in 0..20u32 {
        for caller in 0..3u32 {
            let (i, v) = (u64::from(i), word_of(caller, i));
            if !board.step(alloc, caller, Kind::WriteCell { j: 0, i, v })? {
                return Ok(false);
            }
        }
    }
    Ok(true)
}

// Word `i` of what `caller` writes into its cell: word 0 is the number of its entry, 1; all others tell the caller and `i`.
fn word_of(caller: u32, i: u32) -> u64 {
    if i == 0 {
        1
    } else {
        100 * u64::from(caller) + u64::from(i)
    }
}

// `caller` looks at the slot of ticket `t`, and reads the first `words` words of cell `k`. Returns whether all these steps were allowed. `Err`
// means out of memory.
fn read(
    alloc: Global,
    board: &mut Board,
    caller: u32,
    t: u64,
    k: u64,
    words: u64,
) -> Result<bool, AllocError> {
    if !board.step(alloc, caller, Kind::Look { s: t })? {
        return Ok(false);
    }
    for i in 0..words {
        if !board.step(alloc, caller, Kind::ReadCell { t, k, i })? {
            return Ok(false);
        }
    }
    Ok(true)
}

// `caller` protects all tickets, and reads words of the entries of all three callers, which stand in cells 32, 16 and 0: 39 steps. Returns whether
// all were allowed. `Err` means out of memory.
fn read_all(alloc: Global, board: &mut Board, caller: u32) -> Result<bool, AllocError> {
    Ok(
        board.step(alloc, caller, Kind::Protect { p: 0 })?
            && board.step(alloc, caller, Kind::Confirm)?
            && read(alloc, board, caller, 0, 32, 12)?
            && read(alloc, board, caller, 1, 16, 12)?
            && read(alloc, board, caller, 2, 0, 10)?,
    )
}

// Caller 2 links first and caller 1 second. Caller 0 loses slot 0 and slot 1, and links third. Each row: the caller, the step, and whether the step
// is allowed; then what it leaves: the caller's front, which is the ticket after the last linked entry as far as it knows.
static THREE_CALLERS: [SeenRow; 23] = [
    ((0, Kind::Look { s: 0 }, true), Fact::Of(0, Known::Front(0))),
    ((1, Kind::Look { s: 0 }, true), Fact::Of(1, Known::Front(0))),
    ((2, Kind::Look { s: 0 }, true), Fact::Of(2, Known::Front(0))),
    // caller 2 links at slot 0, and the others lose their tries there, which raises their fronts to 1
    ((2, Kind::Link { j: 0 }, true), Fact::Of(2, Known::Front(1))),
    ((0, Kind::Link { j: 0 }, true), Fact::Of(0, Known::Front(1))),
    ((1, Kind::Link { j: 0 }, true), Fact::Of(1, Known::Front(1))),
    ((0, Kind::Look { s: 1 }, true), Fact::Of(0, Known::Front(1))),
    ((1, Kind::Look { s: 1 }, true), Fact::Of(1, Known::Front(1))),
    ((2, Kind::Look { s: 1 }, true), Fact::Of(2, Known::Front(1))),
    // caller 1 links at slot 1, and caller 0 loses its try there
    ((1, Kind::Link { j: 0 }, true), Fact::Of(1, Known::Front(2))),
    ((0, Kind::Link { j: 0 }, true), Fact::Of(0, Known::Front(2))),
    ((0, Kind::Look { s: 1 }, true), Fact::Of(0, Known::Front(2))),
    ((2, Kind::Look { s: 1 }, true), Fact::Of(2, Known::Front(2))),
    ((0, Kind::Look { s: 2 }, true), Fact::Of(0, Known::Front(2))),
    // caller 0 links at slot 2, and callers 1 and 2 learn of that when they look at slot 2
    ((0, Kind::Link { j: 0 }, true), Fact::Of(0, Known::Front(3))),
    ((0, Kind::LoadFree, true), Fact::Of(0, Known::Front(3))),
    ((1, Kind::LoadFree, true), Fact::Of(1, Known::Front(2))),
    ((2, Kind::LoadFree, true), Fact::Of(2, Known::Front(2))),
    ((1, Kind::Look { s: 3 }, true), Fact::Of(1, Known::Front(2))),
    ((1, Kind::Look { s: 2 }, true), Fact::Of(1, Known::Front(3))),
    (
        (2, Kind::Look { s: 47 }, true),
        Fact::Of(2, Known::Front(2)),
    ),
    ((2, Kind::Look { s: 0 }, true), Fact::Of(2, Known::Front(2))),
    ((2, Kind::Look { s: 2 }, true), Fact::Of(2, Known::Front(3))),
];

// What holds after 200 steps: for each caller the ticket of its entry and how many steps it made, the first four link slots, and words 0, 1, 19 and
// 20 of the entry of caller 1, which stands in cell 16.
static AFTER_200: [Fact; 11] = [
    Fact::Of(0, Known::Ticket(Some(2))),
    Fact::Of(0, Known::Steps(67)),
    Fact::Of(1, Known::Ticket(Some(1))),
    Fact::Of(1, Known::Steps(66)),
    Fact::Of(2, Known::Ticket(Some(0))),
    Fact::Of(2, Known::Steps(67)),
    Fact::Links([33, 65, 97, 0]),
    Fact::CellWord(145 * 16, 1),
    Fact::CellWord(145 * 16 + 1, 101),
    Fact::CellWord(145 * 16 + 19, 119),
    Fact::CellWord(145 * 16 + 20, 0),
];

// Each of three callers, one after another, reads the entries of all three. Returns whether all steps were allowed. `Err` means out of memory.
fn all_read(alloc: Global, board: &mut Board) -> Result<bool, AllocError> {
    for caller in 0..3u32 {
        if !read_all(alloc, board, caller)? {
            return Ok(false);
        }
    }
    Ok(true)
}

// Three callers write, link and read their entries on a board. Returns whether each step is allowed or refused as it is written, and `AFTER_200`
// holds at the end. `Err` means out of memory.
fn link_three(alloc: Global, board: &mut Board) -> Result<bool, AllocError> {
    if !announce(alloc, board)? || !are_seen(alloc, board, &THREE_CALLERS)? {
        return Ok(false);
    }
    Ok(all_read(alloc, board)? && are_so(board, &AFTER_200))
}

// Three callers write, link and read their entries from the opening state on. Returns whether all goes as it is written. `Err` means out of memory.
fn links_three(alloc: Global) -> Result<bool, AllocError> {
    let mut board = Board::open(alloc, 3)?;
    link_three(alloc, &mut board)
}

// Asserts that the script of three callers goes as it is written.
#[test]
fn three_callers_in_200_steps(rt: HostRuntime) -> Result<(), Fail> {
    holds(&rt, links_three(rt.alloc())?);
    Ok(())
}

//! Scripts: rows of steps and the facts that hold after them, and a race of two callers that publish.

use crate::board::{Board, Row};
use crate::facts::{Fact, SeenRow, is_so};
use crate::race::{RACE, begins};
use std::alloc::{AllocError, Global};

/// A part of a script.
pub enum Part {
    /// Lists of steps, each list after the one before.
    Rows(&'static [&'static [Row]]),
    /// Steps, each with a fact that holds after it.
    Seen(&'static [SeenRow]),
    /// Two callers link an entry each and get a replica ready to publish; then come this many of the first steps of the race `RACE`.
    Race(usize),
    /// A caller and a replica, which it takes exclusively; the words, as pairs of address and word, which it stores there and makes durable; then
    /// it downgrades its right.
    Prepared(u32, u64, &'static [(u64, u64)]),
    /// Facts that hold at this point of the script.
    Are(&'static [Fact]),
}

/// A script: the number of callers, 1 to 8, and its parts in order.
pub type Script = (u32, &'static [Part]);

/// Runs scripts, each from the opening state on, up to the first that does not go as it is written. It returns the index of that script, and of the
/// first part of it that does not; `None` if there is no such script. `Err` means out of memory.
pub fn first_wrong(
    alloc: Global,
    scripts: &[Script],
) -> Result<Option<(usize, usize)>, AllocError> {
    for (i, (callers, parts)) in scripts.iter().enumerate() {
        if let Some(part) = first_wrong_of(alloc, *callers, parts)? {
            return Ok(Some((i, part)));
        }
    }
    Ok(None)
}

// Runs one script of `callers` callers from the opening state on. It returns the index of its first part that does not go as it is written; `None`
// if all do, and 0 if there are not 1 to 8 callers.
fn first_wrong_of(
    alloc: Global,
    callers: u32,
    parts: &[Part],
) -> Result<Option<usize>, AllocError> {
    if callers < 1 || 8 < callers {
        return Ok(Some(0));
    }
    let mut board = Board::open(alloc, callers)?;
    first_wrong_part(alloc, &mut board, parts)
}

// Runs `parts` in order on this board. It returns the index of the first that does not go as it is written; `None` if all do.
fn first_wrong_part(
    alloc: Global,
    board: &mut Board,
    parts: &[Part],
) -> Result<Option<usize>, AllocError> {
    for (i, part) in parts.iter().enumerate() {
        if !is_as_written(alloc, board, part)? {
            return Ok(Some(i));
        }
    }
    Ok(None)
}

// Runs one part, and returns whether all its steps are allowed or refused as it says, and all its facts hold.
fn is_as_written(alloc: Global, board: &mut Board, part: &Part) -> Result<bool, AllocError> {
    match part {
        Part::Rows(lists) => are_as_written(alloc, board, lists),
        Part::Seen(rows) => are_seen(alloc, board, rows),
        Part::Race(events) => Ok(begins(alloc, board)? && races(alloc, board, *events)?),
        Part::Prepared(caller, r, words) => board.prepare(alloc, *caller, *r, words),
        Part::Are(facts) => Ok(are_so(board, facts)),
    }
}

// Makes the steps of lists of rows, and returns whether each is allowed or refused as its row says.
fn are_as_written(alloc: Global, board: &mut Board, lists: &[&[Row]]) -> Result<bool, AllocError> {
    for rows in lists {
        if board.first_wrong(alloc, rows)?.is_some() {
            return Ok(false);
        }
    }
    Ok(true)
}

// Makes the first `events` steps of the race, and returns whether each is allowed or refused as its row says, and leaves the fact of its row.
fn races(alloc: Global, board: &mut Board, events: usize) -> Result<bool, AllocError> {
    for (row, fact) in RACE.iter().take(events) {
        if board.step(alloc, row.0, row.1)? != row.2 || !is_so(board, fact) {
            return Ok(false);
        }
    }
    Ok(true)
}

/// Makes the steps of `rows`, and returns whether each is allowed or refused as its row says, and leaves the fact of its row. `Err` means out of
/// memory.
pub fn are_seen(alloc: Global, board: &mut Board, rows: &[SeenRow]) -> Result<bool, AllocError> {
    for (row, fact) in rows {
        if board.step(alloc, row.0, row.1)? != row.2 || !is_so(board, fact) {
            return Ok(false);
        }
    }
    Ok(true)
}

/// Whether all these facts hold of a board.
pub fn are_so(board: &Board, facts: &[Fact]) -> bool {
    for fact in facts {
        if !is_so(board, fact) {
            return false;
        }
    }
    true
}

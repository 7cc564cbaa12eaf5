//! The gaps that a write set leaves are noted in the ring of gaps.

ghost use Rattle.std.specs.Prelude.{◌+◌, ◌<◌, ◌≤◌, IfSome, IfNone, OnErr, length};
ghost use Rattle.table_invariant.specs.Seats.{IsAtLimit, StepsBy};
ghost use Rattle.redo_set.specs.Gaps.{AreAllEnds, AreEnds, AreGapsNoted, IsNextLine, KeepsNoting, MayNote, NotesGaps, gaps_of};

use crate::set::WriteSet;
use cx_base::{Halt, Object};
use cx_core::{HEAD_LINES, LINE_WORDS};
use cx_table::{CallerSeat, Shared, gap_slot, gap_word, keeps_gaps};

/// The most gaps of a ticket that are noted: those that its slot has words for.
const MOST_GAPS: usize = 16;

/// Notes the gaps of a ticket that its write set leaves, from line 0 to the end of a region, where the table keeps them and they are 16 at most:
/// whatever fits what the caller noted tells that the set is one of the ticket. It makes a step for each, and else none. `Halt` comes exactly where a
/// further one is to be noted and the seat's steps equal its limit.
pub fn note_gaps<O: Object>(
    shared: &Shared<O>,
    seat: &mut CallerSeat,
    ticket: u64,
    set: &WriteSet,
) -> Result<(), Halt>
    requires may { MayNote O.Object shared.now ticket set.now seat.old }
    ensures noted { AreGapsNoted shared.now.callers shared.now.lines set.now → NotesGaps (gaps_of set.now (146 + shared.now.lines)) seat.old seat.new result }
    ensures none { ¬ AreGapsNoted shared.now.callers shared.now.lines set.now → NotesGaps 0 seat.old seat.new result }
    ensures few { StepsBy 16 seat.old seat.new }
    ensures leaves { KeepsNoting O.Object shared.now seat.old seat.new }
    ensures halts { OnErr result (IsAtLimit seat.new.known.local) }
{
    if !keeps_gaps(shared) {
        return Ok(());
    }
    let mut ends = [0; MOST_GAPS];
    match gap_ends(set, HEAD_LINES + shared.lines(), &mut ends) {
        Some(count) => note_each(shared, seat, ticket, set, &ends[..count]),
        None => Ok(()),
    }
}

/// Where the gaps end that a set leaves in a region of `lines` lines, the first of which begins at line 0 and each other where the one before
/// ends: at the lines of its addresses, in ascending order, and at the end of the region. `None` comes exactly where they are more than 16.
fn gap_ends(set: &WriteSet, lines: u64, ends: &mut [u64; 16]) -> Option<usize>
    ensures ends { IfSome result (λ n. AreAllEnds set.now lines ends.new n) }
    ensures many { IfNone result (16 < gaps_of set.now lines) }
{
    let mut at = 0;
    for k in 0..MOST_GAPS {
        at = next_line(set, at, lines);
        ends[k] = at;
        if at == lines {
            return Some(k + 1);
        }
    }
    None
}

/// The first line after one in which an address of a set is, or the end of a region of `lines` lines.
fn next_line(set: &WriteSet, from: u64, lines: u64) -> u64
    ensures { IsNextLine set.now lines from result }
{
    let mut next = lines;
    for m in 0..set.len() {
        let line = set.pair(m).0 / LINE_WORDS;
        if line > from && line < next {
            next = line;
        }
    }
    next
}

/// Notes gaps of a ticket that end at these lines, one after another.
fn note_each<O: Object>(
    shared: &Shared<O>,
    seat: &mut CallerSeat,
    ticket: u64,
    set: &WriteSet,
    ends: &[u64],
) -> Result<(), Halt>
    requires may { MayNote O.Object shared.now ticket set.now seat.old }
    requires callers { 2 ≤ shared.now.callers }
    requires ends { AreEnds set.now (146 + shared.now.lines) ends.now (length ends.now) }
    ensures noted { NotesGaps (length ends.now) seat.old seat.new result }
    ensures leaves { KeepsNoting O.Object shared.now seat.old seat.new }
    ensures halts { OnErr result (IsAtLimit seat.new.known.local) }
{
    // a running table is within its limits
    let _lines = shared.lines();
    let callers = shared.callers();
    let slot = gap_slot(callers, ticket);
    let mut from = 0;
    for k in 0..ends.len() {
        let word = gap_word(callers, ticket, from, ends[k]);
        shared.note_gap(seat, slot, k as u64, word)?;
        from = ends[k];
    }
    Ok(())
}

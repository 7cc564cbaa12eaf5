//! A replica held shared is copied over one held exclusively: whole, or, for one that is behind it, by the lines alone that changed between their
//! places, where the ring of gaps tells them.

ghost use Rattle.std.specs.Prelude.{◌≡◌, ◌+◌, ◌*◌, ◌/◌, ◌<◌, ◌≤◌, ◌⊎◌, IfOk, OnErr, OnOk, length, ◌-◌, min, IsTrue};
ghost use Rattle.cx_core.specs.declared.kinds.Kind.TheVariants.{StoreWord};
ghost use Rattle.cx_core.specs.Region.{region_words};
ghost use Rattle.table_invariant.specs.Running.{StepsWithin, instance_at};
ghost use Rattle.table_invariant.specs.Seats.{IsAtLimit, StepsBy, known_after};
ghost use Rattle.table_invariant.specs.Steps.{Halts};
ghost use Rattle.replica.specs.Copies.{AreLines, AreOfPiece, ArePiece, CopiesReplica, CopiesMarked, CopiesOn, CopiesOver, CopiesPiece, EndsCopy, EndsLoads, EndsPart, HaltsUnchanged, HoldsBothIn, KeepsCopied, Renews, SeesLine, unchanged_by_copy, skips_by, skips_piece, IsListed, MayList, RenewsListed, unchanged_by_listed_copy};
ghost use Rattle.cx_core.specs.Layout.{gap_slots};
ghost use Rattle.cx_table.specs.GapMarks.{KeepsLoads};
ghost use Rattle.replica.specs.Replays.{noted_place};

use crate::words::{HeldWords, load_run};
use cx_base::{Halt, Object};
use cx_core::{HEAD_LINES, LINE_WORDS};
use cx_table::{CallerSeat, Exclusive, Shared, SharedHold, keeps_gaps, mark_changed, piece_of};
use line_lanes::differing;

/// The words of a line.
const LINE: usize = LINE_WORDS as usize;

/// The lines of a piece, at most: the words of a piece are loaded by one call.
const PIECE_LINES: usize = 8;

/// The words of a piece, at most.
const PIECE: usize = LINE * PIECE_LINES;

/// Copies a replica held shared over one held exclusively, piece by piece, and stores only the words that differ. Then whatever
/// fits the one is what fits the other, and each word that became dirty differed, so it lies in a line that differed. It gives
/// their place. Both rights stand afterwards. What was stored is no replay, by which alone the replica would be the image after its
/// place: so the exclusive right is released, or entries are replayed, after the source was released by `Shared::release_copied`,
/// as `renew_from` does. It makes two steps for each word at most, and one for each word stored, which it stores once. `Halt`
/// comes exactly where a further word is to be loaded, or one that differs to be stored, and the seat's steps equal its limit.
pub fn copy_from<O: Object>(
    shared: &Shared<O>,
    seat: &mut CallerSeat,
    held: &Exclusive,
    source: &SharedHold,
) -> Result<u64, Halt>
    requires { HoldsBothIn O.Object shared.now seat.old held.now source.now }
    ensures copied { IfOk result (λ place. CopiesReplica O.Object shared.now place seat.old seat.new) }
    ensures steps { EndsCopy (2 * region_words (O.line_count shared.now.object)) (region_words (O.line_count shared.now.object)) seat.old.known seat.new.known result }
    ensures leaves { KeepsCopied O.Object shared.now held.now source.now seat.old seat.new }
    ensures bound { StepsBy (3 * region_words (O.line_count shared.now.object)) seat.old seat.new }
    ensures halts { OnErr result (IsAtLimit seat.new.known.local) }
{
    let place = copy_marked(shared, seat, held, source, &[], true)?;
    Ok(place)
}

/// Copies a replica held shared over one held exclusively, and releases the shared right. The words copied are then those
/// that the exclusive right began with, so that its replica is the image after its place, and entries can be replayed on it. It
/// gives that place, which is the one that was loaded of the replica held shared before, if it was. It makes three steps for each
/// word of a region at most, and one. `Halt` comes exactly where a further step is to be made and the seat's steps equal its limit:
/// both rights then stand.
pub fn renew_from<O: Object>(
    shared: &Shared<O>,
    seat: &mut CallerSeat,
    held: &Exclusive,
    source: SharedHold,
) -> Result<u64, Halt>
    requires { HoldsBothIn O.Object shared.now seat.old held.now source }
    ensures renewed { IfOk result (λ place. Renews O.Object shared.now held.now place seat.old seat.new) }
    ensures halted { OnErr result (HaltsUnchanged unchanged_by_copy seat.old seat.new) }
    ensures within { StepsWithin shared.now (3 * region_words (O.line_count shared.now.object) + 1) seat.old seat.new }
{
    let place = copy_from(shared, seat, held, &source)?;
    shared.release_copied(seat, held, source)?;
    Ok(place)
}

/// Copies the marked pieces of a replica held shared over one held exclusively, and the first piece, which is the line of the place; all pieces where `all`
/// is set. Whatever fits, the words of each other piece are as they were. It gives the place, and both rights stand afterwards. `Halt` comes only where the
/// seat's steps equal its limit.
pub(crate) fn copy_marked<O: Object>(
    shared: &Shared<O>,
    seat: &mut CallerSeat,
    held: &Exclusive,
    source: &SharedHold,
    marks: &[bool],
    all: bool,
) -> Result<u64, Halt>
    requires { HoldsBothIn O.Object shared.now seat.old held.now source.now }
    ensures copied { IfOk result (λ place. CopiesMarked O.Object shared.now (skips_by all marks.now) place seat.old seat.new) }
    ensures steps { EndsCopy (2 * region_words (O.line_count shared.now.object)) (region_words (O.line_count shared.now.object)) seat.old.known seat.new.known result }
    ensures leaves { KeepsCopied O.Object shared.now held.now source.now seat.old seat.new }
    ensures bound { StepsBy (3 * region_words (O.line_count shared.now.object)) seat.old seat.new }
    ensures halts { OnErr result (IsAtLimit seat.new.known.local) }
{
    let lines = HEAD_LINES + shared.lines();
    let mut held_words = [0; PIECE];
    let mut source_words = [0; PIECE];
    let mut line = 0;
    while line < lines {
        let count = piece_lines(line, lines);
        let words = LINE * count as usize;
        copy_unskipped(
            shared,
            seat,
            held,
            source,
            line,
            &mut held_words[..words],
            &mut source_words[..words],
            marks,
            all,
        )?;
        line += count;
    }
    Ok(seat.noted_place())
}

/// Copies the piece that begins at a line, unless the copy skips it.
fn copy_unskipped<O: Object>(
    shared: &Shared<O>,
    seat: &mut CallerSeat,
    held: &Exclusive,
    source: &SharedHold,
    line: u64,
    held_words: &mut [u64],
    source_words: &mut [u64],
    marks: &[bool],
    all: bool,
) -> Result<(), Halt>
    requires both { HoldsBothIn O.Object shared.now seat.old held.now source.now }
    requires lines { AreLines (O.line_count shared.now.object) (8 * line) held_words.old source_words.old }
    requires piece { AreOfPiece ((line + 7) / 8) (8 * line) (length held_words.old) }
    ensures copied { OnOk result (CopiesOver (skips_by all marks.now) (8 * line) (8 * line + length held_words.old) seat.old.known seat.new.known) }
    ensures ends { EndsPart (2 * length held_words.old) (3 * length held_words.old) (region_words (O.line_count shared.now.object)) seat.old seat.new result }
    ensures leaves { KeepsCopied O.Object shared.now held.now source.now seat.old seat.new }
{
    if is_skipped(marks, all, piece_of(line)) {
        return Ok(());
    }
    copy_piece(
        shared,
        seat,
        held,
        source,
        LINE_WORDS * line,
        held_words,
        source_words,
    )
}

/// Whether a copy skips a piece.
fn is_skipped(marks: &[bool], all: bool, piece: u64) -> bool
    ensures { result ≡ skips_piece all marks.now piece }
{
    if all || piece == 0 {
        return false;
    }
    !marks.get(piece as usize).copied().unwrap_or(false)
}

/// The lines of the piece that begins at a line: that of the place is a piece by itself, since its load is noted as the place.
fn piece_lines(line: u64, lines: u64) -> u64
    requires { line < lines }
    ensures some { 1 ≤ result }
    ensures few { result ≤ 8 }
    ensures left { line + result ≤ lines }
    ensures first { line ≡ 0 → result ≡ 1 }
    ensures more { (result ≡ 8) ⊎ ((line + result ≡ lines) ⊎ (line ≡ 0)) }
{
    if line == 0 {
        1
    } else {
        (lines - line).min(PIECE_LINES as u64)
    }
}

/// Copies a piece, where the words before it were copied: it is loaded of both replicas, and of its lines that differ the words that
/// differ are stored. What was in the two lists of words is overwritten.
fn copy_piece<O: Object>(
    shared: &Shared<O>,
    seat: &mut CallerSeat,
    held: &Exclusive,
    source: &SharedHold,
    from: u64,
    held_words: &mut [u64],
    source_words: &mut [u64],
) -> Result<(), Halt>
    requires both { HoldsBothIn O.Object shared.now seat.old held.now source.now }
    requires lines { AreLines (O.line_count shared.now.object) from held_words.old source_words.old }
    ensures copied { OnOk result (CopiesOn from (from + length held_words.old) seat.old.known seat.new.known) }
    ensures ends { EndsPart (2 * length held_words.old) (3 * length held_words.old) (region_words (O.line_count shared.now.object)) seat.old seat.new result }
    ensures leaves { KeepsCopied O.Object shared.now held.now source.now seat.old seat.new }
{
    load_piece(shared, seat, held, source, from, held_words, source_words)?;
    let lines = held_words.len() / LINE;
    let mut differs = [false; PIECE_LINES];
    differing(held_words, source_words, &mut differs[..lines]);
    for line in 0..lines {
        if differs[line] {
            store_line(
                shared,
                seat,
                held,
                source,
                from,
                held_words,
                source_words,
                LINE * line,
            )?;
        }
    }
    Ok(())
}

/// Loads a piece of both replicas, each by one call where that may be.
fn load_piece<O: Object>(
    shared: &Shared<O>,
    seat: &mut CallerSeat,
    held: &Exclusive,
    source: &SharedHold,
    from: u64,
    held_words: &mut [u64],
    source_words: &mut [u64],
) -> Result<(), Halt>
    requires both { HoldsBothIn O.Object shared.now seat.old held.now source.now }
    requires piece { ArePiece (O.line_count shared.now.object) from held_words.old source_words.old }
    ensures loaded { OnOk result (CopiesPiece from from from 0 held_words.new source_words.new seat.old.known seat.new.known) }
    ensures steps { EndsLoads (2 * length held_words.old) seat.old.known seat.new.known result }
    ensures leaves { KeepsCopied O.Object shared.now held.now source.now seat.old seat.new }
    ensures halts { OnErr result (IsAtLimit seat.new.known.local) }
{
    let start = shared.start_held(seat, held);
    let source_start = shared.start_shared(seat, source);
    load_run(shared, seat, held.replica() as u64, start, from, held_words)?;
    load_run(
        shared,
        seat,
        source.replica() as u64,
        source_start,
        from,
        source_words,
    )?;
    Ok(())
}

/// Stores the words that differ of the line that begins at one of the words of a piece, which were loaded.
fn store_line<O: Object>(
    shared: &Shared<O>,
    seat: &mut CallerSeat,
    held: &Exclusive,
    source: &SharedHold,
    from: u64,
    held_words: &[u64],
    source_words: &[u64],
    first: usize,
) -> Result<(), Halt>
    requires both { HoldsBothIn O.Object shared.now seat.old held.now source.now }
    requires line { SeesLine (O.line_count shared.now.object) from first held_words.now source_words.now seat.old.known }
    ensures stored { OnOk result (CopiesPiece from (from + first) (from + first + 8) (first + 8) held_words.now source_words.now seat.old.known seat.new.known) }
    ensures ends { EndsPart 0 8 (region_words (O.line_count shared.now.object)) seat.old seat.new result }
    ensures leaves { KeepsCopied O.Object shared.now held.now source.now seat.old seat.new }
{
    for i in first..first + LINE {
        if held_words[i] != source_words[i] {
            store_copied(shared, seat, held, source, from + i as u64, source_words[i])?;
        }
    }
    Ok(())
}

/// Stores a word of the replica held exclusively.
pub(crate) fn store_copied<O: Object>(
    shared: &Shared<O>,
    seat: &mut CallerSeat,
    held: &Exclusive,
    source: &SharedHold,
    at: u64,
    word: u64,
) -> Result<(), Halt>
    requires both { HoldsBothIn O.Object shared.now seat.old held.now source.now }
    requires at { at < region_words (O.line_count shared.now.object) }
    ensures known { OnOk result (seat.new.known ≡ known_after (instance_at shared.now O.step O.only_reads) (StoreWord held.now.replica at word) seat.old.known 0) }
    ensures halted { OnErr result (Halts shared.now seat.old seat.new) }
    ensures leaves { KeepsCopied O.Object shared.now held.now source.now seat.old seat.new }
{
    shared.store_word(seat, held.replica() as u64, at, word)?;
    Ok(())
}

/// The pieces of the largest region: that of line 0, and those of 8 lines each.
const MOST_PIECES: usize = 2068;

/// The tickets for each caller whose gaps the ring keeps.
const KEPT_TICKETS: u64 = 512;

/// Renews a replica held exclusively, into which nothing was stored since it was taken, from one held shared whose place was loaded, as
/// `renew_from` does: by the lines that changed between their places, where the ring of gaps tells them for each ticket, and else by all. Beside
/// the steps that `renew_from` may make, it makes at most 16 for each ticket between, and none where the ring keeps fewer tickets. `Halt` comes exactly
/// where a further step is to be made and the seat's steps equal its limit: both rights then stand.
pub fn renew_listed<O: Object>(
    shared: &Shared<O>,
    seat: &mut CallerSeat,
    held: &Exclusive,
    source: SharedHold,
    to: u64,
) -> Result<u64, Halt>
    requires both { HoldsBothIn O.Object shared.now seat.old held.now source }
    requires may { MayList to seat.old }
    ensures renewed { IfOk result (λ place. RenewsListed O.Object shared.now held.now place seat.old seat.new) }
    ensures halted { OnErr result (HaltsUnchanged unchanged_by_listed_copy seat.old seat.new) }
    ensures within { StepsWithin shared.now (16 * min (to - noted_place seat.old) (gap_slots shared.now.callers) + 3 * region_words (O.line_count shared.now.object) + 1) seat.old seat.new }
{
    let mut marks = [false; MOST_PIECES];
    if mark_listed(shared, seat, held, &source, to, &mut marks) {
        let place = renew_marked(shared, seat, held, source, to, &marks)?;
        return Ok(place);
    }
    let place = renew_from(shared, seat, held, source)?;
    Ok(place)
}

/// Whether the ring tells which lines changed between the places of two replicas; if so the pieces with those lines are marked.
fn mark_listed<O: Object>(
    shared: &Shared<O>,
    seat: &mut CallerSeat,
    held: &Exclusive,
    source: &SharedHold,
    to: u64,
    marks: &mut [bool],
) -> bool
    requires { HoldsBothIn O.Object shared.now seat.old held.now source.now }
    ensures listed { IsTrue result → IsListed O.Object shared.now to marks.new seat.new }
    ensures leaves { KeepsLoads O.Object shared.now seat.old seat.new }
    ensures steps { StepsBy (16 * min (to - noted_place seat.old) (gap_slots shared.now.callers)) seat.old seat.new }
    ensures both { HoldsBothIn O.Object shared.now seat.new held.now source.now }
{
    if !keeps_gaps(shared) {
        return false;
    }
    let None = seat.some_dirty() else {
        return false;
    };
    let from = seat.noted_place();
    if to < from || to - from > KEPT_TICKETS * u64::from(shared.callers()) {
        return false;
    }
    mark_changed(shared, seat, from, to, HEAD_LINES + shared.lines(), marks)
}

/// Renews a replica held exclusively by marked pieces, in which each line is that changed between the two places.
fn renew_marked<O: Object>(
    shared: &Shared<O>,
    seat: &mut CallerSeat,
    held: &Exclusive,
    source: SharedHold,
    to: u64,
    marks: &[bool],
) -> Result<u64, Halt>
    requires both { HoldsBothIn O.Object shared.now seat.old held.now source }
    requires may { MayList to seat.old }
    requires listed { IsListed O.Object shared.now to marks.now seat.old }
    ensures renewed { IfOk result (λ place. Renews O.Object shared.now held.now place seat.old seat.new) }
    ensures halted { OnErr result (HaltsUnchanged unchanged_by_copy seat.old seat.new) }
    ensures within { StepsWithin shared.now (3 * region_words (O.line_count shared.now.object) + 1) seat.old seat.new }
{
    let place = copy_marked(shared, seat, held, &source, marks, false)?;
    shared.release_listed(seat, held, source)?;
    Ok(place)
}

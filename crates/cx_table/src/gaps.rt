//! The ring of gaps: its words; the step calls by which a caller notes which lines the entry of a ticket leaves as they are, loads what was noted,
//! and releases the replica of which it then copied the other lines alone; and the marks of the lines that entries changed, by what the ring tells.
//! `Halt` comes exactly where the seat's steps equal its limit, and then nothing changes.

ghost use Rattle.std.specs.Prelude.{◌≡◌, ◌/◌, ◌%◌, ◌^◌, ◌<◌, IfSome, ◌+◌, ◌≤◌, ℕ, List, MatchBool, OnOk, length, ◌-◌, ◌*◌, ◌↔◌, IsTrue, slice_index};
ghost use Rattle.cx_base.specs.Callers.{AreCallers};
ghost use Rattle.cx_core.specs.Gaps.{gap_of};
ghost use Rattle.cx_core.specs.Layout.{gap_slots};
ghost use Rattle.cx_table.specs.GapWords.{TellsLines};
ghost use Rattle.cx_core.specs.declared.kinds.Kind.TheVariants.{LoadGap, NoteGap};
ghost use Rattle.table_invariant.specs.Listed.{TellsGap};
ghost use Rattle.table_invariant.specs.Running.{IsSeatOf, instance_at};
ghost use Rattle.table_invariant.specs.Steps.{Steps, StepsCopied};
ghost use Rattle.cx_table.specs.Calls.{MakesFittingStep, MayStep};
ghost use Rattle.cx_table.specs.Gaps.{IsListedFrom, gaps_from};
ghost use Rattle.cx_table.specs.Runs.{Runs, TeachesRun};
ghost use Rattle.cx_table.specs.Tokens.{IsExclusiveOf};
ghost use Rattle.cx_table.specs.Words.{FillsKnowing, IsOfOne};
ghost use Rattle.table_invariant.specs.Seats.{StepsBy};
ghost use Rattle.cx_table.specs.GapMarks.{AreKept, IsMarked, KeepsLoads, MarksChanged, MarksTicket};

use crate::events::Instruction;
use crate::seat::CallerSeat;
use crate::shared::Shared;
use crate::tokens::{Exclusive, SharedHold};
use atomic_table::Seat;
use core_guards::gaps::gap_at;
use cx_base::{Halt, Object};
use cx_core::Kind;
use table_invariant::View;

/// The slots of the ring for each caller.
const SLOTS: u64 = 512;

/// The slot of a ticket.
pub fn gap_slot(callers: u32, ticket: u64) -> u64
    requires callers { AreCallers callers }
    ensures value { result ≡ ticket % gap_slots callers }
    ensures small { result < gap_slots callers }
{
    ticket % (SLOTS * u64::from(callers))
}

/// The word that names a gap of a ticket, in the ticket's slot.
pub fn gap_word(callers: u32, ticket: u64, from: u64, to: u64) -> u64
    requires callers { AreCallers callers }
    requires ticket { ticket / gap_slots callers < 2 ^ 30 }
    requires from { from < 2 ^ 17 }
    requires to { to < 2 ^ 17 }
    ensures { gap_of callers (ticket % gap_slots callers) result ≡ record { ticket = ticket; from = from; to = to } }
{
    let round = ticket / (SLOTS * u64::from(callers));
    round * 0x4_0000_0000 + from * 0x2_0000 + to
}

/// Where the gap ends that a word of a slot names, where it is one of this ticket and begins at this line.
pub fn gap_end(callers: u32, slot: u64, word: u64, ticket: u64, from: u64) -> Option<u64>
    requires callers { AreCallers callers }
    requires slot { slot < gap_slots callers }
    ensures { IfSome result (λ to. gap_of callers slot word ≡ record { ticket = ticket; from = from; to = to }) }
{
    let round = word / 0x4_0000_0000;
    let first = word / 0x2_0000 % 0x2_0000;
    if round * (SLOTS * u64::from(callers)) + slot == ticket && first == from {
        Some(word % 0x2_0000)
    } else {
        None
    }
}

/// How many lines the words of a slot name for a ticket, where they lead from line 0 to the end of a region of `lines` lines. None where they
/// do not.
pub fn named_lines(callers: u32, slot: u64, words: &[u64], ticket: u64, lines: u64) -> Option<usize>
    requires callers { AreCallers callers }
    requires slot { slot < gap_slots callers }
    ensures { IfSome result (λ n. TellsLines callers slot ticket lines words.now n) }
{
    let mut at = 0;
    for m in 0..words.len() {
        let Some(to) = gap_end(callers, slot, words[m], ticket, at) else {
            return None;
        };
        if to == lines {
            return Some(m);
        }
        at = to;
    }
    None
}

impl<O: Object> Shared<O> {
    /// Stores a word into a slot of the ring of gaps. It names a gap of a ticket: whatever fits what the caller noted tells a write set of the ticket,
    /// no address of which is in the lines between. `Halt` comes only where the limit leaves no step.
    pub fn note_gap(&self, seat: &mut CallerSeat, s: u64, i: u64, v: u64) -> Result<(), Halt>
        requires may { MayStep O.Object self.now (NoteGap s i v) seat.old }
        requires gap { (pairs : List ℕ) × TellsGap self.now.lines (O.lawful self.now.object) self.now.base (O.step self.now.object) seat.old.known (gap_of self.now.callers s v) pairs }
        ensures { MakesFittingStep O.Object self.now seat.old seat.new result (λ _. Steps self.now O.step O.only_reads (NoteGap s i v) 0 seat.old seat.new) }
    {
        let word = gap_at(self.callers.number, s, i);
        self.stored_learned(seat, &Kind::NoteGap { s, i, v }, word, v)
    }

    /// Loads a word of a slot of the ring of gaps, and notes it: the gap that it names is one of the history. `Halt` comes only where the limit
    /// leaves no step.
    pub fn load_gap(&self, seat: &mut CallerSeat, s: u64, i: u64) -> Result<u64, Halt>
        requires { MayStep O.Object self.now (LoadGap s i) seat.old }
        ensures { MakesFittingStep O.Object self.now seat.old seat.new result (λ found. Steps self.now O.step O.only_reads (LoadGap s i) found seat.old seat.new) }
    {
        let word = gap_at(self.callers.number, s, i);
        self.made(seat, &Kind::LoadGap { s, i }, word, Instruction::Load)
    }

    /// Loads words of a slot, from one on, each as `load_gap` does. It answers whether the limit leaves as many steps: if not, nothing changes.
    pub fn load_gaps(&self, seat: &mut CallerSeat, s: u64, from: u64, into: &mut [u64]) -> bool
        requires seat { IsSeatOf self.now seat.old × (from + length into.old ≤ 16) }
        requires slot { s < gap_slots self.now.callers }
        ensures run { MatchBool result (Runs self.now O.step O.only_reads (O.lawful self.now.object) (gaps_from s from) into.new seat.old seat.new) ((seat.new ≡ seat.old) × (seat.old.known.local.limit < seat.old.known.local.steps + length into.old)) }
        ensures length { length into.new ≡ length into.old }
        ensures seat { IsSeatOf self.now seat.new }
    {
        self.table_is_running();
        if !seat.summary.count(into.len() as u64) {
            return false;
        }
        self.load_gaps_each(&mut seat.seat, s, from, into);
        true
    }

    /// Loads words of a slot, as events of the seat's caller.
    fn load_gaps_each(&self, seat: &mut Seat<u8, View>, s: u64, from: u64, into: &mut [u64])
        requires one { IsOfOne self.now seat.old.table_id seat.old.me }
        requires within { from + length into.old ≤ 16 }
        requires slot { s < gap_slots self.now.callers }
        ensures { FillsKnowing seat.old.table_id seat.new.table_id into.old into.new (TeachesRun (instance_at self.now O.step O.only_reads) (gaps_from s from) into.new seat.old.me seat.new.me) }
    {
        let callers = self.callers.number;
        for i in 0..into.len() {
            let at = from + i as u64;
            let kind = Kind::LoadGap { s, i: at };
            let word = gap_at(callers, s, at);
            into[i] = self.event(seat, &kind, word, Instruction::Load);
        }
    }

    /// Releases a shared right on a replica of which the listed lines alone were copied over the replica held exclusively. Each other line of that is as
    /// it was, and by the gaps that were loaded does not differ. The words loaded are then what is noted of the replica held exclusively, as after
    /// `release_copied`. It gives the word found. `Halt` comes only where the limit leaves no step.
    pub fn release_listed(
        &self,
        seat: &mut CallerSeat,
        held: &Exclusive,
        source: SharedHold,
    ) -> Result<u64, Halt>
        requires seat { IsSeatOf self.now seat.old }
        requires listed { IsListedFrom (instance_at self.now O.step O.only_reads) seat.old held.now source }
        ensures step { MakesFittingStep O.Object self.now seat.old seat.new result (λ found. StepsCopied self.now O.step O.only_reads source.replica found seat.old seat.new) }
        ensures held { OnOk result (IsExclusiveOf self.now.callers seat.new held.now) }
    {
        self.release_moved(seat, held, source)
    }
}

/// The fewest lines of an object for which lists of lines pay: a smaller one is copied whole as soon.
const FEWEST_LINES: u64 = 4096;

/// Whether gaps are noted and read in this table. A caller alone is never behind, and of few lines a copy is cheap.
pub fn keeps_gaps<O: Object>(shared: &Shared<O>) -> bool
    ensures { IsTrue result ↔ AreKept shared.now.callers shared.now.lines }
{
    shared.callers() >= 2 && shared.lines() >= FEWEST_LINES
}

/// The piece that a line is in: line 0, which is the place's, is one by itself, and 8 lines each are the others.
pub fn piece_of(line: u64) -> u64
    requires { line < 2 ^ 17 }
    ensures { result ≡ (line + 7) / 8 }
{
    (line + 7) / 8
}

/// Whether the ring tells of each ticket from one place to below another which lines its entry changed; if so the pieces of a region of `lines` lines with
/// those lines are marked. It is false where a ticket's slot does not tell them or names a line behind the marks, or where the limit leaves fewer steps
/// than a slot has words. It makes 16 steps a ticket at most, and beside them and the gaps noted changes nothing of the seat.
pub fn mark_changed<O: Object>(
    shared: &Shared<O>,
    seat: &mut CallerSeat,
    from: u64,
    to: u64,
    lines: u64,
    marks: &mut [bool],
) -> bool
    requires { IsSeatOf shared.now seat.old }
    ensures marks { IsTrue result → MarksChanged (instance_at shared.now O.step O.only_reads) lines from to marks.new seat.new.known }
    ensures leaves { KeepsLoads O.Object shared.now seat.old seat.new }
    ensures steps { StepsBy (16 * (to - from)) seat.old seat.new }
    ensures long { length marks.new ≡ length marks.old }
{
    for ticket in from..to {
        if !mark_ticket(shared, seat, ticket, lines, marks) {
            return false;
        }
    }
    true
}

/// Whether the ring tells which lines the entry of a ticket changed; if so the pieces with those lines are marked. It is false where the ticket's slot does
/// not tell them or names a line behind the marks, or where the limit leaves fewer steps than a slot has words.
fn mark_ticket<O: Object>(
    shared: &Shared<O>,
    seat: &mut CallerSeat,
    ticket: u64,
    lines: u64,
    marks: &mut [bool],
) -> bool
    requires { IsSeatOf shared.now seat.old }
    ensures marks { IsTrue result → MarksTicket (instance_at shared.now O.step O.only_reads) lines ticket marks.new seat.new.known }
    ensures kept { (piece : ℕ) → IsMarked marks.old piece → IsMarked marks.new piece }
    ensures leaves { KeepsLoads O.Object shared.now seat.old seat.new }
    ensures steps { StepsBy 16 seat.old seat.new }
    ensures long { length marks.new ≡ length marks.old }
{
    let callers = shared.callers();
    let slot = gap_slot(callers, ticket);
    let mut words = [0; 16];
    if !shared.load_gaps(seat, slot, 0, &mut words) {
        return false;
    }
    match named_lines(callers, slot, &words, ticket, lines) {
        Some(count) => mark_all(&words[..count], marks),
        None => false,
    }
}

/// Whether there is a mark for the piece of the line at the end of each gap that these words name; if so those pieces are marked.
fn mark_all(words: &[u64], marks: &mut [bool]) -> bool
    ensures marks { IsTrue result → (k : ℕ) → k < length words.now → IsMarked marks.new ((slice_index words.now k % 2 ^ 17 + 7) / 8) }
    ensures kept { (piece : ℕ) → IsMarked marks.old piece → IsMarked marks.new piece }
    ensures long { length marks.new ≡ length marks.old }
{
    for word in words {
        let piece = piece_of(*word % 0x2_0000) as usize;
        if piece >= marks.len() {
            return false;
        }
        marks[piece] = true;
    }
    true
}

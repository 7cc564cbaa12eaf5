//! The step calls on words of replicas, and several loads by one call: each load is an event of its own, and they are counted at once. Where the
//! limit leaves fewer steps than there are words, none is made. `Halt` comes exactly where the seat's steps equal its limit, and then nothing
//! changes.

ghost use Rattle.cx_core.specs.declared.kinds.Kind.TheVariants.{LoadWord, Persist, StoreWord, ReadCell, ReadSet};
ghost use Rattle.table_invariant.specs.Running.{instance_at, IsSeatOf};
ghost use Rattle.table_invariant.specs.Seats.{marked_load, known_of, unseen};
ghost use Rattle.table_invariant.specs.Steps.{Steps};
ghost use Rattle.cx_table.specs.Calls.{MakesFittingStep, MakesStep, MayStep};
ghost use Rattle.std.specs.Prelude.{◌≡◌, ◌+◌, ◌*◌, ◌<◌, ◌≤◌, ℕ, List, MatchBool, length};
ghost use Rattle.atomic_table.specs.Table.{Me};
ghost use Rattle.cx_core.specs.Events.{Guard};
ghost use Rattle.cx_core.specs.RegionEvents.{CanLoad};
ghost use Rattle.table_invariant.specs.declared.rule.Known.{Known};
ghost use Rattle.cx_table.specs.Runs.{AreLoaded, Runs, StartsAt, TeachesRun, loads_from, reads_of, set_reads_from};
ghost use Rattle.cx_table.specs.Words.{FillsKnowing, IsOfOne, KeepsTableKnowing};

use crate::events::Instruction;
use crate::seat::CallerSeat;
use crate::shared::Shared;
use atomic_table::Seat;
use cx_base::{ENTRY_WORDS, Halt, Object, SET_WORDS};
use cx_core::Kind;
use cx_core::layout::{CELL_WORDS, cell_at, per_at, set_at, vol_at};
use table_invariant::View;

impl<O: Object> Shared<O> {
    /// Loads a word of a replica that the caller holds exclusively or shared, and notes it. With `mark`, a place word that
    /// shows the code last loaded from CUR to be outdated is marked as a refusal.
    pub fn load_word(&self, seat: &mut CallerSeat, r: u64, i: u64, mark: bool) -> Result<u64, Halt>
        requires { MayStep O.Object self.now (LoadWord r i mark) seat.old }
        ensures { MakesFittingStep O.Object self.now seat.old seat.new result (λ found. Steps self.now O.step O.only_reads (marked_load (instance_at self.now O.step O.only_reads) r i mark seat.old.known.local found) found seat.old seat.new) }
    {
        let kind = Kind::LoadWord {
            r,
            i,
            refused: mark,
        };
        let word = vol_at(self.callers.number, seat.copy.region(), r, i);
        self.made_learned(seat, &kind, word, Instruction::Load)
    }

    /// Stores a word of a replica that the caller holds exclusively, and marks it as dirty. `Halt` comes only where the limit leaves no step.
    pub fn store_word(&self, seat: &mut CallerSeat, r: u64, i: u64, v: u64) -> Result<(), Halt>
        requires { MayStep O.Object self.now (StoreWord r i v) seat.old }
        ensures { MakesFittingStep O.Object self.now seat.old seat.new result (λ _. Steps self.now O.step O.only_reads (StoreWord r i v) 0 seat.old seat.new) }
    {
        let word = vol_at(self.callers.number, seat.copy.region(), r, i);
        self.stored(seat, &Kind::StoreWord { r, i, v }, word, v)
    }

    /// Persists a dirty word of a replica that the caller holds exclusively: the medium gets what was stored last. `Halt` comes only where
    /// the limit leaves no step.
    pub fn persist(&self, seat: &mut CallerSeat, r: u64, i: u64) -> Result<(), Halt>
        requires { MayStep O.Object self.now (Persist r i) seat.old }
        ensures { MakesStep self.now seat.old seat.new result (λ _. Steps self.now O.step O.only_reads (Persist r i) 0 seat.old seat.new) }
    {
        let word = per_at(self.callers.number, seat.copy.region(), r, i);
        let v = seat.copy.word(i);
        self.stored_learned(seat, &Kind::Persist { r, i }, word, v)
    }
}

/// The words that are loaded by a turn of the loop.
const TURN: usize = 8;

impl<O: Object> Shared<O> {
    /// Where the words of a replica begin in the table.
    pub fn start_of(&self, seat: &CallerSeat, r: u64) -> usize
        requires seat { IsSeatOf self.now seat.now }
        requires replica { r < 2 * self.now.callers }
        ensures { StartsAt self.now r result }
    {
        vol_at(self.callers.number, seat.copy.region(), r, 0)
    }

    /// Loads words of a replica that the caller holds exclusively or shared, from one after the place on, each as `load_word`
    /// does without a mark. Where the replica's words begin was computed before. It answers whether the limit leaves as many steps:
    /// if not, nothing changes.
    pub fn load_words(
        &self,
        seat: &mut CallerSeat,
        r: u64,
        start: usize,
        from: u64,
        into: &mut [u64],
    ) -> bool
        requires seat { IsSeatOf self.now seat.old × (0 < from) }
        requires start { StartsAt self.now r start }
        requires guard { (i : ℕ) → i < length into.old → CanLoad self.now.callers (length self.now.base.words) r (from + i) seat.old.known.local }
        ensures run { MatchBool result (Runs self.now O.step O.only_reads (O.lawful self.now.object) (loads_from r from) into.new seat.old seat.new) ((seat.new ≡ seat.old) × (seat.old.known.local.limit < seat.old.known.local.steps + length into.old)) }
        ensures length { length into.new ≡ length into.old }
        ensures seat { IsSeatOf self.now seat.new }
    {
        self.table_is_running();
        if !seat.summary.count(into.len() as u64) {
            return false;
        }
        self.load_each(&mut seat.seat, r, start, from, into);
        true
    }

    /// Loads words of a replica, as events of the seat's caller: eight by a turn of the loop, and the rest.
    fn load_each(
        &self,
        seat: &mut Seat<u8, View>,
        r: u64,
        start: usize,
        from: u64,
        into: &mut [u64],
    )
        requires one { IsOfOne self.now seat.old.table_id seat.old.me }
        requires start { StartsAt self.now r start }
        requires guard { (i : ℕ) → i < length into.old → CanLoad self.now.callers (length self.now.base.words) r (from + i) (known_of seat.old.me.0).local }
        ensures { FillsKnowing seat.old.table_id seat.new.table_id into.old into.new (TeachesRun (instance_at self.now O.step O.only_reads) (loads_from r from) into.new seat.old.me seat.new.me) }
    {
        let turns = into.len() / TURN;
        for i in 0..turns {
            self.load_part(seat, r, start, from, into, TURN * i, TURN);
        }
        let rest = into.len() - TURN * turns;
        self.load_part(seat, r, start, from, into, TURN * turns, rest);
    }

    /// Loads the given number of the words, from one on, where those before it were loaded. A number that is known is no loop in the code that is made.
    #[inline(always)]
    fn load_part(
        &self,
        seat: &mut Seat<u8, View>,
        r: u64,
        start: usize,
        from: u64,
        into: &mut [u64],
        at: usize,
        count: usize,
    )
        requires table { seat.old.table_id ≡ self.now.table }
        requires start { StartsAt self.now r start }
        requires within { at + count ≤ length into.old }
        requires loaded { (begun : Me ℕ (List Known)) × AreLoaded (instance_at self.now O.step O.only_reads) r from begun at into.old seat.old.me }
        ensures { FillsKnowing seat.old.table_id seat.new.table_id into.old into.new ((begun : Me ℕ (List Known)) → AreLoaded (instance_at self.now O.step O.only_reads) r from begun at into.old seat.old.me → AreLoaded (instance_at self.now O.step O.only_reads) r from begun (at + count) into.new seat.new.me) }
    {
        self.table_is_running();
        for j in 0..count {
            let i = at + j;
            let kind = Kind::LoadWord {
                r,
                i: from + i as u64,
                refused: false,
            };
            let word = start + (from + i as u64) as usize;
            into[i] = self.learned(seat, &kind, word, Instruction::Load);
        }
    }

    /// Loads the words of the cell that the slot last looked at shows with a ticket, each as `read_cell` does. It answers whether the
    /// limit leaves as many steps: if not, nothing changes.
    pub fn read_words(
        &self,
        seat: &mut CallerSeat,
        t: u64,
        k: u64,
        into: &mut [u64; ENTRY_WORDS],
    ) -> bool
        requires seat { IsSeatOf self.now seat.old }
        requires guard { (i : ℕ) → i < ENTRY_WORDS → Guard (instance_at self.now O.step O.only_reads) unseen (ReadCell t k i) seat.old.known.local }
        ensures run { MatchBool result (Runs self.now O.step O.only_reads (O.lawful self.now.object) (reads_of t k) into.new seat.old seat.new) ((seat.new ≡ seat.old) × (seat.old.known.local.limit < seat.old.known.local.steps + ENTRY_WORDS)) }
        ensures seat { IsSeatOf self.now seat.new }
    {
        self.table_is_running();
        if !seat.summary.count(CELL_WORDS) {
            return false;
        }
        self.read_each(&mut seat.seat, t, k, into);
        true
    }

    /// Loads the words of a cell, as events of the seat's caller.
    fn read_each(&self, seat: &mut Seat<u8, View>, t: u64, k: u64, into: &mut [u64; ENTRY_WORDS])
        requires one { IsOfOne self.now seat.old.table_id seat.old.me }
        requires guard { (i : ℕ) → i < ENTRY_WORDS → Guard (instance_at self.now O.step O.only_reads) unseen (ReadCell t k i) (known_of seat.old.me.0).local }
        ensures { KeepsTableKnowing seat.old.table_id seat.new.table_id (TeachesRun (instance_at self.now O.step O.only_reads) (reads_of t k) into.new seat.old.me seat.new.me) }
    {
        let callers = self.callers.number;
        for i in 0..ENTRY_WORDS {
            let kind = Kind::ReadCell { t, k, i: i as u64 };
            let word = cell_at(callers, k, i as u64);
            into[i] = self.event(seat, &kind, word, Instruction::Load);
        }
    }

    /// Loads words of the set of the cell that the offer word last loaded shows to be offered with a ticket, from one on, each as `read_set`
    /// does. It answers whether the limit leaves as many steps: if not, nothing changes.
    pub fn read_set_words(
        &self,
        seat: &mut CallerSeat,
        k: u64,
        t: u64,
        from: u64,
        into: &mut [u64],
    ) -> bool
        requires seat { IsSeatOf self.now seat.old × (from + length into.old ≤ SET_WORDS) }
        requires guard { (i : ℕ) → i < SET_WORDS → Guard (instance_at self.now O.step O.only_reads) unseen (ReadSet k t i) seat.old.known.local }
        ensures run { MatchBool result (Runs self.now O.step O.only_reads (O.lawful self.now.object) (set_reads_from k t from) into.new seat.old seat.new) ((seat.new ≡ seat.old) × (seat.old.known.local.limit < seat.old.known.local.steps + length into.old)) }
        ensures length { length into.new ≡ length into.old }
        ensures seat { IsSeatOf self.now seat.new }
    {
        self.table_is_running();
        if !seat.summary.count(into.len() as u64) {
            return false;
        }
        self.read_set_each(&mut seat.seat, k, t, from, into);
        true
    }

    /// Loads words of a set, as events of the seat's caller.
    fn read_set_each(&self, seat: &mut Seat<u8, View>, k: u64, t: u64, from: u64, into: &mut [u64])
        requires one { IsOfOne self.now seat.old.table_id seat.old.me }
        requires within { from + length into.old ≤ SET_WORDS }
        requires guard { (i : ℕ) → i < SET_WORDS → Guard (instance_at self.now O.step O.only_reads) unseen (ReadSet k t i) (known_of seat.old.me.0).local }
        ensures { FillsKnowing seat.old.table_id seat.new.table_id into.old into.new (TeachesRun (instance_at self.now O.step O.only_reads) (set_reads_from k t from) into.new seat.old.me seat.new.me) }
    {
        let callers = self.callers.number;
        for i in 0..into.len() {
            let at = from + i as u64;
            let kind = Kind::ReadSet { k, t, i: at };
            let word = set_at(callers, k, at);
            into[i] = self.event(seat, &kind, word, Instruction::Load);
        }
    }
}

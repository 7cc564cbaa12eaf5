//! The state of a core: the shared words, and the local state of each caller.

ghost use Rattle.std.specs.Prelude.{◌≡◌, ◌+◌, ◌*◌, ◌^◌, ◌≤◌, ◌++◌, length, replicate, IfOk, OnOk, slice_index, slice_range};
ghost use Rattle.cx_base.specs.Callers.{AreCallers};
ghost use Rattle.cx_core.specs.Base.{LawfulBase};
ghost use Rattle.cx_core.specs.Layout.{cell_count, cur_at, dur_at, low_at, free_at, link_at, lock_at, need_at, cell_at, offer_at, set_at, vol_at, per_at, word_count, gap_at, gap_slots};
ghost use Rattle.cx_core.specs.State.{copies, opening_locals, opening_words, opening_state};

use core_guards::callers::Callers;
use core_guards::gaps::{GAP_WORDS, gap_at, gap_slots};
use cx_base::{Items, Object, root_code};
use cx_core::layout::{
    CUR_AT, DUR_AT, FREE_AT, LOW_AT, MAX_WORD, QUEUE_WORDS, cell_at, cell_count, link_at, lock_at,
    need_at, offer_at, replica_count, replicas_at, set_at,
};
use cx_core::{Base, Local};
use std::alloc::{AllocError, Global};
use std::marker::Model;

/// The state of a core of 1 to 8 callers. Contracts see its number of callers, the lines of its object part, its base,
/// its words in the order of the table, and one local state for each caller.
#[derive(Drop)]
pub struct CoreState {
    pub(crate) callers: Callers,
    pub(crate) lines: u64,
    pub(crate) base: Base,
    pub(crate) words: Vec<u64>,
    pub(crate) locals: Vec<Local>,
}

impl Model for CoreState {
    ghost use Rattle.core_events.specs.Codes.{IsSoundCore};
    ghost use Rattle.cx_core.specs.State.{Core};

    ghost Value = { Core };

    ghost view = { λ s. record { callers = s.callers.number; lines = s.lines; base = s.base; state = record { words = s.words.items; locals = s.locals.items } } };

    ghost invariant = { λ s. IsSoundCore (record { callers = s.callers.number; lines = s.lines; base = s.base; state = record { words = s.words.items; locals = s.locals.items } }) };
}

impl CoreState {
    /// The state with which a service of this number of callers opens from a base: nothing was linked or written, and every
    /// replica has the base's words. `Err` says that memory ran out.
    pub fn opening<O: Object>(
        alloc: Global,
        object: &O,
        callers: u32,
        base: &Base,
    ) -> Result<CoreState, AllocError>
        requires callers { AreCallers callers }
        requires enough { 64 ≤ O.line_count object.now }
        requires small { O.line_count object.now ≤ 16384 }
        requires base { LawfulBase (O.line_count object.now) (O.lawful object.now) base.now }
        ensures { IfOk result (λ core. core ≡ record { callers = callers; lines = O.line_count object.now; base = base.now; state = opening_state callers base.now }) }
    {
        let callers = Callers { number: callers };
        Ok(CoreState {
            callers,
            lines: object.lines(),
            base: Base {
                place: base.place,
                words: Items::of(Vec::from_slice(alloc, base.words.as_slice())?),
            },
            words: opening_words(alloc, callers, base)?,
            locals: opening_callers(alloc, callers, base.place)?,
        })
    }
}

impl CoreState {
    /// The number of callers.
    pub fn callers(&self) -> u32
        ensures value { result ≡ self.now.callers }
        ensures some { 1 ≤ result }
        ensures few { result ≤ 8 }
    {
        self.callers.number
    }

    /// The lines of the object part.
    pub fn lines(&self) -> u64
        ensures { result ≡ self.now.lines }
    {
        self.lines
    }

    /// The base that the state began from.
    pub fn base(&self) -> &Base
        ensures { result.now ≡ self.now.base }
    {
        &self.base
    }

    /// The local states, of caller 0 first.
    pub fn locals(&self) -> &[Local]
        ensures value { result.now ≡ self.now.state.locals }
        ensures count { length result.now ≡ self.now.callers }
    {
        &self.locals
    }

    /// All shared words, in the order of the table: CUR, DUR, LOW, FREE, NEED, LOCK, LINK, CELL, OFFER, SET, GAP, VOL, PER.
    pub fn words(&self) -> &[u64]
        ensures value { result.now ≡ self.now.state.words }
        ensures count { length result.now ≡ word_count self.now.callers (length self.now.base.words) }
    {
        &self.words
    }

    /// CUR, the current root code.
    pub fn cur(&self) -> u64
        ensures { result ≡ slice_index self.now.state.words cur_at }
    {
        self.words[CUR_AT]
    }

    /// DUR, the durable root code.
    pub fn dur(&self) -> u64
        ensures { result ≡ slice_index self.now.state.words dur_at }
    {
        self.words[DUR_AT]
    }

    /// LOW, below which no protection is confirmed any more.
    pub fn low(&self) -> u64
        ensures { result ≡ slice_index self.now.state.words low_at }
    {
        self.words[LOW_AT]
    }

    /// FREE, the ticket below which cells may be written again.
    pub fn free(&self) -> u64
        ensures { result ≡ slice_index self.now.state.words free_at }
    {
        self.words[FREE_AT]
    }

    /// NEED, the protection word of each caller.
    pub fn need(&self) -> &[u64]
        ensures { result.now ≡ slice_range self.now.state.words (need_at 0) (need_at self.now.callers) }
    {
        &self.words[need_at(0)..need_at(self.callers.number)]
    }

    /// LOCK, the lock word of each replica.
    pub fn lock(&self) -> &[u64]
        ensures { let n = self.now.callers in result.now ≡ slice_range self.now.state.words (lock_at n 0) (lock_at n (2 * n)) }
    {
        let n = self.callers.number;
        &self.words[lock_at(n, 0)..lock_at(n, replica_count(n))]
    }

    /// LINK, the link slots.
    pub fn link(&self) -> &[u64]
        ensures { let n = self.now.callers in result.now ≡ slice_range self.now.state.words (link_at n 0) (link_at n (cell_count n)) }
    {
        let n = self.callers.number;
        &self.words[link_at(n, 0)..link_at(n, cell_count(n))]
    }

    /// CELL, 145 words of each cell.
    pub fn cell(&self) -> &[u64]
        ensures { let n = self.now.callers in result.now ≡ slice_range self.now.state.words (cell_at n 0 0) (cell_at n (cell_count n) 0) }
    {
        let n = self.callers.number;
        &self.words[cell_at(n, 0, 0)..cell_at(n, cell_count(n), 0)]
    }

    /// OFFER, the offer word of each cell.
    pub fn offer(&self) -> &[u64]
        ensures { let n = self.now.callers in result.now ≡ slice_range self.now.state.words (offer_at n 0) (offer_at n (cell_count n)) }
    {
        let n = self.callers.number;
        &self.words[offer_at(n, 0)..offer_at(n, cell_count(n))]
    }

    /// SET, 513 words of each cell's write set.
    pub fn set(&self) -> &[u64]
        ensures { let n = self.now.callers in result.now ≡ slice_range self.now.state.words (set_at n 0 0) (set_at n (cell_count n) 0) }
    {
        let n = self.callers.number;
        &self.words[set_at(n, 0, 0)..set_at(n, cell_count(n), 0)]
    }

    /// GAP, 16 words of each slot of the ring of gaps.
    pub fn gap(&self) -> &[u64]
        ensures { let n = self.now.callers in result.now ≡ slice_range self.now.state.words (gap_at n 0 0) (gap_at n (gap_slots n) 0) }
    {
        let n = self.callers.number;
        &self.words[gap_at(n, 0, 0)..gap_at(n, gap_slots(n), 0)]
    }

    /// VOL, the words of each replica as a load gives them.
    pub fn vol(&self) -> &[u64]
        ensures { let n = self.now.callers in let r = length self.now.base.words in result.now ≡ slice_range self.now.state.words (vol_at n r 0 0) (vol_at n r (2 * n) 0) }
    {
        let n = self.callers.number as usize;
        let region = self.base.words.as_slice().len();
        let from = replicas_at(self.callers.number);
        &self.words[from..from + region * (2 * n)]
    }

    /// PER, the words of each replica as the medium holds them.
    pub fn per(&self) -> &[u64]
        ensures { let n = self.now.callers in let r = length self.now.base.words in result.now ≡ slice_range self.now.state.words (per_at n r 0 0) (per_at n r (2 * n) 0) }
    {
        let n = self.callers.number as usize;
        let region = self.base.words.as_slice().len();
        let from = replicas_at(self.callers.number) + region * (2 * n);
        &self.words[from..from + region * (2 * n)]
    }
}

/// The words with which a table of this number of callers opens from a base. `Err` says that memory ran out.
pub fn opening_words(alloc: Global, callers: Callers, base: &Base) -> Result<Vec<u64>, AllocError>
    requires place { base.now.place ≤ 2 ^ 40 }
    ensures { IfOk result (λ words. words.items ≡ opening_words callers.number base.now) }
{
    let code = root_code(callers.number, base.place, 0);
    let n = u64::from(callers.number);
    let mut words = Vec::with_capacity(
        alloc,
        room_for(callers.number, base.words.as_slice().len()),
    )?;
    words.push(code)?;
    words.push(code)?;
    words.push(base.place)?;
    words.push(base.place)?;
    push_many(&mut words, n, MAX_WORD)?;
    words.push(1)?;
    push_many(&mut words, 2 * n - 1, 0)?;
    push_many(&mut words, (QUEUE_WORDS + GAP_WORDS) * n, 0)?;
    push_copies(&mut words, 4 * n, base.words.as_slice())?;
    Ok(words)
}

// The number of words of a table whose regions have `region` words: as many as are pushed below, so that none is moved to make room.
fn room_for(callers: u32, region: usize) -> usize {
    let n = callers as usize;
    region
        .saturating_mul(4)
        .saturating_add((QUEUE_WORDS + GAP_WORDS) as usize + 3)
        .saturating_mul(n)
        .saturating_add(4)
}

/// Adds a word `n` times. `Err` says that memory ran out.
fn push_many(words: &mut Vec<u64>, n: u64, word: u64) -> Result<(), AllocError>
    ensures { OnOk result (words.new.items ≡ words.old.items ++ replicate n word) }
{
    for _ in 0..n {
        words.push(word)?;
    }
    Ok(())
}

/// Adds a list of words `n` times. `Err` says that memory ran out.
fn push_copies(words: &mut Vec<u64>, n: u64, from: &[u64]) -> Result<(), AllocError>
    ensures { OnOk result (words.new.items ≡ words.old.items ++ copies n from.now) }
{
    for _ in 0..n {
        words.extend_from_slice(from)?;
    }
    Ok(())
}

/// The local states with which the callers open.
fn opening_callers(alloc: Global, callers: Callers, place: u64) -> Result<Vec<Local>, AllocError>
    requires place { place ≤ 2 ^ 40 }
    ensures { IfOk result (λ locals. locals.items ≡ opening_locals callers.number place) }
{
    let mut locals = Vec::new(alloc);
    for caller in 0..callers.number {
        locals.push(Local::opening(alloc, callers.number, place, caller))?;
    }
    Ok(locals)
}

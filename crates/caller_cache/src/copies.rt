//! What a seat keeps in plain memory of words that its caller alone writes: one event stores one word, so the words of the
//! replica held exclusively that are to be persisted have to be known without a load, and so have those of the caller's
//! cells and of their write sets, of which only the words that differ are written.

ghost use Rattle.std.specs.Prelude.{◌≡◌, ◌≢◌, ◌+◌, ◌*◌, ◌<◌, ◌≤◌, ◌==◌, ◌⊎◌, ℕ, IfOk, IfSome, IfNone, IsTrue, false, true, if◌then◌else◌, length, slice_get, slice_index, slice_range, slice_set, None, Some};
ghost use Rattle.caller_cache.specs.Copies.{IsSetList, blank_copy};

use crate::kept::Kept;
use crate::marks::Marks;
use cx_base::{ENTRY_WORDS, OP_WORDS, OpWords, SET_WORDS};
use cx_core::Entry;
use line_lanes::first_apart;
use std::alloc::{AllocError, Global};
use std::marker::Model;

/// How many words a caller's 16 cells have: 2320, 145 in each.
const ALL_CELL_WORDS: usize = 16 * ENTRY_WORDS;

/// How many words the write sets of a caller's 16 cells have: 8208, 513 in each.
const ALL_SET_WORDS: usize = 16 * SET_WORDS;

/// What a caller keeps of the words that it wrote: those that it stored in a replica, by address, and which of them are dirty; the place that it last
/// loaded or stored; the words of its cells, one cell after another; the words of the cells' write sets, one set after another; and the set that it keeps.
#[derive(Debug, Drop)]
pub struct Copies {
    words: Vec<u64>,
    dirty: Marks,
    place: u64,
    cells: Vec<u64>,
    sets: Vec<u64>,
    kept: Kept,
}

impl Model for Copies {
    ghost use Rattle.caller_cache.specs.Copies.{Copied};

    ghost Value = { Copied };

    ghost view = { λ c. record { words = c.words.items; dirty = c.dirty; place = c.place; cells = c.cells.items; sets = c.sets.items; kept = c.kept } };
}

impl Copies {
    /// Room for the words of one region, none of which is dirty, and for cells and sets that were never written. `Err` says that memory ran out.
    pub fn of(alloc: Global, region: usize) -> Result<Copies, AllocError>
        ensures { IfOk result (λ c. c ≡ blank_copy region) }
    {
        Ok(Copies {
            words: Vec::from_elem(alloc, 0, region)?,
            dirty: Marks::none(alloc, region)?,
            place: 0,
            cells: Vec::from_elem(alloc, 0, ALL_CELL_WORDS)?,
            sets: Vec::from_elem(alloc, 0, ALL_SET_WORDS)?,
            kept: Kept::empty(alloc)?,
        })
    }

    /// Forgets the place: a replica was tried of which nothing is known.
    pub fn begin(&mut self)
        ensures { self.new ≡ record self.old { place = 0 } }
    {
        self.place = 0;
    }

    /// Records that word `i` of a replica was loaded and was `found`. Where that replica is held exclusively (`held`), word 0 is its place.
    pub fn load(&mut self, held: bool, i: u64, found: u64)
        ensures { self.new ≡ (if held then record self.old { place = if i == 0 then found else self.old.place } else self.old) }
    {
        if held && i == 0 {
            self.place = found;
        }
    }

    /// Records that `v` was stored in word `i` of the replica held exclusively: the word is dirty then, and word 0 is the replica's place.
    pub fn store(&mut self, i: u64, v: u64)
        requires word { i < length self.old.words }
        requires mark { i < length self.old.dirty }
        ensures { self.new ≡ record { words = slice_set self.old.words i v; dirty = slice_set self.old.dirty i true; place = if i == 0 then v else self.old.place; cells = self.old.cells; sets = self.old.sets; kept = self.old.kept } }
    {
        self.words[i as usize] = v;
        self.dirty.mark(i);
        if i == 0 {
            self.place = v;
        }
    }

    /// Records that word `i` of the replica was persisted: it is not dirty any more.
    pub fn persist(&mut self, i: u64)
        requires { i < length self.old.dirty }
        ensures { self.new ≡ record self.old { dirty = slice_set self.old.dirty i false } }
    {
        self.dirty.clear(i);
    }

    /// Records that `v` was written into word `i` of cell `j`.
    pub fn write_cell(&mut self, j: u64, i: u64, v: u64)
        requires { ENTRY_WORDS * j + i < length self.old.cells }
        ensures { self.new ≡ record self.old { cells = slice_set self.old.cells (ENTRY_WORDS * j + i) v } }
    {
        self.cells[(ENTRY_WORDS as u64 * j + i) as usize] = v;
    }

    /// Records that `v` was written into word `i` of the write set of cell `j`.
    pub fn write_set(&mut self, j: u64, i: u64, v: u64)
        requires { SET_WORDS * j + i < length self.old.sets }
        ensures { self.new ≡ record self.old { sets = slice_set self.old.sets (SET_WORDS * j + i) v } }
    {
        self.sets[(SET_WORDS as u64 * j + i) as usize] = v;
    }

    /// Word `i` of the write set of cell `j`.
    pub fn set_word(&self, j: u64, i: u64) -> u64
        requires { SET_WORDS * j + i < length self.now.sets }
        ensures { result ≡ slice_index self.now.sets (SET_WORDS * j + i) }
    {
        self.sets[(SET_WORDS as u64 * j + i) as usize]
    }

    /// Keeps the set that stands in `words`, as that of the caller's entry at `ticket`, in place of the one before. `words` is room for a set then.
    pub fn keep(&mut self, ticket: u64, words: &mut Vec<u64>)
        requires { IsSetList words.old.items }
        ensures kept { self.new ≡ record self.old { kept = Some (record { ticket = ticket; set = words.old.items }) } }
        ensures room { IsSetList words.new.items }
    {
        self.kept.put(ticket, words);
    }

    /// Whether the set that the caller keeps is that of the entry at `ticket`. If so the set is put into `words`, and none is kept then.
    pub fn take_kept(&mut self, ticket: u64, words: &mut Vec<u64>) -> bool
        requires { IsSetList words.old.items }
        ensures taken { IsTrue result → self.old.kept ≡ Some (record { ticket = ticket; set = words.new.items }) }
        ensures left { (self.new ≡ record self.old { kept = None }) ⊎ (self.new ≡ self.old) }
        ensures room { IsSetList words.new.items }
    {
        self.kept.take(ticket, words)
    }

    /// The first place from `from` on at which the words of `op` differ from those of cell `j` behind its first, and 144 where they differ at none. A cell has
    /// the entry's number in its first word, and the operation's 144 words behind it.
    pub fn cell_apart(&self, j: u64, op: &OpWords, from: usize) -> usize
        requires j { j < 16 }
        // 2320 is 16 * ENTRY_WORDS: all 16 cells are here.
        requires long { length self.now.cells ≡ 2320 }
        requires from { from ≤ OP_WORDS }
        ensures within { (from ≤ result) × (result ≤ OP_WORDS) }
        ensures same { (at : ℕ) → from ≤ at → at < result → slice_index self.now.cells (ENTRY_WORDS * j + (at + 1)) ≡ slice_index op.now at }
        ensures apart { result < OP_WORDS → slice_index self.now.cells (ENTRY_WORDS * j + (result + 1)) ≢ slice_index op.now result }
    {
        let first = ENTRY_WORDS * (j as usize) + 1;
        first_apart(&self.cells[first..first + OP_WORDS], op, from)
    }

    /// Puts the number and the operation that stand in cell `j` into `entry`: the cell's first word, and the 144 words behind it.
    pub fn read_entry(&self, j: u64, entry: &mut Entry)
        requires j { j < 16 }
        // 2320 is 16 * ENTRY_WORDS: all 16 cells are here.
        requires long { length self.now.cells ≡ 2320 }
        ensures { entry.new ≡ record entry.old { number = slice_index self.now.cells (ENTRY_WORDS * j); op = slice_range self.now.cells (ENTRY_WORDS * j + 1) (ENTRY_WORDS * j + ENTRY_WORDS) } }
    {
        let from = ENTRY_WORDS * (j as usize);
        entry.number = self.cells[from];
        entry
            .op
            .copy_from_slice(&self.cells[from + 1..from + ENTRY_WORDS]);
    }

    /// The value last stored in word `i` of the replica.
    pub fn word(&self, i: u64) -> u64
        requires { i < length self.now.words }
        ensures { result ≡ slice_index self.now.words i }
    {
        self.words[i as usize]
    }

    /// The replica's place, as it was last loaded or stored; 0 after `begin`, where nothing is known of it.
    pub fn place(&self) -> u64
        ensures { result ≡ self.now.place }
    {
        self.place
    }

    /// For each word of the replica, whether it is dirty.
    pub fn marks(&self) -> &[bool]
        ensures { result.now ≡ self.now.dirty }
    {
        self.dirty.as_slice()
    }

    /// The address of some dirty word; `None` where no word is dirty.
    pub fn some_dirty(&mut self) -> Option<u64>
        ensures same { self.new ≡ self.old }
        ensures some { IfSome result (λ at. slice_get self.old.dirty at ≡ Some true) }
        ensures none { IfNone result ((at : ℕ) → slice_get self.old.dirty at ≢ Some true) }
    {
        self.dirty.some_marked()
    }

    /// How many words a region has.
    pub fn region(&self) -> u64
        ensures { result ≡ length self.now.words }
    {
        self.words.len() as u64
    }
}

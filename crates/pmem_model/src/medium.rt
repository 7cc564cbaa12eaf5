//! Memory whose stores last only once they were written back and fenced, as processors have it with their instructions
//! for cache lines. A line is 8 words.

ghost use Rattle.std.specs.Prelude.{◌≡◌, ◌+◌, ◌*◌, ◌/◌, ◌%◌, ◌^◌, ◌<◌, ◌↔◌, IsTrue, IfOk, length, map, replicate, slice_index};
ghost use Rattle.pmem_model.specs.Medium.{IsDirtyMark, WritesBack, after_store, durable_word, fenced, image_of, left_at, word_stored, medium_word, written_back};

use std::alloc::{AllocError, Global};
use std::marker::Model;

/// How far the last store to a word got.
#[derive(Clone, Copy, Debug, PartialEq, Eq)]
pub enum Mark {
    /// The value is durable.
    Durable,
    /// It was stored to, and not written back since.
    Dirty,
    /// It was stored to and then written back, and no fence came since.
    Pending,
}

/// A word of a medium.
#[derive(Clone, Copy, Debug, PartialEq, Eq)]
pub struct Word {
    /// What a load gives.
    pub value: u64,
    /// The last value that was durable.
    pub durable: u64,
    pub mark: Mark,
}

impl Word {
    /// A word whose value is durable.
    fn durable(value: u64) -> Word
        ensures { result ≡ durable_word value }
    {
        Word {
            value,
            durable: value,
            mark: Mark::Durable,
        }
    }

    /// Stores to the word: it is dirty then, also where it was pending.
    fn store(&mut self, v: u64)
        ensures { self.new ≡ word_stored self.old v }
    {
        self.value = v;
        self.mark = Mark::Dirty;
    }

    /// Begins to write the word back: a dirty one is pending then.
    fn write_back(&mut self)
        ensures { self.new ≡ written_back self.old }
    {
        if self.mark == Mark::Dirty {
            self.mark = Mark::Pending;
        }
    }

    /// Waits for the word's write-back: a pending one is durable then.
    fn fence(&mut self)
        ensures { self.new ≡ fenced self.old }
    {
        if self.mark == Mark::Pending {
            self.durable = self.value;
            self.mark = Mark::Durable;
        }
    }

    /// Whether the word was stored to since it was last durable.
    fn is_dirty(&self) -> bool
        ensures { IsTrue result ↔ IsDirtyMark self.now.mark }
    {
        match self.mark {
            Mark::Durable => false,
            Mark::Dirty | Mark::Pending => true,
        }
    }

    /// What a crash leaves of this word, which stands at that place.
    fn left(&self, choice: u64, at: u64) -> u64
        requires { at < 2 ^ 63 }
        ensures { result ≡ left_at self.now.mark choice at self.now }
    {
        if !self.is_dirty() {
            return self.value;
        }
        match choice {
            0 => self.durable,
            1 => self.value,
            _ => choice.wrapping_mul(at + 1),
        }
    }
}

/// Memory with write-back and fence. Contracts see its words, and for each line how often it was stored to.
#[derive(Drop)]
pub struct Medium {
    pub(crate) words: Vec<Word>,
    pub(crate) stores: Vec<u64>,
}

impl Model for Medium {
    ghost use Rattle.std.specs.Prelude.{◌≡◌, ◌*◌, length, All};
    ghost use Rattle.pmem_model.specs.Medium.{MediumState, IsSettled};

    ghost Value = { MediumState };

    ghost view = { λ m. record { words = m.words.items; stores = m.stores.items } };

    ghost invariant = { λ m. (length m.words.items ≡ 8 * length m.stores.items) × All IsSettled m.words.items };
}

impl Medium {
    /// A medium of these words, each of them durable, whose lines were never stored to. `Err` says that memory ran out.
    pub fn of(alloc: Global, words: Vec<u64>) -> Result<Medium, AllocError>
        requires { length words.items % 8 ≡ 0 }
        ensures words { IfOk result (λ m. m.words ≡ map durable_word words.items) }
        ensures stores { IfOk result (λ m. m.stores ≡ replicate (length words.items / 8) 0) }
    {
        let stores = vec![in alloc; 0; words.len() / 8]?;
        Medium::with_stores(alloc, words, stores)
    }

    /// A medium of these words, each of them durable, whose lines were stored to as often as `stores` says; 2^64 - 1 is that often or more.
    /// `Err` says that memory ran out.
    pub fn with_stores(
        alloc: Global,
        words: Vec<u64>,
        stores: Vec<u64>,
    ) -> Result<Medium, AllocError>
        requires { length words.items ≡ 8 * length stores.items }
        ensures words { IfOk result (λ m. m.words ≡ map durable_word words.items) }
        ensures stores { IfOk result (λ m. m.stores ≡ stores.items) }
    {
        let words = words.iter().map(|v| Word::durable(*v)).collect(alloc)?;
        Ok(Medium { words, stores })
    }

    /// Gives the present value of a word.
    pub fn load(&self, at: u64) -> u64
        requires { at < length self.now.words }
        ensures { result ≡ (medium_word self.now at).value }
    {
        self.words[at as usize].value
    }

    /// Stores a word. It is dirty then, also where it was being written back. The count of its line goes up by 1, and stays at 2^64 - 1.
    pub fn store(&mut self, at: u64, v: u64)
        requires { at < length self.old.words }
        ensures { self.new ≡ after_store self.old at v }
    {
        self.words[at as usize].store(v);
        let line = (at / 8) as usize;
        self.stores[line] = self.stores[line].saturating_add(1);
    }

    /// Begins to write a line back: its dirty words are pending then.
    pub fn write_back(&mut self, line: u64)
        requires { line < length self.old.stores }
        ensures words { WritesBack (8 * line) (8 * line + 8) self.old.words self.new.words }
        ensures stores { self.new.stores ≡ self.old.stores }
    {
        let _words = self.words.len();
        let first = 8 * line as usize;
        for at in first..first + 8 {
            self.words[at].write_back();
        }
    }

    /// Waits for what was written back: each pending word is durable then, with its present value.
    pub fn fence(&mut self)
        ensures words { self.new.words ≡ map fenced self.old.words }
        ensures stores { self.new.stores ≡ self.old.stores }
    {
        for at in 0..self.words.len() {
            self.words[at].fence();
        }
    }

    /// Whether a word was stored to since it was last durable.
    pub fn is_dirty(&self, at: u64) -> bool
        requires { at < length self.now.words }
        ensures { IsTrue result ↔ IsDirtyMark (medium_word self.now at).mark }
    {
        self.words[at as usize].is_dirty()
    }

    /// How often a line was stored to; 2^64 - 1 says that often or more.
    pub fn stores(&self, line: u64) -> u64
        requires { line < length self.now.stores }
        ensures { result ≡ slice_index self.now.stores line }
    {
        self.stores[line as usize]
    }

    /// Writes what a crash may leave: a word that is not dirty keeps its value. A dirty one has its last durable
    /// value by choice 0, its present value by choice 1, and by each other choice some number of its own: the product
    /// of the choice and the word's place plus 1, which wraps.
    pub fn image(&self, choice: u64, into: &mut [u64])
        requires { length into.old ≡ length self.now.words }
        ensures { into.new ≡ image_of choice self.now }
    {
        for (at, word) in self.words.iter().enumerate() {
            into[at] = word.left(choice, at as u64);
        }
    }
}

//! A memory that counts its accesses.

ghost use Rattle.std.specs.Prelude.{◌≡◌, ◌*◌, ◌^◌, ◌≤◌, IfOk, length};

use crate::rows::memory;
use cx_base::{Halt, Memory, VecMemory};
use std::alloc::{AllocError, Global};

/// How often a word was stored since the stores were counted last (`stores`), what it was then (`before`), and what it is (`now`).
#[derive(Clone, Copy)]
pub(crate) struct WordStores {
    pub(crate) stores: u64,
    pub(crate) before: u64,
    pub(crate) now: u64,
}

/// A memory that counts its loads and its stores, and the stores of each word.
#[derive(Drop)]
pub(crate) struct Counting<M: Memory> {
    pub(crate) inner: M,
    pub(crate) loads: u64,
    pub(crate) stores: u64,
    pub(crate) words: Vec<WordStores>,
}

impl<M: Memory> Memory for Counting<M> {
    // what proofs say of this memory, they say of the memory inside it
    ghost size = { λ c. M.size c.inner };

    ghost Fixed = { M.Fixed };

    ghost fixed = { λ c. M.fixed c.inner };

    ghost writable = { λ c. M.writable c.inner };

    ghost left = { λ c. M.left c.inner };

    ghost Key = { M.Key };

    ghost stands = { λ c. M.stands c.inner };

    ghost some_stands = { λ c. M.some_stands c.inner };

    ghost words = { λ c. M.words c.inner };

    fn load(&mut self, at: u64) -> Result<u64, Halt> {
        self.loads = self.loads.saturating_add(1);
        self.inner.load(at)
    }

    fn store(&mut self, at: u64, v: u64) -> Result<(), Halt> {
        self.stores = self.stores.saturating_add(1);
        if let Some(word) = self.words.get_mut(at as usize) {
            word.stores = word.stores.saturating_add(1);
            word.now = v;
        }
        self.inner.store(at, v)
    }
}

/// A word of 2^64 - 1 that was not stored yet.
const NO_STORES: WordStores = WordStores {
    stores: 0,
    before: u64::MAX,
    now: u64::MAX,
};

/// A memory of `lines` lines, each word of which is 2^64 - 1, with its accesses counted from 0.
pub(crate) fn counted_words(alloc: Global, lines: u64) -> Result<Counting<VecMemory>, AllocError>
    requires { lines ≤ 2 ^ 14 }
    ensures { IfOk result (λ c. length c.inner.words.items ≡ 8 * lines) }
{
    let words = vec![in alloc; NO_STORES; 8 * lines as usize]?;
    Ok(Counting {
        inner: memory(alloc, lines)?,
        loads: 0,
        stores: 0,
        words,
    })
}

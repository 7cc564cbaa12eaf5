//! A write set in memory of its caller's own.

ghost use Rattle.std.specs.Prelude.{◌≡◌, ◌+◌, ◌*◌, ◌<◌, ◌≤◌, ◌↔◌, ℕ, List, false, slice_index, slice_set, IfOk, IsTrue};
ghost use Rattle.redo_set.specs.Sets.{AreWithin, put_over, set_with_pair};

use cx_base::SET_WORDS;
use std::alloc::{AllocError, Global};
use std::marker::Model;

/// How many pairs a set has room for.
const MOST_PAIRS: u64 = 256;

/// A list of at most 256 pairs of an address and a value, in the order of the stores that they stand for. It is kept as the words of
/// a cell's write set: the number of pairs, then address and value of each.
#[derive(Drop)]
pub struct WriteSet {
    pub(crate) words: Vec<u64>,
}

impl Model for WriteSet {
    ghost use Rattle.std.specs.Prelude.{List, ℕ};
    ghost use Rattle.caller_cache.specs.Copies.{IsSetList};

    ghost Value = { List ℕ };

    ghost view = { λ s. s.words.items };

    ghost invariant = { λ s. IsSetList s.words.items };
}

impl WriteSet {
    /// The empty set, with room for 256 pairs. `Err` says that memory ran out.
    pub fn new(alloc: Global) -> Result<WriteSet, AllocError>
        ensures { IfOk result (λ set. slice_index set 0 ≡ 0) }
    {
        let words = vec![in alloc; 0; SET_WORDS]?;
        Ok(WriteSet { words })
    }

    /// The number of its pairs.
    pub fn len(&self) -> u64
        ensures count { result ≡ slice_index self.now 0 }
        ensures few { result ≤ 256 }
    {
        self.words[0]
    }

    /// Takes all pairs out.
    pub fn clear(&mut self)
        ensures { slice_index self.new 0 ≡ 0 }
    {
        self.words[0] = 0;
    }

    /// The address and the value of a pair.
    pub fn pair(&self, m: u64) -> (u64, u64)
        requires held { m < slice_index self.now 0 }
        requires few { m < 256 }
        ensures at { result.0 ≡ slice_index self.now (2 * m + 1) }
        ensures value { result.1 ≡ slice_index self.now (2 * m + 2) }
    {
        let i = 2 * m as usize;
        (self.words[i + 1], self.words[i + 2])
    }

    /// A word: the number of pairs, or the address or the value of one.
    pub(crate) fn word(&self, i: u64) -> u64
        requires { i < SET_WORDS }
        ensures { result ≡ slice_index self.now i }
    {
        self.words[i as usize]
    }

    /// Adds a pair after the others. It is false exactly where 256 pairs are held, and then nothing changes.
    pub fn note(&mut self, at: u64, v: u64) -> bool
        ensures noted { IsTrue result → self.new ≡ set_with_pair at v self.old }
        ensures last { IsTrue result → (words : List ℕ) → put_over self.new words ≡ slice_set (put_over self.old words) at v }
        ensures within { (size : ℕ) → at < size → AreWithin size self.old → AreWithin size self.new }
        ensures full { (result ≡ false) ↔ (slice_index self.old 0 ≡ 256) }
        ensures same { result ≡ false → self.new ≡ self.old }
    {
        let count = self.words[0];
        if count == MOST_PAIRS {
            return false;
        }
        let i = 2 * count as usize;
        self.words[i + 1] = at;
        self.words[i + 2] = v;
        self.words[0] = count + 1;
        true
    }
}

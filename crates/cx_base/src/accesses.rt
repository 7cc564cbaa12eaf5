//! Accesses for whoever writes an object: several words at once, only words that differ, and a word below a bound.

ghost use Rattle.std.specs.Prelude.{◌≡◌, ◌+◌, ◌^◌, ◌<◌, ◌≤◌, Some, length, slice_index, slice_set, IsTrue, IfOk, OnErr};
ghost use Rattle.cx_base.specs.Calls.{Changes};
ghost use Rattle.cx_base.specs.Memory.{AreAt, Loaded, Framed, Always, overwritten};

use crate::memory::{Halt, Memory};
use crate::object::OP_WORDS;
use line_lanes::first_apart;

/// Puts words over those from a place on, and stores only those that differ. `Halt` comes only where no access is left, and then
/// only the first of the words are there.
pub fn store_words<M: Memory>(mem: &mut M, at: u64, words: &[u64]) -> Result<(), Halt>
    requires within { at + length words.now ≤ M.size mem.old }
    requires small { at + length words.now < 2 ^ 64 }
    requires writable { IsTrue (M.writable mem.old) }
    ensures { Changes M.Memory mem.old mem.new result (λ _ before now. now ≡ overwritten at words.now before) }
{
    for turn in 0..words.len().div_ceil(OP_WORDS) {
        let from = OP_WORDS * turn;
        let to = words.len().min(from + OP_WORDS);
        store_few(mem, at + from as u64, &words[from..to])?;
    }
    Ok(())
}

/// Puts words over those from a place on, at most as many as a reply has, and stores only those that differ: the words that are there are loaded in one go,
/// and compared before any is stored. `Halt` comes only where no access is left, and then only the first of the words are there.
fn store_few<M: Memory>(mem: &mut M, at: u64, words: &[u64]) -> Result<(), Halt>
    requires few { length words.now ≤ OP_WORDS }
    requires within { at + length words.now ≤ M.size mem.old }
    requires small { at + length words.now < 2 ^ 64 }
    requires writable { IsTrue (M.writable mem.old) }
    ensures { Changes M.Memory mem.old mem.new result (λ _ before now. now ≡ overwritten at words.now before) }
{
    let mut there = [0; OP_WORDS];
    let there = &mut there[..words.len()];
    mem.load_words(at, there)?;
    store_differing(mem, at, words, there)
}

/// Puts words over those from a place on, which are known, and stores only those that differ.
fn store_differing<M: Memory>(
    mem: &mut M,
    at: u64,
    words: &[u64],
    there: &[u64],
) -> Result<(), Halt>
    requires within { at + length words.now ≤ M.size mem.old }
    requires small { at + length words.now < 2 ^ 64 }
    requires writable { IsTrue (M.writable mem.old) }
    requires long { length there.now ≡ length words.now }
    requires known { Always (M.stands mem.old) (AreAt at there.now) }
    ensures { Changes M.Memory mem.old mem.new result (λ _ before now. now ≡ overwritten at words.now before) }
{
    let mut next = first_apart(words, there, 0);
    while next < words.len() {
        mem.store(at + next as u64, words[next])?;
        next = first_apart(words, there, next + 1);
    }
    Ok(())
}

/// Puts a word at a place, and stores it only where it differs: on a shared table a store costs ten loads. `Halt` comes only
/// where no access is left.
pub fn store_word<M: Memory>(mem: &mut M, at: u64, v: u64) -> Result<(), Halt>
    requires within { at < M.size mem.old }
    requires writable { IsTrue (M.writable mem.old) }
    ensures { Changes M.Memory mem.old mem.new result (λ _ before now. now ≡ slice_set before at v) }
{
    let there = mem.load(at)?;
    store_over(mem, at, there, v)
}

/// Puts a word at a place where this one is known to be, and stores it only where it differs.
fn store_over<M: Memory>(mem: &mut M, at: u64, there: u64, v: u64) -> Result<(), Halt>
    requires within { at < M.size mem.old }
    requires writable { IsTrue (M.writable mem.old) }
    requires known { Always (M.stands mem.old) (λ now. slice_index now at ≡ there) }
    ensures { Changes M.Memory mem.old mem.new result (λ _ before now. now ≡ slice_set before at v) }
{
    if there != v {
        mem.store(at, v)?;
    }
    Ok(())
}

/// Loads a word that is below a bound in all the words that may be there. `Halt` comes only where no access is left.
pub fn load_below<M: Memory>(mem: &mut M, at: u64, bound: u64) -> Result<u64, Halt>
    requires within { at < M.size mem.old }
    requires below { Always (M.stands mem.old) (λ words. slice_index words at < bound) }
    ensures done { IfOk result (λ v. Loaded at v (M.stands mem.old) (M.stands mem.new)) }
    ensures below { IfOk result (λ v. v < bound) }
    ensures halts { OnErr result (M.left mem.new ≡ Some 0) }
    ensures framed { Framed M.size M.fixed M.writable M.left mem.old mem.new }
{
    let word = mem.load(at)?;
    let is_below = word < bound;
    prove!(is_below);
    Ok(word)
}

//! Nodes: the key and the document that each names, and the number of them.

ghost use Rattle.std.specs.Prelude.{◌≡◌, ◌+◌, ℕ, List, length};
ghost use Rattle.std.specs.Ordering.{nat_cmp};
ghost use Rattle.cx_base.specs.Calls.{Finds};
ghost use Rattle.cx_base.specs.Packing.{unpacked};
ghost use Rattle.cx_base.specs.Store.{Store, key_cmp};
ghost use Rattle.avl_words.specs.Lines.{IsLoadable, word_of};
ghost use Rattle.index_validation.specs.Layout.{IsIndex, StandsFor};
ghost use Rattle.index_validation.specs.Reading.{revised_in};
ghost use Rattle.word_index.specs.Answers.{IsPackOf, IsNodeOf};
ghost use Rattle.word_index.specs.Walk.{HasNode};

use crate::blocks::{early_word, read_text};
use crate::texts::{Doc, Key, early_order, order_apart};
use avl_words::word;
use cx_base::{Halt, Memory, Steps};
use std::cmp::Ordering;
use std::sync::ledger::Ledger;

/// The number of pairs. `Halt` comes only where no access is left.
pub fn count<M: Memory>(mem: &mut M) -> Result<u64, Halt>
    requires { IsLoadable M.Memory mem.old IsIndex }
    ensures { Finds M.Memory mem.old mem.new result (λ n ws. (version : ℕ) (store : Store) → StandsFor ws version store → n ≡ length store) }
{
    word(mem, 0, 5)
}

/// The last revision that was given. `Halt` comes only where no access is left.
pub fn last_revision<M: Memory>(mem: &mut M) -> Result<u64, Halt>
    requires { IsLoadable M.Memory mem.old IsIndex }
    ensures { Finds M.Memory mem.old mem.new result (λ last ws. last ≡ (revised_in ws).last) }
{
    word(mem, 0, 6)
}

/// The revision of the pair of a node that `find` gave on these words. `Halt` comes only where no access is left.
pub fn rev_at<M: Memory>(mem: &mut M, node: u64) -> Result<u64, Halt>
    requires { IsLoadable M.Memory mem.old (λ ws. HasNode ws node) }
    ensures { Finds M.Memory mem.old mem.new result (λ revision ws. revision ≡ word_of ws node 7) }
{
    word(mem, node, 7)
}

/// The key of a node. `Halt` comes only where no access is left.
pub fn key_at<M: Memory>(mem: &mut M, node: u64) -> Result<Key, Halt>
    requires { IsLoadable M.Memory mem.old (λ ws. HasNode ws node) }
    ensures { Finds M.Memory mem.old mem.new result (λ key ws. (pair : List ℕ × List ℕ) → IsNodeOf ws node pair → IsPackOf 8 key.len key.words pair.0) }
{
    let mut words = [0; 8];
    let len = read_text(mem, node, 3, &mut words)?;
    Ok(Key { len, words })
}

/// How the length of a node's key compares with a number.
fn order_of_lengths<M: Memory>(mem: &mut M, node: u64, len: u64) -> Result<Ordering, Halt>
    requires { IsLoadable M.Memory mem.old (λ ws. HasNode ws node) }
    ensures { Finds M.Memory mem.old mem.new result (λ order ws. (pair : List ℕ × List ℕ) → IsNodeOf ws node pair → order ≡ nat_cmp (length pair.0) len) }
{
    let mine = word(mem, node, 4)?;
    Ok(mine.cmp(&len))
}

/// How the key of a node compares with another key. Its words are compared where they stand, up to the first that differs.
fn order_of_all<M: Memory>(mem: &mut M, node: u64, key: &Key) -> Result<Ordering, Halt>
    requires { IsLoadable M.Memory mem.old (λ ws. HasNode ws node) }
    ensures { Finds M.Memory mem.old mem.new result (λ order ws. (pair : List ℕ × List ℕ) → IsNodeOf ws node pair → order ≡ key_cmp pair.0 (unpacked key.now.len key.now.words)) }
{
    let first = word(mem, node, 3)?;
    let len = word(mem, node, 4)?;
    for at in 0..len.min(key.len).div_ceil(8) as usize {
        let other = early_word(mem, first, at)?;
        let mine = key.words[at];
        if other != mine {
            return Ok(order_apart(at, other, mine, len, key.len));
        }
    }
    Ok(len.cmp(&key.len))
}

/// Compares a key with that of a node, which is one visit: a walk sees the keys of nodes in no other way. The length is loaded only where the other key
/// ends before a byte differs, which saves a load at most visits; a key of more than 56 bytes is then compared anew. `Halt` comes only where no access is
/// left.
#[inline(always)]
pub fn order_at<M: Memory, L: Ledger>(
    mem: &mut M,
    node: u64,
    key: &Key,
    visits: &mut Steps<L>,
) -> Result<Ordering, Halt>
    requires { IsLoadable M.Memory mem.old (λ ws. HasNode ws node) }
    ensures counted { visits.new ≡ visits.old + 1 }
    ensures finds { Finds M.Memory mem.old mem.new result (λ order ws. (pair : List ℕ × List ℕ) → IsNodeOf ws node pair → order ≡ key_cmp pair.0 (unpacked key.now.len key.now.words)) }
{
    visits.tick();
    let first = word(mem, node, 3)?;
    for at in 0..key.len.div_ceil(8).min(7) as usize {
        let other = word(mem, first, 1 + at as u64)?;
        let mine = key.words[at];
        if other != mine {
            match early_order(at, other, mine, key.len) {
                Some(order) => return Ok(order),
                None => {
                    let short = order_of_lengths(mem, node, key.len)?;
                    return Ok(short);
                }
            }
        }
    }
    if key.len <= 56 {
        let ended = order_of_lengths(mem, node, key.len)?;
        return Ok(ended);
    }
    let order = order_of_all(mem, node, key)?;
    Ok(order)
}

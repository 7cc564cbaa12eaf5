//! A check of the nodes.

ghost use Rattle.std.specs.Prelude.{◌≡◌, ◌+◌, ◌*◌, ◌<◌, ◌≤◌, ◌↔◌, IsTrue, length, take};
ghost use Rattle.std.specs.Bool.{MatchBool};
ghost use Rattle.std.specs.declared.cmp.Ordering.TheVariants.{Less};
ghost use Rattle.cx_base.specs.Store.{key_cmp};
ghost use Rattle.avl_words.specs.Lines.{word_of};
ghost use Rattle.index_validation.specs.Layout.{IsRevision};
ghost use Rattle.index_validation.specs.Lawful.{head_in, CanCheck, HasKey, NoKey, HasDocument, NoDocument, HasPair, NoPair, HasNodes, NoNodes};

use crate::in_order::InOrder;
use crate::marks::mark;
use crate::text_checks::text_at;

/// The word at a place of a line.
pub fn word_at(words: &[u64], line: u64, place: usize) -> u64
    requires line { 8 * line + 8 ≤ length words.now }
    requires place { place < 8 }
    ensures { result ≡ word_of words.now line place }
{
    words[8 * line as usize + place]
}

/// Reads the key of a node: false where it names none.
fn key_of_node(words: &[u64], marks: &mut [bool], node: u64, key: &mut [u8; 112]) -> bool
    requires there { 8 * length marks.old ≤ length words.now }
    requires node { node < length marks.old }
    ensures { MatchBool result (HasKey words.now node marks.old marks.new (take (word_of words.now node 4) key.new)) (NoKey words.now node marks.old) }
{
    let len = word_at(words, node, 4);
    if len == 0 || len > 64 {
        return false;
    }
    let first = word_at(words, node, 3);
    text_at(words, marks, first, len, 33, 126, &mut [0; 14], key)
}

/// Reads the document of a node: false where it names none.
fn document_of_node(words: &[u64], marks: &mut [bool], node: u64) -> bool
    requires there { 8 * length marks.old ≤ length words.now }
    requires node { node < length marks.old }
    ensures { MatchBool result (HasDocument words.now node marks.old marks.new) (NoDocument words.now node marks.old) }
{
    let len = word_at(words, node, 6);
    if len == 0 || len > 1024 {
        return false;
    }
    let first = word_at(words, node, 5);
    let blocks = len.div_ceil(56) as usize;
    let mut content = [0; 133];
    let mut bytes = [0; 1064];
    text_at(
        words,
        marks,
        first,
        len,
        32,
        255,
        &mut content[..7 * blocks],
        &mut bytes[..56 * blocks],
    )
}

/// Whether a key is above another.
fn is_above(key: &[u8], other: &[u8]) -> bool
    ensures { IsTrue result ↔ (key_cmp other.now key.now ≡ Less) }
{
    other.cmp(key).is_lt()
}

/// Whether a revision is right for the header: 0 in version 1, and from 1 to the last one given in version 2.
fn is_revision(words: &[u64], revision: u64) -> bool
    requires { 8 ≤ length words.now }
    ensures { IsTrue result ↔ IsRevision (head_in words.now) revision }
{
    words[0].saturating_sub(1) <= revision && revision <= words[6]
}

/// Marks the lines of the pair of a node and reads its key: false where it is no node of a pair with a key above the
/// last one.
fn pair_at(words: &[u64], marks: &mut [bool], node: u64, last: &[u8], key: &mut [u8; 112]) -> bool
    requires there { 8 * length marks.old ≤ length words.now }
    ensures { MatchBool result (HasPair words.now node last.now marks.old marks.new (take (word_of words.now node 4) key.new)) (NoPair words.now node last.now marks.old) }
{
    if !mark(marks, node) {
        return false;
    }
    if !is_revision(words, word_at(words, node, 7)) {
        return false;
    }
    if !key_of_node(words, marks, node, key) {
        return false;
    }
    if !document_of_node(words, marks, node) {
        return false;
    }
    let len = word_at(words, node, 4) as usize;
    is_above(&key[..len], last)
}

/// Marks the lines of all pairs, node after node in the order of the tree, which stands: false where these are no nodes
/// of the pairs of a store.
pub fn nodes_at(words: &[u64], marks: &mut [bool]) -> bool
    requires { CanCheck words.now marks.old }
    ensures { MatchBool result (HasNodes words.now marks.old marks.new) (NoNodes words.now marks.old) }
{
    let mut last = [0; 112];
    let mut last_len = 0;
    let mut walk = InOrder::of(words, words[1]);
    for _ in 0..words[5] {
        let node = walk.next_node(words);
        let mut key = [0; 112];
        if !pair_at(words, marks, node, &last[..last_len], &mut key) {
            return false;
        }
        last = key;
        last_len = word_at(words, node, 4) as usize;
    }
    true
}

//! A check of words that may be anything.

ghost use Rattle.std.specs.Prelude.{◌≡◌, ◌^◌, ◌≤◌, ◌↔◌, IsTrue, IfOk, All, true, false, length, replicate, slice_set};
ghost use Rattle.avl_words.specs.Lines.{word_of, IsPartLength};
ghost use Rattle.index_validation.specs.Lawful.{IsLawful, IsHeader, HasRoot, CanCheck, AreLinesLawful};

use crate::marks::mark_chain;
use crate::node_checks::nodes_at;
use crate::shape::is_balanced;
use std::alloc::{AllocError, Global};

/// Whether words stand for some store, with this version, of which there are two. They may be anything: the tree's shape is checked in one turn for
/// each pair counted, of which there are fewer than lines, and then each line is looked at a bounded number of times, with
/// a mark of a byte for each line in use. Nothing recurses. `Err` means out of memory.
pub fn lawful(alloc: Global, words: &[u64], version: u64) -> Result<bool, AllocError>
    ensures { IfOk result (λ yes. IsTrue yes ↔ IsLawful words.now version) }
{
    if !is_header(words, version) {
        return Ok(false);
    }
    if !has_root(words) {
        return Ok(false);
    }
    let mut marks = first_marks(alloc, words[3] as usize)?;
    Ok(lines_are_lawful(words, &mut marks))
}

/// Whether an index may have `n` words: whole lines, from 1 to 2^32 of them.
fn is_part_length(n: usize) -> bool
    ensures { IsTrue result ↔ IsPartLength n }
{
    n % 8 == 0 && 1 <= n / 8 && n / 8 <= 1 << 32
}

/// Whether there are words enough and not too many, and the header's words that name no line are right.
fn is_header(words: &[u64], version: u64) -> bool
    ensures { IsTrue result ↔ IsHeader words.now version }
{
    is_part_length(words.len())
        && words[0] == version
        && 1 <= words[3]
        && words[3] <= (words.len() / 8) as u64
        && (version == 2 || version == 1 && words[6] == 0)
        && words[7] == 0
}

/// Whether a balanced tree of as many nodes as the header says, fewer than there are lines, stands below its root.
fn has_root(words: &[u64]) -> bool
    requires sized { IsPartLength (length words.now) }
    requires end { word_of words.now 0 3 ≤ 2 ^ 32 }
    ensures { IsTrue result ↔ HasRoot words.now }
{
    words[5] < words[3] && is_balanced(words, words[1], words[5])
}

/// Whether each line below the first never given is exactly one of the lines of the pairs and the lines given back,
/// once. The header's line has its mark before.
fn lines_are_lawful(words: &[u64], marks: &mut [bool]) -> bool
    requires { CanCheck words.now marks.old }
    ensures { IsTrue result ↔ AreLinesLawful words.now marks.old }
{
    if !nodes_at(words, marks) {
        return false;
    }
    if !mark_chain(words, marks, words[2], words[4]) {
        return false;
    }
    are_all_marked(marks)
}

/// Whether each line has its mark.
fn are_all_marked(marks: &[bool]) -> bool
    ensures { IsTrue result ↔ All (λ marked. IsTrue marked) marks.now }
{
    marks.iter().all(|marked| *marked)
}

/// Marks for `count` lines, of which only the header's is set.
fn first_marks(alloc: Global, count: usize) -> Result<Vec<bool>, AllocError>
    requires { 1 ≤ count }
    ensures { IfOk result (λ marks. marks.items ≡ slice_set (replicate count false) 0 true) }
{
    let mut marks = vec![in alloc; false; count]?;
    marks[0] = true;
    Ok(marks)
}

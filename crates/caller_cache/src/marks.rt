//! Marks on words, and where they may stand: the addresses marked last are listed, and of the others it is known in which lines
//! they lie. So a marked word is found without a look at those that are not.

ghost use Rattle.std.specs.Prelude.{◌≡◌, ◌≢◌, ◌+◌, ◌*◌, ◌/◌, ◌<◌, ◌≤◌, ℕ, All, IfOk, IfSome, IfNone, false, true, length, replicate, slice_get, slice_set, vec_capacity, vec_len, [], Some};
ghost use Rattle.std.specs.List.{Contains};
ghost use Rattle.caller_cache.specs.Marks.{IsCovered, IsInLines};

use line_lanes::add_touched;
use std::alloc::{AllocError, Global};
use std::marker::Model;

/// The addresses that are listed at most: a longer list is turned into marks of lines.
const LISTED: usize = 512;

/// A mark for each word. Contracts see the marks.
#[derive(Debug, Drop)]
pub(crate) struct Marks {
    marks: Vec<bool>,
    /// The addresses marked since the list was last turned into marks of lines.
    listed: Vec<u64>,
    /// For each line, whether marked words that are not listed may lie in it.
    lines: Vec<bool>,
    /// The line from which on each marked word lies that is not listed.
    first: usize,
}

impl Model for Marks {
    ghost use Rattle.std.specs.Prelude.{◌≡◌, List, Bool, vec_capacity};
    ghost use Rattle.caller_cache.specs.Marks.{AreCovered};

    ghost Value = { List Bool };

    ghost view = { λ m. m.marks.items };

    ghost invariant = { λ m. (vec_capacity m.listed ≡ 512) × AreCovered m.marks.items m.listed.items m.lines.items m.first };
}

impl Marks {
    /// Room for the marks of `count` words, none of which is marked.
    pub(crate) fn none(alloc: Global, count: usize) -> Result<Marks, AllocError>
        ensures { IfOk result (λ m. m ≡ replicate count false) }
    {
        Ok(Marks {
            marks: Vec::from_elem(alloc, false, count)?,
            listed: Vec::with_capacity(alloc, LISTED)?,
            lines: Vec::from_elem(alloc, false, count / 8 + 1)?,
            first: 0,
        })
    }

    /// Marks a word.
    pub(crate) fn mark(&mut self, i: u64)
        requires { i < length self.old }
        ensures { self.new ≡ slice_set self.old i true }
    {
        if !self.marks[i as usize] {
            make_room(&mut self.listed, &mut self.lines, &mut self.first);
            self.listed.push_reserved(i);
            self.marks[i as usize] = true;
        }
    }

    /// Takes the mark of a word away.
    pub(crate) fn clear(&mut self, i: u64)
        requires { i < length self.old }
        ensures { self.new ≡ slice_set self.old i false }
    {
        self.marks[i as usize] = false;
    }

    /// Some marked word. It is looked for among the addresses listed, and then in the lines.
    pub(crate) fn some_marked(&mut self) -> Option<u64>
        ensures same { self.new ≡ self.old }
        ensures some { IfSome result (λ at. slice_get self.old at ≡ Some true) }
        ensures none { IfNone result ((at : ℕ) → slice_get self.old at ≢ Some true) }
    {
        match last_marked(&self.marks, &mut self.listed) {
            Some(at) => Some(at),
            None => first_marked(&self.marks, &mut self.lines, &mut self.first),
        }
    }

    /// For each word, whether it is marked.
    pub(crate) fn as_slice(&self) -> &[bool]
        ensures { result.now ≡ self.now }
    {
        &self.marks
    }
}

/// Makes room for one more address: a full list is turned into marks of lines, and emptied.
fn make_room(listed: &mut Vec<u64>, lines: &mut [bool], first: &mut usize)
    requires capacity { vec_capacity listed.old ≡ 512 }
    requires within { All (λ at. at < 8 * length lines.old) listed.old.items }
    ensures capacity { vec_capacity listed.new ≡ 512 }
    ensures room { vec_len listed.new < 512 }
    ensures within { (n : ℕ) → All (λ at. at < n) listed.old.items → All (λ at. at < n) listed.new.items }
    ensures covered { (at : ℕ) → at < 8 * length lines.old → IsCovered listed.old.items lines.old first.old at → IsCovered listed.new.items lines.new first.new at }
{
    if listed.len() == LISTED {
        add_touched(listed, lines);
        listed.clear();
        *first = 0;
    }
}

/// The last address listed that is marked, which stays on the list. Those listed behind it, whose marks were taken away, are taken off.
fn last_marked(marks: &[bool], listed: &mut Vec<u64>) -> Option<u64>
    requires { All (λ at. at < length marks.now) listed.old.items }
    ensures capacity { vec_capacity listed.new ≡ vec_capacity listed.old }
    ensures within { All (λ at. at < length marks.now) listed.new.items }
    ensures kept { (at : ℕ) → slice_get marks.now at ≡ Some true → Contains listed.old.items at → Contains listed.new.items at }
    ensures some { IfSome result (λ at. slice_get marks.now at ≡ Some true) }
    ensures none { IfNone result (listed.new.items ≡ []) }
{
    while let Some(at) = listed.last().copied() {
        if marks[at as usize] {
            return Some(at);
        }
        listed.pop();
    }
    None
}

/// The first word marked in a line from the first on. A line without one loses its mark.
fn first_marked(marks: &[bool], lines: &mut [bool], first: &mut usize) -> Option<u64>
    requires { 8 * length lines.old ≤ length marks.now + 8 }
    ensures kept { (at : ℕ) → slice_get marks.now at ≡ Some true → IsInLines lines.old first.old at → IsInLines lines.new first.new at }
    ensures some { IfSome result (λ at. slice_get marks.now at ≡ Some true) }
    ensures none { IfNone result (length lines.new ≤ first.new) }
{
    for line in *first..lines.len() {
        if lines[line] {
            if let Some(at) = marked_in(marks, line) {
                *first = line;
                return Some(at);
            }
            lines[line] = false;
        }
    }
    *first = (*first).max(lines.len());
    None
}

/// The first word of a line that is marked.
fn marked_in(marks: &[bool], line: usize) -> Option<u64>
    requires { 8 * line ≤ length marks.now }
    ensures some { IfSome result (λ at. slice_get marks.now at ≡ Some true) }
    ensures none { IfNone result ((at : ℕ) → at / 8 ≡ line → slice_get marks.now at ≢ Some true) }
{
    let from = 8 * line;
    for at in from..marks.len().min(from + 8) {
        if marks[at] {
            return Some(at as u64);
        }
    }
    None
}

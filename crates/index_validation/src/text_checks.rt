//! A check of the bytes that a chain of blocks holds.

ghost use Rattle.std.specs.Prelude.{◌≡◌, ◌≢◌, ◌+◌, ◌*◌, ◌/◌, ◌%◌, ◌≤◌, ◌↔◌, ℕ, List, IsTrue, All, length, take, drop};
ghost use Rattle.std.specs.Bool.{MatchBool};
ghost use Rattle.avl_words.specs.Lines.{word_of, IsWithin};
ghost use Rattle.index_validation.specs.Layout.{IsChain};
ghost use Rattle.index_validation.specs.Lawful.{IsContent, AreBytesBetween, IsFilled, HasBlocks, ReadsText, NoText};

use crate::marks::mark_chain;
use cx_base::{unpack, unpacked_packs};

/// The block line in which the word after the i-th one stands, where the i-th stands in `line`.
fn block_behind(words: &[u64], line: u64, i: usize) -> u64
    requires { IsWithin words.now line }
    ensures last { i % 7 ≡ 6 → result ≡ word_of words.now line 0 }
    ensures other { i % 7 ≢ 6 → result ≡ line }
{
    if i % 7 == 6 {
        words[8 * line as usize]
    } else {
        line
    }
}

/// Reads the seven words of each block of a chain of `count` blocks, and zeros behind them.
pub fn read_content(words: &[u64], first: u64, count: usize, content: &mut [u64])
    requires chain { HasBlocks words.now first count }
    requires room { 7 * count ≤ length content.old }
    ensures { (lines : List ℕ) → IsChain words.now first lines → length lines ≡ count → IsContent words.now lines content.new }
{
    let mut line = first;
    for i in 0..7 * count {
        content[i] = words[8 * line as usize + 1 + i % 7];
        line = block_behind(words, line, i);
    }
    for i in 7 * count..content.len() {
        content[i] = 0;
    }
}

/// Whether all bytes are from one number to another.
fn are_between(bytes: &[u8], least: u8, most: u8) -> bool
    ensures { IsTrue result ↔ All (AreBytesBetween least most) bytes.now }
{
    bytes.iter().all(|byte| least <= *byte && *byte <= most)
}

/// Whether all bytes are 0.
fn are_zero(bytes: &[u8]) -> bool
    ensures { IsTrue result ↔ All (λ byte. byte ≡ 0) bytes.now }
{
    bytes.iter().all(|byte| *byte == 0)
}

/// The bytes behind the first ones.
fn behind(bytes: &[u8], len: usize) -> &[u8]
    requires { len ≤ length bytes.now }
    ensures { result.now ≡ drop len bytes.now }
{
    &bytes[len..]
}

/// Whether the first bytes are within these limits, and the others are 0.
fn is_filled(bytes: &[u8], len: usize, least: u8, most: u8) -> bool
    requires { len ≤ length bytes.now }
    ensures { IsTrue result ↔ IsFilled bytes.now len least most }
{
    are_between(&bytes[..len], least, most) && are_zero(behind(bytes, len))
}

/// Marks the blocks of a text of `len` bytes and reads them, with zeros behind: false where there is no such text
/// within these limits in blocks without a mark. `content` is room for the words of the blocks.
pub fn text_at(
    words: &[u64],
    marks: &mut [bool],
    first: u64,
    len: u64,
    least: u8,
    most: u8,
    content: &mut [u64],
    bytes: &mut [u8],
) -> bool
    requires there { 8 * length marks.old ≤ length words.now }
    requires room { 7 * ((len + 55) / 56) ≤ length content.old }
    requires bytes { length bytes.old ≡ 8 * length content.old }
    ensures { MatchBool result (ReadsText words.now first len least most marks.old marks.new (take len bytes.new)) (NoText words.now first len least most marks.old) }
{
    let count = len.div_ceil(56);
    if !mark_chain(words, marks, first, count) {
        return false;
    }
    read_content(words, first, count as usize, content);
    unpack(content, bytes);
    unpacked_packs(content);
    is_filled(bytes, len as usize, least, most)
}

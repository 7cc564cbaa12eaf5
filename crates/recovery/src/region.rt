//! The words of all replicas, and the region among them that an image's root names.

ghost use Rattle.std.specs.Prelude.{◌≡◌, ◌+◌, ◌*◌, ◌<◌, ◌≤◌, ◌↔◌, All, IfOk, IsTrue, length};
ghost use Rattle.cx_core.specs.Region.{LawfulResults, object_part, region_words, slot_reply};
ghost use Rattle.recovery.specs.Recovery.{HasSlot, IsLawfulSlot};
ghost use Rattle.recovery.specs.Images.{IsReadable, RiseFrom, image_size, region_of, words_from};

use cx_base::{OP_WORDS, root_replica};
use cx_core::{HEAD_LINES, Image, LINE_WORDS, OBJECT_START, slot_start};
use std::alloc::{AllocError, Global};

/// How many words a region has whose object has this many lines.
pub(crate) fn region_len(lines: u64) -> u64
    requires { lines ≤ 16384 }
    ensures { result ≡ region_words lines }
{
    LINE_WORDS * (HEAD_LINES + lines)
}

/// How many words the replicas of this many callers have together, two replicas for each caller.
pub(crate) fn image_len(callers: u32, lines: u64) -> u64
    requires callers { callers ≤ 8 }
    requires lines { lines ≤ 16384 }
    ensures { result ≡ image_size callers lines }
{
    region_len(lines) * (2 * u64::from(callers))
}

/// The region that the root names, read in one walk over the pairs. `Err` means out of memory.
pub(crate) fn read_region(alloc: Global, image: &Image) -> Result<Vec<u64>, AllocError>
    requires { IsReadable image.now.lines image.now }
    ensures { IfOk result (λ words. words.items ≡ region_of image.now) }
{
    let region = region_len(image.lines);
    let from = region * u64::from(root_replica(image.callers, image.root));
    read_words(alloc, image.pairs.as_slice(), from, region as usize)
}

/// The given number of words from an address on, of pairs whose addresses rise.
pub(crate) fn read_words(
    alloc: Global,
    pairs: &[(u64, u64)],
    from: u64,
    count: usize,
) -> Result<Vec<u64>, AllocError>
    requires { RiseFrom 0 pairs.now }
    ensures { IfOk result (λ words. words.items ≡ words_from pairs.now from count) }
{
    let mut words = vec![in alloc; 0; count]?;
    for (at, word) in pairs {
        if *at >= from && *at - from < count as u64 {
            words[(*at - from) as usize] = *word;
        }
    }
    Ok(words)
}

/// The object part of a region.
pub(crate) fn object_words(words: &[u64]) -> &[u64]
    requires { OBJECT_START ≤ length words.now }
    ensures part { result.now ≡ object_part words.now }
    ensures long { length result.now + OBJECT_START ≡ length words.now }
{
    &words[OBJECT_START as usize..]
}

/// The reply in the slot of a caller.
pub(crate) fn reply_words(words: &[u64], caller: u32) -> &[u64]
    requires { HasSlot caller words.now }
    ensures reply { result.now ≡ slot_reply caller words.now }
    ensures long { length result.now ≡ OP_WORDS }
{
    let at = slot_start(caller) as usize + 1;
    &words[at..at + OP_WORDS]
}

/// Whether all words are 0.
fn is_blank(words: &[u64]) -> bool
    ensures { IsTrue result ↔ All (λ word. word ≡ 0) words.now }
{
    words.iter().all(|word| *word == 0)
}

/// Whether a slot without a number has no reply.
fn has_lawful_slot(words: &[u64], caller: u32) -> bool
    requires { HasSlot caller words.now }
    ensures { IsTrue result ↔ IsLawfulSlot caller words.now }
{
    words[slot_start(caller) as usize] != 0 || is_blank(reply_words(words, caller))
}

/// Whether words 1 to 7 are 0, and each slot without a number has no reply.
pub(crate) fn has_lawful_results(words: &[u64]) -> bool
    requires { OBJECT_START ≤ length words.now }
    ensures { IsTrue result ↔ LawfulResults words.now }
{
    if !is_blank(&words[1..8]) {
        return false;
    }
    for caller in 0..8 {
        if !has_lawful_slot(words, caller) {
            return false;
        }
    }
    true
}

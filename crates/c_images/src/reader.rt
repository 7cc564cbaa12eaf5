//! A base is taken up from words.

ghost use Rattle.std.specs.Prelude.{◌≡◌, ◌+◌, ◌-◌, ◌<◌, ◌≤◌, ◌^◌, ◌↔◌, IfOk, IsTrue, MatchResult, length};
ghost use Rattle.cx_core.specs.Base.{LawfulBase};
ghost use Rattle.cx_core.specs.Region.{slot_number};
ghost use Rattle.recovery.specs.Images.{Gives};
ghost use Rattle.recovery.specs.Recovery.{NumbersWithin};
ghost use Rattle.c_images.specs.Words.{IsSaid, IsTakenUp, IsWordsFault, SaysReadable, format_in, word_from};
ghost use Rattle.c_images.specs.declared.reader.WordsFault.TheVariants.{Numbers};

use crate::head::{HEAD, Head, ONE_REGION};
use crate::taken::base_words;
use cx_base::{Items, Object, root_replica};
use cx_core::{Base, Image, slot_start};
use recovery::{ImageFault, recover};
use std::alloc::{AllocError, Global};

/// Why nothing is taken up from words.
#[derive(Clone, Copy, Debug, PartialEq, Eq, Drop)]
pub enum WordsFault {
    /// The words do not begin with the head of an image.
    Head,
    /// The words begin with the head of an image of another kind of object: of kind `found`.
    Kind { found: u64 },
    /// Recovery refuses the image, or memory ran out.
    Image(ImageFault),
    /// A result has a number above the image's place.
    Numbers,
}

/// The base in `words` with this `head`, from which a service of `object` may start; the object has as many lines as the head says. A refusal names
/// the first check that the words do not pass.
pub fn base_of<O: Object>(
    alloc: Global,
    object: &O,
    words: &[u64],
    head: Head,
) -> Result<Base, WordsFault>
    requires head { IsSaid words.now head }
    requires lines { head.lines ≡ O.line_count object.now }
    ensures answered { MatchResult result
        (IsTakenUp (O.version_number object.now) (O.lawful object.now) (O.old_format object.now) words.now)
        (IsWordsFault (O.version_number object.now) (O.lawful object.now) (O.old_format object.now) words.now) }
    ensures lawful { IfOk result (LawfulBase (O.line_count object.now) (O.lawful object.now)) }
{
    let Ok(image) = image_of(alloc, words, head) else {
        return Err(WordsFault::Image(ImageFault::Memory));
    };
    // recovery checks the image for this object; it does not look at whether a result's number is above the place
    match recover(alloc, object, &image) {
        Ok(base) => within(base),
        Err(fault) => Err(WordsFault::Image(fault)),
    }
}

/// The image in `words` with this `head`, in whichever of the two formats they are. `Err` is out of memory.
fn image_of(alloc: Global, words: &[u64], head: Head) -> Result<Image, AllocError>
    requires { IsSaid words.now head }
    ensures { IfOk result (SaysReadable words.now head.lines) }
{
    if head.format == ONE_REGION {
        region_image(alloc, words, head)
    } else {
        replicas_image(alloc, words, head)
    }
}

/// The image in `words` of format 1, which has the words of all replicas after the head. `Err` is out of memory.
fn replicas_image(alloc: Global, words: &[u64], head: Head) -> Result<Image, AllocError>
    requires said { IsSaid words.now head }
    requires format { format_in words.now ≡ 1 }
    ensures { IfOk result (SaysReadable words.now head.lines) }
{
    let pairs = pairs_from(alloc, words, 0)?;
    Ok(Image {
        callers: head.callers,
        lines: head.lines,
        count: (words.len() - HEAD) as u64,
        root: head.root,
        pairs: Items::of(pairs),
    })
}

/// The image in `words` of format 2, which has the words of one replica after the head: they are taken as those of the replica that the root names.
/// Recovery looks at no other replica, so pairs for the others take no memory. `Err` is out of memory.
fn region_image(alloc: Global, words: &[u64], head: Head) -> Result<Image, AllocError>
    requires said { IsSaid words.now head }
    requires format { format_in words.now ≡ 2 }
    ensures { IfOk result (SaysReadable words.now head.lines) }
{
    let region = base_words(head.lines);
    // where the replica begins in the words of all replicas
    let start = region * u64::from(root_replica(head.callers, head.root));
    let pairs = pairs_from(alloc, words, start)?;
    Ok(Image {
        callers: head.callers,
        lines: head.lines,
        count: (words.len() - HEAD) as u64 + region * (2 * u64::from(head.callers) - 1),
        root: head.root,
        pairs: Items::of(pairs),
    })
}

/// Pairs of an address and a word, for the words after the head that are not 0. The first word after the head has the address `start`. `Err` is out
/// of memory.
fn pairs_from(alloc: Global, words: &[u64], start: u64) -> Result<Vec<(u64, u64)>, AllocError>
    requires enough { 8 ≤ length words.now }
    requires start { start ≤ 2 ^ 32 }
    ensures { IfOk result (λ pairs. Gives (word_from start words.now) (start + (length words.now - 8)) pairs.items) }
{
    let mut pairs = Vec::new(alloc);
    for at in 0..words.len() - HEAD {
        let word = words[at + HEAD];
        if word != 0 {
            pairs.push((start + at as u64, word))?;
        }
    }
    Ok(pairs)
}

/// The base, where no number of its results is above its place; else the fault `Numbers`. A result's number is that of its caller's last entry
/// applied.
fn within(base: Base) -> Result<Base, WordsFault>
    ensures { MatchResult result (λ same. (same ≡ base) × NumbersWithin base) (λ fault. (fault ≡ Numbers) × (¬ NumbersWithin base)) }
{
    if has_numbers_within(&base) {
        Ok(base)
    } else {
        Err(WordsFault::Numbers)
    }
}

/// Whether no number of a base's results is above its place. A base has a result for each of 8 callers.
fn has_numbers_within(base: &Base) -> bool
    ensures { IsTrue result ↔ NumbersWithin base.now }
{
    for caller in 0..8 {
        if number_of(base, caller) > base.place {
            return false;
        }
    }
    true
}

/// The number of the caller's result in a base: that of its last entry applied, and 0 where the base has no such word.
fn number_of(base: &Base, caller: u32) -> u64
    requires { caller < 8 }
    ensures { result ≡ slot_number caller base.now.words }
{
    match base.words.as_slice().get(slot_start(caller) as usize) {
        Some(number) => *number,
        None => 0,
    }
}

//! The three kinds of line.

ghost use Rattle.std.specs.Prelude.{◌≡◌};
ghost use Rattle.image_text.specs.Reading.{fitting, image_head_behind, image_head_of, image_head_within, is_above, two_numbers_of, pair_of, root_of};

use crate::lines::ImageHead;
use plain_text::{is_word, number_of, split_word};

const MOST_CALLERS: u64 = 8;

/// The fewest and the most lines that an object may have.
const MIN_LINES: u64 = 64;

const MAX_LINES: u64 = 16_384;

/// The first line: `image N L W`.
#[tactic(auto, unfolding(crate::specs::Reading::image_head_of))]
pub(crate) fn read_head(line: &[u8]) -> Option<ImageHead>
    ensures { result ≡ image_head_of line.now }
{
    let (word, numbers) = split_word(line);
    if !is_word(b"image", word) {
        return None;
    }
    read_head_behind(numbers?)
}

/// Reads the head of an image from the number of callers on.
#[tactic(auto, unfolding(crate::specs::Reading::image_head_behind))]
fn read_head_behind(text: &[u8]) -> Option<ImageHead>
    ensures { result ≡ image_head_behind text.now }
{
    let (callers, sizes) = split_word(text);
    let callers = number_of(callers)?;
    let (lines, count) = read_numbers(sizes?)?;
    head_within(callers, lines, count)
}

/// The numbers of a first line, where they are within their limits.
fn head_within(callers: u64, lines: u64, count: u64) -> Option<ImageHead>
    ensures { result ≡ image_head_within callers lines count }
{
    if 1 <= callers && callers <= MOST_CALLERS && MIN_LINES <= lines && lines <= MAX_LINES {
        Some(ImageHead {
            callers: callers as u32,
            lines,
            count,
        })
    } else {
        None
    }
}

/// Two numbers with a space between them.
#[tactic(auto, unfolding(crate::specs::Reading::two_numbers_of))]
fn read_numbers(text: &[u8]) -> Option<(u64, u64)>
    ensures { result ≡ two_numbers_of text.now }
{
    let (first, second) = split_word(text);
    let first = number_of(first)?;
    let second = number_of(second?)?;
    Some((first, second))
}

/// The second line: `root CODE`.
#[tactic(auto, unfolding(crate::specs::Reading::root_of))]
pub(crate) fn read_root(line: &[u8]) -> Option<u64>
    ensures { result ≡ root_of line.now }
{
    let (word, root) = split_word(line);
    if !is_word(b"root", word) {
        return None;
    }
    number_of(root?)
}

/// A further line: `AT V`, where it may stand behind these pairs of an image of `count` words.
#[tactic(auto, unfolding(crate::specs::Reading::pair_of))]
pub(crate) fn read_pair(pairs: &[(u64, u64)], count: u64, line: &[u8]) -> Option<(u64, u64)>
    ensures { result ≡ pair_of pairs.now count line.now }
{
    fitting(pairs, count, read_numbers(line)?)
}

/// The pair, where it may stand behind these.
fn fitting(pairs: &[(u64, u64)], count: u64, pair: (u64, u64)) -> Option<(u64, u64)>
    ensures { result ≡ fitting pairs.now count pair }
{
    if is_above(pairs, pair.0) && pair.0 < count && 0 < pair.1 {
        Some(pair)
    } else {
        None
    }
}

/// Whether an address is above that of the last pair.
#[tactic(auto, using(crate::proofs::LastPairs::slice_get_last))]
fn is_above(pairs: &[(u64, u64)], at: u64) -> bool
    ensures { result ≡ is_above pairs.now at }
{
    match pairs.last() {
        Some((before, _)) => *before < at,
        None => true,
    }
}

//! Keys and documents as packed words, and how keys are ordered.

ghost use Rattle.std.specs.Prelude.{◌≡◌, ◌≢◌, ◌*◌, ◌/◌, ◌%◌, ◌^◌, ◌<◌, ◌≤◌, ℕ, List, MatchOption, slice_index};
ghost use Rattle.std.specs.Ordering.{nat_cmp};
ghost use Rattle.cx_base.specs.Packing.{byte_at, unpacked};
ghost use Rattle.cx_base.specs.Store.{key_cmp};
ghost use Rattle.word_index.specs.Packed.{IsPacked};

use std::cmp::Ordering;

/// A key: its length in bytes, at most 64, and its bytes packed, unused bytes 0.
#[derive(Clone, Copy, Debug, PartialEq, Eq)]
pub struct Key {
    pub len: u64,
    pub words: [u64; 8],
    pub ghost short: { len ≤ 64 },
}

/// A document where it stands: its length in bytes, at most 1,024, and its bytes packed in 128 words, unused bytes 0.
#[derive(Clone, Copy, Debug)]
pub struct Doc<'a> {
    pub len: u64,
    pub words: &'a [u64],
    pub ghost packed: { IsPacked 128 len words.now },
}

/// The first byte at which two words differ.
fn first_apart(left: u64, right: u64) -> u64
    requires { left ≢ right }
    ensures below { result < 8 }
    ensures alike { (k : ℕ) → k < result → left / 2 ^ (8 * k) % 256 ≡ right / 2 ^ (8 * k) % 256 }
    ensures apart { left / 2 ^ (8 * result) % 256 ≢ right / 2 ^ (8 * result) % 256 }
{
    (left ^ right).trailing_zeros() as u64 / 8
}

/// How keys of these lengths compare whose words before one place are the same, and these there, which differ.
pub fn order_apart(at: usize, left: u64, right: u64, left_len: u64, right_len: u64) -> Ordering
    requires at { at < 8 }
    requires apart { left ≢ right }
    ensures { (these those : List ℕ) → ((k : ℕ) → k < at → slice_index these k ≡ slice_index those k) → slice_index these at ≡ left → slice_index those at ≡ right
        → result ≡ key_cmp (unpacked left_len these) (unpacked right_len those) }
{
    let byte = first_apart(left, right);
    if 8 * at as u64 + byte < left_len.min(right_len) {
        let mine = (left >> (8 * byte)) % 256;
        let other = (right >> (8 * byte)) % 256;
        mine.cmp(&other)
    } else {
        left_len.cmp(&right_len)
    }
}

/// How a key compares with another whose words before one place are the same, and these there, which differ. Bytes behind the key's
/// end are 0. `None` comes where the other has ended before they differ, so that the lengths tell.
pub fn early_order(at: usize, left: u64, right: u64, right_len: u64) -> Option<Ordering>
    requires at { at < 8 }
    requires apart { left ≢ right }
    ensures { (these those : List ℕ) (len : ℕ) → ((k : ℕ) → len ≤ k → k < 64 → byte_at these k ≡ 0) → ((k : ℕ) → k < at → slice_index these k ≡ slice_index those k) → slice_index these at ≡ left → slice_index those at ≡ right
        → MatchOption result (nat_cmp len right_len ≡ key_cmp (unpacked len these) (unpacked right_len those)) (λ order. order ≡ key_cmp (unpacked len these) (unpacked right_len those)) }
{
    let byte = first_apart(left, right);
    if 8 * at as u64 + byte < right_len {
        let mine = (left >> (8 * byte)) % 256;
        let other = (right >> (8 * byte)) % 256;
        Some(mine.cmp(&other))
    } else {
        None
    }
}

//! Images made by hand.

ghost use Rattle.std.specs.Prelude.{◌<◌, All, IfOk, IsTrue, ℕ};
ghost use Rattle.recovery.specs.Images.{IsReadable, RiseFrom};

use cx_base::Items;
use recovery::Image;
use std::alloc::{AllocError, Global};

// Whether the addresses of pairs rise below an end.
fn rise_below(pairs: &[(u64, u64)], end: u64) -> bool
    ensures { IsTrue result → RiseFrom 0 pairs.now × All (λ (p : ℕ × ℕ). p.0 < end) pairs.now }
{
    let mut from = 0;
    for (at, _) in pairs {
        if *at < from || *at >= end {
            return false;
        }
        from = *at + 1;
    }
    true
}

// An image of an object of 64 lines, as it is written down: its callers, its number of words, its root, and its pairs.
pub(crate) type Written = (u32, u64, u64, &'static [(u64, u64)]);

// The image that is written down. `Err`: memory runs out, the number of callers is not 1 to 8, or the addresses of the pairs do not rise below the number
// of words.
pub(crate) fn image_of(alloc: Global, written: &Written) -> Result<Image, AllocError>
    ensures { IfOk result (IsReadable 64) }
{
    let (callers, count, root, pairs) = *written;
    if callers < 1 || callers > 8 || !rise_below(pairs, count) {
        return Err(AllocError);
    }
    let pairs = Items::of(Vec::from_slice(alloc, pairs)?);
    Ok(Image {
        callers,
        lines: 64,
        count,
        root,
        pairs,
    })
}

/// The region of replica 1 at place 1 in version 1, whose store has the document 1 under the key a.
pub(crate) const DOCUMENT: [(u64, u64); 14] = [
    (1680, 1),
    (1688, 1),
    (1689, 1),
    (2848, 1),
    (2849, 1),
    (2851, 4),
    (2853, 1),
    (2858, 1),
    (2859, 2),
    (2860, 1),
    (2861, 3),
    (2862, 1),
    (2865, 97),
    (2873, 49),
];

//! A base is written into words, as an image of one region.

ghost use Rattle.std.specs.Prelude.{◌≡◌, ◌+◌, ◌≤◌, ◌^◌, drop, length, take};
ghost use Rattle.cx_core.specs.Region.{region_words};
ghost use Rattle.c_images.specs.Taken.{IsWrittenOf};

use crate::head::{HEAD, NAME, ONE_REGION};
use cx_base::root_code;
use cx_core::{HEAD_LINES, LINE_WORDS};

/// How many words the region of an object of this many `lines` has: the object's lines and those of the region's head, 8 words each.
pub fn base_words(lines: u64) -> u64
    requires { lines ≤ 16384 }
    ensures { result ≡ region_words lines }
{
    LINE_WORDS * (HEAD_LINES + lines)
}

/// How many words an image of one region has, for an object of this many `lines`: the head's, and the region's.
pub fn base_image_words(lines: u64) -> u64
    requires { lines ≤ 16384 }
    ensures { result ≡ region_words lines + 8 }
{
    base_words(lines) + HEAD as u64
}

/// Makes `words`, in which a region stands after 8 words, an image of that region, of format 2: it writes the head in the first 8 words. `kind` is
/// the kind of the object, `callers` is how many callers the service has, and the root names the first replica at this `place`.
pub fn write_base(kind: u64, callers: u32, lines: u64, place: u64, words: &mut [u64])
    requires callers { (1 ≤ callers) × (callers ≤ 8) }
    requires lines { lines ≤ 16384 }
    requires place { place ≤ 2 ^ 40 }
    requires long { length words.old ≡ region_words lines + 8 }
    ensures { IsWrittenOf kind callers lines place (take (region_words lines) (drop 8 words.old)) words.new }
{
    words[0] = NAME;
    words[1] = ONE_REGION;
    words[2] = kind;
    words[3] = u64::from(callers);
    words[4] = lines;
    words[5] = root_code(callers, place, 0);
    words[6] = 0;
    words[7] = 0;
}

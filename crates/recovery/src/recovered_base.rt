//! Recovery from an image.

ghost use Rattle.std.specs.Prelude.{◌≤◌, IfOk, MatchResult, length};
ghost use Rattle.cx_base.specs.Memory.{Words};
ghost use Rattle.cx_core.specs.Base.{LawfulBase};
ghost use Rattle.recovery.specs.Images.{IsReadable};
ghost use Rattle.recovery.specs.Recovery.{HasLawfulRegion, IsFaultOf, IsRecovered, IsRegionFault, NumbersWithin};

use crate::region::{has_lawful_results, image_len, object_words, read_region};
use crate::versions::{is_known, is_lawful, upgraded};
use cx_base::{Items, Object, root_place};
use cx_core::{Base, Image};
use std::alloc::Global;

/// A place is at most this number.
const PLACE_MOST: u64 = 1 << 40;

/// Why nothing is recovered from an image: the first check that it does not pass, or out of memory.
#[derive(Clone, Copy, Debug, PartialEq, Eq, Drop)]
pub enum ImageFault {
    /// The image has not as many words as all replicas; the number that it has.
    Size { found: u64 },
    /// The root's place is above 2^40; the root.
    Root { found: u64 },
    /// The first word of the region's object part is neither the object's version nor the old one; that word.
    Version { found: u64 },
    /// The region's place word is not the root's place; both.
    Place { root: u64, region: u64 },
    /// The results are not lawful, or the object part is not for its version.
    Body,
    /// Out of memory, which may come in place of any of them.
    Memory,
}

/// The base that an image gives for an object: the region that the image's root names, at the root's place. An object part of the old
/// version is upgraded, which leaves the place and the results. A refusal names the first check that the image does not pass, in the
/// order of `ImageFault`. The base is one from which a service may start where no number of its results is above its place, as it is in
/// what services leave.
///
/// No image of a closed service is refused. From `crates/service_parts/src/kept_base.rt`:
/// ```rattle
/// let image = crash_image(alloc, remains, choice)?;
/// match recover(alloc, object, &image) {
///     Ok(base) => Ok(base),
///     Err(ImageFault::Memory) => Err(AllocError),
///     Err(_) => unreachable!(),
/// }
/// ```
pub fn recover<O: Object>(alloc: Global, object: &O, image: &Image) -> Result<Base, ImageFault>
    requires { IsReadable (O.line_count object.now) image.now }
    ensures recovers { MatchResult result
        (IsRecovered (O.version_number object.now) (O.lawful object.now) (O.old_format object.now) image.now)
        (IsFaultOf (O.version_number object.now) (O.lawful object.now) (O.old_format object.now) image.now) }
    ensures lawful { IfOk result (λ base. NumbersWithin base → LawfulBase (O.line_count object.now) (O.lawful object.now) base) }
{
    if image.count != image_len(image.callers, image.lines) {
        return Err(ImageFault::Size { found: image.count });
    }
    let place = root_place(image.callers, image.root);
    if place > PLACE_MOST {
        return Err(ImageFault::Root { found: image.root });
    }
    let Ok(words) = read_region(alloc, image) else {
        return Err(ImageFault::Memory);
    };
    check_region(alloc, object, place, &words)?;
    Ok(Base {
        place,
        words: Items::of(upgraded(object, words)),
    })
}

/// Checks a region that a root names at a place.
fn check_region<O: Object>(
    alloc: Global,
    object: &O,
    place: u64,
    words: &[u64],
) -> Result<(), ImageFault>
    requires { 1169 ≤ length words.now }
    ensures words { Words (length words.now) words.now }
    ensures checks { MatchResult result
        (λ _. HasLawfulRegion (O.version_number object.now) (O.lawful object.now) (O.old_format object.now) place words.now)
        (IsRegionFault (O.version_number object.now) (O.lawful object.now) (O.old_format object.now) place words.now) }
{
    let part = object_words(words);
    let version = part[0];
    if !is_known(object, version) {
        return Err(ImageFault::Version { found: version });
    }
    let region = words[0];
    if region != place {
        return Err(ImageFault::Place {
            root: place,
            region,
        });
    }
    let Ok(lawful) = is_lawful(alloc, object, part) else {
        return Err(ImageFault::Memory);
    };
    if !lawful {
        return Err(ImageFault::Body);
    }
    if !has_lawful_results(words) {
        return Err(ImageFault::Body);
    }
    Ok(())
}

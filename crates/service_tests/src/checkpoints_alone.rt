//! The region of the running sum alone, entry by entry.

use cx_base::tally::Tally;
use cx_core::{Base, OBJECT_START, slot_start};
use std::alloc::{AllocError, Global};

/// An entry: its caller, and what it adds.
pub(crate) type Added = (u32, u64);

/// An image: its place, and its words.
pub(crate) type Image = (u64, Vec<u64>);

/// The words of a region of the running sum.
pub(crate) const WORDS: usize = 1680;

/// The words of the first region of the running sum.
pub(crate) fn first_region(alloc: Global) -> Result<Vec<u64>, AllocError> {
    let base = Base::fresh(alloc, &Tally)?;
    Ok(base.words.into_vec())
}

fn word(region: &[u64], at: u64) -> u64 {
    match region.get(at as usize) {
        Some(found) => *found,
        None => 0,
    }
}

fn put(region: &mut [u64], at: u64, word: u64) {
    if let Some(place) = region.get_mut(at as usize) {
        *place = word;
    }
}

// One entry more: the place, the sum, and the number and the reply of its caller.
fn step(region: &mut [u64], added: Added) {
    let (caller, amount) = added;
    if caller >= 8 {
        return;
    }
    let slot = slot_start(caller);
    let sum = word(region, OBJECT_START + 1).wrapping_add(amount);
    let place = word(region, 0).wrapping_add(1);
    let number = word(region, slot).wrapping_add(1);
    put(region, 0, place);
    put(region, OBJECT_START + 1, sum);
    put(region, slot, number);
    put(region, slot + 1, sum);
}

/// Whether images, whose places do not fall, are the region after the entries below their places. Returns false where an
/// entry below one of the places is missing.
pub(crate) fn are_images(region: &mut [u64], entries: &[Option<Added>], images: &[Image]) -> bool {
    let mut at = 0u64;
    for (place, words) in images {
        for ticket in at..*place {
            match entries.get(ticket as usize) {
                Some(Some(added)) => step(region, *added),
                _ => return false,
            }
        }
        at = *place;
        if words.as_slice() != &region[..] {
            return false;
        }
    }
    true
}

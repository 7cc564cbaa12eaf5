//! What guards on the words of replicas ask of a caller's local state.

ghost use Rattle.std.specs.Prelude.{◌≡◌, ◌*◌, ◌<◌, ◌↔◌, length, IsTrue, slice_index, ◌==◌, false};
ghost use Rattle.std.specs.List.{Contains};
ghost use Rattle.cx_core.specs.Layout.{word_count};
ghost use Rattle.cx_core.specs.RegionEvents.{CanLoad, CanLoadAs, CanPersist, CanStore, ShowsOutdated};
ghost use Rattle.cx_core.specs.Rights.{exclusive_on, held_dirty, held_words, shared_on};

use crate::callers::Callers;
use crate::locks::{exclusive_on, is_at, is_fresh_on, shared_on};
use cx_base::root_place;
use cx_core::layout::{replica_count, vol_at};
use cx_core::{Base, Local};

/// The number of words of a region.
pub fn region_len(base: &Base) -> u64
    ensures { result ≡ length base.now.words }
{
    base.words.as_slice().len() as u64
}

/// Whether a caller may load word `i` of replica `r`, which it has to hold exclusively or shared.
pub fn can_load(callers: Callers, base: &Base, local: &Local, r: u64, i: u64) -> bool
    ensures { IsTrue result ↔ CanLoad callers.number (length base.now.words) r i local.now }
{
    r < replica_count(callers.number)
        && i < region_len(base)
        && (is_at(r, exclusive_on(local)) || is_at(r, shared_on(local)))
}

/// Whether word `i` of replica `r`, which a caller may load, shows that the replica is outdated.
pub fn shows_outdated(
    callers: Callers,
    base: &Base,
    words: &[u64],
    local: &Local,
    r: u64,
    i: u64,
) -> bool
    requires long { length words.now ≡ word_count callers.number (length base.now.words) }
    requires r { r < 2 * callers.number }
    requires i { i < length base.now.words }
    ensures { IsTrue result ↔ ShowsOutdated callers.number (length base.now.words) words.now r i local.now }
{
    i == 0
        && is_at(r, shared_on(local))
        && is_fresh_on(callers, r, local)
        && words[vol_at(callers.number, region_len(base), r, i)]
            != root_place(callers.number, local.seen_cur)
}

/// Whether a caller may load word `i` of replica `r`, and mark the load as a refusal where `refused` is set.
pub fn can_load_as(
    callers: Callers,
    base: &Base,
    words: &[u64],
    local: &Local,
    r: u64,
    i: u64,
    refused: bool,
) -> bool
    requires long { length words.now ≡ word_count callers.number (length base.now.words) }
    ensures { IsTrue result ↔ CanLoadAs refused callers.number (length base.now.words) words.now r i local.now }
{
    can_load(callers, base, local, r, i)
        && (!refused || shows_outdated(callers, base, words, local, r, i))
}

/// Whether a caller may store to word `i` of replica `r`, which it has to hold exclusively.
pub fn can_store(callers: Callers, base: &Base, local: &Local, r: u64, i: u64) -> bool
    ensures { IsTrue result ↔ CanStore callers.number (length base.now.words) r i local.now }
{
    r < replica_count(callers.number) && i < region_len(base) && is_at(r, exclusive_on(local))
}

/// Whether word `i` is dirty in the replica held exclusively.
pub fn is_dirty(local: &Local, i: u64) -> bool
    ensures { IsTrue result ↔ Contains (held_dirty local.now.exclusive) i }
{
    match &local.exclusive {
        None => false,
        Some(held) => held.dirty.as_slice().contains(&i),
    }
}

/// Whether a caller may persist word `i` of replica `r`, which has to be dirty.
pub fn can_persist(callers: Callers, base: &Base, local: &Local, r: u64, i: u64) -> bool
    ensures { IsTrue result ↔ CanPersist callers.number (length base.now.words) r i local.now }
{
    can_store(callers, base, local, r, i) && is_dirty(local, i)
}

/// Word `i` of the replica held exclusively.
pub fn held_word(local: &Local, i: u64) -> u64
    ensures { result ≡ slice_index (held_words local.now.exclusive) i }
{
    match &local.exclusive {
        None => 0,
        Some(held) => held.words.as_slice().get(i as usize).copied().unwrap_or(0),
    }
}

//! The steps on the words of replicas: words are loaded, stored and persisted.

ghost use Rattle.std.specs.Prelude.{◌≡◌, length, ◌==◌, true, false};
ghost use Rattle.cx_core.specs.declared.kinds.Kind.TheVariants.{LoadWord, StoreWord, Persist};
ghost use Rattle.core_events.specs.Tries.{TriesEvent};
ghost use Rattle.cx_core.specs.Events.{Did};
ghost use Rattle.cx_core.specs.Layout.{word_count};
ghost use Rattle.cx_core.specs.RegionEvents.{loaded_by, loaded_into, persisted, stored_into};
ghost use Rattle.cx_core.specs.State.{EachScene};

use crate::lock_events::push_once;
use core_guards::callers::Callers;
use core_guards::regions::{can_load_as, can_persist, can_store, held_word, region_len};
use cx_base::Items;
use cx_core::layout::{per_at, vol_at};
use cx_core::{Base, HeldExclusive, HeldShared, Local};
use std::alloc::{AllocError, Global};
use std::mem;

/// Whether a caller may load word `i` of replica `r`, as a refusal where `refused` is set; if so the step is counted, and the word found is noted of a
/// replica held shared. `Err` says that memory ran out, and nothing changed.
pub(crate) fn load_word(
    callers: Callers,
    base: &Base,
    words: &[u64],
    local: &mut Local,
    r: u64,
    i: u64,
    refused: bool,
) -> Result<bool, AllocError>
    requires long { length words.now ≡ word_count callers.number (length base.now.words) }
    ensures { TriesEvent result (λ made. EachScene callers.number base.now words.now (λ instance scene. Did made instance scene (LoadWord r i refused) local.old local.new words.now)) (local.new ≡ local.old) }
{
    if !can_load_as(callers, base, words, local, r, i, refused) {
        return Ok(false);
    }
    let found = words[vol_at(callers.number, region_len(base), r, i)];
    learn(local, r, i, refused, found)?;
    Ok(true)
}

/// What a caller learns by a load of word `i` of replica `r`. `Err` says that memory ran out, and nothing changed.
fn learn(local: &mut Local, r: u64, i: u64, refused: bool, found: u64) -> Result<(), AllocError>
    ensures { TriesEvent result (λ _. local.new ≡ loaded_by r i refused local.old found) (local.new ≡ local.old) }
{
    if let Some(held) = &mut local.shared {
        note(held, r, i, found)?;
    }
    if refused {
        local.met = local.met.saturating_add(1);
        local.fresh = false;
    }
    local.steps = local.steps.saturating_add(1);
    Ok(())
}

/// Adds word `i` to what was loaded of a replica held shared, where that is replica `r`. `Err` says that memory ran out, and nothing changed.
fn note(held: &mut HeldShared, r: u64, i: u64, found: u64) -> Result<(), AllocError>
    ensures { TriesEvent result (λ _. held.new ≡ loaded_into r i found held.old) (held.new ≡ held.old) }
{
    if held.replica == r {
        held.loaded.push((i, found))?;
    }
    Ok(())
}

/// Whether a caller may store to word `i` of replica `r`; if so the word `v` is stored there, which is dirty from here on. `Err` says that memory ran out,
/// and nothing changed.
pub(crate) fn store_word(
    alloc: Global,
    callers: Callers,
    base: &Base,
    words: &mut [u64],
    local: &mut Local,
    r: u64,
    i: u64,
    v: u64,
) -> Result<bool, AllocError>
    requires long { length words.old ≡ word_count callers.number (length base.now.words) }
    ensures { TriesEvent result (λ made. EachScene callers.number base.now words.old (λ instance scene. Did made instance scene (StoreWord r i v) local.old local.new words.new)) ((local.new ≡ local.old) × (words.new ≡ words.old)) }
{
    if !can_store(callers, base, local, r, i) {
        return Ok(false);
    }
    let at = vol_at(callers.number, region_len(base), r, i);
    if let Some(held) = &mut local.exclusive {
        put(alloc, held, i, v)?;
    }
    words[at] = v;
    local.steps = local.steps.saturating_add(1);
    Ok(true)
}

/// Stores `v` as word `i` of the replica held exclusively. `Err` says that memory ran out, and nothing changed.
fn put(alloc: Global, held: &mut HeldExclusive, i: u64, v: u64) -> Result<(), AllocError>
    ensures { TriesEvent result (λ _. held.new ≡ stored_into i v held.old) (held.new ≡ held.old) }
{
    push_once(&mut held.dirty, i)?;
    let mut words = mem::replace(&mut held.words, Items::new(alloc)).into_vec();
    if let Some(word) = words.get_mut(i as usize) {
        *word = v;
    }
    held.words = Items::of(words);
    Ok(())
}

/// Whether a caller may persist word `i` of replica `r`, which has to be dirty; if so the word is written back to the medium, and is not dirty any more.
pub(crate) fn persist(
    alloc: Global,
    callers: Callers,
    base: &Base,
    words: &mut [u64],
    local: &mut Local,
    r: u64,
    i: u64,
) -> bool
    requires long { length words.old ≡ word_count callers.number (length base.now.words) }
    ensures { EachScene callers.number base.now words.old (λ instance scene. Did result instance scene (Persist r i) local.old local.new words.new) }
{
    if !can_persist(callers, base, local, r, i) {
        return false;
    }
    words[per_at(callers.number, region_len(base), r, i)] = held_word(local, i);
    if let Some(held) = &mut local.exclusive {
        clean(alloc, held, i);
    }
    local.steps = local.steps.saturating_add(1);
    true
}

/// Takes word `i` out of the dirty ones of the replica held exclusively.
fn clean(alloc: Global, held: &mut HeldExclusive, i: u64)
    ensures { held.new ≡ persisted i held.old }
{
    let mut dirty = mem::replace(&mut held.dirty, Items::new(alloc)).into_vec();
    dirty.retain(|x| *x != i);
    held.dirty = Items::of(dirty);
}

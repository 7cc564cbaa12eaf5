//! The steps on lock words: a replica is tried, exclusively or shared, released, downgraded or backed off from.

ghost use Rattle.std.specs.Prelude.{◌≡◌, ◌+◌, ◌-◌, ◌*◌, ◌<◌, ◌≤◌, ◌↔◌, length, take, IsTrue, IfOk};
ghost use Rattle.core_events.specs.Tables.{HasRegions, HasTableWords};
ghost use Rattle.cx_core.specs.declared.kinds.Kind.TheVariants.{TryExclusive, TryShared, BackOff, Downgrade, ReleaseExclusive};
ghost use Rattle.core_events.specs.Tries.{TriesEvent};
ghost use Rattle.cx_core.specs.Events.{Did};
ghost use Rattle.cx_core.specs.History.{IsFull};
ghost use Rattle.cx_core.specs.Layout.{lock_at, replica_words, word_count};
ghost use Rattle.cx_core.specs.LockEvents.{backed_off, downgraded_to, has_all, is_fresh_on, passing, refused_by, shared_by, taken, with_number};
ghost use Rattle.cx_core.specs.Rights.{held_words, is_at, shared_on};
ghost use Rattle.cx_core.specs.State.{EachScene};

use core_guards::callers::Callers;
use core_guards::locks::{
    can_back_off, can_try_exclusive, can_try_shared, has_all, held_place, is_at, is_clean, is_free,
    is_fresh_on, shared_on,
};
use cx_base::Items;
use cx_core::layout::{EXCLUSIVE_MARK, lock_at, vol_at};
use cx_core::{Base, HeldDowngraded, HeldExclusive, HeldShared, Local, OBJECT_START, SeenLock};
use std::alloc::{AllocError, Global};

/// Adds a number to a list, unless it is in it. `Err` says that memory ran out, and leaves the list as it was.
pub(crate) fn push_once(numbers: &mut Items<u64>, n: u64) -> Result<(), AllocError>
    ensures { TriesEvent result (λ _. numbers.new ≡ with_number numbers.old n) (numbers.new ≡ numbers.old) }
{
    if numbers.as_slice().contains(&n) {
        return Ok(());
    }
    numbers.push(n)
}

/// Whether a caller may try to take replica `r` exclusively; if so it tries, by a compare-exchange of the lock word from 0, and takes the replica or is
/// refused. `Err` says that memory ran out, and nothing changed.
pub(crate) fn try_exclusive(
    alloc: Global,
    callers: Callers,
    base: &Base,
    words: &mut [u64],
    local: &mut Local,
    r: u64,
) -> Result<bool, AllocError>
    requires regions { HasRegions callers.number base.now words.old }
    ensures { TriesEvent result (λ made. EachScene callers.number base.now words.old (λ instance scene. Did made instance scene (TryExclusive r) local.old local.new words.new)) ((local.new ≡ local.old) × (words.new ≡ words.old)) }
{
    if !can_try_exclusive(callers, local, r) {
        return Ok(false);
    }
    let at = lock_at(callers.number, r);
    let found = words[at];
    if is_free(found) {
        take(alloc, callers, base, words, local, r)?;
        words[at] = EXCLUSIVE_MARK;
    } else {
        refuse(alloc, callers, local, r, found)?;
    }
    Ok(true)
}

/// What a caller learns by an exclusive try of replica `r` that found 0: the replica's words are its own from here on. `Err` says that memory ran out, and
/// nothing changed.
fn take(
    alloc: Global,
    callers: Callers,
    base: &Base,
    words: &[u64],
    local: &mut Local,
    r: u64,
) -> Result<(), AllocError>
    requires regions { HasRegions callers.number base.now words.now }
    requires r { r < 2 * callers.number }
    ensures { TriesEvent result (λ _. EachScene callers.number base.now words.now (λ instance scene. local.new ≡ taken instance scene r local.old)) (local.new ≡ local.old) }
{
    let copy = words_of(alloc, callers, base, words, r)?;
    local.exclusive = Some(HeldExclusive {
        replica: r,
        words: copy,
        dirty: Items::new(alloc),
    });
    local.refused = Items::new(alloc);
    local.seen_lock = Some(SeenLock {
        replica: r,
        word: 0,
    });
    local.steps = local.steps.saturating_add(1);
    Ok(())
}

/// What a caller learns by an exclusive try of replica `r` that was refused. `Err` says that memory ran out, and nothing changed.
fn refuse(
    alloc: Global,
    callers: Callers,
    local: &mut Local,
    r: u64,
    found: u64,
) -> Result<(), AllocError>
    ensures { TriesEvent result (λ _. local.new ≡ refused_by callers.number r local.old found) (local.new ≡ local.old) }
{
    push_once(&mut local.refused, r)?;
    if has_all(callers, local.refused.as_slice()) {
        local.refused = Items::new(alloc);
        local.met = local.met.saturating_add(1);
    }
    local.seen_lock = Some(SeenLock {
        replica: r,
        word: found,
    });
    local.steps = local.steps.saturating_add(1);
    Ok(())
}

/// Whether a caller may try to take replica `r` shared; if so 1 is added to its lock word, which is a passer's mark where the replica was held exclusively.
pub(crate) fn try_shared(
    alloc: Global,
    callers: Callers,
    words: &mut [u64],
    local: &mut Local,
    r: u64,
) -> bool
    requires table { HasTableWords callers.number words.old }
    ensures { (base : _) → EachScene callers.number base words.old (λ instance scene. Did result instance scene (TryShared r) local.old local.new words.new) }
{
    if !can_try_shared(callers, local, r) {
        return false;
    }
    let at = lock_at(callers.number, r);
    let found = words[at];
    words[at] = found.wrapping_add(1);
    if found < EXCLUSIVE_MARK {
        share(alloc, local, r, found);
    } else {
        pass(callers, local, r, found);
    }
    true
}

/// What a caller learns by a shared try of replica `r` that found no exclusive mark.
fn share(alloc: Global, local: &mut Local, r: u64, found: u64)
    ensures { local.new ≡ shared_by r local.old found }
{
    local.seen_lock = Some(SeenLock {
        replica: r,
        word: found,
    });
    local.shared = Some(HeldShared {
        replica: r,
        loaded: Items::new(alloc),
    });
    local.steps = local.steps.saturating_add(1);
}

/// What a caller learns by a shared try of replica `r` that found an exclusive mark.
fn pass(callers: Callers, local: &mut Local, r: u64, found: u64)
    ensures { local.new ≡ passing callers.number r local.old found }
{
    if is_fresh_on(callers, r, local) {
        local.met = local.met.saturating_add(1);
        local.fresh = false;
    }
    local.seen_lock = Some(SeenLock {
        replica: r,
        word: found,
    });
    local.passer = Some(r);
    local.steps = local.steps.saturating_add(1);
}

/// Whether a caller may back off from replica `r`; if so it takes back the 1 that a shared try or a downgrade left of it in the lock word.
pub(crate) fn back_off(callers: Callers, words: &mut [u64], local: &mut Local, r: u64) -> bool
    requires table { HasTableWords callers.number words.old }
    ensures { (base : _) → EachScene callers.number base words.old (λ instance scene. Did result instance scene (BackOff r) local.old local.new words.new) }
{
    if !can_back_off(callers, local, r) {
        return false;
    }
    let at = lock_at(callers.number, r);
    words[at] = words[at].wrapping_sub(1);
    leave(local, r);
    true
}

/// What a caller's local state is after it backed off from replica `r`.
fn leave(local: &mut Local, r: u64)
    ensures { local.new ≡ backed_off r local.old }
{
    if is_at(r, shared_on(local)) {
        local.shared = None;
    } else if is_at(r, local.passer) {
        local.passer = None;
    } else {
        local.downgraded = None;
    }
    local.steps = local.steps.saturating_add(1);
}

/// Whether a caller may turn its exclusive right on replica `r` into a downgraded one; if so it does. `full` is whether the words held are the full image
/// after their place.
pub(crate) fn downgrade(
    callers: Callers,
    words: &mut [u64],
    local: &mut Local,
    r: u64,
    full: bool,
) -> bool
    requires table { HasTableWords callers.number words.old }
    ensures { (base : _) → EachScene callers.number base words.old (λ instance scene. (IsTrue full ↔ IsFull instance scene.history (held_words local.old.exclusive)) → Did result instance scene (Downgrade r) local.old local.new words.new) }
{
    if !full || !is_clean(callers, local, r) {
        return false;
    }
    let at = lock_at(callers.number, r);
    words[at] = words[at].wrapping_sub(EXCLUSIVE_MARK - 1);
    keep_place(local, r);
    true
}

/// What a caller's local state is after it downgraded replica `r`.
fn keep_place(local: &mut Local, r: u64)
    ensures { local.new ≡ downgraded_to r local.old }
{
    local.downgraded = Some(HeldDowngraded {
        replica: r,
        place: held_place(local),
    });
    local.exclusive = None;
    local.steps = local.steps.saturating_add(1);
}

/// Whether a caller may release its exclusive right on replica `r`; if so it does. `full` is whether the words held are the full image after their place.
pub(crate) fn release_exclusive(
    callers: Callers,
    words: &mut [u64],
    local: &mut Local,
    r: u64,
    full: bool,
) -> bool
    requires table { HasTableWords callers.number words.old }
    ensures { (base : _) → EachScene callers.number base words.old (λ instance scene. (IsTrue full ↔ IsFull instance scene.history (held_words local.old.exclusive)) → Did result instance scene (ReleaseExclusive r) local.old local.new words.new) }
{
    if !is_clean(callers, local, r) || !full {
        return false;
    }
    let at = lock_at(callers.number, r);
    words[at] = words[at].wrapping_sub(EXCLUSIVE_MARK);
    local.exclusive = None;
    local.steps = local.steps.saturating_add(1);
    true
}

/// The words of replica `r` as loads give them. `Err` says that memory ran out.
fn words_of(
    alloc: Global,
    callers: Callers,
    base: &Base,
    words: &[u64],
    r: u64,
) -> Result<Items<u64>, AllocError>
    requires long { length words.now ≡ word_count callers.number (length base.now.words) }
    requires slots { OBJECT_START ≤ length base.now.words }
    requires r { r < 2 * callers.number }
    ensures { IfOk result (λ copy. copy ≡ replica_words callers.number (length base.now.words) words.now r) }
{
    let len = base.words.as_slice().len();
    let from = vol_at(callers.number, len as u64, r, 0);
    Ok(Items::of(Vec::from_slice(alloc, &words[from..from + len])?))
}

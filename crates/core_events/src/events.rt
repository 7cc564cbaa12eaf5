//! One step of the core, executable: the guard of each kind, its step on one word, and the change of its caller's
//! local state.

ghost use Rattle.std.specs.Prelude.{◌≡◌, ◌<◌, ◌↔◌, slice_get, false, IsTrue, IfOk, OnErr, None, Some};
ghost use Rattle.core_events.specs.Tables.{HasRegions};
ghost use Rattle.core_events.specs.Codes.{HasCode};
ghost use Rattle.core_events.specs.StepFacts.{HasBaseAndCaller, Tells, TellsRaise, AllowsGapNote, TellsOfferWord};
ghost use Rattle.cx_core.specs.Base.{LawfulBase};
ghost use Rattle.core_events.specs.Tries.{TriesEvent};
ghost use Rattle.cx_core.specs.Events.{IsMadeOrRefused, Did};
ghost use Rattle.cx_core.specs.History.{IsFull};
ghost use Rattle.cx_core.specs.Merge.{scene_of};
ghost use Rattle.cx_core.specs.Rights.{held_words};
ghost use Rattle.cx_core.specs.State.{EachScene, instance_of};

use crate::gaps::is_gap_of;
use crate::images::is_full;
use crate::replies::{Acknowledged, replies_of};
use crate::sets::offered_word;
use crate::state::CoreState;
use crate::{
    gap_events, lock_events, queue_events, region_events, ring_events, root_events, set_events,
};
use core_guards::callers::Callers;
use cx_base::{Object, OpWords};
use cx_core::{Base, Event, Kind, Local, OBJECT_START};
use std::alloc::{AllocError, Global};

/// Whether an event of the core, one step of its caller, is allowed; if so it is made. `Ok(false)` comes exactly where it is not, and the state is as it
/// was. `Err` says that memory ran out, and leaves the state as it was. The time grows with the history only where an exclusive right is released, a raise
/// answers, a set is offered or a gap is noted, since the object's steps are then made from the base on, and with the lists that a step appends to or looks
/// through.
pub fn apply<O: Object>(
    alloc: Global,
    object: &O,
    state: &mut CoreState,
    event: &Event,
) -> Result<bool, AllocError>
    requires base { LawfulBase (O.line_count object.now) (O.lawful object.now) state.old.base }
    ensures ok { let instance = instance_of state.old (O.step object.now) (O.only_reads object.now) in IfOk result (λ made. IsMadeOrRefused made instance event.now state.old.state state.new.state) }
    ensures err { OnErr result (state.new.state ≡ state.old.state) }
    ensures fixed { state.new ≡ record state.old { state = state.new.state } }
{
    let caller = event.caller as usize;
    if caller >= state.locals.len() {
        return Ok(false);
    }
    let facts = tells(alloc, object, state, caller, &event.kind)?;
    let local = &mut state.locals[caller];
    step(
        alloc,
        state.callers,
        &state.base,
        &mut state.words,
        local,
        &event.kind,
        &facts,
    )
}

/// What a step has to know of the history: of a kind that ends an exclusive right, whether the words held are the full image
/// after their place; of a raise what it answers, and of an offer the offer word, where these are allowed; of a note of a gap
/// whether it is allowed.
#[derive(Drop)]
pub(crate) struct HistoryFacts {
    full: bool,
    answers: Option<Acknowledged>,
    offer: Option<u64>,
    gap: bool,
}

/// Whether the caller with this local state may make a step of this kind; if so the step is made. `facts` is what it has to know of the history. Where the
/// guard fails, which is `Ok(false)`, and where `Err` says that memory ran out, nothing changed.
fn step(
    alloc: Global,
    callers: Callers,
    base: &Base,
    words: &mut [u64],
    local: &mut Local,
    kind: &Kind,
    facts: &HistoryFacts,
) -> Result<bool, AllocError>
    requires regions { HasRegions callers.number base.now words.old }
    requires caller { local.old.number < callers.number }
    requires code { HasCode callers.number local.old.downgraded }
    ensures { TriesEvent result (λ made. EachScene callers.number base.now words.old (λ instance scene. Tells facts.now instance scene kind.now local.old → Did made instance scene kind.now local.old local.new words.new)) ((local.new ≡ local.old) × (words.new ≡ words.old)) }
{
    match *kind {
        Kind::WriteCell { j, i, v } => {
            Ok(queue_events::write_cell(callers, words, local, j, i, v))
        }
        Kind::Link { j } => queue_events::link(callers, base, words, local, j),
        Kind::Look { s } => Ok(queue_events::look(callers, words, local, s)),
        Kind::ReadCell { t, k, i } => Ok(queue_events::read_cell(callers, words, local, t, k, i)),
        Kind::LoadFree => Ok(queue_events::load_free(words, local)),
        Kind::TryExclusive { r } => {
            lock_events::try_exclusive(alloc, callers, base, words, local, r)
        }
        Kind::TryShared { r } => Ok(lock_events::try_shared(alloc, callers, words, local, r)),
        Kind::BackOff { r } => Ok(lock_events::back_off(callers, words, local, r)),
        Kind::Downgrade { r } => Ok(lock_events::downgrade(callers, words, local, r, facts.full)),
        Kind::ReleaseExclusive { r } => {
            Ok(lock_events::release_exclusive(callers, words, local, r, facts.full))
        }
        Kind::LoadWord { r, i, refused } => {
            region_events::load_word(callers, base, words, local, r, i, refused)
        }
        Kind::StoreWord { r, i, v } => {
            region_events::store_word(alloc, callers, base, words, local, r, i, v)
        }
        Kind::Persist { r, i } => {
            Ok(region_events::persist(alloc, callers, base, words, local, r, i))
        }
        Kind::LoadCur => Ok(root_events::load_cur(callers, words, local)),
        Kind::Publish => Ok(root_events::publish(callers, words, local)),
        Kind::Raise { code, read: _ } => {
            root_events::raise(alloc, callers, words, local, code, facts.answers)
        }
        Kind::Retire => Ok(root_events::retire(callers, words, local)),
        Kind::Protect { p } => Ok(ring_events::protect(callers, words, local, p)),
        Kind::Confirm => Ok(ring_events::confirm(callers, words, local)),
        Kind::Unprotect => Ok(ring_events::unprotect(callers, words, local)),
        Kind::CloseLow { target } => Ok(ring_events::close_low(callers, words, local, target)),
        Kind::Scan { d } => Ok(ring_events::scan(callers, words, local, d)),
        Kind::OpenFree => Ok(ring_events::open_free(callers, words, local)),
        Kind::WriteSet { j, i, v } => Ok(set_events::write_set(callers, words, local, j, i, v)),
        Kind::Offer { j } => Ok(set_events::offer(callers, words, local, j, facts.offer)),
        Kind::LoadOffer { k, t } => Ok(set_events::load_offer(callers, words, local, k, t)),
        Kind::ReadSet { k, t, i } => Ok(set_events::read_set(callers, words, local, k, t, i)),
        Kind::NoteGap { s, i, v } => {
            Ok(gap_events::note_gap(callers, words, local, s, i, v, facts.gap))
        }
        Kind::LoadGap { s, i } => Ok(gap_events::load_gap(callers, words, local, s, i)),
    }
}

/// What a step of a caller has to know of the history. `Err` says that memory ran out.
fn tells<O: Object>(
    alloc: Global,
    object: &O,
    state: &CoreState,
    caller: usize,
    kind: &Kind,
) -> Result<HistoryFacts, AllocError>
    requires { HasBaseAndCaller O.Object object.now state.now caller }
    ensures { let instance = instance_of state.now (O.step object.now) (O.only_reads object.now) in IfOk result (λ facts. (l : Local) → slice_get state.now.state.locals caller ≡ Some l → Tells facts instance (scene_of instance state.now.state) kind.now l) }
{
    match *kind {
        Kind::Downgrade { r: _ } => Ok(only_full(holds_full(alloc, object, state, caller)?)),
        Kind::ReleaseExclusive { r: _ } => {
            Ok(only_full(holds_full(alloc, object, state, caller)?))
        }
        Kind::Raise { code, read } => Ok(HistoryFacts {
            full: false,
            answers: answers_of(alloc, object, state, caller, code, &read)?,
            offer: None,
            gap: false,
        }),
        Kind::Offer { j } => Ok(HistoryFacts {
            full: false,
            answers: None,
            offer: offer_of(alloc, object, state, caller, j)?,
            gap: false,
        }),
        Kind::NoteGap { s, i, v } => Ok(HistoryFacts {
            full: false,
            answers: None,
            offer: None,
            gap: names_gap(alloc, object, state, s, i, v)?,
        }),
        _ => Ok(only_full(false)),
    }
}

/// What a step has to know that answers nothing, offers no set and notes no gap.
fn only_full(full: bool) -> HistoryFacts
    ensures { result ≡ record { full = full; answers = None; offer = None; gap = false } }
{
    HistoryFacts {
        full,
        answers: None,
        offer: None,
        gap: false,
    }
}

/// What a raise of a caller answers, where it is allowed. `Err` says that memory ran out.
fn answers_of<O: Object>(
    alloc: Global,
    object: &O,
    state: &CoreState,
    caller: usize,
    code: u64,
    read: &Option<OpWords>,
) -> Result<Option<Acknowledged>, AllocError>
    requires { HasBaseAndCaller O.Object object.now state.now caller }
    ensures { let instance = instance_of state.now (O.step object.now) (O.only_reads object.now) in IfOk result (λ answers. (l : Local) → slice_get state.now.state.locals caller ≡ Some l → TellsRaise answers instance (scene_of instance state.now.state) code read.now l) }
{
    let local = &state.locals[caller];
    replies_of(
        alloc,
        object,
        state.callers,
        &state.base,
        &state.locals,
        local,
        code,
        read,
    )
}

/// The word with which a caller offers the set in its cell, where it may. `Err` says that memory ran out.
fn offer_of<O: Object>(
    alloc: Global,
    object: &O,
    state: &CoreState,
    caller: usize,
    j: u64,
) -> Result<Option<u64>, AllocError>
    requires { HasBaseAndCaller O.Object object.now state.now caller }
    ensures { let instance = instance_of state.now (O.step object.now) (O.only_reads object.now) in IfOk result (λ word. (l : Local) → slice_get state.now.state.locals caller ≡ Some l → TellsOfferWord word instance (scene_of instance state.now.state) j l) }
{
    let local = &state.locals[caller];
    offered_word(alloc, object, &state.base, &state.locals, local, j)
}

/// Whether the word `v` may be noted as word `i` of slot `s` of the ring of gaps. `Err` says that memory ran out.
fn names_gap<O: Object>(
    alloc: Global,
    object: &O,
    state: &CoreState,
    s: u64,
    i: u64,
    v: u64,
) -> Result<bool, AllocError>
    requires base { LawfulBase (O.line_count object.now) (O.lawful object.now) state.now.base }
    ensures { let instance = instance_of state.now (O.step object.now) (O.only_reads object.now) in IfOk result (λ gap. AllowsGapNote gap instance (scene_of instance state.now.state) s i v) }
{
    is_gap_of(
        alloc,
        object,
        state.callers,
        &state.base,
        &state.locals,
        s,
        i,
        v,
    )
}

/// Whether the words that a caller holds exclusively are the full image after their place. `Err` says that memory ran out.
fn holds_full<O: Object>(
    alloc: Global,
    object: &O,
    state: &CoreState,
    caller: usize,
) -> Result<bool, AllocError>
    requires { HasBaseAndCaller O.Object object.now state.now caller }
    ensures { let instance = instance_of state.now (O.step object.now) (O.only_reads object.now) in IfOk result (λ full. (l : Local) → slice_get state.now.state.locals caller ≡ Some l → IsTrue full ↔ IsFull instance (scene_of instance state.now.state).history (held_words l.exclusive)) }
{
    let words = held_words(&state.locals[caller]);
    is_full(alloc, object, &state.base, &state.locals, words)
}

/// The words of the replica held exclusively, none where there is none.
fn held_words(local: &Local) -> &[u64]
    ensures { result.now ≡ held_words local.now.exclusive }
{
    match &local.exclusive {
        None => &[],
        Some(held) => held.words.as_slice(),
    }
}

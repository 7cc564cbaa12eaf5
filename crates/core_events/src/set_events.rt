//! The steps on write sets: a set is written and offered, and its offer word and its words are loaded.

ghost use Rattle.core_events.specs.Tables.{HasCaller, HasTableWords};
ghost use Rattle.core_events.specs.StepFacts.{TellsOfferWord};
ghost use Rattle.cx_core.specs.declared.kinds.Kind.TheVariants.{WriteSet, Offer, LoadOffer, ReadSet};
ghost use Rattle.cx_core.specs.Events.{Did};
ghost use Rattle.cx_core.specs.State.{EachScene};

use core_guards::callers::Callers;
use core_guards::sets::{can_load_offer, can_read_set, can_write_set};
use cx_core::layout::{CELLS, SET_WORDS, offer_at, set_at};
use cx_core::{Local, SeenOffer};

/// Whether a caller may write word `i` of the write set in its cell `j`; if so the word `v` is stored there and the step is counted.
pub(crate) fn write_set(
    callers: Callers,
    words: &mut [u64],
    local: &mut Local,
    j: u64,
    i: u64,
    v: u64,
) -> bool
    requires table { HasCaller callers.number words.old local.old }
    ensures { (base : _) → EachScene callers.number base words.old (λ instance scene. Did result instance scene (WriteSet j i v) local.old local.new words.new) }
{
    if i >= SET_WORDS || !can_write_set(local, j) {
        return false;
    }
    let k = CELLS * u64::from(local.number) + j;
    words[set_at(callers.number, k, i)] = v;
    local.cells[j as usize].set[i as usize] = v;
    local.steps = local.steps.saturating_add(1);
    true
}

/// Whether a caller may offer the write set in its cell `j`; if so the offer word is stored, which is `offer_word`: `None` where the guard fails.
pub(crate) fn offer(
    callers: Callers,
    words: &mut [u64],
    local: &mut Local,
    j: u64,
    offer_word: Option<u64>,
) -> bool
    requires table { HasCaller callers.number words.old local.old }
    ensures { (base : _) → EachScene callers.number base words.old (λ instance scene. TellsOfferWord offer_word instance scene j local.old → Did result instance scene (Offer j) local.old local.new words.new) }
{
    let Some(word) = offer_word else {
        return false;
    };
    if j >= CELLS {
        return false;
    }
    let k = CELLS * u64::from(local.number) + j;
    words[offer_at(callers.number, k)] = word;
    local.cells[j as usize].offer = word;
    local.steps = local.steps.saturating_add(1);
    true
}

/// Whether a caller may load the offer word of cell `k` for ticket `t`: the slot last looked at shows the cell with the ticket, and a confirmed protection
/// keeps it. If so the word found is kept as the offer word last loaded.
pub(crate) fn load_offer(callers: Callers, words: &[u64], local: &mut Local, k: u64, t: u64) -> bool
    requires table { HasTableWords callers.number words.now }
    ensures { (base : _) → EachScene callers.number base words.now (λ instance scene. Did result instance scene (LoadOffer k t) local.old local.new words.now) }
{
    if !can_load_offer(callers, local, k, t) {
        return false;
    }
    local.seen_offer = Some(SeenOffer {
        cell: k,
        ticket: t,
        word: words[offer_at(callers.number, k)],
    });
    local.steps = local.steps.saturating_add(1);
    true
}

/// Whether a caller may load word `i` of the write set in cell `k` for ticket `t`, which the offer word last loaded has to name; if so the step is counted.
/// The word found is no part of the local state.
pub(crate) fn read_set(
    callers: Callers,
    words: &[u64],
    local: &mut Local,
    k: u64,
    t: u64,
    i: u64,
) -> bool
    ensures { (base : _) → EachScene callers.number base words.now (λ instance scene. Did result instance scene (ReadSet k t i) local.old local.new words.now) }
{
    if !can_read_set(callers, local, k, t, i) {
        return false;
    }
    local.steps = local.steps.saturating_add(1);
    true
}

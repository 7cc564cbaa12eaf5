//! The steps on the ring of gaps: a word is noted, and loaded.

ghost use Rattle.core_events.specs.Tables.{HasTableWords};
ghost use Rattle.core_events.specs.StepFacts.{AllowsGapNote};
ghost use Rattle.cx_core.specs.declared.kinds.Kind.TheVariants.{NoteGap, LoadGap};
ghost use Rattle.cx_core.specs.Events.{Did};
ghost use Rattle.cx_core.specs.State.{EachScene};

use core_guards::callers::Callers;
use core_guards::gaps::{can_load_gap, gap_at};
use cx_core::Local;

/// Whether a caller may note the word `v` as word `i` of slot `s` of the ring of gaps, which is `is_gap`; if so the word is stored there and the step is
/// counted.
pub(crate) fn note_gap(
    callers: Callers,
    words: &mut [u64],
    local: &mut Local,
    s: u64,
    i: u64,
    v: u64,
    is_gap: bool,
) -> bool
    requires table { HasTableWords callers.number words.old }
    ensures { (base : _) → EachScene callers.number base words.old (λ instance scene. AllowsGapNote is_gap instance scene s i v → Did result instance scene (NoteGap s i v) local.old local.new words.new) }
{
    if !is_gap || !can_load_gap(callers, s, i) {
        return false;
    }
    words[gap_at(callers.number, s, i)] = v;
    local.steps = local.steps.saturating_add(1);
    true
}

/// Whether a caller may load word `i` of slot `s` of the ring of gaps; if so the step is counted. The word found is no part of the local state.
pub(crate) fn load_gap(callers: Callers, words: &[u64], local: &mut Local, s: u64, i: u64) -> bool
    ensures { (base : _) → EachScene callers.number base words.now (λ instance scene. Did result instance scene (LoadGap s i) local.old local.new words.now) }
{
    if !can_load_gap(callers, s, i) {
        return false;
    }
    local.steps = local.steps.saturating_add(1);
    true
}

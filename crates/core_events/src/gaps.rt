//! Whether a word may be noted in the ring of gaps: whether the full images at the ticket that it names and at the next place have the same
//! words in the lines of its gap.

ghost use Rattle.std.specs.Prelude.{◌↔◌, ℕ, Bool, List, IsTrue, IfOk};
ghost use Rattle.core_events.specs.Images.{CanReplayHistory};
ghost use Rattle.cx_core.specs.Gaps.{CanNoteGap};
ghost use Rattle.cx_core.specs.Merge.{history_of};

use crate::images::{full_image, merged};
use core_guards::callers::Callers;
use core_guards::gaps::{can_load_gap, gap_of, is_quiet};
use cx_base::Object;
use cx_core::{Base, Local};
use std::alloc::{AllocError, Global};

/// Whether a caller may note the word `v` as word `i` of slot `s` of the ring of gaps. `Err` says that memory ran out.
pub(crate) fn is_gap_of<O: Object>(
    alloc: Global,
    object: &O,
    callers: Callers,
    base: &Base,
    locals: &[Local],
    s: u64,
    i: u64,
    v: u64,
) -> Result<bool, AllocError>
    requires { CanReplayHistory O.Object object.now base.now locals.now }
    ensures { (reads : List ℕ → Bool) → IfOk result (λ gap. IsTrue gap ↔ CanNoteGap (record { callers = callers.number; base = base.now; step = O.step object.now; reads = reads }) (history_of base.now.place locals.now) s i v) }
{
    if !can_load_gap(callers, s, i) {
        return Ok(false);
    }
    let gap = gap_of(callers, s, v);
    if gap.from + 1 >= gap.to {
        return Ok(true);
    }
    let history = merged(alloc, base.place, locals)?;
    let entries = history.as_slice();
    if gap.ticket >= base.place + entries.len() as u64 {
        return Ok(false);
    }
    let before = full_image(alloc, object, base, entries, gap.ticket)?;
    let after = full_image(alloc, object, base, entries, gap.ticket + 1)?;
    Ok(is_quiet(&before, &after, gap.from, gap.to))
}

//! The word with which a set is offered, where that is allowed: whether the set's pairs lead from the full image at its ticket to the
//! next.

ghost use Rattle.std.specs.Prelude.{◌^◌, ◌<◌, ◌↔◌, ℕ, Bool, List, IsTrue, IfOk, Some};
ghost use Rattle.core_events.specs.Images.{CanReplayHistory, HasTickets};
ghost use Rattle.core_events.specs.StepFacts.{TellsOfferWord};
ghost use Rattle.cx_core.specs.Merge.{history_of};
ghost use Rattle.cx_core.specs.WriteSet.{IsWriteSetOf};

use crate::images::{full_image, merged};
use core_guards::sets::{can_write_set, leads};
use cx_base::{Object, SET_WORDS};
use cx_core::{Base, Local};
use std::alloc::{AllocError, Global};

/// The word with which a caller offers the set in its cell; none where it may not. `Err` says that memory ran out.
pub(crate) fn offered_word<O: Object>(
    alloc: Global,
    object: &O,
    base: &Base,
    locals: &[Local],
    local: &Local,
    j: u64,
) -> Result<Option<u64>, AllocError>
    requires history { CanReplayHistory O.Object object.now base.now locals.now }
    requires tickets { HasTickets local.now.own }
    ensures { (callers : ℕ) (reads : List ℕ → Bool) (words : List ℕ) → IfOk result (λ word. TellsOfferWord word (record { callers = callers; base = base.now; step = O.step object.now; reads = reads }) (record { history = history_of base.now.place locals.now; words = words }) j local.now) }
{
    if !can_write_set(local, j) {
        return Ok(None);
    }
    let cell = &local.cells[j as usize];
    let Some(ticket) = cell.ticket else {
        return Ok(None);
    };
    if !is_set_of(alloc, object, base, locals, ticket, &cell.set)? {
        return Ok(None);
    }
    Ok(Some(ticket + 1))
}

/// Whether words are a write set of a ticket. `Err` says that memory ran out.
fn is_set_of<O: Object>(
    alloc: Global,
    object: &O,
    base: &Base,
    locals: &[Local],
    ticket: u64,
    set: &[u64; SET_WORDS],
) -> Result<bool, AllocError>
    requires history { CanReplayHistory O.Object object.now base.now locals.now }
    requires ticket { ticket < 2 ^ 40 }
    ensures { (callers : ℕ) (reads : List ℕ → Bool) → IfOk result (λ is. IsTrue is ↔ IsWriteSetOf (record { callers = callers; base = base.now; step = O.step object.now; reads = reads }) (history_of base.now.place locals.now) ticket set.now) }
{
    let history = merged(alloc, base.place, locals)?;
    let entries = history.as_slice();
    let mut before = full_image(alloc, object, base, entries, ticket)?;
    let after = full_image(alloc, object, base, entries, ticket + 1)?;
    Ok(leads(set, &mut before, &after))
}

//! The history of a state and the full images along it, executable: slow and plain, as the definitions are.

ghost use Rattle.std.specs.Prelude.{◌≡◌, ◌+◌, ◌-◌, ◌^◌, ◌<◌, ◌≤◌, ◌↔◌, ℕ, Bool, List, length, IsTrue, IfOk, IfSome, None};
ghost use Rattle.cx_base.specs.VecMemory.{words_of};
ghost use Rattle.cx_core.specs.Base.{LawfulBase};
ghost use Rattle.cx_core.specs.History.{IsFull, full_image, image_from};
ghost use Rattle.core_events.specs.Images.{CanReplayHistory, IsRegion, OfCallers};
ghost use Rattle.cx_core.specs.Merge.{all_own, entry_at, history_of};
ghost use Rattle.cx_core.specs.Region.{place_of};
ghost use Rattle.cx_core.specs.Step.{full_step_of};

use cx_base::{Object, VecMemory};
use cx_core::{Base, Entry, Linked, Local, full_step, op_fits};
use std::alloc::{AllocError, Global};

/// Whether a region is the full image after its place. `Err` says that memory ran out.
pub(crate) fn is_full<O: Object>(
    alloc: Global,
    object: &O,
    base: &Base,
    locals: &[Local],
    region: &[u64],
) -> Result<bool, AllocError>
    requires { CanReplayHistory O.Object object.now base.now locals.now }
    ensures { (callers : ℕ) (reads : List ℕ → Bool) → IfOk result (λ full. IsTrue full ↔ IsFull (record { callers = callers; base = base.now; step = O.step object.now; reads = reads }) (history_of base.now.place locals.now) region.now) }
{
    let place = region.first().copied().unwrap_or(0);
    let history = merged(alloc, base.place, locals)?;
    if place < base.place || place - base.place > history.len() as u64 {
        return Ok(false);
    }
    let count = (place - base.place) as usize;
    let image = image_after(alloc, object, base, &history[..count])?;
    Ok(image.as_slice() == region)
}

/// The history of a state: the merge of the own lists by ticket. `Err` says that memory ran out; it
/// also comes where there are more entries than a 64-bit number counts.
pub(crate) fn merged(alloc: Global, place: u64, locals: &[Local]) -> Result<Vec<Entry>, AllocError>
    ensures { IfOk result (λ history. history.items ≡ history_of place locals.now) }
{
    let count = own_count(locals).ok_or(AllocError)?;
    let end = place.checked_add(count).ok_or(AllocError)?;
    let mut history = Vec::new(alloc);
    for ticket in place..end {
        if let Some(entry) = entry_of(ticket, locals) {
            history.push(entry)?;
        }
    }
    Ok(history)
}

/// The number of entries in all own lists, where a 64-bit number counts them.
fn own_count(locals: &[Local]) -> Option<u64>
    ensures { IfSome result (λ count. count ≡ length (all_own locals.now)) }
{
    let mut count = 0u64;
    for local in locals {
        count = count.checked_add(local.own.len() as u64)?;
    }
    Some(count)
}

/// The entry with a ticket in the own lists of all callers.
fn entry_of(ticket: u64, locals: &[Local]) -> Option<Entry>
    ensures { result ≡ entry_at ticket (all_own locals.now) }
{
    for local in locals {
        if let Some(entry) = own_entry(ticket, local.own.as_slice()) {
            return Some(entry);
        }
    }
    None
}

/// The entry with a ticket in one own list.
fn own_entry(ticket: u64, own: &[Linked]) -> Option<Entry>
    ensures { result ≡ entry_at ticket own.now }
{
    for linked in own {
        if linked.ticket == ticket {
            return Some(copied(&linked.entry));
        }
    }
    None
}

/// A copy of an entry.
pub(crate) fn copied(entry: &Entry) -> Entry
    ensures { result ≡ entry.now }
{
    Entry {
        caller: entry.caller,
        number: entry.number,
        op: entry.op,
    }
}

/// The region after the full steps of some entries from a base on. `Err` says that memory ran out.
fn image_after<O: Object>(
    alloc: Global,
    object: &O,
    base: &Base,
    entries: &[Entry],
) -> Result<Vec<u64>, AllocError>
    requires base { LawfulBase (O.line_count object.now) (O.lawful object.now) base.now }
    requires few { base.now.place + length entries.now ≤ 2 ^ 40 }
    requires callers { OfCallers entries.now }
    ensures { IfOk result (λ image. image.items ≡ image_from (O.step object.now) base.now.words entries.now) }
{
    let words = Vec::from_slice(alloc, base.words.as_slice())?;
    let mut memory = VecMemory::of(words, None);
    for entry in entries {
        step_on(object, &mut memory, entry);
    }
    Ok(memory.into_words())
}

/// The full image after a place. `Err` says that memory ran out.
#[tactic(auto, unfolding(cx_core::specs::History::full_image))]
pub(crate) fn full_image<O: Object>(
    alloc: Global,
    object: &O,
    base: &Base,
    history: &[Entry],
    place: u64,
) -> Result<Vec<u64>, AllocError>
    requires base { LawfulBase (O.line_count object.now) (O.lawful object.now) base.now }
    requires few { base.now.place + length history.now ≤ 2 ^ 40 }
    requires callers { OfCallers history.now }
    ensures { IfOk result (λ image. image.items ≡ full_image (O.step object.now) base.now history.now place) }
{
    let count = place.saturating_sub(base.place).min(history.len() as u64) as usize;
    image_after(alloc, object, base, &history[..count])
}

/// Does the full step of an entry on a region in a memory without a limit.
fn step_on<O: Object>(object: &O, memory: &mut VecMemory, entry: &Entry)
    requires region { IsRegion (O.line_count object.now) (O.lawful object.now) (words_of memory.old) × (memory.old.left ≡ None) }
    requires place { place_of (words_of memory.old) < 2 ^ 40 }
    requires caller { entry.now.caller < 8 }
    ensures words { (words_of memory.new ≡ full_step_of (O.step object.now) entry.now (words_of memory.old)) × (memory.new.left ≡ None) }
    ensures region { IsRegion (O.line_count object.now) (O.lawful object.now) (words_of memory.new) }
    ensures place { place_of (words_of memory.new) ≡ place_of (words_of memory.old) + 1 }
{
    op_fits(&entry.op);
    match full_step(object, memory, entry) {
        Ok(()) => {}
        Err(_) => unreachable!(),
    }
}

//! The steps of the queue: words of a caller's cells, link slots, and FREE.

ghost use Rattle.std.specs.Prelude.{◌≡◌, ◌+◌, ◌*◌, ◌%◌, ◌^◌, ◌<◌, ◌≤◌, ℕ, max, length, slice_index, slice_set, if◌then◌else◌, ◌==◌};
ghost use Rattle.core_events.specs.Tables.{HasCaller, HasTableWords};
ghost use Rattle.cx_core.specs.declared.kinds.Kind.TheVariants.{WriteCell, Link, Look, ReadCell, LoadFree};
ghost use Rattle.core_events.specs.Tries.{TriesEvent};
ghost use Rattle.cx_core.specs.Events.{Did};
ghost use Rattle.cx_core.specs.Layout.{cell_count, link_at};
ghost use Rattle.cx_core.specs.QueueEvents.{exchanged, lost, linked, seen_word};
ghost use Rattle.cx_core.specs.State.{EachScene};

use core_guards::callers::Callers;
use core_guards::queue::{
    can_link, entry_of, front_after, is_idle, protects, shows_ticket, word_seen,
};
use cx_base::link_code;
use cx_core::layout::{CELL_WORDS, CELLS, FREE_AT, cell_at, cell_count, link_at};
use cx_core::{Base, Linked, Local, OBJECT_START, SeenSlot};
use std::alloc::AllocError;

/// Whether a caller may write word `i` of its cell `j`, which has to be idle; if so the word `v` is stored there and the step is counted.
pub(crate) fn write_cell(
    callers: Callers,
    words: &mut [u64],
    local: &mut Local,
    j: u64,
    i: u64,
    v: u64,
) -> bool
    requires table { HasCaller callers.number words.old local.old }
    ensures { (base : _) → EachScene callers.number base words.old (λ instance scene. Did result instance scene (WriteCell j i v) local.old local.new words.new) }
{
    if j >= CELLS || i >= CELL_WORDS || !is_idle(local, j) {
        return false;
    }
    let k = CELLS * u64::from(local.number) + j;
    words[cell_at(callers.number, k, i)] = v;
    let cell = &mut local.cells[j as usize];
    cell.words[i as usize] = v;
    cell.ticket = None;
    local.fresh = false;
    local.steps = local.steps.saturating_add(1);
    true
}

/// Whether a caller may try to link the entry in its cell `j` at its front; if so it tries, by a compare-exchange of the link word, and wins or loses.
/// `Err` says that memory ran out, and nothing changed.
pub(crate) fn link(
    callers: Callers,
    base: &Base,
    words: &mut [u64],
    local: &mut Local,
    j: u64,
) -> Result<bool, AllocError>
    requires table { HasCaller callers.number words.old local.old }
    requires slots { OBJECT_START ≤ length base.now.words }
    ensures { TriesEvent result (λ b. EachScene callers.number base.now words.old (λ instance scene. Did b instance scene (Link j) local.old local.new words.new)) ((local.new ≡ local.old) × (words.new ≡ words.old)) }
{
    if !can_link(callers, base, local, j) {
        return Ok(false);
    }
    exchange(callers, words, local, j)?;
    Ok(true)
}

/// The compare-exchange by which a caller tries to link the entry in its cell `j`, and what it learns. `Err` says that memory ran out, and nothing changed.
fn exchange(
    callers: Callers,
    words: &mut [u64],
    local: &mut Local,
    j: u64,
) -> Result<(), AllocError>
    requires table { HasCaller callers.number words.old local.old }
    requires j { j < 16 }
    requires front { local.old.front < 2 ^ 40 }
    ensures { let at = link_at callers.number (local.old.front % cell_count callers.number) in let found = slice_index words.old at in TriesEvent result (λ _. (words.new ≡ slice_set words.old at (exchanged callers.number local.old j found)) × (local.new ≡ (if found == seen_word local.old.seen_slot then linked local.old j else lost callers.number local.old found))) ((local.new ≡ local.old) × (words.new ≡ words.old)) }
{
    let at = link_at(callers.number, local.front % cell_count(callers.number));
    let found = words[at];
    if found == word_seen(local.seen_slot) {
        let code = link_code(
            callers.number,
            local.front,
            CELLS as u32 * local.number + j as u32,
        );
        win(local, j)?;
        words[at] = code;
    } else {
        lose(callers, local, found);
    }
    Ok(())
}

/// What a caller learns by a link of the entry in its cell `j` that won. `Err` says that memory ran out, and nothing changed.
fn win(local: &mut Local, j: u64) -> Result<(), AllocError>
    requires j { j < 16 }
    requires front { local.old.front < 2 ^ 40 }
    ensures { TriesEvent result (λ _. local.new ≡ linked local.old j) (local.new ≡ local.old) }
{
    let linked = Linked {
        ticket: local.front,
        entry: entry_of(local, j),
    };
    local.own.push(linked)?;
    local.cells[j as usize].ticket = Some(local.front);
    local.front += 1;
    local.steps = local.steps.saturating_add(1);
    Ok(())
}

/// What a caller learns by a link that was lost to the ticket found.
fn lose(callers: Callers, local: &mut Local, found: u64)
    ensures { local.new ≡ lost callers.number local.old found }
{
    local.front = front_after(callers, local.front, found);
    local.steps = local.steps.saturating_add(1);
}

/// Whether the table has a link slot `s`; if so its word is loaded, the caller keeps it as the one last looked at, and the step is counted.
pub(crate) fn look(callers: Callers, words: &[u64], local: &mut Local, s: u64) -> bool
    requires table { HasTableWords callers.number words.now }
    ensures { (base : _) → EachScene callers.number base words.now (λ instance scene. Did result instance scene (Look s) local.old local.new words.now) }
{
    if s >= cell_count(callers.number) {
        return false;
    }
    let found = words[link_at(callers.number, s)];
    local.seen_slot = Some(SeenSlot {
        slot: s,
        word: found,
    });
    local.front = front_after(callers, local.front, found);
    local.steps = local.steps.saturating_add(1);
    true
}

/// Whether a caller may load word `i` of cell `k` for ticket `t`: the slot last looked at shows the cell with the ticket, and a confirmed protection keeps
/// it. If so the step is counted. The word found is no part of the local state.
pub(crate) fn read_cell(
    callers: Callers,
    words: &[u64],
    local: &mut Local,
    t: u64,
    k: u64,
    i: u64,
) -> bool
    ensures { (base : _) → EachScene callers.number base words.now (λ instance scene. Did result instance scene (ReadCell t k i) local.old local.new words.now) }
{
    if t >= local.front
        || i >= CELL_WORDS
        || !shows_ticket(callers, local.seen_slot, t, k)
        || !protects(local.protection, t)
    {
        return false;
    }
    local.steps = local.steps.saturating_add(1);
    true
}

/// Whether a caller may load FREE, which is always so: the caller keeps the greatest FREE found, and the step is counted.
pub(crate) fn load_free(words: &[u64], local: &mut Local) -> bool
    requires { 4 ≤ length words.now }
    ensures { (callers : ℕ) (base : _) → EachScene callers base words.now (λ instance scene. Did result instance scene LoadFree local.old local.new words.now) }
{
    local.seen_free = local.seen_free.max(words[FREE_AT]);
    local.steps = local.steps.saturating_add(1);
    true
}

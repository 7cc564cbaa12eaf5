//! What guards on cells and links ask of a caller's local state.

ghost use Rattle.std.specs.Prelude.{◌≡◌, ◌+◌, ◌%◌, ◌<◌, ◌≤◌, ◌↔◌, max, length, IsTrue, slice_index, ◌==◌};
ghost use Rattle.cx_core.specs.Layout.{cell_count};
ghost use Rattle.cx_core.specs.QueueEvents.{CanLink, IsIdle, next_number, ShowsOpen, ShowsTicket, cell_of, entry_in, raised_front, seen_word};
ghost use Rattle.cx_core.specs.RingEvents.{Protects};

use crate::callers::Callers;
use cx_base::{OP_WORDS, link_cell, link_ticket};
use cx_core::layout::{CELLS, cell_count};
use cx_core::{Base, Entry, Local, OBJECT_START, Protection, SeenSlot, slot_start};

/// Whether a caller's cell `j` may be written: it was not linked since it was last written, or its ticket is below the greatest FREE found.
pub fn is_idle(local: &Local, j: u64) -> bool
    requires { j < 16 }
    ensures { IsTrue result ↔ IsIdle local.now j }
{
    match local.cells[j as usize].ticket {
        None => true,
        Some(ticket) => ticket < local.seen_free,
    }
}

/// Whether the slot last looked at shows that a ticket can be linked.
pub fn shows_open(callers: Callers, seen: Option<SeenSlot>, ticket: u64) -> bool
    ensures { IsTrue result ↔ ShowsOpen callers.number seen ticket }
{
    let cells = cell_count(callers.number);
    match seen {
        None => false,
        Some(seen) => {
            seen.slot == ticket % cells
                && (seen.word == 0
                    || (ticket >= cells
                        && link_ticket(callers.number, seen.word) == ticket - cells))
        }
    }
}

/// Whether the slot last looked at shows a ticket in a cell.
pub fn shows_ticket(callers: Callers, seen: Option<SeenSlot>, ticket: u64, cell: u64) -> bool
    ensures { IsTrue result ↔ ShowsTicket callers.number seen ticket cell }
{
    match seen {
        None => false,
        Some(seen) => {
            seen.slot == ticket % cell_count(callers.number)
                && seen.word != 0
                && link_ticket(callers.number, seen.word) == ticket
                && u64::from(link_cell(callers.number, seen.word)) == cell
        }
    }
}

/// Whether the entry in a caller's cell `j` has the caller's next number.
pub fn has_next_number(base: &Base, local: &Local, j: u64) -> bool
    requires j { j < 16 }
    requires caller { local.now.number < 8 }
    requires slots { OBJECT_START ≤ length base.now.words }
    ensures { IsTrue result ↔ (slice_index (cell_of local.now j).words 0 ≡ next_number base.now local.now) }
{
    let number = local.cells[j as usize].words[0];
    let last = base.words.as_slice()[slot_start(local.number) as usize];
    number > last && number - last - 1 == local.own.as_slice().len() as u64
}

/// The front after a link word was found: the ticket in it is linked, and so is each one before it.
pub fn front_after(callers: Callers, front: u64, found: u64) -> u64
    ensures { result ≡ raised_front callers.number front found }
{
    if found == 0 {
        front
    } else {
        front.max(link_ticket(callers.number, found) + 1)
    }
}

/// The word of the slot last looked at, 0 where there is none.
pub fn word_seen(seen: Option<SeenSlot>) -> u64
    ensures { result ≡ seen_word seen }
{
    match seen {
        None => 0,
        Some(seen) => seen.word,
    }
}

/// The entry in a caller's cell `j`.
pub fn entry_of(local: &Local, j: u64) -> Entry
    requires { j < 16 }
    ensures { result ≡ entry_in local.now j }
{
    let cell = &local.cells[j as usize];
    let mut op = [0; OP_WORDS];
    op.copy_from_slice(&cell.words[1..]);
    Entry {
        caller: local.number,
        number: cell.words[0],
        op,
    }
}

/// Whether a caller may try to link the entry in its cell `j`.
pub fn can_link(callers: Callers, base: &Base, local: &Local, j: u64) -> bool
    requires caller { local.now.number < callers.number }
    requires slots { OBJECT_START ≤ length base.now.words }
    ensures { IsTrue result ↔ CanLink callers.number base.now local.now j }
{
    j < CELLS
        && is_idle(local, j)
        && has_next_number(base, local, j)
        && local.front < 1 << 40
        && shows_open(callers, local.seen_slot, local.front)
        && local.answered.as_slice().len() == local.own.as_slice().len()
}

/// Whether a protection that is confirmed keeps a ticket.
pub fn protects(protection: Protection, ticket: u64) -> bool
    ensures { IsTrue result ↔ Protects ticket protection }
{
    match protection {
        Protection::Unprotected => false,
        Protection::Stated(_) => false,
        Protection::Confirmed(p) => p <= ticket,
    }
}

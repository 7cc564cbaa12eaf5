//! What guards on write sets ask: of a caller's local state, and of a set's words between two regions.

ghost use Rattle.std.specs.Prelude.{◌<◌, ◌↔◌, IsTrue};
ghost use Rattle.cx_core.specs.Layout.{cell_count};
ghost use Rattle.cx_core.specs.QueueEvents.{ShowsTicket};
ghost use Rattle.cx_core.specs.RingEvents.{Protects};
ghost use Rattle.cx_core.specs.SetEvents.{CanWriteSet, HasTicket, IsUnoffered, ShowsOffer};
ghost use Rattle.cx_core.specs.WriteSet.{IsWriteSet};

use crate::callers::Callers;
use crate::queue::{protects, shows_ticket};
use cx_base::SET_WORDS;
use cx_core::layout::CELLS;
use cx_core::{Linked, Local, SeenOffer};

/// How many pairs a set has room for.
const MOST_PAIRS: u64 = 256;

/// Whether one of some entries has a ticket.
pub fn has_ticket(own: &[Linked], ticket: u64) -> bool
    ensures { IsTrue result ↔ HasTicket own.now ticket }
{
    for linked in own {
        if linked.ticket == ticket {
            return true;
        }
    }
    false
}

/// Whether a cell with this ticket and this offer word has one of some entries, and is not offered with it.
pub fn is_unoffered(own: &[Linked], ticket: Option<u64>, offer: u64) -> bool
    ensures { IsTrue result ↔ IsUnoffered own.now ticket offer }
{
    match ticket {
        None => false,
        Some(ticket) => has_ticket(own, ticket) && (offer == 0 || offer - 1 != ticket),
    }
}

/// Whether a caller may write the set of the entry in its cell `j`.
pub fn can_write_set(local: &Local, j: u64) -> bool
    ensures { IsTrue result ↔ CanWriteSet local.now j }
{
    if j >= CELLS {
        return false;
    }
    let cell = &local.cells[j as usize];
    is_unoffered(local.own.as_slice(), cell.ticket, cell.offer)
}

/// Whether the pairs of a set lead from a region to another. They are stored into the region, up to the first that is outside.
pub fn leads(set: &[u64; SET_WORDS], region: &mut [u64], after: &[u64]) -> bool
    ensures { IsTrue result ↔ IsWriteSet set.now region.old after.now }
{
    let pairs = set[0];
    if pairs > MOST_PAIRS {
        return false;
    }
    for m in 0..pairs as usize {
        let at = set[2 * m + 1];
        if at >= region.len() as u64 {
            return false;
        }
        region[at as usize] = set[2 * m + 2];
    }
    *region == *after
}

/// Whether the offer word last loaded is that of cell `k` for ticket `t`, and names the ticket.
pub fn shows_offer(seen: Option<SeenOffer>, k: u64, t: u64) -> bool
    ensures { IsTrue result ↔ ShowsOffer seen k t }
{
    match seen {
        None => false,
        Some(seen) => seen.cell == k && seen.ticket == t && seen.word != 0 && seen.word - 1 == t,
    }
}

/// Whether a caller may look whether the entry with ticket `t`, in cell `k`, is offered: it may read the entry.
pub fn can_load_offer(callers: Callers, local: &Local, k: u64, t: u64) -> bool
    ensures value { IsTrue result ↔ ((t < local.now.front) × ShowsTicket callers.number local.now.seen_slot t k × Protects t local.now.protection) }
    ensures within { IsTrue result → k < cell_count callers.number }
{
    t < local.front && shows_ticket(callers, local.seen_slot, t, k) && protects(local.protection, t)
}

/// Whether a caller may read word `i` of the set of the entry with ticket `t`, in cell `k`.
pub fn can_read_set(callers: Callers, local: &Local, k: u64, t: u64, i: u64) -> bool
    ensures { IsTrue result ↔ ((t < local.now.front) × (i < SET_WORDS) × ShowsTicket callers.number local.now.seen_slot t k × Protects t local.now.protection × ShowsOffer local.now.seen_offer k t) }
{
    t < local.front
        && i < SET_WORDS as u64
        && shows_ticket(callers, local.seen_slot, t, k)
        && protects(local.protection, t)
        && shows_offer(local.seen_offer, k, t)
}

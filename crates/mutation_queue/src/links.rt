//! An announced entry is linked at the end of the queue.

ghost use Rattle.std.specs.Prelude.{◌+◌, ◌*◌, ◌^◌, ◌<◌, ◌≤◌, IfOk, MatchBool, OnErr};
ghost use Rattle.cx_base.specs.Codes.{link_ticket_of};
ghost use Rattle.cx_table.specs.Seats.{IsAtLimit};
ghost use Rattle.mutation_queue.specs.Leaves.{KeepsSeatPart, seat_number};
ghost use Rattle.mutation_queue.specs.Links.{HaltsTries, HaltsTry, LinksNone, MakesTries, MayLink, Tried, TriedOnce};

use cx_base::{Halt, Object, link_ticket};
use cx_core::layout::cell_count;
use cx_table::{CallerSeat, Shared};

/// The end of tickets: each is below it.
const END: u64 = 1 << 40;

/// The outcome of tries to link an entry.
#[derive(Clone, Copy, Debug, PartialEq, Eq, Drop)]
pub enum LinkTried {
    /// The entry is linked with this ticket.
    Linked { ticket: u64 },
    /// Each try found another's link.
    Again,
    /// There is no further ticket.
    Worn,
}

/// Tries at most `tries` times to link the entry that was announced in a cell of the caller. A try is one look at the
/// front's slot and, where the slot is open, one compare-exchange. `Worn` comes exactly where the entry was not linked and
/// the front is then 2^40; else `Again` exactly where each of the tries found another's link. `Halt` comes exactly where a
/// further step is to be made and the seat's steps equal its limit: fewer tries were lost, a ticket is left, and the next look or
/// compare-exchange was not allowed. Then nothing is linked. A try that is lost at its look takes one step, any other two.
pub fn link<O: Object>(
    shared: &Shared<O>,
    seat: &mut CallerSeat,
    cell: u32,
    tries: u64,
) -> Result<LinkTried, Halt>
    requires may { MayLink shared.now cell seat.old }
    requires tries { 1 ≤ tries }
    ensures tried { IfOk result (λ tried. Tried shared.now.callers cell tries seat.old seat.new tried) }
    ensures made { IfOk result (MakesTries shared.now.callers cell tries seat.old seat.new) }
    ensures halted { OnErr result (HaltsTries shared.now.callers tries seat.old seat.new) }
    ensures leaves { KeepsSeatPart shared.now seat_number (2 * tries) seat.old seat.new }
{
    for _tried in 0..tries {
        if seat.front() >= END {
            return Ok(LinkTried::Worn);
        }
        if let Some(ticket) = try_link(shared, seat, cell)? {
            return Ok(LinkTried::Linked { ticket });
        }
    }
    if seat.front() >= END {
        return Ok(LinkTried::Worn);
    }
    Ok(LinkTried::Again)
}

/// One try: the ticket with which the entry was linked, or `None` where another's link was found.
fn try_link<O: Object>(
    shared: &Shared<O>,
    seat: &mut CallerSeat,
    cell: u32,
) -> Result<Option<u64>, Halt>
    requires may { MayLink shared.now cell seat.old }
    requires front { seat.old.known.local.front < 2 ^ 40 }
    ensures tried { IfOk result (λ tried. TriedOnce shared.now.callers cell seat.old seat.new tried) }
    ensures halted { OnErr result (LinksNone seat.old seat.new × IsAtLimit seat.new.known.local × HaltsTry shared.now.callers seat.old seat.new) }
    ensures steps { seat.new.known.local.steps ≤ seat.old.known.local.steps + 2 }
{
    let callers = shared.callers();
    let front = seat.front();
    let slot = front % cell_count(callers);
    let seen = shared.look(seat, slot)?;
    if is_taken(callers, front, seen) {
        return Ok(None);
    }
    let found = shared.link(seat, u64::from(cell))?;
    if found == seen {
        return Ok(Some(front));
    }
    Ok(None)
}

/// Whether a link word found in the front's slot has a ticket from the front on.
fn is_taken(callers: u32, front: u64, word: u64) -> bool
    requires { (1 ≤ callers) × (callers ≤ 8) }
    ensures { MatchBool result ((0 < word) × (front ≤ link_ticket_of callers word)) (0 < word → link_ticket_of callers word < front) }
{
    word != 0 && link_ticket(callers, word) >= front
}

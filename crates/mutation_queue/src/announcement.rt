//! An entry is written into a cell before it is linked: which cells of a caller may be written again, and the writing.

ghost use Rattle.std.specs.Prelude.{◌<◌, ◌↔◌, ℕ, IfSome, IsNone, MatchBool, ◌≡◌, ◌∷◌, OnErr, OnOk};
ghost use Rattle.cx_core.specs.QueueEvents.{IsIdle, next_number};
ghost use Rattle.mutation_queue.specs.Cells.{IsInUse, AnnouncesEntry, HaltsIn, MayAnnounce};
ghost use Rattle.cx_table.specs.Running.{IsSeatOf};

use cx_base::{Halt, OP_WORDS, Object, OpWords};
use cx_table::{CallerSeat, Shared};

/// The least cell of the caller that is idle: never linked since it was last written, or linked with a ticket below the
/// greatest FREE found. `None` comes exactly where all 16 cells hold tickets from that FREE on. It makes no step.
pub fn idle_cell(seat: &CallerSeat) -> Option<u32>
    ensures some { IfSome result (λ j. (j < 16) × IsIdle seat.now.known.local j) }
    ensures least { IfSome result (λ j. (k : ℕ) → k < j → IsInUse seat.now.known.local k) }
    ensures none { IsNone result ↔ ((j : ℕ) → j < 16 → IsInUse seat.now.known.local j) }
{
    for j in 0..16 {
        if is_idle(seat, j) {
            return Some(j);
        }
    }
    None
}

/// Whether a cell may be written.
fn is_idle(seat: &CallerSeat, j: u32) -> bool
    requires { j < 16 }
    ensures { MatchBool result (IsIdle seat.now.known.local j) (IsInUse seat.now.known.local j) }
{
    match seat.cell_ticket(u64::from(j)) {
        None => true,
        Some(ticket) => ticket < seat.seen_free(),
    }
}

/// Writes the caller's next number and the operation into an idle cell of the caller: the number, by which the cell's ticket
/// is forgotten, and each word of the operation that differs from the one there, one step each. `Halt` comes exactly where a
/// further step is to be made and the seat's steps equal its limit.
pub fn announce<O: Object>(
    shared: &Shared<O>,
    seat: &mut CallerSeat,
    cell: u32,
    op: &OpWords,
) -> Result<(), Halt>
    requires may { MayAnnounce shared.now cell seat.old }
    ensures announced { OnOk result (AnnouncesEntry shared.now.base cell (next_number shared.now.base seat.old.known.local ∷ op.now) seat.old seat.new) }
    ensures seat { IsSeatOf shared.now seat.new }
    ensures number { seat.new.known.local.number ≡ seat.old.known.local.number }
    ensures halted { OnErr result (HaltsIn cell (next_number shared.now.base seat.old.known.local ∷ op.now) seat.old seat.new) }
{
    let j = u64::from(cell);
    let number = seat.next_number();
    shared.write_cell(seat, j, 0, number)?;
    let mut at = seat.cell_apart(j, op, 0);
    while at < OP_WORDS {
        shared.write_cell(seat, j, at as u64 + 1, op[at])?;
        at = seat.cell_apart(j, op, at + 1);
    }
    Ok(())
}

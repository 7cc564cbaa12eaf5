//! The write set of an own entry: it is offered beside the entry's cell, or, where no other caller reads it, kept in its caller's own memory.

ghost use Rattle.std.specs.Prelude.{◌+◌, ◌*◌, OnErr, OnOk, ◌≡◌, IsTrue};
ghost use Rattle.cx_core.specs.declared.kinds.Kind.TheVariants.{WriteSet as WritesWord};
ghost use Rattle.table_invariant.specs.Offers.{TellsSet};
ghost use Rattle.cx_table.specs.Calls.{MakesStep, MayStep};
ghost use Rattle.cx_table.specs.Seats.{IsAtLimit};
ghost use Rattle.redo_set.specs.Offering.{KeepsOffering, MayOffer, OffersFitting, WritesDiffering, WritesSet, KeepsFitting};
ghost use Rattle.table_invariant.specs.Fitting.{IsKeptSet, IsSetWithin};
ghost use Rattle.table_invariant.specs.Running.{IsSeatOf};

use crate::set::WriteSet;
use cx_base::{Halt, Object};
use cx_table::{CallerSeat, Shared};

/// Writes the pairs of a set beside the cell of the caller's own entry with a ticket, each word that differs from the one there, and offers
/// them: whatever fits what the caller noted tells that they are a write set of the ticket. It makes a step for each word written and one more.
/// `Halt` comes exactly where a further step is to be made and the seat's steps equal its limit: nothing is offered then.
pub fn offer<O: Object>(
    shared: &Shared<O>,
    seat: &mut CallerSeat,
    cell: u64,
    ticket: u64,
    set: &WriteSet,
) -> Result<(), Halt>
    requires may { MayOffer shared.now cell ticket seat.old }
    requires write_set { TellsSet shared.now.lines (O.lawful shared.now.object) shared.now.base (O.step shared.now.object) seat.old.known ticket set.now }
    ensures offered { OnOk result (OffersFitting O.Object shared.now cell ticket set.now seat.old seat.new) }
    ensures leaves { KeepsOffering shared.now seat.old seat.new }
    ensures halts { OnErr result (WritesSet cell seat.old seat.new × IsAtLimit seat.new.known.local) }
{
    // a caller has 16 cells, each with room for a set
    let _ = seat.number();
    for i in 0..2 * set.len() + 1 {
        write_differing(shared, seat, cell, i, set.word(i))?;
    }
    shared.offer(seat, cell)?;
    Ok(())
}

/// Writes a word into the set of a cell where it differs from the one there.
fn write_differing<O: Object>(
    shared: &Shared<O>,
    seat: &mut CallerSeat,
    j: u64,
    i: u64,
    v: u64,
) -> Result<(), Halt>
    requires { MayStep O.Object shared.now (WritesWord j i v) seat.old }
    ensures { MakesStep shared.now seat.old seat.new result (λ _. WritesDiffering shared.now O.step O.only_reads j i v seat.old seat.new) }
{
    if seat.set_word(j, i) == v {
        return Ok(());
    }
    shared.write_set(seat, j, i, v)
}

/// Keeps the set of the caller's own entry with a ticket, in place of the one in the seat's memory: whatever fits what the caller noted tells that it
/// is a write set of the ticket. No step is made. What the set then has is left open.
pub fn keep<O: Object>(shared: &Shared<O>, seat: &mut CallerSeat, ticket: u64, set: &mut WriteSet)
    requires of { IsSeatOf shared.now seat.old }
    requires write_set { TellsSet shared.now.lines (O.lawful shared.now.object) shared.now.base (O.step shared.now.object) seat.old.known ticket set.old }
    ensures kept { KeepsFitting O.Object shared.now ticket set.old seat.old seat.new }
    ensures leaves { KeepsOffering shared.now seat.old seat.new }
{
    shared.keep_set(seat, ticket, &mut set.words);
}

/// Whether the set in the seat's memory is that of the caller's own entry with a ticket; if so it is handed out, and is in the seat's memory no more. Where
/// it is not, what the set given has is left open.
pub fn take_kept(seat: &mut CallerSeat, ticket: u64, into: &mut WriteSet) -> bool
    ensures same { seat.new ≡ seat.old }
    ensures taken { IsTrue result → IsKeptSet seat.old.known.kept ticket into.new × IsSetWithin seat.old.region into.new }
{
    seat.take_kept(ticket, &mut into.words)
}

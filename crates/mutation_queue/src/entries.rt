//! An entry is read from the cell that it was announced in.

ghost use Rattle.std.specs.Prelude.{◌/◌, IfOk, OnErr, OnOk};
ghost use Rattle.cx_core.specs.QueueEvents.{ShowsTicket};
ghost use Rattle.cx_table.specs.Calls.{MakesStep};
ghost use Rattle.cx_table.specs.Running.{IsSeatOf};
ghost use Rattle.mutation_queue.specs.Entries.{HaltsAmong, HaltsReading, LoadsLink, MayRead, MayReplay, ReadsLinked, ReadsWords};

use cx_base::{ENTRY_WORDS, Halt, Object, link_cell};
use cx_core::layout::cell_count;
use cx_table::{CallerSeat, Shared};

/// Reads the entry with a ticket, which is linked and which a confirmed protection of the caller keeps: its number and its
/// operation, in 146 steps. It gives the entry's caller. Each word is noted with the ticket, and a noted word is the history's:
/// so the entry is one that may come there, and what is noted fits what is there. `Halt` comes exactly where a further step is to
/// be made and the seat's steps equal its limit.
pub fn entry<O: Object>(
    shared: &Shared<O>,
    seat: &mut CallerSeat,
    ticket: u64,
    into: &mut [u64; ENTRY_WORDS],
) -> Result<u32, Halt>
    requires may { MayReplay shared.now ticket seat.old }
    ensures read { IfOk result (λ caller. ReadsLinked O.Object shared.now caller ticket into.new seat.old seat.new) }
    ensures halted { OnErr result (HaltsReading ticket seat.old seat.new) }
    ensures seat { IsSeatOf shared.now seat.new }
{
    let cell = find_cell(shared, seat, ticket)?;
    read_words(shared, seat, ticket, cell, into)?;
    Ok((cell / 16) as u32)
}

/// The cell of a ticket, by one look at its slot.
fn find_cell<O: Object>(shared: &Shared<O>, seat: &mut CallerSeat, ticket: u64) -> Result<u64, Halt>
    requires may { MayReplay shared.now ticket seat.old }
    ensures { MakesStep shared.now seat.old seat.new result (λ cell. LoadsLink shared.now ticket cell seat.old seat.new) }
{
    let callers = shared.callers();
    let slot = ticket % cell_count(callers);
    let word = shared.look(seat, slot)?;
    Ok(u64::from(link_cell(callers, word)))
}

/// Reads the words of the entry with a ticket from the cell that its slot was seen to show.
fn read_words<O: Object>(
    shared: &Shared<O>,
    seat: &mut CallerSeat,
    ticket: u64,
    cell: u64,
    into: &mut [u64; ENTRY_WORDS],
) -> Result<(), Halt>
    requires may { MayRead shared.now ticket seat.old }
    requires shows { ShowsTicket shared.now.callers seat.old.known.local.seen_slot ticket cell }
    ensures read { OnOk result (ReadsWords O.Object shared.now (cell / 16) ticket into.new seat.old seat.new) }
    ensures halted { OnErr result (HaltsAmong (cell / 16) ticket seat.old seat.new) }
    ensures seat { IsSeatOf shared.now seat.new }
{
    if shared.read_words(seat, ticket, cell, into) {
        return Ok(());
    }
    read_each(shared, seat, ticket, cell, into)
}

/// Reads the words by a call for each, where the limit may leave fewer steps than there are words.
fn read_each<O: Object>(
    shared: &Shared<O>,
    seat: &mut CallerSeat,
    ticket: u64,
    cell: u64,
    into: &mut [u64; ENTRY_WORDS],
) -> Result<(), Halt>
    requires may { MayRead shared.now ticket seat.old }
    requires shows { ShowsTicket shared.now.callers seat.old.known.local.seen_slot ticket cell }
    ensures read { OnOk result (ReadsWords O.Object shared.now (cell / 16) ticket into.new seat.old seat.new) }
    ensures halted { OnErr result (HaltsAmong (cell / 16) ticket seat.old seat.new) }
    ensures seat { IsSeatOf shared.now seat.new }
{
    for i in 0..ENTRY_WORDS as u64 {
        into[i as usize] = shared.read_cell(seat, ticket, cell, i)?;
    }
    Ok(())
}

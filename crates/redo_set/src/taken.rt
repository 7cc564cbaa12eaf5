//! The write set of another's entry is taken from the entry's cell.

ghost use Rattle.std.specs.Prelude.{◌≡◌, ◌+◌, ◌≤◌, ◌↔◌, IfOk, IsTrue, OnErr, OnOk, length};
ghost use Rattle.redo_set.specs.Taking.{HaltsReadingSet, HaltsTakingSet, KeepsTaking, MayReadSet, MayTakeSet, ReadsSetWords, TakesOffered};

use crate::set::WriteSet;
use cx_base::{Halt, Object, SET_WORDS};
use cx_table::{CallerSeat, Shared};

/// Whether the entry with a ticket, whose cell the slot last looked at shows, is offered; if so its write set is read: the offer word, the number of pairs
/// and each pair, all under the protection that keeps the entry. Each word is noted with the ticket, and a set that was read whole is a write set of its
/// ticket. False comes exactly where the offer word, loaded in this call by the one step that it makes, is another than the ticket plus 1; what is in
/// `into` then is left open. `Halt` comes exactly where a further step is to be made, as no offer was loaded or fewer words were read than the set has, and
/// the seat's steps equal its limit.
pub fn take<O: Object>(
    shared: &Shared<O>,
    seat: &mut CallerSeat,
    cell: u64,
    ticket: u64,
    into: &mut WriteSet,
) -> Result<bool, Halt>
    requires may { MayTakeSet shared.now cell ticket seat.old }
    ensures taken { IfOk result (TakesOffered O.Object shared.now cell ticket into.new seat.old seat.new) }
    ensures halted { OnErr result (HaltsTakingSet cell ticket seat.old seat.new) }
    ensures leaves { KeepsTaking shared.now seat.old seat.new }
{
    let found = shared.load_offer(seat, cell, ticket)?;
    if !names(ticket, found) {
        return Ok(false);
    }
    let count = shared.read_set(seat, cell, ticket, 0)?;
    let end = 2 * count as usize + 1;
    into.words[0] = count;
    read_words(shared, seat, cell, ticket, &mut into.words[1..end])?;
    Ok(true)
}

/// Whether an offer word is the one for a ticket.
fn names(ticket: u64, word: u64) -> bool
    ensures { IsTrue result ↔ (word ≡ ticket + 1) }
{
    word != 0 && word - 1 == ticket
}

/// Reads the words of a set from word 1 on.
fn read_words<O: Object>(
    shared: &Shared<O>,
    seat: &mut CallerSeat,
    cell: u64,
    ticket: u64,
    into: &mut [u64],
) -> Result<(), Halt>
    requires may { MayReadSet O.Object shared.now cell ticket seat.old }
    requires few { 1 + length into.old ≤ SET_WORDS }
    ensures read { OnOk result (ReadsSetWords O.Object shared.now ticket 1 into.new seat.old seat.new) }
    ensures halted { OnErr result (HaltsReadingSet ticket 1 (length into.old) seat.old seat.new) }
    ensures leaves { KeepsTaking shared.now seat.old seat.new }
    ensures long { length into.new ≡ length into.old }
{
    if shared.read_set_words(seat, cell, ticket, 1, into) {
        return Ok(());
    }
    read_each(shared, seat, cell, ticket, into)
}

/// Reads the words by a call for each, where the limit may leave fewer steps than there are words.
fn read_each<O: Object>(
    shared: &Shared<O>,
    seat: &mut CallerSeat,
    cell: u64,
    ticket: u64,
    into: &mut [u64],
) -> Result<(), Halt>
    requires may { MayReadSet O.Object shared.now cell ticket seat.old }
    requires few { 1 + length into.old ≤ SET_WORDS }
    ensures read { OnOk result (ReadsSetWords O.Object shared.now ticket 1 into.new seat.old seat.new) }
    ensures halted { OnErr result (HaltsReadingSet ticket 1 (length into.old) seat.old seat.new) }
    ensures leaves { KeepsTaking shared.now seat.old seat.new }
    ensures long { length into.new ≡ length into.old }
{
    for i in 0..into.len() {
        into[i] = shared.read_set(seat, cell, ticket, 1 + i as u64)?;
    }
    Ok(())
}

//! An operation is entered into the queue.

ghost use Rattle.std.specs.Prelude.{◌≡◌, ◌+◌, ◌*◌, ◌<◌, ◌≤◌, IfOk, OnErr};
ghost use Rattle.cx_core.specs.QueueEvents.{IsIdle};
ghost use Rattle.table_invariant.specs.Rule.{IsLawfulLocal};
ghost use Rattle.table_invariant.specs.Running.{instance_at};
ghost use Rattle.table_invariant.specs.Seats.{IsAtLimit};
ghost use Rattle.cx_service.specs.Callers.{IsCallerOf, unlinked};
ghost use Rattle.cx_service.specs.Submits.{AreInUse, AreTickets, EntersOperation, EntersIn, FindsAgain, FindsCell, HaltsInCell, HaltsLooking, LooksForCell, Submits};

use crate::callers::{Caller, Linked, Stopped};
use crate::service::Service;
use cx_base::{Halt, Object, OpWords};
use cx_core::FullNote;
use cx_table::{CallerSeat, Shared};
use mutation_queue::{LinkTried, announce, collect, idle_cell, link};

/// The result of a submit. It hands the caller back in each case.
#[derive(Drop)]
pub enum Submitted {
    /// The entry is linked.
    Linked(Linked),
    /// Each try found another's link.
    Again(Caller),
    /// No cell of the caller is idle: the note names another caller that needs entries in them.
    Full(Caller, FullNote),
    /// There is no further ticket.
    Worn(Caller),
    /// The step limit was reached, and nothing is linked.
    Halted(Stopped),
}

impl<O: Object> Service<O> {
    /// Enters an operation into the queue, in at most `tries` tries to link it. `Full` comes only where the count of scans rose in
    /// this call, the caller's 16 cells all hold tickets, and another caller needs entries from the least of them on or from
    /// before it: the note names that caller. `Worn` comes exactly where a cell was idle and the front is then 2^40; else
    /// `Again` exactly where each of the tries found another's link. `Halted` comes exactly where a further step is to be made
    /// and the steps equal the limit. It makes at most `200 + callers + 3 * tries` steps.
    ///
    /// One try of each call: an update that is not answered then is `None`. From `crates/service_tests/src/checkpoint_starts.rt`:
    /// ```rattle
    /// let Submitted::Linked(linked) = service.submit(caller, &op, 1) else {
    ///     return None;
    /// };
    /// let mut reply = [0; OP_WORDS];
    /// match service.drive(linked, &mut reply, 1) {
    ///     Driven::Done(back, _) => Some((back, reply[0])),
    ///     Driven::Pending(_) | Driven::Halted(_) => None,
    /// }
    /// ```
    pub fn submit(&self, caller: Caller, op: &OpWords, tries: u64) -> Submitted
        requires caller { IsCallerOf self.now caller }
        requires tries { 1 ≤ tries }
        ensures { Submits self.now op.now tries caller result }
    {
        let Caller { mut desk } = caller;
        match find_cell(&self.shared, &mut desk.seat) {
            Ok(Ok(cell)) => self.enter(Caller { desk }, cell, op, tries),
            Ok(Err(note)) => Submitted::Full(Caller { desk }, note),
            Err(Halt) => Submitted::Halted(Stopped { desk, linked: None }),
        }
    }

    /// Enters an operation in an idle cell of the caller.
    fn enter(&self, caller: Caller, cell: u32, op: &OpWords, tries: u64) -> Submitted
        requires caller { IsCallerOf self.now caller }
        requires cell { (cell < 16) × IsIdle caller.known.local cell }
        requires tries { 1 ≤ tries }
        ensures { EntersOperation (146 + 2 * tries) self.now op.now tries caller result }
    {
        let Caller { mut desk } = caller;
        match announce_and_link(&self.shared, &mut desk.seat, cell, op, tries) {
            Ok(LinkTried::Linked { ticket: _ }) => Submitted::Linked(Linked { desk }),
            Ok(LinkTried::Again) => Submitted::Again(Caller { desk }),
            Ok(LinkTried::Worn) => Submitted::Worn(Caller { desk }),
            Err(Halt) => Submitted::Halted(Stopped { desk, linked: None }),
        }
    }
}

/// Announces an operation in an idle cell of the caller, and tries to link it. CUR is loaded first, so that the front is at least the
/// current place.
fn announce_and_link<O: Object>(
    shared: &Shared<O>,
    seat: &mut CallerSeat,
    cell: u32,
    op: &OpWords,
    tries: u64,
) -> Result<LinkTried, Halt>
    requires caller { IsCallerOf shared.now seat.old }
    requires cell { (cell < 16) × IsIdle seat.old.known.local cell }
    requires tries { 1 ≤ tries }
    ensures entered { IfOk result (EntersIn 1 (146 + 2 * tries) shared.now op.now tries seat.old seat.new) }
    ensures halted { OnErr result (HaltsInCell shared.now op.now tries (146 + 2 * tries) seat.old (unlinked seat.new)) }
    ensures sets { IfOk result (λ _. seat.new.known.sets ≡ seat.old.known.sets) }
{
    let _cur = shared.load_cur(seat)?;
    announce(shared, seat, cell, op)?;
    link(shared, seat, cell, tries)
}

/// An idle cell of the caller, or a note why there is none. Where none is idle FREE is loaded, and where still none is idle
/// cells are given again that no caller needs.
fn find_cell<O: Object>(
    shared: &Shared<O>,
    seat: &mut CallerSeat,
) -> Result<Result<u32, FullNote>, Halt>
    requires { IsCallerOf shared.now seat.old }
    ensures looked { LooksForCell (shared.now.callers + 4) seat.old seat.new }
    ensures stood { IsAtLimit seat.old.known.local → seat.new ≡ seat.old }
    ensures found { IfOk result (FindsCell shared.now.callers seat.old seat.new) }
    ensures halted { OnErr result (HaltsLooking (shared.now.callers + 3) seat.old seat.new) }
{
    if let Some(cell) = idle_cell(seat) {
        return Ok(Ok(cell));
    }
    let _free = shared.load_free(seat)?;
    if let Some(cell) = idle_cell(seat) {
        return Ok(Ok(cell));
    }
    reclaim_cells(shared, seat)
}

/// Gives cells of the caller again, all of which are in use, but those that some caller needs. An idle one, or a note of that
/// caller.
fn reclaim_cells<O: Object>(
    shared: &Shared<O>,
    seat: &mut CallerSeat,
) -> Result<Result<u32, FullNote>, Halt>
    requires caller { IsCallerOf shared.now seat.old }
    requires lawful { IsLawfulLocal (instance_at shared.now O.step O.only_reads) seat.old.known.local }
    requires used { AreInUse seat.old.known.local }
    ensures looked { LooksForCell (shared.now.callers + 3) seat.old seat.new }
    ensures found { IfOk result (FindsAgain shared.now.callers seat.old seat.new) }
    ensures halted { OnErr result (HaltsLooking (shared.now.callers + 2) seat.old seat.new) }
{
    // scans are counted in a word
    let _scans = seat.scans();
    let tickets = cell_tickets(seat);
    // as many cells at a time, so that a scan serves eight entries
    let found = collect(shared, seat, tickets[7] + 1)?;
    match idle_cell(seat) {
        Some(cell) => Ok(Ok(cell)),
        None => Ok(Err(FullNote {
            holder: found.holder,
            need: found.need,
            ticket: tickets[0],
        })),
    }
}

/// The tickets of the caller's cells, all of which are in use, in rising order.
fn cell_tickets(seat: &CallerSeat) -> [u64; 16]
    requires { AreInUse seat.now.known.local }
    ensures { AreTickets seat.now.known.local result }
{
    let mut tickets = [0; 16];
    for j in 0..16 {
        tickets[j as usize] = seat.cell_ticket(j).unwrap();
    }
    tickets.sort_unstable();
    tickets
}

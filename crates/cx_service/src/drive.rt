//! A linked entry is driven to its answer.

ghost use Rattle.std.specs.Prelude.{◌≤◌};
ghost use Rattle.cx_service.specs.Callers.{IsLinkedOf};
ghost use Rattle.cx_service.specs.Drives.{Drives};

use crate::callers::{Caller, CallerState, Linked, Stopped};
use crate::facts::refusals_fit;
use crate::service::Service;
use cx_attempts::try_update_once;
use cx_base::{Halt, Object, OpWords};

/// The result of driving an entry.
#[derive(Drop)]
pub enum Driven {
    /// The entry at this ticket is applied and durable, and the reply is written.
    Done(Caller, u64),
    /// In each attempt a refusal was met.
    Pending(Linked),
    /// The step limit was reached.
    Halted(Stopped),
}

impl<O: Object> Service<O> {
    /// Drives a caller's linked entry to its answer, in at most `tries` attempts. `Done` is answered by a raise of the durable root
    /// alone: the reply, which is written into the caller's buffer, is the object's after the entries before the ticket, and a loss of
    /// power keeps the entry. Of the buffer nothing is said where it is not done. `Pending` comes
    /// only where the count of refusals rose in each attempt; no attempt adds more than one. `Halted` comes exactly where a further step is to
    /// be made and the steps equal the limit; the caller keeps the entry's ticket.
    ///
    /// The body of a loop that goes on after `Pending`. From `crates/cx_service/src/update.rt`:
    /// ```rattle
    /// match self.drive(linked, reply, TRIES) {
    ///     Driven::Done(caller, ticket) => return Updated::Done(caller, ticket),
    ///     Driven::Pending(back) => {
    ///         thread::yield_now();
    ///         linked = back;
    ///     }
    ///     Driven::Halted(stopped) => return Updated::Halted(stopped),
    /// }
    /// ```
    pub fn drive(&self, linked: Linked, reply: &mut OpWords, tries: u64) -> Driven
        requires linked { IsLinkedOf self.now linked }
        requires tries { 1 ≤ tries }
        ensures { Drives self.now tries reply.new linked result }
    {
        let mut linked = linked;
        for _attempt in 0..tries {
            match self.drive_once(linked, reply) {
                Driven::Pending(back) => linked = back,
                Driven::Done(caller, ticket) => return Driven::Done(caller, ticket),
                Driven::Halted(stopped) => return Driven::Halted(stopped),
            }
        }
        Driven::Pending(linked)
    }

    /// One attempt of it. The reply is written into the caller's buffer, since each copy of its words costs a good part of the attempt.
    fn drive_once(&self, linked: Linked, reply: &mut OpWords) -> Driven
        requires { IsLinkedOf self.now linked }
        ensures { Drives self.now 1 reply.new linked result }
    {
        let ticket = linked.ticket();
        let Linked { mut desk } = linked;
        let CallerState { seat, scratch } = &mut *desk;
        refusals_fit(seat);
        match try_update_once(&self.shared, seat, ticket, scratch, reply) {
            Ok(true) => Driven::Done(Caller { desk }, ticket),
            Ok(false) => Driven::Pending(Linked { desk }),
            Err(Halt) => Driven::Halted(Stopped {
                desk,
                linked: Some(ticket),
            }),
        }
    }
}

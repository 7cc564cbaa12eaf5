//! Closing a service.

ghost use Rattle.std.specs.Prelude.{◌≡◌, ◌≤◌, [], IfErr, IfOk, vec_capacity, vec_len};
ghost use Rattle.table_invariant.specs.Running.{instance_at};
ghost use Rattle.cx_table.specs.Remains.{AreSeats};
ghost use Rattle.cx_service.specs.Closes.{seat_of, seats_of};
ghost use Rattle.cx_service.specs.ClosedOrder.{IsClosedLinearizable};

use crate::callers::{Caller, CallerState, Linked, Stopped};
use crate::closed_order::closed_tables_are_linearizable;
use crate::service::Service;
use cx_base::Object;
use cx_table::{CallerSeat, Remains};
use std::alloc::Global;

/// A caller that is handed in, in whatever state it is.
#[derive(Drop)]
pub enum Handed {
    Idle(Caller),
    Linked(Linked),
    Stopped(Stopped),
}

/// A service that was not closed since memory ran out, and its callers: all as it was.
#[derive(Drop)]
pub struct Kept<O: Object> {
    pub service: Service<O>,
    pub callers: Vec<Handed>,
}

impl<O: Object> Service<O> {
    /// Closes the service, whose callers are handed in, of caller 0 first. What it leaves was reached by all callers' steps, one after
    /// another: by their order the history is a linearization (Herlihy and Wing), also over a crash (Izraelevitz and others), and where the
    /// steps of one call stand before those of another, so do the calls' operations. `Err` comes only where memory runs out, and hands
    /// all back as it was.
    ///
    /// Both callers of a service. From `crates/service_tests/src/starts.rt`:
    /// ```rattle
    /// let callers = vec![in alloc; first, second]?;
    /// match service.close(alloc, callers) {
    ///     Ok(remains) => Ok(remains),
    ///     Err(_) => Err(AllocError),
    /// }
    /// ```
    pub fn close(self, alloc: Global, callers: Vec<Handed>) -> Result<Remains, Kept<O>>
        requires { AreSeats self (seats_of callers.items) }
        ensures remains { IfOk result (λ r. IsClosedLinearizable self (instance_at self O.step O.only_reads) (seats_of callers.items) r) }
        ensures kept { IfErr result (λ k. (k.service ≡ self) × (k.callers ≡ callers)) }
    {
        let Ok(room) = self.shared.room(alloc) else {
            return Err(Kept {
                service: self,
                callers,
            });
        };
        let Ok(seats) = Vec::with_capacity(alloc, callers.len()) else {
            return Err(Kept {
                service: self,
                callers,
            });
        };
        // a running table is within its limits, by which what it leaves is a linearizable object's
        let _lines = self.shared.lines();
        closed_tables_are_linearizable::<O>();
        let Service { shared, .. } = self;
        Ok(shared.gather_in(room, as_seats(callers, seats)))
    }
}

/// The seats of callers.
fn as_seats(callers: Vec<Handed>, mut seats: Vec<CallerSeat>) -> Vec<CallerSeat>
    requires none { seats.items ≡ [] }
    requires room { vec_len callers ≤ vec_capacity seats }
    ensures { result.items ≡ seats_of callers.items }
{
    for handed in callers {
        seats.push_reserved(as_seat(handed));
    }
    seats
}

/// The seat of a caller.
fn as_seat(handed: Handed) -> CallerSeat
    ensures { result ≡ seat_of handed }
{
    let desk = match handed {
        Handed::Idle(Caller { desk }) => desk,
        Handed::Linked(Linked { desk }) => desk,
        Handed::Stopped(Stopped { desk, .. }) => desk,
    };
    let CallerState { seat, .. } = Box::into_inner(desk);
    seat
}

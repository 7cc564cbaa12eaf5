//! A caller catches up with what another one was answered.

ghost use Rattle.std.specs.Prelude.{◌≡◌, IfOk, OnErr};
ghost use Rattle.cx_service.specs.Callers.{IsCallerOf, IsStoppedOf};
ghost use Rattle.cx_service.specs.CatchUps.{CatchUpKeeps, CatchesUp, IsCatchingUp, SeesCurrent};

use crate::callers::{Caller, Stopped};
use crate::service::Service;
use cx_base::{Halt, Object, root_place};
use cx_table::{CallerSeat, Shared};
use publish::make_durable;

/// The result of catching up with a place.
#[derive(Drop)]
pub enum CaughtUp {
    /// The caller has seen the place.
    Caught(Caller),
    /// The current place is below it: this one.
    Behind(Caller, u64),
    /// The step limit was reached.
    Halted(Stopped),
}

impl<O: Object> Service<O> {
    /// Has a caller see a place that another one told, in whatever way: behind an answered update the place is its ticket plus 1, and of a
    /// read it is the read's. From `Caught` on each entry that the caller links has a ticket at or above the place, and each read that it is
    /// answered a place at or above it, so what the other one was told stands before both. `Behind` comes only where CUR was found below the
    /// place, which is where nobody was answered at it. `Halted` comes exactly where a further step is to be made and the steps equal the limit.
    ///
    /// The body of a loop that goes on after `Behind`. From `crates/service_parts/src/call.rt`:
    /// ```rattle
    /// match service.catch_up(caller, place) {
    ///     CaughtUp::Caught(back) => return Ok(back),
    ///     CaughtUp::Behind(back, _) => {
    ///         thread::yield_now();
    ///         caller = back;
    ///     }
    ///     CaughtUp::Halted(stopped) => return Err(stopped),
    /// }
    /// ```
    pub fn catch_up(&self, caller: Caller, place: u64) -> CaughtUp
        requires { IsCallerOf self.now caller }
        ensures { CatchesUp self.now place caller result }
    {
        let Caller { mut desk } = caller;
        match see_current(&self.shared, &mut desk.seat) {
            Ok(found) => {
                if found < place {
                    CaughtUp::Behind(Caller { desk }, found)
                } else {
                    CaughtUp::Caught(Caller { desk })
                }
            }
            Err(Halt) => CaughtUp::Halted(Stopped { desk, linked: None }),
        }
    }
}

/// Loads CUR and raises DUR by the code found, which ends its use, and gives its place.
fn see_current<O: Object>(shared: &Shared<O>, seat: &mut CallerSeat) -> Result<u64, Halt>
    requires { IsCallerOf shared.now seat.old }
    ensures seen { IfOk result (SeesCurrent shared.now seat.old seat.new) }
    ensures keeps { CatchUpKeeps seat.old seat.new }
    ensures halted { OnErr result (IsStoppedOf shared.now seat.new × IsCatchingUp seat.old seat.new) }
    ensures sets { seat.new.known.sets ≡ seat.old.known.sets }
{
    let code = shared.load_cur(seat)?;
    make_durable(shared, seat, code, None)?;
    Ok(root_place(shared.callers(), code))
}

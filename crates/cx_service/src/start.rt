//! Starting a service.

ghost use Rattle.std.specs.Prelude.{◌≡◌, ◌≤◌, [], All, IfOk, MatchResult, length, vec_capacity, vec_len};
ghost use Rattle.cx_core.specs.Base.{LawfulBase};
ghost use Rattle.cx_service.specs.Starts.{AreFewCallers, AreFewLines, HasNoSets, IsStartFault, Starts};

use crate::callers::{Caller, CallerState};
use crate::service::Service;
use cx_attempts::Scratch;
use cx_base::Object;
use cx_core::Base;
use cx_table::{CallerSeat, Shared};
use std::alloc::{AllocError, Global};

/// Why a service was not started.
#[derive(Clone, Copy, Debug, PartialEq, Eq, Drop)]
pub enum StartFault {
    /// The callers are not 1 to 8.
    Callers { found: u32 },
    /// The object's lines are not 64 to 16,384.
    Lines { found: u64 },
    /// Out of memory.
    Memory,
}

impl<O: Object> Service<O> {
    /// Starts the service of 1 to 8 callers that opens from a base, and gives its callers, of caller 0 first. The limit of
    /// caller `c` is item `c` of `limits`; 2^64 - 1 is no limit. All memory of all callers is taken here. A fault drops the
    /// object.
    ///
    /// One caller without a limit of steps. From `crates/life_tests/src/queue_service.rt`:
    /// ```rattle
    /// let queue = Fifo::of(64);
    /// let base = Base::fresh(alloc, &queue)?;
    /// let Ok((service, callers)) = Service::start(alloc, queue, 1, &[u64::MAX], &base) else {
    ///     return Err(AllocError);
    /// };
    /// ```
    pub fn start(
        alloc: Global,
        object: O,
        callers: u32,
        limits: &[u64],
        base: &Base,
    ) -> Result<(Service<O>, Vec<Caller>), StartFault>
        requires limits { length limits.now ≡ callers }
        requires base { AreFewCallers callers → AreFewLines (O.line_count object) → LawfulBase (O.line_count object) (O.lawful object) base.now }
        ensures { MatchResult result (λ r. Starts object (O.line_count object) callers limits.now base.now r.0 r.1.items) (IsStartFault callers (O.line_count object)) }
    {
        if callers < 1 || callers > 8 {
            return Err(StartFault::Callers { found: callers });
        }
        let lines = object.lines();
        if lines < 64 || lines > 16384 {
            return Err(StartFault::Lines { found: lines });
        }
        let Ok(room) = Vec::with_capacity(alloc, callers as usize) else {
            return Err(StartFault::Memory);
        };
        let Ok((shared, seats)) = Shared::make(alloc, object, callers, limits, base) else {
            return Err(StartFault::Memory);
        };
        let Ok(callers) = as_callers(alloc, seats, room) else {
            return Err(StartFault::Memory);
        };
        Ok((
            Service {
                shared,
                place: base.place,
            },
            callers,
        ))
    }
}

/// The callers of seats that read no write sets.
fn as_callers(
    alloc: Global,
    seats: Vec<CallerSeat>,
    mut callers: Vec<Caller>,
) -> Result<Vec<Caller>, AllocError>
    requires fresh { All HasNoSets seats.items }
    requires none { callers.items ≡ [] }
    requires room { vec_len seats ≤ vec_capacity callers }
    ensures { IfOk result (λ made. made.items ≡ seats.items) }
{
    for seat in seats {
        callers.push_reserved(as_caller(alloc, seat)?);
    }
    Ok(callers)
}

/// The caller of a seat that read no write sets, which gets memory of its own.
fn as_caller(alloc: Global, seat: CallerSeat) -> Result<Caller, AllocError>
    requires fresh { HasNoSets seat }
    ensures { IfOk result (λ made. made ≡ seat) }
{
    let scratch = Scratch::new(alloc)?;
    let desk = Box::new(alloc, CallerState { seat, scratch })?;
    Ok(Caller { desk })
}

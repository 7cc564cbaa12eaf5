//! A service is opened, with a session for each of its callers.

ghost use Rattle.std.specs.Prelude.{◌≡◌, ◌<◌, ◌≤◌, All, IfOk, MatchResult, length, map};
ghost use Rattle.std.specs.List.{range_with_len};
ghost use Rattle.cx_core.specs.Base.{LawfulBase};
ghost use Rattle.cx_service.specs.Callers.{IsCallerOf};
ghost use Rattle.cx_service.specs.Starts.{AreFewCallers, AreFewLines};
ghost use Rattle.c_sessions.specs.Sessions.{AreFirst, AreOpenSessions, AreOpenSessionsOf, IsOpenFault};

use crate::exit::ClosingState;
use crate::handover::{NoQueue, open_for};
use crate::session::Session;
use cx_base::Object;
use cx_core::Base;
use cx_service::{Caller, Handed, Service, StartFault};
use std::alloc::Global;
use std::sync::Arc;

/// Why no sessions are opened.
#[derive(Clone, Copy, Debug, PartialEq, Eq, Drop)]
pub enum OpenFault {
    /// The service is not started, or memory ran out for its sessions.
    Start(StartFault),
    /// The new queue of the sessions did not take its first entry, or did not give it back. Nobody else has it, and no run is known to answer this.
    InTheWay,
}

/// The sessions of a new service of this many callers over the object as it opens, of caller 0 first. All memory is taken here but for what the
/// closing of the service takes. `Err` says why there are none, as for `open_from`, and drops the object.
///
/// From `crates/githoppu_c/src/open.rt`:
/// ```rattle
/// match open(alloc, object, count as u32) {
///     Ok(sessions) => Ok(sessions),
///     Err(fault) => Err(open_code(fault)),
/// }
/// ```
pub fn open<O: Object>(alloc: Global, object: O, callers: u32) -> Result<Vec<Session<O>>, OpenFault>
    ensures { MatchResult result (λ sessions. AreFirst object (O.line_count object) callers (O.opening object) sessions.items) (IsOpenFault callers (O.line_count object)) }
{
    let Ok(base) = Base::fresh(alloc, &object) else {
        return Err(OpenFault::Start(StartFault::Memory));
    };
    open_from(alloc, object, callers, &base)
}

/// The sessions of a new service of this many callers that opens from a base, of caller 0 first. `Err` says why there are none:
/// the number of callers or of lines is wrong, memory ran out, or the new queue did not take its first entry or give it back. It drops
/// the object.
pub fn open_from<O: Object>(
    alloc: Global,
    object: O,
    callers: u32,
    base: &Base,
) -> Result<Vec<Session<O>>, OpenFault>
    requires { AreFewCallers callers → AreFewLines (O.line_count object) → LawfulBase (O.line_count object) (O.lawful object) base.now }
    ensures { MatchResult result (λ sessions. AreOpenSessions object (O.line_count object) callers base.now sessions.items) (IsOpenFault callers (O.line_count object)) }
{
    // the step limit of each caller: the greatest number that there is
    let Ok(limits) = Vec::from_elem(alloc, u64::MAX, callers as usize) else {
        return Err(OpenFault::Start(StartFault::Memory));
    };
    match Service::start(alloc, object, callers, &limits, base) {
        Ok((service, callers)) => match shared(alloc, service, callers) {
            Ok(sessions) => Ok(sessions),
            Err(NoQueue::Memory) => Err(OpenFault::Start(StartFault::Memory)),
            Err(NoQueue::InTheWay) => Err(OpenFault::InTheWay),
        },
        Err(fault) => Err(OpenFault::Start(fault)),
    }
}

/// A session for each caller of the `service`, in order. `callers` are all its callers, idle and in the order of their numbers. `Err` says why there
/// are none: memory ran out, or the new queue did not take its first entry or give it back.
fn shared<O: Object>(
    alloc: Global,
    service: Service<O>,
    callers: Vec<Caller>,
) -> Result<Vec<Session<O>>, NoQueue>
    requires some { 0 < service.callers }
    requires all { (length callers.items ≡ service.callers) × (service.callers ≤ 8) }
    requires each { All (IsCallerOf service) callers.items }
    requires numbers { map (λ c. c.known.local.number) callers.items ≡ range_with_len 0 service.callers }
    ensures { IfOk result (λ sessions. AreOpenSessionsOf service callers.items sessions.items) }
{
    let count = callers.len();
    let Ok(service) = Arc::new(alloc, service) else {
        return Err(NoQueue::Memory);
    };
    // the queue in which closed sessions hand in their callers, and a pass that is to hand in all of them
    let (handover, mut pass) = open_for(alloc, &service, count as u32)?;
    let Ok(handover) = Arc::new(alloc, handover) else {
        return Err(NoQueue::Memory);
    };
    // each session gets its caller, a share of the service, and a pass that is to hand in this caller
    let mut sessions = Vec::new(alloc);
    for caller in callers {
        let Ok(exit) = ClosingState::another(alloc, &service, count, &handover, &mut pass) else {
            return Err(NoQueue::Memory);
        };
        let Ok(share) = Arc::try_clone(&service) else {
            return Err(NoQueue::Memory);
        };
        let session = Session::of(share, exit, Handed::Idle(caller));
        let Ok(()) = sessions.push(session) else {
            return Err(NoQueue::Memory);
        };
    }
    Ok(sessions)
}

//! A caller's calls, turn by turn.

ghost use Rattle.std.specs.Prelude.{◌≤◌, IsTrue};
ghost use Rattle.cx_service.specs.Callers.{IsCallerOf, IsLinkedOf};
ghost use Rattle.cx_service.specs.Closes.{seat_of};
ghost use Rattle.service_tests.specs.Tests.{IsHandedBack, IsHandedCaller};

use crate::tasks::Work;
use cx_base::Object;
use cx_core::FullNote;
use cx_service::{Caller, CaughtUp, Driven, Handed, Linked, ReadTried, Service, Submitted};
use std::thread::yield_now;

/// The answer to a turn.
#[derive(Clone, Copy)]
pub(crate) enum Came {
    /// The update at this ticket is answered.
    Updated(u64),
    /// The read beside the queue is answered at this place.
    Read(u64),
    /// The entry is linked at this ticket, and not driven yet.
    Linked(u64),
    /// Each try found another's link.
    Again,
    /// A refusal was met.
    Pending,
    /// No cell of the caller is idle.
    Full(FullNote),
    /// There is no further ticket, and the caller's front is this.
    Worn(u64),
    /// The step limit was reached: the ticket of the linked entry that no call has answered.
    Halted(Option<u64>),
}

/// A call as its caller saw it end: how it came out, the steps of the caller then, and the reply, which is 0 where there is none.
#[derive(Clone, Copy)]
pub(crate) struct Call {
    pub(crate) came: Came,
    pub(crate) steps: u64,
    pub(crate) reply: [u64; 144],
}

impl Call {
    /// Whether the call is answered.
    pub(crate) fn is_answered(&self) -> bool {
        match self.came {
            Came::Updated(_) | Came::Read(_) => true,
            _ => false,
        }
    }

    /// Whether the update at this ticket is answered.
    pub(crate) fn is_updated(&self, ticket: u64) -> bool {
        match self.came {
            Came::Updated(at) => at == ticket,
            _ => false,
        }
    }

    /// Whether the read beside the queue is answered at this place.
    pub(crate) fn is_read(&self, place: u64) -> bool {
        match self.came {
            Came::Read(at) => at == place,
            _ => false,
        }
    }

    /// Whether a read beside the queue is answered.
    pub(crate) fn is_beside(&self) -> bool {
        match self.came {
            Came::Read(_) => true,
            _ => false,
        }
    }

    /// Whether the step limit was reached, with this ticket of a linked entry.
    pub(crate) fn is_halted(&self, linked: Option<u64>) -> bool {
        match self.came {
            Came::Halted(at) => at == linked,
            _ => false,
        }
    }

    // Whether this answer ends the call, so that no further turn is of use.
    fn is_last(&self) -> bool {
        match self.came {
            Came::Linked(_) | Came::Again | Came::Pending | Came::Full(_) => false,
            _ => true,
        }
    }

    // Whether another caller is to go on first: it holds a replica, or needs the entries in this caller's cells as long as it drives.
    fn waits(&self) -> bool {
        match self.came {
            Came::Pending | Came::Full(_) => true,
            _ => false,
        }
    }
}

// The answer to a turn that has no reply.
fn noted(came: Came, steps: u64) -> Call {
    Call {
        came,
        steps,
        reply: [0; 144],
    }
}

// The answer to a turn that has a reply.
fn replied(came: Came, steps: u64, reply: &[u64; 144]) -> Call {
    let reply = *reply;
    Call { came, steps, reply }
}

/// How a call is made.
#[derive(Clone, Copy)]
pub(crate) struct Way {
    /// Whether each submit has two tries; otherwise it has one.
    pub(crate) twice: bool,
    /// The most turns: each submits, drives the linked entry once, or reads beside the queue once.
    pub(crate) turns: u64,
    /// Whether an operation that only reads is read beside the queue.
    pub(crate) beside: bool,
}

/// One submit with one try.
pub(crate) const SUBMIT: Way = Way {
    twice: false,
    turns: 1,
    beside: false,
};

/// One submit with two tries.
pub(crate) const SUBMIT_TWICE: Way = Way {
    twice: true,
    turns: 1,
    beside: false,
};

/// One submit with one try, and one turn that drives.
pub(crate) const UPDATE: Way = Way {
    twice: false,
    turns: 2,
    beside: false,
};

/// One submit with two tries, and one turn that drives.
pub(crate) const UPDATE_TWICE: Way = Way {
    twice: true,
    turns: 2,
    beside: false,
};

/// One turn that reads.
pub(crate) const READ: Way = Way {
    twice: false,
    turns: 1,
    beside: true,
};

// The tries of a submit.
fn tries(twice: bool) -> u64
    ensures { 1 ≤ result }
{
    if twice { 2 } else { 1 }
}

// A turn that submits, by one or two tries.
fn submitted<O: Object>(
    service: &Service<O>,
    caller: Caller,
    op: &[u64; 144],
    twice: bool,
) -> (Handed, Call)
    requires { IsCallerOf service.now caller }
    ensures { IsHandedBack service.now caller result.0 }
{
    match service.submit(caller, op, tries(twice)) {
        Submitted::Linked(linked) => {
            let call = noted(Came::Linked(linked.ticket()), linked.steps());
            (Handed::Linked(linked), call)
        }
        Submitted::Again(caller) => {
            let call = noted(Came::Again, caller.steps());
            (Handed::Idle(caller), call)
        }
        Submitted::Full(caller, note) => {
            let call = noted(Came::Full(note), caller.steps());
            (Handed::Idle(caller), call)
        }
        Submitted::Worn(caller) => {
            let call = noted(Came::Worn(caller.front()), caller.steps());
            (Handed::Idle(caller), call)
        }
        Submitted::Halted(stopped) => {
            let call = noted(Came::Halted(stopped.linked()), stopped.steps());
            (Handed::Stopped(stopped), call)
        }
    }
}

// A turn that drives.
fn driven<O: Object>(service: &Service<O>, linked: Linked) -> (Handed, Call)
    requires { IsLinkedOf service.now linked }
    ensures { IsHandedBack service.now linked result.0 }
{
    let mut reply = [0; 144];
    match service.drive(linked, &mut reply, 1) {
        Driven::Pending(linked) => {
            let call = noted(Came::Pending, linked.steps());
            (Handed::Linked(linked), call)
        }
        Driven::Done(caller, ticket) => {
            let call = replied(Came::Updated(ticket), caller.steps(), &reply);
            (Handed::Idle(caller), call)
        }
        Driven::Halted(stopped) => {
            let call = noted(Came::Halted(stopped.linked()), stopped.steps());
            (Handed::Stopped(stopped), call)
        }
    }
}

// A turn that reads beside the queue.
fn looked<O: Object>(service: &Service<O>, caller: Caller, op: &[u64; 144]) -> (Handed, Call)
    requires caller { IsCallerOf service.now caller }
    requires reads { IsTrue (O.only_reads service.now.object op.now) }
    ensures { IsHandedBack service.now caller result.0 }
{
    let mut reply = [0; 144];
    match service.try_read(caller, op, &mut reply, 1) {
        ReadTried::Pending(caller) => {
            let call = noted(Came::Pending, caller.steps());
            (Handed::Idle(caller), call)
        }
        ReadTried::Read(caller, place) => {
            let call = replied(Came::Read(place), caller.steps(), &reply);
            (Handed::Idle(caller), call)
        }
        ReadTried::Halted(stopped) => {
            let call = noted(Came::Halted(stopped.linked()), stopped.steps());
            (Handed::Stopped(stopped), call)
        }
    }
}

// A turn of a caller with no call under way: a read beside the queue where the way says so and the operation only reads, and otherwise a submit.
fn begun<O: Object>(
    service: &Service<O>,
    caller: Caller,
    op: &[u64; 144],
    way: Way,
) -> (Handed, Call)
    requires { IsCallerOf service.now caller }
    ensures { IsHandedBack service.now caller result.0 }
{
    if way.beside && service.object().reads(op) {
        looked(service, caller, op)
    } else {
        submitted(service, caller, op, way.twice)
    }
}

// A turn of a caller in any state: it begins a call, drives the entry that it linked, or is stopped already.
fn turned<O: Object>(
    service: &Service<O>,
    handed: Handed,
    op: &[u64; 144],
    way: Way,
) -> (Handed, Call)
    requires { IsHandedCaller service.now handed }
    ensures { IsHandedBack service.now (seat_of handed) result.0 }
{
    match handed {
        Handed::Idle(caller) => begun(service, caller, op, way),
        Handed::Linked(linked) => driven(service, linked),
        Handed::Stopped(stopped) => {
            let call = noted(Came::Halted(stopped.linked()), stopped.steps());
            (Handed::Stopped(stopped), call)
        }
    }
}

/// A caller asks for an operation, and is told the answer to its last turn.
pub(crate) fn asked<O: Object>(
    service: &Service<O>,
    handed: Handed,
    op: &[u64; 144],
    way: Way,
) -> (Handed, Call)
    requires { IsHandedCaller service.now handed }
    ensures { IsHandedBack service.now (seat_of handed) result.0 }
{
    let mut handed = handed;
    let mut last = noted(Came::Pending, 0);
    for _turn in 0..way.turns {
        let (back, now) = turned(service, handed, op, way);
        handed = back;
        last = now;
        if last.is_last() {
            break;
        }
        if last.waits() {
            yield_now();
        }
    }
    (handed, last)
}

// The number of a caller.
fn number_of(handed: &Handed) -> u32 {
    match handed {
        Handed::Idle(caller) => caller.number(),
        Handed::Linked(linked) => linked.number(),
        Handed::Stopped(stopped) => stopped.number(),
    }
}

/// A caller asks for its operations one after another, as long as they are answered, and what it is told is put at the end of a list. It
/// also ends where no memory is left for that. Before an operation it waits until the current place is the one that the work has it wait for.
pub(crate) fn all_asked<O: Object>(
    service: &Service<O>,
    handed: Handed,
    work: Work,
    way: Way,
    log: &mut Vec<Call>,
) -> Handed
    requires { IsHandedCaller service.now handed }
    ensures { IsHandedBack service.now (seat_of handed) result }
{
    let count = work.count(u64::from(number_of(&handed)));
    asked_between(service, handed, work, (0, count), way, log)
}

/// A caller asks for its operations from number `ends.0` on to below `ends.1`, one after another as long as they are answered, and what it is told is put
/// at the end of a list.
pub(crate) fn asked_between<O: Object>(
    service: &Service<O>,
    handed: Handed,
    work: Work,
    ends: (u64, u64),
    way: Way,
    log: &mut Vec<Call>,
) -> Handed
    requires { IsHandedCaller service.now handed }
    ensures { IsHandedBack service.now (seat_of handed) result }
{
    let mut handed = handed;
    let number = u64::from(number_of(&handed));
    for k in ends.0..ends.1 {
        let ready = waited(service, handed, work.waits_for(number, k));
        let (back, call) = asked(service, ready, &work.task(number, k), way);
        handed = back;
        if log.push(call).is_err() || !call.is_answered() {
            break;
        }
    }
    handed
}

// The most looks that a caller takes at the current place while it waits for a place.
const LOOKS: u64 = 1_000_000_000;

// A caller with no call under way waits until the current place is at or above `place`; a caller in a call or stopped is returned at once.
fn waited<O: Object>(service: &Service<O>, handed: Handed, place: u64) -> Handed
    requires { IsHandedCaller service.now handed }
    ensures { IsHandedBack service.now (seat_of handed) result }
{
    if place == 0 {
        return handed;
    }
    match handed {
        Handed::Idle(caller) => waited_idle(service, caller, place),
        Handed::Linked(_) | Handed::Stopped(_) => handed,
    }
}

// An idle caller waits until the current place is at or above `place`, for `LOOKS` looks at most.
fn waited_idle<O: Object>(service: &Service<O>, caller: Caller, place: u64) -> Handed
    requires { IsCallerOf service.now caller }
    ensures { IsHandedBack service.now caller result }
{
    let mut caller = caller;
    for _look in 0..LOOKS {
        match service.catch_up(caller, place) {
            CaughtUp::Caught(back) => return Handed::Idle(back),
            CaughtUp::Behind(back, _) => caller = back,
            CaughtUp::Halted(stopped) => return Handed::Stopped(stopped),
        }
        yield_now();
    }
    Handed::Idle(caller)
}

//! A session's call, made by its caller in whichever state that is: idle, with a linked entry, or stopped.

ghost use Rattle.std.specs.Prelude.{◌≡◌, IsTrue};
ghost use Rattle.cx_service.specs.Callers.{IsCallerOf, IsLinkedOf};
ghost use Rattle.seat_pool.specs.Gathering.{IsHandedOf};
ghost use Rattle.c_sessions.specs.Calls.{Calls, CallsFrom, DrivesTo, EntersTo, FinishesFrom, HandsBack, LooksTo, place_after};

use crate::tries::Tries;
use cx_base::{Object, OpWords};
use cx_service::{Caller, Driven, Handed, Linked, ReadTried, Service, Submitted};

/// The result of a call.
#[derive(Clone, Copy, Debug, PartialEq, Eq, Drop)]
pub enum Called {
    /// The call is answered, and its reply is written. Who catches up with this place sees the call: the ticket plus 1 of an entry, the place of a read.
    Done(u64),
    /// The entry is linked and not answered yet.
    Pending,
    /// Others were in the way in each try, and nothing is linked.
    Again,
    /// No cell of the caller is idle: another caller needs entries in them. Nothing is linked.
    Full,
    /// There is no further ticket, and nothing is linked.
    Worn,
    /// The caller has reached its step limit.
    Stopped,
    /// The caller is in the wrong state for this call, and nothing was done: `call` takes an idle caller, and `finish` one with a linked entry.
    OutOfTurn,
}

impl Called {
    /// The session's place after the call: the answer's place where the call is done, and `before` where it is not.
    pub(crate) fn place_after(self, before: u64) -> u64
        ensures { result ≡ place_after self before }
    {
        match self {
            Called::Done(place) => place,
            _ => before,
        }
    }
}

/// Does the operation `op` by the caller `handed`, if it is idle. A caller that is stopped or has a linked entry is out of turn, and stays as it is.
/// The result is the caller in its state after the call, and what is answered; `reply` has the reply where that is `Done`.
pub(crate) fn call_idle<O: Object>(
    service: &Service<O>,
    handed: Handed,
    op: &OpWords,
    reply: &mut OpWords,
    tries: Tries,
) -> (Handed, Called)
    requires handed { IsHandedOf service.now handed }
    ensures { HandsBack service.now result.0 (CallsFrom O.only_reads service.now op.now tries.count handed result.1 result.0 reply.new) }
{
    match handed {
        Handed::Idle(caller) => read_or_enter(service, caller, op, reply, tries),
        other => (other, Called::OutOfTurn),
    }
}

/// Drives the linked entry of the caller `handed` to its answer. A caller without a linked entry is out of turn, and stays as it is. The result is
/// the caller in its state after the call, and what is answered; `reply` has the reply where that is `Done`.
pub(crate) fn finish_linked<O: Object>(
    service: &Service<O>,
    handed: Handed,
    reply: &mut OpWords,
    tries: Tries,
) -> (Handed, Called)
    requires handed { IsHandedOf service.now handed }
    ensures { HandsBack service.now result.0 (FinishesFrom service.now tries.count handed result.1 result.0 reply.new) }
{
    match handed {
        Handed::Linked(linked) => drive(service, linked, reply, tries),
        other => (other, Called::OutOfTurn),
    }
}

/// Does the operation `op` by an idle caller: by a read beside the log where it only reads, and as an entry of the log where it does not. The result
/// is the caller in its state after the call, and what is answered.
fn read_or_enter<O: Object>(
    service: &Service<O>,
    caller: Caller,
    op: &OpWords,
    reply: &mut OpWords,
    tries: Tries,
) -> (Handed, Called)
    requires caller { IsCallerOf service.now caller }
    ensures { HandsBack service.now result.0 (Calls O.only_reads service.now op.now tries.count caller result.1 result.0 reply.new) }
{
    if service.object().reads(op) {
        read_idle(service, caller, op, reply, tries)
    } else {
        enter(service, caller, op, reply, tries)
    }
}

/// Does the operation `op`, which only reads, by a read beside the log. It answers `Done` with the place of the read, `Again` where no try was
/// answered, or `Stopped`; and it gives back the caller, idle or stopped.
fn read_idle<O: Object>(
    service: &Service<O>,
    caller: Caller,
    op: &OpWords,
    reply: &mut OpWords,
    tries: Tries,
) -> (Handed, Called)
    requires caller { IsCallerOf service.now caller }
    requires reads { IsTrue (O.only_reads service.now.object op.now) }
    ensures { HandsBack service.now result.0 (LooksTo service.now op.now tries.count caller result.1 result.0 reply.new) }
{
    match service.try_read(caller, op, reply, tries.count) {
        ReadTried::Read(back, place) => (Handed::Idle(back), Called::Done(place)),
        ReadTried::Pending(back) => (Handed::Idle(back), Called::Again),
        ReadTried::Halted(stopped) => (Handed::Stopped(stopped), Called::Stopped),
    }
}

/// Links the operation `op` into the log as an entry, and drives the entry to its answer. Where it is not linked, the caller is idle again, or
/// stopped, and the answer says why.
fn enter<O: Object>(
    service: &Service<O>,
    caller: Caller,
    op: &OpWords,
    reply: &mut OpWords,
    tries: Tries,
) -> (Handed, Called)
    requires caller { IsCallerOf service.now caller }
    ensures { HandsBack service.now result.0 (EntersTo service.now op.now tries.count caller result.1 result.0 reply.new) }
{
    match service.submit(caller, op, tries.count) {
        Submitted::Linked(linked) => drive(service, linked, reply, tries),
        Submitted::Again(back) => (Handed::Idle(back), Called::Again),
        Submitted::Full(back, _) => (Handed::Idle(back), Called::Full),
        Submitted::Worn(back) => (Handed::Idle(back), Called::Worn),
        Submitted::Halted(stopped) => (Handed::Stopped(stopped), Called::Stopped),
    }
}

/// Drives the entry of `linked` to its answer, in at most the given number of attempts. It answers `Done` with the place after the entry, `Pending`
/// where the entry is not answered yet, or `Stopped`; and it gives back the caller: idle, with its linked entry, or stopped.
fn drive<O: Object>(
    service: &Service<O>,
    linked: Linked,
    reply: &mut OpWords,
    tries: Tries,
) -> (Handed, Called)
    requires linked { IsLinkedOf service.now linked }
    ensures { HandsBack service.now result.0 (DrivesTo service.now tries.count linked result.1 result.0 reply.new) }
{
    match service.drive(linked, reply, tries.count) {
        Driven::Done(back, ticket) => {
            let place = back.place_behind(ticket);
            (Handed::Idle(back), Called::Done(place))
        }
        Driven::Pending(back) => (Handed::Linked(back), Called::Pending),
        Driven::Halted(stopped) => (Handed::Stopped(stopped), Called::Stopped),
    }
}

//! A call that goes on until it is answered.

ghost use Rattle.std.specs.Prelude.{IsTrue};
ghost use Rattle.cx_service.specs.Callers.{IsCallerOf};
ghost use Rattle.service_parts.specs.Asking.{IsAnsweredOrStopped, IsAsked, KeepsPlaces};

use cx_base::{Object, OpWords};
use cx_service::{Caller, CaughtUp, ReadDone, Service, Stopped, Updated};
use std::sync::Wait;
use std::thread;

/// The result of an operation that is asked for until it is answered.
#[derive(Drop)]
pub enum AskOutcome {
    /// It is done and durable, or read of what is durable, and the reply is written: the place by which another caller catches up with it, after
    /// an entry its ticket plus 1, and of a read the read's.
    Told(Caller, u64),
    /// There is no further ticket. Nothing is done.
    Worn(Caller),
    /// The caller's step limit was reached.
    Stopped(Stopped),
}

/// Asks for an operation until it is answered, and writes its reply into the caller's buffer, of which nothing is said where it is not answered;
/// one that only reads is answered beside the queue where it can be. Where another caller
/// needs this one's cells (`Full`) it is tried again, once others have run: each caller gives back in time what it needs, unless it was
/// stopped. So it is for services none of whose callers has a limit of steps; with one that may be stopped, count the answers of
/// `Service::update` and stop asking.
pub fn ask<O: Object, R: Wait>(
    rt: &R,
    service: &Service<O>,
    caller: Caller,
    op: &OpWords,
    reply: &mut OpWords,
) -> AskOutcome
    requires { IsCallerOf service.now caller }
    ensures asked { IsAsked service.now op.now reply.new caller result }
    ensures sees { KeepsPlaces service.now.callers caller result }
{
    if service.object().reads(op) {
        read_beside(rt, service, caller, op, reply)
    } else {
        update_once(rt, service, caller, op, reply)
    }
}

/// Has a caller see a place that another one was told, by which it catches up: from then on its entries and its reads stand at or above it. Where
/// the current place is below it, which is where nobody was answered at it yet, it is tried again once others have run. `Err` is the caller whose limit of
/// steps was reached.
pub fn follow<O: Object, R: Wait>(
    rt: &R,
    service: &Service<O>,
    caller: Caller,
    place: u64,
) -> Result<Caller, Stopped>
    requires { IsCallerOf service.now caller }
    ensures { IsAnsweredOrStopped service.now place caller result }
{
    let mut caller = caller;
    for _ in rt.forever() {
        match service.catch_up(caller, place) {
            CaughtUp::Caught(back) => return Ok(back),
            CaughtUp::Behind(back, _) => {
                thread::yield_now();
                caller = back;
            }
            CaughtUp::Halted(stopped) => return Err(stopped),
        }
    }
    unreachable!()
}

/// Asks for an operation of any kind, as an entry of the queue, until it is answered, no ticket is left, or the caller is stopped.
fn update_once<O: Object, R: Wait>(
    rt: &R,
    service: &Service<O>,
    caller: Caller,
    op: &OpWords,
    reply: &mut OpWords,
) -> AskOutcome
    requires { IsCallerOf service.now caller }
    ensures asked { IsAsked service.now op.now reply.new caller result }
    ensures sees { KeepsPlaces service.now.callers caller result }
{
    let mut caller = caller;
    for _ in rt.forever() {
        match service.update(rt, caller, op, reply) {
            Updated::Done(back, ticket) => {
                let place = back.place_behind(ticket);
                return AskOutcome::Told(back, place);
            }
            Updated::Full(back, _) => {
                thread::yield_now();
                caller = back;
            }
            Updated::Worn(back) => return AskOutcome::Worn(back),
            Updated::Halted(stopped) => return AskOutcome::Stopped(stopped),
        }
    }
    unreachable!()
}

/// Asks for an operation that only reads, beside the queue where it can be and otherwise as an entry of the queue, until it is answered, no ticket is
/// left, or the caller is stopped.
fn read_beside<O: Object, R: Wait>(
    rt: &R,
    service: &Service<O>,
    caller: Caller,
    op: &OpWords,
    reply: &mut OpWords,
) -> AskOutcome
    requires caller { IsCallerOf service.now caller }
    requires reads { IsTrue (O.only_reads service.now.object op.now) }
    ensures asked { IsAsked service.now op.now reply.new caller result }
    ensures sees { KeepsPlaces service.now.callers caller result }
{
    let mut caller = caller;
    for _ in rt.forever() {
        match service.read(rt, caller, op, reply) {
            ReadDone::Read(back, place) => return AskOutcome::Told(back, place),
            ReadDone::Queued(back, ticket) => {
                let place = back.place_behind(ticket);
                return AskOutcome::Told(back, place);
            }
            ReadDone::Full(back, _) => {
                thread::yield_now();
                caller = back;
            }
            ReadDone::Worn(back) => return AskOutcome::Worn(back),
            ReadDone::Halted(stopped) => return AskOutcome::Stopped(stopped),
        }
    }
    unreachable!()
}

//! Two threads: one adds and hands the place behind its answer over a channel, and the other reads what was added.

ghost use Rattle.std.specs.Prelude.{MatchResult};
ghost use Rattle.cx_service.specs.Callers.{IsCallerOf};
ghost use Rattle.service_parts.specs.Asking.{IsStoppedIn};
ghost use Rattle.service_parts.specs.Callers.{IsBack, IsHandedBy};

use crate::holds::holds;
use crate::starts::base_at;
use crate::tasks::{adds, sum};
use crossbeam_channel::{Receiver, Sender, bounded};
use cx_base::tally::Tally;
use cx_service::{Caller, Handed, Service, Stopped};
use service_parts::{AskOutcome, Worked, Worker, ask, follow, serve};
use std::alloc::{AllocError, Global};
use std::sync::Wait;
use std::test::Fail;
use std::thread::Threads;

// How many places are sent over the channel.
const TIMES: u64 = 10_000;

// What is sent over the channel once no further place is sent.
const NO_PLACE: u64 = u64::MAX;

// Caller 0 adds, and hands over the place behind each addition. Caller 1 catches up with each and reads. Each returns how
// often all was right.
#[derive(Drop)]
struct Pair {
    sender: Sender<u64, Global>,
    receiver: Receiver<u64, Global>,
}

impl Worker<Tally> for Pair {
    type Output = u64;

    ghost tells = { λ _ _ _ _ _. Unit {0} };

    fn work<R: Wait>(&self, rt: &R, service: &Service<Tally>, caller: Caller) -> Worked<u64> {
        if caller.number() == 0 {
            write_all(rt, service, caller, &self.sender)
        } else {
            read_all(rt, service, caller, &self.receiver)
        }
    }
}

// Adds 1 `TIMES` times, and sends the place behind each addition; at the end it sends `NO_PLACE`. Returns how often all was right.
fn write_all<R: Wait>(
    rt: &R,
    service: &Service<Tally>,
    caller: Caller,
    sender: &Sender<u64, Global>,
) -> Worked<u64>
    requires { IsCallerOf service.now caller }
    ensures { IsHandedBy service.now caller result.caller }
{
    let mut caller = caller;
    let mut output = 0u64;
    for _ in 0..TIMES {
        match write_once(rt, service, caller, sender) {
            Ok((back, is_right)) => {
                output = output.wrapping_add(u64::from(is_right));
                caller = back;
            }
            Err(stopped) => {
                let _ = sender.send(rt, NO_PLACE);
                let caller = Handed::Stopped(stopped);
                return Worked { caller, output };
            }
        }
    }
    let _ = sender.send(rt, NO_PLACE);
    let caller = Handed::Idle(caller);
    Worked { caller, output }
}

// Adds 1 and sends the place behind the addition. Returns whether the place was sent and the reply is that place: places are counted from 0, so the place
// behind an addition is the sum.
fn write_once<R: Wait>(
    rt: &R,
    service: &Service<Tally>,
    caller: Caller,
    sender: &Sender<u64, Global>,
) -> Result<(Caller, bool), Stopped>
    requires { IsCallerOf service.now caller }
    ensures { MatchResult result (λ r. IsBack service.now caller r.0) (IsStoppedIn service.now caller) }
{
    let mut reply = [0; 144];
    match ask(rt, service, caller, &adds(1), &mut reply) {
        AskOutcome::Told(back, place) => {
            let is_handed = sender.send(rt, place).is_ok();
            Ok((back, is_handed && reply[0] == place))
        }
        AskOutcome::Worn(back) => Ok((back, false)),
        AskOutcome::Stopped(stopped) => Err(stopped),
    }
}

// Catches up with each place that is received, and reads the sum. Returns how often all was right.
fn read_all<R: Wait>(
    rt: &R,
    service: &Service<Tally>,
    caller: Caller,
    receiver: &Receiver<u64, Global>,
) -> Worked<u64>
    requires { IsCallerOf service.now caller }
    ensures { IsHandedBy service.now caller result.caller }
{
    let mut caller = caller;
    let mut output = 0u64;
    for _ in 0..TIMES {
        let Ok(place) = receiver.recv(rt) else {
            break;
        };
        if place == NO_PLACE {
            break;
        }
        match read_once(rt, service, caller, place) {
            Ok((back, is_right)) => {
                output = output.wrapping_add(u64::from(is_right));
                caller = back;
            }
            Err(stopped) => {
                let caller = Handed::Stopped(stopped);
                return Worked { caller, output };
            }
        }
    }
    let caller = Handed::Idle(caller);
    Worked { caller, output }
}

// Catches up with a place and reads the sum. Returns whether the read stands at that place or above it, and the sum is the place of the read.
fn read_once<R: Wait>(
    rt: &R,
    service: &Service<Tally>,
    caller: Caller,
    place: u64,
) -> Result<(Caller, bool), Stopped>
    requires { IsCallerOf service.now caller }
    ensures { MatchResult result (λ r. IsBack service.now caller r.0) (IsStoppedIn service.now caller) }
{
    let back = follow(rt, service, caller, place)?;
    let mut reply = [0; 144];
    match ask(rt, service, back, &sum(), &mut reply) {
        AskOutcome::Told(back, at) => Ok((back, at >= place && reply[0] == at)),
        AskOutcome::Worn(back) => Ok((back, false)),
        AskOutcome::Stopped(stopped) => Err(stopped),
    }
}

// Whether all was right each time for both callers. The channel has room for all places, so that nobody waits for the reader.
fn are_handed_over<R: Threads + Wait + Sync>(rt: &R, alloc: Global) -> Result<bool, AllocError> {
    let base = base_at(alloc, 0)?;
    let (sender, receiver) = bounded(alloc, TIMES as usize + 1)?;
    let pair = Pair { sender, receiver };
    let (outputs, _) = serve(rt, alloc, Tally, 2, &base, &pair)?;
    Ok(match outputs.as_slice() {
        [written, read] => *written == TIMES && *read == TIMES,
        _ => false,
    })
}

#[test]
fn a_place_is_handed_over_a_channel(rt: HostRuntime) -> Result<(), Fail> {
    holds(&rt, are_handed_over(&rt, rt.alloc())?);
    Ok(())
}

//! What one client's worker does.

ghost use Rattle.std.specs.Prelude.{◌≡◌, ◌++◌, ◌==◌, All, IfOk, None, Some, if◌then◌else◌, length, true};
ghost use Rattle.life_records.specs.Limits.{IsLifeInLimits};
ghost use Rattle.life_records.specs.Lives.{is_stopped};
ghost use Rattle.cx_lives.specs.declared.progress.End.TheVariants.{Full};
ghost use Rattle.cx_lives.specs.Ends.{IsNewIn, IsWorkOf, full_in};
ghost use Rattle.cx_lives.specs.Turns.{ended};
ghost use Rattle.cx_lives.specs.Works.{IsClientLeft, ServedOf, stop_of_worker, stops_left};

use crate::lines::Lines;
use crate::operations::command_at;
use crate::progress::{CommandOutcome, End, Progress, Work, make, over};
use cx_base::Gate;
use cx_service::{Caller, Service};
use life_records::{BorrowedLife, FullLine, StopLine};
use std::alloc::{AllocError, Global};
use std::sync::Wait;
use typed_object::TypedObject;

/// The Full answers to one command, one after another, after which a worker of a life with a cut line leaves its client.
const FULLS: u64 = 1_000;

/// A client that is not at its end: its progress, the place in the script from which its commands are made, how many it was answered, and
/// whether it passed the gate before the next one already.
#[derive(Drop)]
pub(crate) struct Left<Reply> {
    pub(crate) progress: Progress<Reply>,
    pub(crate) at: usize,
    pub(crate) number: u64,
    pub(crate) begun: bool,
}

/// The result of a worker.
#[derive(Drop)]
pub(crate) enum WorkerOutcome<Reply> {
    /// The client is at its end.
    Done(Work<Reply>),
    /// The client's next command was last answered Full. The line is the full line that the client gets if it ends Full in that command.
    Full(Left<Reply>, FullLine),
}

/// Makes a client's commands in order, from the first one on until it is stopped, and passes the gate before each and after it. In a
/// life with a cut line it leaves the client after 1,000 Full answers one after another. `Err` means out of memory.
pub(crate) fn serve<O: TypedObject, R: Wait, G: Gate>(
    rt: &R,
    alloc: Global,
    service: &Service<O>,
    life: &BorrowedLife<'_, O::Op>,
    gate: &G,
    caller: Caller,
) -> Result<WorkerOutcome<O::Reply>, AllocError>
    requires new { IsNewIn life.now service.now caller }
    requires life { IsLifeInLimits (O.meaning service.now.object).is_op 8 life.now }
    ensures { IfOk result (ServedOf (O.meaning service.now.object) life.now service.now caller.known.local.number) }
{
    let lines = Lines::new(alloc);
    let left = Left {
        progress: Progress { caller, lines },
        at: 0,
        number: 0,
        begun: false,
    };
    serve_on(rt, alloc, service, life, gate, left, most_fulls(life))
}

/// The Full answers after which a worker leaves its client, where the life has a cut line.
fn most_fulls<Op>(life: &BorrowedLife<'_, Op>) -> Option<u64>
    ensures { result ≡ (if length life.now.cuts == 0 then None else Some 1000) }
{
    if life.cuts().is_empty() {
        None
    } else {
        Some(FULLS)
    }
}

/// Makes the commands that are left, until one is answered Full `most` times one after another.
fn serve_on<O: TypedObject, R: Wait, G: Gate>(
    rt: &R,
    alloc: Global,
    service: &Service<O>,
    life: &BorrowedLife<'_, O::Op>,
    gate: &G,
    left: Left<O::Reply>,
    most: Option<u64>,
) -> Result<WorkerOutcome<O::Reply>, AllocError>
    requires left { IsClientLeft (O.meaning service.now.object) life.now service.now left.progress.caller.known.local.number left }
    requires life { IsLifeInLimits (O.meaning service.now.object).is_op 8 life.now }
    ensures { IfOk result (ServedOf (O.meaning service.now.object) life.now service.now left.progress.caller.known.local.number) }
{
    let client = left.progress.caller.number();
    let Left {
        mut progress,
        at: first,
        mut number,
        mut begun,
    } = left;
    let commands = life.commands();
    for at in first..commands.len() {
        let command = command_at(commands, at);
        if command.client == client {
            let next = number + 1;
            pass_before(gate, client, next, begun);
            let turn = make(rt, alloc, service, life, progress, next, command, most)?;
            pass_behind(gate, client, next, &turn);
            match turn {
                CommandOutcome::Next(back) => {
                    progress = back;
                    number = next;
                    begun = false;
                }
                CommandOutcome::Over(work) => return Ok(WorkerOutcome::Done(work)),
                CommandOutcome::Full(back, note) => {
                    let line = FullLine {
                        client,
                        command: next,
                        note,
                    };
                    let left = Left {
                        progress: back,
                        at,
                        number,
                        begun: true,
                    };
                    return Ok(WorkerOutcome::Full(left, line));
                }
            }
        }
    }
    Ok(WorkerOutcome::Done(over(progress, End::Whole)))
}

// Passes the gate before a command, unless the client did so already.
fn pass_before<G: Gate>(gate: &G, client: u32, number: u64, begun: bool) {
    if !begun {
        gate.pass(client, number, false);
    }
}

// Passes the gate after a command, unless it is still to be made.
fn pass_behind<G: Gate, Reply>(gate: &G, client: u32, number: u64, turn: &CommandOutcome<Reply>) {
    match turn {
        CommandOutcome::Next(_) | CommandOutcome::Over(_) => gate.pass(client, number, true),
        CommandOutcome::Full(..) => {}
    }
}

/// Goes on with a client that was left, until it is at its end. It ends Full in a command only where the client that keeps its cells was
/// stopped: where that client has a stop line in `stops` or in the rest of the works. `Err` means out of memory.
pub(crate) fn go_on<O: TypedObject, R: Wait, G: Gate>(
    rt: &R,
    alloc: Global,
    service: &Service<O>,
    life: &BorrowedLife<'_, O::Op>,
    gate: &G,
    left: Left<O::Reply>,
    stops: &[StopLine],
    rest: &[Result<WorkerOutcome<O::Reply>, AllocError>],
) -> Result<Work<O::Reply>, AllocError>
    requires left { IsClientLeft (O.meaning service.now.object) life.now service.now left.progress.caller.known.local.number left }
    requires life { IsLifeInLimits (O.meaning service.now.object).is_op 8 life.now }
    ensures work { IfOk result (IsWorkOf (O.meaning service.now.object) life.now service.now left.progress.caller.known.local.number) }
    ensures stopped { IfOk result (λ work. All (λ line. is_stopped line.note.holder (stops.now ++ stops_left rest.now) ≡ true) (full_in work.end)) }
{
    let mut left = left;
    for _ in rt.forever() {
        match serve_on(rt, alloc, service, life, gate, left, Some(1))? {
            WorkerOutcome::Done(work) => return Ok(work),
            WorkerOutcome::Full(back, line) => {
                if has_stopped(stops, rest, line.note.holder) {
                    return Ok(give_up(gate, back, line));
                }
                left = back;
            }
        }
    }
    unreachable!()
}

/// The end of a client that ends Full, after its command.
fn give_up<G: Gate, Reply: Drop>(gate: &G, left: Left<Reply>, line: FullLine) -> Work<Reply>
    ensures { result ≡ ended left.progress (Full line) }
{
    gate.pass(line.client, line.command, true);
    over(left.progress, End::Full(line))
}

/// Whether a client was stopped: one of these stop lines is the client's, or the rest of the works has a stop line of the client.
fn has_stopped<Reply>(
    stops: &[StopLine],
    rest: &[Result<WorkerOutcome<Reply>, AllocError>],
    client: u32,
) -> bool
    ensures { result ≡ is_stopped client (stops.now ++ stops_left rest.now) }
{
    has_stop_line(stops, client) || is_left(rest, client)
}

/// Whether one of the stop lines is this client's.
fn has_stop_line(stops: &[StopLine], client: u32) -> bool
    ensures { result ≡ is_stopped client stops.now }
{
    stops.iter().any(|line| line.client == client)
}

/// Whether the rest of the works has a stop line of this client's.
#[tactic(auto, using(crate::proofs::Leaving::stopped_here, crate::proofs::Leaving::stopped_later, crate::proofs::Leaving::stopped_never))]
fn is_left<Reply>(rest: &[Result<WorkerOutcome<Reply>, AllocError>], client: u32) -> bool
    ensures { result ≡ is_stopped client (stops_left rest.now) }
{
    for served in rest {
        if tells_stop(served, client) {
            return true;
        }
    }
    false
}

/// Whether a worker's client is this one and was stopped.
fn tells_stop<Reply>(served: &Result<WorkerOutcome<Reply>, AllocError>, client: u32) -> bool
    ensures { result ≡ is_stopped client (stop_of_worker served.now) }
{
    match served {
        Ok(WorkerOutcome::Done(work)) => match &work.end {
            End::Stopped(line) => line.client == client,
            End::Whole | End::Full(_) | End::Impossible => false,
        },
        Ok(WorkerOutcome::Full(..)) | Err(AllocError) => false,
    }
}

//! A client between two of its commands, and the result of a command.

ghost use Rattle.std.specs.Prelude.{◌≡◌, ◌-◌, ◌≤◌, IfOk, IsTrue, Some};
ghost use Rattle.life_records.specs.Scripts.{named_op};
ghost use Rattle.cx_lives.specs.Ends.{IsCommandOutcome};
ghost use Rattle.cx_lives.specs.Serving.{IsServed};
ghost use Rattle.cx_lives.specs.Turns.{StopsIn, ended, attempt_after};

use crate::calls::ask;
use crate::lines::{Lines, note_entry, note_read};
use crate::operations::words_of;
use cx_base::{OP_WORDS, OpWords};
use cx_core::FullNote;
use cx_service::{Caller, Handed, ReadDone, Service, Stopped};
use life_records::{BorrowedLife, Command, FullLine, JournalLine, StopLine};
use std::alloc::{AllocError, Global};
use std::sync::Wait;
use typed_object::TypedObject;

/// How a worker ended.
#[derive(Drop)]
pub(crate) enum End {
    /// All commands of the client are answered.
    Whole,
    /// The client was stopped.
    Stopped(StopLine),
    /// The client ended Full: another that was stopped keeps its cells.
    Full(FullLine),
    /// What cannot be: there was no further ticket, or the words of an answer are no reply.
    Impossible,
}

/// What a worker hands in: its caller, and the lines of its client.
#[derive(Drop)]
pub(crate) struct Work<Reply> {
    pub(crate) handed: Handed,
    pub(crate) lines: Lines<Reply>,
    pub(crate) end: End,
}

/// A client between two commands: its caller, and the lines so far.
#[derive(Drop)]
pub(crate) struct Progress<Reply> {
    pub(crate) caller: Caller,
    pub(crate) lines: Lines<Reply>,
}

/// The result of a command: the client goes on, or it is at its end, or the command is not begun, since another caller, which the note
/// names, keeps the client's cells.
#[derive(Drop)]
pub(crate) enum CommandOutcome<Reply> {
    Next(Progress<Reply>),
    Over(Work<Reply>),
    Full(Progress<Reply>, FullNote),
}

/// Makes the client's command of this number. Where no cell is idle it tries again, and hands the progress back after `most` Full answers
/// one after another; without such a number it tries without end. `Err` means out of memory.
pub(crate) fn make<O: TypedObject, R: Wait>(
    rt: &R,
    alloc: Global,
    service: &Service<O>,
    life: &BorrowedLife<'_, O::Op>,
    progress: Progress<O::Reply>,
    number: u64,
    command: &Command<O::Op>,
    most: Option<u64>,
) -> Result<CommandOutcome<O::Reply>, AllocError>
    requires served { IsServed (O.meaning service.now.object) life.now service.now command.now.client (number - 1) progress }
    requires number { 1 ≤ number }
    requires named { named_op life.now command.now.client number ≡ Some command.now.op }
    requires op { (O.meaning service.now.object).is_op command.now.op }
    ensures { IfOk result (IsCommandOutcome (O.meaning service.now.object) life.now service.now command.now.client number) }
{
    let Progress { caller, mut lines } = progress;
    let client = command.client;
    let object = service.object();
    let (op, reads_only) = service_words(service, &command.op);
    let mut reply = [0; OP_WORDS];
    match ask(rt, service, caller, &op, &mut reply, reads_only, most) {
        ReadDone::Queued(caller, ticket) => {
            let is_reply = note_entry(alloc, object, &mut lines, client, number, ticket, &reply)?;
            Ok(after_answer(Progress { caller, lines }, is_reply))
        }
        ReadDone::Read(caller, place) => {
            let is_reply = note_read(alloc, object, &mut lines, client, number, place, &reply)?;
            Ok(after_answer(Progress { caller, lines }, is_reply))
        }
        ReadDone::Full(caller, note) => Ok(CommandOutcome::Full(Progress { caller, lines }, note)),
        ReadDone::Worn(caller) => Ok(CommandOutcome::Over(over(
            Progress { caller, lines },
            End::Impossible,
        ))),
        ReadDone::Halted(stopped) => {
            let work = stopped_in(client, number, stopped, lines)?;
            Ok(CommandOutcome::Over(work))
        }
    }
}

/// The words of an operation of the service's object, and whether it only reads.
fn service_words<O: TypedObject>(service: &Service<O>, op: &O::Op) -> (OpWords, bool)
    requires { (O.meaning service.now.object).is_op op.now }
    ensures words { result.0 ≡ (O.meaning service.now.object).encoding.op_words op.now }
    ensures value { (O.meaning service.now.object).is_op_value op.now }
    ensures reads { IsTrue result.1 → IsTrue (O.only_reads service.now.object result.0) }
{
    words_of(service.object(), op)
}

/// A client goes on after its answer, unless that was no reply.
fn after_answer<Reply: Drop>(progress: Progress<Reply>, is_reply: bool) -> CommandOutcome<Reply>
    ensures { result ≡ attempt_after progress is_reply }
{
    if is_reply {
        CommandOutcome::Next(progress)
    } else {
        CommandOutcome::Over(over(progress, End::Impossible))
    }
}

/// The end of a client whose caller is in no call.
pub(crate) fn over<Reply: Drop>(progress: Progress<Reply>, end: End) -> Work<Reply>
    ensures { result ≡ ended progress end }
{
    let Progress { caller, lines } = progress;
    let handed = Handed::Idle(caller);
    Work { handed, lines, end }
}

/// The end of a client that is stopped in its command of this number.
fn stopped_in<Reply: Drop>(
    client: u32,
    number: u64,
    stopped: Stopped,
    lines: Lines<Reply>,
) -> Result<Work<Reply>, AllocError>
    ensures { IfOk result (StopsIn client number stopped lines) }
{
    let mut lines = lines;
    if let Some(ticket) = stopped.linked() {
        lines.entries.push(JournalLine {
            ticket,
            client,
            command: number,
            reply: None,
        })?;
    }
    let line = StopLine {
        client,
        command: number,
        steps: stopped.steps(),
        kept: false,
    };
    Ok(Work {
        handed: Handed::Stopped(stopped),
        lines,
        end: End::Stopped(line),
    })
}

//! The top call: words and input in, status and text out.

ghost use Rattle.std.specs.Prelude.{◌≡◌, ◌≤◌, ℕ, List, Option, map, string_bytes, length, false, IfOk, Some};
ghost use Rattle.cx_program.specs.Answer.{IsWrittenWith, HasCause, Read, Wrote};
ghost use Rattle.cx_program.specs.Commands.{command};
ghost use Rattle.cx_program.specs.Input.{Draws, IsInput, ShowsInput};

use crate::asked::AskedCommand;
use crate::command_line::read_words;
use crate::fifo::queue_text;
use crate::image::image_text;
use crate::input::{Input, read_input};
use crate::load::load_text;
use crate::output::write_text;
use crate::pool::pool_text;
use crate::recover::recover_text;
use crate::run::run_text;
use crate::status::{FinishedRun, Status};
use crate::trace::verdict_text;
use cx_base::{Gate, Sink, Source};
use std::alloc::{AllocError, Global};
use std::sync::Wait;
use std::thread::Threads;

/// What is written where the words are no command.
const USAGE: &[u8] =
    b"usage: cx_tool run | image | recover | load FROM CLIENTS OPS | pool SEATS | fifo | trace\n";

/// Runs the command that the words name. With `run` it reads a script from the source, runs its lives and writes the
/// report, with `image` the image that the last crash left; with `recover` it reads an image, and writes what is recovered
/// from it; with `fifo` it reads a script of a queue, runs its lives and writes their report; with `trace` it reads a recorded trace,
/// and writes whether it is a run or which line is the first that fails; with `pool` and a number it reads a script whose clients share this
/// many callers, runs its life and writes the report; with `load` and three numbers it makes a script, runs it and writes four lines on it,
/// and reads nothing. Where the words ask for no command, the text that is written lists the commands; where the input is refused, it names the reason.
/// The whole text is made before its first byte is written. Every outcome is a status. It may wait.
pub fn cx_run<R: Threads + Wait + Sync, S: Source, K: Sink, G: Gate + Sync>(
    rt: &R,
    alloc: Global,
    words: &[String],
    source: &mut S,
    sink: &mut K,
    gate: &G,
) -> FinishedRun
    // What was written is what the command that the words ask for owes, with the one status that its input calls for. For `run` and
    // `Fine` it is the report of legal lives of the script that the input is, each witnessed by the execution log of the service that ran it; for
    // `image` the image from which the base is recovered that such lives end with; for `recover` what is recovered from the input; for
    // `fifo` the report of legal lives of a queue, each witnessed by such a log; for `pool` the report of a pool life of the script that the input
    // is, witnessed by the execution log of the service whose callers the clients shared; for `trace` the one verdict that is of the trace.
    ensures answer { IsWrittenWith (map string_bytes words.now) (S.left source.old) result.status result.trails (K.written sink.old) (K.written sink.new) }
    // The status names a fault of the source or of the sink only where the count of faults of that object rose in this call.
    ensures cause { HasCause result.status (S.faults source.old) (S.faults source.new) (K.faults sink.old) (K.faults sink.new) }
    ensures drawn { Draws S.Source 16777217 source.old source.new }
    ensures unread { (Read (map string_bytes words.now) → ⊥) → source.new ≡ source.old }
{
    match read_words(alloc, words) {
        Ok(Some(asked)) => run_asked(rt, alloc, &asked, source, sink, gate),
        Ok(None) => {
            let ended = FinishedRun::without_lives(alloc, Status::Usage);
            write_answer(alloc, sink, USAGE, ended)
        }
        Err(_) => FinishedRun::without_lives(alloc, Status::Memory),
    }
}

/// Writes a whole text, and answers how the run ended that it stands for, or that the sink failed.
fn write_answer<K: Sink>(
    alloc: Global,
    sink: &mut K,
    text: &[u8],
    ended: FinishedRun,
) -> FinishedRun
    ensures wrote { Wrote text.now ended result (K.written sink.old) (K.written sink.new) (K.faults sink.old) (K.faults sink.new) }
{
    match write_text(sink, text) {
        Ok(()) => ended,
        Err(_) => FinishedRun::without_lives(alloc, Status::WriteFault),
    }
}

/// Runs a command.
fn run_asked<R: Threads + Wait + Sync, S: Source, K: Sink, G: Gate + Sync>(
    rt: &R,
    alloc: Global,
    asked: &AskedCommand,
    source: &mut S,
    sink: &mut K,
    gate: &G,
) -> FinishedRun
    ensures answer { (words : List (List ℕ)) → (command asked.now).asked words → IsWrittenWith words (S.left source.old) result.status result.trails (K.written sink.old) (K.written sink.new) }
    ensures cause { HasCause result.status (S.faults source.old) (S.faults source.new) (K.faults sink.old) (K.faults sink.new) }
    ensures drawn { Draws S.Source 16777217 source.old source.new }
    ensures unread { (command asked.now).reads ≡ false → source.new ≡ source.old }
{
    match input_of(alloc, asked, source) {
        Err(_) => FinishedRun::without_lives(alloc, Status::Memory),
        Ok(Input::Failed) => FinishedRun::without_lives(alloc, Status::ReadFault),
        Ok(Input::TooLong) => {
            let ended = FinishedRun::without_lives(alloc, Status::TooLong);
            write_answer(alloc, sink, b"refused: input over 16777216 bytes\n", ended)
        }
        Ok(Input::Whole(bytes)) => run_input(rt, alloc, asked, &bytes, sink, gate),
    }
}

/// Whether a command reads an input.
fn reads(asked: &AskedCommand) -> bool
    ensures { result ≡ (command asked.now).reads }
{
    match asked {
        AskedCommand::Run => true,
        AskedCommand::Image => true,
        AskedCommand::Recover => true,
        AskedCommand::Fifo => true,
        AskedCommand::Trace => true,
        AskedCommand::Load(_) => false,
        AskedCommand::Pool(_) => true,
    }
}

/// The input of a command: all of the source, or nothing. `Err` means out of memory.
fn input_of<S: Source>(
    alloc: Global,
    asked: &AskedCommand,
    source: &mut S,
) -> Result<Input, AllocError>
    ensures input { IfOk result (ShowsInput (command asked.now).reads (S.left source.old) (S.faults source.old) (S.faults source.new)) }
    ensures drawn { Draws S.Source 16777217 source.old source.new }
    ensures unread { (command asked.now).reads ≡ false → source.new ≡ source.old }
{
    if reads(asked) {
        read_input(alloc, source)
    } else {
        Ok(Input::Whole(Vec::new(alloc)))
    }
}

/// Writes what a whole input calls for.
fn run_input<R: Threads + Wait + Sync, K: Sink, G: Gate + Sync>(
    rt: &R,
    alloc: Global,
    asked: &AskedCommand,
    bytes: &[u8],
    sink: &mut K,
    gate: &G,
) -> FinishedRun
    requires { length bytes.now ≤ 16777216 }
    ensures answer { (words : List (List ℕ)) (given : Option (List ℕ)) → (command asked.now).asked words → IsInput (command asked.now).reads given bytes.now → IsWrittenWith words given result.status result.trails (K.written sink.old) (K.written sink.new) }
    ensures cause { (reads reads' : ℕ) → HasCause result.status reads reads' (K.faults sink.old) (K.faults sink.new) }
{
    match text_of(rt, alloc, asked, bytes, gate) {
        Err(_) => FinishedRun::without_lives(alloc, Status::Memory),
        Ok((text, ended)) => write_answer(alloc, sink, &text, ended),
    }
}

/// The text that a command has for a whole input, and how the run ends. `Err` means out of memory.
fn text_of<R: Threads + Wait + Sync, G: Gate + Sync>(
    rt: &R,
    alloc: Global,
    asked: &AskedCommand,
    bytes: &[u8],
    gate: &G,
) -> Result<(Vec<u8>, FinishedRun), AllocError>
    requires { length bytes.now ≤ 16777216 }
    ensures calls { IfOk result (λ made. (command asked.now).calls bytes.now made.1.status) }
    ensures writes { IfOk result (λ made. (command asked.now).writes bytes.now made.1.status made.1.trails made.0.items) }
{
    match asked {
        AskedCommand::Run => run_text(rt, alloc, bytes, gate),
        AskedCommand::Image => image_text(rt, alloc, bytes, gate),
        AskedCommand::Recover => recover_text(alloc, bytes),
        AskedCommand::Fifo => queue_text(rt, alloc, bytes, gate),
        AskedCommand::Trace => verdict_text(alloc, bytes),
        AskedCommand::Load(load) => load_text(rt, alloc, load, gate),
        AskedCommand::Pool(seats) => pool_text(rt, alloc, seats, bytes, gate),
    }
}

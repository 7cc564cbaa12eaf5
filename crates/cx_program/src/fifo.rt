//! The command `fifo`: a script of a queue that is read and run, and its report.

ghost use Rattle.std.specs.Prelude.{IfOk};
ghost use Rattle.cx_program.specs.Commands.{fifo_command};

use crate::refusal::refusal;
use crate::status::{FinishedRun, Status};
use cx_base::Gate;
use fifo_commands::{FifoTextFault, read_fifo_script, report_of_queue};
use std::alloc::{AllocError, Global};
use std::sync::Wait;
use std::thread::Threads;

/// The text that an input calls for, and how the run ends. `Err` means out of memory. It may wait.
pub(crate) fn queue_text<R: Threads + Wait + Sync, G: Gate + Sync>(
    rt: &R,
    alloc: Global,
    bytes: &[u8],
    gate: &G,
) -> Result<(Vec<u8>, FinishedRun), AllocError>
    ensures calls { IfOk result (λ made. fifo_command.calls bytes.now made.1.status) }
    ensures writes { IfOk result (λ made. fifo_command.writes bytes.now made.1.status made.1.trails made.0.items) }
{
    match read_fifo_script(alloc, bytes) {
        Ok(script) => {
            let (text, trails) = report_of_queue(rt, alloc, &script, gate)?;
            Ok((text, FinishedRun::new(Status::Fine, trails)))
        }
        Err(FifoTextFault::Refused { line, reason }) => {
            let text = refusal(alloc, line, reason.word())?;
            Ok((text, FinishedRun::without_lives(alloc, Status::Refused)))
        }
        Err(FifoTextFault::Memory) => Err(AllocError),
    }
}

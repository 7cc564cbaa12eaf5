//! The command `trace`: a recorded trace that is read, and what is found of it.

ghost use Rattle.std.specs.Prelude.{IfOk};
ghost use Rattle.cx_program.specs.Commands.{trace_command};

use crate::refusal::refusal;
use crate::status::{FinishedRun, Status};
use doc_commands::verdict_of_trace;
use std::alloc::{AllocError, Global};
use trace_text::{TraceFault, read_trace};

/// The text that an input calls for, and how the run ends. `Err` means out of memory.
pub(crate) fn verdict_text(
    alloc: Global,
    bytes: &[u8],
) -> Result<(Vec<u8>, FinishedRun), AllocError>
    ensures calls { IfOk result (λ made. trace_command.calls bytes.now made.1.status) }
    ensures writes { IfOk result (λ made. trace_command.writes bytes.now made.1.status made.1.trails made.0.items) }
{
    match read_trace(alloc, bytes) {
        Ok(trace) => {
            let text = verdict_of_trace(alloc, &trace)?;
            Ok((text, FinishedRun::without_lives(alloc, Status::Fine)))
        }
        Err(TraceFault::Refused { line, reason }) => {
            let text = refusal(alloc, line, reason.word())?;
            Ok((text, FinishedRun::without_lives(alloc, Status::Refused)))
        }
        Err(TraceFault::Memory) => Err(AllocError),
    }
}

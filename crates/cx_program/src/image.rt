//! The command `image`: a script that is read and run, and what the last crash left.

ghost use Rattle.std.specs.Prelude.{◌≤◌, length, IfOk};
ghost use Rattle.cx_program.specs.Commands.{image_command};

use crate::refusal::refusal;
use crate::status::{FinishedRun, Status};
use cx_base::Gate;
use doc_commands::image_of_script;
use doc_text::{TextFault, read_script};
use std::alloc::{AllocError, Global};
use std::sync::Wait;
use std::thread::Threads;

/// The text that an input calls for, and how the run ends. `Err` means out of memory. It may wait.
pub(crate) fn image_text<R: Threads + Wait + Sync, G: Gate + Sync>(
    rt: &R,
    alloc: Global,
    bytes: &[u8],
    gate: &G,
) -> Result<(Vec<u8>, FinishedRun), AllocError>
    requires { length bytes.now ≤ 16777216 }
    ensures calls { IfOk result (λ made. image_command.calls bytes.now made.1.status) }
    ensures writes { IfOk result (λ made. image_command.writes bytes.now made.1.status made.1.trails made.0.items) }
{
    match read_script(alloc, bytes) {
        Ok(script) => {
            let (text, trails) = image_of_script(rt, alloc, &script, gate)?;
            Ok((text, FinishedRun::new(Status::Fine, trails)))
        }
        Err(TextFault::Refused { line, reason }) => {
            let text = refusal(alloc, line, reason.word())?;
            Ok((text, FinishedRun::without_lives(alloc, Status::Refused)))
        }
        Err(TextFault::Memory) => Err(AllocError),
    }
}

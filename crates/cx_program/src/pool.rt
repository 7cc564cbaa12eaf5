//! The command `pool`: a script whose clients share the callers of a service that is read and run, and its report.

ghost use Rattle.std.specs.Prelude.{IfOk};
ghost use Rattle.cx_program.specs.Commands.{pool_command};

use crate::asked::Seats;
use crate::refusal::refusal;
use crate::status::{FinishedRun, Status};
use cx_base::Gate;
use doc_commands::report_of_pool;
use doc_text::{TextFault, read_pool_script};
use std::alloc::{AllocError, Global};
use std::sync::Wait;
use std::thread::Threads;

/// The text that an input calls for, and how the run ends. `Err` means out of memory. It may wait.
pub(crate) fn pool_text<R: Threads + Wait + Sync, G: Gate + Sync>(
    rt: &R,
    alloc: Global,
    seats: &Seats,
    bytes: &[u8],
    gate: &G,
) -> Result<(Vec<u8>, FinishedRun), AllocError>
    ensures calls { IfOk result (λ made. (pool_command seats.now.count).calls bytes.now made.1.status) }
    ensures writes { IfOk result (λ made. (pool_command seats.now.count).writes bytes.now made.1.status made.1.trails made.0.items) }
{
    match read_pool_script(alloc, bytes) {
        Ok(script) => {
            let (text, trails) = report_of_pool(rt, alloc, &script, seats.count, gate)?;
            Ok((text, FinishedRun::new(Status::Fine, trails)))
        }
        Err(TextFault::Refused { line, reason }) => {
            let text = refusal(alloc, line, reason.word())?;
            Ok((text, FinishedRun::without_lives(alloc, Status::Refused)))
        }
        Err(TextFault::Memory) => Err(AllocError),
    }
}

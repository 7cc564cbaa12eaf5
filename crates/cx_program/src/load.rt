//! The command `load`: a script that is made and run, of which four lines are written.

ghost use Rattle.std.specs.Prelude.{◌≡◌, IfOk};
ghost use Rattle.doc_commands.specs.ScriptTexts.{IsSummary};
ghost use Rattle.cx_program.specs.declared.status.Status.TheVariants.{Fine};

use crate::asked::Load;
use crate::status::{FinishedRun, Status};
use cx_base::Gate;
use doc_commands::summary_of_load;
use std::alloc::{AllocError, Global};
use std::sync::Wait;
use std::thread::Threads;

/// Runs the script of a load. Gives the lines on its life, and how the run ends. `Err` means out of memory. It may wait.
pub(crate) fn load_text<R: Threads + Wait + Sync, G: Gate + Sync>(
    rt: &R,
    alloc: Global,
    load: &Load,
    gate: &G,
) -> Result<(Vec<u8>, FinishedRun), AllocError>
    ensures calls { IfOk result (λ made. made.1.status ≡ Fine) }
    ensures writes { IfOk result (λ made. IsSummary load.now.from load.now.clients load.now.ops made.1.trails made.0.items) }
{
    let (text, trails) = summary_of_load(rt, alloc, load.from, load.clients, load.ops, gate)?;
    Ok((text, FinishedRun::new(Status::Fine, trails)))
}

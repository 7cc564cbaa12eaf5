//! The report of a queue's lives.

ghost use Rattle.std.specs.Prelude.{IfOk};
ghost use Rattle.fifo_object.specs.Queue.{IsOp};
ghost use Rattle.fifo_commands.specs.Uncut.{uncut_script};
ghost use Rattle.life_records.specs.Limits.{KeepsLimits};
ghost use Rattle.fifo_commands.specs.Texts.{IsFifoReport};

use crate::printer::fifo_report;
use crate::record::FifoScript;
use crate::runs::run_fifo;
use cx_base::{Gate, Items};
use cx_table::Trail;
use std::alloc::{AllocError, Global};
use std::sync::Wait;
use std::thread::Threads;

/// The report of a script's lives, each run in turn, and their trails. `Err` means out of memory. It may wait.
pub fn report_of_queue<R: Threads + Wait + Sync, G: Gate + Sync>(
    rt: &R,
    alloc: Global,
    script: &FifoScript,
    gate: &G,
) -> Result<(Vec<u8>, Items<Trail>), AllocError>
    requires { KeepsLimits IsOp 8 (uncut_script script.now) }
    ensures { IfOk result (λ made. IsFifoReport script.now made.1 made.0.items) }
{
    let lived = run_fifo(rt, alloc, script, gate)?;
    let text = fifo_report(alloc, script, lived.records.as_slice())?;
    Ok((text, lived.trails))
}

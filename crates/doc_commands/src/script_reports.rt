//! The report of a script's lives.

ghost use Rattle.std.specs.Prelude.{IfOk};
ghost use Rattle.doc_model.specs.Meaning.{IsOp};
ghost use Rattle.life_records.specs.Limits.{KeepsLimits};
ghost use Rattle.doc_commands.specs.ScriptTexts.{IsReport};

use crate::lives::run_lives;
use cx_base::{Gate, Items};
use cx_table::Trail;
use doc_text::{Script, report};
use std::alloc::{AllocError, Global};
use std::sync::Wait;
use std::thread::Threads;

/// The report of a script's lives, each run in turn, and their trails. `Err` means out of memory. It may wait.
#[tactic(auto, using(life_records::proofs::Naming::names_of_lives))]
pub fn report_of_script<R: Threads + Wait + Sync, G: Gate + Sync>(
    rt: &R,
    alloc: Global,
    script: &Script,
    gate: &G,
) -> Result<(Vec<u8>, Items<Trail>), AllocError>
    requires { KeepsLimits IsOp 8 script.now }
    ensures { IfOk result (λ made. IsReport script.now made.1 made.0.items) }
{
    let lived = run_lives(rt, alloc, script, gate)?;
    let text = report(alloc, script, lived.records.as_slice())?;
    Ok((text, lived.trails))
}

//! Lives over the document store.

ghost use Rattle.std.specs.Prelude.{IfOk};
ghost use Rattle.cx_lives.specs.Lives.{HaveLived};
ghost use Rattle.doc_model.specs.Meaning.{IsOp};
ghost use Rattle.doc_store.specs.DocumentMeaning.{document_meaning};
ghost use Rattle.doc_store.specs.ExactStep.{IsImageOfStore, reads_in, store_step};
ghost use Rattle.life_records.specs.Limits.{KeepsLimits};

use cx_base::Gate;
use cx_lives::Lived;
use doc_model::{Op, Reply};
use doc_store::DocStore;
use life_records::Script;
use std::alloc::{AllocError, Global};
use std::sync::Wait;
use std::thread::Threads;

/// Runs the lives of a script of documents over a store of the script's lines: see `cx_lives::run_lives`. A script without lives may
/// have 0 lines, and starts nothing. `Err` means out of memory.
pub fn run_lives<R: Threads + Wait + Sync, G: Gate + Sync>(
    rt: &R,
    alloc: Global,
    script: &Script<Op>,
    gate: &G,
) -> Result<Lived<Reply>, AllocError>
    requires { KeepsLimits IsOp 8 script.now }
    ensures { IfOk result (HaveLived (document_meaning script.now.lines) script.now.lines 2 (IsImageOfStore script.now.lines) (store_step script.now.lines) reads_in script.now.lives) }
{
    if script.lives.is_empty() {
        return Ok(Lived::new(alloc));
    }
    let store = DocStore::of(script.lines);
    cx_lives::run_lives(rt, alloc, &store, script, gate)
}

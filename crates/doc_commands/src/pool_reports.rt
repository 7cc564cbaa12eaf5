//! The report of a pool's life.

ghost use Rattle.std.specs.Prelude.{◌≡◌, ◌<◌, ◌∷◌, [], IfOk, Some, length, slice_get};
ghost use Rattle.doc_commands.specs.PoolTexts.{IsPoolReport, MayPool, RunsPool};

use cx_base::{Gate, Items};
use cx_table::{Remains, Trail};
use doc_model::Op;
use doc_store::DocStore;
use doc_text::{Life, LifeRecord, Script, report};
use std::alloc::{AllocError, Global};
use std::sync::Wait;
use std::thread::Threads;

/// Runs the one life of a script over a store of the script's lines: its clients share `seats` callers of one service (see `pool_lives::run_pool`). Gives
/// the record of the life, and what its service left. `Err` means out of memory. It may wait.
pub fn run_pool<R: Threads + Wait + Sync, G: Gate + Sync>(
    rt: &R,
    alloc: Global,
    script: &Script,
    seats: u32,
    gate: &G,
) -> Result<(LifeRecord, Remains), AllocError>
    requires may { MayPool seats script.now }
    requires some { 0 < length script.now.lives }
    ensures { IfOk result (λ r. RunsPool seats script.now r.0 r.1) }
{
    let life = first(script.lives.as_slice());
    let store = DocStore::of(script.lines);
    pool_lives::run_pool(rt, alloc, &store, &life.lent(), &Op::Count, seats, gate)
}

/// The first of some lives.
fn first(lives: &[Life]) -> &Life
    requires { 0 < length lives.now }
    ensures { slice_get lives.now 0 ≡ Some result.now }
{
    &lives[0]
}

/// The report of a script's one life, whose clients share `seats` callers of one service, and its trail. There is no text, and no trail, where there is
/// no life. `Err` means out of memory. It may wait.
pub fn report_of_pool<R: Threads + Wait + Sync, G: Gate + Sync>(
    rt: &R,
    alloc: Global,
    script: &Script,
    seats: u32,
    gate: &G,
) -> Result<(Vec<u8>, Items<Trail>), AllocError>
    requires { MayPool seats script.now }
    ensures { IfOk result (λ made. IsPoolReport seats script.now made.1 made.0.items) }
{
    if script.lives.is_empty() {
        let text = report(alloc, script, &[])?;
        return Ok((text, Items::new(alloc)));
    }
    let (life_report, remains) = run_pool(rt, alloc, script, seats, gate)?;
    let trails = one(alloc, remains.trail)?;
    let records = one(alloc, life_report)?;
    let text = report(alloc, script, records.as_slice())?;
    Ok((text, trails))
}

/// A list of one item.
fn one<T: Drop>(alloc: Global, item: T) -> Result<Items<T>, AllocError>
    ensures { IfOk result (λ items. items ≡ item ∷ []) }
{
    let mut items = Items::new(alloc);
    items.push(item)?;
    Ok(items)
}

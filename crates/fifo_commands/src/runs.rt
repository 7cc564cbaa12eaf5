//! The lives of a script of a queue, one after another.

ghost use Rattle.std.specs.Prelude.{◌≡◌, ◌+◌, ◌≤◌, List, ◌∷◌, ◌++◌, [], All, IfOk, length, map};
ghost use Rattle.cx_lives.specs.Lives.{HaveLived};
ghost use Rattle.fifo_commands.specs.FifoLives.{uncut};
ghost use Rattle.fifo_commands.specs.Leaving.{without_cuts};
ghost use Rattle.fifo_object.specs.Queue.{IsOp};
ghost use Rattle.fifo_object.specs.declared.operations.FifoOp.{FifoOp as queue_op};
ghost use Rattle.fifo_object.specs.Fifo.{IsFifo, fifo_reads, fifo_step};
ghost use Rattle.fifo_object.specs.FifoMeaning.{fifo_meaning};
ghost use Rattle.fifo_commands.specs.Runs.{HaveFifoLived, KeepsFifoLimits};
ghost use Rattle.life_records.specs.Limits.{IsLifeInLimits};
ghost use Rattle.life_records.specs.Scripts.{command_count};
ghost use Rattle.life_records.specs.declared.script.Life.{Life};

use crate::record::{FifoLife, FifoRecord, FifoScript};
use cx_base::{Gate, Items};
use cx_lives::{Lived, run_next_life};
use cx_table::Trail;
use fifo_object::{Fifo, FifoReply};
use life_records::{BorrowedLife, LifeRecord};
use std::alloc::{AllocError, Global};
use std::sync::Wait;
use std::thread::Threads;

/// The records of the lives of a script of a queue, and the execution log of each.
#[derive(Drop)]
pub struct FifoLived {
    /// The record of each life, in order.
    pub records: Items<FifoRecord>,
    /// The trail of the service that ran each life, in order.
    pub trails: Items<Trail>,
}

/// Runs the lives of a script over a queue of the script's lines, the first from the empty queue and each next one from what was
/// recovered after the crash that ended the one before: see `cx_lives::run_lives`. A script without lives may have 0 lines, and
/// starts nothing.
///
/// `Err` means out of memory, and no record is given. The call waits for its workers, and does not return where a life does not end.
pub fn run_fifo<R: Threads + Wait + Sync, G: Gate + Sync>(
    rt: &R,
    alloc: Global,
    script: &FifoScript,
    gate: &G,
) -> Result<FifoLived, AllocError>
    requires { KeepsFifoLimits script.now }
    ensures { IfOk result (HaveFifoLived script.now.lines script.now.lives) }
{
    if script.lives.is_empty() {
        return Ok(FifoLived {
            records: Items::new(alloc),
            trails: Items::new(alloc),
        });
    }
    let fifo = Fifo::of(script.lines);
    let lived = run_all(rt, alloc, &fifo, script.lives.as_slice(), gate)?;
    leave_out_cuts(alloc, lived)
}

/// Runs the given lives one after another over the queue, as `run_fifo` does.
fn run_all<R: Threads + Wait + Sync, G: Gate + Sync>(
    rt: &R,
    alloc: Global,
    fifo: &Fifo,
    lives: &[FifoLife],
    gate: &G,
) -> Result<Lived<FifoReply>, AllocError>
    requires enough { 64 ≤ fifo.now.lines }
    requires few { fifo.now.lines ≤ 16384 }
    requires commands { command_count (map uncut lives.now) ≤ 100000 }
    requires each { All (λ life. IsLifeInLimits IsOp 8 (uncut life)) lives.now }
    ensures { IfOk result (HaveLived (fifo_meaning fifo.now.lines) fifo.now.lines 16 (IsFifo fifo.now.lines) (fifo_step fifo.now.lines) fifo_reads (map uncut lives.now)) }
{
    let mut lived = Lived::new(alloc);
    for life in lives {
        let next = run_one(rt, alloc, fifo, lived, life, gate)?;
        lived = next;
    }
    Ok(lived)
}

/// Runs the next life over the queue, from what the lives before it left.
fn run_one<R: Threads + Wait + Sync, G: Gate + Sync>(
    rt: &R,
    alloc: Global,
    fifo: &Fifo,
    lived: Lived<FifoReply>,
    life: &FifoLife,
    gate: &G,
) -> Result<Lived<FifoReply>, AllocError>
    requires enough { 64 ≤ fifo.now.lines }
    requires few { fifo.now.lines ≤ 16384 }
    requires life { IsLifeInLimits IsOp 8 (uncut life.now) }
    requires lived { (lives : List (Life queue_op)) × HaveLived (fifo_meaning fifo.now.lines) fifo.now.lines 16 (IsFifo fifo.now.lines) (fifo_step fifo.now.lines) fifo_reads lives lived × (command_count lives + length life.now.commands ≤ 100000) }
    ensures { (lives : List (Life queue_op)) → HaveLived (fifo_meaning fifo.now.lines) fifo.now.lines 16 (IsFifo fifo.now.lines) (fifo_step fifo.now.lines) fifo_reads lives lived → IfOk result (HaveLived (fifo_meaning fifo.now.lines) fifo.now.lines 16 (IsFifo fifo.now.lines) (fifo_step fifo.now.lines) fifo_reads (lives ++ uncut life.now ∷ [])) }
{
    let lent = BorrowedLife::of(life.clients, life.choice, &[], life.commands.as_slice());
    run_next_life(rt, alloc, fifo, lived, &lent, gate)
}

/// The result of lives without cuts: their records without stop lines and full lines, and their trails.
fn leave_out_cuts(alloc: Global, lived: Lived<FifoReply>) -> Result<FifoLived, AllocError>
    ensures records { IfOk result (λ left. left.records ≡ map without_cuts lived.records) }
    ensures trails { IfOk result (λ left. left.trails ≡ lived.trails) }
{
    let Lived {
        records,
        trails,
        ..
    } = lived;
    let records = records_of(alloc, records.into_vec())?;
    Ok(FifoLived {
        records: Items::of(records),
        trails,
    })
}

/// The records of lives without cuts, each without its stop lines and full lines.
fn records_of(
    alloc: Global,
    records: Vec<LifeRecord<FifoReply>>,
) -> Result<Vec<FifoRecord>, AllocError>
    ensures { IfOk result (λ left. left.items ≡ map without_cuts records.items) }
{
    let mut left = Vec::new(alloc);
    for report in records {
        left.push(record_of(report))?;
    }
    Ok(left)
}

/// The record of a life without cuts, without its stop lines and full lines.
fn record_of(report: LifeRecord<FifoReply>) -> FifoRecord
    ensures { result ≡ without_cuts report }
{
    let LifeRecord {
        clients,
        from,
        journal,
        reads,
        choice,
        kept,
        items,
        ..
    } = report;
    FifoRecord {
        clients,
        from,
        journal,
        reads,
        choice,
        kept,
        items,
    }
}

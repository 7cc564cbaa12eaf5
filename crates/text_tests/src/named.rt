//! Whether the lines of records name commands that the lives of the records have.

ghost use Rattle.std.specs.Prelude.{◌≡◌, IsTrue, IfOk, All};
ghost use Rattle.life_records.specs.Lives.{NameCommands, NamesCommands, Names};

use doc_model::Op;
use doc_text::{JournalLine, Life, LifeRecord, ReadLine};
use script_text::IndexedLife;
use std::alloc::{AllocError, Global};

/// Whether there are as many records as lives, and each line of the journal and of the reads of a record names a client and a command that its life
/// has. `Err` means out of memory.
pub(crate) fn name_commands(
    alloc: Global,
    lives: &[Life],
    records: &[LifeRecord],
) -> Result<bool, AllocError>
    ensures { IfOk result (λ name. IsTrue name → NameCommands lives.now records.now) }
{
    if lives.len() != records.len() {
        return Ok(false);
    }
    // The record of a life has the same index as the life.
    for (number, report) in records.iter().enumerate() {
        if !names_commands(alloc, &lives[number], report)? {
            return Ok(false);
        }
    }
    Ok(true)
}

// Whether each line of the journal and of the reads of `report`, the record of `life`, names a client and a command of `life`. `Err` means out of
// memory.
fn names_commands(alloc: Global, life: &Life, report: &LifeRecord) -> Result<bool, AllocError>
    ensures { IfOk result (λ name. IsTrue name → NamesCommands life.now report.now) }
{
    let lent = life.lent();
    // `ops` finds the operation of a command by its client and its number.
    let ops = IndexedLife::of(alloc, &lent)?;
    Ok(
        names_journal(life, &ops, report.journal.as_slice())
            && names_reads(life, &ops, report.reads.as_slice()),
    )
}

// Whether each line of a journal names a client and a command of `life`. `ops` has the operations of `life`.
fn names_journal(life: &Life, ops: &IndexedLife<'_, Op>, journal: &[JournalLine]) -> bool
    requires { ops.now ≡ life.now }
    ensures { IsTrue result → All (λ line. Names life.now line.client line.command) journal.now }
{
    for line in journal {
        if !names(life, ops, line.client, line.command) {
            return false;
        }
    }
    true
}

// Whether each line of the reads of a record names a client and a command of `life`. `ops` has the operations of `life`.
fn names_reads(life: &Life, ops: &IndexedLife<'_, Op>, reads: &[ReadLine]) -> bool
    requires { ops.now ≡ life.now }
    ensures { IsTrue result → All (λ line. Names life.now line.client line.command) reads.now }
{
    for line in reads {
        if !names(life, ops, line.client, line.command) {
            return false;
        }
    }
    true
}

/// Whether `life` has a client with number `client`, and this client a command with number `command`. `ops` has the operations of `life`.
fn names(life: &Life, ops: &IndexedLife<'_, Op>, client: u32, command: u64) -> bool
    requires { ops.now ≡ life.now }
    ensures { IsTrue result → Names life.now client command }
{
    if client >= life.clients {
        return false;
    }
    match ops.op(client, command) {
        Some(_) => true,
        None => false,
    }
}

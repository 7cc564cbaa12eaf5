//! Lives of another object than the document store: counters, with scripts of their own.

ghost use Rattle.std.specs.Prelude.{◌≡◌, ◌⊎◌, ◌+◌, ◌<◌, ◌≤◌, ◌^◌, ℕ, List, [], ◌∷◌, ◌++◌, All, IfOk, length, vec_len};
ghost use Rattle.bounded_counters.specs.CounterMeaning.{IsOp, counter_meaning};
ghost use Rattle.bounded_counters.specs.Counters.{IsCounters, counters_read_only, counters_step};
ghost use Rattle.bounded_counters.specs.declared.operations.Op.{Op as counter_op};
ghost use Rattle.life_records.specs.Limits.{IsLifeInLimits, KeepsLimits};
ghost use Rattle.life_records.specs.Scripts.{command_count};
ghost use Rattle.life_records.specs.declared.script.Life.{Life as any_life};
ghost use Rattle.cx_lives.specs.Lives.{HaveLived};

use crate::holds::holds;
use bounded_counters::{Counters, Op, Reply};
use cx_base::{Items, OpenGate};
use cx_lives::{Lived, run_lives, run_next_life};
use life_records::{BorrowedLife, Command, Cut, Life, LifeRecord, Script};
use std::alloc::{AllocError, Global};
use std::sync::Wait;
use std::test::Fail;
use std::thread::Threads;

/// A command of the only client: the number of a counter, and what is added to it; `None` where it is read.
type Row = (u64, Option<u64>);

/// What the client asks for in the first life. There are the counters 0 to 510, each of which stays below 1,000.
const FIRST: [Row; 5] = [
    (1, Some(5)),
    (1, Some(990)),
    (1, None),
    // 995 and 5 are 1,000, which is refused
    (1, Some(5)),
    // there is no counter 511
    (511, Some(1)),
];

/// The replies to the entries of the first life; the read is no entry.
const ANSWERS: [Reply; 4] = [
    Reply::Value(5),
    Reply::Value(995),
    Reply::Full,
    Reply::Missing,
];

/// What the client asks for in the second life, in which it is stopped before its first step.
const STOPPED: [Row; 1] = [(1, Some(1))];

/// What the client reads in the last life.
const LAST: [Row; 1] = [(1, None)];

/// Runs the lives of a script of counters. The object has 64 to 16,384 lines, and the script keeps the limits of scripts; then the records of the
/// lives are legal.
fn counter_lives<R: Threads + Wait + Sync>(
    rt: &R,
    alloc: Global,
    counters: &Counters,
    script: &Script<Op>,
) -> Result<Lived<Reply>, AllocError>
    requires enough { 64 ≤ counters.now.lines }
    requires few { counters.now.lines ≤ 16384 }
    requires limits { KeepsLimits IsOp 8 script.now }
    ensures { IfOk result (HaveLived (counter_meaning counters.now.lines counters.now.bound) counters.now.lines 1 (IsCounters counters.now.lines counters.now.bound) (counters_step counters.now.bound) counters_read_only script.now.lives) }
{
    run_lives(rt, alloc, counters, script, &OpenGate)
}

/// Runs one life more after those in `lived`, of client 0 alone, which gives these commands. The lives have 100,000 commands at most. The records of
/// all lives are legal then, those of the new life too.
fn with_life<R: Threads + Wait + Sync>(
    rt: &R,
    alloc: Global,
    counters: &Counters,
    lived: Lived<Reply>,
    commands: &[Command<Op>],
) -> Result<Lived<Reply>, AllocError>
    requires enough { 64 ≤ counters.now.lines }
    requires few { counters.now.lines ≤ 16384 }
    requires commands { All (λ c. (c.client ≡ 0) × IsOp c.op) commands.now }
    requires lived { (lives : List (any_life counter_op)) × HaveLived (counter_meaning counters.now.lines counters.now.bound) counters.now.lines 1 (IsCounters counters.now.lines counters.now.bound) (counters_step counters.now.bound) counters_read_only lives lived × (command_count lives + length commands.now ≤ 100000) }
    ensures { (lives : List (any_life counter_op)) → HaveLived (counter_meaning counters.now.lines counters.now.bound) counters.now.lines 1 (IsCounters counters.now.lines counters.now.bound) (counters_step counters.now.bound) counters_read_only lives lived → IfOk result (HaveLived (counter_meaning counters.now.lines counters.now.bound) counters.now.lines 1 (IsCounters counters.now.lines counters.now.bound) (counters_step counters.now.bound) counters_read_only (lives ++ record { clients = 1; choice = 0; cuts = []; commands = commands.now } ∷ [])) }
{
    let life = BorrowedLife::of(1, 0, &[], commands);
    run_next_life(rt, alloc, counters, lived, &life, &OpenGate)
}

// The command of a row, which is client 0's.
fn command(row: &Row) -> Command<Op>
    ensures client { result.client ≡ 0 }
    ensures op { IsOp result.op }
{
    let (counter, amount) = *row;
    let op = match amount {
        Some(amount) => Op::Add { counter, amount },
        None => Op::Read { counter },
    };
    Command { client: 0, op }
}

// The commands of all rows, in their order.
fn commands(alloc: Global, rows: &[Row]) -> Result<Vec<Command<Op>>, AllocError>
    ensures each { IfOk result (λ commands. All (λ c. (c.client ≡ 0) × IsOp c.op) commands.items) }
    ensures count { IfOk result (λ commands. vec_len commands ≡ length rows.now) }
{
    let mut commands = Vec::new(alloc);
    for row in rows {
        commands.push(command(row))?;
    }
    Ok(commands)
}

// The step limit of client 0 as a list for a life: one, or none where `steps` is `None`.
fn cuts(alloc: Global, steps: Option<u64>) -> Result<Items<Cut>, AllocError>
    ensures { IfOk result (λ cuts. (cuts ≡ []) ⊎ ((n : ℕ) × (n < 2 ^ 64) × (cuts ≡ record { client = 0; steps = n } ∷ []))) }
{
    let mut cuts = Items::new(alloc);
    if let Some(steps) = steps {
        cuts.push(Cut { client: 0, steps })?;
    }
    Ok(cuts)
}

/// A life of one client with these commands, which is stopped after `cut` steps, or not at all where this is `None`.
fn life(alloc: Global, cut: Option<u64>, rows: &[Row]) -> Result<Life<Op>, AllocError>
    ensures limits { IfOk result (IsLifeInLimits IsOp 8) }
    ensures count { IfOk result (λ life. length life.commands ≡ length rows.now) }
{
    let cuts = cuts(alloc, cut)?;
    let commands = commands(alloc, rows)?;
    Ok(Life {
        clients: 1,
        choice: 0,
        cuts,
        commands: Items::of(commands),
    })
}

// The script of the first two lives: in the second one the client is stopped before its first step.
fn script(alloc: Global) -> Result<Script<Op>, AllocError>
    ensures limits { IfOk result (KeepsLimits IsOp 8) }
    ensures few { IfOk result (λ script. command_count script.lives ≤ 6) }
{
    let mut lives = Items::new(alloc);
    lives.push(life(alloc, None, &FIRST)?)?;
    lives.push(life(alloc, Some(0), &STOPPED)?)?;
    Ok(Script { lines: 64, lives })
}

/// Whether the journal of a life has just the entries with these replies, in their order.
fn has_answers(report: &LifeRecord<Reply>, wanted: &[Reply]) -> bool {
    for (line, reply) in report.journal.as_slice().iter().zip(wanted) {
        if line.reply != Some(*reply) {
            return false;
        }
    }
    report.journal.len() == wanted.len()
}

/// Whether just one read of a life was answered, at this place with this reply.
fn has_read(report: &LifeRecord<Reply>, place: u64, reply: Reply) -> bool {
    match report.reads.as_slice() {
        [line] => line.place == place && line.reply == reply,
        _ => false,
    }
}

/// Whether just one client of a life was stopped, in its first command before its first step, and the command is not kept.
fn has_stop(report: &LifeRecord<Reply>) -> bool {
    match report.stops.as_slice() {
        [line] => line.command == 1 && line.steps == 0 && !line.kept,
        _ => false,
    }
}

/// Whether the records of three lives have the replies, the reads and the stop that are wanted, and the last one the 511 counters.
fn are_wanted(records: &[LifeRecord<Reply>]) -> bool {
    let [first, stopped, last] = records else {
        return false;
    };
    // the first life: four entries, all kept, and a read behind two of them; the second: nothing done; the last: counter 1 is as the first life left
    // it
    has_answers(first, &ANSWERS)
        && has_read(first, 2, Reply::Value(995))
        && first.kept == 4
        && has_answers(stopped, &[])
        && has_stop(stopped)
        && stopped.kept == 0
        && has_read(last, 4, Reply::Value(995))
        && last.items == 511
}

/// Whether the records of three lives of counters are as wanted.
fn lives_go_as_wanted<R: Threads + Wait + Sync>(rt: &R, alloc: Global) -> Result<bool, AllocError> {
    let counters = Counters::of(64, 1000);
    let script = script(alloc)?;
    let last = commands(alloc, &LAST)?;
    let lived = counter_lives(rt, alloc, &counters, &script)?;
    let lived = with_life(rt, alloc, &counters, lived, &last)?;
    Ok(are_wanted(lived.records.as_slice()))
}

#[test]
fn counters_have_lives(rt: HostRuntime) -> Result<(), Fail> {
    holds(&rt, lives_go_as_wanted(&rt, rt.alloc())?);
    Ok(())
}

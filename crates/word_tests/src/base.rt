//! The worked row of codes, and the object Tally over two memories, with each limit.

ghost use Rattle.std.specs.Prelude.{◌≡◌, IfOk, IsTrue, replicate};
ghost use Rattle.cx_base.specs.Tally.{IsTally, tally_opening};

use crate::holds::{all_hold, holds, holds_with_memory};
use crate::noted::Noted;
use cx_base::tally::Tally;
use cx_base::{
    Halt, Memory, Object, VecMemory, link_cell, link_code, link_ticket, root_code, root_place,
    root_replica,
};
use std::alloc::{AllocError, Global};

#[test]
fn codes_of_the_worked_row(rt: HostRuntime) {
    // with 2 callers, the root code of place 7 and replica 3, and what it names
    holds(&rt, root_code(2, 7, 3) == 31);
    holds(&rt, root_place(2, 31) == 7);
    holds(&rt, root_replica(2, 31) == 3);
    // with 2 callers, the link code of ticket 33 and cell 5, and what it names
    holds(&rt, link_code(2, 33, 5) == 1062);
    holds(&rt, link_ticket(2, 1062) == 33);
    holds(&rt, link_cell(2, 1062) == 5);
    // the greatest root code, and the least link code
    holds(&rt, root_code(8, 1 << 40, 15) == 17592186044431);
    holds(&rt, link_code(1, 0, 0) == 1);
}

// `len` words of 0.
fn zeros(alloc: Global, len: usize) -> Result<Vec<u64>, AllocError>
    ensures { IfOk result (λ words. words.items ≡ replicate len 0) }
{
    vec![in alloc; 0; len]
}

// The opening image of Tally, as `format` makes it over 512 words of 0 with `left` accesses allowed, or its `Halt`.
fn opening(alloc: Global, left: Option<u64>) -> Result<Result<Vec<u64>, Halt>, AllocError>
    ensures { IfOk result (λ made. IfOk made (λ words. words.items ≡ tally_opening)) }
{
    let mut memory = VecMemory::of(zeros(alloc, 512)?, left);
    match Tally.format(&mut memory) {
        Ok(()) => Ok(Ok(memory.into_words())),
        Err(halt) => Ok(Err(halt)),
    }
}

// Whether the step `op` of Tally on an image is done, and does not halt, with `left` accesses allowed.
fn is_stepped(words: Vec<u64>, left: u64, op: &[u64; 144]) -> bool
    requires { IsTally words.items }
{
    let mut memory = VecMemory::of(words, Some(left));
    Tally.run(&mut memory, op).is_ok()
}

// The 144 words of an operation or a reply: these two come first, and all others are 0.
fn words_of(first: u64, second: u64) -> [u64; 144] {
    let mut words = [0; 144];
    words[0] = first;
    words[1] = second;
    words
}

// The first limit of accesses, below 514, at which `format` goes wrong: it has to halt below 512, and to succeed from there on.
fn first_other_format(alloc: Global) -> Result<Option<u64>, AllocError> {
    for left in 0..514 {
        if opening(alloc, Some(left))?.is_ok() != (512 <= left) {
            return Ok(Some(left));
        }
    }
    Ok(None)
}

// Whether the step `op` on the opening image is done with `left` accesses allowed; `None` where that image is not made or not found lawful.
fn is_done(alloc: Global, op: &[u64; 144], left: u64) -> Result<Option<bool>, AllocError> {
    let Ok(words) = opening(alloc, None)? else {
        return Ok(None);
    };
    if !Tally.check(alloc, &words)? {
        return Ok(None);
    }
    Ok(Some(is_stepped(words, left, op)))
}

// The first limit of accesses, below 4, at which the step `op` goes wrong: it has to halt below `needs`, and to succeed from there on.
fn first_other_run(alloc: Global, op: &[u64; 144], needs: u64) -> Result<Option<u64>, AllocError> {
    for left in 0..4 {
        if is_done(alloc, op, left)? != Some(needs <= left) {
            return Ok(Some(left));
        }
    }
    Ok(None)
}

#[test]
fn tally_halts_at_each_step(rt: HostRuntime) {
    let alloc = rt.alloc();
    // the opening image takes 512 stores
    all_hold(&rt, first_other_format(alloc));
    // an addition loads the sum and stores it
    all_hold(&rt, first_other_run(alloc, &words_of(3, 0), 2));
    // a reading loads it
    all_hold(&rt, first_other_run(alloc, &words_of(100, 1), 1));
}

// Whether a memory with notes counts the accesses of `format` and two loads, and refuses all behind them.
fn counts_accesses(alloc: Global) -> Result<bool, AllocError> {
    let mut memory = Noted::of(alloc, zeros(alloc, 512)?, 514)?;
    // the opening image takes 512 accesses
    let formatted = Tally.format(&mut memory) == Ok(()) && memory.accesses() == 512;
    // its first and last words are 7 and 0; these two loads are the last accesses allowed
    let loaded = memory.load(0) == Ok(7) && memory.load(511) == Ok(0);
    // each access after them is refused
    let refused = memory.load(0) == Err(Halt) && memory.store(0, 1) == Err(Halt);
    Ok(formatted && loaded && refused && memory.accesses() == 514)
}

// Makes the opening image in any memory, also in one of which no word is known before it is stored, and does a step of Tally there.
fn format_and_run<M: Memory>(memory: &mut M, op: &[u64; 144]) -> Result<[u64; 144], Halt>
    requires size { M.size memory.old ≡ 512 }
    requires writable { IsTrue (M.writable memory.old) }
    ensures size { M.size memory.new ≡ 512 }
{
    Tally.format(memory)?;
    Tally.run(memory, op)
}

// Whether the opening image and a step that adds 9, in a memory with notes, leave 9 as the sum: 512 accesses, 2, and 1 that loads it here.
fn adds_nine(alloc: Global) -> Result<bool, AllocError> {
    let mut memory = Noted::of(alloc, zeros(alloc, 512)?, 600)?;
    let answered = format_and_run(&mut memory, &words_of(9, 0)) == Ok(words_of(9, 0));
    Ok(answered && memory.load(1) == Ok(9) && memory.accesses() == 515)
}

#[test]
fn tally_over_a_memory_with_notes(rt: HostRuntime) {
    holds_with_memory(&rt, counts_accesses(rt.alloc()));
    holds_with_memory(&rt, adds_nine(rt.alloc()));
}

//! The counters over the words of any memory.

ghost use Rattle.std.specs.Prelude.{◌≡◌, ◌-◌, ◌*◌, ◌^◌, ◌<◌, ◌≤◌, ◌↔◌, nat_lt, IsTrue};
ghost use Rattle.cx_base.specs.Calls.{Changes, Finds};
ghost use Rattle.cx_base.specs.OldFormat.{no_old_format, takes_over_nothing};
ghost use Rattle.bounded_counters.specs.Counters.{HoldsCounters, IsCounters, MayChangeCounters, StepsCounters, counters_opening, counters_read_only, counters_step};
ghost use Rattle.bounded_counters.specs.CounterLaws as laws;
ghost use Rattle.bounded_counters.specs.declared.operations.Op.TheVariants.{Add, Read};

use crate::operations::{Op, Reply};
use cx_base::{Halt, Memory, Object, OpWords, load_below};
use std::alloc::{AllocError, Global};

const VERSION: u64 = 1;

/// Counters that start at 0 and stay below a bound: one for each word of a number of lines, but the first. What they have
/// stands in a memory that is lent to each call; the value itself is only the number of lines and the bound.
#[derive(Drop)]
pub struct Counters {
    lines: u64,
    bound: u64,
    ghost some: { 1 ≤ lines },
    ghost few: { lines ≤ 2 ^ 32 },
    ghost zero: { 0 < bound },
    ghost small: { bound < 2 ^ 64 },
}

impl Counters {
    /// Counters in `lines` lines of 8 words, each below the bound.
    pub fn of(lines: u64, bound: u64) -> Counters
        requires some { 1 ≤ lines }
        requires few { lines ≤ 2 ^ 32 }
        requires zero { 0 < bound }
        ensures lines { result.lines ≡ lines }
        ensures bound { result.bound ≡ bound }
    {
        Counters { lines, bound }
    }

    /// What each counter stays below.
    pub fn bound(&self) -> u64
        ensures { result ≡ self.now.bound }
    {
        self.bound
    }

    /// Whether there is this counter.
    fn has(&self, counter: u64) -> bool
        ensures { result ≡ nat_lt counter (8 * self.now.lines - 1) }
    {
        counter < 8 * self.lines - 1
    }

    /// Does what an operation asks for.
    fn answer<M: Memory>(&self, mem: &mut M, op: Op) -> Result<Reply, Halt>
        requires { MayChangeCounters M.Memory self.now.lines self.now.bound mem.old }
        ensures { Changes M.Memory mem.old mem.new result (StepsCounters self.now.bound op) }
    {
        match op {
            Op::Add { counter, amount } => self.add(mem, counter, amount),
            Op::Read { counter } => self.read(mem, counter),
            Op::Other => Ok(Reply::NoOperation),
        }
    }

    /// Adds to a counter, where the sum stays below the bound.
    fn add<M: Memory>(&self, mem: &mut M, counter: u64, amount: u64) -> Result<Reply, Halt>
        requires { MayChangeCounters M.Memory self.now.lines self.now.bound mem.old }
        ensures { Changes M.Memory mem.old mem.new result (StepsCounters self.now.bound (Add counter amount)) }
    {
        if !self.has(counter) {
            return Ok(Reply::Missing);
        }
        let count = load_below(mem, counter + 1, self.bound)?;
        if self.bound - count <= amount {
            return Ok(Reply::Full);
        }
        mem.store(counter + 1, count + amount)?;
        Ok(Reply::Value(count + amount))
    }

    /// Tells what a counter has.
    fn read<M: Memory>(&self, mem: &mut M, counter: u64) -> Result<Reply, Halt>
        requires { HoldsCounters M.Memory self.now.lines self.now.bound mem.old }
        ensures { Finds M.Memory mem.old mem.new result (λ reply now. StepsCounters self.now.bound (Read counter) reply now now) }
    {
        if !self.has(counter) {
            return Ok(Reply::Missing);
        }
        Ok(Reply::Value(mem.load(counter + 1)?))
    }

    /// Whether words are an image of these counters.
    fn is_image(&self, words: &[u64]) -> bool
        ensures { IsTrue result ↔ IsCounters self.now.lines self.now.bound words.now }
    {
        words.len() as u64 == 8 * self.lines
            && words[0] == VERSION
            && words[1..].iter().all(|count| *count < self.bound)
    }
}

impl Object for Counters {
    ghost line_count = { λ c. c.lines };

    ghost version_number = { λ _. 1 };

    ghost lawful = { λ c. IsCounters c.lines c.bound };

    ghost opening = { λ c. counters_opening c.lines };

    ghost step = { λ c. counters_step c.bound };

    ghost only_reads = { λ _. counters_read_only };

    ghost old_format = { λ _. no_old_format };

    ghost opens = { λ c. laws.opens c.lines c.bound c.some c.zero };

    ghost keeps = { λ c image op i w. laws.keeps c.lines c.bound image op i };

    ghost shape = { λ c. laws.shape c.lines c.bound c.small };

    ghost replies = { λ c image op i w. laws.replies c.lines c.bound c.small image op i };

    ghost leaves = { λ c image op i w. laws.leaves c.lines c.bound image op i };

    ghost takes_over = { λ c. takes_over_nothing c.lines 1 (IsCounters c.lines c.bound) };

    fn lines(&self) -> u64 {
        self.lines
    }

    fn version(&self) -> u64 {
        VERSION
    }

    fn format<M: Memory>(&self, mem: &mut M) -> Result<(), Halt> {
        mem.store(0, VERSION)?;
        for at in 1..8 * self.lines {
            mem.store(at, 0)?;
        }
        Ok(())
    }

    fn reads(&self, op: &OpWords) -> bool {
        match Op::of(op) {
            Op::Read { .. } => true,
            _ => false,
        }
    }

    fn run_into<M: Memory>(
        &self,
        mem: &mut M,
        op: &OpWords,
        reply: &mut OpWords,
    ) -> Result<(), Halt> {
        *reply = self.answer(mem, Op::of(op))?.words();
        Ok(())
    }

    fn query_into<M: Memory>(
        &self,
        mem: &mut M,
        op: &OpWords,
        reply: &mut OpWords,
    ) -> Result<(), Halt> {
        *reply = match Op::of(op) {
            Op::Read { counter } => self.read(mem, counter)?.words(),
            _ => unreachable!(),
        };
        Ok(())
    }

    fn check(&self, _alloc: Global, words: &[u64]) -> Result<bool, AllocError> {
        Ok(self.is_image(words))
    }

    fn old_version(&self) -> Option<u64> {
        None
    }

    fn check_old(&self, _alloc: Global, _words: &[u64]) -> Result<bool, AllocError> {
        Ok(false)
    }

    fn upgrade(&self, _words: &mut [u64]) {}
}

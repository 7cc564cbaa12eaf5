//! The number over the words of any memory.

ghost use Rattle.std.specs.Prelude.{◌≡◌, ◌*◌, ◌^◌, ◌≤◌, ◌↔◌, IsTrue};
ghost use Rattle.cx_base.specs.Calls.{Changes, Finds};
ghost use Rattle.cx_base.specs.Memory.{Always};
ghost use Rattle.cx_base.specs.OldFormat.{no_old_format, takes_over_nothing};
ghost use Rattle.object_to_copy.specs.Meaning.{Does, IsImage, object_opening, object_reads, object_step};
ghost use Rattle.object_to_copy.specs.Laws as laws;
ghost use Rattle.object_to_copy.specs.declared.operations.Op.TheVariants.{Raise, Read};

use crate::operations::{Op, Reply};
use cx_base::{Halt, Memory, Object, OpWords};
use std::alloc::{AllocError, Global};

/// The first word of each image.
const VERSION: u64 = 1;

/// The word that has the number.
const NUMBER: u64 = 1;

/// The highest number that was given, 0 at first. It stands in a memory that is lent to each call: the value itself is only what is fixed,
/// and it is copied where a service and its recovery both need it.
#[derive(Clone, Copy, Debug)]
pub struct Highest {
    lines: u64,
    ghost some: { 1 ≤ lines },
    ghost few: { lines ≤ 2 ^ 32 },
}

impl Highest {
    /// In `lines` lines of 8 words; a service takes 64 at least.
    pub fn of(lines: u64) -> Highest
        requires some { 1 ≤ lines }
        requires few { lines ≤ 2 ^ 32 }
        ensures { result.lines ≡ lines }
    {
        Highest { lines }
    }

    /// Does what an operation asks for.
    fn answer<M: Memory>(&self, mem: &mut M, op: Op) -> Result<Reply, Halt>
        requires size { M.size mem.old ≡ 8 * self.now.lines }
        requires writable { IsTrue (M.writable mem.old) }
        requires lawful { Always (M.stands mem.old) (IsImage self.now.lines) }
        ensures { Changes M.Memory mem.old mem.new result (Does op) }
    {
        match op {
            Op::Raise { to } => self.raise(mem, to),
            Op::Read => self.read(mem),
            Op::Other => Ok(Reply::NoOperation),
        }
    }

    /// Takes a number, where it is higher.
    fn raise<M: Memory>(&self, mem: &mut M, to: u64) -> Result<Reply, Halt>
        requires size { M.size mem.old ≡ 8 * self.now.lines }
        requires writable { IsTrue (M.writable mem.old) }
        requires lawful { Always (M.stands mem.old) (IsImage self.now.lines) }
        ensures { Changes M.Memory mem.old mem.new result (Does (Raise to)) }
    {
        let number = mem.load(NUMBER)?;
        if to <= number {
            return Ok(Reply::Value(number));
        }
        mem.store(NUMBER, to)?;
        Ok(Reply::Value(to))
    }

    /// Tells the number.
    fn read<M: Memory>(&self, mem: &mut M) -> Result<Reply, Halt>
        requires size { M.size mem.old ≡ 8 * self.now.lines }
        requires lawful { Always (M.stands mem.old) (IsImage self.now.lines) }
        ensures { Finds M.Memory mem.old mem.new result (λ reply now. Does Read reply now now) }
    {
        Ok(Reply::Value(mem.load(NUMBER)?))
    }

    /// Whether words are an image.
    fn is_image(&self, words: &[u64]) -> bool
        ensures { IsTrue result ↔ IsImage self.now.lines words.now }
    {
        words.len() as u64 == 8 * self.lines && words[0] == VERSION
    }
}

impl Object for Highest {
    ghost line_count = { λ o. o.lines };

    ghost version_number = { λ _. 1 };

    ghost lawful = { λ o. IsImage o.lines };

    ghost opening = { λ o. object_opening o.lines };

    ghost step = { λ _. object_step };

    ghost only_reads = { λ _. object_reads };

    ghost old_format = { λ _. no_old_format };

    ghost opens = { λ o. laws.opens o.lines o.some };

    ghost keeps = { λ o. laws.keeps o.lines };

    ghost shape = { λ o. laws.shape o.lines };

    ghost replies = { λ o. laws.replies o.lines };

    ghost leaves = { λ o. laws.leaves o.lines };

    ghost takes_over = { λ o. takes_over_nothing o.lines 1 (IsImage o.lines) };

    fn lines(&self) -> u64 {
        self.lines
    }

    fn version(&self) -> u64 {
        VERSION
    }

    fn format<M: Memory>(&self, mem: &mut M) -> Result<(), Halt> {
        mem.store(0, VERSION)?;
        for at in 1..8 * self.lines {
            mem.store(at, 0)?;
        }
        Ok(())
    }

    fn reads(&self, op: &OpWords) -> bool {
        Op::of(op).only_reads()
    }

    fn run_into<M: Memory>(
        &self,
        mem: &mut M,
        op: &OpWords,
        reply: &mut OpWords,
    ) -> Result<(), Halt> {
        *reply = self.answer(mem, Op::of(op))?.words();
        Ok(())
    }

    fn query_into<M: Memory>(
        &self,
        mem: &mut M,
        op: &OpWords,
        reply: &mut OpWords,
    ) -> Result<(), Halt> {
        *reply = match Op::of(op) {
            Op::Read => self.read(mem)?.words(),
            _ => unreachable!(),
        };
        Ok(())
    }

    fn check(&self, _alloc: Global, words: &[u64]) -> Result<bool, AllocError> {
        Ok(self.is_image(words))
    }

    fn old_version(&self) -> Option<u64> {
        None
    }

    fn check_old(&self, _alloc: Global, _words: &[u64]) -> Result<bool, AllocError> {
        Ok(false)
    }

    fn upgrade(&self, _words: &mut [u64]) {}
}

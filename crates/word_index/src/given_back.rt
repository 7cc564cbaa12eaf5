//! Lines that are given back.

ghost use Rattle.std.specs.Prelude.{◌≡◌, IfOk};
ghost use Rattle.cx_base.specs.Calls.{Changes};
ghost use Rattle.cx_base.specs.Memory.{Becomes};
ghost use Rattle.avl_words.specs.Lines.{IsStorable};
ghost use Rattle.word_index.specs.Changes.{with_line_given, CanGive, LooseChain, ChainGiven};
ghost use Rattle.word_index.specs.Exact.{with_chain_given};

use avl_words::{put, word};
use cx_base::{Halt, Memory};

/// Puts a loose line in front of the given-back lines. `Halt` comes only where no access is left.
pub fn give_back<M: Memory>(mem: &mut M, line: u64) -> Result<(), Halt>
    requires { IsStorable M.Memory mem.old (λ ws. CanGive ws line) }
    ensures { Changes M.Memory mem.old mem.new result (λ _ before now. now ≡ with_line_given line before) }
{
    let head = word(mem, 0, 2)?;
    let number = word(mem, 0, 4)?;
    put(mem, line, 0, head)?;
    put(mem, 0, 2, line)?;
    put(mem, 0, 4, number + 1)?;
    Ok(())
}

/// Gives back the lines of a chain of loose lines. `Halt` comes only where no access is left.
pub fn give_chain<M: Memory>(mem: &mut M, first: u64, count: u64) -> Result<(), Halt>
    requires { IsStorable M.Memory mem.old (λ ws. LooseChain ws first count) }
    ensures changes { Changes M.Memory mem.old mem.new result (λ _. ChainGiven first count) }
    ensures exact { IfOk result (λ _. Becomes (M.stands mem.old) (M.stands mem.new) (λ old now. now ≡ with_chain_given count first old)) }
{
    let mut line = first;
    for _ in 0..count {
        let next = word(mem, line, 0)?;
        give_back(mem, line)?;
        line = next;
    }
    Ok(())
}

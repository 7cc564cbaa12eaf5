//! The blocks of a chain get other words.

ghost use Rattle.std.specs.Prelude.{◌≡◌, ◌≤◌, ◌^◌};
ghost use Rattle.cx_base.specs.Calls.{Changes};
ghost use Rattle.avl_words.specs.Lines.{IsStorable};
ghost use Rattle.word_index.specs.Exact.{with_chain_filled};
ghost use Rattle.word_index.specs.Rewriting.{HasLines};

use crate::taken::{block, put_line};
use avl_words::word;
use cx_base::{Halt, Memory};

/// Fills the blocks of a chain of `count` lines with the words of a text. `Halt` comes only where no access is left.
pub fn fill_chain<M: Memory>(
    mem: &mut M,
    first: u64,
    words: &[u64],
    count: usize,
) -> Result<(), Halt>
    requires memory { IsStorable M.Memory mem.old (λ ws. HasLines ws first count) }
    requires few { count ≤ 2 ^ 32 }
    ensures { Changes M.Memory mem.old mem.new result (λ _ old now. now ≡ with_chain_filled words.now count 0 first old) }
{
    let mut line = first;
    for j in 0..count {
        let next = word(mem, line, 0)?;
        put_line(mem, line, &block(next, words, 7 * j))?;
        line = next;
    }
    Ok(())
}

//! Lines are taken and filled.

ghost use Rattle.std.specs.Prelude.{◌≡◌, ◌+◌, ◌*◌, ◌-◌, ◌<◌, ◌≤◌, ◌^◌, IfOk};
ghost use Rattle.cx_base.specs.Calls.{Changes};
ghost use Rattle.cx_base.specs.Memory.{Becomes, overwritten};
ghost use Rattle.avl_words.specs.Lines.{IsStorable, IsWithin, with_word, word_of};
ghost use Rattle.word_index.specs.Exact.{line_to_take, with_line_taken, with_text};
ghost use Rattle.word_index.specs.Fresh.{CanTake, LineTaken, LineFilled, IsBlock, TextWritten};

use avl_words::{put, start_of, word};
use cx_base::{Halt, Memory, store_words};

/// Takes the first line never given.
fn take_new<M: Memory>(mem: &mut M) -> Result<u64, Halt>
    requires { IsStorable M.Memory mem.old (λ ws. word_of ws 0 3 ≤ 2 ^ 32) }
    ensures { Changes M.Memory mem.old mem.new result (λ line before now. (word_of before 0 3 ≡ line) × (now ≡ with_word 0 3 (line + 1) before)) }
{
    let line = word(mem, 0, 3)?;
    put(mem, 0, 3, line + 1)?;
    Ok(line)
}

/// Takes the first given-back line.
fn take_given<M: Memory>(mem: &mut M, head: u64) -> Result<(), Halt>
    requires { IsStorable M.Memory mem.old (λ ws. IsWithin ws head × (1 ≤ word_of ws 0 4)) }
    ensures { Changes M.Memory mem.old mem.new result (λ _ before now. now ≡ with_word 0 4 (word_of before 0 4 - 1) (with_word 0 2 (word_of before head 0) before)) }
{
    let next = word(mem, head, 0)?;
    let number = word(mem, 0, 4)?;
    put(mem, 0, 2, next)?;
    put(mem, 0, 4, number - 1)?;
    Ok(())
}

/// Takes a line: the first given-back one, or else the first never given. `Halt` comes only where no access is left.
pub fn take_line<M: Memory>(mem: &mut M) -> Result<u64, Halt>
    requires { IsStorable M.Memory mem.old (λ ws. CanTake ws 1) }
    ensures changes { Changes M.Memory mem.old mem.new result (λ line. LineTaken line) }
    ensures exact { IfOk result (λ line. Becomes (M.stands mem.old) (M.stands mem.new) (λ old now. (line ≡ line_to_take old) × (now ≡ with_line_taken old))) }
{
    let head = word(mem, 0, 2)?;
    if head == 0 {
        return take_new(mem);
    }
    take_given(mem, head)?;
    Ok(head)
}

/// Fills a line, and stores only the words that change. `Halt` comes only where no access is left.
pub fn put_line<M: Memory>(mem: &mut M, line: u64, content: &[u64; 8]) -> Result<(), Halt>
    requires { IsStorable M.Memory mem.old (λ ws. IsWithin ws line) }
    ensures changes { Changes M.Memory mem.old mem.new result (λ _. LineFilled line content.now) }
    ensures exact { IfOk result (λ _. Becomes (M.stands mem.old) (M.stands mem.new) (λ old now. now ≡ overwritten (8 * line) content.now old)) }
{
    let start = start_of(mem, line);
    store_words(mem, start, content)?;
    Ok(())
}

/// The words of a block: the next line, and seven words from a place on, 0 behind the end.
pub fn block(next: u64, words: &[u64], from: usize) -> [u64; 8]
    requires { from < 2 ^ 40 }
    ensures { IsBlock next words.now from result }
{
    let mut content = [next; 8];
    for i in 0..7 {
        content[1 + i] = words.get(from + i).copied().unwrap_or(0);
    }
    content
}

/// Writes words into a chain of `count` new blocks, and gives its first line. `Halt` comes only where no access is left.
pub fn write_text<M: Memory>(mem: &mut M, words: &[u64], count: usize) -> Result<u64, Halt>
    requires memory { IsStorable M.Memory mem.old (λ ws. CanTake ws count) }
    requires few { count ≤ 2 ^ 32 }
    ensures changes { Changes M.Memory mem.old mem.new result (λ first. TextWritten words.now count first) }
    ensures exact { IfOk result (λ first. Becomes (M.stands mem.old) (M.stands mem.new) (λ old now. with_text words.now count 0 old ≡ (first, now))) }
{
    let mut next = 0;
    for j in 0..count {
        let line = take_line(mem)?;
        put_line(mem, line, &block(next, words, 7 * (count - 1 - j)))?;
        next = line;
    }
    Ok(next)
}

//! The bytes that a chain of blocks holds.

ghost use Rattle.std.specs.Prelude.{◌≡◌, ◌+◌, ◌/◌, ◌%◌, ◌<◌, ◌≤◌, ◌≢◌, ℕ, List, length, replicate};
ghost use Rattle.cx_base.specs.Calls.{Finds};
ghost use Rattle.cx_base.specs.Packing.{packed, packed_at};
ghost use Rattle.avl_words.specs.Lines.{IsLoadable, IsWithin, word_of};
ghost use Rattle.index_validation.specs.Blocks.{HasChainWords, IsTextAt, HasText};
ghost use Rattle.index_validation.specs.Layout.{Holds};
ghost use Rattle.word_index.specs.Answers.{IsPackOf};

use avl_words::word;
use cx_base::{Halt, Memory};

/// The block line in which the word behind one stands that is word `place` of `line`, from 0 to 6.
fn line_after<M: Memory>(mem: &mut M, line: u64, place: u64) -> Result<u64, Halt>
    requires { IsLoadable M.Memory mem.old (λ ws. IsWithin ws line) }
    ensures { Finds M.Memory mem.old mem.new result (λ next ws. (place ≡ 6 → word_of ws line 0 ≡ next) × (place ≢ 6 → next ≡ line)) }
{
    if place == 6 {
        word(mem, line, 0)
    } else {
        Ok(line)
    }
}

/// The place of the word behind one in its block.
fn place_after(place: u64) -> u64
    requires { place < 7 }
    ensures { (i : ℕ) → place ≡ i % 7 → result ≡ (i + 1) % 7 }
{
    if place == 6 { 0 } else { place + 1 }
}

/// Reads the packed words of a chain of blocks, of which `count` have a byte in use.
fn read_words<M: Memory>(
    mem: &mut M,
    first: u64,
    count: usize,
    into: &mut [u64],
) -> Result<(), Halt>
    requires memory { IsLoadable M.Memory mem.old (λ ws. HasChainWords ws first count) }
    requires zero { into.old ≡ replicate (length into.old) 0 }
    requires room { count ≤ length into.old }
    ensures { Finds M.Memory mem.old mem.new result (λ _ ws. (lines bytes : List ℕ) → Holds ws first lines bytes → count ≡ (length bytes + 7) / 8 → into.new ≡ packed (length into.old) bytes) }
{
    let mut line = first;
    let mut place = 0;
    for i in 0..count {
        into[i] = word(mem, line, 1 + place)?;
        line = line_after(mem, line, place)?;
        place = place_after(place);
    }
    Ok(())
}

/// A word of a chain of blocks of which at most 8 words have a byte in use, and this one has. The first seven stand in the first block.
/// `Halt` comes only where no access is left.
pub fn early_word<M: Memory>(mem: &mut M, first: u64, at: usize) -> Result<u64, Halt>
    requires memory { IsLoadable M.Memory mem.old (λ ws. (count : ℕ) × (at < count) × HasChainWords ws first count) }
    requires at { at < 8 }
    ensures { Finds M.Memory mem.old mem.new result (λ v ws. (lines bytes : List ℕ) → Holds ws first lines bytes → at < (length bytes + 7) / 8 → v ≡ packed_at bytes at) }
{
    if at < 7 {
        let low = word(mem, first, 1 + at as u64)?;
        return Ok(low);
    }
    let second = word(mem, first, 0)?;
    let high = word(mem, second, 1)?;
    Ok(high)
}

/// Reads the bytes that a node names by its words `at` and `at + 1`, and gives their number. `Halt` comes only where no access is left.
pub fn read_text<M: Memory>(mem: &mut M, node: u64, at: u64, into: &mut [u64]) -> Result<u64, Halt>
    requires memory { IsLoadable M.Memory mem.old (λ ws. HasText ws node at (length into.old)) }
    requires zero { into.old ≡ replicate (length into.old) 0 }
    requires at { at < 7 }
    ensures { Finds M.Memory mem.old mem.new result (λ len ws. (lines bytes : List ℕ) → IsTextAt ws node at lines bytes → IsPackOf (length into.old) len into.new bytes) }
{
    let first = word(mem, node, at)?;
    let len = word(mem, node, at + 1)?;
    read_words(mem, first, len.div_ceil(8) as usize, into)?;
    Ok(len)
}

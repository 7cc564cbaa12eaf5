//! Words of lines.

ghost use Rattle.std.specs.Prelude.{◌≡◌, ◌+◌, ◌*◌, ◌<◌, ◌≤◌, ◌^◌};
ghost use Rattle.cx_base.specs.Calls.{Changes, Loads, Stores};
ghost use Rattle.avl_words.specs.Lines.{IsLoadable, IsStorable, IsWithin, with_word};

use cx_base::{Halt, Memory, store_word};

/// Where the words of a line begin.
pub fn start_of<M: Memory>(mem: &M, line: u64) -> u64
    requires { IsLoadable M.Memory mem.now (λ ws. IsWithin ws line) }
    ensures is { result ≡ 8 * line }
    ensures within { result + 8 ≤ M.size mem.now }
    ensures small { result + 8 ≤ 2 ^ 35 }
{
    8 * line
}

/// Loads word `place` of a line. `Halt` comes only where no access is left.
pub fn word<M: Memory>(mem: &mut M, line: u64, place: u64) -> Result<u64, Halt>
    requires memory { IsLoadable M.Memory mem.old (λ ws. IsWithin ws line) }
    requires place { place < 8 }
    ensures { Loads M.Memory mem.old mem.new result (8 * line + place) }
{
    let start = start_of(mem, line);
    mem.load(start + place)
}

/// Stores word `place` of a line. `Halt` comes only where no access is left.
pub fn put<M: Memory>(mem: &mut M, line: u64, place: u64, v: u64) -> Result<(), Halt>
    requires memory { IsStorable M.Memory mem.old (λ ws. IsWithin ws line) }
    requires place { place < 8 }
    ensures { Stores M.Memory mem.old mem.new result (8 * line + place) v }
{
    let start = start_of(mem, line);
    mem.store(start + place, v)
}

/// Stores word `place` of a line, unless that is the word there already. `Halt` comes only where no access is left.
pub fn put_new<M: Memory>(mem: &mut M, line: u64, place: u64, v: u64) -> Result<(), Halt>
    requires memory { IsStorable M.Memory mem.old (λ ws. IsWithin ws line) }
    requires place { place < 8 }
    ensures { Changes M.Memory mem.old mem.new result (λ _ old now. now ≡ with_word line place v old) }
{
    let start = start_of(mem, line);
    store_word(mem, start + place, v)
}

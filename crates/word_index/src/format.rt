//! The empty index.

ghost use Rattle.std.specs.Prelude.{◌≡◌, ◌<◌, ◌∷◌, [], IsTrue, IfOk, slice_index, replicate};
ghost use Rattle.cx_base.specs.Calls.{Changes};
ghost use Rattle.cx_base.specs.Memory.{Becomes};
ghost use Rattle.avl_words.specs.Lines.{IsPartLength};
ghost use Rattle.index_validation.specs.Layout.{StandsFor};
ghost use Rattle.word_index.specs.Exact.{with_empty_header};

use cx_base::{Halt, Memory};

/// Makes the words an index of no pairs, of which no revision was given. The words behind the header are left as
/// they are. `Halt` comes only where no access is left; the words may then be anything.
pub fn format_index<M: Memory>(mem: &mut M, version: u64) -> Result<(), Halt>
    requires version { version ≡ 2 }
    requires size { IsPartLength (M.size mem.old) }
    requires writable { IsTrue (M.writable mem.old) }
    ensures changes { Changes M.Memory mem.old mem.new result (λ _ _ now. StandsFor now version []) }
    ensures exact { IfOk result (λ _. Becomes (M.stands mem.old) (M.stands mem.new) (λ before now. now ≡ with_empty_header version before)) }
{
    for at in 0..8 {
        mem.store(at, header_word(version, at))?;
    }
    Ok(())
}

/// A word of the empty index's header: the version, and 1 as the first line never given.
fn header_word(version: u64, at: u64) -> u64
    requires { at < 8 }
    ensures { result ≡ slice_index (version ∷ 0 ∷ 0 ∷ 1 ∷ replicate 4 0) at }
{
    match at {
        0 => version,
        3 => 1,
        _ => 0,
    }
}

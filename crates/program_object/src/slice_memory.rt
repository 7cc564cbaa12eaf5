//! Words that a caller lends as a memory.

ghost use Rattle.std.specs.Prelude.{◌^◌, ◌<◌, All, None, List, ℕ, length, true};
ghost use Rattle.cx_base.specs.Memory.{Known, words_from_known};

use cx_base::{Halt, Memory};

/// A memory over words. It is writable and has no limit, and its words are one known list.
#[derive(Drop)]
pub struct SliceMemory<'a> {
    pub words: &'a mut [u64],
    ghost fit: { All (λ x. x < 2 ^ 64) words.now },
}

// Of a memory `m`: `size` is how many words it has, `fixed` is what no access changes, `left` is how many accesses are left (`None`: there is no
// limit), and `stands` says what is known of its words: here, all of them.
impl Memory for SliceMemory<'_> {
    ghost use Rattle.std.specs.Borrow.{GName};

    ghost size = { λ m. length m.words.now };

    ghost Fixed = { GName };

    ghost fixed = { λ m. m.words.ghost_name };

    ghost writable = { λ _. true };

    ghost left = { λ _. None };

    ghost Key = { List ℕ };

    ghost stands = { λ m. Known m.words.now };

    ghost some_stands = { λ m. ∣ (m.words.now, m.words.now, record { first_fits = record { long = Prim.search; fit = m.fit }; same = Prim.search }) ∣₁ };

    ghost words = { λ m first now s. words_from_known m.words.now first now m.fit s };

    fn load(&mut self, at: u64) -> Result<u64, Halt> {
        Ok(self.words[at as usize])
    }

    fn store(&mut self, at: u64, v: u64) -> Result<(), Halt> {
        self.words[at as usize] = v;
        Ok(())
    }
}

//! A memory over another that holds stores back.

ghost use Rattle.std.specs.Prelude.{◌≡◌, ◌<◌, IsTrue};
ghost use Rattle.cx_base.specs.Calls.{Changes};
ghost use Rattle.write_buffer.specs.Buffering.{IsHeldBack, Shows, Covers, BufferFixed, shows_some, shows_words};

use crate::held::Held;
use cx_base::{Halt, Memory};

/// A memory over another, in lines of 8 words, that holds back what is stored to line 0, to one line more, and to the
/// first three words of each other line. Such a word is held back once it was loaded, while there is room; from then on
/// each load and each store of it is one load of the memory behind, which is stored to by `store_held` alone. Every
/// other access is passed on.
#[derive(Drop)]
pub struct WriteBuffer<'a, M: Memory> {
    pub inner: &'a mut M,
    pub line: u64,
    pub held: &'a mut Held,
    ghost is: { IsHeldBack (M.stands inner.now) (M.size inner.now) held.now.count held.now.places held.now.found held.now.values },
}

impl<'a, M: Memory> WriteBuffer<'a, M> {
    /// A buffer that holds nothing back yet, with the line whose words are all held back beside line 0. What it holds back is
    /// kept in `held`, whatever was there.
    pub fn over(inner: &'a mut M, line: u64, held: &'a mut Held) -> WriteBuffer<'a, M>
        ensures name { result.inner.ghost_name ≡ inner.entry.ghost_name }
        ensures held_name { result.held.ghost_name ≡ held.entry.ghost_name }
        ensures inner { result.inner.now ≡ inner.old }
        ensures none { result.held.now.count ≡ 0 }
    {
        held.count = 0;
        WriteBuffer { inner, line, held }
    }
}

/// Whether the word of a place is held back, where all words of a line are.
fn is_buffered(at: u64, line: u64) -> bool {
    at % 8 < 3 || at < 8 || at / 8 == line
}

impl<M: Memory> Memory for WriteBuffer<'_, M> {
    ghost use Rattle.std.specs.Borrow.{GName};

    ghost size = { λ b. M.size b.inner.now };

    ghost Fixed = { BufferFixed GName M.Fixed };

    ghost fixed = { λ b. record { name = b.inner.ghost_name; held = b.held.ghost_name; inner = M.fixed b.inner.now; whole = M.size b.inner.now } };

    ghost writable = { λ b. M.writable b.inner.now };

    ghost left = { λ b. M.left b.inner.now };

    ghost Key = { M.Key };

    ghost stands = { λ b. Shows (M.stands b.inner.now) (M.size b.inner.now) b.held.now.count b.held.now.places b.held.now.values };

    ghost some_stands = { λ b. shows_some (M.size b.inner.now) b.held.now.count b.held.now.places b.held.now.found b.held.now.values b.is (M.words b.inner.now) (M.some_stands b.inner.now) };

    ghost words = { λ b. shows_words (M.size b.inner.now) b.held.now.count b.held.now.places b.held.now.values };

    fn load(&mut self, at: u64) -> Result<u64, Halt> {
        let i = self.held.find(at);
        let word = self.inner.load(at)?;
        if i < self.held.count {
            return Ok(self.held.values[i]);
        }
        if self.held.count == 192 || !is_buffered(at, self.line) {
            return Ok(word);
        }
        self.held.push(at, word);
        Ok(word)
    }

    fn store(&mut self, at: u64, v: u64) -> Result<(), Halt> {
        let i = self.held.find(at);
        if i < self.held.count {
            self.inner.load(at)?;
            self.held.values[i] = v;
            return Ok(());
        }
        self.inner.store(at, v)
    }
}

/// Stores the words that are held back from a memory, each that differs once. `Halt` comes only where no access is left.
pub fn store_held<M: Memory>(mem: &mut M, held: &Held) -> Result<(), Halt>
    requires writable { IsTrue (M.writable mem.old) }
    requires held { IsHeldBack (M.stands mem.old) (M.size mem.old) held.now.count held.now.places held.now.found held.now.values }
    ensures { Changes M.Memory mem.old mem.new result (λ _. Covers held.now.count held.now.places held.now.values) }
{
    for i in 0..held.count {
        if held.values[i] != held.found[i] {
            mem.store(held.places[i], held.values[i])?;
        }
    }
    Ok(())
}

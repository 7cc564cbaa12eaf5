//! What stores replaced, so that it can be put back.

ghost use Rattle.std.specs.Prelude.{◌≡◌, ◌<◌, ◌≤◌, IsTrue, length};
ghost use Rattle.cx_base.specs.Calls.{Changes};
ghost use Rattle.program_object.specs.Run as spec;

use cx_base::{Halt, Memory};

/// How many stores one operation may make.
pub const MOST: usize = 256;

/// The stores of one operation so far: `count` of them, with the place of each in `places` and the word that it replaced in `words`, in order.
#[derive(Drop)]
pub struct Undo {
    pub count: usize,
    pub places: [u64; MOST],
    pub words: [u64; MOST],
}

impl Undo {
    /// No stores yet.
    pub fn none() -> Undo
        ensures { result.count ≡ 0 }
    {
        Undo {
            count: 0,
            places: [0; MOST],
            words: [0; MOST],
        }
    }

    /// Adds a store: `place` is the number of the word, and `word` is what it replaced. There has to be room for it.
    pub fn push(&mut self, place: u64, word: u64)
        requires { self.old.count < 256 }
        ensures pushed { self.new ≡ spec.store_noted self.old place word }
        ensures places { length self.old.places ≡ 256 }
        ensures words { length self.old.words ≡ 256 }
    {
        self.places[self.count] = place;
        self.words[self.count] = word;
        self.count += 1;
    }
}

/// Puts back the words that stores replaced, the last store's first. A place that is none of the `words` words is left out. `Halt` comes only where no
/// access is left.
pub fn undo_all<M: Memory>(mem: &mut M, words: u64, undo: &Undo) -> Result<(), Halt>
    requires size { M.size mem.old ≡ words }
    requires few { undo.now.count ≤ 256 }
    requires writable { IsTrue (M.writable mem.old) }
    ensures { Changes M.Memory mem.old mem.new result (λ _ before now. now ≡ spec.undone words undo.now.count undo.now.places undo.now.words before) }
{
    for turn in 0..undo.count {
        // the last store first, so that a word that was stored to twice gets back what it had at first
        let k = undo.count - 1 - turn;
        put_back(mem, words, undo.places[k], undo.words[k])?;
    }
    Ok(())
}

/// Puts `word` back at `place`, where `place` is below `words`.
fn put_back<M: Memory>(mem: &mut M, words: u64, place: u64, word: u64) -> Result<(), Halt>
    requires size { M.size mem.old ≡ words }
    requires writable { IsTrue (M.writable mem.old) }
    ensures { Changes M.Memory mem.old mem.new result (λ _ before now. now ≡ spec.put words before place word) }
{
    if place < words {
        mem.store(place, word)?;
    }
    Ok(())
}

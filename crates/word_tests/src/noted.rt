//! A second memory: its caller knows the words that it loaded or stored, and no other.

ghost use Rattle.std.specs.Prelude.{◌≡◌, ◌+◌, ◌-◌, ◌<◌, ◌≤◌, ◌++◌, ◌∷◌, ℕ, true, List, [], Some, length, vec_len, vec_capacity, IfOk};
ghost use Rattle.cx_base.specs.Noted.{NotesShow, IsShownByNotes, some_shown, shown_words};

use cx_base::{Halt, Memory};
use std::alloc::{AllocError, Global};

/// A memory with room for a number of notes, one for each access: whether it is a store, the place of the word, and the word. `stands` is read off
/// the notes alone.
#[derive(Drop)]
pub struct Noted {
    words: Vec<u64>,
    notes: Vec<(bool, u64, u64)>,
    room: usize,
    ghost fits: { vec_len notes ≤ room },
    ghost reserved: { room ≤ vec_capacity notes },
    ghost shown: { IsShownByNotes notes.items words.items },
}

impl Noted {
    /// A memory of these words that allows `room` accesses.
    pub fn of(alloc: Global, words: Vec<u64>, room: usize) -> Result<Noted, AllocError>
        ensures { IfOk result (λ m. (m.notes.items ≡ []) × (length m.words.items ≡ length words.items)) }
    {
        let notes = Vec::with_capacity(alloc, room)?;
        Ok(Noted { words, notes, room })
    }

    /// How many accesses were made.
    pub fn accesses(&self) -> usize {
        self.notes.len()
    }
}

impl Memory for Noted {
    ghost size = { λ m. length m.words.items };

    ghost Fixed = { ℕ };

    ghost fixed = { λ m. m.room };

    ghost writable = { λ _. true };

    ghost left = { λ m. Some (m.room - vec_len m.notes) };

    ghost Key = { List ℕ };

    ghost stands = { λ m. NotesShow (length m.words.items) m.notes.items };

    ghost some_stands = { λ m. some_shown m.notes.items m.words.items m.shown };

    ghost words = { λ m. shown_words (length m.words.items) m.notes.items };

    fn load(&mut self, at: u64) -> Result<u64, Halt> {
        if self.notes.len() == self.room {
            return Err(Halt);
        }
        // a load is noted with the word that it gives
        let v = self.words[at as usize];
        note(&mut self.notes, (false, at, v));
        Ok(v)
    }

    fn store(&mut self, at: u64, v: u64) -> Result<(), Halt> {
        if self.notes.len() == self.room {
            return Err(Halt);
        }
        // a store is noted with the word that it puts
        note(&mut self.notes, (true, at, v));
        self.words[at as usize] = v;
        Ok(())
    }
}

/// Appends a note at the end of the notes, which have room for one more. They are as before, with this note behind them.
fn note(notes: &mut Vec<(bool, u64, u64)>, note: (bool, u64, u64))
    requires { vec_len notes.old < vec_capacity notes.old }
    ensures items { notes.new.items ≡ notes.old.items ++ note ∷ [] }
    ensures len { vec_len notes.new ≡ vec_len notes.old + 1 }
    ensures capacity { vec_capacity notes.old ≤ vec_capacity notes.new }
{
    match notes.push(note) {
        Ok(()) => {}
        Err(_) => unreachable!(),
    }
}

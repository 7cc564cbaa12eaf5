//! A buffer over a vector.

ghost use Rattle.std.specs.Prelude.{◌≤◌, length};

use crate::holds::holds;
use cx_base::{Halt, Memory, VecMemory};
use std::alloc::{AllocError, Global};
use std::test::Fail;
use write_buffer::{Held, WriteBuffer, store_held};

/// Stores twice to word 1, in line 0, and once to word 15, the last of line 1, which is not held back. It returns word 1 as the buffer shows it
/// then. The memory has at least 16 words.
fn stored_twice(mem: &mut VecMemory) -> Result<u64, Halt>
    requires { 16 ≤ length mem.old.words.items }
{
    let mut held = Held::none();
    let mut buffer = WriteBuffer::over(mem, 0, &mut held);
    // from this load on, word 1 is held back; word 15 is stored at once
    buffer.load(1)?;
    buffer.store(1, 7)?;
    buffer.store(15, 8)?;
    buffer.store(1, 9)?;
    // the buffer shows the word that was stored last
    let seen = buffer.load(1)?;
    // the buffer ends, and the words that it held back are stored
    let WriteBuffer { .. } = buffer;
    store_held(mem, &held)?;
    Ok(seen)
}

// Whether the word that was stored last is seen, and stands in the memory in the end.
fn last_word_is_stored(alloc: Global) -> Result<bool, AllocError> {
    let mut mem = VecMemory::of(vec![in alloc; 5; 16]?, None);
    let seen = stored_twice(&mut mem) == Ok(9);
    let words = mem.into_words();
    Ok(seen && words.len() == 16 && words[1] == 9 && words[15] == 8 && words[2] == 5)
}

#[test]
fn the_last_word_is_stored(rt: HostRuntime) -> Result<(), Fail> {
    holds(&rt, last_word_is_stored(rt.alloc())?);
    Ok(())
}

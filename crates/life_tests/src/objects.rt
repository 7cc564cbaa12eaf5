//! Steps of any object of 64 lines on words that it takes for an image.

ghost use Rattle.std.specs.Prelude.{◌≡◌, ◌*◌, IfOk, IfSome, length};
ghost use Rattle.cx_base.specs.Memory.{Always, Known};

use cx_base::{Halt, Object, VecMemory};
use std::alloc::{AllocError, Global};

/// The words that an operation left, and its reply.
#[derive(Drop)]
pub(crate) struct Answered {
    pub(crate) words: Vec<u64>,
    pub(crate) reply: [u64; 144],
}

/// The opening image of an object of 64 lines, made over 512 words that are all the greatest number. `None` where the object has other lines, or
/// halts.
pub(crate) fn opening<O: Object>(
    alloc: Global,
    object: &O,
) -> Result<Option<Vec<u64>>, AllocError> {
    if object.lines() != 64 {
        return Ok(None);
    }
    let mut memory = VecMemory::of(vec![in alloc; u64::MAX; 512]?, None);
    match object.format(&mut memory) {
        Ok(()) => Ok(Some(memory.into_words())),
        Err(Halt) => Ok(None),
    }
}

/// A memory of `words`, which are then 64 lines and an image of the object. `None` where the words are not 64 lines, or the object does not take them
/// for an image.
fn image_of<O: Object>(
    alloc: Global,
    object: &O,
    words: Vec<u64>,
) -> Result<Option<VecMemory>, AllocError>
    ensures size { IfOk result (λ found. IfSome found (λ m. length m.words.items ≡ 8 * O.line_count object.now)) }
    ensures lawful { IfOk result (λ found. IfSome found (λ m. Always (Known m.words.items) (O.lawful object.now))) }
{
    if object.lines() != 64 || words.len() != 512 {
        return Ok(None);
    }
    let is_image = object.check(alloc, &words)?;
    if !is_image {
        return Ok(None);
    }
    let memory = VecMemory::of(words, None);
    Ok(Some(memory))
}

/// The words that an operation on `words` leaves, and its reply. `None` where `words` are no image, or the operation halts.
pub(crate) fn stepped<O: Object>(
    alloc: Global,
    object: &O,
    words: Vec<u64>,
    op: &[u64; 144],
) -> Result<Option<Answered>, AllocError> {
    let Some(mut memory) = image_of(alloc, object, words)? else {
        return Ok(None);
    };
    match object.run(&mut memory, op) {
        Ok(reply) => {
            let words = memory.into_words();
            Ok(Some(Answered { words, reply }))
        }
        Err(Halt) => Ok(None),
    }
}

/// The words that `query` leaves for an operation on `words`, and its reply. `None` where `words` are no image, the operation does not only read, or
/// it halts.
pub(crate) fn queried<O: Object>(
    alloc: Global,
    object: &O,
    words: Vec<u64>,
    op: &[u64; 144],
) -> Result<Option<Answered>, AllocError> {
    let Some(mut memory) = image_of(alloc, object, words)? else {
        return Ok(None);
    };
    if !object.reads(op) {
        return Ok(None);
    }
    match object.query(&mut memory, op) {
        Ok(reply) => {
            let words = memory.into_words();
            Ok(Some(Answered { words, reply }))
        }
        Err(Halt) => Ok(None),
    }
}

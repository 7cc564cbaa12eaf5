//! The words that the program is given.

use std::alloc::{AllocError, Global};
use std::rt::Env;
use std::{env, io};

/// The words after the program's name. Words of which one is not UTF-8 are none of the commands, and no words stand for
/// them, which are none either. `Err` means out of memory.
pub fn words<R: Env + AllocGlobal>(rt: &R) -> Result<Vec<String>, AllocError> {
    match env::args(rt) {
        Ok(words) => words.skip(1).collect(rt.alloc()),
        Err(error) => match error.kind() {
            io::ErrorKind::OutOfMemory => Err(AllocError),
            _ => Ok(Vec::new(rt.alloc())),
        },
    }
}

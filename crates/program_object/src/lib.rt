//! The problem: whoever writes in C wants a data structure of their own that threads share and that survives a crash, and proves nothing.
//!
//! The idea: an object whose operation is a run of a program, by definition, `program_step` of `specs/Meaning.antt`. A run ends by its fuel, whatever the
//! program does, and a fault leaves the words as they were; so each program makes a lawful object, and what is proved of all objects holds of it.
//!
//! - It is an object: its calls do `program_step` over any memory, and its laws hold: `ProgramObject` (`impl Object`).
//! - The first line of an image is the library's. Its first word is the program's fingerprint, so that an image of another program is refused; a program may
//!   name one fingerprint whose images it takes over: such a one gets the new fingerprint, and the program is run once over it (`upgraded_words`).
//! - An operation only reads where the lowest bit of its first word is 1. A store to the object is a fault there.
//! - The reply's first word is 1 where the run returned, and the second one is the value; else it is the fault's number, 2 to 8, with the instruction and the
//!   address after it.
#![tactic(auto)]

mod fingerprint;
mod object;
mod run;
mod slice_memory;
mod undo;

pub use object::ProgramObject;

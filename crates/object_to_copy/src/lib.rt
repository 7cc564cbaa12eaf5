//! The problem: whoever writes an object of their own needs its operations as words, its meaning, its laws and its code, all of which have to fit
//! together.
//!
//! The idea: the least object that has all of these, to be copied and changed.
//!
//! An object to copy: the highest number that it was given. `docs/TUTORIAL.md` changes it step by step.
#![tactic(auto)]

mod object;
mod operations;

pub use object::Highest;
pub use operations::{Op, Reply, words_are_read};

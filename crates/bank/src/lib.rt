//! The problem: money that many threads move must neither appear nor vanish, also over a crash.
//!
//! The idea: the object is written for one thread, and that a step keeps the sum is proved of that (`sums_are_kept`); the construction carries it to
//! all threads. It is an example of an object with an invariant over all its words.
//!
//! Accounts and transfers between them, as an object: a transfer that would overdraw is refused, and the sum of all stays as it was.
#![tactic(auto)]

mod accounts;
mod operations;

pub use accounts::{Bank, sums_are_kept};
pub use operations::{Op, Reply, words_are_read};

//! A store to persistent memory reaches a cache first. It is durable once its line was written back and a fence has passed; a crash (power failure)
//! before that may leave it or lose it, word by word. What is proved of crashes needs this said exactly.
//!
//! `Medium` is such a memory as a plain value: words in lines of 64 bytes, with store, write-back, fence, and what a crash may leave. The
//! instructions are those of Izraelevitz, Mendes and Scott ("Linearizability of Persistent Memory Objects Under a Full-System-Crash Failure Model",
//! DISC 2016), for one thread and with one fence. The model is harsher than a machine: a dirty word may also be left as a number that nobody
//! stored. All that it promises are clauses of its calls:
//!
//! - A store makes a word dirty, also where it was being written back, and counts on its line: `store`.
//! - A write-back puts the dirty words of one line on their way, and no others; a fence makes what was on its way durable, with its present
//!   value: `write_back`, `fence`.
//! - A load gives the last value stored; a word is told dirty exactly where it was stored to since it was last durable: `load`, `is_dirty`.
//! - A crash leaves each word that is not dirty as it is, and of a dirty one its last durable value, its present one, or some other
//!   number, by choice: `image`.
//!
//! Tested (`word_tests`): worked rows of stores, write-backs and fences; a count at its end; 2,000 mixed calls against a plain list that keeps
//! times in place of marks.
#![tactic(auto)]

mod medium;

pub use medium::{Mark, Medium, Word};

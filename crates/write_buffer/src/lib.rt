//! An operation on a balanced tree stores some words more than once: links, heights, and counts of the header. Over a replica each store is a step,
//! and a pair of the redo log.
//!
//! So a memory that is put over another holds such stores back, as a write-back cache does, and stores each word once in the end, with its last
//! value. It has room for 192 words; what does not fit is passed on at once.
//!
//! - A buffer over a memory is a memory: words that are held back stand in front of those behind, each access is one access of the memory
//!   behind, and what is stored to a word that is held back is not stored there: `Memory for WriteBuffer`.
//! - Then the words behind become those in front: `store_held`. It stores each of them at most once, and only where it differs from what was
//!   found there, which no clause says.
//!
//! Tested (`word_tests`): a word stored twice and read between, and one that is not held back.
#![tactic(auto)]

mod buffer;
mod held;

pub use buffer::{WriteBuffer, store_held};
pub use held::Held;

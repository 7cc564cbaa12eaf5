//! Which lines of 64 bytes of two copies differ, and which a list of addresses touches, is asked each time that a replica is copied or flushed. The
//! answer goes over every word or address, so it has to be cheap for each.
//!
//! These loops take 8 words at a time, as one vector; their contracts speak of words alone, as those of plain loops would. There is no source in
//! the literature.
//!
//! Each is the clause of its call, for every length; none takes memory.
//!
//! - Of two lists of words, each with at least 8 words for each mark, a mark is true exactly where some word of its line is not the same in
//!   both: `differing`.
//! - Of two lists of words of one length, the first place from one on at which they differ is told, their length where that is none:
//!   `first_apart`.
//! - Of a list of addresses within the lines, a mark is true exactly where some address divided by 8 is its line; marks that stood before are
//!   gone with `touched`, and stay with `add_touched`.
//!
//! Tested (`word_tests`): the worked rows; the marks against plain programs with the same contracts over 0 to 40 lines, with one word that differs
//! at every place and words behind the last line, with each address alone, the last address many times, and scattered addresses that fill
//! vectors and leave some. That they use vectors is not proved: a line is compared by four `pxor`, three `por` and one `ptest`.
#![tactic(auto)]

mod kernels;

pub use kernels::{add_touched, differing, first_apart, touched};

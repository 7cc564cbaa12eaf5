//! The problem: counters that threads share must not pass a bound, whoever adds to them and when.
//!
//! The idea: reading, comparing and adding are one operation of an object for one thread, so no lock or retry is needed in it. It is also an example
//! of a typed object: its operations and replies are values, with a sequential specification that is proved of its steps.
//!
//! An object of one's own, as an example: a set of counters that stay below a bound.
//!
//! An operation is code for one thread, over a memory that is lent to the call. This adds to a counter, as `run_into` of the object does.
//! From `crates/bounded_counters/src/counters.rt`:
//! ```rattle
//! let count = load_below(mem, counter + 1, self.bound)?;
//! if self.bound - count <= amount {
//!     return Ok(Reply::Full);
//! }
//! mem.store(counter + 1, count + amount)?;
//! Ok(Reply::Value(count + amount))
//! ```
#![tactic(auto)]

mod counters;
mod operations;
mod typed_counters;

pub use counters::Counters;
pub use operations::{Op, Reply, add_words, operations_are_read, read_words};

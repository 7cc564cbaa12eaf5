//! The problem: clients run on threads, are stopped anywhere, and a crash ends the run. The report of what they were answered is to be proved, not
//! only tested: there is to be one history that explains it, and the next run has to go on from what the crash left.
//!
//! The idea: a run between two crashes is a life. Each client's worker writes a line for each answer; closing the service gives an execution log that
//! nothing else can make, and by it the lines together are the history, which is linearizable and of which a crash keeps a prefix with everything
//! answered.
//!
//! A life of clients over a service of an object: each client's commands are made by a worker on a thread of its own, and
//! the lines of all workers are put together as the record of the life. Lives of a script, one after another, each from what the crash
//! before it left.
//!
//! Where clients share the callers of a service (`pool_lives`), a worker takes its client's commands from the script and writes their lines in the same
//! way, and a life begins with the same base and ends in the same crash. So these parts are public: `command_at`, `words_of`, `Lines`, `note_entry`,
//! `note_read`, `first_of`, `first_base`, `end_in_crash`.
#![tactic(auto)]

mod calls;
mod crash;
mod gather;
mod life;
mod lines;
mod lived_laws;
mod lives;
mod operations;
mod progress;
mod start;
mod work;
mod workers;

pub use crash::{Crashed, end_in_crash};
pub use gather::first_of;
pub use life::run_life;
pub use lines::{Lines, note_entry, note_read};
pub use lives::{Lived, first_base, run_lives, run_next_life};
pub use operations::{command_at, words_of};

//! The problem: a program that shares an object of its own has to start a service, give each caller to a thread, have it asked until it is answered,
//! gather all callers, close the service, and recover what a crash leaves of it. Each of these calls has a contract to be met.
//!
//! The idea: a life, from the start of a service to the crash that ends it, is one call. The program gives a worker, which says what is done with a
//! caller and what is so of the output of that work; the threads, the callers and the closing are seen to here.
//!
//! - An operation is done once and its reply told, or a reading is answered beside the queue; the same caller is handed back: `ask`
//!   (`IsAsked`). Its place is told too: who catches up with it by `follow` sees it, and so do all later calls of that caller (`KeepsPlaces`).
//! - A worker hands each caller back, and so all the callers of the service are there again: `Worker`, `work_together`. What the worker says of an
//!   output is so of the caller whose work gave it, from before its first step to the closing: `Worker::tells`, `serve` (`IsServedBy`).
//! - What was left by a life is recovered, with every answer in it, by the object that it was of: `serve` (`IsLeftBy`), `recovered`.
#![tactic(auto)]

mod call;
mod kept_base;
mod life;
mod workers;

pub use call::{AskOutcome, ask, follow};
pub use kept_base::recovered;
pub use life::{closed, serve, started};
pub use workers::{Worked, Worker, work_together};

//! Another program that runs the construction can have its run checked, if it writes down what its callers did.
//!
//! A trace is that text: a line for each step on a shared word, in the order of the steps, with the caller and the kind of the step, and a line for
//! each crash, with the choice that picked what it left, and the place that was recovered.
//!
//! - A trace is read exactly where the bytes are one, and each of its steps has the number of its line; else the first line is named with
//!   which the lines so far are no trace, and the first reason that fits it: `read_trace` (`read`, `only`, `kept`, `refused`).
#![tactic(auto)]

mod commands;
mod events;
mod heads;
mod kinds;
mod reader;
mod trace;

pub use reader::read_trace;
pub use trace::{Trace, TraceFault, TraceLine, TraceLines, TraceReason, TraceWhat};

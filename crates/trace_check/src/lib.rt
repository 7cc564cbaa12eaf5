//! Is a recorded execution one that the algorithm allows? From calls and replies alone an order of them would have to be searched for. A trace names
//! each step on a shared word, so that the state machine can go through the same steps.
//!
//! Each event of the trace is made by the executable state machine (`core_events`), whose guard says whether it is allowed, and at each crash it is
//! computed which place recovery finds. So the laws of all runs (`core_runs`) hold of a good trace.
//!
//! - A trace is told good exactly where its events are a run and what each crash leaves is accepted by recovery with the place that
//!   is named; else the first line is named that fails, an event whose guard fails or a crash with the place that is recovered:
//!   `check_trace` (`found`). No other verdict is of the trace.
//! - Where it is good each state passed is lawful, and what each crash leaves is recovered as the full image after the place named, at
//!   or above that of the durable root: `check_trace` (`safe`).
//! - A crash costs a walk over the callers, and no image: which place is recovered is told by the codes from the durable root on to
//!   the current one, and that the whole image is accepted is a law of each lawful state: `images_recover`.
#![tactic(auto)]

mod check;
mod laws;
mod left;

pub use check::{Verdict, check_trace};
pub use laws::images_recover;
pub use trace_text::{Trace, TraceLine, TraceWhat};

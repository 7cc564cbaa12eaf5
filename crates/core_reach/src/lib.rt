//! The problem: a theorem about all runs also holds of a state machine in which no step is ever allowed. So it has to be said that steps are allowed.
//!
//! From each lawful state, whatever the callers hold and wait for, some run answers a read of a caller (`reads`), its entries that are linked, and
//! one update more where there is a further ticket and a cell for it (`updates`). In each state that a run reaches there is such a cell: so, as long
//! as there is a further ticket, each caller can still be answered.
//! Each law is the contract of a function that does nothing. It is no progress: it says that there is such a run, and not that callers make it. Where
//! a run opens cells, the other callers make steps in it too: each takes its protection back.
#![tactic(auto)]

pub mod reads;
pub mod updates;

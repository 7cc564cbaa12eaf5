//! The problem: a program in C owns nothing in the sense of these proofs. It may make its calls in any order, and it closes what it uses in any order
//! and on any thread.
//!
//! The idea: a session is a caller together with its share of the service and the state that the caller is in: idle, with a linked entry, or stopped.
//! So each call is defined in each state, and one that the state does not take answers `OutOfTurn` and changes nothing. A call makes at most the
//! given number of tries and answers what the service answered; it waits for nobody and takes no memory. Sessions are closed one by one, and the last
//! one closes the service.
//!
//! - `open`, `open_from`: a session for each caller of a new service, over the object's first base or over another.
//! - `Session::call`, `Session::finish`: what a call answers is the service's answer, and the session is open again.
//! - `Session::place`, `Session::catch_up`: the place tells another session what this one has seen, and once that one caught up with it, its later
//!   answers stand at or above it (`SessionStands`, `SeesIn`).
//! - `Session::checkpoint`: the session takes an image of the object while the others go on, as the service's caller does.
//! - `Session::close`, `close_rest`, `close_kept`: the callers of one service lie in a queue, each with its share of it, under the rule that it is one service
//!   and that each of its callers is there once: still with its session, in the queue, or taken out by one session (`KeepsOrIsNew`). Who comes last takes all
//!   out and closes the service: what it hands out is what the service leaves (`IsClosedWith`), whose callers are those that the sessions handed in, as they
//!   were then (`AreAccounted`). Where a caller is missing it keeps those that it took out (`IsCallerMissing`), and may be closed again. Nobody waits.
#![tactic(auto)]

mod catch_up;
mod checkpoint;
mod close;
mod exit;
mod gather;
mod handover;
mod rule;
mod session;
mod start;
mod steps;
mod tries;

pub use catch_up::SessionCatchUp;
pub use checkpoint::SessionCheckpoint;
pub use close::{Closing, close_kept, close_rest};
pub use exit::{Account, Unclosed};
pub use session::{Session, sessions_cross_threads};
pub use start::{OpenFault, open, open_from};
pub use steps::Called;
pub use tries::Tries;

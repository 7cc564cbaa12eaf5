//! The problem: each of 1 to 8 threads is to have its operation applied to a shared object and answered durably, though any other thread may stall at
//! any step.
//!
//! The idea is that of CX (Correia, Ramalhete, Felber, "A Wait-Free Universal Construction for Large Objects", PPoPP 2020; durable, and with redo
//! logs: "Persistent Memory and the Rise of Universal Constructions", EuroSys 2020): a caller takes a replica by a try-lock, applies the entries of
//! all callers to it up to its own (combining), flushes it and publishes it; a read uses the published replica, beside the log. Here one such pass is
//! an attempt. It waits for nobody: where others are in the way it ends with the caller at rest, who may make another. Unlike there, nothing is promised
//! of how many attempts an operation needs: progress (wait-freedom) is not proved.
//!
//! The parts of a caller's attempt over its seat: a replica is taken, brought up to the caller's own entry and made durable, or
//! the current one is read, or its image taken, beside the queue.
//!
//! - A caller tries each replica once; where all are refused one refusal is met and it has no right: `take_any` (`taken`). Which it tries first
//!   is in no contract.
//! - A replica is brought up by the queue's entries to a place above the caller's ticket: `replay_to` (`replayed`). Each is applied by its write
//!   set, where the caller has that in an own cell or takes it from another's, or by its step, the caller's own from its seat, and each other read
//!   under a protection. Which of these it is, and whether the set of an own step is offered, is in no contract. But the sets of others that were
//!   read are counted, and own ones are not: where no call halts the count is right up to 2^64 - 1, where it stays (`counted`, of `replay_to`,
//!   `prepare` and `try_update_once`: `CountsEntries`, `CountsIn`). Of each set that was read there is a seat from which to a next just its pairs are
//!   stored (`BringsEntries`; of one entry `BringsAtMost`, within the crate); that the call's own steps lead through these seats is a clause of
//!   `replay_offered` of `redo_replay` alone. An attempt that gives nothing reads no word of a set.
//!   The reply to the caller's last entry there, for whatever fits what was noted, is the one that the step of that entry gave (`IsReplayedPast`),
//!   or is loaded from the replica where the last entry was applied otherwise. Where cells from the replica's place on are closed it is a copy of the
//!   current one first: of the lines alone that changed, where the ring of gaps tells them. It is made durable and downgraded: `prepare` (`prepared`).
//! - An attempt for a linked entry answers it with its reply, and meets at most one refusal, or one was met and nothing is answered, and the caller
//!   is at rest again; where it halts the entry is not answered, or it is and the win stands that is still to be retired, and no refusal was
//!   met, a right stands, or the raise is still to be made: `try_update_once` (`attempted`, `halted`, `attempts`).
//! - An attempt for a read answers it at the place of a code loaded from CUR in this attempt, whose replica is held shared at that place. The place is
//!   above each ticket and not below any place that the caller was answered before; where it halts the read is not answered, or it is and the
//!   shared right stands that is still to be given back: `try_read_once` (`attempted`, `halted`, `attempts`), over `read_current`.
//! - An attempt by which the image of the current replica is taken loads all its words under one shared right, raises DUR by its code, and makes them one
//!   image more that the caller took, a lawful base at that code's place: `try_checkpoint_once` (`attempted`: `AttemptsCheckpoint`; `halted`, `attempts`). It
//!   is refused as a read's is, and where it halts no image is taken.
//! - An attempt for a read that is refused makes at most 4 steps: `try_read_once` (`attempted`: `AttemptsRead`). Of an attempt for an entry each part outside
//!   replay, copy and flush has a bound: `take_any` makes at most two tries for each caller (`keeps`), and what publishes, answers and retires makes
//!   3 steps and one for each later code that was found (`hand_over`). What an object loads and stores is not counted.
//! - No step is taken back, where the count is not at its end, whether a call halts or not: `since` of its `attempts` or `keeps`
//!   (`StepsOn`). Where an object runs on a replica that is since the region keeps the count that it began with.
//! - No refusal is taken back, whether an attempt halts or not: `counted` of `HaltsAttempt` and `HaltsFor`, and `met` of the others.
#![tactic(auto)]

mod checkpoint;
mod current;
mod facts;
mod lookup;
mod preparation;
mod renewal;
mod replay;
mod scratch;
mod updates;

pub use checkpoint::try_checkpoint_once;
pub use current::{query_held, query_part, read_current};
pub use lookup::{Seen, try_read_once};
pub use preparation::{prepare, take_any};
pub use renewal::{keep, unguard};
pub use replay::replay_to;
pub use scratch::Scratch;
pub use updates::try_update_once;

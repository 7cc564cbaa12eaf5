//! A replica is brought from one place to the next by running the entry there, or by storing its write set, which is a redo log of what its run
//! stored. Both have to end at the same image, and a caller must know that a set is one of that very ticket before it relies on it. The object's code
//! should not know of either.
//!
//! This is where the redo logs of the durable CX (Redo, EuroSys 2020) come into replay. As a persistent transactional memory interposes the stores of
//! a transaction, a held replica is lent as a memory that notes each store after the others; what was noted is the write set of its entry (`redo_set`).
//! A write set is stored over a replica that a caller holds exclusively, in place of the full step of its entry. Here each entry may go either way.
//!
//! - The full step of the entry of the replica's place is done, and each store of it is noted: `apply_noting` (`ready`). Where the set has
//!   room for all, it is known to be a write set of the entry's ticket: whatever fits, the seat's entries and sets lead to the image at the
//!   ticket, and the pairs from there to the next (`tells`: `TellsSet`). So it may be offered (`known_sets_may_be_offered` of `table_invariant`). The gaps
//!   that it leaves are noted in the ring for its ticket, which is in no contract: it changes nothing but the steps.
//! - The set of the ticket that is the replica's place makes it the image after the next place, where its caller has that set: read whole,
//!   or offered in an own cell. It is stored pair by pair, with no load: `store_set` (`stored`: `IsSetStored`), and from the seat's memory `store_own_set`.
//! - Another's entry is brought on so where it is offered: its set is taken from its cell, and then stored: `replay_offered` (`replayed`). A set that
//!   is counted is noted whole, and its pairs were stored over the words that the replica had, in order and by no other access (`brought`:
//!   `BringsOffered`, `IsBroughtBySet`).
//! - An own older entry is brought on by the set that the caller offered: `replay_own` (`replayed`); one that is done for the first time by its
//!   step, whose write set is then offered: `step_and_offer` (`applied`: `HasApplied`).
#![tactic(auto)]

mod facts;
mod noted_region;
mod set_replay;

pub use noted_region::{KnowledgeAtStart, NotingRegion, apply_noting};
pub use set_replay::{replay_offered, replay_own, step_and_offer, store_own_set, store_set};

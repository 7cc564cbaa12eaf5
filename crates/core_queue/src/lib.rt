//! The operation log gives all updates one order. Its memory is bounded, so cells are written again while a slow reader may still be at one. Such a
//! reader would get half of an old entry and half of a new one, or a write set of neither.
//!
//! An entry is linked by one compare-and-swap at the tail, as in the queue of Michael and Scott ("Simple, Fast, and Practical Non-Blocking and
//! Blocking Concurrent Queue Algorithms", PODC 1996), but the link is a word of a ring and names the ticket, which also tells an old link from a
//! new one. A reader announces from which ticket on it reads and confirms that by a load after it, as with hazard pointers (Michael, TPDS 2004),
//! but by one word for all tickets from there on. That this suffices is proved here as laws: the contracts of functions that do nothing.
//!
//! Each part of the lawful state is owned by this crate or its neighbour (`core_queue`, `core_replica`). For each there
//! is a law that the opening state has it, one that each of the 29 kinds of step keeps it, whichever caller makes the step, and one that a step
//! elsewhere keeps it.
//!
//! - Tickets, links, cells, fronts and the ring: `opening_has_the_queue`, `events_keep_the_queue`; `tickets_framed`, `links_framed`,
//!   `cells_framed`, `fronts_framed`, `ring_framed`, `queue_framed`.
//! - No two live tickets share a cell, and no caller has more than 16 of them: `live_tickets_apart`, `callers_have_few_live_tickets`. A word
//!   read of a live ticket's cell is its entry's: `reads_give_the_entry`.
//! - A linked ticket at or above a confirmed protection of any caller is live, and no event stores to a word of its cell or changes its link
//!   slot: `protected_tickets_are_live`, `protected_cells_stay`. A word of a cell is read under such a protection alone: the guard of
//!   `read_cell`.
//! - Where a live ticket is offered, no event changes its link slot, its offer or a word of its set: `offered_sets_stay`. So a word of a set
//!   that was read under a protection stands as long as its ticket is live, and what was read whole is a write set of its ticket, for good:
//!   `set_notes_stay`. A caller's own cell that is offered with the ticket that it still has has a write set of it, whether the ticket is live
//!   or not, and each event leaves it so: `own_sets_stay`.
//! - Where no number in the base is above its place, each entry of the history is one that a lawful base may take at its place:
//!   `entries_are_lawful`.
//!
//! The functions of this crate, of `core_replica` and of `core_runs` have empty bodies, so no must-fail edit of code can stand here; those of the
//! guards stand in `core_guards`.
#![tactic(auto)]

pub mod entries;
pub mod frames;
pub mod kinds;
pub mod live;
mod notes;
pub mod sets;

pub use notes::SetNoted;

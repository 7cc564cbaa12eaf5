//! All updates need one order, and whoever brings a replica up to date reads the entries of others. A caller that stalls may be at any entry, while
//! memory is bounded.
//!
//! This is the queue of mutations of CX (Correia, Ramalhete, Felber, PPoPP 2020): a caller announces an entry in one of its cells and links it at
//! the tail by one compare-and-swap (after Michael and Scott, PODC 1996). Who reads entries protects them from a ticket on, by an announcement that
//! a load of LOW confirms (after the hazard pointers of Michael, TPDS 2004); cells that nobody protects are collected and written again. The ring
//! of cells, 16 for each caller, is this project's own choice: a stalled reader costs the others free cells, never more memory. And here a caller
//! may lose each try to link, so the queue is not wait-free, as that of CX is.
//!
//! - The least idle cell, and `None` exactly where all 16 hold tickets from the greatest FREE found on: `idle_cell` (`some`, `least`, `none`).
//! - After an announce the cell has exactly the caller's next number and the operation, and no ticket, and beside it only the steps and the
//!   mark that something is fresh have changed; it takes a step for the number and one for each other word that differs from what the caller
//!   wrote there last, at most 145; it halts only at the limit: `announce` (`announced`: `AnnouncesEntry`; `halted`).
//! - `Linked` comes with the ticket, and exactly the announced entry is one more of the caller's; `Worn` where it was not linked and the front is
//!   2^40; with `Again` each try found another's link; with `Again`, `Worn` and `Halt` nothing is linked: `link` (`tried`, `halted`). The tries
//!   are told one by one, each with the seat after it: one is lost by a look at the front's slot that found another's link, or by a look that
//!   found it open and an exchange that found another's link, and no step is made beside these (`made`: `MakesTries`, `LosesTries`). With `Halt`
//!   fewer tries were lost, a ticket is left, and the next look or exchange was not allowed: `HaltsTries`.
//! - An entry with a ticket below the front that a confirmed protection of the caller keeps is read whole, and each word of it is noted, so by
//!   the table's rule it is the history's, and it is an entry that may come at its ticket: `entry` (`read`: `ReadsLinked`; `halted`).
//! - Protecting the tickets from a place on takes two steps, or three where it answers `Behind`. That comes exactly where the LOW loaded is
//!   above the place, and then no protection stands; else it is confirmed, and the LOW seen is at most the place; with `Halt` none is
//!   confirmed, and the seat is the one before, the one after the place was stated, or the one after a LOW above it was loaded: `protect`
//!   (`protected`: `EndsProtecting`); it is released by one step: `unprotect`.
//! - A collection raises LOW to a target that is at most the place of the code last found in CUR, loads each caller's need, raises FREE to the
//!   least of them and the target, and loads FREE, in exactly as many steps as there are callers and three: it tells the least need and the
//!   least caller that had it; with `Halt` some of these steps are left, and it is told which: `collect` (`collected`: `EndsCollecting`).
//!
//! Tested (`table_tests`): two threads that each link one entry, whose tickets are 0 and 1 and the seats' (that the history which `gather` then
//! gives is these two entries, each once, in one order or the other, is proved: `closed_after_both`); an entry that is linked, protected and read,
//! at each limit of steps; tickets protected, and a place below LOW that is not; another caller's need noted by a collection; a collection at
//! each limit. Also (`service_tests`): each limit of steps until a link, and the last ticket, behind which there is none left.
#![tactic(auto)]

mod announcement;
mod entries;
mod links;
mod reclamation;

pub use announcement::{announce, idle_cell};
pub use entries::entry;
pub use links::{LinkTried, link};
pub use reclamation::{Collected, Protected, collect, protect, unprotect};

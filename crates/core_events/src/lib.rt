//! Of definitions alone nobody knows whether they can be run: an invariant holds of a machine that never steps. And a recorded run of the threads
//! should be checked against the machine that the theorems are about.
//!
//! Here the state machine is executable: a state of plain lists, and `apply`, which makes one event or says that its guard fails. The contract is
//! equality with the definition, both ways, so what the tests play by hand, crash by crash, is the machine of the theorems, and `trace_check`
//! replays recorded steps by it.
//!
//! - `CoreState::opening` is the opening state, and `opening_words` its words alone.
//! - `apply` answers Ok(true) exactly with the event of its definition made, and Ok(false) exactly where the guard fails, with the state as it
//!   was, for the five kinds of the queue, the eight on locks and regions, the four on the root, the six of the ring, in which cells come round
//!   again, the four on write sets, and the two on the ring of gaps. Whether the words offered are a write set of the entry's ticket, and whether
//!   a word noted names a gap of the history, is decided by the full image at the ticket and the next: `leads`, `is_quiet`.
//!
//! Tested (`event_tests`): each argument one out of range and each guard failing for one reason alone; a script of 300 events of three callers
//! over 6 replicas, with its end written out by hand; each right begun and ended in each order that is allowed, and the other orders refused;
//! two callers that link, and 200 steps of three callers of the queue; on the root the worked row of 13 events with the early retire refused,
//! reads answered and refused for each single reason, and a race of two publishers with its chain of three codes: each crash image of each of
//! its states, by three choices, is recovered as the full image of its root's place; on the ring each guard failing for one reason, FREE opened
//! to what another caller needs and no further, a need stated too late, and two callers that scan at once; on write sets each guard failing for
//! one reason, sets that are none refused, no word of a set written once it is offered, a cell kept from its owner while a reader holds its
//! protection, and a cell written again, whose old offer word offers nothing; on the ring of gaps each guard failing for one reason, and gaps
//! refused that have a changed line first or last, or a line and no ticket of the history.
#![tactic(auto)]

mod events;
mod gap_events;
mod gaps;
mod images;
mod lock_events;
mod queue_events;
mod region_events;
mod replies;
mod ring_events;
mod root_events;
mod set_events;
mod sets;
mod state;

pub use events::apply;
pub use state::{CoreState, opening_words};

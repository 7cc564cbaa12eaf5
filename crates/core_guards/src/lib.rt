//! A step of the state machine is allowed only where its guard holds: a downgrade only of a flushed replica, a read of a cell only under a
//! confirmed protection. The executable machine (`core_events`) and the table that threads share ask the same questions of a caller.
//!
//! So each question that a guard asks of what a caller knows is a small function whose contract is the definition. They stand in a low crate of
//! their own, so that a wrong edit of one is tried without proving the machine again.
//!
//! - Each question that a guard asks of a caller's local state is its definition, in a file by the word that is stepped on. The must-fail edits show it
//!   of four: a downgrade with a dirty word, a win retired before its own raise, a replica loaded after its right was released, and a gap noted over
//!   a changed word. The rows of `event_tests` show guards that fail for one reason each, also those without an edit: a set offered whose pairs do
//!   not lead to its entry's full step, a set read under an unconfirmed protection, and a set read whose offer word names another ticket.
#![tactic(auto)]

pub mod answers;
pub mod callers;
pub mod gaps;
pub mod locks;
pub mod queue;
pub mod regions;
pub mod ring;
pub mod root;
pub mod sets;

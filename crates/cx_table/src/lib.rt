//! A state machine with a proved invariant is no program. Threads run atomic instructions on words, stop at any point, and hold rights that must
//! not be used twice.
//!
//! Here the machine's words are one `atomic_table`, and each step call makes one atomic instruction and is proved to be one event of the machine: a
//! refinement, instruction by instruction. Rights on replicas are tokens. Each seat has a limit of steps, so that a test stops a caller after any
//! of them. Closing the table hands out its words and a `Trail`, the witness that a run has led there.
//!
//! - A run of loads is an event for each of its words, in order, each as its step call would tell it; it is refused only where the limit leaves
//!   fewer steps than there are words, and then nothing changes: `load_words`, `read_words` (`run`: `Runs`).
//! - A write set is written beside the cell of the caller's own linked entry and offered where whatever fits tells it, and another's is looked at
//!   and read under the protection that keeps its entry: `write_set`, `offer`, `load_offer`, `read_set` (`Steps`), and a run of words of it by
//!   `read_set_words` (`Runs`). A seat lends the offers and the sets of its caller's cells: `CallerSeat::offered_cell`, `set_word`.
//! - A publication hands its win out exactly where it found the code last seen in CUR, and else gives the downgraded right back: `token` of
//!   `publish`. A seat keeps a win that is not retired, also once it was halted: `CallerSeat::won`.
//! - `Halt` comes exactly where the seat's steps equal its limit, and then nothing changes: `halted`, with `allowed` of `made`.
//! - A try hands a token out exactly where the word found gives the right, and the token is of its seat, on that replica: `token` of
//!   `try_exclusive` and `try_shared`; so does a downgrade: `token` of `downgrade`. Only a step call makes a token, and none can be copied.
//! - A shared right whose words were all loaded, and are the words noted last of the replica held exclusively, is released so that the words
//!   loaded are what is noted of that replica, with nothing stored since: `release_copied` (`StepsCopied`; `AgreeTo`).
//! - A gap of a ticket is noted in the ring where whatever fits tells a write set of the ticket that has no address in it: `note_gap` (`TellsGap`).
//!   One that is loaded is one of the history, noted as such: `load_gap`, and words of a slot by `load_gaps`. A shared right is released as one
//!   whose words were all copied where just the lines were copied that no gap covers: `release_listed` (`IsListedFrom`).
//! - What is persisted is the word last stored, with no load: `persist`. A seat tells whether a word is dirty and some word that is, if any is:
//!   `CallerSeat::is_dirty`, `some_dirty`; and where an operation differs from the one in a cell of its caller's: `cell_apart`.
//! - No seat makes more steps than its limit: `CallerSeat::steps` (`within` of `TellsSteps`).
//! - A seat lends the numbers of its caller's local state: `CallerSeat`.
//! - A table is made with the opening words of a lawful base and one seat for each caller with its limit: `Shared::make` (`IsMade`: `table`,
//!   `seats`, `all`).
//! - A table that is closed leaves a lawful state whose history is the trail's, with each caller's own entries, each once and in order, the
//!   words of the replicas, and of each whether it is dirty; of the callers' local states the seats show all but the words of replicas held
//!   exclusively; the codes published are the chain from DUR to CUR, by the callers' wins; where memory runs out all is handed back: `Shared::gather`
//!   (`remains`, `kept`). The memory can be taken first: `room`, `gather_in`. Only closing a table makes a `Trail`.
//! - A seat may go to another thread, and a table may be shared: `cross_threads`.
//!
//! The ring of gaps: a replica that fell behind the ring of cells is made a copy of the current one, and most of its lines are equal there. So
//! whoever runs an entry notes which stretches of lines it left as they are, its gaps, in a ring by ticket; who copies skips what is in a gap of
//! every ticket between. Each word is by itself a fact of the history, whoever wrote it, so that lost or overwritten words cost only a longer copy.
//! This is the project's own, with no source in the literature.
//!
//! - A word of the slot of a ticket names a gap of it, from one line to another: `gap_slot`, `gap_word`. Whether a word names a gap of a ticket from a
//!   line on, and where that ends, is read off it: `gap_end`. So the words of a slot lead from line 0 to the end of a region, or they tell
//!   nothing: `named_lines` (`TellsLines`).
//! - The lines that the entries between two places changed are marked, by pieces of 8 lines, where the words of each ticket's slot lead to the end;
//!   what was loaded then tells that all others are in a gap, of each ticket: `mark_changed` (`read`: `MarksChanged`). It makes 16 steps a ticket at
//!   most and never halts: where the limit leaves fewer, the lists are lost.
//! - Gaps are noted and read exactly where a table has two callers and more and the object 4,096 lines and more: `keeps_gaps` (`AreKept`).
#![tactic(auto)]

mod events;
mod gaps;
mod gather;
mod lock_steps;
mod made;
mod make;
mod queue_steps;
mod region_steps;
mod remains;
mod root_steps;
mod seat;
mod set_steps;
mod shared;
mod threads;
mod tokens;

pub use gaps::{gap_end, gap_slot, gap_word, keeps_gaps, mark_changed, named_lines, piece_of};
pub use gather::{KeptTable, Room};
pub use remains::{Remains, Trail};
pub use root_steps::AnsweredRead;
pub use seat::CallerSeat;
pub use shared::Shared;
pub use table_invariant::{CoreRule, Key, Known, Noted, View};
pub use threads::cross_threads;
pub use tokens::{
    Alone, Downgraded, Exclusive, Lowered, Passer, Passing, SharedHold, SharedRight, Together,
    Token, Won,
};

//! In CX every update is run on replica after replica: a search, or a tree that is balanced again, each time with the same result.
//!
//! A write set is a physical redo log of one entry: the addresses and values that its step stored. The caller that ran the entry offers it, and
//! others store it in place of the step. The idea is that of Redo ("Persistent Memory and the Rise of Universal Constructions", Correia, Ramalhete,
//! Felber, EuroSys 2020). It differs in that a set has its place beside the entry's cell, is read under the same protection, has at most 256 pairs
//! and may be missing: then the entry is run.
//!
//! - A set takes a pair after its others, and refuses one, unchanged, exactly where it holds 256: `WriteSet::note` (`noted`, `full`, `same`).
//!   To store it is then to store what it held, and that pair last: `last`.
//! - A set is stored over any writable memory that has its addresses, pair by pair in order, for every pair of lists that stands; it halts only
//!   where no access is left, with the first of its pairs stored: `apply_set` (`changes`, `cut`). Where the full image at a ticket is
//!   there, and the set is a write set of that ticket, the full image after the entry is there afterwards: `next`.
//! - A set is taken from the cell of another's entry, which the slot last looked at shows and a confirmed protection keeps: its offer word, and
//!   where that is the ticket plus 1, exactly then, the number of its pairs and each pair. It is then noted whole with the ticket, so by the
//!   table's rule a write set of the ticket, and what really is there fits what the seat has with it; beside the steps and the offer last seen
//!   nothing else changes, also at a `Halt`: `take` (`taken`: `TakesOffered`; `leaves`). Where none is taken, the offer word was loaded in this
//!   call, by the only step, and is another (`FindsUnoffered`); it halts only at the limit, where a further step is due (`halted`:
//!   `HaltsTakingSet`).
//! - A set that whatever fits tells to be one of an own entry's ticket is written beside the entry's cell, each word that differs from the one
//!   there, and offered. What the seat had it has still, and what really is there fits; with `Halt` nothing is offered: `offer` (`offered`:
//!   `OffersFitting`; `leaves`: `KeepsOffering`; `halts`: `WritesSet`).
//! - Where no other caller reads it, such a set is kept in the seat's memory instead, by no step, and handed out again by its ticket: `keep` (`kept`:
//!   `KeepsFitting`; `leaves`), `take_kept` (`taken`).
//! - The gaps that a set leaves between the lines of its addresses are noted for its ticket in the ring of gaps, where the table keeps gaps and they are
//!   16 at most: as many steps are made as there are gaps, and fewer only where the limit ends it; else none (`note_gaps`: `noted`, `none`). Nothing of the
//!   seat changes but the steps (`leaves`: `KeepsNoting`), so no clause says which gaps the words name; each names one that the set leaves untouched.
//!
//! Tested (`table_tests`): one address noted twice, each limit of its two stores, one set that is emptied and used again, and 256 pairs with a
//! 257th that is refused; a set that is written and offered, at each limit of steps; one that another caller takes, and the images that both leave.
#![tactic(auto)]

mod apply;
mod gaps;
mod offers;
mod set;
mod taken;

pub use apply::apply_set;
pub use gaps::note_gaps;
pub use offers::{keep, offer, take_kept};
pub use set::WriteSet;
pub use taken::take;

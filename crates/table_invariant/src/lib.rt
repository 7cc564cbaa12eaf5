//! The invariant of the state machine speaks of all words and all callers at once. A thread sees one word at a time, and knows only what its own
//! steps have found.
//!
//! The rule of the table bridges this: between any two atomic instructions there are local states, of which each caller's seat shows what its
//! caller knows, such that they and the shared words satisfy the invariant. The form of the rule, an invariant over atomic words and the seats'
//! ghost state, is that of the kit's `atomic_table`; that loads and stores of a held replica are noted, and that whatever fits the notes tells the
//! words, is what CX needs beside it.
//!
//! - The rule holds between any two steps of any callers: the words, and local states of which the seats show all but the words of a replica
//!   held exclusively, are a lawful state of the core; words of entries that a caller read are the history's: `CoreRule` (`RuleHolds`). What it
//!   read of write sets is so: each word stands as long as its ticket is live, and each set that was read whole is a write set of its ticket
//!   (`SetNotesHold`).
//! - An event of any kind keeps the rule, where it is allowed in each state that its seat may stand before: `events_keep_the_rule`.
//! - What is really there fits what a seat knows, and stays lawful through each entry and each write set that the seat has, which are those
//!   that it read whole and its caller's own: `what_is_there_fits` (`FitsThere`).
//! - A set in the cell of an own entry may be offered where whatever fits tells that it leads from the image at the entry's ticket to the next:
//!   `known_sets_may_be_offered` (`TellsOffer`). Where nobody else reads it, it may be kept in its caller's own memory instead, by no event:
//!   `known_sets_may_be_kept` (`TellsSet`).
//! - Each step call is the event of its name, of its seat's caller, by one atomic instruction, and afterwards the seat knows what the event
//!   teaches; it tells what the lawful state says of the caller by itself, before and after, and of the word found: `write_cell`, `link`,
//!   `look`, `read_cell`, `load_free` (`made`: `Steps`); `try_exclusive`, `try_shared`, `back_off`, `downgrade`, `release_exclusive`;
//!   `load_word`, `store_word`, `persist`; `load_cur`, `publish`, `retire`; `protect`, `confirm`, `unprotect`, `close_low`, `scan`,
//!   `open_free`.
//! - A raise of DUR is the event of that name. It answers the caller's entry below the code's place, and a read at it, and only with replies
//!   that its caller noted: that of its last entry in a replica replayed above the entry's ticket, whatever fits what was noted of it, and the
//!   object's to the read, whatever fits what was loaded of the current replica: `raise` (`guard` of `may`, `replies`, `made`: `Raises`). That
//!   these are the history's follows from the rule.
//! - Some pair of words fits what a caller noted of the replicas that it holds: words lawful as a base, at a place from the base's on, that
//!   agree with the loads and lead by the stores to the words now: `fits` of `try_exclusive`, `try_shared`, `load_word` and `store_word`
//!   (`Fitting`). The rule says that what is really there does.
//! - An exclusive right is released where whatever fits is the image after its place by entries and write sets that the caller has: `replayed` of
//!   `downgrade` and `release_exclusive` asks that, and the event's guard, that the words are a full image, then holds.
//! - A word found in CUR, FREE or LOW is at least what the caller found there before, and the replica that CUR names is not held exclusively by
//!   the caller. A word found by `look` and `link` names a ticket of its slot, at least as late as each of the slot below the front; one that
//!   the caller's confirmed protection keeps stands there; a link that was lost found a later ticket; a caller that scans itself finds the need
//!   that it stated: `found_word` of `made`.
#![tactic(auto)]

mod laws;
mod rule;

pub use laws::{
    events_are_recorded, events_keep_the_rule, known_gaps_may_be_noted, known_sets_may_be_kept,
    known_sets_may_be_offered, listed_copies_are_learned, loaded_images_are_learned,
    what_is_there_fits,
};
pub use rule::{CoreRule, ImageTimes, KeptSet, Key, Known, Noted, Times, View};

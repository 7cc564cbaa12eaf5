//! CX makes a durable object that threads share from sequential code. Its argument has to hold for each interleaving of the callers' steps and for
//! a crash after each of them, and no test reaches all of these.
//!
//! So the construction is first a state machine, as definitions: one flat list of shared words, what each caller knows (`Local`), 29 kinds of step
//! of one atomic instruction each (`Kind`), the invariant in ten parts, and what a crash leaves. The construction is that of Correia, Ramalhete,
//! Felber ("A Wait-Free Universal Construction for Large Objects", PPoPP 2020; durable, and with redo logs: "Persistent Memory and the Rise of
//! Universal Constructions", EuroSys 2020): an operation log, 2N replicas with try-locks, a published replica. The words, the ring of cells, the
//! pins and the durable root beside the published one are this project's own choice, and wait-freedom is not claimed. This crate has the
//! definitions, and of the code the step of one entry on one replica:
//!
//! - A full step over any object and any writable memory of a region is the full step of its definition, for every pair that stands, and halts
//!   only where no access is left: `full_step` (`done`, `halts`); and the object's reply stands where the caller wants it: `full_step_into`.
//! - A part of a memory is a memory, and what stands around it is kept: `Memory for Part`.
//! - The first base has place 0, no results and the object's opening image, and is lawful: `Base::fresh`.
//! - The full image after a place is the base's words and then one full step after another: `full_image_begins`, `full_image_goes_on`.
//! - A full step leaves a lawful base at the next place, with the number and the reply in its caller's slot and the other slots as they were:
//!   `full_step_keeps`.
//! - A longer history has the same full images up to the old end: `full_images_stay`. Where the base and the entries are lawful, the full image
//!   of a place is a lawful base's words: `full_images_are_lawful`; and a region that is the full image after its place, with the next entries
//!   applied, is the full image after them: `full_regions_go_on`.
//! - Each word of the table, and each part of a region, stands where the layout says: `link_at`, `cell_at`, `lock_at`, `vol_at` and the others;
//!   `slot_start`.
//!
//! Tested (`event_tests`): the first base, and full steps by hand, with a limit that refuses each access.
#![tactic(auto)]

mod base;
mod entry;
mod history;
mod kinds;
pub mod layout;
mod local;
mod step;

pub use entry::{Base, Entry, Image, op_fits};
pub use history::{
    full_image_begins, full_image_goes_on, full_images_are_lawful, full_images_stay,
    full_regions_go_on, full_step_keeps,
};
pub use kinds::{Event, Kind};
pub use layout::{EXCLUSIVE_MARK, HEAD_LINES, LINE_WORDS, OBJECT_START, slot_start};
pub use local::{
    Answer, Cell, FullNote, HeldDowngraded, HeldExclusive, HeldShared, Linked, Local, Protection,
    Scan, SeenLock, SeenNeed, SeenOffer, SeenRead, SeenSlot, WonCode,
};
pub use step::{Part, format_part, full_step, full_step_into};

//! An object is sequential code over a memory, a replica is words that threads share, and between them are three duties: replay the log on it, make
//! it durable before others may see it, and catch up where it fell too far behind.
//!
//! A replica that a caller holds is lent as a memory, on which any object runs unchanged, each load and store one step. The way is that of CX
//! (Correia, Ramalhete, Felber, PPoPP 2020, and EuroSys 2020 for the durable form): entries are replayed from the replica's place on, dirty words
//! are made durable before its right is released, and a replica that is too old is made a copy of the current one. A caller cannot see all words of
//! a replica at once, so contracts speak of whatever words fit what it noted of loads and stores: they are the image after a place.
//!
//! - A replica held exclusively is a memory, and one held shared is a memory for loads: `Region`, `ReadRegion` (`Memory`). Its pairs are those
//!   that fit what the seat noted, so any object runs on it unchanged; a load and a store are one step each, and `Halt` comes exactly where the
//!   seat's limit leaves none. Several words are loaded by one call, and each is noted as its own load would be; where the limit leaves fewer
//!   steps the first of them are loaded: `load_held_words`, `load_shared_words` (`loaded`: `LoadsRun`, `HaltsLoading`).
//! - The place of a region, and the number and reply of a caller's last entry in it: `place`, `outcome` (`read`).
//! - A replica into which nothing was stored is the image after its place: `begin` (`ready`: `IsReady`); the full step of the entry of
//!   its place, which the caller has to have and which has to be a lawful one, makes it the image after the next, in which the entry's caller
//!   has the reply that the step gave: `apply` (`replied`: `ShowsReply`), and over a region without that reply `replay_one` (`ready`).
//! - After a flush no word is dirty, and a region that was the image after its place still is; with `Halt` a word is dirty: `flush` (`clean`,
//!   `image`, `persists`). So the conditions of a downgrade and of a release are met.
//! - A copy makes the replica held exclusively equal to the one held shared, whatever fits what was noted, and gives their place: `copy_from`
//!   (`copied`: `CopiesReplica`). Each word that became dirty had another value before than the source has, so it lies in a line that differed
//!   (`DirtiesDiffering`). Beside one for each word stored it makes at most two steps for each word; with `Halt` it made fewer, or a word is
//!   left to store that was loaded of both and differs (`steps`: `EndsCopy`), and both rights stand (`leaves`). Given the shared
//!   right back, the words copied are those that the exclusive right began with: `renew_from` (`renewed`: `Renews`; `within`), at the place that
//!   was loaded of the source, by `release_copied` (`made`: `StepsCopied`).
//! - A replica into which nothing was stored is renewed by the lines alone that changed between the two places, where the ring of gaps tells
//!   them for each ticket between, and else by all: `renew_listed` (`renewed`: `RenewsListed`, the same but for the gaps noted). It makes 16 steps at
//!   most for each ticket between, of as many as the ring keeps, beside three for each word and one (`within`: `StepsWithin`), also where it halts.
//!
//! Tested (`table_tests`): a caller takes a replica, replays its own linked entry, flushes and downgrades, and another caller reads place,
//! number and reply there; each limit of steps up to the first that does not halt; 1,000 entries of Tally on a region against a plain memory,
//! word by word; a copy in the opening state, after which nothing is dirty, and flushes of no word, of as many as a seat lists, one fewer, one
//! more, more than twice as many, and all, by the steps that they make; the replica of an update copied over another, by the steps that it
//! makes, and a table closed after each of them, in which the words stored so far are those of a plain model, and none of them is durable
//! yet.
//!
//! Also (`table_tests`): 1,000 mixed commands of the document store on a replica held exclusively, all words of which are those of a plain
//! memory after each; a table closed at each limit of steps of an update's replay, flush and downgrade, whose marks and words in both memories
//! are those of a plain model; flushes of 0 to 1,680 words, all of which the medium then has, and no others; a table closed after a copy at
//! opening, in which no word is dirty; two threads that take replicas, replay on them, make them durable, downgrade and release, 10,000 turns
//! each over 100 tables, after which all replicas have the words of the plain model.
#![tactic(auto)]

mod copy;
mod flushes;
mod outcomes;
mod read_region;
mod region;
mod replay;
mod words;

pub use copy::{copy_from, renew_from, renew_listed};
pub use flushes::flush;
pub use outcomes::{outcome, place};
pub use read_region::ReadRegion;
pub use region::Region;
pub use replay::{apply, begin, replay_one};
pub use words::HeldWords;

//! A universal construction shares an object that is written as sequential code. In CX each thread runs the operations on a copy of its choosing,
//! so the same code has to run on any copy: on plain memory, on a replica in words that threads share, on one whose stores are noted for a redo
//! log.
//!
//! Here an object is a step, which takes an image and an operation of 144 words to the next image and a reply of 144 words (`Object`), and it
//! reaches its image only by the loads and stores of a trait (`Memory`), each of which may be refused. That such code is enough was shown by
//! Herlihy ("Wait-Free Synchronization", TOPLAS 1991). An image is a fixed number of words, so that a copy, a flush and a crash are statements
//! about words. Beside these are lists that contracts see item by item, and sources and sinks of bytes.
//!
//! - A load and a store of a memory say how the pairs that stand change, and `Halt` comes exactly where no access is left, with nothing
//!   changed: `Memory` (`stands`, `access`); met by `VecMemory`. Words are loaded from a place on: `load_words` (`read`, `unchanged`, `halts`).
//! - Every call over a memory leaves it the same one: `framed` of `Loads`, `Stores`, `Finds` and `Changes`.
//! - Words are put from a place on, of which those that differ are stored, and a word is loaded that is below a bound: `store_words`,
//!   `store_word`, `load_below` (`done`, `below`).
//! - An object's calls do its step, its format and its check, and its laws hold: `Object`; met by `Tally`, the object of the tests.
//! - Root codes and link codes are their formulas, and code and parts give each other back: `root_code` and the others, `root_parts`,
//!   `root_whole`, `link_parts`, `link_whole`.
//! - Packing is its formula, and is undone by unpacking, both ways: `pack`, `unpack`, `packed_unpacks`, `unpacked_packs`.
//! - A source gives its bytes in order and a sink takes a prefix of what it is handed; a refusal leaves them and raises their count: `Source`,
//!   `Sink`; `SureSource` never fails, and `SureSink` exactly past its room.
//! - `Items` and `Bytes` are lists, made from a `Vec` and given back without taking memory.
//!
//! Tested (`word_tests`): worked codes and packed bytes; Tally over two memories, with each limit.
#![tactic(auto)]

mod accesses;
mod codes;
mod lists;
mod memory;
mod memory_ends;
mod object;
mod outside;
mod packed_bytes;
mod steps;
pub mod tally;
mod vec_ends;

pub use accesses::{load_below, store_word, store_words};
pub use codes::{
    link_cell, link_code, link_parts, link_ticket, link_whole, root_code, root_parts, root_place,
    root_replica, root_whole,
};
pub use lists::{Bytes, Items};
pub use memory::{Halt, Memory, VecMemory};
pub use memory_ends::{SureSink, SureSource};
pub use object::{ENTRY_WORDS, OP_WORDS, Object, OpWords, SET_WORDS};
pub use outside::{Failed, Gate, OpenGate, Sink, Source};
pub use packed_bytes::{pack, packed_unpacks, unpack, unpacked_packs};
pub use steps::Steps;
pub use vec_ends::{VecSink, VecSource};

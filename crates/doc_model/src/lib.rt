//! What the document store answers, said without a word of how it is kept: its sequential specification. By such a specification a history is judged
//! to be linearizable (Herlihy and Wing 1990).
//!
//! A store is a list of pairs of a key and a document, in the order of the keys, each pair with the revision that its last write gave it. A table
//! says of each operation the reply and the next store. Operations and replies are values, and each of them is also 144 words, since the operation
//! log and the replicas hold words.
//!
//! - The plain program gives the reply and the next store of the table of meanings for every operation, and an `Err` leaves the store as it
//!   was: `Pairs::step` (`reply`, `next`, `err`).
//! - An operation within the limits keeps a store a store, and one that only reads leaves it: `operations_keep_stores`,
//!   `readings_leave_stores`.
//! - The words of an operation and of a reply are their definitions: `op_words`, `reply_words`.
//! - An operation, or a reply, is read from words exactly where they are words of one within the limits, and it is that one: `op_of`,
//!   `reply_of` (`found`, `only`, `bad`), and without memory `is_op`.
//! - Bytes are a key exactly where `is_key` says so (`rule`); replies of bytes that are packed already have the words of those replies:
//!   `packed_document_reply`, `packed_key_reply`.
//! - Two operations, or replies, with the same words are one: `op_words_are_one_to_one`, `reply_words_are_one_to_one`.
//! - They are 144 words of 64 bits, with each part at its place, and the kind tells a reading: `words_are_words`, `parts_stand_in_words`,
//!   `kinds_tell_readings`.
//!
//! Tested (`word_tests`): the words of worked operations and replies, laid out by hand; texts of every length; the table of replies.
#![tactic(auto)]

mod laws;
mod operations;
mod packed_texts;
mod places;
mod plain;
mod table;
mod word_laws;
mod word_parts;
mod words;

pub use laws::{operations_keep_stores, readings_leave_stores};
pub use operations::{Op, Pair, Reply};
pub use plain::Pairs;
pub use plain_text::{integer_of, number_of};
pub use word_laws::{
    kinds_tell_readings, op_words_are_one_to_one, parts_stand_in_words, reply_words_are_one_to_one,
    words_are_words,
};
pub use word_parts::{DOCUMENT_AT, DOCUMENT_LENGTH_AT, KEY_AT, KEY_LENGTH_AT, KIND_AT, NUMBER_AT};
pub use words::{
    OpFault, is_key, is_op, op_of, op_words, packed_document_reply, packed_key_reply, reply_of,
    reply_words,
};

//! Producers and consumers that share a bounded queue want each text popped once and in order, across crashes too. The construction gives that to an
//! object that is sequential code over words; this is a queue of texts as such an object.
//!
//! It is a ring buffer: a header with the place of the first item and the number of items, and a line for each item. Unlike a ring buffer between
//! threads it has no atomic words of its own, since threads and crashes are the construction's matter; what counts is that a change touches two lines
//! only. What the operations mean is said over a list of texts.
//!
//! Operations and replies:
//!
//! - The words of an operation and of a reply are their definitions: `fifo_words`, `fifo_reply_words`.
//! - An operation, or a reply, is read from words exactly where they are words of one within the limits: `fifo_of`, `fifo_reply_of` (`found`,
//!   `bad`). Two with the same words are one: `fifo_words_are_one_to_one`.
//! - What was in a queue and what is pushed into it comes out in that order: `queues_keep_their_order`.
//!
//! The object:
//!
//! - It is an object: its calls do its step, its format and its check over any memory, and its laws hold: `Fifo` (`impl Object`).
//! - A push and a pop touch the header's line and one more: `steps_touch_two_lines`.
//! - Words of no operation are answered by 144 zeros and leave the image; just the words of a Peek and of a Len are taken for those of an
//!   operation that only reads: `words_of_no_operation_change_nothing`, `readings_are_peek_and_len`.
//! - Its images stand for lists of texts, and its steps are what the operations mean over them: `Fifo` (`impl TypedObject`, `has_meaning`).
#![tactic(auto)]

mod fifo;
mod laws;
mod operations;
mod queue_laws;
mod typed_fifo;
mod words;

pub use fifo::Fifo;
pub use laws::{
    readings_are_peek_and_len, steps_touch_two_lines, words_of_no_operation_change_nothing,
};
pub use operations::{FifoOp, FifoReply};
pub use queue_laws::{fifo_words_are_one_to_one, queues_keep_their_order};
pub use words::{
    FifoFault, fifo_of, fifo_reply_of, fifo_reply_words, fifo_words, is_item, is_text,
    item_of_number, kind_in, words_of,
};

//! A universal construction (here CX: Correia, Ramalhete and Felber 2020) shares any object that is sequential code over words. This is one of use to
//! programs: a store of documents by their keys, in a fixed number of lines.
//!
//! A step reads an operation of 144 words, asks or changes the index (`word_index`), and answers with 144 words. What it means is said by `doc_model`
//! alone: an image represents a store, and after a step the next one, with the reply of the table.
//!
//! - The step of a lawful image and any words is what they mean; words of no operation are answered by zeros, and leave the image:
//!   `steps_do_as_operations_mean`.
//! - An operation is read off its words: `operations_are_read`; just those of a Get, a Next, a Count and a Rev are taken for one that only reads:
//!   `readings_are_those_operations`.
//! - It is an object: its calls do its step, its format and its check over any memory, and an image of version 1, whose pairs have no revisions,
//!   is upgraded: `DocStore` (`impl Object`). The pairs of a lawful image are listed: `documents` (`pairs`, `stands`).
#![tactic(auto)]

mod changes;
mod numbers;
mod readings;
mod replies;
mod step_laws;
mod store;
mod typed_store;
mod word_parts;

pub use step_laws::{
    operations_are_read, readings_are_those_operations, steps_do_as_operations_mean,
};
pub use store::{DocStore, documents, stores_cross_threads};

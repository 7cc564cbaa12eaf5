//! An ordered map from keys to documents in one run of words, with no pointers and no allocator: such words can be copied, flushed, put into a redo
//! log and recovered as they are. All replicas have to agree word by word, so what a call leaves is a function of the words before it.
//!
//! Each pair is a node of an AVL tree (`avl_words`) and has one line of 8 words, which is a cache line. Keys and documents stand in chains of lines;
//! lines that are given back form a list, from which new ones are taken first. Where a change might store a word twice, it goes through a write
//! buffer. What is said here holds over any memory, for each pair of words that it may have held first and may hold now.
//!
//! - `find`, `least_above`, `count` and `read_document` answer what the list of pairs answers, and leave the words: `done`, `kept`. The node
//!   that `find` gives tells the key's revision, which `rev_at` reads; `last_revision` reads the last one that was given.
//! - The words after `insert` and `remove` are a function of the words before them, and so is the answer: `changes`.
//! - These words stand for the store with the pair, and NoRoom comes exactly where it would not have room, with nothing changed; for the store
//!   without the key; and are as many words of 64 bits as before: `documents_are_put`, `keys_are_removed`. A pair that is put gets the next
//!   revision, which becomes the last one given; every other pair keeps its own: `revised` of both laws.
//! - After `format_index` they stand for the empty store, and are a function of those before: `changes`, `exact`.
//! - Lawful words of version 1 become words of version 2 with the same pairs, each with revision 1, and 1 is the last one given; every other
//!   word is as it was: `upgrade_index` (`migrated`, `exact`).
//! - Each of `find`, `least_above`, `insert` and `remove` visits so few nodes that 2^visits is at most 2(n + 1)^2 for n pairs before the call:
//!   `visits` of the same calls, of the last two where they return; where they halt, for some words that may have been there: `walked`. Each
//!   comparison of a key is a visit that is counted: `order_at` (`counted`).
//! - Each call halts only where no access is left, and a memory without a limit has none afterwards: `halts`, `limited`.
//!
//! Tested (`word_tests`): keys put in, replaced by shorter and longer documents and taken out over a vector, to the last line, and their
//! revisions, to the greatest; images of version 1 that are upgraded.
#![tactic(auto)]

mod answers;
mod blocks;
mod chain_words;
mod format;
mod given_back;
mod given_pairs;
mod insertion;
mod laws;
mod nodes;
mod removal;
mod rewrite;
mod taken;
mod texts;
mod upgrade;
mod walk;

pub use answers::{find, least_above, read_document};
pub use format::format_index;
pub use index_validation::{
    lawful, lawful_words_have_one_revised_store, lawful_words_have_one_store, pairs_of,
    words_stand_for_one_store, words_tell_their_store,
};
pub use insertion::{Inserted, insert};
pub use laws::{documents_are_put, keys_are_removed};
pub use nodes::{count, last_revision, rev_at};
pub use removal::remove;
pub use texts::{Doc, Key};
pub use upgrade::upgrade_index;

//! The words of a crash image may be anything: links in a ring, a line that is used twice, keys out of order, lengths behind the end. Before the
//! index in them is used they are checked, and no words may make the check run on for ever or use up its stack.
//!
//! The shape comes first: heights have to fall on each way down, so that every walk ends. Then the nodes are visited in order, and each line in use
//! gets a mark; one that has its mark already is used twice. Nothing recurses, so the stack that this takes is the same whatever the words are. Here
//! is also the definition of how words represent a store, and the list of the pairs of words that passed.
//!
//! - Whatever the words are, `is_balanced` says exactly whether a balanced tree with a given number of nodes stands below a line; a walk gives each node of
//!   such a tree once, in order: `InOrder`.
//! - Whatever the words are, true exactly where a tree stands in them for some store with this version, of which there are two, and then for
//!   one only, which is read off them: `lawful`; `lawful_words_have_one_store`, `words_stand_for_one_store`, `words_tell_their_store`;
//!   `pairs_of` lists it.
//! - In version 2 the header tells the last revision that was given, and each pair has a revision from 1 to it. Lawful words stand for exactly
//!   one store with such revisions: `lawful_words_have_one_revised_store`. In version 1 there are none, and both versions share their check.
//!
//! Tested (`word_tests`): a tree over a vector; 80 images that are hostile in both versions (heights, balance, rings, shared children, keys out
//! of order at a distance, a line in two places) and 7 lawful in both; 20 that are hostile in one (a revision of 0, or behind the last one
//! given), and 4 lawful in version 2; 4 of no version.
#![tactic(auto)]

mod check;
mod in_order;
mod laws;
mod marks;
mod node_checks;
mod pair_list;
mod shape;
mod text_checks;
mod words;

pub use check::lawful;
pub use in_order::InOrder;
pub use laws::{
    lawful_words_have_one_revised_store, lawful_words_have_one_store, words_stand_for_one_store,
    words_tell_their_store,
};
pub use pair_list::pairs_of;
pub use shape::is_balanced;

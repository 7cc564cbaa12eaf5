//! A search tree that stays shallow, over words that replicas copy, flush and recover as plain words: links are numbers of lines, and there are no
//! pointers and no allocator.
//!
//! From: Adelson-Velsky and Landis 1962. The heights of two siblings differ by at most one, and rotations mend a node where they would differ by two.
//! This differs: a node keeps its height and not its balance, and the way down is kept in an array, so that nothing recurses. Rotations, the repair
//! of a way, an item put in and one taken out are first definitions over trees of any items, with their laws; the calls over words do just that.
//!
//! - A balanced tree of height h has n items with 2^h ≤ (n + 1)^2: `trees_are_shallow`.
//! - A new item stands where a walk by an order ends, and without an item the others stand in order; the tree stays balanced: `items_are_put`,
//!   `items_are_taken_out`.
//! - A node put into a tree over words, or taken out of it, leaves exactly the links and heights of the tree with it, or without it, and all
//!   other words as they were: `put_node`, `take_node`.
#![tactic(auto)]

mod blocks;
mod changes;
mod laws;
mod links;
mod replacement;

pub use blocks::{put, put_new, start_of, word};
pub use changes::{put_node, take_node};
pub use laws::{items_are_put, items_are_taken_out, trees_are_shallow};
pub use links::{Subtree, below, height_of, join, rotate, set_node};
pub use replacement::{Way, hang, mend};

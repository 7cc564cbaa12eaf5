//! A proof says that a call keeps its contract, and neither that the contract is the one that was wanted nor that a call succeeds: one that always
//! answers out of memory keeps its contract too. So the lowest layers are called here as a user calls them: memories of words, lines, media, objects,
//! the index and the document store.
//!
//! Rows that were worked by hand, hostile images and mixed commands are compared with slow, plain programs, and each access to a memory is refused in
//! turn. The crate has tests alone.
#![tactic(auto)]

#[cfg(test)]
mod access;
#[cfg(test)]
mod base;
#[cfg(test)]
mod counted;
#[cfg(test)]
mod counters;
#[cfg(test)]
mod held;
#[cfg(test)]
mod holds;
#[cfg(test)]
mod hostile;
#[cfg(test)]
mod index;
#[cfg(test)]
mod lanes;
#[cfg(test)]
mod meanings;
#[cfg(test)]
mod medium;
#[cfg(test)]
mod mixed;
#[cfg(test)]
mod noted;
#[cfg(test)]
mod op_words;
#[cfg(test)]
mod order;
#[cfg(test)]
mod plain;
#[cfg(test)]
mod revisions;
#[cfg(test)]
mod rows;
#[cfg(test)]
mod shapes;
#[cfg(test)]
mod single_stores;

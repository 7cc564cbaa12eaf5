//! The running table has the words of the state machine as atomic words, and each of its calls may stop at any step, where its caller's limit is
//! reached. The contracts say what stands then; here it is seen.
//!
//! Try-locks, the operation log, replicas, publications and write sets are called by one caller and by two, some on threads. Callers also take
//! replicas one after another, bring each up and give it up. At each limit of steps within an update and within a copy, what is left is compared
//! with a plain model that makes the same steps. The crate has tests alone.
#![tactic(auto)]

#[cfg(test)]
mod commands;
#[cfg(test)]
mod copy_tests;
#[cfg(test)]
mod flush_tests;
#[cfg(test)]
mod holds;
#[cfg(test)]
mod images;
#[cfg(test)]
mod limit_tests;
#[cfg(test)]
mod links;
#[cfg(test)]
mod noted_sets;
#[cfg(test)]
mod publications;
#[cfg(test)]
mod region_tests;
#[cfg(test)]
mod replayed;
#[cfg(test)]
mod ring;
#[cfg(test)]
mod tables;
#[cfg(test)]
mod thread_tests;
#[cfg(test)]
mod trylocks;
#[cfg(test)]
mod turns;

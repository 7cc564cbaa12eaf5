//! Here lives run as a library is called: clients on threads that a gate holds, a stop in the middle of an update, a crash, and the next life, which
//! begins with what was kept. The records are judged by what their scripts ask for. Lives that need no gate run through the program, and a plain checker
//! that knows nothing of the construction judges their reports: `tools/tests/whole_lives.py`.
//!
//! The lives are those of documents and of counters. Then clients share the callers of a service: one after another, on threads of their own, with a
//! caller that is stopped, as a server has them, and where one catches up with another. The object that is there to be copied is called over words, and
//! the queue over words and on a service. The crate has tests alone.
#![tactic(auto)]

#[cfg(test)]
mod catch_ups;
#[cfg(test)]
mod clients;
#[cfg(test)]
mod counter_lives;
#[cfg(test)]
mod gates;
#[cfg(test)]
mod highest;
#[cfg(test)]
mod holds;
#[cfg(test)]
mod objects;
#[cfg(test)]
mod pool_starts;
#[cfg(test)]
mod queue_ring;
#[cfg(test)]
mod queue_service;
#[cfg(test)]
mod server;
#[cfg(test)]
mod shared_pools;

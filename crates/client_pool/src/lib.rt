//! The problem: the construction is for a small, fixed number of callers, and a program has more clients than that. Each client is to see its own
//! answers in order and to read what it wrote, though each of its calls may be made by another caller.
//!
//! The idea: clients borrow callers. A client carries the place of the history up to which it was answered, a consistency token; the caller that it
//! borrows catches up with that place before it makes the call.
//!
//! A pool lends the callers of one service to up to 64 clients.
//!
//! - `Pool::open` puts the callers of a service into a queue, and makes the clients. A pool is shared by threads, and each client goes to one.
//! - `update` and `read` take a caller out of the queue, see to it that it has seen what the client was answered before or caught up with
//!   (`Client::place`), make the call, and give the caller back. A client that was answered Full or Worn keeps its caller for its next call, and one
//!   whose caller is stopped makes no further call: so no caller is lost.
//! - `catch_up` has a client see what another client was answered, by that client's place: no later answer of the client holds below it.
//! - `close` gathers all callers and closes the service.
//!
//! Each client has one list of calls (`HasCalls` in `specs/Clients.antt`): what it was answered, with the entries and the reads that these are answers of. No
//! answer of it holds below one before it.
#![tactic(auto)]

mod call;
mod catch_up;
mod client;
mod close;
mod lend;
mod open;
mod pool;
mod read_beside;
mod threads;
mod update;

pub use call::{Answered, Call};
pub use client::Client;
pub use open::Unopened;
pub use pool::{FormerClient, Pool, PoolKept, Pooled, PooledCatchUp, PooledRead};
pub use threads::cross_threads;

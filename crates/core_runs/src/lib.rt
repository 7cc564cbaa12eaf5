//! The ten parts of the invariant are proved in two crates. A user wants one theorem: of every interleaving of the callers' steps, with a crash after
//! any of them. And one history with each caller's operations in their order is too little where callers also talk to each other: who is told that an
//! update was acknowledged must find it done.
//!
//! Here the parts are put together by induction over the run. Every state that is reached satisfies the invariant (`runs_are_lawful`); whatever a
//! crash leaves of one is recovered as the object after a prefix of the history that has everything acknowledged (`crash_images_recover`,
//! `mediums_recover`), and that is a base for the next life (`recovered_bases_are_lawful`). Also, a caller that holds no replica finds a free one
//! among the 2N (`some_replica_is_free`), which is why CX has 2N of them.
//!
//! Linearizability (Herlihy and Wing, "Linearizability: A Correctness Condition for Concurrent Objects", TOPLAS 1990) asks for this: what was
//! acknowledged before another operation began is before it in the history. Durably linearizable (Izraelevitz, Mendes, Scott, DISC 2016) is this
//! with crashes, of which each keeps a prefix with everything acknowledged. Both are proved of every run of the state machine
//! (`runs_are_linearizable`): an update stands at its ticket, a read at the place of the replica that it read. Real time is here the order of all
//! callers' steps. Each law is the contract of a function that does nothing.
#![tactic(auto)]

pub mod chain;
pub mod crash;
pub mod images;
pub mod order;
pub mod runs;

//! The problem: an object that is written as sequential code is to be shared by 1 to 8 threads, so that each operation takes effect at one moment of
//! its call (linearizability: Herlihy and Wing 1990), and a crash loses nothing that was acknowledged (durable linearizability: Izraelevitz, Mendes,
//! Scott 2016).
//!
//! The idea is the universal construction CX (Correia, Ramalhete, Felber, PPoPP 2020 and EuroSys 2020): updates go into one operation log, replicas
//! of the object follow it, and a caller is answered only once the durable root is past what it did or saw. It differs in what a caller meets: the
//! papers' calls are wait-free; here `submit` and `drive` make a given number of tries and say why they stopped (`Again`, `Full`, `Pending`), and
//! progress is not promised.
//!
//! Callers submit operations, and close the service in the end. Its calls wait for nobody, but for `update` and `read`, which try again.
//!
//! While others go on a caller takes an image of the object, results included: `checkpoint`. It is a base from which a service may start. What the
//! caller took stands in its ghost knowledge, which no other call adds to, and a closing says that each such image is the history's at its place.
//!
//! A caller that drives its entry brings a replica up to it. Another's entry it applies by its write set, where its caller offered that,
//! and else by its step: `Caller::taken` counts the sets that it read. Of each the drive that read it tells a seat from which to a next
//! just its pairs are stored (`DriveDone`: `brought`), and no other call reads one. No clause of a drive says that its own steps led through
//! these seats: that a set which was read is stored over the replica, and no step done instead, is a clause of `replay_offered` of `redo_replay`.
//!
//! The steps of a caller are counted, up to 2^64 - 1, and no answer of any call takes one back (`StepsOn`: `since` of `ReadKeeps`, `DriveKeeps`,
//! `LinksEntry`, `SubmitHalted`, `HaltsUnlinked`, or an exact count). The refusals that it met are counted so too, and no answer takes one back (`met`
//! of `ReadKeeps`, `DriveKeeps`, `UpdateDone`, `HaltsLinked`, or an exact count).
//!
//! The rule of the table keeps the list of all callers' steps as ghost state, and each seat knows in its own count of steps when each of its
//! operations began and was answered. So the steps that the callers made are a run of the state machine, in the order in which they were made, and
//! the history that the `Trail` of a closed table holds is a linearization of them: `closed_tables_are_linearizable`, the contract of a function
//! that does nothing.
#![tactic(auto)]

mod callers;
mod catch_up;
mod checkpoint;
mod close;
pub mod closed_order;
mod drive;
mod facts;
mod lookup;
pub mod seen;
mod service;
mod start;
mod submit;
mod threads;
mod update;

pub use callers::{Caller, Linked, Stopped};
pub use catch_up::CaughtUp;
pub use checkpoint::Checkpointed;
pub use close::{Handed, Kept};
pub use cx_attempts::Seen;
pub use cx_core::Answer;
pub use drive::Driven;
pub use lookup::ReadTried;
pub use service::Service;
pub use start::StartFault;
pub use submit::Submitted;
pub use threads::cross_threads;
pub use update::{ReadDone, Updated};

//! What a caller knows is ghost state, which code cannot read. But a caller has to know its ticket, its rights, and which words of its replica are
//! dirty; to ask the shared words for that would cost steps and tell less.
//!
//! So each seat keeps numbers in plain memory that follow the ghost state step by step (`CachedLocal`), and copies of the words that its caller alone
//! writes (`Copies`): of a held replica what is to be made durable, of its own cells what stands there, so that only words that differ are written.
//! It gives no right to step: that is the seat's, which the running table hands out. When a table is closed, the chain of roots is read off it.
//!
//! - The numbers that a seat keeps in plain memory and the words that it copies follow its caller's local state at each kind of step: `follow`
//!   (`FollowsAt`, `CopiesFollow`); and at a raise of DUR, `CachedLocal::raise`.
//! - Wins that lead from a code to another by one way are read off as that chain: `lead_on` (`IsWayBy`).
#![tactic(auto)]

mod at_close;
mod copies;
mod following;
mod kept;
mod marks;
mod ring;
mod sets;
mod summary;

pub use at_close::{copy_words, lead_on, mark_replica};
pub use copies::Copies;
pub use following::follow;
pub use summary::{CachedLocal, opening_summary};

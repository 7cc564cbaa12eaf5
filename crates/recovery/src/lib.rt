//! The problem: a crash may come at any step, and of the words that were not flushed yet anything may be left. What is left has to give the object
//! after a prefix of the history that holds everything acknowledged, and to tell each caller whether its last update took effect.
//!
//! The idea is that of the durable form of CX (Correia, Ramalhete, Felber, EuroSys 2020): the root that is left names a replica that was flushed
//! before it was published, so recovery takes that replica as it is and replays no log. Its result slots tell each caller its last update and the
//! reply (detectability: Friedman, Herlihy, Marathe, Petrank, PPoPP 2018). Here an image may also come from elsewhere: `recover` makes five checks,
//! and a refusal names the first that the image does not pass.
//!
//! What a crash leaves of a closed table, and recovery from it; and what the images are that its callers took before.
#![tactic(auto)]

mod applied;
mod checkpoints;
mod crash;
mod exactness;
mod laws;
mod outcomes;
mod recovered_base;
mod region;
mod reopened_medium;
mod versions;

pub use applied::Outcome;
pub use checkpoints::base_of_checkpoint;
pub use crash::crash_image;
pub use cx_core::Image;
pub use exactness::recovering_is_exact;
pub use laws::{
    closed_tables_are_whole, closed_tables_recover, closed_tables_stay, crash_images_are_accepted,
    crash_images_are_left, lawful_bases_are_accepted,
};
pub use outcomes::{
    full_images_tell_outcomes, kept_bases_have_results, kept_bases_tell_outcomes, outcome,
};
pub use recovered_base::{ImageFault, recover};
pub use reopened_medium::{reopen, reopen_image};

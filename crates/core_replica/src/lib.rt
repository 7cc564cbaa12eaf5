//! Many callers replay the log, each on a replica that it holds, while others read replicas or copy them. Whoever takes a replica must find the
//! whole object after a prefix of the history, and nothing half replayed. A replica is published before a caller can know that its publication will
//! survive a crash; whichever root a crash leaves, the replica that it names has to be whole. And an acknowledged operation has to be in the history
//! for good, with the reply that the object gives there.
//!
//! As in CX (Correia, Ramalhete, Felber, PPoPP 2020) each replica has a readers-writer try-lock. Here its word is a sum: 2^32 for the exclusive
//! right, 1 for each other right and for each pin; so whoever finds 0 and takes it is alone. A replica that nobody holds exclusively is the full
//! image after its place, in the cache and durably.
//!
//! There are two roots: CUR, which was published last, and DUR, which a crash cannot fall behind. The publications that are not retired lead from
//! DUR to CUR by rising places (the chain); each replica on it is pinned, so that nobody takes it to write, until DUR has passed it. The two roots
//! and the pins are this project's own choice in the durable form of CX (EuroSys 2020).
//!
//! Only one step acknowledges: the raise of DUR past an update's ticket, or to the place of a read, by a caller that has read the reply off its
//! replica. So an answer is durable when it is given, which is what Izraelevitz, Mendes and Scott (DISC 2016) ask of completed operations.
//!
//! That every step keeps this is proved here as laws: the contracts of functions that do nothing. Each part of the lawful state is owned by this
//! crate or by `core_queue`. For each there is a law that the opening state has it, one that each of the 29 kinds of step keeps it, whichever caller
//! makes the step, and one that a step elsewhere keeps it.
//!
//! - Locks and regions: `opening_has_the_replicas`, `events_keep_the_replicas`; `locks_framed`, `regions_framed`, and that a longer history
//!   leaves the replicas full images: `regions_of_a_longer_history`.
//! - The root: `opening_has_the_root`, `events_keep_the_root`; `root_framed`; no place of CUR or of a downgraded right is past the history's
//!   end, and DUR, what callers have seen and what they won with are at most CUR: `root_has_bounds`.
//! - There is one chain of codes from DUR to CUR; it rises in place, and each of its codes names a pinned replica at the code's place, which
//!   nobody holds exclusively: `a_chain_stands`, `there_is_one_chain`, `chain_rises_in_place`, `chain_is_the_one_code`, `chain_is_pinned`,
//!   `chain_names_images`.
//! - Answers: `opening_has_the_answers`, `events_keep_the_answers`; `answers_framed`, `answers_of_a_longer_history`.
//! - An answer is to the caller's own entry with the same index and is the object's reply after all entries with lower tickets; tickets of
//!   answers rise; an answer, and an answered read, stay the history's however it goes on, and no step takes one back; a read is after those of
//!   its caller's own entries that it counts and before the others: `answers_are_to_own_entries`, `answers_rise`, `answers_stay`, `reads_stay`,
//!   `answers_are_never_taken_back`, `reads_count_own_entries`.
//!
//! The functions of this crate, of `core_queue` and of `core_runs` have empty bodies, so no must-fail edit of code can stand here; those of the
//! guards stand in `core_guards`.
#![tactic(auto)]

pub mod answer_frames;
pub mod answer_kinds;
pub mod chain;
pub mod crash;
pub mod frames;
pub mod kinds;
pub mod replies;
pub mod root_bounds;
pub mod root_frames;
pub mod root_kinds;

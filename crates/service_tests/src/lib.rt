//! Does the service do what a user sees, on threads, under a limit of steps, and over a crash? The replies of callers are compared with those of the
//! object alone, by one thread.
//!
//! Callers run on threads and one after another; some are stopped at each step, and what a crash leaves of a service that is closed there is
//! recovered. An image of an old version is written by hand. Checkpoints that a caller takes while others go on are compared with the object
//! alone at the checkpoint's place, taken at each limit of steps, and a service starts from one. The crate has tests alone.
#![tactic(auto)]

#[cfg(test)]
mod alone;
#[cfg(test)]
mod calls;
#[cfg(test)]
mod cells;
#[cfg(test)]
mod checkpoint_limits;
#[cfg(test)]
mod checkpoint_starts;
#[cfg(test)]
mod checkpoint_threads;
#[cfg(test)]
mod checkpoints_alone;
#[cfg(test)]
mod closed;
#[cfg(test)]
mod holds;
#[cfg(test)]
mod listed_lines;
#[cfg(test)]
mod losses;
#[cfg(test)]
mod meetings;
#[cfg(test)]
mod no_memory;
#[cfg(test)]
mod pairs;
#[cfg(test)]
mod renewals;
#[cfg(test)]
mod reopened;
#[cfg(test)]
mod rows;
#[cfg(test)]
mod starts;
#[cfg(test)]
mod stops;
#[cfg(test)]
mod submits;
#[cfg(test)]
mod sum_calls;
#[cfg(test)]
mod tasks;
#[cfg(test)]
mod threads;
#[cfg(test)]
mod tokens;
#[cfg(test)]
mod upgraded;
#[cfg(test)]
mod written;

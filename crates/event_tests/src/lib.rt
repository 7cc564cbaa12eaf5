//! The theorems speak of runs of the state machine. Were a step that callers need never allowed, they would still hold; so here the state
//! machine is made to go.
//!
//! Each kind of step is tried by rows, which say whether it is allowed and which words it leaves; a race of two callers and crashes go through many
//! of them, and full steps of an entry are worked by hand. The crate has tests alone.
#![tactic(auto)]

#[cfg(test)]
mod board;
#[cfg(test)]
mod crashes;
#[cfg(test)]
mod facts;
#[cfg(test)]
mod full_steps;
#[cfg(test)]
mod gaps;
#[cfg(test)]
mod kept_bases;
#[cfg(test)]
mod locks;
#[cfg(test)]
mod queue;
#[cfg(test)]
mod race;
#[cfg(test)]
mod ring;
#[cfg(test)]
mod root;
#[cfg(test)]
mod scripts;
#[cfg(test)]
mod sets;

//! What the program answers is proved of the call behind its `main`, over any source and any sink. Here it is called with the words that a user
//! types, over ends that take or give a few bytes a call, fail at some call, or have no room.
//!
//! Scripts are run past gates, one of which holds a client back, and on the standard ends. What each word writes is seen of the built program
//! (`tools/tests`). The crate has tests alone.
#![tactic(auto)]

#[cfg(test)]
mod each_call;
#[cfg(test)]
mod faults_of_ends;
#[cfg(test)]
mod gates;
#[cfg(test)]
mod given_words;
#[cfg(test)]
mod holds;
#[cfg(test)]
mod program_runs;
#[cfg(test)]
mod rounds;
#[cfg(test)]
mod standard_ends;

//! The problem: where clients share the callers of a service, its history names callers, not clients, and a client's calls are spread over several of
//! them; which caller makes which call only the run on threads settles. Are the clients' answers still those of a legal run of theirs?
//!
//! The idea: they are, where each line of a client is one call of one caller, each call once, and no answer to a client lies below what the
//! client was told before. This is a law over plain lists, with no threads in it. In the run each client's worker makes its commands by calls
//! of a pool, and for each client there are, for the proof alone, the lists that a caller of its own would have (`local_of`, in
//! `specs/Ghosts.antt`), of which its lines are; the pool's closing says that these are of the service's callers, and all that the history
//! has. So the run meets the law.
//!
//! - A pool life is a legal life in which nobody was stopped and nobody ended Full (`IsPoolLife`, in `specs/PoolLives.antt`); a record is witnessed by
//!   an execution log where each entry of its history has a line, and each read is one of a caller (`IsPoolTold`).
//! - Where the lines of clients are those of calls that callers of a closed service made, and no answer to a client lies below what the client was
//!   told before, the record is one of a legal life: `told_pools_have_lived`.
//! - Whatever the threads do, the record of a run is one of a pool life, which began with nothing, and the execution log of the service witnesses it:
//!   `run_pool` (`HasPooled`, in `specs/PoolRuns.antt`). The call may wait.
#![tactic(auto)]

mod calls;
mod gather;
mod laws;
mod life;
mod progress;
mod run;
mod start;
mod work;
mod workers;

pub use laws::told_pools_have_lived;
pub use run::run_pool;

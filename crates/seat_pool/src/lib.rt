//! The problem: a service has 1 to 8 callers, and more clients than that want to use them. A caller is in one call at a time, none may be lost, and
//! in the end what the clients were answered has to be what the service's history has.
//!
//! The idea: the callers lie in a queue. A client takes one out, makes its calls, and gives it back (a resource pool). Who uses the queue holds a
//! pass, which by a rule of the queue notes, in the very step that gives a caller back, which calls that caller was answered since. So the passes
//! together account for all calls, but for at most one of each stopped caller.
//!
//! A queue that lends the callers of one service to up to 1,023 passes, and the account of their calls. Clients that take callers by it are no
//! part of this crate.
//!
//! What holds at every moment is the rule `LenderRule` (`Pools` and `KeepsCallers` in `specs/Pooling.antt`): the queue holds callers of one service, in no
//! call; each caller that was placed is in the queue or held by one pass; the calls that passes know of are the answered calls of the callers (an entry
//! with its answer), each once, where a held caller counts with those that it had when it was taken out; and the reads that passes know of are among the
//! callers'. Its kinds of step are a push and a pop.
//!
//! - `open`, `place`: a queue for a service, and its callers in it.
//! - `take` gives a caller of the service, with the limit that it was placed with. `give` gives the pass's last caller back, and what it was answered since is
//!   learned by the pass in the same push; it never fails, so no caller is lost. The pass keeps each caller that it gave back, as it was when it was taken and
//!   as it was then: so a contract can name the caller by which a call was made. `answers_are_told`: after an update the pass learns of the update's entry;
//!   `reads_are_shown`: after reads the pass learns of no call, and of these reads.
//! - `share` makes a further pass, and `merge` puts what another pass knows and holds to this one.
//! - `close`: with all that was lent, the queue is emptied and the service closed. All callers are handed in, each once and of caller 0 first (also those that
//!   are stopped), and the calls that the callers show as answered are those that passes know of, each once, but for at most one of each stopped caller
//!   (`AreCallsTold`).
//!   `idle_are_kept`, `stopped_are_kept`: a caller in no call, and one that was stopped, are such that a client may keep until then.
//! - `in_order`: callers that were gathered in whatever way, of caller 0 first.
#![tactic(auto)]

mod closed;
mod gather;
mod hand;
mod laws;
mod lent;
mod queue;
mod rule;

pub use closed::close;
pub use gather::in_order;
pub use hand::{AnsweredCall, LenderPass, Returned, ServiceView};
pub use laws::{answers_are_told, idle_are_kept, reads_are_shown, stopped_are_kept};
pub use lent::Lent;
pub use queue::{give, learn, merge, open, place, share, take};
pub use rule::{LenderQueue, LenderRule};

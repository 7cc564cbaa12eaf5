//! The clients of a pool.

ghost use Rattle.std.specs.Prelude.{◌≡◌, max};
ghost use Rattle.client_pool.specs.Lending.{is_live};

use crate::call::Answered;
use crate::pool::FormerClient;
use crossbeam_queue::Pass;
use cx_service::{Caller, Handed};
use seat_pool::{LenderPass, Lent};

/// A client of a pool: one of those that share the callers of a service. It carries its own answers and the place that it has seen.
#[derive(Drop)]
pub struct Client {
    pub(crate) number: u32,
    pub(crate) floor: u64,
    pub(crate) caught_up: u64,
    pub(crate) answers: Vec<Answered>,
    pub(crate) lent: Lent,
    pub(crate) closing: Option<Closing>,
}

/// What closing a pool takes: what is left of the queue's first pass, and room for all that is gathered. The last client has it, since no
/// pass is shared by threads.
#[derive(Drop)]
pub(crate) struct Closing {
    pub(crate) rest: Pass<Caller, LenderPass>,
    pub(crate) lents: Vec<Lent>,
    pub(crate) former: Vec<FormerClient>,
    pub(crate) handed_room: Vec<Handed>,
    pub(crate) out: Vec<Handed>,
}

impl Client {
    /// The number of the client among those of its pool, from 0.
    pub fn number(&self) -> u32
        ensures { result ≡ self.now.number }
    {
        self.number
    }

    /// No later answer to the client holds below this place.
    pub fn floor(&self) -> u64
        ensures { result ≡ self.now.floor }
    {
        self.floor
    }

    /// The greatest place that the client caught up with, 0 at first. No later answer to the client holds below this place.
    pub fn caught_up(&self) -> u64
        ensures { result ≡ self.now.caught_up }
    {
        self.caught_up
    }

    /// The client's place, the greater of its floor and of the place that it caught up with. Another client or caller that catches up with it sees all that
    /// this client was answered or caught up with.
    pub fn place(&self) -> u64
        ensures { result ≡ max self.now.floor self.now.caught_up }
    {
        self.floor.max(self.caught_up)
    }

    /// What the client was answered, in the order of its calls.
    pub fn answers(&self) -> &[Answered]
        ensures { result.now ≡ self.now.answers.items }
    {
        self.answers.as_slice()
    }

    /// Whether the client may make a further call: it may, unless it keeps a stopped caller.
    pub fn is_live(&self) -> bool
        ensures { result ≡ is_live self.now.lent.kept }
    {
        match &self.lent.kept {
            None | Some(Handed::Idle(_)) => true,
            Some(Handed::Linked(_) | Handed::Stopped(_)) => false,
        }
    }
}

//! A caller of a session takes an image of the object while others go on.

ghost use Rattle.std.specs.Prelude.{◌≡◌, length};
ghost use Rattle.seat_pool.specs.Gathering.{IsHandedOf};
ghost use Rattle.c_sessions.specs.Calls.{HandsBack};
ghost use Rattle.c_sessions.specs.Images.{TakesFrom, place_taken};

use crate::tries::Tries;
use cx_base::Object;
use cx_service::{Checkpointed, Handed, Service};

/// What taking an image returns.
#[derive(Clone, Copy, Debug, PartialEq, Eq, Drop)]
pub enum SessionCheckpoint {
    /// The image is there, at this place.
    At(u64),
    /// Others were in the way in each try, and no image was taken.
    Again,
    /// The caller has reached its step limit.
    Stopped,
    /// The caller has a linked entry that is not answered, or is stopped: nothing was done.
    OutOfTurn,
}

impl SessionCheckpoint {
    /// The image's place, or `before` where none was taken: the session's place after a call that took an image or did not.
    pub(crate) fn place_taken(self, before: u64) -> u64
        ensures { result ≡ place_taken self before }
    {
        match self {
            SessionCheckpoint::At(place) => place,
            _ => before,
        }
    }
}

/// Has the caller `handed` take an image of the object into `into`, in at most the given number of tries. A caller that is stopped or has a linked
/// entry is out of turn, and stays as it is. The result is the caller in its state after the call, and what is answered. `into` is as long as the
/// words of a base of the service, and may have any words where no image was taken.
pub(crate) fn take_image<O: Object>(
    service: &Service<O>,
    handed: Handed,
    into: &mut [u64],
    tries: Tries,
) -> (Handed, SessionCheckpoint)
    requires handed { IsHandedOf service.now handed }
    requires words { length into.old ≡ length service.now.base.words }
    ensures takes { HandsBack service.now result.0 (TakesFrom O.Object service.now into.new tries.count handed result.1 result.0) }
    ensures length { length into.new ≡ length into.old }
{
    match handed {
        Handed::Idle(caller) => match service.checkpoint(caller, into, tries.count) {
            Checkpointed::Taken(back, place) => (Handed::Idle(back), SessionCheckpoint::At(place)),
            Checkpointed::Pending(back) => (Handed::Idle(back), SessionCheckpoint::Again),
            Checkpointed::Halted(stopped) => (Handed::Stopped(stopped), SessionCheckpoint::Stopped),
        },
        other => (other, SessionCheckpoint::OutOfTurn),
    }
}

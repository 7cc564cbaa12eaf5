//! A caller of a session catches up with a place.

ghost use Rattle.std.specs.Prelude.{◌≡◌};
ghost use Rattle.seat_pool.specs.Gathering.{IsHandedOf};
ghost use Rattle.c_sessions.specs.Calls.{HandsBack};
ghost use Rattle.c_sessions.specs.Places.{CatchesUpFrom, place_seen};

use cx_base::Object;
use cx_service::{CaughtUp, Handed, Service};

/// What catching up with a place returns.
#[derive(Clone, Copy, Debug, PartialEq, Eq, Drop)]
pub enum SessionCatchUp {
    /// The session has seen the place.
    Caught,
    /// The current place, given here, is below the place asked for.
    Behind(u64),
    /// The caller has reached its step limit.
    Stopped,
    /// The caller has a linked entry that is not answered, or is stopped: nothing was done.
    OutOfTurn,
}

impl SessionCatchUp {
    /// The session's place after it was to see `place`: the greater of `before` and `place` where it caught up, and `before` where it did not.
    pub(crate) fn place_seen(self, place: u64, before: u64) -> u64
        ensures { result ≡ place_seen self place before }
    {
        match self {
            SessionCatchUp::Caught => before.max(place),
            _ => before,
        }
    }
}

/// Has the caller `handed` catch up with `place`. A caller that is stopped or has a linked entry is out of turn, and stays as it is. The result is
/// the caller in its state after the call, and what is answered.
pub(crate) fn catch_up_idle<O: Object>(
    service: &Service<O>,
    handed: Handed,
    place: u64,
) -> (Handed, SessionCatchUp)
    requires handed { IsHandedOf service.now handed }
    ensures { HandsBack service.now result.0 (CatchesUpFrom service.now place handed result.1 result.0) }
{
    match handed {
        Handed::Idle(caller) => match service.catch_up(caller, place) {
            CaughtUp::Caught(back) => (Handed::Idle(back), SessionCatchUp::Caught),
            CaughtUp::Behind(back, found) => (Handed::Idle(back), SessionCatchUp::Behind(found)),
            CaughtUp::Halted(stopped) => (Handed::Stopped(stopped), SessionCatchUp::Stopped),
        },
        other => (other, SessionCatchUp::OutOfTurn),
    }
}

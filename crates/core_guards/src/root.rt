//! What guards on the root ask of a caller's local state: what it downgraded, and what it won.

ghost use Rattle.std.specs.Prelude.{◌≡◌, ◌<◌, ◌↔◌, Option, Some, IsTrue};
ghost use Rattle.cx_core.specs.RootEvents.{CanPublish, CanRetire, IsAbove, before_in};

use crate::callers::Callers;
use cx_base::root_place;
use cx_core::{HeldDowngraded, Local, WonCode};

/// Whether a replica is downgraded at a place above that of a code.
pub fn is_above(callers: Callers, code: u64, held: Option<HeldDowngraded>) -> bool
    ensures { IsTrue result ↔ IsAbove callers.number code held }
{
    match held {
        None => false,
        Some(held) => root_place(callers.number, code) < held.place,
    }
}

/// Whether a caller may publish the replica that it has downgraded.
pub fn can_publish(callers: Callers, local: &Local) -> bool
    ensures { IsTrue result ↔ CanPublish callers.number local.now }
{
    is_above(callers, local.seen_cur, local.downgraded) && local.won.is_none()
}

/// Whether a caller may retire its win, having raised DUR to this code.
pub fn can_retire(raised: u64, won: Option<WonCode>) -> bool
    ensures { IsTrue result ↔ CanRetire raised won }
{
    match won {
        None => false,
        Some(won) => won.code <= raised,
    }
}

/// The code before a win, 0 where there is none.
pub fn before_in(won: Option<WonCode>) -> u64
    ensures { result ≡ before_in won }
{
    match won {
        None => 0,
        Some(won) => won.before,
    }
}

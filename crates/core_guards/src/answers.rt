//! What a raise asks of a caller's local state, and which tickets it answers.

ghost use Rattle.std.specs.Prelude.{◌≡◌, ◌<◌, ◌↔◌, None, IsTrue};
ghost use Rattle.cx_core.specs.RootEvents.{IsWonCode, ShowsPlace};

use crate::callers::Callers;
use cx_base::{root_place, root_replica};
use cx_core::{HeldShared, Local, WonCode};

/// Whether a code is the one that a caller won with.
pub fn is_won_code(code: u64, won: Option<WonCode>) -> bool
    ensures { IsTrue result ↔ IsWonCode code won }
{
    match won {
        None => false,
        Some(won) => code == won.code,
    }
}

/// Whether the replica that a code names is held shared, and its place word was loaded, which is the code's place.
pub fn shows_place(callers: Callers, code: u64, shared: &Option<HeldShared>) -> bool
    ensures { IsTrue result ↔ ShowsPlace callers.number code shared.now }
{
    match shared {
        None => false,
        Some(held) => {
            held.replica == u64::from(root_replica(callers.number, code))
                && held
                    .loaded
                    .as_slice()
                    .contains(&(0, root_place(callers.number, code)))
        }
    }
}

/// Whether a raise by a code may answer a read whose operation only reads.
pub fn shows_current(callers: Callers, local: &Local, code: u64) -> bool
    ensures { IsTrue result ↔ ((code ≡ local.now.seen_cur) × IsTrue local.now.fresh × ShowsPlace callers.number code local.now.shared) }
{
    code == local.seen_cur && local.fresh && shows_place(callers, code, &local.shared)
}

/// Whether a raise to a place answers the entry at a ticket.
pub fn is_below(ticket: u64, place: u64) -> bool
    ensures { IsTrue result ↔ (ticket < place) }
{
    place > ticket
}

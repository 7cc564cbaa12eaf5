//! A replica is made ready to be published: whichever nobody holds is taken, brought up to the caller's entry, and made durable.

ghost use Rattle.std.specs.Prelude.{◌*◌, ◌+◌, ◌<◌, ◌≡◌, ◌≤◌, IfOk, MatchResult, OnOk};
ghost use Rattle.table_invariant.specs.Seats.{IsAtLimit};
ghost use Rattle.table_invariant.specs.Steps.{Halts};
ghost use Rattle.cx_attempts.specs.Bringing.{CountsIn};
ghost use Rattle.cx_attempts.specs.Preparing.{TriesPrepare};
ghost use Rattle.cx_attempts.specs.Attempts.{HaltsAttempt, KeepsSeatIn, MayAttempt, RaisesFront, unchanged_by_prepare};
ghost use Rattle.cx_attempts.specs.Taking.{HaltsTaking, MayTake, MayTry, TakesAny, TriesOne, unchanged_by_tries};

use crate::facts::table_is_running;
use crate::renewal::keep;
use crate::replay::bring_up;
use crate::scratch::Scratch;
use cx_base::{Halt, Object, OpWords};
use cx_table::{CallerSeat, Downgraded, Exclusive, Shared};
use replica::begin;
use strong_trylock::{ExclusiveTried, downgrade, try_exclusive};

/// Takes a replica, whichever nobody holds, applies the queue's entries on it up to a ticket, makes it durable, and turns the
/// right into a shared one. Where the replica is behind the ring, the current one is copied over it first. The reply to the caller's last
/// entry there is put into the caller's buffer. It returns `None` where each replica was refused, or the current one was, or where the replica
/// is behind the ring after the copy too. `Halt` comes only where the seat's steps equal its limit.
pub fn prepare<O: Object>(
    shared: &Shared<O>,
    seat: &mut CallerSeat,
    ticket: u64,
    scratch: &mut Scratch,
    reply: &mut OpWords,
) -> Result<Option<Downgraded>, Halt>
    requires ready { MayAttempt shared.now ticket seat.old }
    ensures allowed { OnOk result (¬ IsAtLimit seat.old.known.local) }
    ensures prepared { MatchResult result (TriesPrepare O.Object shared.now ticket reply.new seat.old seat.new) (λ _. HaltsAttempt seat.old seat.new) }
    ensures counted { IfOk result (CountsIn scratch.old.taken seat.old scratch.new.taken seat.new) }
    ensures attempts { RaisesFront shared.now unchanged_by_prepare seat.old seat.new }
{
    let Some(held) = take_any(shared, seat)? else {
        return Ok(None);
    };
    begin(shared, seat, &held)?;
    let Some(held) = keep(shared, seat, held, ticket)? else {
        return Ok(None);
    };
    bring_up(shared, seat, &held, ticket, scratch, reply)?;
    let held = downgrade(shared, seat, held)?;
    Ok(Some(held))
}

/// Tries the replicas exclusively, one step each, from the caller's first on, rising with wrap-around, so that callers begin
/// apart. It gives the first that nobody held, or `None` where each was refused in turn; then a refusal is met. `Halt` comes
/// only where the seat's steps equal its limit, and comes where they did at first.
pub fn take_any<O: Object>(
    shared: &Shared<O>,
    seat: &mut CallerSeat,
) -> Result<Option<Exclusive>, Halt>
    requires ready { MayTake shared.now seat.old }
    ensures allowed { OnOk result (¬ IsAtLimit seat.old.known.local) }
    ensures taken { MatchResult result (TakesAny O.Object shared.now seat.old seat.new) (λ _. HaltsTaking seat.old seat.new) }
    ensures keeps { KeepsSeatIn shared.now unchanged_by_tries (2 * shared.now.callers) seat.old seat.new }
{
    let count = 2 * shared.callers();
    let first = 2 * seat.number();
    for tried in 0..count {
        let r = wrapped(first + tried, count);
        if let Some(held) = try_one(shared, seat, r)? {
            return Ok(Some(held));
        }
    }
    Ok(None)
}

/// A number below twice a count, less the count where it is not below that.
fn wrapped(at: u32, count: u32) -> u32
    requires { at < 2 * count }
    ensures below { at < count → result ≡ at }
    ensures above { count ≤ at → result + count ≡ at }
{
    if at < count { at } else { at - count }
}

/// Tries a replica exclusively.
fn try_one<O: Object>(
    shared: &Shared<O>,
    seat: &mut CallerSeat,
    r: u32,
) -> Result<Option<Exclusive>, Halt>
    requires may { MayTry shared.now r seat.old }
    ensures allowed { OnOk result (¬ IsAtLimit seat.old.known.local) }
    ensures tried { MatchResult result (TriesOne O.Object shared.now r seat.old seat.new) (λ _. Halts shared.now seat.old seat.new) }
    ensures keeps { KeepsSeatIn shared.now unchanged_by_tries 1 seat.old seat.new }
{
    table_is_running(shared);
    match try_exclusive(shared, seat, r)? {
        ExclusiveTried::Got(held) => Ok(Some(held)),
        ExclusiveTried::Held { found: _ } => Ok(None),
    }
}

//! A caller takes replicas, one after another, brings each up to a ticket, and gives it up again.

ghost use Rattle.std.specs.Prelude.{◌≡◌, ◌*◌, ◌<◌, IfOk, IfSome, OnOk, Some, None, Ok};
ghost use Rattle.table_invariant.specs.Running.{IsSeatOf};
ghost use Rattle.replica.specs.Held.{IsHeld};
ghost use Rattle.replica.specs.Laws.{IsTaken};
ghost use Rattle.replica.specs.Replays.{IsHeldImage};
ghost use Rattle.table_tests.specs.Turns.{IsFlushedImage, TakesIt};
ghost use Rattle.strong_trylock.specs.Held.{all_rights, no_rights};

use cx_attempts::{Scratch, replay_to};
use cx_base::{Halt, Object};
use cx_core::Protection;
use cx_table::{CallerSeat, Downgraded, Exclusive, Shared};
use mutation_queue::{Protected, protect, unprotect};
use replica::{begin, flush};
use strong_trylock::{ExclusiveTried, downgrade, release_downgraded, try_exclusive};

/// What a caller's turns did, in each of which it tries one replica: how many it took (`taken`), how many others held (`refused`), and how many
/// entries it applied in all (`replayed`). `right` is whether each replica taken was then the image up to the ticket, or was later already.
#[derive(Drop)]
pub(crate) struct RaisesFront {
    pub(crate) taken: u64,
    pub(crate) refused: u64,
    pub(crate) replayed: u64,
    pub(crate) right: bool,
}

/// Tries to take replica `r` exclusively; `None` where another caller holds it, and then this one has no right.
pub(crate) fn try_one<O: Object>(
    shared: &Shared<O>,
    seat: &mut CallerSeat,
    r: u32,
) -> Result<Option<Exclusive>, Halt>
    requires seat { IsSeatOf shared.now seat.old }
    requires free { all_rights seat.old ≡ no_rights }
    requires few { r < 2 * shared.now.callers }
    ensures taken { IfOk result (λ o. IfSome o (λ held. TakesIt (O.line_count shared.now.object) shared.now (O.lawful shared.now.object) (O.step shared.now.object) seat.new held)) }
    ensures of { IfOk result (λ o. IfSome o (λ held. held.replica ≡ r)) }
    ensures refused { result ≡ Ok None → all_rights seat.new ≡ no_rights }
    ensures seat { IsSeatOf shared.now seat.new }
{
    // a running table is within its limits
    let _lines = shared.lines();
    match try_exclusive(shared, seat, r)? {
        ExclusiveTried::Got(held) => Ok(Some(held)),
        ExclusiveTried::Held { found: _ } => Ok(None),
    }
}

// Brings the replica `held` up to a ticket: where its place is at most the ticket, the entries are read under a protection, which is released again.
// Nobody collects cells here, so that no caller is behind, and none has a protection before: one that is, or has, stops as if it was halted.
fn replay_protected<O: Object>(
    shared: &Shared<O>,
    seat: &mut CallerSeat,
    held: &Exclusive,
    ticket: u64,
    scratch: &mut Scratch,
) -> Result<(), Halt>
    requires held { IsHeld (O.line_count shared.now.object) shared.now (O.lawful shared.now.object) (O.step shared.now.object) seat.old held.now }
    requires image { IsHeldImage (O.line_count shared.now.object) (O.lawful shared.now.object) shared.now.base (O.step shared.now.object) seat.old.known }
    requires linked { ticket < seat.old.known.local.front }
    ensures held { OnOk result (IsHeld (O.line_count shared.now.object) shared.now (O.lawful shared.now.object) (O.step shared.now.object) seat.new held.now) }
    ensures image { OnOk result (IsHeldImage (O.line_count shared.now.object) (O.lawful shared.now.object) shared.now.base (O.step shared.now.object) seat.new.known) }
    ensures rights { OnOk result (all_rights seat.new ≡ all_rights seat.old) }
    ensures seat { IsSeatOf shared.now seat.new }
{
    // tickets are few
    let _front = seat.front();
    let place = seat.noted_place();
    if place > ticket {
        return Ok(());
    }
    let Protection::Unprotected = seat.protection() else {
        return Err(Halt);
    };
    let Protected::Kept = protect(shared, seat, place)? else {
        return Err(Halt);
    };
    replay_to(shared, seat, held, ticket, scratch, &mut [0; 144])?;
    unprotect(shared, seat)?;
    Ok(())
}

/// The places of a replica before a caller brought it up and after.
pub(crate) type Places = (u64, u64);

// Brings the replica `held`, which was just taken, up to a ticket, and makes it durable. Returns its places before and after. A caller that does not
// know that the ticket is linked stops as if it was halted.
fn bring_up<O: Object>(
    shared: &Shared<O>,
    seat: &mut CallerSeat,
    held: &Exclusive,
    ticket: u64,
    scratch: &mut Scratch,
) -> Result<Places, Halt>
    requires taken { IsTaken (O.line_count shared.now.object) shared.now (O.lawful shared.now.object) (O.step shared.now.object) seat.old held.now }
    ensures up { OnOk result (IsFlushedImage (O.line_count shared.now.object) shared.now (O.lawful shared.now.object) (O.step shared.now.object) seat.new held.now) }
    ensures rights { OnOk result (all_rights seat.new ≡ all_rights seat.old) }
    ensures seat { IsSeatOf shared.now seat.new }
{
    let before = begin(shared, seat, held)?;
    if ticket >= seat.front() {
        return Err(Halt);
    }
    replay_protected(shared, seat, held, ticket, scratch)?;
    let after = seat.noted_place();
    flush(shared, seat, held)?;
    Ok((before, after))
}

// Brings the replica `held`, which was just taken, up to a ticket, makes it durable, and gives it up. Returns its places before and after.
fn renew<O: Object>(
    shared: &Shared<O>,
    seat: &mut CallerSeat,
    held: Exclusive,
    ticket: u64,
    scratch: &mut Scratch,
) -> Result<Places, Halt>
    requires taken { IsTaken (O.line_count shared.now.object) shared.now (O.lawful shared.now.object) (O.step shared.now.object) seat.old held }
    requires free { all_rights seat.old ≡ record no_rights { exclusive = Some held.replica } }
    ensures free { OnOk result (all_rights seat.new ≡ no_rights) }
    ensures seat { IsSeatOf shared.now seat.new }
{
    let places = bring_up(shared, seat, &held, ticket, scratch)?;
    let token = downgrade(shared, seat, held)?;
    release_downgraded(shared, seat, token)?;
    Ok(places)
}

/// Takes replica `r`, applies the entries up to a ticket to it, makes it durable, and gives it up. Returns its places before and after; `None` where
/// another caller holds it. The caller has no right before and none after.
pub(crate) fn turn<O: Object>(
    shared: &Shared<O>,
    seat: &mut CallerSeat,
    r: u32,
    ticket: u64,
    scratch: &mut Scratch,
) -> Result<Option<Places>, Halt>
    requires seat { IsSeatOf shared.now seat.old }
    requires free { all_rights seat.old ≡ no_rights }
    requires few { r < 2 * shared.now.callers }
    ensures free { OnOk result (all_rights seat.new ≡ no_rights) }
    ensures seat { IsSeatOf shared.now seat.new }
{
    match try_one(shared, seat, r)? {
        Some(held) => Ok(Some(renew(shared, seat, held, ticket, scratch)?)),
        None => Ok(None),
    }
}

/// Calls `turn` `count` times, on one replica after another from the first of the caller's own two on, and in a circle. Returns the sums.
pub(crate) fn make_attempts<O: Object>(
    shared: &Shared<O>,
    seat: &mut CallerSeat,
    ticket: u64,
    count: u64,
    scratch: &mut Scratch,
) -> Result<RaisesFront, Halt>
    requires seat { IsSeatOf shared.now seat.old }
    requires free { all_rights seat.old ≡ no_rights }
    ensures seat { IsSeatOf shared.now seat.new }
{
    let replicas = 2 * shared.callers();
    let first = 2 * seat.number();
    let mut done = RaisesFront {
        taken: 0,
        refused: 0,
        replayed: 0,
        right: true,
    };
    for k in 0..count {
        let r = (u64::from(first) + k % u64::from(replicas)) % u64::from(replicas);
        let places = turn(shared, seat, r as u32, ticket, scratch)?;
        done = noted(done, places, ticket);
    }
    Ok(done)
}

// The sums `done` with one more turn, which gave `places`. The place after it is right where it is the one above the ticket, or was above the ticket
// before and is the same.
fn noted(mut done: RaisesFront, places: Option<Places>, ticket: u64) -> RaisesFront {
    match places {
        None => done.refused = done.refused.saturating_add(1),
        Some((before, after)) => {
            done.taken = done.taken.saturating_add(1);
            done.replayed = done.replayed.saturating_add(after.saturating_sub(before));
            done.right = done.right && after == before.max(ticket.saturating_add(1));
        }
    }
    done
}

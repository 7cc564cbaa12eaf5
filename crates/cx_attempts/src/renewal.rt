//! A replica that was just taken is kept where the entries from its place on may be read, and else the current one is copied over it, by the
//! lines alone that changed where the ring of gaps tells them.
//! `Halt` comes only where no access is left.

ghost use Rattle.std.specs.Prelude.{◌<◌, ◌≡◌, MatchResult};
ghost use Rattle.cx_core.specs.declared.local.Protection.TheVariants.{Unprotected};
ghost use Rattle.table_invariant.specs.Running.{IsSeatOf};
ghost use Rattle.table_invariant.specs.Seats.{IsAtLimit};
ghost use Rattle.cx_attempts.specs.Keeping.{Guards, HoldsSource, IsAtImage, MayCopyCurrent, MayGiveUp, MayGuard, MayKeep, SeesCurrentReplica, TriesKeep};
ghost use Rattle.cx_attempts.specs.Attempts.{HaltsHolding, HaltsMeeting, IsAtRest, KeepsSeatIn, RaisesFront, RaisesFrontIn, unchanged_by_attempt, unguarded};
ghost use Rattle.mutation_queue.specs.Protections.{except_protected};
ghost use Rattle.cx_base.specs.Codes.{root_place_of};
ghost use Rattle.replica.specs.Copies.{MayList};
ghost use Rattle.replica.specs.Replays.{StoresNone};
ghost use Rattle.table_invariant.specs.Steps.{Halts};

use crate::current::take_current;
use crate::facts::{refusals_fit, tickets_are_few};
use cx_base::{Halt, Object, root_place};
use cx_core::Protection;
use cx_table::{CallerSeat, Exclusive, Shared, SharedHold};
use mutation_queue::{Protected, protect};
use replica::{flush, renew_listed};
use strong_trylock::release;

/// Keeps a replica held exclusively for the entries up to a ticket: where its place is at most the ticket, that place is protected, and
/// where it is behind the ring, the current replica is copied over it and its place is protected then. `None` comes where the current
/// replica is held exclusively or is at another place, or where it is behind the ring by then. Then a refusal is met, and the caller is
/// at rest.
pub fn keep<O: Object>(
    shared: &Shared<O>,
    seat: &mut CallerSeat,
    held: Exclusive,
    ticket: u64,
) -> Result<Option<Exclusive>, Halt>
    requires held { IsAtImage O.Object shared.now seat.old held }
    requires ready { MayKeep ticket seat.old }
    requires unstored { StoresNone seat.old.known.accesses }
    ensures kept { MatchResult result (TriesKeep O.Object shared.now ticket seat.old seat.new) (λ _. HaltsHolding held.replica seat.old seat.new) }
    ensures attempts { RaisesFront shared.now unchanged_by_attempt seat.old seat.new }
{
    if guard(shared, seat, ticket)? {
        return Ok(Some(held));
    }
    copy_current(shared, seat, held, ticket)
}

/// Protects the place of the replica held exclusively, where it is at most a ticket. It is false where that place is behind the ring.
fn guard<O: Object>(shared: &Shared<O>, seat: &mut CallerSeat, ticket: u64) -> Result<bool, Halt>
    requires may { MayGuard shared.now ticket seat.old }
    ensures guarded { MatchResult result (Guards shared.now.callers ticket seat.old seat.new) (λ _. HaltsMeeting seat.old seat.new) }
    ensures keeps { KeepsSeatIn shared.now except_protected 3 seat.old seat.new }
{
    tickets_are_few(seat);
    refusals_fit(seat);
    let place = seat.noted_place();
    if ticket < place {
        return Ok(true);
    }
    match protect(shared, seat, place)? {
        Protected::Kept => Ok(true),
        Protected::Behind { low: _ } => Ok(false),
    }
}

/// Copies the current replica over one held exclusively that was found behind the ring, and keeps that one for the entries up to a ticket.
fn copy_current<O: Object>(
    shared: &Shared<O>,
    seat: &mut CallerSeat,
    held: Exclusive,
    ticket: u64,
) -> Result<Option<Exclusive>, Halt>
    requires may { MayCopyCurrent O.Object shared.now ticket seat.old held }
    ensures kept { MatchResult result (TriesKeep O.Object shared.now ticket seat.old seat.new) (λ _. HaltsHolding held.replica seat.old seat.new) }
    ensures attempts { RaisesFront shared.now unchanged_by_attempt seat.old seat.new }
{
    refusals_fit(seat);
    load_current(shared, seat, &held)?;
    match take_current(shared, seat)? {
        Some(source) => copy_and_keep(shared, seat, held, source, ticket),
        None => {
            give_up(shared, seat, held)?;
            Ok(None)
        }
    }
}

/// Loads CUR, beside a replica held exclusively.
fn load_current<O: Object>(
    shared: &Shared<O>,
    seat: &mut CallerSeat,
    held: &Exclusive,
) -> Result<(), Halt>
    requires held { IsAtImage O.Object shared.now seat.old held.now }
    ensures seen { MatchResult result (λ _. SeesCurrentReplica O.Object shared.now seat.old seat.new held.now) (λ _. Halts shared.now seat.old seat.new) }
    ensures attempts { RaisesFrontIn shared.now unchanged_by_attempt 1 seat.old seat.new }
{
    shared.load_cur(seat)?;
    Ok(())
}

/// Copies a replica held shared, at the place of the code last loaded from CUR, over one held exclusively, and keeps that one for the
/// entries up to a ticket.
fn copy_and_keep<O: Object>(
    shared: &Shared<O>,
    seat: &mut CallerSeat,
    held: Exclusive,
    source: SharedHold,
    ticket: u64,
) -> Result<Option<Exclusive>, Halt>
    requires source { HoldsSource O.Object shared.now seat.old held source }
    requires listed { MayList (root_place_of shared.now.callers seat.old.known.local.seen_cur) seat.old }
    requires linked { ticket < seat.old.known.local.front }
    ensures kept { MatchResult result (TriesKeep O.Object shared.now ticket seat.old seat.new) (λ _. HaltsHolding held.replica seat.old seat.new) }
    ensures attempts { RaisesFront shared.now unchanged_by_attempt seat.old seat.new }
{
    refusals_fit(seat);
    let to = root_place(shared.callers(), seat.seen_cur());
    renew_listed(shared, seat, &held, source, to)?;
    if guard(shared, seat, ticket)? {
        return Ok(Some(held));
    }
    give_up(shared, seat, held)?;
    Ok(None)
}

/// Gives a replica up that is the image after its place, once its words are durable.
fn give_up<O: Object>(
    shared: &Shared<O>,
    seat: &mut CallerSeat,
    held: Exclusive,
) -> Result<(), Halt>
    requires may { MayGiveUp O.Object shared.now seat.old held }
    ensures ended { MatchResult result (λ _. IsAtRest seat.new.known.local) (λ _. HaltsHolding held.replica seat.old seat.new) }
    ensures met { seat.new.known.local.met ≡ seat.old.known.local.met }
    ensures attempts { RaisesFront shared.now unchanged_by_attempt seat.old seat.new }
{
    flush(shared, seat, &held)?;
    release(shared, seat, held)?;
    Ok(())
}

/// Removes the protection, where one stands. `Halt` comes only where the seat's steps equal its limit.
pub fn unguard<O: Object>(shared: &Shared<O>, seat: &mut CallerSeat) -> Result<(), Halt>
    requires seat { IsSeatOf shared.now seat.old }
    ensures removed { MatchResult result (λ _. seat.new.known.local.protection ≡ Unprotected) (λ _. IsAtLimit seat.new.known.local) }
    ensures keeps { KeepsSeatIn shared.now unguarded 1 seat.old seat.new }
{
    match seat.protection() {
        Protection::Unprotected => Ok(()),
        Protection::Stated(_) | Protection::Confirmed(_) => shared.unprotect(seat),
    }
}

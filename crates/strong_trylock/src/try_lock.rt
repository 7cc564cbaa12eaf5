//! Tries of a replica, of which neither waits, and a refused one leaves no right; and releases of rights on replicas. `Halt` comes exactly where the
//! seat's steps equal its limit, and then nothing changes: the right stands, and its token is gone, since the caller makes no further step.

ghost use Rattle.std.specs.Prelude.{IfOk, OnErr, OnOk, ◌≡◌, None};
ghost use Rattle.cx_core.specs.declared.kinds.Kind.TheVariants.{TryExclusive, TryShared, BackOff, ReleaseExclusive};
ghost use Rattle.table_invariant.specs.Stores.{FittingIn, IsReplayedIn, IsReplayedToPlaceIn};
ghost use Rattle.cx_table.specs.Calls.{MakesFittingStep, MayStep, MakesStep};
ghost use Rattle.strong_trylock.specs.Tries.{HaltsShared, TriesExclusive, TriesShared};
ghost use Rattle.cx_core.specs.LockEvents.{IsClean};
ghost use Rattle.cx_table.specs.Tokens.{IsDowngradedOf, IsExclusiveOf, IsSharedOf};
ghost use Rattle.strong_trylock.specs.Ends.{Downgrades, Ends, except_downgraded};
ghost use Rattle.strong_trylock.specs.Held.{HasRight, all_rights};

use cx_base::{Halt, Object};
use cx_table::{CallerSeat, Downgraded, Exclusive, Shared, SharedHold, SharedRight};

/// The outcome of a try to take a replica exclusively.
#[derive(Debug, Drop)]
pub enum ExclusiveTried {
    /// The replica is the caller's.
    Got(Exclusive),
    /// Others have rights on it: the lock word found, which is not 0.
    Held { found: u64 },
}

/// The outcome of a try to take a replica shared.
#[derive(Debug, Drop)]
pub enum SharedTried {
    /// The caller has a shared right on the replica.
    Got(SharedHold),
    /// Another holds it exclusively: the lock word found, which is 2^32 or more.
    Held { found: u64 },
}

/// Tries to take a replica exclusively, in one step. `Held` comes exactly where the lock word found is not 0, and gives that
/// word. `Halt` comes exactly where the seat's steps equal its limit, and then nothing changes.
pub fn try_exclusive<O: Object>(
    shared: &Shared<O>,
    seat: &mut CallerSeat,
    r: u32,
) -> Result<ExclusiveTried, Halt>
    requires { MayStep O.Object shared.now (TryExclusive r) seat.old }
    ensures { MakesFittingStep O.Object shared.now seat.old seat.new result (λ tried. TriesExclusive shared.now O.step O.only_reads r seat.old seat.new tried) }
{
    let (found, token) = shared.try_exclusive(seat, r as u64)?;
    match token {
        Some(held) => Ok(ExclusiveTried::Got(held)),
        None => Ok(ExclusiveTried::Held { found }),
    }
}

/// Tries to take a replica shared. `Held` comes exactly where the lock word found has the exclusive mark, and gives that word;
/// then a second step took the passer's mark back. `Halt` comes exactly where a further step is to be made and the seat's
/// steps equal its limit. Before the first step nothing changes; before the second the passer's mark stands, and the
/// caller, which makes no further step, cannot take it back.
pub fn try_shared<O: Object>(
    shared: &Shared<O>,
    seat: &mut CallerSeat,
    r: u32,
) -> Result<SharedTried, Halt>
    requires { MayStep O.Object shared.now (TryShared r) seat.old }
    ensures tried { IfOk result (λ tried. TriesShared shared.now O.step O.only_reads r seat.old seat.new tried) }
    ensures fits { OnOk result (FittingIn O.Object shared.now seat.new.known) }
    ensures halted { OnErr result (HaltsShared shared.now O.step O.only_reads r seat.old seat.new) }
{
    let (found, token) = shared.try_shared(seat, r as u64)?;
    match token {
        Ok(held) => Ok(SharedTried::Got(held)),
        Err(mark) => {
            shared.back_off(seat, SharedRight::Passer(mark))?;
            Ok(SharedTried::Held { found })
        }
    }
}

/// Turns an exclusive right into a shared one, in one step. No word of the replica may be dirty, and whatever fits what is
/// noted of it is the image after the place noted. `Halt` comes only where the limit leaves no step.
pub fn downgrade<O: Object>(
    shared: &Shared<O>,
    seat: &mut CallerSeat,
    held: Exclusive,
) -> Result<Downgraded, Halt>
    requires held { HasRight IsExclusiveOf shared.now seat.old held }
    requires clean { IsClean shared.now.callers held.replica seat.old.known.local }
    requires replayed { IsReplayedToPlaceIn O.Object shared.now seat.old.known }
    ensures { MakesStep shared.now seat.old seat.new result (λ token. Downgrades shared.now O.step O.only_reads held.replica seat.old seat.new token) }
{
    let (_found, token) = shared.downgrade(seat, held)?;
    Ok(token)
}

/// Releases an exclusive right, in one step. No word of the replica may be dirty, and whatever fits what is noted of it is the
/// image after its place. `Halt` comes only where the limit leaves no step.
pub fn release<O: Object>(
    shared: &Shared<O>,
    seat: &mut CallerSeat,
    held: Exclusive,
) -> Result<(), Halt>
    requires held { HasRight IsExclusiveOf shared.now seat.old held }
    requires clean { IsClean shared.now.callers held.replica seat.old.known.local }
    requires replayed { IsReplayedIn O.Object shared.now seat.old.known }
    ensures { MakesStep shared.now seat.old seat.new result (λ _. Ends shared.now O.step O.only_reads (ReleaseExclusive held.replica) (record (all_rights seat.old) { exclusive = None }) seat.old seat.new) }
{
    shared.release_exclusive(seat, held)?;
    Ok(())
}

/// Releases a shared right, in one step. `Halt` comes only where the limit leaves no step.
pub fn release_shared<O: Object>(
    shared: &Shared<O>,
    seat: &mut CallerSeat,
    held: SharedHold,
) -> Result<(), Halt>
    requires held { HasRight IsSharedOf shared.now seat.old held }
    ensures { MakesStep shared.now seat.old seat.new result (λ _. Ends shared.now O.step O.only_reads (BackOff held.replica) (record (all_rights seat.old) { shared = None }) seat.old seat.new) }
{
    shared.back_off(seat, SharedRight::Hold(held))?;
    Ok(())
}

/// Releases a downgraded right, in one step. `Halt` comes only where the limit leaves no step.
pub fn release_downgraded<O: Object>(
    shared: &Shared<O>,
    seat: &mut CallerSeat,
    held: Downgraded,
) -> Result<(), Halt>
    requires held { HasRight IsDowngradedOf shared.now seat.old held }
    ensures step { MakesStep shared.now seat.old seat.new result (λ _. Ends shared.now O.step O.only_reads (BackOff held.replica) (record (all_rights seat.old) { downgraded = None }) seat.old seat.new) }
    ensures rest { OnOk result (except_downgraded seat.new ≡ except_downgraded seat.old) }
{
    shared.back_off(seat, SharedRight::Downgraded(held))?;
    Ok(())
}

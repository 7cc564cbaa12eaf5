//! An attempt by which a caller takes the image of the current replica, while others go on. `Halt` comes only where no access is left.

ghost use Rattle.std.specs.Prelude.{◌≡◌, IfOk, IsTrue, MatchResult, OnErr, length};
ghost use Rattle.table_invariant.specs.Seats.{IsAtLimit};
ghost use Rattle.table_invariant.specs.Steps.{Halts};
ghost use Rattle.cx_attempts.specs.Checkpointing.{HaltsImage, IsAtCurrent, LoadsImage, LoadsSome, RaisesCurrent, TakesCheckpoint, AttemptsCheckpoint, unchanged_by_checkpoint};
ghost use Rattle.cx_attempts.specs.Answering.{MayLook, MayRaiseCurrent};
ghost use Rattle.cx_attempts.specs.Attempts.{RaisesCur, KeepsCur};
ghost use Rattle.replica.specs.Held.{IsHeldSharedIn};

use crate::current::take_current;
use cx_base::{Halt, Object};
use cx_table::{CallerSeat, Shared, SharedHold};
use publish::make_durable;
use replica::HeldWords;

/// One attempt of a caller whose entries are all answered. CUR is loaded, all words of its replica are loaded under a shared right, DUR is raised by
/// its code, and the right is given back. It gives the place of the image. `None` comes where another holds the replica exclusively or it is at
/// another place by then. `Halt` comes only where the seat's steps equal its limit.
pub fn try_checkpoint_once<O: Object>(
    shared: &Shared<O>,
    seat: &mut CallerSeat,
    into: &mut [u64],
) -> Result<Option<u64>, Halt>
    requires ready { MayLook shared.now seat.old }
    requires words { length into.old ≡ length shared.now.base.words }
    ensures attempted { IfOk result (AttemptsCheckpoint O.Object shared.now into.new seat.old seat.new) }
    ensures halted { OnErr result (HaltsImage seat.old seat.new) }
    ensures attempts { RaisesCur shared.now unchanged_by_checkpoint seat.old seat.new }
    ensures length { length into.new ≡ length into.old }
{
    shared.load_cur(seat)?;
    match take_current(shared, seat)? {
        Some(hold) => Ok(Some(take_image(shared, seat, hold, into)?)),
        None => Ok(None),
    }
}

/// Takes the image of the current replica, which is held shared at its place, and gives the right back.
fn take_image<O: Object>(
    shared: &Shared<O>,
    seat: &mut CallerSeat,
    hold: SharedHold,
    into: &mut [u64],
) -> Result<u64, Halt>
    requires current { IsAtCurrent O.Object shared.now seat.old hold }
    requires seen { IsTrue seat.old.known.times.seen }
    requires words { length into.old ≡ length shared.now.base.words }
    ensures taken { MatchResult result (λ place. TakesCheckpoint O.Object shared.now seat.old.known.times.loaded into.new place seat.old seat.new) (λ _. HaltsImage seat.old seat.new) }
    ensures attempts { KeepsCur shared.now unchanged_by_checkpoint seat.old seat.new }
    ensures length { length into.new ≡ length into.old }
{
    load_image(shared, seat, &hold, into)?;
    let code = seat.seen_cur();
    raise_current(shared, seat, code)?;
    shared.release_with_image(seat, hold, into)?;
    Ok(into[0])
}

/// Raises DUR by the code last loaded from CUR, of a caller whose entries are all answered.
fn raise_current<O: Object>(
    shared: &Shared<O>,
    seat: &mut CallerSeat,
    code: u64,
) -> Result<(), Halt>
    requires may { MayRaiseCurrent shared.now code seat.old }
    ensures raised { MatchResult result (λ _. RaisesCurrent O.Object shared.now code seat.old seat.new) (λ _. Halts shared.now seat.old seat.new) }
{
    make_durable(shared, seat, code, None)
}

/// Loads all words of a replica that is held shared, the place by itself and the others by one call where the limit leaves enough steps.
fn load_image<O: Object>(
    shared: &Shared<O>,
    seat: &mut CallerSeat,
    hold: &SharedHold,
    into: &mut [u64],
) -> Result<(), Halt>
    requires held { IsHeldSharedIn O.Object shared.now seat.old hold.now }
    requires words { length into.old ≡ length shared.now.base.words }
    ensures loaded { MatchResult result (λ _. LoadsImage O.Object shared.now hold.now into.new seat.old seat.new) (λ _. LoadsSome O.Object shared.now hold.now seat.old seat.new × IsAtLimit seat.new.known.local) }
    ensures length { length into.new ≡ length into.old }
{
    let start = shared.start_shared(seat, hold);
    into[0] = shared.load_shared(seat, hold, start, 0)?;
    shared.load_shared_words(seat, hold, start, 1, &mut into[1..])
}

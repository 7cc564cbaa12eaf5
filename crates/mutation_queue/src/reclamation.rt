//! Tickets are protected while their entries are read, and cells that nobody needs are opened, so that they can be written again.

ghost use Rattle.std.specs.Prelude.{◌≡◌, ◌≤◌, OnErr, OnOk, ◌+◌, ◌^◌, ◌<◌, Some};
ghost use Rattle.cx_core.specs.RingEvents.{IsProtected};
ghost use Rattle.cx_table.specs.Running.{IsSeatOf};
ghost use Rattle.cx_table.specs.Seats.{IsAtLimit};
ghost use Rattle.mutation_queue.specs.Leaves.{KeepsSeatPart};
ghost use Rattle.mutation_queue.specs.Protections.{EndsProtecting, MayProtect, except_protected, unprotected};
ghost use Rattle.cx_core.specs.declared.local.SeenNeed.{SeenNeed};
ghost use Rattle.mutation_queue.specs.Collecting.{EndsCollecting, EndsScanning, MayCollect, except_collected};

use cx_base::{Halt, Object};
use cx_table::{CallerSeat, Shared};

/// The outcome of protecting tickets.
#[derive(Clone, Copy, Debug, PartialEq, Eq, Drop)]
pub enum Protected {
    /// No cell of a ticket from the place on is written again before the protection is released.
    Kept,
    /// The greatest LOW found is above the place, and no protection stands.
    Behind { low: u64 },
}

/// Protects the tickets from a place on: the place is stated, and LOW, below which tickets are closed, is loaded. Where LOW is at
/// most the place, the protection is kept, in two steps; where LOW is above it, the protection is released again, in a third. `Halt`
/// comes exactly where a further step is to be made and the seat's steps equal its limit: the protection is then not confirmed.
pub fn protect<O: Object>(
    shared: &Shared<O>,
    seat: &mut CallerSeat,
    place: u64,
) -> Result<Protected, Halt>
    requires may { MayProtect shared.now place seat.old }
    ensures allowed { OnOk result (¬ IsAtLimit seat.old.known.local) }
    ensures protected { EndsProtecting shared.now.callers place seat.old seat.new result }
    ensures low { seat.old.known.local.seen_low ≤ seat.new.known.local.seen_low }
    ensures leaves { KeepsSeatPart shared.now except_protected 3 seat.old seat.new }
{
    shared.protect(seat, place)?;
    let low = shared.confirm(seat)?;
    if low > place {
        shared.unprotect(seat)?;
        return Ok(Protected::Behind { low });
    }
    Ok(Protected::Kept)
}

/// Releases the protection that stands, in one step. `Halt` comes exactly where the seat's steps equal its limit.
pub fn unprotect<O: Object>(shared: &Shared<O>, seat: &mut CallerSeat) -> Result<(), Halt>
    requires seat { IsSeatOf shared.now seat.old }
    requires stands { IsProtected seat.old.known.local.protection }
    ensures allowed { OnOk result (¬ IsAtLimit seat.old.known.local) }
    ensures given_up { OnOk result (seat.new ≡ unprotected seat.old) }
    ensures halted { OnErr result (IsAtLimit seat.new.known.local) }
    ensures leaves { KeepsSeatPart shared.now except_protected 1 seat.old seat.new }
{
    shared.unprotect(seat)
}

/// What collecting cells found.
#[derive(Clone, Copy, Debug, PartialEq, Eq, Drop)]
pub struct Collected {
    /// The ticket below which cells may be written again.
    pub free: u64,
    /// The least caller that had the least need, and that need, which is 2^64 - 1 where no caller needs any.
    pub holder: u32,
    pub need: u64,
}

/// Collects cells: LOW is raised to a target, by which the tickets below it are closed, the need of each caller is scanned, and
/// FREE is raised to the least of these and the target; cells with a ticket below FREE may then be written again. It makes as
/// many steps as there are callers and three more. `Halt` comes exactly where a further step is to be made and the seat's steps
/// equal its limit: a need is then not scanned, FREE not raised, or not loaded.
pub fn collect<O: Object>(
    shared: &Shared<O>,
    seat: &mut CallerSeat,
    target: u64,
) -> Result<Collected, Halt>
    requires may { MayCollect shared.now target seat.old }
    ensures allowed { OnOk result (¬ IsAtLimit seat.old.known.local) }
    ensures collected { EndsCollecting shared.now.callers target seat.old seat.new result }
    ensures leaves { KeepsSeatPart shared.now except_collected (shared.now.callers + 3) seat.old seat.new }
{
    scan_needs(shared, seat, target)?;
    shared.open_free(seat)?;
    let free = shared.load_free(seat)?;
    Ok(found_with(seat, free))
}

/// Raises LOW to a target and scans what each caller needs, one after another.
fn scan_needs<O: Object>(shared: &Shared<O>, seat: &mut CallerSeat, target: u64) -> Result<(), Halt>
    requires may { MayCollect shared.now target seat.old }
    ensures allowed { OnOk result (¬ IsAtLimit seat.old.known.local) }
    ensures scans { EndsScanning shared.now.callers target seat.old seat.new result }
    ensures some { OnOk result ((1 ≤ shared.now.callers) × (shared.now.callers ≤ 8)) }
    ensures halted { OnErr result (IsAtLimit seat.new.known.local) }
    ensures leaves { KeepsSeatPart shared.now except_collected (shared.now.callers + 1) seat.old seat.new }
{
    let callers = u64::from(shared.callers());
    shared.close_low(seat, target)?;
    for d in 0..callers {
        shared.scan(seat, d)?;
    }
    Ok(())
}

/// What the last scan of the seat's caller found, and FREE as it was loaded.
fn found_with(seat: &CallerSeat, free: u64) -> Collected
    requires { (least : SeenNeed) × (seat.now.known.local.seen_need ≡ Some least) × (least.caller < 2 ^ 32) }
    ensures free { result.free ≡ free }
    ensures seen { seat.now.known.local.seen_need ≡ Some (record { need = result.need; caller = result.holder }) }
{
    let Some(least) = seat.seen_need() else {
        unreachable!()
    };
    Collected {
        free,
        holder: least.caller as u32,
        need: least.need,
    }
}

//! Entries are replayed on a replica held exclusively: from the image after its place, by the entry of that place, to the
//! image after the next.

ghost use Rattle.std.specs.Prelude.{◌≡◌, ◌+◌, ◌<◌, OnErr, OnOk, IfOk, Some};
ghost use Rattle.cx_base.specs.Memory.{Becomes};
ghost use Rattle.cx_core.specs.Step.{IsStepped};
ghost use Rattle.table_invariant.specs.Steps.{Halts};
ghost use Rattle.table_invariant.specs.Stores.{FitsIn};
ghost use Rattle.replica.specs.Held.{IsHeldIn, KeepsHeld, left_of};
ghost use Rattle.replica.specs.Regions.{SameRegion, region_fixed};
ghost use Rattle.replica.specs.Replays.{IsAfterFullStep, CanStep, ComesNext, IsReady, ShowsReplyIn, StoresNone, noted_place};

use crate::region::Region;
use crate::words::HeldWords;
use cx_base::{Halt, OP_WORDS, Object, OpWords};
use cx_core::{Entry, full_step_into};
use cx_table::{CallerSeat, Exclusive, Shared};

/// The word of a region that has the place.
const PLACE_AT: u64 = 0;

/// Loads the place of a replica held exclusively into which nothing was stored since it was taken. So it is the image after
/// its place. `Halt` comes exactly where the seat's steps equal its limit.
pub fn begin<O: Object>(
    shared: &Shared<O>,
    seat: &mut CallerSeat,
    held: &Exclusive,
) -> Result<u64, Halt>
    requires held { IsHeldIn O.Object shared.now seat.old held.now }
    requires unchanged { StoresNone seat.old.known.accesses }
    ensures ready { IfOk result (λ place. IsReady O.Object shared.now held.now place seat.new) }
    ensures unstored { OnOk result (StoresNone seat.new.known.accesses) }
    ensures leaves { KeepsHeld O.Object shared.now held.now seat.old seat.new }
    ensures halted { OnErr result (Halts shared.now seat.old seat.new) }
{
    let start = shared.start_held(seat, held);
    shared.load_held(seat, held, start, PLACE_AT)
}

/// Does the full step of the entry of the place of a replica held exclusively: it is the image after its place, and then that
/// after the next. The reply is written into the caller's buffer, and is the one that the replica then has for the entry's caller. `Halt` comes
/// only where the seat's steps equal its limit.
pub fn apply<O: Object>(
    shared: &Shared<O>,
    seat: &mut CallerSeat,
    held: &Exclusive,
    entry: &Entry,
    reply: &mut OpWords,
) -> Result<(), Halt>
    requires ready { IsReady O.Object shared.now held.now (noted_place seat.old) seat.old }
    requires next { ComesNext entry.now seat.old }
    ensures ready { OnOk result (IsReady O.Object shared.now held.now (noted_place seat.old + 1) seat.new) }
    ensures replied { OnOk result (ShowsReplyIn O.Object shared.now seat.new.known entry.now.caller reply.new) }
    ensures halts { OnErr result (left_of seat.new.known.local ≡ Some 0) }
    ensures leaves { IsAfterFullStep O.Object shared.now held.now seat.old seat.new }
{
    step_held(shared, seat, held, entry, reply)
}

/// Does the full step of an entry on a replica held exclusively.
fn step_held<O: Object>(
    shared: &Shared<O>,
    seat: &mut CallerSeat,
    held: &Exclusive,
    entry: &Entry,
    reply: &mut OpWords,
) -> Result<(), Halt>
    requires held { IsHeldIn O.Object shared.now seat.old held.now }
    requires can { CanStep O.Object shared.now seat.old }
    requires caller { entry.now.caller < 8 }
    ensures done { OnOk result (Becomes (FitsIn O.Object shared.now seat.old.known) (FitsIn O.Object shared.now seat.new.known) (IsStepped (O.step shared.now.object) entry.now reply.new)) }
    ensures halts { OnErr result (left_of seat.new.known.local ≡ Some 0) }
    ensures leaves { IsAfterFullStep O.Object shared.now held.now seat.old seat.new }
{
    let object = shared.object();
    full_step_into(
        object,
        &mut Region::placed(shared, seat, held),
        entry,
        reply,
    )
}

/// Does the full step of the entry of the region's place: the region is the image after its place, and then that after the
/// next. `Halt` comes only where no access is left.
pub fn replay_one<O: Object>(region: &mut Region<'_, Shared<O>>, entry: &Entry) -> Result<(), Halt>
    requires ready { IsReady O.Object region.old.table.now region.old.held.now (noted_place region.old.seat.now) region.old.seat.now }
    requires next { ComesNext entry.now region.old.seat.now }
    ensures ready { OnOk result (IsReady O.Object region.new.table.now region.new.held.now (noted_place region.old.seat.now + 1) region.new.seat.now) }
    ensures halts { OnErr result (left_of region.new.seat.now.known.local ≡ Some 0) }
    ensures same { SameRegion (region_fixed region.old.seat.ghost_name region.old.table.now region.old.held.now region.old.placed region.old.began region.old.seat.now) (region_fixed region.new.seat.ghost_name region.new.table.now region.new.held.now region.new.placed region.new.began region.new.seat.now) }
{
    let mut reply = [0; OP_WORDS];
    apply(region.table, region.seat, region.held, entry, &mut reply)
}

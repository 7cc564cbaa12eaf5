//! What was stored into a replica held exclusively is persisted.

ghost use Rattle.std.specs.Prelude.{◌<◌, length, OnErr, OnOk};
ghost use Rattle.std.specs.List.{Contains};
ghost use Rattle.cx_core.specs.Region.{region_words};
ghost use Rattle.cx_core.specs.Rights.{held_dirty};
ghost use Rattle.table_invariant.specs.Steps.{Halts};
ghost use Rattle.replica.specs.Flushes.{EndsFlushing, Persists};
ghost use Rattle.replica.specs.Held.{IsHeldIn};
ghost use Rattle.replica.specs.Replays.{IsHeldImageIn};

use cx_base::{Halt, Object};
use cx_table::{CallerSeat, Exclusive, Shared};

/// Persists every dirty word of a replica held exclusively, one step each. Then none is dirty. It loads and stores none, so
/// that what was replayed stays so. `Halt` comes exactly where a word is dirty and the seat's steps equal its limit.
pub fn flush<O: Object>(
    shared: &Shared<O>,
    seat: &mut CallerSeat,
    held: &Exclusive,
) -> Result<(), Halt>
    requires { IsHeldIn O.Object shared.now seat.old held.now }
    ensures clean { EndsFlushing seat.new result }
    ensures persists { Persists O.Object shared.now held.now seat.old seat.new }
    ensures image { IsHeldImageIn O.Object shared.now seat.old.known → IsHeldImageIn O.Object shared.now seat.new.known }
{
    while let Some(at) = seat.some_dirty() {
        persist_dirty(shared, seat, held, at)?;
    }
    Ok(())
}

/// Persists a dirty word.
fn persist_dirty<O: Object>(
    shared: &Shared<O>,
    seat: &mut CallerSeat,
    held: &Exclusive,
    at: u64,
) -> Result<(), Halt>
    requires held { IsHeldIn O.Object shared.now seat.old held.now }
    requires at { at < region_words (O.line_count shared.now.object) }
    requires dirty { Contains (held_dirty seat.old.known.local.exclusive) at }
    ensures fewer { OnOk result (length (held_dirty seat.new.known.local.exclusive) < length (held_dirty seat.old.known.local.exclusive)) }
    ensures persists { Persists O.Object shared.now held.now seat.old seat.new }
    ensures halted { OnErr result (Halts shared.now seat.old seat.new) }
{
    shared.persist(seat, held.replica() as u64, at)?;
    Ok(())
}

//! A replica held shared as a memory.

ghost use Rattle.std.specs.Prelude.{List, ℕ, IsTrue, None, Some};
ghost use Rattle.cx_core.specs.Region.{region_words};
ghost use Rattle.table_invariant.specs.Fitting.{loaded_of};
ghost use Rattle.table_invariant.specs.Seats.{IsWithinLimit};
ghost use Rattle.cx_table.specs.Runs.{StartsAt};
ghost use Rattle.cx_table.specs.Seats.{HasMadeSteps};
ghost use Rattle.replica.specs.Held.{IsHeldShared};
ghost use Rattle.replica.specs.Regions.{IsRegionOf, has_loaded};

use crate::words::HeldWords;
use cx_base::{Halt, Memory};
use cx_table::{CallerSeat, SharedHold};

/// A replica held shared as a memory, for loads. Its pairs are those that fit what the seat loaded.
#[derive(Drop)]
pub struct ReadRegion<'a, T: HeldWords> {
    table: &'a T,
    seat: &'a mut CallerSeat,
    held: &'a SharedHold,
    /// Where the replica's words begin in the table.
    start: usize,
    /// The place, where it was loaded before the region began.
    placed: Option<u64>,
    /// The steps that were made before the region began: it takes none back.
    began: u64,
    ghost of: { IsHeldShared (T.line_count table.now) (T.running table.now) (T.lawful table.now) seat.now held.now },
    ghost starts: { StartsAt (T.running table.now) held.now.replica start },
    ghost within: { IsWithinLimit seat.now.known.local },
    ghost place: { IsTrue (has_loaded placed (loaded_of seat.now.known.local.shared)) },
    ghost since: { HasMadeSteps began seat.now },
}

impl<'a, T: HeldWords> ReadRegion<'a, T> {
    /// The region of the replica that a token is of.
    pub fn of(table: &'a T, seat: &'a mut CallerSeat, held: &'a SharedHold) -> ReadRegion<'a, T>
        requires { IsHeldShared (T.line_count table.now) (T.running table.now) (T.lawful table.now) seat.old held.now }
        ensures { IsRegionOf seat.entry.ghost_name result.seat.ghost_name table.now result.table.now seat.old result.seat.now held.now result.held.now None result.placed result.began }
    {
        let began = seat.steps();
        let start = table.start_shared(seat, held);
        ReadRegion {
            table,
            seat,
            held,
            start,
            placed: None,
            began,
        }
    }

    /// The region of the replica that a token is of, where this place was loaded before. That it was is then known of the seat once the region
    /// ends.
    pub fn placed(
        table: &'a T,
        seat: &'a mut CallerSeat,
        held: &'a SharedHold,
        place: u64,
    ) -> ReadRegion<'a, T>
        requires held { IsHeldShared (T.line_count table.now) (T.running table.now) (T.lawful table.now) seat.old held.now }
        requires place { IsTrue (has_loaded (Some place) (loaded_of seat.old.known.local.shared)) }
        ensures { IsRegionOf seat.entry.ghost_name result.seat.ghost_name table.now result.table.now seat.old result.seat.now held.now result.held.now (Some place) result.placed result.began }
    {
        let began = seat.steps();
        let start = table.start_shared(seat, held);
        ReadRegion {
            table,
            seat,
            held,
            start,
            placed: Some(place),
            began,
        }
    }
}

impl<T: HeldWords> Memory for ReadRegion<'_, T> {
    ghost use Rattle.std.specs.Prelude.{◌==◌};
    ghost use Rattle.std.specs.Borrow.{GName};
    ghost use Rattle.table_invariant.specs.Fitting.{ReadFits};
    ghost use Rattle.replica.specs.Held.{unchanged_by_shared_access, left_of};
    ghost use Rattle.replica.specs.Regions.{ReadFixed, read_words};

    ghost size = { λ r. region_words (T.line_count r.table.now) };

    ghost Fixed = { ReadFixed GName T };

    ghost fixed = { λ r. record { name = r.seat.ghost_name; table = r.table.now; held = r.held.now; placed = r.placed; began = r.began; rest = unchanged_by_shared_access r.held.now.replica r.seat.now } };

    // No step stores into a replica held shared. A seat whose limit is 0 makes no step at all, so that a store by it halts.
    ghost writable = { λ r. r.seat.now.known.local.limit == 0 };

    ghost left = { λ r. left_of r.seat.now.known.local };

    ghost Key = { List ℕ };

    ghost stands = { λ r. ReadFits (T.line_count r.table.now) (T.lawful r.table.now) (T.running r.table.now).base (loaded_of r.seat.now.known.local.shared) };

    ghost some_stands = { λ r. r.of.some };

    ghost words = { λ r. read_words (T.line_count r.table.now) (T.lawful r.table.now) (T.running r.table.now).base (loaded_of r.seat.now.known.local.shared) };

    fn load(&mut self, at: u64) -> Result<u64, Halt> {
        match self
            .table
            .load_shared_at_once(self.seat, self.held, self.start, at)
        {
            Some(found) => Ok(found),
            // the token is looked at, and the answer tested, in this case alone
            None => Ok(
                self.table
                    .load_shared(self.seat, self.held, self.start, at)?,
            ),
        }
    }

    fn load_words(&mut self, at: u64, into: &mut [u64]) -> Result<(), Halt> {
        self.table
            .load_shared_words(self.seat, self.held, self.start, at, into)
    }

    fn store(&mut self, _at: u64, _v: u64) -> Result<(), Halt> {
        Err(Halt)
    }
}

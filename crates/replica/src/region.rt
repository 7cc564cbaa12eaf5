//! A replica held exclusively as a memory.

ghost use Rattle.std.specs.Prelude.{false, true, List, ℕ, IsTrue};
ghost use Rattle.cx_core.specs.Region.{region_words};
ghost use Rattle.table_invariant.specs.Seats.{IsWithinLimit};
ghost use Rattle.cx_table.specs.Runs.{StartsAt};
ghost use Rattle.cx_table.specs.Seats.{HasMadeSteps};
ghost use Rattle.replica.specs.Held.{IsHeld};
ghost use Rattle.replica.specs.Regions.{HasPlace, IsRegionOf};

use crate::words::HeldWords;
use cx_base::{Halt, Memory};
use cx_table::{CallerSeat, Exclusive};

/// A replica held exclusively as a memory, for loads and stores. Its pairs are those that fit what the seat noted, and stay
/// lawful through each entry and each write set that the seat has.
#[derive(Drop)]
pub struct Region<'a, T: HeldWords> {
    pub(crate) table: &'a T,
    pub(crate) seat: &'a mut CallerSeat,
    pub(crate) held: &'a Exclusive,
    /// Where the replica's words begin in the table.
    start: usize,
    /// Whether the place was loaded or stored before the region began.
    pub(crate) placed: bool,
    /// The steps that were made before the region began: it takes none back.
    pub(crate) began: u64,
    ghost of: { IsHeld (T.line_count table.now) (T.running table.now) (T.lawful table.now) (T.step table.now) seat.now held.now },
    ghost starts: { StartsAt (T.running table.now) held.now.replica start },
    ghost within: { IsWithinLimit seat.now.known.local },
    ghost place: { IsTrue placed → HasPlace seat.now.known.accesses },
    ghost since: { HasMadeSteps began seat.now },
}

impl<'a, T: HeldWords> Region<'a, T> {
    /// The region of the replica that a token is of.
    pub fn of(table: &'a T, seat: &'a mut CallerSeat, held: &'a Exclusive) -> Region<'a, T>
        requires { IsHeld (T.line_count table.now) (T.running table.now) (T.lawful table.now) (T.step table.now) seat.old held.now }
        ensures { IsRegionOf seat.entry.ghost_name result.seat.ghost_name table.now result.table.now seat.old result.seat.now held.now result.held.now false result.placed result.began }
    {
        let began = seat.steps();
        let start = table.start_held(seat, held);
        Region {
            table,
            seat,
            held,
            start,
            placed: false,
            began,
        }
    }

    /// The region of the replica that a token is of, where the place was loaded or stored before. That it was is then known of the seat once the
    /// region ends.
    pub fn placed(table: &'a T, seat: &'a mut CallerSeat, held: &'a Exclusive) -> Region<'a, T>
        requires held { IsHeld (T.line_count table.now) (T.running table.now) (T.lawful table.now) (T.step table.now) seat.old held.now }
        requires place { HasPlace seat.old.known.accesses }
        ensures { IsRegionOf seat.entry.ghost_name result.seat.ghost_name table.now result.table.now seat.old result.seat.now held.now result.held.now true result.placed result.began }
    {
        let began = seat.steps();
        let start = table.start_held(seat, held);
        Region {
            table,
            seat,
            held,
            start,
            placed: true,
            began,
        }
    }
}

impl<T: HeldWords> Memory for Region<'_, T> {
    ghost use Rattle.std.specs.Borrow.{GName};
    ghost use Rattle.table_invariant.specs.Fitting.{FitsKnown};
    ghost use Rattle.replica.specs.Held.{left_of};
    ghost use Rattle.replica.specs.Regions.{RegionFixed, known_words, region_fixed};

    ghost size = { λ r. region_words (T.line_count r.table.now) };

    ghost Fixed = { RegionFixed GName T };

    ghost fixed = { λ r. region_fixed r.seat.ghost_name r.table.now r.held.now r.placed r.began r.seat.now };

    ghost writable = { λ _. true };

    ghost left = { λ r. left_of r.seat.now.known.local };

    ghost Key = { List ℕ };

    ghost stands = { λ r. FitsKnown (T.line_count r.table.now) (T.lawful r.table.now) (T.running r.table.now).base (T.step r.table.now) r.seat.now.known };

    ghost some_stands = { λ r. r.of.some };

    ghost words = { λ r. known_words (T.line_count r.table.now) (T.lawful r.table.now) (T.running r.table.now).base (T.step r.table.now) r.seat.now.known };

    fn load(&mut self, at: u64) -> Result<u64, Halt> {
        self.table.load_held(self.seat, self.held, self.start, at)
    }

    fn load_words(&mut self, at: u64, into: &mut [u64]) -> Result<(), Halt> {
        self.table
            .load_held_words(self.seat, self.held, self.start, at, into)
    }

    fn store(&mut self, at: u64, v: u64) -> Result<(), Halt> {
        self.table.store_held(self.seat, self.held, at, v)
    }
}

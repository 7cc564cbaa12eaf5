//! Making a table, and a seat for each caller.

ghost use Rattle.std.specs.Prelude.{◌≡◌, ◌+◌, ◌<◌, ◌≤◌, [], IfOk, drop, length, map, vec_capacity};
ghost use Rattle.std.specs.List.{range_with_len};
ghost use Rattle.cx_base.specs.Callers.{AreCallers};
ghost use Rattle.cx_core.specs.Base.{LawfulBase};
ghost use Rattle.caller_cache.specs.Copies.{blank_copy};
ghost use Rattle.cx_table.specs.Remains.{IsMade, opening_seat};
ghost use Rattle.table_invariant.specs.Seats.{opening_view};

use crate::seat::CallerSeat;
use crate::shared::Shared;
use atomic_table::{Seat, Split, Table};
use caller_cache::{Copies, opening_summary};
use core_events::opening_words;
use core_guards::callers::Callers;
use cx_base::{Items, Object};
use cx_core::{Base, slot_start};
use std::alloc::{AllocError, Global};
use std::snapshot::Snapshot;
use table_invariant::{Key, View};

/// Cuts the first caller off.
pub struct CutFirst;

impl Split<View> for CutFirst {
    ghost use Rattle.std.specs.Prelude.{take, drop};

    ghost left = { λ view. drop 1 view };

    ghost right = { λ view. take 1 view };
}

impl<O: Object> Shared<O> {
    /// Makes the table of 1 to 8 callers that opens from a base, and the callers' seats, of caller 0 first. The limit of
    /// caller `c` is item `c` of `limits`; 2^64 - 1 is no limit. `Err` says that memory ran out, and drops the object.
    #[tactic(auto, using(crate::proofs::Opening::long_opening))]
    pub fn make(
        alloc: Global,
        object: O,
        callers: u32,
        limits: &[u64],
        base: &Base,
    ) -> Result<(Shared<O>, Vec<CallerSeat>), AllocError>
        requires callers { AreCallers callers }
        requires lines { (64 ≤ O.line_count object) × (O.line_count object ≤ 16384) }
        requires base { LawfulBase (O.line_count object) (O.lawful object) base.now }
        requires limits { length limits.now ≡ callers }
        ensures { IfOk result (λ r. IsMade callers limits.now base.now (O.line_count object) object r.0 r.1.items) }
    {
        let seats = Vec::with_capacity(alloc, callers as usize)?;
        let own = Base {
            place: base.place,
            words: Items::of(Vec::from_slice(alloc, base.words.as_slice())?),
        };
        let count = Callers { number: callers };
        let opening = opening_words(alloc, count, base)?;
        let key = Key {
            callers,
            limits: Items::of(Vec::from_slice(alloc, limits)?),
            base: Snapshot::of(&own),
            object: Snapshot::of(&object),
        };
        let (table, first) = Table::of_words(alloc, &opening, &key)?;
        let shared = Shared {
            table,
            callers: count,
            lines: object.lines(),
            base: own,
            object,
        };
        let seats = shared.seated(alloc, first, limits, seats)?;
        Ok((shared, seats))
    }

    /// The seats of all callers, out of the first seat.
    fn seated(
        &self,
        alloc: Global,
        mut first: Seat<u8, View>,
        limits: &[u64],
        mut seats: Vec<CallerSeat>,
    ) -> Result<Vec<CallerSeat>, AllocError>
        requires first { (first.table_id ≡ self.now.table) × (first.me ≡ (opening_view self.now.callers self.now.base.place limits.now, [])) }
        requires limits { length limits.now ≡ self.now.callers }
        requires none { seats.items ≡ [] }
        requires room { self.now.callers ≤ vec_capacity seats }
        ensures { IfOk result (λ made. made.items ≡ map (opening_seat self.now limits.now) (range_with_len 0 self.now.callers)) }
    {
        for number in 0..self.callers.number {
            let copy = Copies::of(alloc, self.base.words.len())?;
            let seat = self.next_seat(&mut first, number, limits, copy);
            seats.push_reserved(seat);
        }
        Ok(seats)
    }

    /// The seat of a caller, cut from the first seat, which has those from this caller on.
    fn next_seat(
        &self,
        first: &mut Seat<u8, View>,
        number: u32,
        limits: &[u64],
        copy: Copies,
    ) -> CallerSeat
        requires first { (first.old.table_id ≡ self.now.table) × (first.old.me ≡ (drop number (opening_view self.now.callers self.now.base.place limits.now), [])) }
        requires limits { length limits.now ≡ self.now.callers }
        requires caller { number < self.now.callers }
        requires copy { copy ≡ blank_copy (length self.now.base.words) }
        ensures first { (first.new.table_id ≡ first.old.table_id) × (first.new.me ≡ (drop (number + 1) (opening_view self.now.callers self.now.base.place limits.now), [])) }
        ensures seat { result ≡ opening_seat self.now limits.now number }
    {
        let summary = opening_summary(
            self.callers,
            self.base.place,
            number,
            limits[number as usize],
        );
        let before = self.base.words.as_slice()[slot_start(number) as usize];
        let seat = self.table.shared.split_seat::<CutFirst>(first);
        CallerSeat {
            seat,
            summary,
            before,
            copy,
            last: 0,
        }
    }
}

//! Closing a table: its callers' seats are joined, and its words are handed out.

ghost use Rattle.std.specs.Prelude.{◌≡◌, ◌+◌, ◌*◌, ◌≤◌, ◌∷◌, List, [], false, All, IfErr, IfOk, length, replicate, vec_capacity, vec_len};
ghost use Rattle.cx_table.specs.Remains.{AreSeats, IsRoomOf, ClosingWitness, MarksDirty, known_by, locals_of};
ghost use Rattle.caller_cache.specs.Wins.{wins_of};
ghost use Rattle.cx_core.specs.Region.{region_words};
ghost use Rattle.table_invariant.specs.Running.{instance_at};
ghost use Rattle.table_invariant.specs.Seats.{Seated};

use crate::remains::{Remains, Trail};
use crate::seat::CallerSeat;
use crate::shared::Shared;
use atomic_table::{Join, Play, Seat};
use caller_cache::{copy_words, lead_on, mark_replica};
use cx_base::Object;
use cx_core::layout::{DUR_AT, replicas_at};
use cx_core::{HEAD_LINES, LINE_WORDS, WonCode};
use std::alloc::{AllocError, Global};
use std::marker::Model;
use std::snapshot::Snapshot;
use table_invariant::View;

/// A table that was not closed, since memory ran out, and its seats: all as it was.
#[derive(Drop)]
pub struct KeptTable<O: Object> {
    pub shared: Shared<O>,
    pub seats: Vec<CallerSeat>,
}

/// A new seat knows nobody.
pub struct Enters;

impl Play<u8, View> for Enters {
    ghost use Rattle.std.specs.Prelude.{◌≡◌, []};

    ghost then = { λ _ _ _ after. after ≡ ([], []) };
}

/// The callers of the other seat stand in front, and it knows nobody any more.
pub struct InFront;

impl Join<View> for InFront {
    ghost use Rattle.std.specs.Prelude.{◌++◌, []};

    ghost both = { λ view other. other ++ view };

    ghost spent = { [] };
}

/// Room for what the closing of a table hands out. Contracts see for how many callers it is, and for how many lines of the
/// object.
#[derive(Drop)]
pub struct Room {
    callers: u32,
    lines: u64,
    space: Space,
}

impl Model for Room {
    ghost use Rattle.std.specs.Prelude.{◌≡◌, ◌+◌, ◌*◌, ◌≤◌, [], false, replicate, vec_capacity};
    ghost use Rattle.cx_core.specs.Region.{region_words};
    ghost use Rattle.cx_table.specs.Remains.{RoomFor};

    ghost Value = { RoomFor };

    ghost view = { λ r. record { callers = r.callers; lines = r.lines } };

    ghost invariant = { λ r. (r.space.published.items ≡ []) × (r.callers + 1 ≤ vec_capacity r.space.published) × (r.space.wins.items ≡ []) × (r.callers ≤ vec_capacity r.space.wins) × (r.space.volatile.items ≡ []) × (region_words r.lines * (2 * r.callers) ≤ vec_capacity r.space.volatile) × (r.space.durable.items ≡ []) × (region_words r.lines * (2 * r.callers) ≤ vec_capacity r.space.durable) × (r.space.dirty.items ≡ replicate (region_words r.lines * (2 * r.callers)) false) };
}

/// The codes, the wins that they are read off, and the words of the replicas.
#[derive(Drop)]
struct Space {
    published: Vec<u64>,
    wins: Vec<WonCode>,
    volatile: Vec<u64>,
    durable: Vec<u64>,
    dirty: Vec<bool>,
}

impl Space {
    /// Room for this number of callers and for `count` words of the replicas, of which none is dirty.
    fn take(alloc: Global, callers: usize, count: usize) -> Result<Space, AllocError>
        requires { callers ≤ 8 }
        ensures published { IfOk result (λ r. (r.published.items ≡ []) × (callers + 1 ≤ vec_capacity r.published)) }
        ensures wins { IfOk result (λ r. (r.wins.items ≡ []) × (callers ≤ vec_capacity r.wins)) }
        ensures volatile { IfOk result (λ r. (r.volatile.items ≡ []) × (count ≤ vec_capacity r.volatile)) }
        ensures durable { IfOk result (λ r. (r.durable.items ≡ []) × (count ≤ vec_capacity r.durable)) }
        ensures dirty { IfOk result (λ r. r.dirty.items ≡ replicate count false) }
    {
        let published = Vec::with_capacity(alloc, callers + 1)?;
        let wins = Vec::with_capacity(alloc, callers)?;
        let volatile = Vec::with_capacity(alloc, count)?;
        let durable = Vec::with_capacity(alloc, count)?;
        let dirty = Vec::from_elem(alloc, false, count)?;
        Ok(Space {
            published,
            wins,
            volatile,
            durable,
            dirty,
        })
    }
}

impl<O: Object> Shared<O> {
    /// Closes the table, whose callers' seats are handed in, of caller 0 first, each at whatever step its caller stopped.
    /// `Err` comes only where memory runs out, and hands all back as it was.
    pub fn gather(self, alloc: Global, seats: Vec<CallerSeat>) -> Result<Remains, KeptTable<O>>
        requires { AreSeats self seats.items }
        ensures remains { IfOk result (λ r. ClosingWitness self (instance_at self O.step O.only_reads) seats.items r) }
        ensures kept { IfErr result (λ k. (k.shared ≡ self) × (k.seats ≡ seats)) }
    {
        let Ok(room) = self.room(alloc) else {
            return Err(KeptTable {
                shared: self,
                seats,
            });
        };
        Ok(self.gather_in(room, seats))
    }

    /// Room for what the closing hands out. `Err` says that memory ran out.
    pub fn room(&self, alloc: Global) -> Result<Room, AllocError>
        ensures { IfOk result (IsRoomOf self.now) }
    {
        let region = LINE_WORDS as usize * (HEAD_LINES as usize + self.lines as usize);
        let replicas = 2 * self.callers.number as usize;
        let space = Space::take(alloc, self.callers.number as usize, region * replicas)?;
        Ok(Room {
            callers: self.callers.number,
            lines: self.lines,
            space,
        })
    }

    /// Closes the table, whose callers' seats are handed in, of caller 0 first, each at whatever step its caller stopped.
    pub fn gather_in(self, room: Room, seats: Vec<CallerSeat>) -> Remains
        requires seats { AreSeats self seats.items }
        requires room { IsRoomOf self room }
        ensures { ClosingWitness self (instance_at self O.step O.only_reads) seats.items result }
    {
        let region = LINE_WORDS as usize * (HEAD_LINES as usize + self.lines as usize);
        let replicas = 2 * self.callers.number as usize;
        let Room {
            callers: _,
            lines: _,
            mut space,
        } = room;
        mark_dirty(&seats, region, replicas, &mut space.dirty);
        note_wins(&seats, &mut space.wins);
        let closing = self.joined(seats);
        self.closed(closing, space)
    }

    /// A seat that knows all callers, whose seats are spent.
    fn joined(&self, mut seats: Vec<CallerSeat>) -> Seat<u8, View>
        requires { AreSeats self.now seats.items }
        ensures { (result.table_id ≡ self.now.table) × (result.me ≡ (known_by seats.items, [])) }
    {
        let (_, mut closing) = self.table.shared.load_new_seat::<Enters>(0);
        while let Some(seat) = seats.pop() {
            self.take_in(&mut closing, seat);
        }
        closing
    }

    /// A seat takes another's caller in, in front of its own.
    fn take_in(&self, closing: &mut Seat<u8, View>, seat: CallerSeat)
        requires closing { (closing.old.table_id ≡ self.now.table) × (closing.old.me.1 ≡ []) }
        requires seat { seat.table ≡ self.now.table }
        ensures { (closing.new.table_id ≡ closing.old.table_id) × (closing.new.me ≡ (seat.known ∷ closing.old.me.0, [])) }
    {
        let CallerSeat {
            seat,
            summary: _,
            before: _,
            copy: _,
            last: _,
        } = seat;
        self.table.shared.join_seat::<InFront>(closing, seat);
    }

    /// Ends the table with the seat that knows all callers, and copies its words out.
    fn closed(self, closing: Seat<u8, View>, space: Space) -> Remains
        requires table { closing.table_id ≡ self.table }
        requires published { (space.published.items ≡ []) × (vec_len space.wins + 1 ≤ vec_capacity space.published) }
        requires volatile { (space.volatile.items ≡ []) × (region_words self.lines * (2 * self.callers) ≤ vec_capacity space.volatile) }
        requires durable { (space.durable.items ≡ []) × (region_words self.lines * (2 * self.callers) ≤ vec_capacity space.durable) }
        ensures { (seats : List Seated) → AreSeats self seats → closing.me ≡ (known_by seats, []) → MarksDirty (locals_of seats) (2 * self.callers) (length self.base.words) space.dirty.items → space.wins.items ≡ wins_of (locals_of seats) → ClosingWitness self (instance_at self O.step O.only_reads) seats result }
    {
        let Space {
            mut published,
            wins,
            mut volatile,
            mut durable,
            dirty,
        } = space;
        let Shared {
            table,
            callers,
            lines,
            base,
            object: _,
        } = self;
        let region = LINE_WORDS as usize * (HEAD_LINES as usize + lines as usize);
        let count = region * (2 * callers.number as usize);
        let from = replicas_at(callers.number);
        let end = Snapshot::of(&closing);
        let closed = table.close_with(closing);
        lead_on(wins, closed.word(DUR_AT), &mut published);
        copy_words(&closed, &mut volatile, from, count);
        copy_words(&closed, &mut durable, from + count, count);
        closed.free();
        let trail = Trail {
            closing: end,
            base: Snapshot::of(&base),
            chain: Snapshot::of(&published),
        };
        Remains {
            callers: callers.number,
            lines,
            first: base.place,
            published,
            volatile,
            durable,
            dirty,
            trail,
        }
    }
}

/// Marks each word of a replica that a seat's caller stored to the replica that it holds exclusively, and did not persist.
fn mark_dirty(seats: &[CallerSeat], region: usize, replicas: usize, dirty: &mut Vec<bool>)
    requires regions { All (λ (s : Seated). s.region ≡ region) seats.now }
    requires none { dirty.old.items ≡ replicate (region * replicas) false }
    ensures { MarksDirty (locals_of seats.now) replicas region dirty.new.items }
{
    for k in 0..seats.len() {
        let seat = &seats[k];
        if let Some(replica) = seat.summary.exclusive {
            if replica < replicas as u64 {
                mark_replica(seat.copy.marks(), region * replica as usize, dirty);
            }
        }
    }
}

/// Adds the wins of the seats' callers that are not retired.
fn note_wins(seats: &[CallerSeat], wins: &mut Vec<WonCode>)
    requires none { wins.old.items ≡ [] }
    requires room { length seats.now ≤ vec_capacity wins.old }
    ensures wins { wins.new.items ≡ wins_of (locals_of seats.now) }
    ensures few { vec_len wins.new ≤ length seats.now }
{
    for k in 0..seats.len() {
        let seat = &seats[k];
        if let Some(won) = seat.summary.won {
            wins.push_reserved(won);
        }
    }
}

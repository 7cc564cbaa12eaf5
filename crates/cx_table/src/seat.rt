//! A caller's seat: its right to step, and the numbers of its local state that code reads.

ghost use Rattle.std.specs.Prelude.{◌≡◌, ◌≢◌, ◌+◌, ◌<◌, ◌≤◌, ◌↔◌, ℕ, IfNone, IfSome, IsTrue, Some, length, slice_index};
ghost use Rattle.std.specs.List.{Contains};
ghost use Rattle.cx_core.specs.Rights.{held_dirty};
ghost use Rattle.cx_core.specs.QueueEvents.{cell_of};
ghost use Rattle.table_invariant.specs.Seats.{HasCells, place_noted, unanswered_ticket};
ghost use Rattle.cx_table.specs.Calls.{TellsFront, TellsSteps};
ghost use Rattle.caller_cache.specs.Summaries.{IsOwnEntry};

use atomic_table::Seat;
use caller_cache::{CachedLocal, Copies};
use cx_base::{OP_WORDS, OpWords};
use cx_core::{Entry, HeldDowngraded, Protection, SeenNeed, SeenSlot, WonCode};
use std::marker::Model;
use table_invariant::View;

/// Whether a cell's ticket is this one.
fn is_ticket(ticket: u64, of: Option<u64>) -> bool
    ensures { IsTrue result → of ≡ Some ticket }
{
    match of {
        None => false,
        Some(found) => found == ticket,
    }
}

/// The seat of one caller. It has no bytes of the table, and what it knows changes only at its own steps. Contracts see
/// its table, the number of its caller's last entry in the table's base, the words of a region, and what it knows.
#[derive(Drop)]
pub struct CallerSeat {
    pub(crate) seat: Seat<u8, View>,
    pub(crate) summary: CachedLocal,
    /// The number of the caller's last entry before this service.
    pub(crate) before: u64,
    /// What is known in plain memory of the replica held exclusively and of the caller's cells.
    pub(crate) copy: Copies,
    /// The cell that was linked last: in it and the one before it a ticket is looked for first.
    pub(crate) last: u64,
}

impl Model for CallerSeat {
    ghost use Rattle.table_invariant.specs.Seats.{Seated, known_of};

    ghost Value = { Seated };

    ghost use Rattle.std.specs.Prelude.{length};
    ghost use Rattle.caller_cache.specs.Copies.{IsCopied};
    ghost use Rattle.caller_cache.specs.Summaries.{HasSummary};

    ghost view = { λ s. record { table = s.seat.table_id; before = s.before; region = length s.copy.words; known = known_of s.seat.me.0 } };

    ghost invariant = { λ s. HasSummary s.seat.me s.summary s.before × IsCopied (known_of s.seat.me.0) s.copy };
}

impl CallerSeat {
    /// Which of the table's callers it is, counted from 0.
    pub fn number(&self) -> u32
        ensures value { result ≡ self.now.known.local.number }
        ensures cells { HasCells self.now.known.local }
    {
        self.summary.number
    }

    /// The steps made, of which there are no more than the limit allows. This stays at 2^64 - 1 once there.
    pub fn steps(&self) -> u64
        ensures { TellsSteps self.now.known.local result }
    {
        self.summary.steps
    }

    /// The steps allowed, where 2^64 - 1 is no limit.
    pub fn limit(&self) -> u64
        ensures { result ≡ self.now.known.local.limit }
    {
        self.summary.limit
    }

    /// Every ticket from the base's place to below it is linked.
    pub fn front(&self) -> u64
        ensures { TellsFront self.now.known.local result }
    {
        self.summary.front
    }

    /// The refusals met (`met` of `Local`): how often all replicas refused an exclusive try in turn, or the code last loaded from CUR proved outdated or
    /// out of reach. This stays at 2^64 - 1 once there.
    pub fn met(&self) -> u64
        ensures { result ≡ self.now.known.local.met }
    {
        self.summary.met
    }

    /// The number of the caller's next entry: its numbers go on from the one in the base.
    pub fn next_number(&self) -> u64
        ensures value { result ≡ self.now.before + length self.now.known.local.own + 1 }
        ensures cells { HasCells self.now.known.local }
    {
        self.before + self.summary.linked + 1
    }

    /// The ticket of the caller's entry that is not answered yet.
    pub fn unanswered(&self) -> Option<u64>
        ensures { result ≡ unanswered_ticket self.now.known.local }
    {
        self.summary.unanswered
    }

    /// The ticket with which a cell of the caller was linked since it was last written.
    pub fn cell_ticket(&self, j: u64) -> Option<u64>
        requires { j < 16 }
        ensures { result ≡ (cell_of self.now.known.local j).ticket }
    {
        self.summary.tickets[j as usize]
    }

    /// The first place from one on at which an operation differs from the one in a cell of the caller, as its words were last written, and 144
    /// where that is none.
    pub fn cell_apart(&self, j: u64, op: &OpWords, from: usize) -> usize
        requires j { j < 16 }
        requires from { from ≤ OP_WORDS }
        ensures within { (from ≤ result) × (result ≤ OP_WORDS) }
        ensures same { (at : ℕ) → from ≤ at → at < result → slice_index (cell_of self.now.known.local j).words (at + 1) ≡ slice_index op.now at }
        ensures apart { result < OP_WORDS → slice_index (cell_of self.now.known.local j).words (result + 1) ≢ slice_index op.now result }
    {
        self.copy.cell_apart(j, op, from)
    }

    /// Whether a cell has the caller's own entry with a ticket; if so `entry` is that entry, with the words last written there.
    pub fn own_entry(&self, ticket: u64, entry: &mut Entry) -> bool
        ensures { IsTrue result → IsOwnEntry self.now.known.local.own self.now.known.local.number ticket entry.new }
    {
        let Some(j) = self.ticket_cell(ticket) else {
            return false;
        };
        entry.caller = self.summary.number;
        self.copy.read_entry(j, entry);
        true
    }

    /// The cell that was linked last, and the one before it.
    pub(crate) fn last_cells(&self) -> (u64, u64)
        ensures { (result.0 < 16) × (result.1 < 16) }
    {
        let last = self.last % 16;
        (last, (last + 15) % 16)
    }

    /// The cell that has a ticket.
    pub(crate) fn ticket_cell(&self, ticket: u64) -> Option<u64>
        ensures { IfSome result (λ j. (j < 16) × ((cell_of self.now.known.local j).ticket ≡ Some ticket)) }
    {
        let (last, before) = self.last_cells();
        if is_ticket(ticket, self.cell_ticket(last)) {
            return Some(last);
        }
        if is_ticket(ticket, self.cell_ticket(before)) {
            return Some(before);
        }
        for j in 0..16 {
            if is_ticket(ticket, self.cell_ticket(j)) {
                return Some(j);
            }
        }
        None
    }

    /// Whether a word of the replica that the caller holds exclusively was stored and not persisted.
    pub fn is_dirty(&self, i: u64) -> bool
        requires { i < self.now.region }
        ensures { IsTrue result ↔ Contains (held_dirty self.now.known.local.exclusive) i }
    {
        self.copy.marks()[i as usize]
    }

    /// Some word of the replica that the caller holds exclusively that was stored and not persisted. It is looked for among the
    /// words stored last, and then in lines that were stored to, so the time does not grow with the region for up to 512 words.
    pub fn some_dirty(&mut self) -> Option<u64>
        ensures same { self.new ≡ self.old }
        ensures some { IfSome result (λ at. (at < self.old.region) × Contains (held_dirty self.old.known.local.exclusive) at) }
        ensures none { IfNone result ((at : ℕ) → at < self.old.region → ¬ Contains (held_dirty self.old.known.local.exclusive) at) }
    {
        self.copy.some_dirty()
    }

    /// The place that was loaded or stored last of the replica that the caller holds exclusively, 0 where none was.
    pub fn noted_place(&self) -> u64
        ensures { result ≡ place_noted 0 self.now.known.accesses }
    {
        self.copy.place()
    }

    /// The link slot last looked at, and the word found there.
    pub fn seen_slot(&self) -> Option<SeenSlot>
        ensures { result ≡ self.now.known.local.seen_slot }
    {
        self.summary.seen_slot
    }

    /// The greatest FREE found.
    pub fn seen_free(&self) -> u64
        ensures { result ≡ self.now.known.local.seen_free }
    {
        self.summary.seen_free
    }

    /// The greatest LOW found.
    pub fn seen_low(&self) -> u64
        ensures { result ≡ self.now.known.local.seen_low }
    {
        self.summary.seen_low
    }

    /// The last word found in CUR.
    pub fn seen_cur(&self) -> u64
        ensures { result ≡ self.now.known.local.seen_cur }
    {
        self.summary.seen_cur
    }

    /// Whether `seen_cur` was loaded, and nothing that ends its use came since.
    pub fn fresh(&self) -> bool
        ensures { result ≡ self.now.known.local.fresh }
    {
        self.summary.fresh
    }

    /// The replica that the caller has downgraded, and its place.
    pub fn downgraded(&self) -> Option<HeldDowngraded>
        ensures { result ≡ self.now.known.local.downgraded }
    {
        self.summary.downgraded
    }

    /// The code with which the caller won and that it did not retire, and the code before it.
    pub fn won(&self) -> Option<WonCode>
        ensures { result ≡ self.now.known.local.won }
    {
        self.summary.won
    }

    /// The greatest code with which the caller raised DUR.
    pub fn raised(&self) -> u64
        ensures { result ≡ self.now.known.local.raised }
    {
        self.summary.raised
    }

    /// The greatest place at which the caller was answered.
    pub fn floor(&self) -> u64
        ensures { result ≡ self.now.known.local.floor }
    {
        self.summary.floor
    }

    /// What keeps the cells from a ticket on from being written again, as the caller stated it.
    pub fn protection(&self) -> Protection
        ensures { result ≡ self.now.known.local.protection }
    {
        self.summary.protection
    }

    /// The least need that the last whole scan found, and the least caller that had it.
    pub fn seen_need(&self) -> Option<SeenNeed>
        ensures { result ≡ self.now.known.local.seen_need }
    {
        self.summary.seen_need
    }

    /// The scans of the callers' needs that it ended. This stays at 2^64 - 1 once there.
    pub fn scans(&self) -> u64
        ensures { result ≡ self.now.known.local.scans }
    {
        self.summary.scans
    }
}

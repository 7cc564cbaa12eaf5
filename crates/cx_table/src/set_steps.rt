//! The step calls of write sets: a caller writes the set of its own linked entry beside the entry's cell and offers it, and who may read an entry
//! may look whether it is offered, and then read the set. `Halt` comes exactly where the seat's steps equal its limit, and then nothing changes. The
//! other calls are no steps: the set that a caller keeps in plain memory, where a table has one caller, and what a seat tells of the sets of its
//! caller's own cells and of the offer last seen.

ghost use Rattle.cx_core.specs.declared.kinds.Kind.TheVariants.{WriteSet, Offer, LoadOffer, ReadSet};
ghost use Rattle.table_invariant.specs.Offers.{TellsOffer, TellsSet};
ghost use Rattle.table_invariant.specs.Steps.{Steps, KeepsSet, TeachesKept};
ghost use Rattle.cx_table.specs.Calls.{MakesFittingStep, MakesStep, MayStep};
ghost use Rattle.std.specs.Prelude.{◌≡◌, IsTrue, ◌≢◌, ◌+◌, ◌<◌, ◌↔◌, ℕ, List, IfNone, IfSome, Some, slice_index};
ghost use Rattle.table_invariant.specs.Fitting.{IsKeptSet, IsSetWithin, IsOwnSet};
ghost use Rattle.table_invariant.specs.Running.{IsSeatOf, instance_at};
ghost use Rattle.table_invariant.specs.Seats.{known_of, HasCells};
ghost use Rattle.table_invariant.specs.Stores.{FittingIn};
ghost use Rattle.cx_table.specs.Words.{IsOfOne, KeepsTableKnowing};
ghost use Rattle.caller_cache.specs.Copies.{IsSetList};
ghost use Rattle.cx_core.specs.QueueEvents.{cell_of};
ghost use Rattle.cx_core.specs.SetEvents.{CanWriteSet};
ghost use Rattle.caller_cache.specs.Summaries.{OwnCells};
ghost use Rattle.cx_table.specs.OwnCells.{HasTicketAs};

use crate::events::Instruction;
use crate::seat::CallerSeat;
use crate::shared::Shared;
use atomic_table::Seat;
use cx_base::{Halt, Object, SET_WORDS};
use cx_core::layout::{CELLS, CUR_AT, offer_at, set_at};
use cx_core::{Kind, SeenOffer};
use std::marker::Brand;
use table_invariant::View;

impl<O: Object> Shared<O> {
    /// Stores a word into the set of the caller's own entry in a cell, which is linked and not offered: word 0 is the number of pairs, words
    /// 2m + 1 and 2m + 2 are the address and the value of pair m. `Halt` comes only where the limit leaves no step.
    pub fn write_set(&self, seat: &mut CallerSeat, j: u64, i: u64, v: u64) -> Result<(), Halt>
        requires { MayStep O.Object self.now (WriteSet j i v) seat.old }
        ensures { MakesFittingStep O.Object self.now seat.old seat.new result (λ _. Steps self.now O.step O.only_reads (WriteSet j i v) 0 seat.old seat.new) }
    {
        let cell = CELLS * u64::from(seat.summary.number) + j;
        let word = set_at(self.callers.number, cell, i);
        self.stored(seat, &Kind::WriteSet { j, i, v }, word, v)
    }

    /// Offers the set of the caller's own entry in a cell, which whatever fits what the caller noted tells to be a write set of the entry's
    /// ticket. `Halt` comes only where the limit leaves no step.
    pub fn offer(&self, seat: &mut CallerSeat, j: u64) -> Result<(), Halt>
        requires may { MayStep O.Object self.now (Offer j) seat.old }
        requires of_ticket { TellsOffer self.now.lines (O.lawful self.now.object) self.now.base (O.step self.now.object) seat.old.known j }
        ensures { MakesFittingStep O.Object self.now seat.old seat.new result (λ _. Steps self.now O.step O.only_reads (Offer j) 0 seat.old seat.new) }
    {
        let cell = CELLS * u64::from(seat.summary.number) + j;
        let word = offer_at(self.callers.number, cell);
        let offering = seat.summary.offering_word(j);
        self.stored_learned(seat, &Kind::Offer { j }, word, offering)
    }

    /// Loads the offer word of the cell that the slot last looked at shows with a ticket. The entry is offered where the word is the ticket
    /// plus 1. `Halt` comes only where the limit leaves no step.
    pub fn load_offer(&self, seat: &mut CallerSeat, k: u64, t: u64) -> Result<u64, Halt>
        requires { MayStep O.Object self.now (LoadOffer k t) seat.old }
        ensures { MakesStep self.now seat.old seat.new result (λ found. Steps self.now O.step O.only_reads (LoadOffer k t) found seat.old seat.new) }
    {
        let word = offer_at(self.callers.number, k);
        self.made(seat, &Kind::LoadOffer { k, t }, word, Instruction::Load)
    }

    /// Loads a word of the set of the cell that the offer word last loaded shows to be offered with a ticket, and notes it with the ticket.
    /// Word 0, the number of pairs, is at most 256. `Halt` comes only where the limit leaves no step.
    pub fn read_set(&self, seat: &mut CallerSeat, k: u64, t: u64, i: u64) -> Result<u64, Halt>
        requires { MayStep O.Object self.now (ReadSet k t i) seat.old }
        ensures { MakesFittingStep O.Object self.now seat.old seat.new result (λ found. Steps self.now O.step O.only_reads (ReadSet k t i) found seat.old seat.new) }
    {
        let word = set_at(self.callers.number, k, i);
        self.made(seat, &Kind::ReadSet { k, t, i }, word, Instruction::Load)
    }

    /// Keeps the set of the caller's own entry with a ticket, in place of the one that it kept before, where whatever fits what the caller noted
    /// tells that it is a write set of the ticket. What is given back is room for a set.
    pub fn keep_set(&self, seat: &mut CallerSeat, ticket: u64, set: &mut Vec<u64>)
        requires seat { IsSeatOf self.now seat.old }
        requires words { IsSetList set.old.items }
        requires of_ticket { TellsSet self.now.lines (O.lawful self.now.object) self.now.base (O.step self.now.object) seat.old.known ticket set.old.items }
        ensures kept { KeepsSet self.now ticket set.old.items seat.old seat.new }
        ensures fits { FittingIn O.Object self.now seat.new.known }
        ensures room { IsSetList set.new.items }
    {
        self.table_is_running();
        self.note_kept(&mut seat.seat, ticket, set);
        seat.copy.keep(ticket, set);
    }

    /// Notes that a set is kept. What a seat knows changes at an instruction only, so this loads a word and ignores what it finds.
    fn note_kept(&self, seat: &mut Seat<u8, View>, ticket: u64, set: &[u64])
        requires one { IsOfOne self.now seat.old.table_id seat.old.me }
        requires of_ticket { TellsSet self.now.lines (O.lawful self.now.object) self.now.base (O.step self.now.object) (known_of seat.old.me.0) ticket set.now }
        ensures { KeepsTableKnowing seat.old.table_id seat.new.table_id (TeachesKept (instance_at self.now O.step O.only_reads) ticket set.now (known_of seat.old.me.0) seat.new.me) }
    {
        self.table_is_running();
        let about = (ticket, set);
        self.run::<Brand, (u64, &[u64])>(seat, &about, CUR_AT, Instruction::Load);
    }
}

impl CallerSeat {
    /// Whether the set that the caller keeps is that of its own entry with a ticket; if so it is handed out, and is in plain memory no more. Its addresses
    /// are those of a region's words.
    pub fn take_kept(&mut self, ticket: u64, set: &mut Vec<u64>) -> bool
        requires { IsSetList set.old.items }
        ensures same { self.new ≡ self.old }
        ensures taken { IsTrue result → IsKeptSet self.old.known.kept ticket set.new.items × IsSetWithin self.old.region set.new.items }
        ensures room { IsSetList set.new.items }
    {
        self.copy.take_kept(ticket, set)
    }

    /// The offer word of a cell of the caller. The entry in the cell is offered where it is the cell's ticket plus 1.
    pub fn offer_word(&self, j: u64) -> u64
        requires { j < 16 }
        ensures { result ≡ (cell_of self.now.known.local j).offer }
    {
        self.summary.offers[j as usize]
    }

    /// A word of the set of a cell of the caller, as it was last written.
    pub fn set_word(&self, j: u64, i: u64) -> u64
        requires j { j < 16 }
        requires i { i < SET_WORDS }
        ensures { result ≡ slice_index (cell_of self.now.known.local j).set i }
    {
        self.copy.set_word(j, i)
    }

    /// A caller has 16 cells, and the entry in a cell with a ticket is the caller's own one with that ticket. This does nothing: a call that reads no
    /// field of the seat has the fact from here, since a proof learns what a type promises of a value only where a field is read, or by a contract.
    #[inline(always)]
    fn own_cells_are_lawful(&self)
        ensures cells { HasCells self.now.known.local }
        ensures own { OwnCells self.now.known.local }
    {
        let _seat = &self.seat;
    }

    /// The cell and the ticket of the offer word last loaded, and that word.
    pub fn seen_offer(&self) -> Option<SeenOffer>
        ensures { result ≡ self.now.known.local.seen_offer }
    {
        self.summary.seen_offer
    }

    /// The cell of the caller's own entry with a ticket, where a cell has it and its set is offered. It is `None` exactly where no cell
    /// is offered with the ticket.
    pub fn offered_cell(&self, ticket: u64) -> Option<u64>
        ensures some { IfSome result (λ j. (j < 16) × IsOwnSet self.now.known.local.cells ticket (cell_of self.now.known.local j).set) }
        ensures none { IfNone result ((set : List ℕ) → ¬ IsOwnSet self.now.known.local.cells ticket set) }
    {
        self.own_cells_are_lawful();
        self.ticket_cell_as(ticket, true)
    }

    /// The cell of the caller's own entry with a ticket, where a cell has it and its set may still be written and offered. It is `None`
    /// exactly where there is no such cell.
    pub fn unoffered_cell(&self, ticket: u64) -> Option<u64>
        ensures some { IfSome result (λ j. CanWriteSet self.now.known.local j × ((cell_of self.now.known.local j).ticket ≡ Some ticket)) }
        ensures none { IfNone result ((j : ℕ) → CanWriteSet self.now.known.local j → (cell_of self.now.known.local j).ticket ≢ Some ticket) }
    {
        self.own_cells_are_lawful();
        self.ticket_cell_as(ticket, false)
    }

    /// A cell that has a ticket and is offered with it, or is not, as is asked for.
    fn ticket_cell_as(&self, ticket: u64, offered: bool) -> Option<u64>
        ensures some { IfSome result (λ j. (j < 16) × HasTicketAs self.now.known.local j ticket offered) }
        ensures none { IfNone result ((j : ℕ) → j < 16 → ¬ HasTicketAs self.now.known.local j ticket offered) }
    {
        let (last, before) = self.last_cells();
        if self.has_ticket_as(last, ticket, offered) {
            return Some(last);
        }
        if self.has_ticket_as(before, ticket, offered) {
            return Some(before);
        }
        for j in 0..16 {
            if self.has_ticket_as(j, ticket, offered) {
                return Some(j);
            }
        }
        None
    }

    /// Whether a cell has a ticket and is offered with it, or is not, as is asked for.
    fn has_ticket_as(&self, j: u64, ticket: u64, offered: bool) -> bool
        requires { j < 16 }
        ensures { IsTrue result ↔ HasTicketAs self.now.known.local j ticket offered }
    {
        match self.cell_ticket(j) {
            None => false,
            Some(found) => found == ticket && self.is_offered(j, ticket) == offered,
        }
    }

    /// Whether the offer word of a cell is the one for a ticket.
    fn is_offered(&self, j: u64, ticket: u64) -> bool
        requires { j < 16 }
        ensures { IsTrue result ↔ ((cell_of self.now.known.local j).offer ≡ ticket + 1) }
    {
        let word = self.offer_word(j);
        word != 0 && word - 1 == ticket
    }
}

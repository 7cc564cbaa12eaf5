//! The step calls on the queue: its links and cells, and the ring in which cells come round again. What a caller needs is stated, confirmed and
//! released, and tickets are closed, scanned and opened. Each call is one event of the core, of the seat's caller, on the words and local states
//! that the table shows. `Halt` comes exactly where the seat's steps equal its limit, and then nothing changes.

ghost use Rattle.cx_core.specs.declared.kinds.Kind.TheVariants.{WriteCell, Link, Look, ReadCell, LoadFree, Protect, Confirm, Unprotect, CloseLow, Scan, OpenFree};
ghost use Rattle.table_invariant.specs.Running.{IsSeatOf};
ghost use Rattle.table_invariant.specs.Steps.{Steps};
ghost use Rattle.cx_table.specs.Calls.{MakesFittingStep, MakesStep, MayStep};

use crate::events::Instruction;
use crate::seat::CallerSeat;
use crate::shared::Shared;
use cx_base::{Halt, Object, link_code};
use cx_core::Kind;
use cx_core::layout::{CELLS, FREE_AT, LOW_AT, MAX_WORD, cell_at, cell_count, link_at, need_at};

impl<O: Object> Shared<O> {
    /// Stores a word into a cell of the caller, which has to be idle. `Halt` comes only where the limit leaves no step.
    pub fn write_cell(&self, seat: &mut CallerSeat, j: u64, i: u64, v: u64) -> Result<(), Halt>
        requires { MayStep O.Object self.now (WriteCell j i v) seat.old }
        ensures { MakesStep self.now seat.old seat.new result (λ _. Steps self.now O.step O.only_reads (WriteCell j i v) 0 seat.old seat.new) }
    {
        let cell = CELLS * u64::from(seat.summary.number) + j;
        let word = cell_at(self.callers.number, cell, i);
        self.stored(seat, &Kind::WriteCell { j, i, v }, word, v)
    }

    /// Tries to link the entry in a cell of the caller at the caller's front: a compare-exchange of the slot last looked at,
    /// from the word seen to the link code. It gives the word found, and won where that is the word seen. `Halt` comes only where the limit
    /// leaves no step.
    pub fn link(&self, seat: &mut CallerSeat, j: u64) -> Result<u64, Halt>
        requires { MayStep O.Object self.now (Link j) seat.old }
        ensures { MakesStep self.now seat.old seat.new result (λ found. Steps self.now O.step O.only_reads (Link j) found seat.old seat.new) }
    {
        let summary = &seat.summary;
        let slot = summary.front % cell_count(self.callers.number);
        let word = link_at(self.callers.number, slot);
        let seen = summary.seen_word();
        let cell = CELLS as u32 * summary.number + j as u32;
        let code = link_code(self.callers.number, summary.front, cell);
        let exchange = Instruction::Exchange(seen, code);
        let found = self.made(seat, &Kind::Link { j }, word, exchange)?;
        seat.last = j;
        Ok(found)
    }

    /// Loads the word of a link slot. `Halt` comes only where the limit leaves no step.
    pub fn look(&self, seat: &mut CallerSeat, s: u64) -> Result<u64, Halt>
        requires { MayStep O.Object self.now (Look s) seat.old }
        ensures { MakesStep self.now seat.old seat.new result (λ found. Steps self.now O.step O.only_reads (Look s) found seat.old seat.new) }
    {
        let word = link_at(self.callers.number, s);
        self.made(seat, &Kind::Look { s }, word, Instruction::Load)
    }

    /// Loads a word of the cell that the slot last looked at shows with a ticket, and notes it with the ticket. `Halt` comes only where the
    /// limit leaves no step.
    pub fn read_cell(&self, seat: &mut CallerSeat, t: u64, k: u64, i: u64) -> Result<u64, Halt>
        requires { MayStep O.Object self.now (ReadCell t k i) seat.old }
        ensures { MakesFittingStep O.Object self.now seat.old seat.new result (λ found. Steps self.now O.step O.only_reads (ReadCell t k i) found seat.old seat.new) }
    {
        let word = cell_at(self.callers.number, k, i);
        self.made(seat, &Kind::ReadCell { t, k, i }, word, Instruction::Load)
    }

    /// Loads FREE, the ticket below which cells may be written again. `Halt` comes only where the limit leaves no step.
    pub fn load_free(&self, seat: &mut CallerSeat) -> Result<u64, Halt>
        requires { IsSeatOf self.now seat.old }
        ensures { MakesStep self.now seat.old seat.new result (λ found. Steps self.now O.step O.only_reads LoadFree found seat.old seat.new) }
    {
        self.table_is_running();
        self.made(seat, &Kind::LoadFree, FREE_AT, Instruction::Load)
    }

    /// Stores in the caller's need that it needs the tickets from `p` on. It protects nothing before it is confirmed. `Halt`
    /// comes only where the limit leaves no step.
    pub fn protect(&self, seat: &mut CallerSeat, p: u64) -> Result<(), Halt>
        requires { MayStep O.Object self.now (Protect p) seat.old }
        ensures { MakesStep self.now seat.old seat.new result (λ _. Steps self.now O.step O.only_reads (Protect p) 0 seat.old seat.new) }
    {
        self.table_is_running();
        let word = need_at(seat.summary.number);
        self.stored(seat, &Kind::Protect { p }, word, p)
    }

    /// Loads LOW, which confirms the protection stated where it is at most its place: the tickets from there on are then not
    /// closed. `Halt` comes only where the limit leaves no step.
    pub fn confirm(&self, seat: &mut CallerSeat) -> Result<u64, Halt>
        requires { MayStep O.Object self.now Confirm seat.old }
        ensures { MakesStep self.now seat.old seat.new result (λ found. Steps self.now O.step O.only_reads Confirm found seat.old seat.new) }
    {
        self.table_is_running();
        self.made(seat, &Kind::Confirm, LOW_AT, Instruction::Load)
    }

    /// Releases the caller's protection: stores in its need that it needs no ticket. `Halt` comes only where the limit leaves no step.
    pub fn unprotect(&self, seat: &mut CallerSeat) -> Result<(), Halt>
        requires { MayStep O.Object self.now Unprotect seat.old }
        ensures { MakesStep self.now seat.old seat.new result (λ _. Steps self.now O.step O.only_reads Unprotect 0 seat.old seat.new) }
    {
        self.table_is_running();
        let word = need_at(seat.summary.number);
        self.stored(seat, &Kind::Unprotect, word, MAX_WORD)
    }

    /// Raises LOW to a target, so that no protection below it is confirmed any more, and begins a scan of what the callers
    /// need. It gives the word found. `Halt` comes only where the limit leaves no step.
    pub fn close_low(&self, seat: &mut CallerSeat, target: u64) -> Result<u64, Halt>
        requires { MayStep O.Object self.now (CloseLow target) seat.old }
        ensures { MakesStep self.now seat.old seat.new result (λ found. Steps self.now O.step O.only_reads (CloseLow target) found seat.old seat.new) }
    {
        self.table_is_running();
        let kind = Kind::CloseLow { target };
        self.made(seat, &kind, LOW_AT, Instruction::Raise(target))
    }

    /// Loads the need of caller `d`, the next one of the caller's scan, which lowers the scan's bound to it. `Halt` comes only where the
    /// limit leaves no step.
    pub fn scan(&self, seat: &mut CallerSeat, d: u64) -> Result<u64, Halt>
        requires { MayStep O.Object self.now (Scan d) seat.old }
        ensures { MakesStep self.now seat.old seat.new result (λ found. Steps self.now O.step O.only_reads (Scan d) found seat.old seat.new) }
    {
        self.table_is_running();
        let word = need_at(d as u32);
        self.made(seat, &Kind::Scan { d }, word, Instruction::Load)
    }

    /// Raises FREE to the bound that the caller's scan of every need found, so that the cells of the tickets below it may be
    /// written again, and ends the scan. It gives the word found. `Halt` comes only where the limit leaves no step.
    pub fn open_free(&self, seat: &mut CallerSeat) -> Result<u64, Halt>
        requires { MayStep O.Object self.now OpenFree seat.old }
        ensures { MakesStep self.now seat.old seat.new result (λ found. Steps self.now O.step O.only_reads OpenFree found seat.old seat.new) }
    {
        self.table_is_running();
        let bound = seat.summary.bound();
        self.made(seat, &Kind::OpenFree, FREE_AT, Instruction::Raise(bound))
    }
}

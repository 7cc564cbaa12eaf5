//! The callers of a service. Contracts see of each its seat: what it knows, linked and was answered. A seat and the room that its attempts
//! work in lie in memory of their own, so that callers are handed on by a word.

ghost use Rattle.std.specs.Prelude.{◌≡◌, ◌+◌, ◌<◌, Some, length, min};
ghost use Rattle.cx_core.specs.Layout.{max_word};
ghost use Rattle.table_invariant.specs.Seats.{unanswered_ticket};
ghost use Rattle.cx_table.specs.Calls.{TellsFront, TellsSteps};
ghost use Rattle.redo_set.specs.Taking.{sets_read};

use cx_attempts::Scratch;
use cx_table::CallerSeat;
use std::marker::Model;

/// A caller's seat, and the room that its turns work in.
#[derive(Drop)]
pub(crate) struct CallerState {
    pub(crate) seat: CallerSeat,
    pub(crate) scratch: Scratch,
}

/// A caller with no call under way.
#[derive(Drop)]
pub struct Caller {
    pub(crate) desk: Box<CallerState>,
}

impl Model for Caller {
    ghost use Rattle.table_invariant.specs.Seats.{Seated};

    ghost Value = { Seated };

    ghost use Rattle.cx_attempts.specs.Attempts.{IsCounted};

    ghost view = { λ c. c.desk.value.seat };

    ghost invariant = { λ c. IsCounted c.desk.value.scratch.taken c.desk.value.seat };
}

/// A caller whose entry is linked and not answered.
#[derive(Drop)]
pub struct Linked {
    pub(crate) desk: Box<CallerState>,
}

impl Model for Linked {
    ghost use Rattle.table_invariant.specs.Seats.{Seated};

    ghost Value = { Seated };

    ghost use Rattle.std.specs.Prelude.{◌≡◌, ◌+◌, length};
    ghost use Rattle.cx_attempts.specs.Attempts.{IsCounted};

    ghost view = { λ c. c.desk.value.seat };

    ghost invariant = { λ c. (length c.desk.value.seat.known.local.own ≡ length c.desk.value.seat.known.local.answered + 1) × IsCounted c.desk.value.scratch.taken c.desk.value.seat };
}

/// A caller whose step limit was reached. It makes no further step. Contracts see of it its seat, and the ticket of its linked entry
/// that no call has answered.
#[derive(Drop)]
pub struct Stopped {
    pub(crate) desk: Box<CallerState>,
    pub(crate) linked: Option<u64>,
}

impl Model for Stopped {
    ghost use Rattle.table_invariant.specs.Seats.{IsAtLimit};
    ghost use Rattle.cx_service.specs.Callers.{StoppedSeat};

    ghost Value = { StoppedSeat };

    ghost view = { λ c. record { seat = c.desk.value.seat; linked = c.linked } };

    ghost invariant = { λ c. IsAtLimit c.desk.value.seat.known.local };
}

impl Caller {
    /// The caller, from 0.
    pub fn number(&self) -> u32
        ensures { result ≡ self.now.known.local.number }
    {
        self.desk.seat.number()
    }

    /// The steps made, of which there are no more than the limit allows. This stays at 2^64 - 1 once there.
    pub fn steps(&self) -> u64
        ensures { TellsSteps self.now.known.local result }
    {
        self.desk.seat.steps()
    }

    /// Every ticket from the base's place to below it is linked.
    pub fn front(&self) -> u64
        ensures { TellsFront self.now.known.local result }
    {
        self.desk.seat.front()
    }

    /// The refusals met. This stays at 2^64 - 1 once there.
    pub fn met(&self) -> u64
        ensures { result ≡ self.now.known.local.met }
    {
        self.desk.seat.met()
    }

    /// The place behind an entry that it was answered, at this ticket, which is the ticket plus 1: another caller that catches up with it
    /// sees the entry.
    pub fn place_behind(&self, ticket: u64) -> u64
        requires { ticket < self.now.known.local.front }
        ensures { result ≡ ticket + 1 }
    {
        // the ticket is below this, which is 2^40 at most
        let _front = self.front();
        ticket + 1
    }

    /// How many write sets of other callers this caller read whole in this service, on whichever replica. That their entries were applied by them is
    /// said by no clause. This stays at 2^64 - 1 once there.
    pub fn taken(&self) -> u64
        ensures { result ≡ min (sets_read self.now.known.sets) max_word }
    {
        self.desk.scratch.taken
    }
}

impl Linked {
    /// The caller, from 0.
    pub fn number(&self) -> u32
        ensures { result ≡ self.now.known.local.number }
    {
        self.desk.seat.number()
    }

    /// The steps made, of which there are no more than the limit allows. This stays at 2^64 - 1 once there.
    pub fn steps(&self) -> u64
        ensures { TellsSteps self.now.known.local result }
    {
        self.desk.seat.steps()
    }

    /// Every ticket from the base's place to below it is linked.
    pub fn front(&self) -> u64
        ensures { TellsFront self.now.known.local result }
    {
        self.desk.seat.front()
    }

    /// The refusals met. This stays at 2^64 - 1 once there.
    pub fn met(&self) -> u64
        ensures { result ≡ self.now.known.local.met }
    {
        self.desk.seat.met()
    }

    /// The ticket of the entry that is linked and not answered.
    pub fn ticket(&self) -> u64
        ensures { unanswered_ticket self.now.known.local ≡ Some result }
    {
        self.desk.seat.unanswered().unwrap()
    }
}

impl Stopped {
    /// The caller, from 0.
    pub fn number(&self) -> u32
        ensures { result ≡ self.now.seat.known.local.number }
    {
        self.desk.seat.number()
    }

    /// The steps made, which are as many as its limit.
    pub fn steps(&self) -> u64
        ensures value { result ≡ self.now.seat.known.local.steps }
        ensures limit { result ≡ self.now.seat.known.local.limit }
    {
        self.desk.seat.steps()
    }

    /// Every ticket from the base's place to below it is linked.
    pub fn front(&self) -> u64
        ensures { TellsFront self.now.seat.known.local result }
    {
        self.desk.seat.front()
    }

    /// The refusals met. This stays at 2^64 - 1 once there.
    pub fn met(&self) -> u64
        ensures { result ≡ self.now.seat.known.local.met }
    {
        self.desk.seat.met()
    }

    /// The ticket of its linked entry that no call has answered, also where the durable root was raised above it before the step
    /// limit was reached.
    pub fn linked(&self) -> Option<u64>
        ensures { result ≡ self.now.linked }
    {
        self.linked
    }
}

//! Facts that a proof needs where no code asks for them. Each is the contract of a function that does nothing: a proof learns what a type promises of
//! a value by a call alone.

ghost use Rattle.table_invariant.specs.Seats.{IsWithinLimit};

use cx_table::CallerSeat;

/// A seat's caller has made no more steps than its limit allows.
#[inline(always)]
pub(crate) fn steps_are_within_limit(seat: &CallerSeat)
    ensures { IsWithinLimit seat.now.known.local }
{
    let _steps = seat.steps();
}

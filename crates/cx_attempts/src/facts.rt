//! Facts that a proof needs where no code asks for them. Each is the contract of a function that does nothing: a proof learns what a type promises of
//! a value by a call alone.

ghost use Rattle.std.specs.Prelude.{◌^◌, ◌<◌, ◌≤◌};
ghost use Rattle.table_invariant.specs.Running.{IsTableWithinLimits};

use cx_base::Object;
use cx_table::{CallerSeat, Shared};

/// A running table is within its limits.
#[inline(always)]
pub(crate) fn table_is_running<O: Object>(shared: &Shared<O>)
    ensures { IsTableWithinLimits O.line_count O.lawful shared.now }
{
    let _lines = shared.lines();
}

/// A running table has 1 to 8 callers.
#[inline(always)]
pub(crate) fn callers_are_few<O: Object>(shared: &Shared<O>)
    ensures some { 1 ≤ shared.now.callers }
    ensures few { shared.now.callers ≤ 8 }
{
    let _callers = shared.callers();
}

/// The refusals that a seat's caller met are counted in a word.
#[inline(always)]
pub(crate) fn refusals_fit(seat: &CallerSeat)
    ensures { seat.now.known.local.met < 2 ^ 64 }
{
    let _met = seat.met();
}

/// The tickets that a seat's caller knows of are few.
#[inline(always)]
pub(crate) fn tickets_are_few(seat: &CallerSeat)
    ensures { seat.now.known.local.front ≤ 2 ^ 40 }
{
    let _front = seat.front();
}

//! A fact that a proof needs where no code asks for it. It is the contract of a function that does nothing: a proof learns what a type promises of a
//! value by a call alone.

ghost use Rattle.std.specs.Prelude.{◌^◌, ◌<◌};

use cx_table::CallerSeat;

/// The refusals that a seat's caller met are counted in a word.
#[inline(always)]
pub(crate) fn refusals_fit(seat: &CallerSeat)
    ensures { seat.now.known.local.met < 2 ^ 64 }
{
    let _met = seat.met();
}

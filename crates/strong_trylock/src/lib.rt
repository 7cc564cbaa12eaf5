//! A caller that waits for a lock waits for whoever holds it, who may have stalled. With 2N replicas none needs to: another one is free.
//!
//! Each replica has a readers-writer lock that is only tried, as in CX (Correia, Ramalhete, Felber, PPoPP 2020). It is one word: an exclusive try
//! is a compare-and-swap from 0, a shared one adds 1 and takes it back where the exclusive mark stood; an exclusive right becomes a shared one by
//! one subtraction. No try is refused without a cause in the word (hence strong): a right, a pin, or the mark of a shared try that was refused and
//! not taken back yet. That the pins of the roots count in the same word is this project's own choice.
//!
//! - An exclusive try is one step. It answers `Held` exactly where the lock word found is not 0, with that word, which the seat keeps, and then
//!   the caller has the rights that it had; else the token of the replica: `try_exclusive` (`made`, `fits`, `halted`).
//! - A shared try answers `Held` exactly where the word found is 2^32 or more, with that word, which the seat keeps. Then a second step took
//!   the passer's mark back, and the caller has the rights that it had; else it is one step and hands the hold out: `try_shared` (`tried`,
//!   `fits`).
//! - A shared try halts exactly where a further step is to be made and the seat is at its limit: before the first step nothing is changed,
//!   before the second the passer's mark stands: `try_shared` (`halted`).
//! - The local state after a try is that of the events made, with the word found: `made` and `back` of `TriesExclusive`, `TakesShared`,
//!   `PassesBy`, `LeavesMark`.
//! - A downgrade is one step, and the exclusive right is then a downgraded one on the same replica. A release of an exclusive, a shared or
//!   a downgraded right is one step that ends that right and no other: `downgrade` (`made`: `Downgrades`), `release`, `release_shared`,
//!   `release_downgraded` (`made`: `Ends`). Each halts exactly at the limit, with nothing changed: `halted`.
//!
//! Tested (`table_tests`): each limit from 0 to 2 of a shared try that is refused, the word that it finds, and the mark that is left with a limit of
//! 1, which refuses an exclusive try; two threads that take replicas from each other, downgrade and release.
#![tactic(auto)]

mod try_lock;

pub use try_lock::{
    ExclusiveTried, SharedTried, downgrade, release, release_downgraded, release_shared,
    try_exclusive, try_shared,
};

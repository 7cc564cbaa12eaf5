//! An attempt for the caller's linked entry: a replica is prepared, published and made durable, by which the entry is answered.

ghost use Rattle.std.specs.Prelude.{◌+◌, ◌≡◌, IfOk, List, MatchResult, OnErr, OnOk, Some, ℕ};
ghost use Rattle.table_invariant.specs.Running.{IsSeatOf};
ghost use Rattle.table_invariant.specs.Seats.{unanswered_ticket};
ghost use Rattle.table_invariant.specs.Steps.{Halts};
ghost use Rattle.cx_table.specs.Tokens.{IsDowngradedOf, IsWonOf};
ghost use Rattle.cx_attempts.specs.Answering.{AnswersBy, AnswersEntry, HaltsFor, HaltsWon, IsPublishedFor, IsReadyFor, AttemptsUpdate, unchanged_by_hand_over, unchanged_by_settling, unchanged_by_update};
ghost use Rattle.cx_attempts.specs.Bringing.{CountsAttempt};
ghost use Rattle.cx_attempts.specs.Attempts.{KeepsSeatIn, MayAttempt, RaisesFront, RaisesFrontIn, cur_rises};
ghost use Rattle.strong_trylock.specs.Held.{HasRight};

use crate::preparation::prepare;
use crate::scratch::Scratch;
use cx_base::{Halt, Object, OpWords};
use cx_table::{CallerSeat, Downgraded, Shared, Won};
use publish::{Published, make_durable, publish, retire};

/// One attempt for the caller's entry with a ticket, which is linked and not answered. A replica that nobody holds is brought up to the ticket under a
/// protection of its place, where that is at most the ticket. Where its place is behind the ring, the current replica is copied over it first. It is made
/// durable and published, DUR is raised by the code that won or that was found in CUR, and where it won the replica that was current before is released. No
/// protection stands after the attempt. It writes the reply into the caller's buffer, or returns false where each replica was refused, or the current one was
/// held exclusively or at another place when it was to be copied, or was behind the ring after the copy. `Halt` comes only where the seat's steps equal its
/// limit.
pub fn try_update_once<O: Object>(
    shared: &Shared<O>,
    seat: &mut CallerSeat,
    ticket: u64,
    scratch: &mut Scratch,
    reply: &mut OpWords,
) -> Result<bool, Halt>
    requires ready { MayAttempt shared.now ticket seat.old }
    requires last { unanswered_ticket seat.old.known.local ≡ Some ticket }
    ensures attempted { IfOk result (AttemptsUpdate ticket reply.new seat.old seat.new) }
    ensures halted { OnErr result (HaltsFor shared.now.callers ticket seat.old seat.new) }
    ensures counted { IfOk result (CountsAttempt scratch.old.taken seat.old scratch.new.taken seat.new) }
    ensures attempts { RaisesFront shared.now unchanged_by_update seat.old seat.new }
{
    let Some(held) = prepare(shared, seat, ticket, scratch, reply)? else {
        return Ok(false);
    };
    hand_over(shared, seat, held)?;
    Ok(true)
}

/// Publishes a replica that is ready for the caller's entry, and answers the entry.
fn hand_over<O: Object>(
    shared: &Shared<O>,
    seat: &mut CallerSeat,
    held: Downgraded,
) -> Result<(), Halt>
    requires held { HasRight IsDowngradedOf shared.now seat.old held }
    requires ready { (ticket : ℕ) × (reply : List ℕ) × IsReadyFor O.Object shared.now ticket reply seat.old }
    ensures answered { (ticket : ℕ) (reply : List ℕ) → IsReadyFor O.Object shared.now ticket reply seat.old → MatchResult result (λ _. AnswersEntry 1 ticket reply seat.old seat.new) (λ _. HaltsFor shared.now.callers ticket seat.old seat.new) }
    ensures attempts { RaisesFrontIn shared.now unchanged_by_hand_over (3 + cur_rises seat.old seat.new) seat.old seat.new }
{
    match publish(shared, seat, held)? {
        Published::Won(won) => settle_won(shared, seat, won),
        Published::Passed { found } => answer(shared, seat, found),
    }
}

/// Answers the entry by the code that the caller won with, and gives the replica before up.
fn settle_won<O: Object>(shared: &Shared<O>, seat: &mut CallerSeat, won: Won) -> Result<(), Halt>
    requires seat { IsSeatOf shared.now seat.old }
    requires won { IsWonOf shared.now.callers seat.old won }
    requires published { (ticket : ℕ) × (reply : List ℕ) × IsPublishedFor O.Object shared.now won.code ticket reply seat.old }
    ensures answered { (ticket : ℕ) (reply : List ℕ) → IsPublishedFor O.Object shared.now won.code ticket reply seat.old → MatchResult result (λ _. AnswersEntry 0 ticket reply seat.old seat.new) (λ _. HaltsWon ticket seat.old seat.new) }
    ensures keeps { KeepsSeatIn shared.now unchanged_by_settling 2 seat.old seat.new }
{
    answer(shared, seat, won.code())?;
    retire(shared, seat, won)?;
    Ok(())
}

/// Raises DUR by a code whose place is above the entry's ticket, which answers it.
fn answer<O: Object>(shared: &Shared<O>, seat: &mut CallerSeat, code: u64) -> Result<(), Halt>
    requires seat { IsSeatOf shared.now seat.old }
    requires published { (ticket : ℕ) × (reply : List ℕ) × IsPublishedFor O.Object shared.now code ticket reply seat.old }
    ensures answered { (ticket : ℕ) (reply : List ℕ) → IsPublishedFor O.Object shared.now code ticket reply seat.old → OnOk result (AnswersBy O.Object shared.now code ticket reply seat.old seat.new) }
    ensures halted { OnErr result (Halts shared.now seat.old seat.new) }
{
    make_durable(shared, seat, code, None)
}

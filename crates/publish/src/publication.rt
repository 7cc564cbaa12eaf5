//! A downgraded replica is put into CUR, where its place is above that of the code found there. Then DUR is raised, by which alone callers are
//! answered, and the win is retired.

ghost use Rattle.std.specs.Prelude.{◌≡◌, ◌<◌, ◌≤◌, OnOk, List};
ghost use Rattle.cx_base.specs.Codes.{root_place_of};
ghost use Rattle.table_invariant.specs.Seats.{IsAtLimit};
ghost use Rattle.publish.specs.Publishing.{EndsExchange, EndsPublishing, KeepsRest, MayPublish, place_in};
ghost use Rattle.cx_core.specs.declared.local.Answer.{Answer};
ghost use Rattle.cx_core.specs.declared.kinds.Kind.TheVariants.{Raise, Retire};
ghost use Rattle.table_invariant.specs.Raises.{Raises, read_op_in};
ghost use Rattle.table_invariant.specs.Running.{IsSeatOf};
ghost use Rattle.table_invariant.specs.Stores.{TellsAnswersIn, TellsReadsIn};
ghost use Rattle.cx_table.specs.Calls.{MakesStep, MayStep};
ghost use Rattle.cx_table.specs.Tokens.{IsWonOf};
ghost use Rattle.strong_trylock.specs.Ends.{MakesOne};

use cx_base::{Halt, Object, root_place};
use cx_table::{AnsweredRead, CallerSeat, Downgraded, Shared, Won};
use strong_trylock::release_downgraded;

/// The outcome of a publication.
#[derive(Debug, Drop)]
pub enum Published {
    /// The replica is the current one. The one before stays pinned until the win is retired.
    Won(Won),
    /// Another published a place that is not below the caller's own: the code found.
    Passed { found: u64 },
}

/// Publishes a replica that the caller has downgraded: a compare-exchange of CUR, which turns again where it was lost to a smaller
/// place. `Passed` comes exactly where a code found in CUR has a place not below the replica's; then the right was released.
/// Each exchange that is lost found a later code, so that there are no more steps than CUR rose, and one; and at most one refusal is
/// met. `Halt` comes exactly where a further step is to be made and the seat's steps equal its limit: the right then stands.
pub fn publish<O: Object>(
    shared: &Shared<O>,
    seat: &mut CallerSeat,
    held: Downgraded,
) -> Result<Published, Halt>
    requires ready { MayPublish shared.now seat.old held }
    ensures published { EndsPublishing shared.now.callers seat.old seat.new result }
    ensures allowed { OnOk result (¬ IsAtLimit seat.old.known.local) }
    ensures leaves { KeepsRest shared.now 1 seat.old seat.new }
{
    let callers = shared.callers();
    let place = held_place(seat);
    let mut held = held;
    while root_place(callers, seat.seen_cur()) < place {
        match exchange(shared, seat, held)? {
            Ok(won) => return Ok(Published::Won(won)),
            Err(given) => held = given,
        }
    }
    pass(shared, seat, held)
}

/// Releases the right where the code last found in CUR has a place not below the caller's own.
fn pass<O: Object>(
    shared: &Shared<O>,
    seat: &mut CallerSeat,
    held: Downgraded,
) -> Result<Published, Halt>
    requires ready { MayPublish shared.now seat.old held }
    requires above { place_in seat.old.known.local.downgraded ≤ root_place_of shared.now.callers seat.old.known.local.seen_cur }
    ensures published { EndsPublishing shared.now.callers seat.old seat.new result }
    ensures allowed { OnOk result (¬ IsAtLimit seat.old.known.local) }
    ensures leaves { KeepsRest shared.now 1 seat.old seat.new }
    ensures met { seat.new.known.local.met ≡ seat.old.known.local.met }
{
    let found = seat.seen_cur();
    release_downgraded(shared, seat, held)?;
    Ok(Published::Passed { found })
}

/// One compare-exchange of CUR, by which the right is handed over, or which was lost to a later code.
fn exchange<O: Object>(
    shared: &Shared<O>,
    seat: &mut CallerSeat,
    held: Downgraded,
) -> Result<Result<Won, Downgraded>, Halt>
    requires ready { MayPublish shared.now seat.old held }
    requires below { root_place_of shared.now.callers seat.old.known.local.seen_cur < place_in seat.old.known.local.downgraded }
    ensures exchanged { EndsExchange shared.now.callers seat.old seat.new result }
    ensures allowed { OnOk result (¬ IsAtLimit seat.old.known.local) }
    ensures leaves { KeepsRest shared.now 0 seat.old seat.new }
{
    // counts are words
    let _met = seat.met();
    let (_found, exchanged) = shared.publish(seat, held)?;
    Ok(exchanged)
}

/// The place of the replica that a seat's caller has downgraded, 0 where it has none.
fn held_place(seat: &CallerSeat) -> u64
    ensures { result ≡ place_in seat.now.known.local.downgraded }
{
    match seat.downgraded() {
        None => 0,
        Some(held) => held.place,
    }
}

/// Raises DUR to a code, in one step, by which alone callers are answered: the caller's unanswered entry where its ticket is below the
/// code's place, and a read, where one is given. The code is the one last found in CUR, or the one that
/// the caller won with. `Halt` comes exactly where the seat's steps equal its limit.
pub fn make_durable<O: Object>(
    shared: &Shared<O>,
    seat: &mut CallerSeat,
    code: u64,
    read: Option<AnsweredRead>,
) -> Result<(), Halt>
    requires may { MayStep O.Object shared.now (Raise code (read_op_in read)) seat.old }
    requires answers { (answers : List Answer) × TellsAnswersIn O.Object shared.now seat.old.known (root_place_of shared.now.callers code) answers }
    requires reads { TellsReadsIn O.Object shared.now seat.old.known read }
    ensures { MakesStep shared.now seat.old seat.new result (λ _. (answers : List Answer) → TellsAnswersIn O.Object shared.now seat.old.known (root_place_of shared.now.callers code) answers → Raises shared.now O.step O.only_reads code answers read.entry seat.old seat.new) }
{
    shared.raise(seat, code, read)?;
    Ok(())
}

/// Retires a win, in one step: the replica of the code before it is free then, once nobody else has a right on it. The caller has
/// raised DUR at least by the code that won. `Halt` comes exactly where the seat's steps equal its limit.
pub fn retire<O: Object>(shared: &Shared<O>, seat: &mut CallerSeat, won: Won) -> Result<(), Halt>
    requires seat { IsSeatOf shared.now seat.old }
    requires won { IsWonOf shared.now.callers seat.old won }
    requires raised { won.code ≤ seat.old.known.local.raised }
    ensures { MakesStep shared.now seat.old seat.new result (λ _. MakesOne shared.now O.step O.only_reads Retire seat.old seat.new) }
{
    shared.retire(seat, won)?;
    Ok(())
}

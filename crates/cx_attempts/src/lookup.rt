//! An attempt for a read beside the queue: the current replica is read, and DUR is raised by its code, by which the read is answered.

ghost use Rattle.std.specs.Prelude.{◌≡◌, IfOk, IsTrue, MatchResult, OnErr, Some};
ghost use Rattle.cx_core.specs.RootEvents.{CanAnswer};
ghost use Rattle.table_invariant.specs.Raises.{TellsRead};
ghost use Rattle.cx_base.specs.Codes.{root_place_of};
ghost use Rattle.table_invariant.specs.Running.{instance_at};
ghost use Rattle.table_invariant.specs.Steps.{Halts};
ghost use Rattle.cx_attempts.specs.Answering.{AnswersRead, AnswersReadBy, HaltsLookup, IsLookedUp, MayLook, MayRaiseCurrent, AttemptsRead, unchanged_by_lookup};
ghost use Rattle.cx_attempts.specs.Attempts.{RaisesCur, RaisesFrontIn};

use crate::current::read_current;
use cx_base::{Halt, Object, OpWords, root_place};
use cx_core::op_fits;
use cx_table::{AnsweredRead, CallerSeat, Shared, SharedHold};
use publish::make_durable;
use strong_trylock::release_shared;

/// What a read found: the place of the replica that was read, and the reply there.
#[derive(Clone, Copy, Debug, PartialEq, Eq, Drop)]
pub struct Seen {
    pub place: u64,
    pub reply: OpWords,
}

/// One attempt for an operation that only reads, of a caller whose entries are all answered. CUR is loaded, its replica is read, and
/// DUR raised by its code. It returns the place that was read, and the reply is written into the caller's buffer, since each copy of its
/// words costs a good part of the attempt. `None` comes where another holds the replica exclusively or it is at another place by then.
/// `Halt` comes only where the seat's steps equal its limit.
pub fn try_read_once<O: Object>(
    shared: &Shared<O>,
    seat: &mut CallerSeat,
    op: &OpWords,
    reply: &mut OpWords,
) -> Result<Option<u64>, Halt>
    requires ready { MayLook shared.now seat.old }
    requires reads { IsTrue (O.only_reads shared.now.object op.now) }
    ensures attempted { IfOk result (AttemptsRead shared.now.callers op.now reply.new seat.old seat.new) }
    ensures halted { OnErr result (HaltsLookup seat.old.known.local.steps op.now seat.old seat.new) }
    ensures attempts { RaisesCur shared.now unchanged_by_lookup seat.old seat.new }
{
    shared.load_cur(seat)?;
    let Some(hold) = read_current(shared, seat, op, reply)? else {
        return Ok(None);
    };
    let place = root_place(shared.callers(), seat.seen_cur());
    settle_read(shared, seat, hold, op, reply)?;
    Ok(Some(place))
}

/// Answers a read at the place of the code last loaded from CUR, and gives the shared right back under which it was found.
fn settle_read<O: Object>(
    shared: &Shared<O>,
    seat: &mut CallerSeat,
    hold: SharedHold,
    op: &OpWords,
    reply: &OpWords,
) -> Result<(), Halt>
    requires read { IsLookedUp O.Object shared.now op.now reply.now seat.old hold }
    requires reads { IsTrue (O.only_reads shared.now.object op.now) }
    ensures answered { MatchResult result (λ _. AnswersRead seat.old.known.times.loaded op.now (root_place_of shared.now.callers seat.old.known.local.seen_cur) reply.now seat.old seat.new) (λ _. HaltsLookup seat.old.known.times.loaded op.now seat.old seat.new) }
    ensures attempts { RaisesFrontIn shared.now unchanged_by_lookup 2 seat.old seat.new }
    ensures same { seat.new.known.local.seen_cur ≡ seat.old.known.local.seen_cur }
{
    let code = seat.seen_cur();
    op_fits(op);
    answer_read(shared, seat, code, op, reply)?;
    release_shared(shared, seat, hold)?;
    Ok(())
}

/// Raises DUR by the code last loaded from CUR, which answers the read.
fn answer_read<O: Object>(
    shared: &Shared<O>,
    seat: &mut CallerSeat,
    code: u64,
    op: &OpWords,
    reply: &OpWords,
) -> Result<(), Halt>
    requires may { MayRaiseCurrent shared.now code seat.old }
    requires guard { CanAnswer (instance_at shared.now O.step O.only_reads) code seat.old.known.local (Some op.now) }
    requires reply { TellsRead shared.now.lines (O.lawful shared.now.object) shared.now.base (O.step shared.now.object) seat.old.known op.now reply.now }
    ensures answered { MatchResult result (λ _. AnswersReadBy O.Object shared.now code op.now reply.now seat.old seat.new) (λ _. Halts shared.now seat.old seat.new) }
{
    make_durable(shared, seat, code, Some(AnsweredRead { op, reply }))
}

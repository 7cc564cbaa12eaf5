//! A caller is taken for a call of a client, and given back or kept.
//!
//! What the passes here know is a `LenderPass` of `seat_pool`: its `home` is the service that lends the callers, and its `parts` are some of the 1,024
//! parts into which the right to know the whole queue is cut. A client's pass has one of them; a pass without any may take no caller.

ghost use Rattle.std.specs.Prelude.{◌≡◌, ◌<◌, IsTrue, Some, true};
ghost use Rattle.crossbeam_queue.specs.Passes.{view, IsPassOf};
ghost use Rattle.cx_service.specs.Callers.{IsCallerOf};
ghost use Rattle.cx_service.specs.declared.close.Handed.TheVariants as handed_cases;
ghost use Rattle.seat_pool.specs.Pooling.{HasLimit, IsHomeOf, limits_at, with_taken};
ghost use Rattle.client_pool.specs.Lending.{Begins, CatchesUpToFloor, IsFirstCaller, IsLentTo, IsOut, IsPart, IsPool, MayLend, MaySettle, Settles, TellsSame, is_live};

use crate::pool::Pool;
use crossbeam_queue::Pass;
use cx_base::{Object, OpWords};
use cx_core::FullNote;
use cx_service::{Caller, Handed, ReadTried, Service, Stopped, Updated};
use seat_pool::{LenderPass, LenderQueue, Lent, give, take};
use std::sync::Wait;
use std::thread;

/// The number of attempts of one read of the probe, after which the thread yields and reads again.
const TURNS: u64 = 8;

/// The result of having a caller see all entries below a floor.
#[derive(Drop)]
pub(crate) enum Caught {
    /// The caller has seen all below the floor: its front is not below it.
    Up(Caller),
    /// The caller's step limit was reached.
    Ended(Stopped),
}

/// The result of an operation that enters the queue.
#[derive(Drop)]
pub(crate) enum EntryOutcome {
    /// The operation is answered, as an entry of the caller of this number at this ticket.
    Done(u32, u64),
    /// No cell of the caller is idle.
    Full(FullNote),
    /// There is no further ticket.
    Worn,
    /// The caller's step limit was reached: the ticket of its linked entry that no call has answered, if there is one.
    Halted(Option<u64>),
}

/// Waits until there is a caller in the queue, and takes it out.
fn take_waiting<O: Object, R: Wait>(
    rt: &R,
    service: &Service<O>,
    line: &LenderQueue,
    pass: &mut Pass<Caller, LenderPass>,
) -> Caller
    // Three facts: the pass is one of this queue, it knows that the queue is this service's, and it has a part, by which it may take a caller.
    requires { IsPassOf line.now pass.old × IsHomeOf service.now (view pass.old).home × (0 < (view pass.old).parts) }
    // The pass is still one of this queue, and holds the caller.
    ensures pass { IsPassOf line.now pass.new × (view pass.new ≡ with_taken (view pass.old) result) }
    // The caller is one of the service, and has the step limit with which it was placed in the queue.
    ensures caller { IsCallerOf service.now result × HasLimit (limits_at (view pass.old).home) result }
{
    for _ in rt.forever() {
        if let Some(caller) = take(rt, service, line, pass) {
            return caller;
        }
        thread::yield_now();
    }
    unreachable!()
}

/// Takes the caller for a call: the one that the client keeps, or, where it keeps none, one out of the queue, for which it waits.
pub(crate) fn take_for<O: Object, R: Wait>(
    rt: &R,
    service: &Service<O>,
    line: &LenderQueue,
    lent: &mut Lent,
) -> Caller
    requires lent { IsLentTo service.now line.now.table.shared.table_id lent.old }
    requires live { is_live lent.old.kept ≡ true }
    ensures out { IsOut service.now line.now.table.shared.table_id lent.new result }
    ensures same { TellsSame lent.old lent.new }
    ensures first { IsFirstCaller lent.old.kept (view lent.new.pass) result }
{
    match lent.kept.take() {
        None => take_waiting(rt, service, line, &mut lent.pass),
        Some(Handed::Idle(caller)) => caller,
        Some(Handed::Linked(_)) | Some(Handed::Stopped(_)) => unreachable!(),
    }
}

/// Reads the probe, into `buffer`, until the caller has seen all below `floor`. It waits for those who publish.
fn catch_up<O: Object, R: Wait>(
    rt: &R,
    service: &Service<O>,
    probe: &OpWords,
    caller: Caller,
    floor: u64,
    buffer: &mut OpWords,
) -> Caught
    requires caller { IsCallerOf service.now caller }
    requires probe { IsTrue (O.only_reads service.now.object probe.now) }
    ensures { CatchesUpToFloor service.now floor caller result }
{
    let mut caller = caller;
    for _ in rt.forever() {
        if caller.front() >= floor {
            return Caught::Up(caller);
        }
        match service.try_read(caller, probe, buffer, TURNS) {
            ReadTried::Read(back, _) => caller = back,
            ReadTried::Pending(back) => {
                thread::yield_now();
                caller = back;
            }
            ReadTried::Halted(stopped) => return Caught::Ended(stopped),
        }
    }
    unreachable!()
}

/// Makes the client keep a stopped caller. The result is the ticket of the caller's linked entry that no call has answered, if there is one.
pub(crate) fn keep_stopped(lent: &mut Lent, stopped: Stopped) -> Option<u64>
    ensures kept { (lent.new.pass ≡ lent.old.pass) × (lent.new.kept ≡ Some (handed_cases.Stopped stopped)) }
    ensures linked { result ≡ stopped.linked }
{
    let linked = stopped.linked();
    lent.kept = Some(Handed::Stopped(stopped));
    linked
}

/// Takes a caller, and has it see all below `floor`, by reads of the probe into `buffer`. `Err` comes where the caller's step limit was reached: the client
/// keeps it, and the ticket is that of its linked entry that no call has answered.
pub(crate) fn begin<O: Object, R: Wait>(
    rt: &R,
    pool: &Pool<O>,
    lent: &mut Lent,
    floor: u64,
    buffer: &mut OpWords,
) -> Result<Caller, Option<u64>>
    requires { MayLend O.only_reads pool.now lent.old }
    ensures { Begins pool.now.service pool.now.line.table.shared.table_id floor lent.old lent.new result }
{
    let caller = take_for(rt, &pool.service, &pool.line, lent);
    match catch_up(rt, &pool.service, &pool.probe, caller, floor, buffer) {
        Caught::Up(caller) => Ok(caller),
        Caught::Ended(stopped) => Err(keep_stopped(lent, stopped)),
    }
}

/// Puts the caller away after an operation that entered the queue: gives it back where the operation is answered, and has the client keep it where not.
pub(crate) fn settle<O: Object, R: Wait>(
    rt: &R,
    pool: &Pool<O>,
    lent: &mut Lent,
    updated: Updated,
) -> EntryOutcome
    requires pool { IsPool O.only_reads pool.now }
    requires lent { IsPart pool.now.service pool.now.line.table.shared.table_id lent.old }
    requires updated { MaySettle pool.now.service lent.old updated }
    ensures { Settles pool.now.line.table.shared.table_id lent.old lent.new updated result }
{
    match updated {
        Updated::Done(back, ticket) => {
            let number = back.number();
            // the proof takes from this that the caller's front is at most 2^40, the number of all tickets
            let _front = back.front();
            give(rt, &pool.service, &pool.line, &mut lent.pass, back);
            EntryOutcome::Done(number, ticket)
        }
        Updated::Full(back, note) => {
            lent.kept = Some(Handed::Idle(back));
            EntryOutcome::Full(note)
        }
        Updated::Worn(back) => {
            lent.kept = Some(Handed::Idle(back));
            EntryOutcome::Worn
        }
        Updated::Halted(stopped) => EntryOutcome::Halted(keep_stopped(lent, stopped)),
    }
}

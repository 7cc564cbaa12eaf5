//! A caller of a shared service, with its share of the service.

ghost use Rattle.std.specs.Prelude.{◌≡◌, ◌∷◌, [], Some, length};
ghost use Rattle.std.specs.Arc.{arc_value};
ghost use Rattle.table_invariant.specs.Running.{IsTableWithinLimits};
ghost use Rattle.seat_pool.specs.Gathering.{IsHandedOf, handed_number};
ghost use Rattle.c_sessions.specs.Handing.{IsExitOf};
ghost use Rattle.c_sessions.specs.Sessions.{CallsIn, FinishesIn, IsSessionOpen, LeavesOpen, SeesIn, TakesIn};

use crate::catch_up::{SessionCatchUp, catch_up_idle};
use crate::checkpoint::{SessionCheckpoint, take_image};
use crate::exit::ClosingState;
use crate::steps::{Called, call_idle, finish_linked};
use crate::tries::Tries;
use cx_base::{Object, OpWords};
use cx_service::{Handed, Service};
use std::alloc::Global;
use std::sync::Arc;

/// A share of a service, with one of its callers, `handed`, which is idle, has a linked entry or is stopped; `None` only within a call. `exit` is
/// what the session needs to be closed. `place` is the greatest place that the session was answered at, caught up with or took an image at, 0 at
/// first.
#[derive(Drop)]
pub struct Session<O: Object> {
    pub(crate) service: Arc<Service<O>, Global>,
    pub(crate) exit: ClosingState<O>,
    pub(crate) handed: Option<Handed>,
    pub(crate) place: u64,
}

impl<O: Object> Session<O> {
    /// The session of a caller in whichever state that is. Its place is 0: it was answered nothing yet.
    pub(crate) fn of(
        service: Arc<Service<O>, Global>,
        exit: ClosingState<O>,
        handed: Handed,
    ) -> Session<O>
        requires handed { IsHandedOf (arc_value service) handed }
        requires exit { IsExitOf (arc_value service) (handed_number handed ∷ []) exit }
        ensures opened { IsSessionOpen result }
        ensures of { (arc_value result.service ≡ arc_value service) × (result.handed ≡ Some handed) }
    {
        Session {
            service,
            exit,
            handed: Some(handed),
            place: 0,
        }
    }

    /// Does an operation, in at most the given number of tries. The reply is written where the call is done; `reply` may have any words where it is not.
    ///
    /// From `crates/githoppu_c/src/content.rt`:
    /// ```rattle
    /// match self {
    ///     HandleState::Session(session) => session.call(op, reply, tries),
    ///     _ => Called::OutOfTurn,
    /// }
    /// ```
    pub fn call(&mut self, op: &OpWords, reply: &mut OpWords, tries: Tries) -> Called
        requires opened { IsSessionOpen self.old }
        ensures { LeavesOpen self.new (CallsIn O.only_reads op.now tries.count self.old result self.new reply.new) }
    {
        let Some(handed) = self.handed.take() else {
            unreachable!()
        };
        let (handed, called) = call_idle(&self.service, handed, op, reply, tries);
        self.handed = Some(handed);
        self.place = called.place_after(self.place);
        called
    }

    /// Drives the linked entry to its answer, in at most the given number of attempts. `Done` has the answer's place, and `reply` has the reply
    /// then; `reply` may have any words after another result. `OutOfTurn` where the caller has no linked entry.
    pub fn finish(&mut self, reply: &mut OpWords, tries: Tries) -> Called
        requires opened { IsSessionOpen self.old }
        ensures { LeavesOpen self.new (FinishesIn tries.count self.old result self.new reply.new) }
    {
        let Some(handed) = self.handed.take() else {
            unreachable!()
        };
        let (handed, called) = finish_linked(&self.service, handed, reply, tries);
        self.handed = Some(handed);
        self.place = called.place_after(self.place);
        called
    }

    /// The session's place: who catches up with it sees all that this session was answered or caught up with.
    /// It is 0 before the first answer, and does not fall.
    pub fn place(&self) -> u64
        ensures { result ≡ self.now.place }
    {
        self.place
    }

    /// Has the session catch up with the place of another session of the service, got in whatever way. From `Caught` on each answer to this session stands at
    /// or above `place`. `Behind` comes only where the current place was found below `place`, which is where nobody was answered at it.
    pub fn catch_up(&mut self, place: u64) -> SessionCatchUp
        requires opened { IsSessionOpen self.old }
        ensures { LeavesOpen self.new (SeesIn place self.old result self.new) }
    {
        let Some(handed) = self.handed.take() else {
            unreachable!()
        };
        let (handed, sight) = catch_up_idle(&self.service, handed, place);
        self.handed = Some(handed);
        self.place = sight.place_seen(place, self.place);
        sight
    }

    /// Takes an image of the object, results included, while others go on, in at most the given number of tries. After `At` the words are a base from
    /// which a service may start, at this place, which is the session's then. After another answer `into` may have any words.
    pub fn checkpoint(&mut self, into: &mut [u64], tries: Tries) -> SessionCheckpoint
        requires opened { IsSessionOpen self.old }
        requires words { length into.old ≡ length (arc_value self.old.service).base.words }
        ensures takes { LeavesOpen self.new (TakesIn O.Object into.new tries.count self.old result self.new) }
        ensures length { length into.new ≡ length into.old }
    {
        let Some(handed) = self.handed.take() else {
            unreachable!()
        };
        let (handed, taken) = take_image(&self.service, handed, into, tries);
        self.handed = Some(handed);
        self.place = taken.place_taken(self.place);
        taken
    }

    /// The lines of the object. A running service is within its limits.
    pub fn lines(&self) -> u64
        ensures value { result ≡ (arc_value self.now.service).lines }
        ensures running { IsTableWithinLimits O.line_count O.lawful (arc_value self.now.service) }
    {
        self.service.lines()
    }

    /// How many callers the service has.
    pub fn callers(&self) -> u32
        requires { IsSessionOpen self.now }
        ensures { result ≡ (arc_value self.now.service).callers }
    {
        self.exit.handover.callers
    }
}

// It compiles only where a `T` may be sent to another thread, and does nothing.
const fn goes_to_a_thread<T: Send>() {}

/// A check by the compiler, which does nothing: a session may go to another thread where its object may go to another thread and be shared by threads.
pub const fn sessions_cross_threads<O: Object + Send + Sync>() {
    goes_to_a_thread::<Session<O>>();
}

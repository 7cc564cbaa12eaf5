//! The queue in which the callers lie that closed sessions handed in, until the last session takes them out.

ghost use Rattle.std.specs.Prelude.{◌≡◌, ◌<◌, IfOk, MatchOption, Some, drop, take};
ghost use Rattle.std.specs.Arc.{arc_value};
ghost use Rattle.std.specs.List.{range_with_len};
ghost use Rattle.crossbeam_queue.specs.Passes.{view, IsPassOf};
ghost use Rattle.table_invariant.specs.Running.{Running};
ghost use Rattle.c_sessions.specs.Handing.{HandsInTo, IsPassOpen, IsPassIn};
ghost use Rattle.c_sessions.specs.Rule.{IsHandedInAt, TellsAll, numbers_in, pass_with_taken};

use crate::rule::{Gives, HandedIn, Knows, Opens, Parts, ReturnedCallers, Starts, Takes};
use crossbeam_queue::Pass;
use cx_base::Object;
use cx_service::Service;
use std::alloc::Global;
use std::sync::Arc;
use std::sync::atomic::AtomicU64;

/// How many times a push or a pop is tried at most. Each other caller is in the way at most once.
const TRIES: u32 = 64;

/// The queue is `line`. `came` counts the callers that were handed in so far, and `callers` is how many callers the service has.
#[derive(Drop)]
pub struct ReturnQueue<O: Object> {
    pub(crate) line: ReturnedCallers<O>,
    pub(crate) came: AtomicU64,
    pub(crate) callers: u32,
}

/// Why there is no queue.
#[derive(Clone, Copy, Debug, PartialEq, Eq, Drop)]
pub(crate) enum NoQueue {
    /// Out of memory.
    Memory,
    /// The new queue did not take the share of the service that goes through it first, or did not give it back.
    InTheWay,
}

/// An empty queue for the `callers` callers of the `service`, and a pass of it that is to hand in all of them. `Err` says why there is none.
pub(crate) fn open_for<O: Object>(
    alloc: Global,
    service: &Arc<Service<O>, Global>,
    callers: u32,
) -> Result<(ReturnQueue<O>, Pass<HandedIn<O>, Knows<O>>), NoQueue>
    requires { (0 < callers) × (callers ≡ (arc_value service.now).callers) }
    ensures { IfOk result (λ q. IsPassOpen (arc_value service.now) callers (range_with_len 0 callers) q.0 q.1) }
{
    let Ok((line, mut pass)) = ReturnedCallers::ruled(alloc, callers as usize) else {
        return Err(NoQueue::Memory);
    };
    let Ok(share) = Arc::try_clone(service) else {
        return Err(NoQueue::Memory);
    };
    let share = HandedIn {
        service: share,
        handed: None,
    };
    // a share of the service goes through the queue once, so that the pass learns which service its queue is of
    // no other thread has the queue yet, so nobody is in the way of this push and of the pop after it
    let Ok(()) = line.try_push_as::<Opens>(&mut pass, share) else {
        return Err(NoQueue::InTheWay);
    };
    let Some(_) = line.try_pop_as::<Starts>(&mut pass) else {
        return Err(NoQueue::InTheWay);
    };
    let handover = ReturnQueue {
        line,
        came: AtomicU64::new(0),
        callers,
    };
    Ok((handover, pass))
}

impl<O: Object> ReturnQueue<O> {
    /// Makes a pass that is to hand in the first caller that `pass` is still to hand in, and returns it. `pass` keeps the others: `due` lists the
    /// numbers of the callers that a pass is still to hand in.
    pub(crate) fn share(
        &self,
        service: &Service<O>,
        pass: &mut Pass<HandedIn<O>, Knows<O>>,
    ) -> Pass<HandedIn<O>, Knows<O>>
        requires { IsPassIn service.now (view pass.old).due self.now pass.old }
        ensures old { IsPassIn service.now (drop 1 (view pass.old).due) self.now pass.new }
        ensures new { IsPassIn service.now (take 1 (view pass.old).due) self.now result }
    {
        // the rule's event `Parts`: the first caller that is due becomes a pass of its own
        self.line.another::<Parts>(pass)
    }

    /// Puts `given`, the caller of `pass` with its share of the service, into the queue. `given` has to be of the pass's service and the one caller
    /// that the pass is still to hand in. `Err` hands both back, and leaves what the pass knows: others were in the way in each try.
    pub(crate) fn hand_in(
        &self,
        pass: &mut Pass<HandedIn<O>, Knows<O>>,
        given: HandedIn<O>,
    ) -> Result<(), HandedIn<O>>
        requires pass { IsPassOf self.now.line pass.old }
        requires given { IsHandedInAt (view pass.old).home given × ((view pass.old).due ≡ numbers_in given.handed) }
        ensures { HandsInTo self.now pass.old given result pass.new }
    {
        let mut given = given;
        for _ in 0..TRIES {
            // a push that others were in the way of gives the caller back, for the next try
            match self.line.try_push_as::<Gives>(pass, given) {
                Ok(()) => return Ok(()),
                Err(back) => given = back,
            }
        }
        Err(given)
    }

    /// Takes a caller that was handed in out of the queue, and `pass` knows it from then on. `None` where the queue is empty, or others were in the
    /// way in each try; what the pass knows stays then. `pass` has to know which service its queue is of.
    pub(crate) fn take(&self, pass: &mut Pass<HandedIn<O>, Knows<O>>) -> Option<HandedIn<O>>
        requires { IsPassOf self.now.line pass.old × (r : Running O) × ((view pass.old).home ≡ Some r) }
        ensures pass { IsPassOf self.now.line pass.new }
        ensures taken { MatchOption result (view pass.new ≡ view pass.old) (λ x. IsHandedInAt (view pass.old).home x × (view pass.new ≡ pass_with_taken (view pass.old) x)) }
    {
        for _ in 0..TRIES {
            if let Some(taken) = self.line.try_pop_as::<Takes>(pass) {
                return Some(taken);
            }
        }
        None
    }

    /// Gives the proof what the rule of the queue says of the callers (`TellsAll`), and changes nothing: those that are with the pass and those
    /// elsewhere are all of the service, each once; and those that were handed in are those that were taken out or still lie in the queue.
    pub(crate) fn learn(&self, pass: &mut Pass<HandedIn<O>, Knows<O>>)
        requires { IsPassOf self.now.line pass.old × (r : Running O) × ((view pass.old).home ≡ Some r) }
        ensures same { IsPassOf self.now.line pass.new × (view pass.new ≡ view pass.old) }
        ensures all { TellsAll (view pass.old) }
    {
        self.line.learn_as::<Takes>(pass);
    }
}

//! What a session needs to be closed.

ghost use Rattle.std.specs.Prelude.{◌≡◌, ◌<◌, IfOk, drop, take};
ghost use Rattle.std.specs.Arc.{arc_value};
ghost use Rattle.crossbeam_queue.specs.Passes.{view};
ghost use Rattle.c_sessions.specs.Handing.{IsExitOf, IsPassIn};

use crate::handover::ReturnQueue;
use crate::rule::{HandedIn, Knows};
use crossbeam_queue::Pass;
use cx_base::Object;
use cx_service::{Handed, Service};
use std::alloc::{AllocError, Global};
use std::sync::Arc;

/// What a session needs to be closed: `handover` is the queue in which callers are handed in, and `pass` the session's pass of it. `gathered` is
/// room for the callers that the session takes out of the queue if it is closed last, and `out` is room for them in the order of their numbers.
#[derive(Drop)]
pub struct ClosingState<O: Object> {
    pub(crate) handover: Arc<ReturnQueue<O>, Global>,
    pub(crate) pass: Pass<HandedIn<O>, Knows<O>>,
    pub(crate) gathered: Vec<Handed>,
    pub(crate) out: Vec<Handed>,
}

/// What the session that was closed last has where it did not close the service: its closing state, with the callers that it took out of the queue,
/// and a share of the service once it has one. `close_rest` goes on from there.
#[derive(Drop)]
pub struct Unclosed<O: Object> {
    pub(crate) service: Option<Arc<Service<O>, Global>>,
    pub(crate) exit: ClosingState<O>,
}

/// The account of the sessions of a service: the pass of their queue that took all callers out. By the rule of the queue it knows each as it was handed in.
#[derive(Drop)]
pub struct Account<O: Object> {
    pub(crate) pass: Pass<HandedIn<O>, Knows<O>>,
}

impl<O: Object> ClosingState<O> {
    /// What one session needs to be closed: a pass for the first caller that `pass` is still to hand in, and room for all `callers` of the service.
    /// `pass` keeps the other callers. `Err` means out of memory.
    pub(crate) fn another(
        alloc: Global,
        service: &Service<O>,
        callers: usize,
        handover: &Arc<ReturnQueue<O>, Global>,
        pass: &mut Pass<HandedIn<O>, Knows<O>>,
    ) -> Result<ClosingState<O>, AllocError>
        requires callers { (callers ≡ service.now.callers) × (0 < callers) }
        requires handover { ((arc_value handover.now).callers ≡ callers) × IsPassIn service.now (view pass.old).due (arc_value handover.now) pass.old }
        ensures { IfOk result (λ exit. IsExitOf service.now (take 1 (view pass.old).due) exit × IsPassIn service.now (drop 1 (view pass.old).due) (arc_value handover.now) pass.new) }
    {
        let gathered = Vec::with_capacity(alloc, callers)?;
        let out = Vec::with_capacity(alloc, callers)?;
        let share = Arc::try_clone(handover)?;
        let own = handover.share(service, pass);
        Ok(ClosingState {
            handover: share,
            pass: own,
            gathered,
            out,
        })
    }
}

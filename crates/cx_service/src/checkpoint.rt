//! An image of the object is taken while other callers go on.

ghost use Rattle.std.specs.Prelude.{◌≡◌, ◌≤◌, length};
ghost use Rattle.cx_service.specs.Callers.{IsCallerOf};
ghost use Rattle.cx_service.specs.Checkpoints.{Checkpoints};

use crate::callers::{Caller, Stopped};
use crate::facts::refusals_fit;
use crate::service::Service;
use cx_attempts::try_checkpoint_once;
use cx_base::{Halt, Object};

/// The result of a checkpoint.
#[derive(Drop)]
pub enum Checkpointed {
    /// The image was taken, at this place.
    Taken(Caller, u64),
    /// In each attempt a refusal was met.
    Pending(Caller),
    /// The step limit was reached.
    Halted(Stopped),
}

impl<O: Object> Service<O> {
    /// Takes the image of the current replica, results included, in at most `tries` attempts. `Taken` is told by a raise of the durable root: the
    /// words are the image after the entries below the place, all of which a loss of power keeps, and a base from which a service may start. Only
    /// a caller that wants that replica exclusively is kept from it, by one copy. `Pending` comes only where the count of refusals rose in each
    /// attempt. `Halted` comes exactly where a further step is to be made and the steps equal the limit.
    ///
    /// The image becomes a base, from which the next service may start. From `crates/service_tests/src/checkpoint_starts.rt`:
    /// ```rattle
    /// let mut words = Vec::from_elem(alloc, 0, WORDS).ok()?;
    /// match service.checkpoint(caller, &mut words, 1) {
    ///     Checkpointed::Taken(_, place) => Some(Base {
    ///         place,
    ///         words: Items::of(words),
    ///     }),
    ///     Checkpointed::Pending(_) | Checkpointed::Halted(_) => None,
    /// }
    /// ```
    pub fn checkpoint(&self, caller: Caller, into: &mut [u64], tries: u64) -> Checkpointed
        requires caller { IsCallerOf self.now caller }
        requires words { length into.old ≡ length self.now.base.words }
        requires tries { 1 ≤ tries }
        ensures taken { Checkpoints O.Object self.now into.new tries caller result }
        ensures length { length into.new ≡ length into.old }
    {
        let mut caller = caller;
        for _attempt in 0..tries {
            match self.checkpoint_once(caller, into) {
                Checkpointed::Pending(back) => caller = back,
                Checkpointed::Taken(back, place) => return Checkpointed::Taken(back, place),
                Checkpointed::Halted(stopped) => return Checkpointed::Halted(stopped),
            }
        }
        Checkpointed::Pending(caller)
    }

    /// One attempt of it.
    fn checkpoint_once(&self, caller: Caller, into: &mut [u64]) -> Checkpointed
        requires caller { IsCallerOf self.now caller }
        requires words { length into.old ≡ length self.now.base.words }
        ensures taken { Checkpoints O.Object self.now into.new 1 caller result }
        ensures length { length into.new ≡ length into.old }
    {
        let Caller { mut desk } = caller;
        let seat = &mut desk.seat;
        refusals_fit(seat);
        match try_checkpoint_once(&self.shared, seat, into) {
            Ok(Some(place)) => Checkpointed::Taken(Caller { desk }, place),
            Ok(None) => Checkpointed::Pending(Caller { desk }),
            Err(Halt) => Checkpointed::Halted(Stopped { desk, linked: None }),
        }
    }
}

//! A read is answered beside the queue.

ghost use Rattle.std.specs.Prelude.{◌≤◌, IsTrue};
ghost use Rattle.cx_service.specs.Callers.{IsCallerOf};
ghost use Rattle.cx_service.specs.Lookups.{Looks};

use crate::callers::{Caller, Stopped};
use crate::facts::refusals_fit;
use crate::service::Service;
use cx_attempts::try_read_once;
use cx_base::{Halt, Object, OpWords};

/// The result of a read beside the queue.
#[derive(Drop)]
pub enum ReadTried {
    /// The read is answered at this place, and the reply there is written.
    Read(Caller, u64),
    /// In each attempt a refusal was met.
    Pending(Caller),
    /// The step limit was reached.
    Halted(Stopped),
}

impl<O: Object> Service<O> {
    /// Answers an operation that only reads on the current replica, in at most `tries` attempts, and does not enter the queue. `Read` is
    /// answered by a raise of the durable root alone: the reply, which is written into the caller's buffer, is the object's after the
    /// entries below the place, all of which a loss of power keeps. Of the buffer nothing is said where it is not answered. `Pending`
    /// comes only where the count of refusals rose in each attempt. `Halted` comes exactly where a further step is to be made and the
    /// steps equal the limit.
    pub fn try_read(
        &self,
        caller: Caller,
        op: &OpWords,
        reply: &mut OpWords,
        tries: u64,
    ) -> ReadTried
        requires caller { IsCallerOf self.now caller }
        requires reads { IsTrue (O.only_reads self.now.object op.now) }
        requires tries { 1 ≤ tries }
        ensures { Looks self.now op.now tries reply.new caller result }
    {
        let mut caller = caller;
        for _attempt in 0..tries {
            match self.read_once(caller, op, reply) {
                ReadTried::Pending(back) => caller = back,
                ReadTried::Read(back, place) => return ReadTried::Read(back, place),
                ReadTried::Halted(stopped) => return ReadTried::Halted(stopped),
            }
        }
        ReadTried::Pending(caller)
    }

    /// One attempt of it.
    fn read_once(&self, caller: Caller, op: &OpWords, reply: &mut OpWords) -> ReadTried
        requires caller { IsCallerOf self.now caller }
        requires reads { IsTrue (O.only_reads self.now.object op.now) }
        ensures { Looks self.now op.now 1 reply.new caller result }
    {
        let Caller { mut desk } = caller;
        let seat = &mut desk.seat;
        refusals_fit(seat);
        match try_read_once(&self.shared, seat, op, reply) {
            Ok(Some(place)) => ReadTried::Read(Caller { desk }, place),
            Ok(None) => ReadTried::Pending(Caller { desk }),
            Err(Halt) => ReadTried::Halted(Stopped { desk, linked: None }),
        }
    }
}

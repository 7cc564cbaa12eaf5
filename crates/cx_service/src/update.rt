//! Calls that try again until they are answered.

ghost use Rattle.std.specs.Prelude.{IsTrue};
ghost use Rattle.cx_service.specs.Callers.{IsCallerOf, IsLinkedOf};
ghost use Rattle.cx_service.specs.Updates.{FinishOutcome, QueuedReadOutcome, ReadOutcome, Updates};

use crate::callers::{Caller, Linked, Stopped};
use crate::drive::Driven;
use crate::lookup::ReadTried;
use crate::service::Service;
use crate::submit::Submitted;
use cx_base::{Object, OpWords};
use cx_core::FullNote;
use std::sync::Wait;
use std::thread;

/// The tries of one submit, and the attempts of one drive, before they are begun again.
const TRIES: u64 = 16;

/// The attempts of a read beside the queue before it enters the queue.
const READ_TRIES: u64 = 8;

/// The result of an update.
#[derive(Drop)]
pub enum Updated {
    /// The entry at this ticket is applied and durable, and the reply is written.
    Done(Caller, u64),
    /// No cell of the caller is idle: the note names another caller that needs entries in them.
    Full(Caller, FullNote),
    /// There is no further ticket.
    Worn(Caller),
    /// The step limit was reached.
    Halted(Stopped),
}

/// The result of a read.
#[derive(Drop)]
pub enum ReadDone {
    /// The read is answered beside the queue at this place, and the reply there is written.
    Read(Caller, u64),
    /// The read is answered as an entry of the queue at this ticket, and the reply is written.
    Queued(Caller, u64),
    /// No cell of the caller is idle: the note names another caller that needs entries in them.
    Full(Caller, FullNote),
    /// There is no further ticket.
    Worn(Caller),
    /// The step limit was reached.
    Halted(Stopped),
}

impl<O: Object> Service<O> {
    /// Enters an operation into the queue and drives it to its answer, whose reply it writes into the caller's buffer; where it is not
    /// done nothing is said of the buffer. It tries again as long as others link before it, or hold all
    /// replicas, and so it may wait for them; before it does, other threads may run. `Full` comes only where the count of scans rose in this call and another
    /// caller, which the note names, needs the entries in the caller's cells. `Halted` comes exactly where a further step is to be made, of the submit that was
    /// begun last or of driving the linked entry, and the steps equal the limit.
    ///
    /// From `crates/life_tests/src/queue_service.rt`:
    /// ```rattle
    /// match service.update(rt, caller, &fifo_words(op), &mut words) {
    ///     Updated::Done(back, _) => match fifo_reply_of(alloc, &words) {
    ///         Ok(reply) => Ok(Some((back, reply))),
    ///         Err(FifoFault::Memory) => Err(AllocError),
    ///         Err(FifoFault::BadOp) => Ok(None),
    ///     },
    ///     Updated::Full(_, _) | Updated::Worn(_) | Updated::Halted(_) => Ok(None),
    /// }
    /// ```
    pub fn update<R: Wait>(
        &self,
        rt: &R,
        caller: Caller,
        op: &OpWords,
        reply: &mut OpWords,
    ) -> Updated
        requires { IsCallerOf self.now caller }
        ensures { Updates self.now op.now reply.new caller result }
    {
        let mut caller = caller;
        for _ in rt.forever() {
            match self.submit(caller, op, TRIES) {
                Submitted::Linked(linked) => return self.finish(rt, linked, reply),
                Submitted::Again(back) => {
                    thread::yield_now();
                    caller = back;
                }
                Submitted::Full(back, note) => return Updated::Full(back, note),
                Submitted::Worn(back) => return Updated::Worn(back),
                Submitted::Halted(stopped) => return Updated::Halted(stopped),
            }
        }
        unreachable!()
    }

    /// Drives a linked entry to its answer.
    fn finish<R: Wait>(&self, rt: &R, linked: Linked, reply: &mut OpWords) -> Updated
        requires { IsLinkedOf self.now linked }
        ensures { FinishOutcome self.now reply.new linked result }
    {
        let mut linked = linked;
        for _ in rt.forever() {
            match self.drive(linked, reply, TRIES) {
                Driven::Done(caller, ticket) => return Updated::Done(caller, ticket),
                Driven::Pending(back) => {
                    thread::yield_now();
                    linked = back;
                }
                Driven::Halted(stopped) => return Updated::Halted(stopped),
            }
        }
        unreachable!()
    }

    /// Answers an operation that only reads: beside the queue where the current replica can be read in 8 attempts, and else as an entry
    /// of the queue, which it may wait for as an update does. So no read is kept out for good by those who publish. The reply is written
    /// into the caller's buffer, of which nothing is said where the read is not answered. `Halted` comes
    /// exactly where a further step is to be made and the steps equal the limit.
    ///
    /// The two answers that have a reply; the others are those of `update`. From `crates/service_parts/src/call.rt`:
    /// ```rattle
    /// match service.read(rt, caller, op, reply) {
    ///     ReadDone::Read(back, place) => return AskOutcome::Told(back, place),
    ///     ReadDone::Queued(back, ticket) => {
    ///         let place = back.place_behind(ticket);
    ///         return AskOutcome::Told(back, place);
    ///     }
    /// ```
    pub fn read<R: Wait>(
        &self,
        rt: &R,
        caller: Caller,
        op: &OpWords,
        reply: &mut OpWords,
    ) -> ReadDone
        requires caller { IsCallerOf self.now caller }
        requires reads { IsTrue (O.only_reads self.now.object op.now) }
        ensures { ReadOutcome self.now op.now reply.new caller result }
    {
        match self.try_read(caller, op, reply, READ_TRIES) {
            ReadTried::Read(back, place) => ReadDone::Read(back, place),
            ReadTried::Pending(back) => self.queue(rt, back, op, reply),
            ReadTried::Halted(stopped) => ReadDone::Halted(stopped),
        }
    }

    /// Enters a read into the queue.
    fn queue<R: Wait>(&self, rt: &R, caller: Caller, op: &OpWords, reply: &mut OpWords) -> ReadDone
        requires { IsCallerOf self.now caller }
        ensures { QueuedReadOutcome self.now op.now reply.new caller result }
    {
        match self.update(rt, caller, op, reply) {
            Updated::Done(back, ticket) => ReadDone::Queued(back, ticket),
            Updated::Full(back, note) => ReadDone::Full(back, note),
            Updated::Worn(back) => ReadDone::Worn(back),
            Updated::Halted(stopped) => ReadDone::Halted(stopped),
        }
    }
}

//! The queue on a service: one caller's calls, one after another.

ghost use Rattle.std.specs.Prelude.{◌≡◌, ◌∷◌, [], IfOk, IfSome};
ghost use Rattle.cx_service.specs.Callers.{IsCallerOf};
ghost use Rattle.fifo_object.specs.Queue.{IsOp};

use crate::holds::holds;
use cx_base::OP_WORDS;
use cx_core::Base;
use cx_service::{Caller, Service, Updated};
use fifo_object::{Fifo, FifoFault, FifoOp, FifoReply, fifo_of, fifo_reply_of, fifo_words};
use std::alloc::{AllocError, Global};
use std::sync::Wait;
use std::test::Fail;

/// A service of one caller over the empty queue in 64 lines, and that caller. `Err` where memory runs out.
fn started(alloc: Global) -> Result<(Service<Fifo>, Caller), AllocError>
    ensures { IfOk result (λ r. IsCallerOf r.0 r.1) }
{
    let queue = Fifo::of(64);
    let base = Base::fresh(alloc, &queue)?;
    let Ok((service, callers)) = Service::start(alloc, queue, 1, &[u64::MAX], &base) else {
        return Err(AllocError);
    };
    match one(callers) {
        Some(caller) => Ok((service, caller)),
        None => Err(AllocError),
    }
}

/// The only caller of a list. `None` where the list has none, or more than one.
fn one(mut callers: Vec<Caller>) -> Option<Caller>
    ensures { IfSome result (λ caller. callers.items ≡ caller ∷ []) }
{
    let caller = callers.pop()?;
    if callers.is_empty() {
        Some(caller)
    } else {
        None
    }
}

/// A caller asks for the operation `op`: the caller, and the reply of the queue. `None` where the call is not answered, or the reply is none of a
/// queue.
fn asked<R: Wait>(
    rt: &R,
    alloc: Global,
    service: &Service<Fifo>,
    caller: Caller,
    op: &FifoOp,
) -> Result<Option<(Caller, FifoReply)>, AllocError>
    requires caller { IsCallerOf service.now caller }
    requires op { IsOp op.now }
    ensures { IfOk result (λ r. IfSome r (λ answered. IsCallerOf service.now answered.0)) }
{
    let mut words = [0; OP_WORDS];
    match service.update(rt, caller, &fifo_words(op), &mut words) {
        Updated::Done(back, _) => match fifo_reply_of(alloc, &words) {
            Ok(reply) => Ok(Some((back, reply))),
            Err(FifoFault::Memory) => Err(AllocError),
            Err(FifoFault::BadOp) => Ok(None),
        },
        Updated::Full(_, _) | Updated::Worn(_) | Updated::Halted(_) => Ok(None),
    }
}

/// The operation that has the kind and, where this is a push, the text of one byte that stand in a row. Words that are no operation become a request
/// for the number of texts.
fn op_of(alloc: Global, row: &(u64, u64)) -> Result<FifoOp, AllocError>
    ensures { IfOk result IsOp }
{
    // the kinds: 1 push, 2 pop, 3 peek, 4 the number of texts; the words of a push are its kind, the length of the text, and the text
    let (kind, byte) = *row;
    let mut words = [0; 144];
    words[0] = kind;
    if kind == 1 {
        words[1] = 1;
        words[2] = byte;
    }
    match fifo_of(alloc, &words) {
        Ok(op) => Ok(op),
        Err(FifoFault::BadOp) => Ok(FifoOp::Len),
        Err(FifoFault::Memory) => Err(AllocError),
    }
}

/// Whether a reply is of a kind: 1 pushed, 2 full, 3 a text, which has the one byte `value`, 4 empty, 5 the number of texts, which is `value`.
fn is_reply(reply: &FifoReply, kind: u64, value: u64) -> bool {
    match reply {
        FifoReply::Pushed => kind == 1,
        FifoReply::Full => kind == 2,
        FifoReply::Item(text) => match text.as_slice() {
            [byte] => kind == 3 && *byte as u64 == value,
            _ => false,
        },
        FifoReply::Empty => kind == 4,
        FifoReply::Length(number) => kind == 5 && *number == value,
    }
}

/// The kind of an operation (1 push, 2 pop, 3 peek, 4 the number of texts) and the byte of its text, and the kind of its reply (1 pushed, 3 a text, 4
/// empty, 5 the number of texts) and its value.
const CALLS: [((u64, u64), (u64, u64)); 5] = [
    // the text x is pushed, counted, looked at and popped
    ((1, 0x78), (1, 0)),
    ((4, 0), (5, 1)),
    ((3, 0), (3, 0x78)),
    ((2, 0), (3, 0x78)),
    // a pop of the empty queue
    ((2, 0), (4, 0)),
];

/// The index of the first call of `CALLS` that is not answered, or has another reply than its row says.
fn first_wrong<R: Wait>(
    rt: &R,
    alloc: Global,
    service: &Service<Fifo>,
    caller: Caller,
) -> Result<Option<usize>, AllocError>
    requires { IsCallerOf service.now caller }
{
    let mut caller = caller;
    for (i, (row, (kind, value))) in CALLS.iter().enumerate() {
        let op = op_of(alloc, row)?;
        let Some((back, reply)) = asked(rt, alloc, service, caller, &op)? else {
            return Ok(Some(i));
        };
        if !is_reply(&reply, *kind, *value) {
            return Ok(Some(i));
        }
        caller = back;
    }
    Ok(None)
}

/// Whether a service of one caller over the empty queue gives each call of `CALLS` the reply of its row.
fn calls_are_answered<R: Wait>(rt: &R, alloc: Global) -> Result<bool, AllocError> {
    let (service, caller) = started(alloc)?;
    Ok(first_wrong(rt, alloc, &service, caller)?.is_none())
}

#[test]
fn a_service_has_a_queue(rt: HostRuntime) -> Result<(), Fail> {
    holds(&rt, calls_are_answered(&rt, rt.alloc())?);
    Ok(())
}

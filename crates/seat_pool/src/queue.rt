//! What a pass does with the queue.

ghost use Rattle.std.specs.Prelude.{◌≡◌, ◌<◌, ◌≤◌, [], IfOk, MatchOption, length, map};
ghost use Rattle.crossbeam_queue.specs.Fifo.{Held};
ghost use Rattle.crossbeam_queue.specs.Passes.{view, IsPassOf, ruled_capacity};
ghost use Rattle.cx_service.specs.Callers.{IsCallerOf};
ghost use Rattle.seat_pool.specs.Pooling.{HasLimit, IsFirstOf, IsHomeOf, IsPassOpened, IsSameTable, TellsRoom, all_parts, both, calls_of, cut_left, cut_right, limits_at, opened_pass, shown_by, with_given, with_placed, with_taken};

use crate::hand::LenderPass;
use crate::rule::{Gives, Known, LenderQueue, Opens, Parted, Places, Takes};
use crossbeam_queue::Pass;
use cx_base::Object;
use cx_service::{Caller, Service};
use std::alloc::{AllocError, Global};
use std::marker::Brand;
use std::sync::Wait;

/// A queue with room for these callers of this service, and its first pass, which has every part and knows the callers' limits. `Err` means out
/// of memory.
pub fn open<O: Object>(
    alloc: Global,
    service: &Service<O>,
    callers: &[Caller],
) -> Result<(LenderQueue, Pass<Caller, LenderPass>), AllocError>
    requires { 0 < length callers.now }
    ensures { IfOk result (λ q. IsPassOf q.0 q.1 × (ruled_capacity q.0 ≡ length callers.now) × IsPassOpened service.now (map (λ c. c.known.local.limit) callers.now) (view q.1)) }
{
    open_for::<O, Brand>(alloc, service, callers)
}

/// Opens the queue for a service whose callers are shown as what `K` knows.
fn open_for<O: Object, K: Known>(
    alloc: Global,
    service: &Service<O>,
    callers: &[Caller],
) -> Result<(LenderQueue, Pass<Caller, LenderPass>), AllocError>
    requires room { 0 < length callers.now }
    requires home { IsSameTable (shown_by K.home) service.now }
    ensures { IfOk result (λ q. IsPassOf q.0 q.1 × (ruled_capacity q.0 ≡ length callers.now) × (view q.1 ≡ opened_pass K.home)) }
{
    let (line, mut pass) = LenderQueue::ruled(alloc, callers.len())?;
    // the rule's event `Opens`: the pass knows its service from here on, and the right to open is used up
    let _spent = line.another::<Opens<K>>(&mut pass);
    Ok((line, pass))
}

/// Places in the queue a caller that was answered no entry yet. The queue has room for all callers of the service, and `pass` has every part.
pub fn place<O: Object, R: Wait>(
    rt: &R,
    service: &Service<O>,
    line: &LenderQueue,
    pass: &mut Pass<Caller, LenderPass>,
    caller: Caller,
)
    requires pass { IsPassOf line.now pass.old × IsHomeOf service.now (view pass.old).home × ((view pass.old).parts ≡ all_parts) }
    requires room { (length (view pass.old).placed < service.now.callers) × (ruled_capacity line.now ≡ service.now.callers) }
    requires caller { IsCallerOf service.now caller × HasLimit (limits_at (view pass.old).home) caller × (calls_of caller ≡ []) }
    ensures { IsPassOf line.now pass.new × (view pass.new ≡ with_placed (view pass.old) caller) }
{
    match line.push_as::<Places, R>(rt, pass, caller) {
        Ok(()) => (),
        Err(_) => unreachable!(),
    }
}

/// Takes a caller out of the queue. `None` only if the queue was empty at one moment of the call.
pub fn take<O: Object, R: Wait>(
    rt: &R,
    service: &Service<O>,
    line: &LenderQueue,
    pass: &mut Pass<Caller, LenderPass>,
) -> Option<Caller>
    // Three facts: the pass is one of this queue, it knows that the queue is this service's, and it has a part, by which it may take a caller.
    requires { IsPassOf line.now pass.old × IsHomeOf service.now (view pass.old).home × (0 < (view pass.old).parts) }
    ensures pass { IsPassOf line.now pass.new }
    ensures caller { MatchOption result ((view pass.new ≡ view pass.old) × Held 0 (TellsRoom (view pass.old))) (λ x. IsCallerOf service.now x × HasLimit (limits_at (view pass.old).home) x × (view pass.new ≡ with_taken (view pass.old) x) × (length (view pass.old).held < service.now.callers)) }
{
    line.pop_as::<Takes, R>(rt, pass)
}

/// Gives back the caller that the pass took last. In the same step the pass learns of each call that the caller was answered since it was taken, with its
/// answer, and of each read; and it keeps the caller as it was when it was taken, and as it is now.
pub fn give<O: Object, R: Wait>(
    rt: &R,
    service: &Service<O>,
    line: &LenderQueue,
    pass: &mut Pass<Caller, LenderPass>,
    caller: Caller,
)
    requires pass { IsPassOf line.now pass.old × IsHomeOf service.now (view pass.old).home × (0 < (view pass.old).parts) }
    requires room { ruled_capacity line.now ≡ service.now.callers }
    requires caller { IsCallerOf service.now caller × HasLimit (limits_at (view pass.old).home) caller × IsFirstOf (view pass.old).held caller }
    ensures { IsPassOf line.now pass.new × (view pass.new ≡ with_given (view pass.old) caller) }
{
    match line.push_as::<Gives, R>(rt, pass, caller) {
        Ok(()) => (),
        Err(_) => unreachable!(),
    }
}

/// Makes a further pass, which gets one part of `pass`: one of the 1,024 parts into which the right to know the whole queue is cut.
pub fn share<O: Object>(
    service: &Service<O>,
    line: &LenderQueue,
    pass: &mut Pass<Caller, LenderPass>,
) -> Pass<Caller, LenderPass>
    // Three facts: the pass is one of this queue, it knows that the queue is this service's, and it has a part to give beside one for itself.
    requires { IsPassOf line.now pass.old × IsHomeOf service.now (view pass.old).home × (1 < (view pass.old).parts) }
    ensures old { IsPassOf line.now pass.new × (view pass.new ≡ cut_left (view pass.old)) }
    ensures new { IsPassOf line.now result × (view result ≡ cut_right (view pass.old)) }
{
    // the rule's event `Parted`: one part of the pass becomes a pass of its own
    line.another::<Parted>(pass)
}

/// Adds what `other` knows and holds, and its parts, to `pass`. `other` is used up.
pub fn merge<O: Object>(
    service: &Service<O>,
    line: &LenderQueue,
    pass: &mut Pass<Caller, LenderPass>,
    other: Pass<Caller, LenderPass>,
)
    requires pass { IsPassOf line.now pass.old × IsHomeOf service.now (view pass.old).home × (0 < (view pass.old).parts) }
    requires other { IsPassOf line.now other }
    ensures { IsPassOf line.now pass.new × (view pass.new ≡ both (view pass.old) (view other)) }
{
    line.absorb::<Parted>(pass, other);
}

/// Gives the proof what the rule says of the queue at one moment of the call: the pass holds no more callers than the service has. Nothing changes.
pub fn learn<O: Object>(
    service: &Service<O>,
    line: &LenderQueue,
    pass: &mut Pass<Caller, LenderPass>,
)
    requires { IsPassOf line.now pass.old × IsHomeOf service.now (view pass.old).home }
    ensures same { IsPassOf line.now pass.new × (view pass.new ≡ view pass.old) }
    ensures room { length (view pass.old).held ≤ service.now.callers }
{
    line.learn_as::<Takes>(pass);
}

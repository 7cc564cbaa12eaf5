//! The rule of the queue, and what a pass knows after each kind of step.

use crate::hand::LenderPass;
use crossbeam_queue::RuledArrayQueue;
use crossbeam_queue::protocol::{Join, Lesson, Outcome, Protocol, Split};
use cx_service::Caller;
use std::marker::{Brand, PhantomData};

/// The rule: the queue holds callers of one service, each caller that was placed is in the queue or held by one pass, the calls that passes
/// were told are the answered calls of the callers, each once, and the reads that they were shown are reads of the callers.
pub struct LenderRule;

impl Protocol<Caller, LenderPass> for LenderRule {
    ghost use Rattle.seat_pool.specs.Pooling.{Pools, fresh};

    ghost holds = { Pools };

    ghost first = { fresh };
}

/// A queue that lends callers.
pub type LenderQueue = RuledArrayQueue<Caller, LenderPass, LenderRule>;

/// A type that stands, in proofs, for the service whose callers a queue lends. Each call of `open` has its own.
pub trait Known {
    ghost use Rattle.seat_pool.specs.declared.hand.ServiceView as hand_home;

    ghost home: { hand_home.ServiceView };
}

impl Known for Brand {
    ghost use Rattle.std.specs.Prelude.{[]};
    ghost use Rattle.table_invariant.specs.Seats.{nobody};

    ghost home = { record {
      base = record { place = 0; words = [] };
      callers = 0;
      limits = [];
      first = record {
        table = record { words = 0; slots = 0; views_name = 0; atom = 0; block = 0; offset = 0; slot_names = [] };
        before = 0;
        region = 0;
        known = nobody;
      };
    } };
}

/// The step by which the first pass learns which service lends its callers. It gives off a pass that knows nothing.
pub(crate) struct Opens<K> {
    by: PhantomData<K>,
}

impl<K: Known> Split<LenderPass> for Opens<K> {
    ghost use Rattle.seat_pool.specs.Pooling.{nothing, opened_pass};

    ghost left = { λ v. opened_pass K.home };

    ghost right = { λ v. nothing };
}

/// The step that cuts one part off a pass and makes it a further pass, and the step that puts what two passes know and hold together in one.
pub(crate) struct Parted;

impl Split<LenderPass> for Parted {
    ghost use Rattle.seat_pool.specs.Pooling.{cut_left, cut_right};

    ghost left = { λ v. cut_left v };

    ghost right = { λ v. cut_right v };
}

impl Join<LenderPass> for Parted {
    ghost use Rattle.seat_pool.specs.Pooling.{both, nothing};

    ghost both = { λ v w. both v w };

    ghost spent = { nothing };
}

/// The step that places a caller in the queue for the first time.
pub(crate) struct Places;

impl Outcome<Caller, LenderPass> for Places {
    ghost use Rattle.std.specs.Prelude.{◌≡◌};
    ghost use Rattle.seat_pool.specs.Pooling.{with_placed};

    ghost then = { λ v x w. w ≡ with_placed v x };
}

impl Lesson<Caller, LenderPass> for Places {
    ghost use Rattle.seat_pool.specs.Pooling.{TellsRoom};

    ghost fact = { λ v items. TellsRoom v items };
}

/// The step that takes a caller out of the queue. The pass holds it then, as it was in that step.
pub(crate) struct Takes;

impl Outcome<Caller, LenderPass> for Takes {
    ghost use Rattle.seat_pool.specs.Pooling.{IsCallerTaken};

    ghost then = { λ v x w. IsCallerTaken v x w };
}

impl Lesson<Caller, LenderPass> for Takes {
    ghost use Rattle.seat_pool.specs.Pooling.{TellsRoom};

    ghost fact = { λ v items. TellsRoom v items };
}

/// The step that gives back the caller that the pass took last, by which the pass learns of the caller's new answered calls and reads.
pub(crate) struct Gives;

impl Outcome<Caller, LenderPass> for Gives {
    ghost use Rattle.std.specs.Prelude.{◌≡◌};
    ghost use Rattle.seat_pool.specs.Pooling.{with_given};

    ghost then = { λ v x w. w ≡ with_given v x };
}

impl Lesson<Caller, LenderPass> for Gives {
    ghost use Rattle.seat_pool.specs.Pooling.{TellsRoom};

    ghost fact = { λ v items. TellsRoom v items };
}

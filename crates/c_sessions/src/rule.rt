//! The rule of the queue in which callers are handed in, and what a pass knows after each of its steps.

use crossbeam_queue::RuledArrayQueue;
use crossbeam_queue::protocol::{Lesson, Outcome, Protocol, Split};
use cx_base::Object;
use cx_service::{Handed, Service};
use std::alloc::Global;
use std::collections::LinkedList;
use std::sync::Arc;

/// A caller that is handed in, with its share of the service. Where the queue
/// is opened, a share goes through it alone, by which the first pass learns the service.
#[derive(Drop)]
pub struct HandedIn<O: Object> {
    pub service: Arc<Service<O>, Global>,
    pub handed: Option<Handed>,
}

/// What a pass knows, as a ghost value: no value of it is made in memory. `offered` is the service of which the pass put a share into the new queue.
/// `home` is the service that the pass belongs to, once it knows it. `due` has the numbers of the callers that the pass is still to hand in. `given`
/// has the callers that it put into the queue, and `taken` those that it took out, each as it was in that step.
pub struct Knows<O: Object> {
    pub offered: Option<Service<O>>,
    pub home: Option<Service<O>>,
    pub due: LinkedList<u32>,
    pub given: LinkedList<Handed>,
    pub taken: LinkedList<Handed>,
}

/// The rule: what lies in the queue are callers of one service, each with its share of it, every pass knows which service that is, and each caller of
/// the service is there once: a pass is to hand it in, it lies in the queue, or one pass took it out. What was handed in, with all that a caller made
/// and was answered, is what was taken out or still lies in the queue.
pub struct OfOneService;

// `holds` relates what lies in the queue and what each pass knows: it is true after each step. `first` is what the pass of a new queue knows.
impl<O: Object> Protocol<HandedIn<O>, Knows<O>> for OfOneService {
    ghost use Rattle.c_sessions.specs.Rule.{KeepsOrIsNew, new_pass};

    ghost holds = { KeepsOrIsNew };

    ghost first = { new_pass };
}

/// The queue in which callers are handed in, with its rule.
pub type ReturnedCallers<O> = RuledArrayQueue<HandedIn<O>, Knows<O>, OfOneService>;

/// A share without a caller is put into the new queue, by which the first pass learns the service.
pub(crate) struct Opens;

// In `then`, `v` is what the pass knew before the push, `x` is what is pushed, and `w` is what the pass knows after it.
impl<O: Object> Outcome<HandedIn<O>, Knows<O>> for Opens {
    ghost use Rattle.std.specs.Prelude.{◌≡◌};
    ghost use Rattle.std.specs.Arc.{arc_value};
    ghost use Rattle.c_sessions.specs.Rule.{offering};

    ghost then = { λ v x w. w ≡ offering (arc_value x.service) };
}

/// The share without a caller is taken out of the new queue again, and the first pass is to hand in all callers from then on.
pub(crate) struct Starts;

// In `then`, `v` is what the pass knew before the pop, `x` is what is popped, and `w` is what the pass knows after it: the service offered is its
// home.
impl<O: Object> Outcome<HandedIn<O>, Knows<O>> for Starts {
    ghost use Rattle.std.specs.Prelude.{◌≡◌};
    ghost use Rattle.c_sessions.specs.Rule.{pass_of_all};

    ghost then = { λ v x w. w ≡ pass_of_all v.offered };
}

/// A pass is made for the first caller that another pass is to hand in; the other pass is to hand in one caller less from then on.
pub(crate) struct Parts;

// `v` is what the pass knew before. `left` is what it knows after, and `right` is what the new pass knows.
impl<O: Object> Split<Knows<O>> for Parts {
    ghost use Rattle.c_sessions.specs.Rule.{without_first_due, first_due};

    ghost left = { λ v. without_first_due v };

    ghost right = { λ v. first_due v };
}

/// A pass puts its caller into the queue, and knows from then on that it handed this caller in.
pub(crate) struct Gives;

// In `then`, `v` is what the pass knew before the push, `x` is the caller that is pushed, and `w` is what the pass knows after it.
impl<O: Object> Outcome<HandedIn<O>, Knows<O>> for Gives {
    ghost use Rattle.std.specs.Prelude.{◌≡◌};
    ghost use Rattle.c_sessions.specs.Rule.{pass_with_given};

    ghost then = { λ v x w. w ≡ pass_with_given v x };
}

/// A pass takes a caller out of the queue, and knows this caller, as it was handed in, from then on.
pub(crate) struct Takes;

// In `then`, `v` is what the pass knew before the pop, `x` is the caller that is popped, and `w` is what the pass knows after it. `v.home` is the
// service that the pass belongs to: `x` is a caller of it, with a share of it.
impl<O: Object> Outcome<HandedIn<O>, Knows<O>> for Takes {
    ghost use Rattle.std.specs.Prelude.{◌≡◌};
    ghost use Rattle.c_sessions.specs.Rule.{IsHandedInAt, pass_with_taken};

    ghost then = { λ v x w. IsHandedInAt v.home x × (w ≡ pass_with_taken v x) };
}

// What a pass that knows `v` learns of the queue while `items` lie in it: where all callers of the service are.
impl<O: Object> Lesson<HandedIn<O>, Knows<O>> for Takes {
    ghost use Rattle.c_sessions.specs.Rule.{TellsCallers};

    ghost fact = { λ v items. TellsCallers v items };
}

//! A service that starts from an image which was taken of another service.

ghost use Rattle.std.specs.Prelude.{IfSome};
ghost use Rattle.cx_base.specs.Tally.{IsTally};
ghost use Rattle.cx_core.specs.Base.{LawfulBase};
ghost use Rattle.cx_service.specs.Callers.{IsCallerOf};

use crate::checkpoints_alone::WORDS;
use crate::holds::holds;
use crate::starts::one_started;
use cx_base::tally::Tally;
use cx_base::{Items, OP_WORDS};
use cx_core::Base;
use cx_service::{Caller, Checkpointed, Driven, Service, Submitted};
use recovery::{Outcome, outcome};
use std::alloc::Global;
use std::test::Fail;

// A caller adds an amount: the sum then. `None`: it was not linked, or not answered.
fn added(service: &Service<Tally>, caller: Caller, amount: u64) -> Option<(Caller, u64)>
    requires { IsCallerOf service.now caller }
    ensures { IfSome result (λ r. IsCallerOf service.now r.0) }
{
    let mut op = [0; 144];
    op[0] = amount;
    let Submitted::Linked(linked) = service.submit(caller, &op, 1) else {
        return None;
    };
    let mut reply = [0; OP_WORDS];
    match service.drive(linked, &mut reply, 1) {
        Driven::Done(back, _) => Some((back, reply[0])),
        Driven::Pending(_) | Driven::Halted(_) => None,
    }
}

// A caller takes an image, as a base.
fn taken(alloc: Global, service: &Service<Tally>, caller: Caller) -> Option<Base>
    requires { IsCallerOf service.now caller }
    ensures { IfSome result (LawfulBase 64 IsTally) }
{
    // a running service is of its object's lines, which a region has the words of
    let _lines = service.lines();
    let mut words = Vec::from_elem(alloc, 0, WORDS).ok()?;
    match service.checkpoint(caller, &mut words, 1) {
        Checkpointed::Taken(_, place) => Some(Base {
            place,
            words: Items::of(words),
        }),
        Checkpointed::Pending(_) | Checkpointed::Halted(_) => None,
    }
}

// The sum in a service that starts from an image which was taken behind two updates, after one more there; and what the image says of the caller.
fn went_on(alloc: Global) -> Option<(u64, Outcome)> {
    let base = Base::fresh(alloc, &Tally).ok()?;
    let (service, caller) = one_started(alloc, Tally, &base).ok()?;
    let (caller, _) = added(&service, caller, 5)?;
    let (caller, _) = added(&service, caller, 6)?;
    let image = taken(alloc, &service, caller)?;
    let (service, caller) = one_started(alloc, Tally, &image).ok()?;
    let (_, sum) = added(&service, caller, 7)?;
    Some((sum, outcome(&image, 0)))
}

// Whether an outcome is of the second entry, with a reply that begins with this word.
fn is_second(outcome: &Outcome, sum: u64) -> bool {
    match outcome {
        Outcome::Applied { number, reply } => *number == 2 && reply[0] == sum,
        Outcome::Never => false,
    }
}

#[test]
fn a_service_goes_on_from_an_image(rt: HostRuntime) -> Result<(), Fail> {
    let right = match went_on(rt.alloc()) {
        Some((sum, outcome)) => sum == 18 && is_second(&outcome, 11),
        None => false,
    };
    holds(&rt, right);
    Ok(())
}

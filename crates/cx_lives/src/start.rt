//! A service for a life.

ghost use Rattle.std.specs.Prelude.{◌≡◌, IfOk, map};
ghost use Rattle.std.specs.List.{range_with_len};
ghost use Rattle.life_records.specs.Scripts.{limit_in};
ghost use Rattle.cx_lives.specs.Life.{CanRun, IsServiceOf};
ghost use Rattle.cx_lives.specs.Lives.{CanBeginOver};

use cx_core::Base;
use cx_service::{Caller, Service, StartFault};
use life_records::{BorrowedLife, Cut};
use std::alloc::{AllocError, Global};
use typed_object::TypedObject;

/// Starts a service of an object for a life, which opens from a base: one caller for each client, with the
/// limit of the client's cut. `Err` means out of memory.
pub(crate) fn start_life<O: TypedObject>(
    alloc: Global,
    object: &O,
    life: &BorrowedLife<'_, O::Op>,
    base: &Base,
) -> Result<(Service<O>, Vec<Caller>), AllocError>
    requires { CanBeginOver O.Object object.now (O.meaning object.now) life.now base.now }
    ensures service { IfOk result (λ r. IsServiceOf object.now (O.line_count object.now) life.now.clients base.now r.0) }
    ensures can_run { IfOk result (λ r. CanRun (O.meaning object.now) life.now r.0 r.1.items) }
{
    let clients = life.clients();
    let limits = limits_of(alloc, life)?;
    match Service::start(alloc, object.duplicate(), clients, &limits, base) {
        Ok(started) => Ok(started),
        Err(StartFault::Memory) => Err(AllocError),
        Err(StartFault::Callers { .. } | StartFault::Lines { .. }) => unreachable!(),
    }
}

/// The steps that each client of a life may make.
fn limits_of<Op>(alloc: Global, life: &BorrowedLife<'_, Op>) -> Result<Vec<u64>, AllocError>
    ensures { IfOk result (λ limits. limits.items ≡ map (λ client. limit_in client life.now.cuts) (range_with_len 0 life.now.clients)) }
{
    let mut limits = Vec::new(alloc);
    let clients = life.clients();
    for client in 0..clients {
        limits.push(limit_of(life.cuts(), client))?;
    }
    Ok(limits)
}

/// The steps that a client may make.
#[tactic(auto, using(crate::proofs::Limits::cut_here, crate::proofs::Limits::cut_passed, crate::proofs::Limits::cuts_over))]
fn limit_of(cuts: &[Cut], client: u32) -> u64
    ensures { result ≡ limit_in client cuts.now }
{
    for cut in cuts {
        if cut.client == client {
            return cut.steps;
        }
    }
    u64::MAX
}

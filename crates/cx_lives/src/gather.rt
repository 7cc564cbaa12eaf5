//! The works of all clients, put together client after client.

ghost use Rattle.std.specs.Prelude.{◌≡◌, ◌<◌, ◌∷◌, ◌++◌, ◌||◌, ℕ, All, IfOk, Ok, length, true, vec_len};
ghost use Rattle.life_records.specs.Limits.{IsLifeInLimits};
ghost use Rattle.life_records.specs.Lives.{is_stopped};
ghost use Rattle.cx_lives.specs.Ends.{IsWorkOf, full_in, stop_in};
ghost use Rattle.cx_lives.specs.Gathering.{AddsWork, AreGathered, is_impossible};
ghost use Rattle.cx_lives.specs.Works.{AreResultsFrom, ServedOf, stop_of_worker, stops_left};

use crate::lines::Lines;
use crate::progress::{End, Work};
use crate::work::{WorkerOutcome, go_on};
use cx_base::Gate;
use cx_service::{Handed, Service};
use life_records::laws::{works_begin, works_go_on};
use life_records::{BorrowedLife, FullLine, StopLine};
use std::alloc::{AllocError, Global};
use std::sync::Wait;
use typed_object::TypedObject;

/// The works of the clients so far: their callers as they ended, the lines of all, and how those ended that did not make all their commands.
#[derive(Drop)]
pub(crate) struct GatheredWork<Reply> {
    pub(crate) handed: Vec<Handed>,
    pub(crate) lines: Lines<Reply>,
    pub(crate) ends: Ends,
}

/// The lines of clients that were stopped or ended Full, and whether some caller has what none can have.
#[derive(Drop)]
pub(crate) struct Ends {
    pub(crate) stops: Vec<StopLine>,
    pub(crate) fulls: Vec<FullLine>,
    pub(crate) impossible: bool,
}

impl<Reply: Drop> GatheredWork<Reply> {
    /// Adds `work` of the next client: its caller, its lines and its end.
    fn with(self, work: Work<Reply>) -> Result<GatheredWork<Reply>, AllocError>
        ensures { IfOk result (λ after. AddsWork self after work) }
    {
        let GatheredWork {
            mut handed,
            lines,
            ends,
        } = self;
        handed.push(work.handed)?;
        Ok(GatheredWork {
            handed,
            lines: lines.joined(work.lines)?,
            ends: with_end(ends, work.end)?,
        })
    }
}

/// The ends `before`, with the end of the next client added.
fn with_end(before: Ends, end: End) -> Result<Ends, AllocError>
    ensures stops { IfOk result (λ r. r.stops.items ≡ before.stops.items ++ stop_in end) }
    ensures fulls { IfOk result (λ r. r.fulls.items ≡ before.fulls.items ++ full_in end) }
    ensures impossible { IfOk result (λ r. r.impossible ≡ (before.impossible || is_impossible end)) }
{
    let mut ends = before;
    match end {
        End::Whole => {}
        End::Stopped(line) => ends.stops.push(line)?,
        End::Full(line) => ends.fulls.push(line)?,
        End::Impossible => ends.impossible = true,
    }
    Ok(ends)
}

/// Puts the works of all clients together, in the order of the clients. A client that its worker left goes on when it is its turn, and ends Full only
/// where the client that keeps its cells was stopped. `Err` means out of memory, in a worker or here.
pub(crate) fn finish_and_gather<O: TypedObject, R: Wait, G: Gate>(
    rt: &R,
    alloc: Global,
    service: &Service<O>,
    life: &BorrowedLife<'_, O::Op>,
    gate: &G,
    works: Vec<Result<WorkerOutcome<O::Reply>, AllocError>>,
) -> Result<GatheredWork<O::Reply>, AllocError>
    requires works { AreResultsFrom (ServedOf (O.meaning service.now.object) life.now service.now) 0 works.items }
    requires life { IsLifeInLimits (O.meaning service.now.object).is_op 8 life.now }
    ensures gathered { IfOk result (AreGathered (O.meaning service.now.object) life.now service.now) }
    ensures stopped { IfOk result (λ g. All (λ line. is_stopped line.note.holder g.ends.stops.items ≡ true) g.ends.fulls.items) }
    ensures all { IfOk result (λ g. length g.handed.items ≡ vec_len works) }
{
    // with no clients there are no lines: what the loop begins with
    works_begin::<O::Op, O::Reply>();
    // the next client's lines go behind those of all clients before it: one turn of the loop
    works_go_on::<O::Op, O::Reply>();
    let ends = Ends {
        stops: Vec::new(alloc),
        fulls: Vec::new(alloc),
        impossible: false,
    };
    let mut all = GatheredWork {
        handed: Vec::new(alloc),
        lines: Lines::new(alloc),
        ends,
    };
    let mut works = works;
    while !works.is_empty() {
        let served = first_of(&mut works)?;
        let work = at_end(
            rt,
            alloc,
            service,
            life,
            gate,
            served,
            &all.ends.stops,
            &works,
        )?;
        all = all.with(work)?;
    }
    Ok(all)
}

/// The first of some items, which is taken out.
pub fn first_of<T: Drop>(items: &mut Vec<T>) -> T
    requires { 0 < length items.old.items }
    ensures { items.old.items ≡ result ∷ items.new.items }
{
    items.remove(0)
}

/// The whole work of a client: what its worker did, and, where the worker left it, its commands from there on. `stops` are the stop lines of the
/// clients before it, and `rest` are the results of the workers of those after it.
fn at_end<O: TypedObject, R: Wait, G: Gate>(
    rt: &R,
    alloc: Global,
    service: &Service<O>,
    life: &BorrowedLife<'_, O::Op>,
    gate: &G,
    served: WorkerOutcome<O::Reply>,
    stops: &[StopLine],
    rest: &[Result<WorkerOutcome<O::Reply>, AllocError>],
) -> Result<Work<O::Reply>, AllocError>
    requires served { (client : ℕ) × ServedOf (O.meaning service.now.object) life.now service.now client served }
    requires life { IsLifeInLimits (O.meaning service.now.object).is_op 8 life.now }
    ensures work { (client : ℕ) → ServedOf (O.meaning service.now.object) life.now service.now client served → IfOk result (IsWorkOf (O.meaning service.now.object) life.now service.now client) }
    ensures stays_stopped { IfOk result (λ work. (client : ℕ) → is_stopped client (stop_of_worker (Ok served)) ≡ true → is_stopped client (stop_in work.end) ≡ true) }
    ensures stopped { IfOk result (λ work. All (λ line. is_stopped line.note.holder (stops.now ++ stops_left rest.now) ≡ true) (full_in work.end)) }
{
    match served {
        WorkerOutcome::Done(work) => Ok(work),
        WorkerOutcome::Full(left, _) => go_on(rt, alloc, service, life, gate, left, stops, rest),
    }
}

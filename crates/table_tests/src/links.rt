//! Two callers link an entry each, on threads of their own, and what their table leaves.

ghost use Rattle.std.specs.Prelude.{◌≡◌, ◌^◌, ◌<◌, ◌≤◌, [], ◌∷◌, IfOk, replicate};
ghost use Rattle.cx_base.specs.Tally.{IsTally};
ghost use Rattle.cx_core.specs.Base.{LawfulBase};
ghost use Rattle.cx_core.specs.Merge.{IsHistory};
ghost use Rattle.cx_table.specs.Remains.{locals_of};
ghost use Rattle.cx_table.specs.Running.{IsSeatOf};
ghost use Rattle.mutation_queue.specs.Tests.{HasLinked, HasTried, IsNew, IsPairOf, OneOfEach, first_entry};

use crate::holds::holds;
use crate::tables::{NO_LIMITS, two};
use cx_base::tally::Tally;
use cx_base::{Halt, Items};
use cx_core::Base;
use cx_table::{CallerSeat, Remains, Shared};
use mutation_queue::{LinkTried, announce, link};
use std::alloc::{AllocError, Global};
use std::test::Fail;
use std::thread::join;

/// A table of two callers over Tally, which opens at a place, and the seats of caller 0 and caller 1, which have no entries yet. `limits` are their
/// limits of steps.
pub(crate) fn made(
    alloc: Global,
    place: u64,
    limits: &[u64; 2],
) -> Result<(Shared<Tally>, CallerSeat, CallerSeat), AllocError>
    requires { place ≤ 2 ^ 40 }
    ensures pair { IfOk result (λ r. IsPairOf r.0 r.1 r.2) }
    ensures place { IfOk result (λ r. r.0.base.place ≡ place) }
    ensures first { IfOk result (λ r. IsNew r.1.known.local) }
    ensures second { IfOk result (λ r. IsNew r.2.known.local) }
{
    let base = base_at(alloc, place)?;
    let (shared, seats) = Shared::make(alloc, Tally, 2, limits, &base)?;
    match two(seats) {
        Some((first, second)) => Ok((shared, first, second)),
        None => Err(AllocError),
    }
}

// The first base of Tally, but at the place `place`, which is in its word 0.
fn base_at(alloc: Global, place: u64) -> Result<Base, AllocError>
    requires { place ≤ 2 ^ 40 }
    ensures lawful { IfOk result (LawfulBase 64 IsTally) }
    ensures place { IfOk result (λ base. base.place ≡ place) }
{
    let fresh = Base::fresh(alloc, &Tally)?;
    let mut words = fresh.words.into_vec();
    words[0] = place;
    Ok(Base {
        place,
        words: Items::of(words),
    })
}

// A caller without entries announces the operation `op` in its cell 0, and tries up to `tries` times to link it. Returns its seat, and what the tries
// did.
fn update(
    shared: &Shared<Tally>,
    mut seat: CallerSeat,
    op: &[u64; 144],
    tries: u64,
) -> (CallerSeat, Result<LinkTried, Halt>)
    requires seat { IsSeatOf shared.now seat }
    requires new { IsNew seat.known.local }
    requires tries { 1 ≤ tries }
    ensures seat { IsSeatOf shared.now result.0 }
    ensures number { result.0.known.local.number ≡ seat.known.local.number }
    ensures tried { IfOk result.1 (HasTried result.0 op.now) }
{
    if let Err(halt) = announce(shared, &mut seat, 0, op) {
        return (seat, Err(halt));
    }
    let tried = link(shared, &mut seat, 0, tries);
    (seat, tried)
}

// Closes a table of two callers. The entries of its history are those that the two seats know as their own.
fn closed(
    alloc: Global,
    shared: Shared<Tally>,
    first: CallerSeat,
    second: CallerSeat,
) -> Result<Remains, AllocError>
    requires { IsPairOf shared first second }
    ensures merged { IfOk result (λ r. IsHistory shared.base.place r.trail.history (locals_of (first ∷ second ∷ []))) }
{
    let seats = vec![in alloc; first, second]?;
    match shared.gather(alloc, seats) {
        Ok(remains) => Ok(remains),
        Err(_) => Err(AllocError),
    }
}

// An operation, and the ticket with which its entry is linked.
#[derive(Drop)]
struct LinkedOp {
    op: [u64; 144],
    ticket: u64,
}

// Closes a table of two callers, each of which linked one entry: `one` and `other`. Its history has these two entries and no others, in one of the
// two orders.
fn closed_after_both(
    alloc: Global,
    shared: Shared<Tally>,
    first: CallerSeat,
    second: CallerSeat,
    one: &LinkedOp,
    other: &LinkedOp,
) -> Result<Remains, AllocError>
    requires pair { IsPairOf shared first second }
    requires one { HasLinked first one.now.ticket one.now.op }
    requires other { HasLinked second other.now.ticket other.now.op }
    ensures { IfOk result (λ r. OneOfEach shared.base.place r.trail.history (first_entry first one.now.ticket one.now.op) (first_entry second other.now.ticket other.now.op)) }
{
    closed(alloc, shared, first, second)
}

// Whether two callers linked at the first two tickets, in whatever order, and their table, which is closed, was left as `is_left_open` says. `one`
// and `other` are what their tries did; their operations have 144 words 5, or 144 words 7.
fn are_both_linked(
    alloc: Global,
    shared: Shared<Tally>,
    first: CallerSeat,
    second: CallerSeat,
    one: Result<LinkTried, Halt>,
    other: Result<LinkTried, Halt>,
) -> Result<bool, AllocError>
    requires pair { IsPairOf shared first second }
    requires one { IfOk one (HasTried first (replicate 144 5)) }
    requires other { IfOk other (HasTried second (replicate 144 7)) }
{
    let (Ok(LinkTried::Linked { ticket: a }), Ok(LinkTried::Linked { ticket: b })) = (one, other)
    else {
        return Ok(false);
    };
    let are_linked = are_first_two(a, b)
        && first.cell_ticket(0) == Some(a)
        && second.cell_ticket(0) == Some(b);
    let one = LinkedOp {
        op: [5; 144],
        ticket: a,
    };
    let other = LinkedOp {
        op: [7; 144],
        ticket: b,
    };
    let remains = closed_after_both(alloc, shared, first, second, &one, &other)?;
    Ok(are_linked && is_left_open(&remains))
}

// Whether the tickets `a` and `b` are 0 and 1, in whatever order.
fn are_first_two(a: u64, b: u64) -> bool {
    a != b && a < 2 && b < 2
}

// Whether a table of two callers was left with no code but the opening one, and no word that is not durable.
fn is_left_open(remains: &Remains) -> bool {
    remains.callers == 2
        && remains.lines == 64
        && remains.first == 0
        && remains.published.as_slice() == [0].as_slice()
        && remains.volatile == remains.durable
}

// Two callers on threads link an entry each, in at most two tries: an operation of 144 words 5, and one of 144 words 7.
#[test]
fn two_threads_link(rt: HostRuntime) -> Result<(), Fail> {
    let alloc = rt.alloc();
    let (shared, first, second) = made(alloc, 0, &NO_LIMITS)?;
    let table = &shared;
    let ((first, one), (second, other)) = join(
        &rt,
        move || update(table, first, &[5; 144], 2),
        move || update(table, second, &[7; 144], 2),
    );
    holds(
        &rt,
        are_both_linked(alloc, shared, first, second, one, other)?,
    );
    Ok(())
}

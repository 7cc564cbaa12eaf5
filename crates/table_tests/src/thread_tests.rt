//! Two threads take replicas from each other, replay on them, make them durable, and give them up.

ghost use Rattle.std.specs.Prelude.{◌<◌};
ghost use Rattle.cx_base.specs.Memory.{Words};
ghost use Rattle.table_invariant.specs.Running.{IsSeatOf};
ghost use Rattle.table_tests.specs.Replaying.{IsNew};

use crate::commands::{entry_of, put};
use crate::holds::holds;
use crate::images::{LINES, is_clean, opening, stepped};
use crate::region_tests::step_one;
use crate::tables::{NO_LIMITS, closed, made, update};
use crate::turns::{RaisesFront, make_attempts};
use cx_attempts::Scratch;
use cx_base::{Halt, Object, VecMemory};
use cx_core::{Base, Entry};
use cx_table::{CallerSeat, Remains, Shared};
use doc_store::DocStore;
use mutation_queue::LinkTried;
use std::alloc::{AllocError, Global};
use std::rt::Runtime;
use std::test::Fail;
use std::thread::{Threads, join};

// What a caller did: the ticket with which it linked its entry, and the sums over its turns. In a turn a caller tries to take one replica, applies
// the linked entries to it up to that ticket, makes it durable, and gives it up.
type Done = (u64, RaisesFront);

// A caller without entries links one with the operation `op`, and makes `count` turns, in each of which it tries to take one replica and bring it up
// to that entry. Returns the ticket and what the turns did. `None` where the entry was not linked, since others linked first at each try or no ticket
// is left; `Halt` where the caller stopped.
fn link_and_attempt<O: Object>(
    shared: &Shared<O>,
    seat: &mut CallerSeat,
    op: &[u64; 144],
    count: u64,
    scratch: &mut Scratch,
) -> Result<Option<Done>, Halt>
    requires { IsNew shared.now seat.old }
    ensures { IsSeatOf shared.now seat.new }
{
    match update(shared, seat, op)? {
        LinkTried::Linked { ticket } => Ok(Some((
            ticket,
            make_attempts(shared, seat, ticket, count, scratch)?,
        ))),
        LinkTried::Again | LinkTried::Worn => Ok(None),
    }
}

// Links an entry with the operation `op`, and tries `count` times to take a replica and bring it up to that entry, on a seat that was moved to
// another thread. Returns the seat with what was done: `None` where the entry was not linked or the caller stopped.
fn on_thread<O: Object>(
    shared: &Shared<O>,
    mut seat: CallerSeat,
    op: &[u64; 144],
    count: u64,
    mut scratch: Scratch,
) -> (CallerSeat, Option<Done>)
    requires { IsNew shared.now seat }
    ensures { IsSeatOf shared.now result.0 }
{
    let done = link_and_attempt(shared, &mut seat, op, count, &mut scratch);
    (seat, done.ok().flatten())
}

// What callers 0 and 1 of one table did (`first` and `second`), and what the table left at its closing (`left`).
#[derive(Drop)]
struct Ended {
    first: Done,
    second: Done,
    left: Remains,
}

// Two callers on threads of their own link an entry each, and each tries `count` times to take a replica and bring it up to its entry. The first
// takes the first of `ops` and of `scratches`, the second the other. Returns for each its seat, and what it did.
fn joined<R: Runtime + Threads + Sync>(
    rt: &R,
    shared: &Shared<DocStore>,
    first: CallerSeat,
    second: CallerSeat,
    ops: &[[u64; 144]; 2],
    count: u64,
    scratches: (Scratch, Scratch),
) -> ((CallerSeat, Option<Done>), (CallerSeat, Option<Done>))
    requires first { IsNew shared.now first }
    requires second { IsNew shared.now second }
    ensures first { IsSeatOf shared.now result.0.0 }
    ensures second { IsSeatOf shared.now result.1.0 }
{
    let [one, other] = ops;
    let (room, other_room) = scratches;
    join(
        rt,
        move || on_thread(shared, first, one, count, room),
        move || on_thread(shared, second, other, count, other_room),
    )
}

// Makes a table on which two callers on threads link an entry each and try `count` times each to bring a replica up, closes it, and returns what they
// did and what it left. `None` where a caller linked nothing or stopped, or the table was not closed.
fn two_threads<R: Runtime + Threads + Sync>(
    rt: &R,
    alloc: Global,
    ops: &[[u64; 144]; 2],
    count: u64,
) -> Result<Option<Ended>, AllocError> {
    let (shared, first, second) = made(alloc, DocStore::of(LINES), &NO_LIMITS)?;
    let scratches = (Scratch::new(alloc)?, Scratch::new(alloc)?);
    let ((first, one), (second, other)) = joined(rt, &shared, first, second, ops, count, scratches);
    Ok(both_ended(one, other, closed(alloc, shared, first, second)?))
}

// What two callers did and their table left; `None` where one of them linked nothing or stopped, or the table was not closed.
fn both_ended(first: Option<Done>, second: Option<Done>, left: Option<Remains>) -> Option<Ended> {
    Some(Ended {
        first: first?,
        second: second?,
        left: left?,
    })
}

// The words of a replica, in a plain memory, after the entry `one` and then `other` were applied to the opening image; `None` where one of the two
// was not. Each entry is of one of 8 callers, and its operation has 144 words. The last argument of each step counts the entries that are still to
// come.
fn after_both(alloc: Global, one: &Entry, other: &Entry) -> Result<Option<Vec<u64>>, AllocError>
    requires one { (one.now.caller < 8) × Words 144 one.now.op }
    requires other { (other.now.caller < 8) × Words 144 other.now.op }
{
    let store = DocStore::of(LINES);
    let base = Base::fresh(alloc, &store)?;
    let mut plain = VecMemory::of(base.words.into_vec(), None);
    if step_one(&store, &mut plain, one, 2).is_err() {
        return Ok(None);
    }
    if step_one(&store, &mut plain, other, 1).is_err() {
        return Ok(None);
    }
    Ok(Some(plain.into_words()))
}

// How many of the four replicas were left with `words` in memory and on the medium, with no word dirty.
fn clean_with(left: &Remains, words: &[u64]) -> u64 {
    let mut count = 0u64;
    for r in 0..4 {
        if is_clean(left, r, words) {
            count = count.saturating_add(1);
        }
    }
    count
}

// How many of the four replicas were left as the image that a table opens with.
fn at_opening(alloc: Global, left: &Remains) -> Result<u64, AllocError> {
    Ok(clean_with(left, &opening(alloc)?))
}

// How many of the four replicas were left as the image after the entry `one` alone.
fn after_first(alloc: Global, left: &Remains, one: &Entry) -> Result<u64, AllocError>
    requires { one.now.caller < 8 }
{
    let (words, _) = stepped(alloc, one, None)?;
    Ok(clean_with(left, &words))
}

// How many of the four replicas were left as the image after the entry `one` and then `other`; 0 where that image cannot be made.
fn after_second(
    alloc: Global,
    left: &Remains,
    one: &Entry,
    other: &Entry,
) -> Result<u64, AllocError>
    requires one { (one.now.caller < 8) × Words 144 one.now.op }
    requires other { (other.now.caller < 8) × Words 144 other.now.op }
{
    match after_both(alloc, one, other)? {
        Some(words) => Ok(clean_with(left, &words)),
        None => Ok(0),
    }
}

// The sum of the places of all four replicas, where each was left as the image after no entry, after `one`, or after `one` and then `other`; `None`
// where a replica was left as something else. `at_place_0` and its neighbours count the replicas at each place.
fn places(
    alloc: Global,
    left: &Remains,
    one: &Entry,
    other: &Entry,
) -> Result<Option<u64>, AllocError>
    requires one { (one.now.caller < 8) × Words 144 one.now.op }
    requires other { (other.now.caller < 8) × Words 144 other.now.op }
{
    let at_place_0 = at_opening(alloc, left)?;
    let at_place_1 = after_first(alloc, left, one)?;
    let at_place_2 = after_second(alloc, left, one, other)?;
    let all = at_place_0
        .saturating_add(at_place_1)
        .saturating_add(at_place_2);
    Ok(if all == 4 {
        Some(at_place_1.saturating_add(at_place_2.saturating_mul(2)))
    } else {
        None
    })
}

// The sum of the places of all four replicas that the two callers left, where each is an image of their entries in the order of the tickets; else
// `None`. The operations of caller 0 and caller 1 are `ops`.
fn places_of(
    alloc: Global,
    ended: &Ended,
    ops: &[[u64; 144]; 2],
) -> Result<Option<u64>, AllocError> {
    let (one, other) = (entry_of(0, 1, &ops[0]), entry_of(1, 1, &ops[1]));
    if ended.first.0 < ended.second.0 {
        places(alloc, &ended.left, &one, &other)
    } else {
        places(alloc, &ended.left, &other, &one)
    }
}

// How many entries two callers applied to replicas in all; `None` where one of them did not make `count` tries of a replica, or a replica was not at
// the right place after one. A try whose replica another held counts too.
fn replayed(first: &RaisesFront, second: &RaisesFront, count: u64) -> Option<u64> {
    let all = first.taken.saturating_add(first.refused) == count
        && second.taken.saturating_add(second.refused) == count;
    if all && first.right && second.right {
        Some(first.replayed.saturating_add(second.replayed))
    } else {
        None
    }
}

// Runs two threads on a table of their own: each links an entry, and tries `count` times to take a replica and bring it up to that entry. Returns how
// many entries were applied to replicas. `None` where a caller stopped or linked nothing, a replica was at a wrong place after a try, or the places
// of the replicas that are left do not add up to that number.
fn turned<R: Runtime + Threads + Sync>(
    rt: &R,
    alloc: Global,
    ops: &[[u64; 144]; 2],
    count: u64,
) -> Result<Option<u64>, AllocError> {
    let Some(ended) = two_threads(rt, alloc, ops, count)? else {
        return Ok(None);
    };
    // each entry that is applied to a replica raises its place by 1, from 0 on
    let entries = replayed(&ended.first.1, &ended.second.1, count);
    let places = places_of(alloc, &ended, ops)?;
    Ok(if places == entries { entries } else { None })
}

// How many entries were applied to replicas on `tables` tables together, on each of which two threads make a hundred tries each to take a replica and
// bring it up; `None` where a table was left with something wrong.
fn replayed_on<R: Runtime + Threads + Sync>(
    rt: &R,
    alloc: Global,
    tables: u64,
) -> Result<Option<u64>, AllocError> {
    let ops = [put(b"one", 40), put(b"other", 150)];
    let mut replayed = 0u64;
    for _ in 0..tables {
        let Some(entries) = turned(rt, alloc, &ops, 100)? else {
            return Ok(None);
        };
        replayed = replayed.saturating_add(entries);
    }
    Ok(Some(replayed))
}

// Caller 0 links an entry and tries two replicas, then caller 1 links one and tries one replica. Returns what they did, and how many write sets of
// others caller 0 and caller 1 used. The replica of caller 1 is its own: it brings that on by the write set that caller 0 offered, and by a step of
// its own.
fn one_then_other(
    alloc: Global,
    ops: &[[u64; 144]; 2],
) -> Result<Option<(Ended, u64, u64)>, AllocError> {
    let (shared, mut first, mut second) = made(alloc, DocStore::of(LINES), &NO_LIMITS)?;
    let (mut room, mut other_room) = (Scratch::new(alloc)?, Scratch::new(alloc)?);
    let one = link_and_attempt(&shared, &mut first, &ops[0], 2, &mut room);
    let other = link_and_attempt(&shared, &mut second, &ops[1], 1, &mut other_room);
    let (taken, other_taken) = (room.taken, other_room.taken);
    let left = closed(alloc, shared, first, second)?;
    match both_ended(one.ok().flatten(), other.ok().flatten(), left) {
        Some(ended) => Ok(Some((ended, taken, other_taken))),
        None => Ok(None),
    }
}

// Whether the second of two callers uses the write set of the first, and all replicas are left as images. Their places add up to 3: caller 0 leaves
// one after its entry, and caller 1 leaves one after both entries.
fn set_is_taken(alloc: Global) -> Result<bool, AllocError> {
    let ops = [put(b"one", 40), put(b"other", 150)];
    let Some((ended, taken, other_taken)) = one_then_other(alloc, &ops)? else {
        return Ok(false);
    };
    let is_right = ended.first.1.right && ended.second.1.right;
    let places = places_of(alloc, &ended, &ops)?;
    Ok(is_right && taken == 0 && other_taken == 1 && places == Some(3))
}

// A caller uses the write set that another offered for its entry, and does not do the step of that entry itself.
#[test]
fn an_offered_set_is_taken(rt: HostRuntime) -> Result<(), Fail> {
    holds(&rt, set_is_taken(rt.alloc())?);
    Ok(())
}

// On each of a hundred tables, two threads make a hundred tries each to take a replica and bring it up. Replica 0 is the current one, and refused to
// both. What is replayed on the other three is at most both entries each. The caller of the second entry brings each replica that it takes up to
// both, and the other thread holds at most one at a time.
#[test]
fn two_threads_leave_images(rt: HostRuntime) -> Result<(), Fail> {
    let replayed = replayed_on(&rt, rt.alloc(), 100)?;
    holds(
        &rt,
        replayed.is_some_and(|entries| entries >= 200 && entries <= 600),
    );
    Ok(())
}

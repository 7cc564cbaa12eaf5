//! Callers that update on threads of their own, and one of them that takes images beside the others.

ghost use Rattle.std.specs.Prelude.{All, IfSome};
ghost use Rattle.cx_service.specs.Callers.{IsCallerOf};

use crate::checkpoints_alone::{Added, Image, WORDS, are_images, first_region};
use crate::holds::holds;
use cx_base::tally::Tally;
use cx_core::Base;
use cx_service::{Caller, Checkpointed, Service, Updated};
use std::alloc::{AllocError, Global};
use std::sync::Wait;
use std::test::Fail;
use std::thread::{Threads, map_vec, yield_now};

const NO_LIMIT: u64 = u64::MAX;

/// The updates of each caller, and the images that caller 0 takes, each behind one of its own.
const ROUNDS: u64 = 125;

/// The turns of a checkpoint, and the tries of an update.
const TURNS: u64 = 1_000_000;

/// What a caller did: the tickets of its updates with what they added, and the images that it took, each above the ticket before it.
#[derive(Drop)]
struct Worked {
    caller: u32,
    updates: Vec<(u64, u64)>,
    images: Vec<Image>,
}

// A caller adds an amount, and begins again where another one keeps its cells: the ticket.
fn updated<R: Wait>(
    rt: &R,
    service: &Service<Tally>,
    caller: Caller,
    amount: u64,
) -> Option<(Caller, u64)>
    requires { IsCallerOf service.now caller }
    ensures { IfSome result (λ r. IsCallerOf service.now r.0) }
{
    let mut op = [0; 144];
    op[0] = amount;
    let mut caller = caller;
    let mut reply = [0; 144];
    for _try in 0..TURNS {
        match service.update(rt, caller, &op, &mut reply) {
            Updated::Done(back, ticket) => return Some((back, ticket)),
            Updated::Full(back, _) => caller = back,
            Updated::Worn(_) | Updated::Halted(_) => return None,
        }
        yield_now();
    }
    None
}

// A caller takes an image.
fn taken(alloc: Global, service: &Service<Tally>, caller: Caller) -> Option<(Caller, Image)>
    requires { IsCallerOf service.now caller }
    ensures { IfSome result (λ r. IsCallerOf service.now r.0) }
{
    // a running service is of its object's lines, which a region has the words of
    let _lines = service.lines();
    let mut words = Vec::from_elem(alloc, 0, WORDS).ok()?;
    match service.checkpoint(caller, &mut words, TURNS) {
        Checkpointed::Taken(back, place) => Some((back, (place, words))),
        _ => None,
    }
}

// Caller 0 takes an image behind its update at a ticket, and puts it at the end of `images`; any other caller takes none. `None`: the image is not above
// the ticket, no image was taken, or memory ran out.
fn behind(
    alloc: Global,
    service: &Service<Tally>,
    caller: Caller,
    ticket: u64,
    images: &mut Vec<Image>,
) -> Option<Caller>
    requires { IsCallerOf service.now caller }
    ensures { IfSome result (IsCallerOf service.now) }
{
    if caller.number() > 0 {
        return Some(caller);
    }
    let (back, image) = taken(alloc, service, caller)?;
    if image.0 <= ticket {
        return None;
    }
    images.push(image).ok()?;
    Some(back)
}

// A caller updates, and where it is caller 0 it takes an image behind each update. `None`: a call was not answered, an image is not above the
// ticket before it, or memory ran out.
fn works<R: Wait>(rt: &R, alloc: Global, service: &Service<Tally>, caller: Caller) -> Option<Worked>
    requires { IsCallerOf service.now caller }
{
    let number = caller.number();
    let mut caller = caller;
    let mut updates = Vec::new(alloc);
    let mut images = Vec::new(alloc);
    for k in 0..ROUNDS {
        let amount = u64::from(number) * 1000 + k;
        let (back, ticket) = updated(rt, service, caller, amount)?;
        updates.push((ticket, amount)).ok()?;
        caller = behind(alloc, service, back, ticket, &mut images)?;
    }
    Some(Worked {
        caller: number,
        updates,
        images,
    })
}

// All callers of a new service make their updates, each on a thread of its own, and caller 0 takes its images: what each did.
fn all_worked<R: Threads + Wait + Sync>(
    rt: &R,
    alloc: Global,
    callers: u32,
) -> Result<Vec<Option<Worked>>, AllocError> {
    let base = Base::fresh(alloc, &Tally)?;
    let limits = Vec::from_elem(alloc, NO_LIMIT, callers as usize)?;
    let Ok((service, seats)) = Service::start(alloc, Tally, callers, &limits, &base) else {
        return Err(AllocError);
    };
    each_worked(rt, alloc, &service, seats)
}

fn each_worked<R: Threads + Wait + Sync>(
    rt: &R,
    alloc: Global,
    service: &Service<Tally>,
    seats: Vec<Caller>,
) -> Result<Vec<Option<Worked>>, AllocError>
    requires { All (IsCallerOf service.now) seats.items }
{
    map_vec(
        rt,
        seats,
        &|caller: Caller| -> Option<Worked>
            requires { IsCallerOf service.now caller }
        { works(rt, alloc, service, caller) },
    )
}

// Puts the entries of one caller where their tickets are.
fn put_entries(entries: &mut [Option<Added>], worked: &Worked) {
    for (ticket, amount) in worked.updates.iter() {
        if let Some(entry) = entries.get_mut(*ticket as usize) {
            *entry = Some((worked.caller, *amount));
        }
    }
}

// Whether all calls were answered, and each image is the region after the entries below its place.
fn are_right(alloc: Global, all: &[Option<Worked>]) -> Result<bool, AllocError> {
    let count = (all.len() as u64).saturating_mul(ROUNDS);
    let mut entries = Vec::from_elem(alloc, None, count as usize)?;
    for one in all.iter() {
        match one {
            Some(worked) => put_entries(&mut entries, worked),
            None => return Ok(false),
        }
    }
    let mut region = first_region(alloc)?;
    match all.first() {
        Some(Some(worked)) => Ok(
            worked.images.len() as u64 == ROUNDS
                && are_images(&mut region, &entries, &worked.images),
        ),
        _ => Ok(false),
    }
}

// The least number of callers, from 1 to 8, with which a call is not answered, or an image is not the region after the entries below its place.
fn first_wrong<R: Threads + Wait + Sync>(rt: &R, alloc: Global) -> Result<Option<u32>, AllocError> {
    for callers in 1..9u32 {
        let all = all_worked(rt, alloc, callers)?;
        if !are_right(alloc, &all)? {
            return Ok(Some(callers));
        }
    }
    Ok(None)
}

#[test]
fn images_beside_updates(rt: HostRuntime) -> Result<(), Fail> {
    holds(&rt, first_wrong(&rt, rt.alloc())?.is_none());
    Ok(())
}

//! A service that finds no memory when it is closed or started: all addresses for large blocks are taken, and given back.

ghost use Rattle.std.specs.Prelude.{IfOk, IfSome};
ghost use Rattle.cx_core.specs.Base.{LawfulBase};
ghost use Rattle.cx_table.specs.Remains.{AreSeats};
ghost use Rattle.cx_service.specs.Closes.{seats_of};
ghost use Rattle.doc_store.specs.ExactStep.{IsImageOfStore};

use crate::holds::holds;
use crate::starts::{NO_LIMIT, all_started};
use crate::tasks::Work;
use crate::threads::{Ran, all_worked, fewest_taken, is_as_alone};
use cx_base::Object;
use cx_core::Base;
use cx_service::{Handed, Kept, Service, StartFault};
use cx_table::Remains;
use doc_store::DocStore;
use std::alloc::{AllocError, Global};
use std::test::Fail;
use std::thread::Threads;

// A table of two callers and this many lines has 4 MiB of words.
const LINES: u64 = 16_384;

// The most blocks that are taken.
const BLOCKS: usize = 200_000;

// Takes blocks of `bytes` bytes, to none of which it writes, until no further block can be had.
fn take_all(alloc: Global, bytes: usize, blocks: &mut Vec<Vec<u8>>) {
    for _ in 0..BLOCKS {
        let Ok(block) = Vec::with_capacity(alloc, bytes) else {
            return;
        };
        if blocks.push(block).is_err() {
            return;
        }
    }
}

// Takes all blocks of 1 MiB and more.
fn taken(alloc: Global) -> Result<Vec<Vec<u8>>, AllocError> {
    let mut blocks = Vec::with_capacity(alloc, BLOCKS)?;
    for halvings in 0..27u32 {
        take_all(alloc, (1 << 46) >> halvings, &mut blocks);
    }
    Ok(blocks)
}

// Closes a service that finds no memory. It is handed back with its callers.
fn kept<O: Object>(
    alloc: Global,
    service: Service<O>,
    callers: Vec<Handed>,
) -> Result<Option<Kept<O>>, AllocError>
    requires { AreSeats service (seats_of callers.items) }
    ensures { IfOk result (λ o. IfSome o (λ k. AreSeats k.service (seats_of k.callers.items))) }
{
    let _blocks = taken(alloc)?;
    match service.close(alloc, callers) {
        Ok(_) => Ok(None),
        Err(kept) => Ok(Some(kept)),
    }
}

// Closes a service that was handed back, once there is memory again.
fn closed_again<O: Object>(
    alloc: Global,
    service: Service<O>,
    callers: Vec<Handed>,
) -> Result<Option<Remains>, AllocError>
    requires { AreSeats service (seats_of callers.items) }
{
    let Some(Kept { service, callers }) = kept(alloc, service, callers)? else {
        return Ok(None);
    };
    match service.close(alloc, callers) {
        Ok(remains) => Ok(Some(remains)),
        Err(_) => Err(AllocError),
    }
}

// Whether a service that was handed back leaves what its callers made, when it is closed again.
fn leaves_all<R: Threads + Sync>(rt: &R, alloc: Global) -> Result<bool, AllocError> {
    let Ok((service, callers)) = all_started(alloc, DocStore::of(LINES), 2) else {
        return Err(AllocError);
    };
    let mut logs = Vec::new(alloc);
    let callers = all_worked(rt, alloc, &service, callers, Work::Documents, &mut logs)?;
    let taken = fewest_taken(&callers);
    match closed_again(alloc, service, callers)? {
        Some(remains) => {
            let row = (2, Work::Documents, 48, 12);
            let ran = Ran {
                logs,
                taken,
                remains,
            };
            is_as_alone(alloc, &ran, &DocStore::of(LINES), &row)
        }
        None => Ok(false),
    }
}

#[test]
fn a_close_without_memory_hands_all_back(rt: HostRuntime) -> Result<(), Fail> {
    holds(&rt, leaves_all(&rt, rt.alloc())?);
    Ok(())
}

fn base(alloc: Global) -> Result<Base, AllocError>
    ensures { IfOk result (LawfulBase 16384 (IsImageOfStore 16384)) }
{
    Base::fresh(alloc, &DocStore::of(LINES))
}

// What starting a service from a base is refused for. `None` where it starts.
fn fault(alloc: Global, limits: &[u64; 2], base: &Base) -> Option<StartFault>
    requires { LawfulBase 16384 (IsImageOfStore 16384) base.now }
{
    Service::start(alloc, DocStore::of(LINES), 2, limits, base).err()
}

// What starting a service from a base is refused for while there is no memory. `None` where it starts.
fn fault_without(
    alloc: Global,
    limits: &[u64; 2],
    base: &Base,
) -> Result<Option<StartFault>, AllocError>
    requires { LawfulBase 16384 (IsImageOfStore 16384) base.now }
{
    let _blocks = taken(alloc)?;
    Ok(fault(alloc, limits, base))
}

// Whether a service is started from a base, not started where memory runs out, and started from the same base and limits then.
fn starts_again(alloc: Global) -> Result<bool, AllocError> {
    let base = base(alloc)?;
    let limits = [NO_LIMIT; 2];
    // the first start makes the stack as large as the others need it, which has no room to grow once all addresses are taken
    let before = fault(alloc, &limits, &base);
    let without = fault_without(alloc, &limits, &base)?;
    let after = fault(alloc, &limits, &base);
    Ok(before.is_none() && without == Some(StartFault::Memory) && after.is_none())
}

#[test]
fn a_start_without_memory_may_be_made_again(rt: HostRuntime) -> Result<(), Fail> {
    holds(&rt, starts_again(rt.alloc())?);
    Ok(())
}

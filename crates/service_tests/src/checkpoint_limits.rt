//! An image that is taken at each limit of steps.

ghost use Rattle.std.specs.Prelude.{◌≡◌, length};
ghost use Rattle.cx_service.specs.Callers.{IsCallerOf};

use crate::checkpoints_alone::{WORDS, first_region};
use crate::holds::holds;
use cx_base::tally::Tally;
use cx_core::Base;
use cx_service::{Caller, Checkpointed, Service};
use std::alloc::{AllocError, Global};
use std::test::Fail;

/// The steps of a checkpoint of 64 lines: CUR is loaded, its replica is taken, its place is tested, 1,680 words are loaded, DUR is raised, and the
/// right is given back.
const STEPS: u64 = 1685;

// The result of a caller's first checkpoint: its place, or `None` where the limit ended it.
fn came_to(service: &Service<Tally>, caller: Caller, words: &mut [u64]) -> Option<u64>
    requires caller { IsCallerOf service.now caller }
    requires words { length words.old ≡ 1680 }
{
    // a running service is of its object's lines, which a region has the words of
    let _lines = service.lines();
    match service.checkpoint(caller, words, 1) {
        Checkpointed::Taken(_, place) => Some(place),
        Checkpointed::Pending(_) | Checkpointed::Halted(_) => None,
    }
}

// Whether a checkpoint with this limit of steps is as it is to be: halted where the limit is below its steps, and else taken.
fn is_right(alloc: Global, limit: u64) -> Result<bool, AllocError> {
    let base = Base::fresh(alloc, &Tally)?;
    let mut words = Vec::from_elem(alloc, 0, WORDS)?;
    let Ok((service, mut callers)) = Service::start(alloc, Tally, 1, &[limit], &base) else {
        return Err(AllocError);
    };
    let Some(caller) = callers.pop() else {
        return Ok(false);
    };
    let place = came_to(&service, caller, &mut words);
    if limit < STEPS {
        return Ok(place.is_none());
    }
    Ok(place == Some(0) && words.as_slice() == first_region(alloc)?.as_slice())
}

// The first limit at which a checkpoint is not as it is to be, of the limits that end its first and last steps, and of each 8th between.
fn first_wrong(alloc: Global) -> Result<Option<u64>, AllocError> {
    for limit in 0..STEPS + 2 {
        if limit > 8 && limit < STEPS - 8 && limit % 8 > 0 {
            continue;
        }
        if !is_right(alloc, limit)? {
            return Ok(Some(limit));
        }
    }
    Ok(None)
}

#[test]
fn a_checkpoint_at_each_limit(rt: HostRuntime) -> Result<(), Fail> {
    holds(&rt, first_wrong(rt.alloc())?.is_none());
    Ok(())
}

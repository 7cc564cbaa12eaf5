//! A table is handed to its closing at each step of an update: the marks of dirty words, and the words of memory and of the
//! medium, are those of a plain model that makes the same stores and persists.

ghost use Rattle.std.specs.Prelude.{◌<◌};

use crate::copy_tests::{Outcome, SOURCE, at_limit, whole_run};
use crate::holds::holds;
use crate::images::{
    Replica, differing, first_entry, is_clean, is_marked, opening, replica_of, stepped,
};
use cx_core::Entry;
use std::alloc::{AllocError, Global};
use std::test::Fail;

// The steps of a caller before the full step of its first entry, of the operation `op`: its number and its words that are not 0, which the cell does
// not have yet, 2 to link, a try, the load of the place, and 2 to protect it. The entry need not be read, as it is the caller's own.
fn steps_before(op: &[u64; 144]) -> u64 {
    let mut announced = 1u64;
    for word in op {
        if *word != 0 {
            announced = announced.saturating_add(1);
        }
    }
    announced.saturating_add(2 + 2 + 2)
}

// How many loads and stores the full step of `entry` makes: the fewest accesses with which it is done. `None` where 1999 do not do. `entry` is of one
// of 8 callers.
fn accesses_of(alloc: Global, entry: &Entry) -> Result<Option<u64>, AllocError>
    requires { entry.now.caller < 8 }
{
    for accesses in 0..2000u64 {
        let (_, is_done) = stepped(alloc, entry, Some(accesses))?;
        if is_done {
            return Ok(Some(accesses));
        }
    }
    Ok(None)
}

// What a replica has to be like after a number of steps: `words` in memory, over the words `opening` at first, and `persisted` of the words that were
// changed durable.
#[derive(Drop)]
struct Model<'a> {
    opening: &'a [u64],
    words: &'a [u64],
    persisted: u64,
}

// Whether each word of the medium (`durable`) is the one in memory (`new`) or the one before (`old`).
fn are_old_or_new(durable: &[u64], old: &[u64], new: &[u64]) -> bool {
    for ((durable, old), new) in durable.iter().zip(old.iter()).zip(new.iter()) {
        if *durable != *old && *durable != *new {
            return false;
        }
    }
    true
}

// Whether a replica is as `model` says. How many words are persisted is promised, and not which are first.
fn is_modelled(replica: &Replica, model: &Model) -> bool {
    replica.volatile == model.words
        && are_old_or_new(replica.durable, model.opening, model.words)
        && differing(replica.durable, model.opening) == model.persisted
        && is_marked(replica)
}

// How many dirty words a caller with a limit left in replica `SOURCE`. `None` where it made other than `limit` steps, completed the copy, or left
// `SOURCE` otherwise than the model or another replica changed.
fn dirty_of(outcome: &Outcome, limit: u64, model: &Model) -> Option<u64> {
    let region = model.opening.len();
    let replica = replica_of(&outcome.left, SOURCE as usize, region)?;
    let is_right = outcome.steps == limit
        && outcome.copied.is_none()
        && is_modelled(&replica, model)
        && is_clean(&outcome.left, 0, model.opening)
        && is_clean(&outcome.left, 2, model.opening)
        && is_clean(&outcome.left, 3, model.opening);
    if is_right {
        Some(differing(replica.volatile, replica.durable))
    } else {
        None
    }
}

// Runs a caller with a limit of steps; returns how many dirty words it left in the replica that it brought up, or `None` where it left anything else
// than the model there, or changed another replica.
fn dirty_at(
    alloc: Global,
    op: &[u64; 144],
    limit: u64,
    model: &Model,
) -> Result<Option<u64>, AllocError> {
    match at_limit(alloc, op, limit)? {
        Some(outcome) => Ok(dirty_of(&outcome, limit, model)),
        None => Ok(None),
    }
}

// How many words the full step of `entry` changes in the opening image.
fn stored_by(alloc: Global, entry: &Entry) -> Result<u64, AllocError>
    requires { entry.now.caller < 8 }
{
    let (words, _) = stepped(alloc, entry, None)?;
    Ok(differing(&words, &opening(alloc)?))
}

// A write set has an address and a value for each word that changes. Of these pairs from the words `before` to the words `after`, how many addresses
// and values are not 0.
fn pair_words(before: &[u64], after: &[u64]) -> u64 {
    let mut count = 0u64;
    for (at, (old, new)) in before.iter().zip(after.iter()).enumerate() {
        if *old != *new {
            count = count
                .saturating_add(u64::from(at != 0))
                .saturating_add(u64::from(*new != 0));
        }
    }
    count
}

// The steps that offer the write set of an entry's full step of `accesses` accesses, each store of which changes a word: one for each word of the
// set that is not 0, as the cell has none yet, and one for the offer.
fn offered_by(alloc: Global, entry: &Entry, accesses: u64) -> Result<u64, AllocError>
    requires { entry.now.caller < 8 }
{
    let mut before = opening(alloc)?;
    // the offer, and the word of the set that counts its pairs
    let mut count = 2u64;
    for made in 0..=accesses {
        let (words, _) = stepped(alloc, entry, Some(made))?;
        count = count.saturating_add(pair_words(&before, &words));
        before = words;
    }
    Ok(count)
}

// How many words were persisted `steps` steps after the full step began, as long as a word is dirty. The full step and the offer of its write set
// take `offered` steps, one more releases the protection, and each further one persists a word. `is_done` is whether the full step was done.
fn persisted_after(steps: u64, offered: u64, is_done: bool) -> u64 {
    if is_done {
        steps.saturating_sub(offered).saturating_sub(1)
    } else {
        0
    }
}

// How many dirty words a run with this limit leaves; `None` where it leaves other words than the model. The full step and the offer of its write set
// take `offered` steps.
fn dirty_after(
    alloc: Global,
    entry: &Entry,
    opening: &[u64],
    offered: u64,
    limit: u64,
) -> Result<Option<u64>, AllocError>
    requires { entry.now.caller < 8 }
{
    let steps = limit.saturating_sub(steps_before(&entry.op));
    let (words, is_done) = stepped(alloc, entry, Some(steps))?;
    let most = differing(&words, opening);
    let model = Model {
        opening,
        words: &words,
        persisted: persisted_after(steps, offered, is_done).min(most),
    };
    dirty_at(alloc, &entry.op, limit, &model)
}

// The most dirty words that a run with a limit of 0 to `last` steps leaves; `None` where a run leaves other words than the model. The full step and
// the offer of its write set take `offered` steps.
fn most_dirty(
    alloc: Global,
    entry: &Entry,
    offered: u64,
    last: u64,
) -> Result<Option<u64>, AllocError>
    requires { entry.now.caller < 8 }
{
    let opening = opening(alloc)?;
    let mut most = 0u64;
    for limit in 0..=last {
        match dirty_after(alloc, entry, &opening, offered, limit)? {
            Some(dirty) => most = most.max(dirty),
            None => return Ok(None),
        }
    }
    Ok(Some(most))
}

// Whether the steps before the copy are those before the full step, its accesses and its offer, one that releases the protection, one to persist each
// word that it stores, a downgrade, one that releases the right, and one try for each of the two rights of a copy. Each limit of fewer
// leaves the words of the model, and before the first persist all words that the full step stores are dirty.
fn are_right(alloc: Global) -> Result<bool, AllocError> {
    let entry = first_entry();
    let (Some(accesses), Some((before, _, _))) = (
        accesses_of(alloc, &entry)?,
        whole_run(alloc, &entry.op)?,
    ) else {
        return Ok(false);
    };
    // `stored` words are stored and later persisted; `offered` are the steps of the full step and of the offer
    let stored = stored_by(alloc, &entry)?;
    let offered = accesses.saturating_add(offered_by(alloc, &entry, accesses)?);
    let all = steps_before(&entry.op)
        .saturating_add(offered)
        .saturating_add(stored)
        .saturating_add(1 + 1 + 1 + 2);
    Ok(before == all && most_dirty(alloc, &entry, offered, before)? == Some(stored))
}

// Each limit of steps before the copy leaves the words, and as many dirty ones, as a plain model has.
#[test]
fn each_limit_leaves_the_words_of_the_model(rt: HostRuntime) -> Result<(), Fail> {
    holds(&rt, are_right(rt.alloc())?);
    Ok(())
}

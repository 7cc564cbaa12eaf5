//! The words of an image on a plain memory, and replicas that are compared with them.

ghost use Rattle.std.specs.Prelude.{◌<◌};
ghost use Rattle.cx_base.specs.Memory.{Words};

use crate::commands::{entry_of, put};
use cx_base::VecMemory;
use cx_core::{Base, Entry, full_step};
use cx_table::Remains;
use doc_store::DocStore;
use std::alloc::{AllocError, Global};

/// The lines of the document store of these tests.
pub(crate) const LINES: u64 = 64;

/// The first entry of caller 0: it puts 40 letters under a key.
pub(crate) fn first_entry() -> Entry
    ensures caller { result.caller < 8 }
    ensures op { Words 144 result.op }
{
    entry_of(0, 1, &put(b"key", 40))
}

/// The words that a table of the document store opens with.
pub(crate) fn opening(alloc: Global) -> Result<Vec<u64>, AllocError> {
    let base = Base::fresh(alloc, &DocStore::of(LINES))?;
    Ok(base.words.into_vec())
}

/// The words of the opening image after `entry` was applied to it on a plain memory, and whether that was done to its end. `accesses` accesses are
/// allowed, or any number where that is `None`.
pub(crate) fn stepped(
    alloc: Global,
    entry: &Entry,
    accesses: Option<u64>,
) -> Result<(Vec<u64>, bool), AllocError>
    requires { entry.now.caller < 8 }
{
    let store = DocStore::of(LINES);
    let base = Base::fresh(alloc, &store)?;
    let mut plain = VecMemory::of(base.words.into_vec(), accesses);
    let is_done = full_step(&store, &mut plain, entry).is_ok();
    Ok((plain.into_words(), is_done))
}

/// What a table left of a replica: its words in memory (`volatile`) and on the medium (`durable`), and for each whether it is dirty (`dirty`).
#[derive(Drop)]
pub(crate) struct Replica<'a> {
    pub(crate) volatile: &'a [u64],
    pub(crate) durable: &'a [u64],
    pub(crate) dirty: &'a [bool],
}

/// What a table left of replica `r`, of `region` words; `None` where it left no such replica.
pub(crate) fn replica_of(left: &Remains, r: usize, region: usize) -> Option<Replica<'_>> {
    let from = region.checked_mul(r)?;
    let to = region.checked_add(from)?;
    Some(Replica {
        volatile: left.volatile.get(from..to)?,
        durable: left.durable.get(from..to)?,
        dirty: left.dirty.get(from..to)?,
    })
}

/// Whether a table left replica `r` with `words` in memory and on the medium, none of them dirty.
pub(crate) fn is_clean(left: &Remains, r: usize, words: &[u64]) -> bool {
    match replica_of(left, r, words.len()) {
        Some(replica) => {
            replica.volatile == words && replica.durable == words && !replica.dirty.contains(&true)
        }
        None => false,
    }
}

/// Whether exactly those words of a replica are marked dirty that are others in memory than on the medium.
pub(crate) fn is_marked(replica: &Replica) -> bool {
    for ((word, durable), mark) in replica
        .volatile
        .iter()
        .zip(replica.durable.iter())
        .zip(replica.dirty.iter())
    {
        if *mark != (*word != *durable) {
            return false;
        }
    }
    true
}

/// How many words of two lists differ, index by index.
pub(crate) fn differing(one: &[u64], other: &[u64]) -> u64 {
    let mut count = 0u64;
    for (a, b) in one.iter().zip(other.iter()) {
        if a != b {
            count = count.saturating_add(1);
        }
    }
    count
}

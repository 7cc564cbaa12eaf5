//! Entries of the document store on a replica held exclusively and on a plain memory, word by word.

ghost use Rattle.std.specs.Prelude.{◌≡◌, ◌+◌, ◌-◌, ◌*◌, ◌^◌, ◌<◌, ◌≤◌, OnOk};
ghost use Rattle.cx_base.specs.Memory.{Becomes, Words};
ghost use Rattle.cx_core.specs.Base.{LawfulBase};
ghost use Rattle.cx_core.specs.Region.{place_of, region_words};
ghost use Rattle.table_invariant.specs.Fitting.{base_of};
ghost use Rattle.table_invariant.specs.Running.{IsSeatOf};
ghost use Rattle.replica.specs.Held.{IsHeld};
ghost use Rattle.replica.specs.Replays.{IsHeldImage, noted_place};
ghost use Rattle.replica.specs.Stepping.{IsSteppable};
ghost use Rattle.strong_trylock.specs.Held.{all_rights, no_rights};

use crate::commands::{Numbers, next_entry};
use crate::holds::holds;
use crate::tables::{NO_LIMITS, made};
use crate::turns::try_one;
use cx_base::tally::Tally;
use cx_base::{Halt, Memory, Object, VecMemory};
use cx_core::{Base, Entry, HEAD_LINES, LINE_WORDS, full_step};
use cx_table::{CallerSeat, Exclusive, Shared};
use doc_store::DocStore;
use replica::{Region, begin};
use std::alloc::{AllocError, Global};
use std::test::Fail;

/// Applies an entry to a whole replica in a memory: object, result and place. The memory has room for `left` more entries before the end of places,
/// and afterwards for one fewer. The entry is of one of 8 callers, and its operation has 144 words.
pub(crate) fn step_one<O: Object, M: Memory>(
    object: &O,
    mem: &mut M,
    entry: &Entry,
    left: u64,
) -> Result<(), Halt>
    requires small { region_words (O.line_count object.now) < 2 ^ 64 }
    requires some { 0 < left }
    requires mem { IsSteppable (O.line_count object.now) (O.lawful object.now) (M.size mem.old) (M.writable mem.old) (M.stands mem.old) left }
    requires caller { entry.now.caller < 8 }
    requires op { Words 144 entry.now.op }
    ensures { OnOk result (IsSteppable (O.line_count object.now) (O.lawful object.now) (M.size mem.new) (M.writable mem.new) (M.stands mem.new) (left - 1)) }
{
    full_step(object, mem, entry)
}

// Whether the first `count` words of two memories are the same. The loads change neither memory.
fn same_words<M: Memory, N: Memory>(mem: &mut M, other: &mut N, count: u64) -> Result<bool, Halt>
    requires mem { count ≤ M.size mem.old }
    requires other { count ≤ N.size other.old }
    ensures mem { OnOk result (Becomes (M.stands mem.old) (M.stands mem.new) ◌≡◌) }
    ensures other { OnOk result (Becomes (N.stands other.old) (N.stands other.new) ◌≡◌) }
    ensures size { OnOk result (M.size mem.new ≡ M.size mem.old) }
    ensures writable { OnOk result (M.writable mem.new ≡ M.writable mem.old) }
    ensures other_size { OnOk result (N.size other.new ≡ N.size other.old) }
    ensures other_writable { OnOk result (N.writable other.new ≡ N.writable other.old) }
{
    for at in 0..count {
        let one = mem.load(at)?;
        let two = other.load(at)?;
        if one != two {
            return Ok(false);
        }
    }
    Ok(true)
}

// Does the full step of `entry` in two memories, and returns whether all their words are then the same. Both have room for `left` more entries, and
// afterwards for one fewer.
fn both<O: Object, M: Memory, N: Memory>(
    object: &O,
    mem: &mut M,
    plain: &mut N,
    entry: &Entry,
    left: u64,
) -> Result<bool, Halt>
    requires small { region_words (O.line_count object.now) < 2 ^ 64 }
    requires some { 0 < left }
    requires mem { IsSteppable (O.line_count object.now) (O.lawful object.now) (M.size mem.old) (M.writable mem.old) (M.stands mem.old) left }
    requires plain { IsSteppable (O.line_count object.now) (O.lawful object.now) (N.size plain.old) (N.writable plain.old) (N.stands plain.old) left }
    requires caller { entry.now.caller < 8 }
    requires op { Words 144 entry.now.op }
    ensures mem { OnOk result (IsSteppable (O.line_count object.now) (O.lawful object.now) (M.size mem.new) (M.writable mem.new) (M.stands mem.new) (left - 1)) }
    ensures plain { OnOk result (IsSteppable (O.line_count object.now) (O.lawful object.now) (N.size plain.new) (N.writable plain.new) (N.stands plain.new) (left - 1)) }
{
    step_one(object, mem, entry, left)?;
    step_one(object, plain, entry, left)?;
    let words = LINE_WORDS * (HEAD_LINES + object.lines());
    same_words(mem, plain, words)
}

// Does the full steps of up to `count` entries in two memories, and returns how many left the same words in both, up to one that did not. The entries
// look random, and are the same in each run.
fn agree<O: Object, M: Memory, N: Memory>(
    object: &O,
    mem: &mut M,
    plain: &mut N,
    count: u64,
) -> Result<u64, Halt>
    requires small { region_words (O.line_count object.now) < 2 ^ 64 }
    requires mem { IsSteppable (O.line_count object.now) (O.lawful object.now) (M.size mem.old) (M.writable mem.old) (M.stands mem.old) count }
    requires plain { IsSteppable (O.line_count object.now) (O.lawful object.now) (N.size plain.old) (N.writable plain.old) (N.stands plain.old) count }
{
    let mut numbers = Numbers { state: 7 };
    for k in 0..count {
        let entry = next_entry(&mut numbers, k);
        if !both(object, mem, plain, &entry, count - k)? {
            return Ok(k);
        }
    }
    Ok(count)
}

// Does the full steps of `count` entries on the replica `held`, which is the image after its place, and on a plain memory. Returns how many left the
// same words in both, up to one that did not. The place of the replica leaves room for as many entries.
fn agree_held<O: Object, N: Memory>(
    shared: &Shared<O>,
    seat: &mut CallerSeat,
    held: &Exclusive,
    plain: &mut N,
    count: u64,
) -> Result<u64, Halt>
    requires held { IsHeld (O.line_count shared.now.object) shared.now (O.lawful shared.now.object) (O.step shared.now.object) seat.old held.now }
    requires image { IsHeldImage (O.line_count shared.now.object) (O.lawful shared.now.object) shared.now.base (O.step shared.now.object) seat.old.known }
    requires place { noted_place seat.old + count ≤ 2 ^ 40 }
    requires plain { IsSteppable (O.line_count shared.now.object) (O.lawful shared.now.object) (N.size plain.old) (N.writable plain.old) (N.stands plain.old) count }
{
    let object = shared.object();
    let mut region = Region::of(shared, seat, held);
    agree(object, &mut region, plain, count)
}

// Takes replica `r`, and does the full steps of `count` entries on it and on a plain memory; returns how many left the same words in
// both, up to one that did not, or `None` where the replica was not taken or is past place 2^20.
fn agree_taken<O: Object, N: Memory>(
    shared: &Shared<O>,
    seat: &mut CallerSeat,
    r: u32,
    plain: &mut N,
    count: u64,
) -> Result<Option<u64>, Halt>
    requires seat { IsSeatOf shared.now seat.old }
    requires free { all_rights seat.old ≡ no_rights }
    requires few { r < 2 * shared.now.callers }
    requires count { count ≤ 1000 }
    requires plain { IsSteppable (O.line_count shared.now.object) (O.lawful shared.now.object) (N.size plain.old) (N.writable plain.old) (N.stands plain.old) count }
{
    let Some(held) = try_one(shared, seat, r)? else {
        return Ok(None);
    };
    if begin(shared, seat, &held)? > 1 << 20 {
        return Ok(None);
    }
    Ok(Some(agree_held(shared, seat, &held, plain, count)?))
}

// Does the full steps of `count` entries on replica 2 and on a plain memory, which has `words` at first. Returns the words of the plain memory;
// `None` where the replica was not used, or had other words after an entry. At first the words are a lawful base, with room for as many entries.
fn agree_plain<O: Object>(
    shared: &Shared<O>,
    seat: &mut CallerSeat,
    words: Vec<u64>,
    count: u64,
) -> Option<Vec<u64>>
    requires seat { IsSeatOf shared.now seat.old }
    requires free { all_rights seat.old ≡ no_rights }
    requires callers { shared.now.callers ≡ 2 }
    requires base { LawfulBase (O.line_count shared.now.object) (O.lawful shared.now.object) (base_of words.items) }
    requires place { place_of words.items + count ≤ 2 ^ 40 }
    requires count { count ≤ 1000 }
{
    let mut plain = VecMemory::of(words, None);
    match agree_taken(shared, seat, 2, &mut plain, count) {
        Ok(Some(done)) if done == count => Some(plain.into_words()),
        _ => None,
    }
}

// The words of a plain memory after the full steps of a thousand entries of an object; `None` where a replica had other words after one of them. The
// object has 64 to 16,384 lines.
fn agreed<O: Object>(alloc: Global, object: O) -> Result<Option<Vec<u64>>, AllocError>
    requires enough { 64 ≤ O.line_count object }
    requires small { O.line_count object ≤ 16384 }
{
    let base = Base::fresh(alloc, &object)?;
    let (shared, mut first, second) = made(alloc, object, &NO_LIMITS)?;
    let _other = second;
    Ok(agree_plain(&shared, &mut first, base.words.into_vec(), 1000))
}

// Whether there are `count` words, of which the first, the place, is 1,000.
fn are_right(words: &Option<Vec<u64>>, count: usize) -> bool {
    match words {
        Some(words) => words.len() == count && words.first() == Some(&1000),
        None => false,
    }
}

// A thousand puts, removals, sums and readings on 50 keys: after each, every word of the replica is that of the plain memory. Then the
// words of these commands are operations of Tally, a running sum.
#[test]
fn entries_are_replayed_word_by_word(rt: HostRuntime) -> Result<(), Fail> {
    // a region has the 146 lines in front of the object part, and here 512 or 64 more
    let documents = agreed(rt.alloc(), DocStore::of(512))?;
    holds(&rt, are_right(&documents, 5264));
    let sums = agreed(rt.alloc(), Tally)?;
    holds(&rt, are_right(&sums, 1680));
    Ok(())
}

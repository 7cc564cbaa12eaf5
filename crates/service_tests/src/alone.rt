//! An object alone, over a vector of words, held against what callers were told and what a closed service leaves.

ghost use Rattle.std.specs.Prelude.{◌≡◌, ◌*◌, ◌<◌, IfOk, IsTrue, OnOk};
ghost use Rattle.cx_base.specs.Memory.{Always};

use crate::calls::Call;
use crate::tasks::Work;
use cx_base::{Halt, Memory, Object, VecMemory, root_replica};
use cx_core::{HEAD_LINES, LINE_WORDS, OBJECT_START, slot_start};
use cx_table::Remains;
use std::alloc::{AllocError, Global};

/// An object alone after the updates of callers.
#[derive(Drop)]
pub(crate) struct Alone {
    /// How many updates were made.
    pub(crate) updates: u64,
    words: Vec<u64>,
}

/// The object alone, after each caller's operations from a fresh base on, in the order of the tickets: the tickets are the numbers from
/// 0 on, each once, each caller's updates and reads stand in the order of its calls, each reply is the object's, and each read is made
/// after the updates below its place. `None` where one of these does not hold.
pub(crate) fn made_alone<O: Object>(
    alloc: Global,
    object: &O,
    work: Work,
    logs: &[Vec<Call>],
) -> Result<Option<Alone>, AllocError> {
    let Some(count) = object.lines().checked_mul(8) else {
        return Err(AllocError);
    };
    let mut memory = VecMemory::of(vec![in alloc; 0; count as usize]?, None);
    let mut done = Vec::from_elem(alloc, 0, logs.len())?;
    match replies_from_opening(object, &mut memory, work, logs, &mut done) {
        Ok(Some(updates)) => Ok(Some(Alone {
            updates,
            words: memory.into_words(),
        })),
        _ => Ok(None),
    }
}

impl Alone {
    /// Whether the region that a closed service published last has the place and the object part of the object alone, and each caller's slot.
    pub(crate) fn is_left(&self, remains: &Remains, logs: &[Vec<Call>]) -> bool {
        match last_region(remains) {
            Some(region) => self.is_region(region, logs),
            None => false,
        }
    }

    /// Whether a region has the place and the object part of the object alone, and each caller's slot as its log has it.
    pub(crate) fn is_region(&self, region: &[u64], logs: &[Vec<Call>]) -> bool {
        self.is_of(region) && are_slots(region, logs)
    }

    // Whether a region has the place and the object part of the object alone.
    fn is_of(&self, region: &[u64]) -> bool {
        let (Some(place), Some(words)) = (region.first(), region.get(OBJECT_START as usize..))
        else {
            return false;
        };
        *place == self.updates && words == self.words.as_slice()
    }
}

// Whether the slot of each of the 8 callers in a region is as the caller's log has it; a caller without a log made no update.
fn are_slots(region: &[u64], logs: &[Vec<Call>]) -> bool {
    for caller in 0..8u32 {
        let log = match logs.get(caller as usize) {
            Some(log) => log.as_slice(),
            None => &[],
        };
        if !is_slot(region, caller, log) {
            return false;
        }
    }
    true
}

/// The words of the region that a closed service published last.
pub(crate) fn last_region(remains: &Remains) -> Option<&[u64]> {
    let code = *remains.published.last()?;
    let callers = remains.callers;
    if callers < 1 || callers > 8 {
        return None;
    }
    let length = remains
        .lines
        .checked_add(HEAD_LINES)?
        .checked_mul(LINE_WORDS)?;
    let from = length.checked_mul(u64::from(root_replica(callers, code)))?;
    let end = from.checked_add(length)?;
    remains.volatile.get(from as usize..end as usize)
}

// Whether the slot of a caller has the number of its updates and the reply to the last of them.
fn is_slot(region: &[u64], caller: u32, log: &[Call]) -> bool
    requires { caller < 8 }
{
    let at = slot_start(caller) as usize;
    let (updates, last) = last_update(log);
    match region.get(at..at + 145) {
        Some([number, reply @ ..]) => *number == updates && reply == &last[..],
        _ => false,
    }
}

// How many updates a caller made, and the reply to the last of them, which is 0 where there is none.
fn last_update(log: &[Call]) -> (u64, [u64; 144]) {
    let mut updates = 0u64;
    let mut reply = [0; 144];
    for call in log {
        if !call.is_beside() {
            updates = updates.wrapping_add(1);
            reply = call.reply;
        }
    }
    (updates, reply)
}

// The calls of all logs are made in a memory, from the opening image on, in the order of their places. Returns the number of updates, and `None` where a
// reply differs. `done` has the number of calls of each caller that were made before.
fn replies_from_opening<O: Object, M: Memory>(
    object: &O,
    mem: &mut M,
    work: Work,
    logs: &[Vec<Call>],
    done: &mut [usize],
) -> Result<Option<u64>, Halt>
    requires size { M.size mem.old ≡ 8 * O.line_count object.now }
    requires writable { IsTrue (M.writable mem.old) }
{
    opened(object, mem)?;
    replies_in_order(object, mem, work, logs, done)
}

// Makes the opening image.
fn opened<O: Object, M: Memory>(object: &O, mem: &mut M) -> Result<(), Halt>
    requires size { M.size mem.old ≡ 8 * O.line_count object.now }
    requires writable { IsTrue (M.writable mem.old) }
    ensures size { M.size mem.new ≡ 8 * O.line_count object.now }
    ensures writable { IsTrue (M.writable mem.new) }
    ensures lawful { OnOk result (Always (M.stands mem.new) (O.lawful object.now)) }
{
    object.format(mem)
}

// The reply of the object to an operation.
fn replied<O: Object, M: Memory>(
    object: &O,
    mem: &mut M,
    op: &[u64; 144],
) -> Result<[u64; 144], Halt>
    requires size { M.size mem.old ≡ 8 * O.line_count object.now }
    requires writable { IsTrue (M.writable mem.old) }
    requires lawful { Always (M.stands mem.old) (O.lawful object.now) }
    ensures size { M.size mem.new ≡ 8 * O.line_count object.now }
    ensures writable { IsTrue (M.writable mem.new) }
    ensures lawful { IfOk result (λ _. Always (M.stands mem.new) (O.lawful object.now)) }
{
    object.run(mem, op)
}

// The first caller whose next call is answered at `place`: a read beside the queue where `beside` is true, and otherwise an update.
fn caller_at(logs: &[Vec<Call>], done: &[usize], place: u64, beside: bool) -> Option<usize> {
    for (caller, log) in logs.iter().enumerate() {
        let k = *done.get(caller)?;
        if is_next(log, k, place, beside) {
            return Some(caller);
        }
    }
    None
}

// Whether call `k` of a log is answered at `place`: as a read beside the queue where `beside` is true, and otherwise as an update.
fn is_next(log: &[Call], k: usize, place: u64, beside: bool) -> bool {
    match log.get(k) {
        Some(call) if beside => call.is_read(place),
        Some(call) => call.is_updated(place),
        None => false,
    }
}

// The caller and the number of the call that comes next at `place`: a read beside the queue at that place, and where there is none the update.
fn next_of(logs: &[Vec<Call>], done: &[usize], place: u64) -> Option<(usize, usize)> {
    let caller = match caller_at(logs, done, place, true) {
        Some(caller) => caller,
        None => caller_at(logs, done, place, false)?,
    };
    Some((caller, done.get(caller).copied()?))
}

// What a caller was told of its call of this number.
fn call_of(logs: &[Vec<Call>], caller: usize, k: usize) -> Option<&Call> {
    logs.get(caller)?.get(k)
}

// The place after a call at a place.
fn place_after(call: &Call, place: u64) -> u64 {
    if call.is_beside() {
        place
    } else {
        place.wrapping_add(1)
    }
}

// Adds 1 to the number of calls that a caller made.
fn count_call(done: &mut [usize], caller: usize) {
    if let Some(count) = done.get_mut(caller) {
        *count = count.saturating_add(1);
    }
}

// The number of calls in all logs.
fn calls_in(logs: &[Vec<Call>]) -> usize {
    let mut count = 0usize;
    for log in logs {
        count = count.saturating_add(log.len());
    }
    count
}

// The calls of all logs are made in a memory that has a lawful image, in the order of their places. Returns the number of updates, and `None` where no
// call is answered at the next place, or a reply is not the object's.
fn replies_in_order<O: Object, M: Memory>(
    object: &O,
    mem: &mut M,
    work: Work,
    logs: &[Vec<Call>],
    done: &mut [usize],
) -> Result<Option<u64>, Halt>
    requires size { M.size mem.old ≡ 8 * O.line_count object.now }
    requires writable { IsTrue (M.writable mem.old) }
    requires lawful { Always (M.stands mem.old) (O.lawful object.now) }
{
    let mut place = 0u64;
    for _ in 0..calls_in(logs) {
        let Some((caller, k)) = next_of(logs, done, place) else {
            return Ok(None);
        };
        let reply = replied(object, mem, &work.task(caller as u64, k as u64))?;
        match call_of(logs, caller, k) {
            Some(call) if call.reply == reply => place = place_after(call, place),
            _ => return Ok(None),
        }
        count_call(done, caller);
    }
    Ok(Some(place))
}

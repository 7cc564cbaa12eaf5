//! The fresh base of Tally, which is a running sum, and full steps on it against words written out by hand. A full step applies one entry to a
//! region: the object, the result slot of its caller, and the place.

ghost use Rattle.std.specs.Prelude.{◌≡◌, ◌+◌, ◌↔◌, ◌^◌, ◌<◌, ◌≤◌, IfOk, IsTrue, drop, length, slice_index};
ghost use Rattle.cx_base.specs.Tally.{IsTally, tally_step};
ghost use Rattle.cx_base.specs.Memory.{Words};
ghost use Rattle.cx_core.specs.Base.{LawfulBase};
ghost use Rattle.cx_core.specs.History.{full_image};
ghost use Rattle.cx_core.specs.Step.{full_step_of};

use crate::board::holds;
use crate::facts::{IMAGE_0, SUM_AT, VERSION_AT, Words, are_words};
use cx_base::tally::Tally;
use cx_base::{Halt, Object, VecMemory};
use cx_core::{
    Base, Entry, full_image_begins, full_image_goes_on, full_images_are_lawful, full_images_stay,
    full_regions_go_on, full_step, full_step_keeps,
};
use std::alloc::{AllocError, Global};
use std::test::Fail;

// The entry of `caller` with this number. Its operation adds `adds` to the sum, or only reads the sum where `reads` is 1.
fn entry(caller: u32, number: u64, adds: u64, reads: u64) -> Entry {
    let mut op = [0; 144];
    op[0] = adds;
    op[1] = reads;
    Entry { caller, number, op }
}

// The words of a region of Tally after the full step of an entry. `left` is how many words may be loaded or stored, `None` without a limit; `Err`
// comes where they do not suffice. The region has 1680 words, its place is below 2^40, the words from 1168 on are an image of Tally, and the
// entry's caller is below 8.
fn stepped(words: Vec<u64>, left: Option<u64>, entry: &Entry) -> Result<Vec<u64>, Halt>
    requires size { length words.items ≡ 1680 }
    requires place { slice_index words.items 0 < 2 ^ 40 }
    requires lawful { IsTally (drop 1168 words.items) }
    requires caller { entry.now.caller < 8 }
    ensures { IfOk result (λ after. after.items ≡ full_step_of tally_step entry.now words.items) }
{
    let mut memory = VecMemory::of(words, left);
    full_step(&Tally, &mut memory, entry)?;
    Ok(memory.into_words())
}

// Whether the object's part of a region, its words from 1168 on, is an image of Tally. `Err` means out of memory.
fn is_lawful(alloc: Global, words: &[u64]) -> Result<bool, AllocError>
    requires { 1168 ≤ length words.now }
    ensures { IfOk result (λ yes. IsTrue yes ↔ IsTally (drop 1168 words.now)) }
{
    let (_, image) = words.split_at(1168);
    Tally.check(alloc, image)
}

// The words after the full step of an entry, or its `Halt`, where `left` loads and stores are allowed. `None` where the words are no region of
// Tally, its place is 2^40 or more, or the entry's caller is not below 8. The outer `Err` means out of memory.
fn step(
    alloc: Global,
    words: Vec<u64>,
    left: Option<u64>,
    entry: &Entry,
) -> Result<Option<Result<Vec<u64>, Halt>>, AllocError> {
    if words.len() != 1680
        || words[0] >= 1 << 40
        || entry.caller >= 8
        || !is_lawful(alloc, &words)?
    {
        return Ok(None);
    }
    Ok(Some(stepped(words, left, entry)))
}

// Each row: the caller, the number of its entry, what the entry adds, 1 where it only reads, else 0, and the words after its full step, as pairs of
// address and word.
type StepRow = (u32, u64, u64, u64, Words);

// Each step is made on what the one before left. Columns: the caller, the number of its entry, what the entry adds, 1 where it only reads, else 0,
// and the words after the step: pairs of address and word. Word 0 is the place. The result slot of caller c begins at word 8 + 145 c, with the
// number of its last entry and the sum that it was answered.
static STEPS: [StepRow; 4] = [
    // caller 1 adds 5
    (
        1,
        1,
        5,
        0,
        &[(0, 1), (153, 1), (154, 5), (VERSION_AT, 7), (SUM_AT, 5)],
    ),
    // caller 0 adds 7
    (
        0,
        1,
        7,
        0,
        &[
            (0, 2),
            (8, 1),
            (9, 12),
            (153, 1),
            (154, 5),
            (VERSION_AT, 7),
            (SUM_AT, 12),
        ],
    ),
    // caller 1 reads, so that 9 is not added
    (
        1,
        2,
        9,
        1,
        &[
            (0, 3),
            (8, 1),
            (9, 12),
            (153, 2),
            (154, 12),
            (VERSION_AT, 7),
            (SUM_AT, 12),
        ],
    ),
    // caller 7 adds 2^64 - 1, which leaves one less
    (
        7,
        1,
        u64::MAX,
        0,
        &[
            (0, 4),
            (8, 1),
            (9, 12),
            (153, 2),
            (154, 12),
            (1023, 1),
            (1024, 11),
            (VERSION_AT, 7),
            (SUM_AT, 11),
        ],
    ),
];

// The index of the first of `rows` whose full step is not made, or leaves other words than the row says, from the fresh base on; `None` if there is
// no such row. `Err` means out of memory.
fn first_wrong(alloc: Global, rows: &[StepRow]) -> Result<Option<usize>, AllocError> {
    let mut words = Base::fresh(alloc, &Tally)?.words.into_vec();
    for (i, (caller, number, adds, reads, want)) in rows.iter().enumerate() {
        let made = step(alloc, words, None, &entry(*caller, *number, *adds, *reads))?;
        let Some(Ok(after)) = made else {
            return Ok(Some(i));
        };
        if !are_words(&after, want) {
            return Ok(Some(i));
        }
        words = after;
    }
    Ok(None)
}

// Whether a first full step on the fresh base is made where `left` loads and stores are allowed. `None` comes where the fresh base is no region.
// `Err` means out of memory.
fn is_made(alloc: Global, left: u64) -> Result<Option<bool>, AllocError> {
    let words = Base::fresh(alloc, &Tally)?.words.into_vec();
    match step(alloc, words, Some(left), &entry(3, 1, 5, 0))? {
        None => Ok(None),
        Some(made) => Ok(Some(made.is_ok())),
    }
}

// The first number of allowed loads and stores, below `below`, with which a first full step halts or succeeds against what it should; `None` if
// there is none. It makes 151: it loads the place, the sum, the number and 144 words of the reply, and stores the sum, the number, the one word of
// the reply that differs, and the place. `Err` means out of memory.
fn first_other(alloc: Global, below: u64) -> Result<Option<u64>, AllocError> {
    for left in 0..below {
        if is_made(alloc, left)? != Some(151 <= left) {
            return Ok(Some(left));
        }
    }
    Ok(None)
}

// Whether the fresh base is at place 0, and its version alone is not 0. `Err` means out of memory.
fn is_fresh(alloc: Global) -> Result<bool, AllocError> {
    let base = Base::fresh(alloc, &Tally)?;
    Ok(base.place == 0 && are_words(base.words.as_slice(), IMAGE_0))
}

// Asserts that the fresh base and the four steps have the words written here, and that a full step takes 151 loads and stores.
#[test]
fn full_steps_by_hand(rt: HostRuntime) -> Result<(), Fail> {
    holds(&rt, is_fresh(rt.alloc())?);
    holds(&rt, first_wrong(rt.alloc(), &STEPS)?.is_none());
    holds(&rt, first_other(rt.alloc(), 153)?.is_none());
    Ok(())
}

// The laws of the full step and of the full image hold of Tally. `next` is the base after the full step of `entry` on `base`. Then `next` is a
// lawful base, and the full image of `history` at the place of `base` is the words of `base`.
fn laws(base: &Base, history: &[Entry], entry: &Entry, next: &Base)
    requires lawful { LawfulBase 64 IsTally base.now }
    requires place { base.now.place < 2 ^ 40 }
    requires caller { entry.now.caller < 8 }
    requires numbered { 0 < entry.now.number }
    requires number { entry.now.number ≤ base.now.place + 1 }
    requires op { Words 144 entry.now.op }
    requires next_place { next.now.place ≡ base.now.place + 1 }
    requires next_words { next.now.words ≡ full_step_of tally_step entry.now base.now.words }
    ensures lawful { LawfulBase 64 IsTally next.now }
    ensures begins { full_image tally_step base.now history.now base.now.place ≡ base.now.words }
{
    full_image_begins(&Tally, base, history);
    full_image_goes_on(&Tally, base, history, base.place);
    full_step_keeps(&Tally, base, entry, next);
    full_images_stay();
    full_images_are_lawful(&Tally, base);
    full_regions_go_on(&Tally, base);
}

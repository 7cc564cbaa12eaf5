//! What a loss of power leaves after each step of a race of two callers that publish, while another replica has a dirty word.

ghost use Rattle.std.specs.Prelude.{◌≡◌, ◌%◌, length};

use crate::board::{Board, Row, holds};
use crate::facts::{IMAGE_0, IMAGE_1, REGION, SUM_ADDRESS, SUM_AT, VERSION_AT, Words, are_words};
use crate::race::{RACE, begins};
use core_events::CoreState;
use cx_core::Kind;
use pmem_model::Medium;
use std::alloc::{AllocError, Global};
use std::test::Fail;

// The chain of root codes from DUR to CUR after each of the 12 steps of the race. With two callers, code 4 p + r names replica r at place p.
static CHAINS: [&[u64]; 12] = [
    &[0],
    &[0],
    // caller 0 publishes code 5, and then caller 1 publishes code 10
    &[0, 5],
    &[0, 5],
    &[0, 5, 10],
    &[0, 5, 10],
    // DUR is raised to 5, and then to 10
    &[5, 10],
    &[5, 10],
    &[10],
    &[10],
    &[10],
    &[10],
];

// Caller 0 also takes replica 3 and stores two of its words, of which one is made durable. The sum, 99, stays dirty. Each row: the caller, the
// step, and whether the step is allowed.
const DIRTY: [Row; 4] = [
    (0, Kind::TryExclusive { r: 3 }, true),
    (0, Kind::StoreWord { r: 3, i: 0, v: 77 }, true),
    (
        0,
        Kind::StoreWord {
            r: 3,
            i: SUM_ADDRESS,
            v: 99,
        },
        true,
    ),
    (0, Kind::Persist { r: 3, i: 0 }, true),
];

// Each row: a choice, the number that picks what a loss of power leaves; then the sum of replica 3 that it leaves, which is dirty: the old value 0,
// or the new value 99. `None` stands for a value that the row does not say.
const CHOICES: [(u64, Option<u64>); 3] = [(0, Some(0)), (1, Some(99)), (7, None)];

// The words of a region after both entries, at place 2: caller 0 has added 5, and caller 1 has added 7. Pairs of address and word: the place, the
// number and reply of caller 0, those of caller 1, the version and the sum.
const IMAGE_2: Words = &[
    (0, 2),
    (8, 1),
    (9, 5),
    (153, 1),
    (154, 12),
    (VERSION_AT, 7),
    (SUM_AT, 12),
];

// What a loss of power leaves of the words of all replicas by this choice. `vol` has the words as stores left them, and `per` those that are
// durable; where they differ, the word is dirty, and the choice says what it has then. `Err` means out of memory.
fn left(alloc: Global, vol: &[u64], per: &[u64], choice: u64) -> Result<Vec<u64>, AllocError>
    requires same { length vol.now ≡ length per.now }
    requires lines { length per.now % 8 ≡ 0 }
{
    // The medium holds the durable words, and each word that differs is stored into it and not written back.
    let mut medium = Medium::of(alloc, Vec::from_slice(alloc, per)?)?;
    for at in 0..per.len() {
        if vol[at] != per[at] {
            medium.store(at as u64, vol[at]);
        }
    }
    let mut left = Vec::from_slice(alloc, per)?;
    medium.image(choice, &mut left);
    Ok(left)
}

// What a loss of power leaves of the words of all replicas of a state by this choice; empty where the words of the replicas are no whole lines of
// 8. `Err` means out of memory.
fn left_of(alloc: Global, state: &CoreState, choice: u64) -> Result<Vec<u64>, AllocError> {
    let (vol, per) = (state.vol(), state.per());
    if vol.len() != per.len() || per.len() % 8 != 0 {
        return Ok(Vec::new(alloc));
    }
    left(alloc, vol, per, choice)
}

// The words of a region after the first `place` entries of the race, which has two.
fn image(place: u64) -> Words {
    match place {
        0 => IMAGE_0,
        1 => IMAGE_1,
        _ => IMAGE_2,
    }
}

// Whether each root code of `chain` is recovered: the replica that it names has in `words`, which are those of all replicas, the words of the
// code's place.
fn are_recovered(words: &[u64], chain: &[u64]) -> bool {
    for root in chain {
        // a root code of two callers is 4 times the place, plus the replica
        let from = REGION * (*root % 4) as usize;
        if !are_words(
            words.get(from..from + REGION).unwrap_or(&[]),
            image(*root / 4),
        ) {
            return false;
        }
    }
    true
}

// Whether, by each of the choices, a loss of power in this state leaves the right words for each root code of `chain`, and leaves in the dirty word
// of replica 3 the value of the choice's row, if the row says one. `Err` means out of memory.
fn is_recovered(alloc: Global, state: &CoreState, chain: &[u64]) -> Result<bool, AllocError> {
    for (choice, dirty) in CHOICES {
        let words = left_of(alloc, state, choice)?;
        let word = words.get(3 * REGION + SUM_AT).copied();
        if !are_recovered(&words, chain) || (dirty.is_some() && word != dirty) {
            return Ok(false);
        }
    }
    Ok(true)
}

// Makes the steps of the race, and returns the index of the first that is not allowed or refused as its row says, or after which some loss of power
// leaves wrong words; `None` if there is no such step. `Err` means out of memory.
fn first_wrong(alloc: Global, board: &mut Board) -> Result<Option<usize>, AllocError> {
    for (i, ((row, _), chain)) in RACE.iter().zip(CHAINS.iter()).enumerate() {
        if board.step(alloc, row.0, row.1)? != row.2 || !is_recovered(alloc, &board.state, chain)? {
            return Ok(Some(i));
        }
    }
    Ok(None)
}

// Makes what comes before the race, stores the dirty word, and makes the race. Returns whether each step goes as it is written, and all root codes
// are recovered after each step of the race. `Err` means out of memory.
fn races(alloc: Global, board: &mut Board) -> Result<bool, AllocError> {
    if !begins(alloc, board)? || board.first_wrong(alloc, &DIRTY)?.is_some() {
        return Ok(false);
    }
    Ok(first_wrong(alloc, board)?.is_none())
}

// Whether, from the opening state of two callers on, each step goes as it is written, and all root codes are recovered after each step of the race.
// `Err` means out of memory.
fn is_safe(alloc: Global) -> Result<bool, AllocError> {
    let mut board = Board::open(alloc, 2)?;
    races(alloc, &mut board)
}

// Asserts that a loss of power after any step of the race leaves each root from DUR to CUR whole.
#[test]
fn each_crash_image_of_a_race_is_recovered(rt: HostRuntime) -> Result<(), Fail> {
    holds(&rt, is_safe(rt.alloc())?);
    Ok(())
}

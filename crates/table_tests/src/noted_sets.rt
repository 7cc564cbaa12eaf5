//! Write sets over a vector.

ghost use Rattle.redo_set.specs.Sets.{AreWithin};

use crate::holds::holds;
use cx_base::VecMemory;
use redo_set::{WriteSet, apply_set};
use std::alloc::{AllocError, Global};
use std::test::Fail;

// The pairs of an address and a value that a set takes (`pairs`). How many accesses its storing is allowed (`left`), or `None` for any number. The
// words that are not 0 after it, with their addresses (`words`), and whether the set was stored whole (`whole`).
struct Row<'a> {
    pairs: &'a [(u64, u64)],
    left: Option<u64>,
    words: &'a [(u64, u64)],
    whole: bool,
}

// Two values for one address: both are stored, one after the other.
const TWICE: [(u64, u64); 2] = [(1168, 1), (1168, 2)];

// The first address of a region, the last, and the first again.
const THREE: [(u64, u64); 3] = [(0, 7), (1679, 8), (0, 9)];

// Sets that are stored with as many accesses as they need, and with fewer.
static ROWS: [Row<'static>; 6] = [
    // the second value stands
    Row {
        pairs: &TWICE,
        left: None,
        words: &[(1168, 2)],
        whole: true,
    },
    // one access stores the first value
    Row {
        pairs: &TWICE,
        left: Some(1),
        words: &[(1168, 1)],
        whole: false,
    },
    // three accesses store all three pairs
    Row {
        pairs: &THREE,
        left: Some(3),
        words: &[(0, 9), (1679, 8)],
        whole: true,
    },
    // two accesses do not store the third pair
    Row {
        pairs: &THREE,
        left: Some(2),
        words: &[(0, 7), (1679, 8)],
        whole: false,
    },
    // without an access nothing is stored, which is the whole set only where it is empty
    Row {
        pairs: &TWICE,
        left: Some(0),
        words: &[],
        whole: false,
    },
    Row {
        pairs: &[],
        left: Some(0),
        words: &[],
        whole: true,
    },
];

// Puts pairs of addresses below 1,680 into a set, up to the first that it does not take, and returns how many it took.
fn note_all(set: &mut WriteSet, pairs: &[(u64, u64)]) -> usize
    requires { AreWithin 1680 set.old }
    ensures { AreWithin 1680 set.new }
{
    for (i, (at, v)) in pairs.iter().enumerate() {
        if *at >= 1680 || !set.note(*at, *v) {
            return i;
        }
    }
    pairs.len()
}

// The words after a set was stored over 1,680 zeros, and whether it was stored whole. `left` accesses are allowed, or any number where that is
// `None`.
fn stored(alloc: Global, set: &WriteSet, left: Option<u64>) -> Result<(Vec<u64>, bool), AllocError>
    requires { AreWithin 1680 set.now }
{
    let mut mem = VecMemory::of(vec![in alloc; 0; 1680]?, left);
    let whole = apply_set(&mut mem, set).is_ok();
    Ok((mem.into_words(), whole))
}

// The word that the first pair of an address gives it, or 0 where there is none.
fn word_at(pairs: &[(u64, u64)], at: u64) -> u64 {
    for (there, v) in pairs {
        if *there == at {
            return *v;
        }
    }
    0
}

// Whether there are 1,680 words, which are the `wanted` ones at their addresses and 0 elsewhere.
fn are_words(words: &[u64], wanted: &[(u64, u64)]) -> bool {
    for (at, word) in words.iter().enumerate() {
        if *word != word_at(wanted, at as u64) {
            return false;
        }
    }
    words.len() == 1680
}

// Empties a set and fills it with a row's pairs; returns whether it takes all of them and is stored as the row says.
fn has_row_words(alloc: Global, set: &mut WriteSet, row: &Row) -> Result<bool, AllocError> {
    set.clear();
    let taken = note_all(set, row.pairs);
    let count = set.len() as usize;
    let (words, whole) = stored(alloc, set, row.left)?;
    Ok(
        taken == row.pairs.len()
            && count == taken
            && whole == row.whole
            && are_words(&words, row.words),
    )
}

// The number of the first row that goes wrong, with one set that takes the pairs of each row in turn; `None` where all are right.
fn first_wrong(alloc: Global, rows: &[Row]) -> Result<Option<usize>, AllocError> {
    let mut set = WriteSet::new(alloc)?;
    for (i, row) in rows.iter().enumerate() {
        if !has_row_words(alloc, &mut set, row)? {
            return Ok(Some(i));
        }
    }
    Ok(None)
}

// 257 pairs, of which the last has the address of the first.
fn one_too_many(alloc: Global) -> Result<Vec<(u64, u64)>, AllocError> {
    let mut pairs = Vec::new(alloc);
    for i in 0..257 {
        pairs.push((1168 + i % 256, i + 1))?;
    }
    Ok(pairs)
}

// Whether a set takes the first 256 of 257 pairs, and refuses the last without a change.
fn takes_256(alloc: Global, pairs: &[(u64, u64)]) -> Result<bool, AllocError> {
    let mut set = WriteSet::new(alloc)?;
    let taken = note_all(&mut set, pairs);
    let full = taken == 256 && set.len() == 256;
    let (words, whole) = stored(alloc, &set, None)?;
    Ok(full && whole && are_words(&words, pairs))
}

// Sets are stored pair by pair, as their rows say, and a set holds no more than 256 pairs.
#[test]
fn sets_are_stored_in_order(rt: HostRuntime) -> Result<(), Fail> {
    holds(&rt, first_wrong(rt.alloc(), &ROWS)?.is_none());
    let pairs = one_too_many(rt.alloc())?;
    holds(&rt, takes_256(rt.alloc(), &pairs)?);
    Ok(())
}

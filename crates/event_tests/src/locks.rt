//! The steps on locks and on the words of replicas: one caller by hand, each guard failing for one reason, rights begun and ended in each order,
//! and a script of three callers whose last state is written out by hand.

use crate::board::{Row, holds};
use crate::facts::{
    Fact, IMAGE_0, IMAGE_1, Known, LAST_ADDRESS, SUM_ADDRESS, SeenRow, VERSION_AT, Words,
};
use crate::scripts::{Part, Script, first_wrong};
use cx_core::{EXCLUSIVE_MARK, Kind};
use std::test::Fail;

// One caller and two replicas. Each row: the caller, the step, and whether the step is allowed; then the lock word of replica 0 after it. An
// exclusive right adds 2^32 to a lock word; each other right adds 1, and so does CUR to that of the replica that it names, here replica 0.
const TWO_REPLICAS: [SeenRow; 7] = [
    // CUR names replica 0, so that the exclusive try of it takes nothing
    ((0, Kind::TryExclusive { r: 0 }, true), Fact::FirstLock(1)),
    ((0, Kind::TryShared { r: 0 }, true), Fact::FirstLock(2)),
    ((0, Kind::BackOff { r: 0 }, true), Fact::FirstLock(1)),
    // caller 0 has no right on replica 1 that it could downgrade
    ((0, Kind::Downgrade { r: 1 }, false), Fact::FirstLock(1)),
    ((0, Kind::TryExclusive { r: 1 }, true), Fact::FirstLock(1)),
    // replica 1 is taken, and has a word stored that is not durable, so that it is not downgraded
    (
        (0, Kind::StoreWord { r: 1, i: 0, v: 1 }, true),
        Fact::FirstLock(1),
    ),
    ((0, Kind::Downgrade { r: 1 }, false), Fact::FirstLock(1)),
];

// Two callers, four replicas. Each row: the caller, the step, and whether the step is allowed. `r` is a replica, `i` the address of a word in it,
// and `v` what is stored there. Each refusal has one cause.
const REFUSALS: [Row; 66] = [
    // there are replicas 0 to 3, and no replica 4
    (0, Kind::TryExclusive { r: 4 }, false),
    (0, Kind::TryShared { r: 4 }, false),
    (0, Kind::BackOff { r: 4 }, false),
    (0, Kind::Downgrade { r: 4 }, false),
    (0, Kind::ReleaseExclusive { r: 4 }, false),
    (0, LOAD_OF_4, false),
    (0, Kind::StoreWord { r: 4, i: 0, v: 0 }, false),
    (0, Kind::Persist { r: 4, i: 0 }, false),
    // there are callers 0 and 1, and no caller 2
    (2, Kind::TryExclusive { r: 1 }, false),
    (2, Kind::TryShared { r: 1 }, false),
    // caller 0 has no right on replica 1
    (0, Kind::BackOff { r: 1 }, false),
    (0, Kind::Downgrade { r: 1 }, false),
    (0, Kind::ReleaseExclusive { r: 1 }, false),
    (0, LOAD_OF_1, false),
    (0, Kind::StoreWord { r: 1, i: 0, v: 0 }, false),
    (0, Kind::Persist { r: 1, i: 0 }, false),
    // caller 0 holds replica 1 shared: it may load the words of that, and neither lock it again nor take another one shared
    (0, Kind::TryShared { r: 1 }, true),
    (0, Kind::TryExclusive { r: 1 }, false),
    (0, Kind::TryShared { r: 2 }, false),
    (0, Kind::BackOff { r: 2 }, false),
    (0, LOAD_BEHIND_1, false),
    (0, LOAD_OF_2, false),
    (0, LAST_LOAD_OF_1, true),
    // no code was loaded from CUR that a refusal could be marked against
    (0, MARKED_LOAD_OF_1, false),
    // each of these three steps needs an exclusive right on the replica
    (0, Kind::StoreWord { r: 1, i: 0, v: 0 }, false),
    (0, Kind::Downgrade { r: 1 }, false),
    (0, Kind::ReleaseExclusive { r: 1 }, false),
    // caller 0 holds replica 1 shared, and replica 2 exclusively; there is no word behind the last one, no right on replica 3, and nothing to make
    // durable yet
    (0, Kind::TryExclusive { r: 2 }, true),
    (0, STORE_BEHIND_2, false),
    (0, Kind::StoreWord { r: 3, i: 0, v: 0 }, false),
    (0, Kind::Persist { r: 2, i: 9 }, false),
    // a word that was stored is dirty, though its value is the same; it has to be made durable before the right is downgraded or released
    (0, Kind::StoreWord { r: 2, i: 9, v: 0 }, true),
    (0, Kind::Downgrade { r: 2 }, false),
    (0, Kind::ReleaseExclusive { r: 2 }, false),
    // only word 9 of replica 2 is dirty, and it can be made durable once
    (0, PERSIST_BEHIND_2, false),
    (0, Kind::Persist { r: 2, i: 8 }, false),
    (0, Kind::Persist { r: 3, i: 9 }, false),
    (0, Kind::Persist { r: 2, i: 9 }, true),
    (0, Kind::Persist { r: 2, i: 9 }, false),
    // with 5 in word 9, replica 2 is not the replica of place 0, so that the right stays exclusive until 0 is stored back
    (0, Kind::StoreWord { r: 2, i: 9, v: 5 }, true),
    (0, Kind::Persist { r: 2, i: 9 }, true),
    (0, Kind::Downgrade { r: 2 }, false),
    (0, Kind::ReleaseExclusive { r: 2 }, false),
    (0, Kind::StoreWord { r: 2, i: 9, v: 0 }, true),
    (0, Kind::Persist { r: 2, i: 9 }, true),
    (0, Kind::Downgrade { r: 3 }, false),
    (0, Kind::Downgrade { r: 2 }, true),
    // caller 0 has two rights, and a third one is refused; it releases one and takes replica 3 exclusively
    (0, Kind::TryExclusive { r: 3 }, false),
    (0, Kind::BackOff { r: 1 }, true),
    (0, Kind::TryExclusive { r: 3 }, true),
    // another right is downgraded already, so that the exclusive one can be neither downgraded nor released
    (0, Kind::Downgrade { r: 3 }, false),
    (0, Kind::ReleaseExclusive { r: 3 }, false),
    // caller 0 has two rights, and a third one is refused; it releases the downgraded one
    (0, Kind::TryShared { r: 1 }, false),
    (0, Kind::BackOff { r: 2 }, true),
    // caller 0 has one right, exclusive on replica 3: a second exclusive one, and a shared one on the same replica, are refused
    (0, Kind::TryExclusive { r: 1 }, false),
    (0, Kind::TryShared { r: 3 }, false),
    // replica 3 is held exclusively by caller 0, so that the shared try of caller 1 leaves a passer's mark, which gives no right but to take it
    // back
    (1, Kind::TryShared { r: 3 }, true),
    (1, Kind::TryShared { r: 1 }, false),
    (1, Kind::TryExclusive { r: 3 }, false),
    (1, LOAD_OF_3, false),
    (1, Kind::BackOff { r: 1 }, false),
    (1, Kind::BackOff { r: 3 }, true),
    (1, Kind::BackOff { r: 3 }, false),
    // the exclusive right on replica 3 is released, once
    (0, Kind::ReleaseExclusive { r: 3 }, true),
    (0, Kind::ReleaseExclusive { r: 3 }, false),
    (0, Kind::BackOff { r: 3 }, false),
];

// A load of word 0 of replica 1, which is its place.
const LOAD_OF_1: Kind = Kind::LoadWord {
    r: 1,
    i: 0,
    refused: false,
};

// A load of word 0 of replica 2, which is its place.
const LOAD_OF_2: Kind = Kind::LoadWord {
    r: 2,
    i: 0,
    refused: false,
};

// A load of word 0 of replica 3, which is its place.
const LOAD_OF_3: Kind = Kind::LoadWord {
    r: 3,
    i: 0,
    refused: false,
};

// A load of word 0 of replica 4, which is its place. With two callers there is no such replica.
const LOAD_OF_4: Kind = Kind::LoadWord {
    r: 4,
    i: 0,
    refused: false,
};

// A load of the last word of replica 1.
const LAST_LOAD_OF_1: Kind = Kind::LoadWord {
    r: 1,
    i: LAST_ADDRESS,
    refused: false,
};

// A load of the address behind the last word of replica 1.
const LOAD_BEHIND_1: Kind = Kind::LoadWord {
    r: 1,
    i: LAST_ADDRESS + 1,
    refused: false,
};

// A load of the place of replica 1 that is marked: the caller says that the word shows an outdated replica.
const MARKED_LOAD_OF_1: Kind = Kind::LoadWord {
    r: 1,
    i: 0,
    refused: true,
};

// A store at the address behind the last word of replica 2.
const STORE_BEHIND_2: Kind = Kind::StoreWord {
    r: 2,
    i: LAST_ADDRESS + 1,
    v: 0,
};

// The step that makes the word behind the last one of replica 2 durable.
const PERSIST_BEHIND_2: Kind = Kind::Persist {
    r: 2,
    i: LAST_ADDRESS + 1,
};

// Caller 0 takes replica 1 exclusively.
const EXCLUSIVE: &[Row] = &[(0, Kind::TryExclusive { r: 1 }, true)];

// Caller 0 releases its exclusive right on replica 1.
const EXCLUSIVE_ENDS: &[Row] = &[(0, Kind::ReleaseExclusive { r: 1 }, true)];

// Caller 0 takes replica 1 exclusively and downgrades its right.
const DOWNGRADED: &[Row] = &[
    (0, Kind::TryExclusive { r: 1 }, true),
    (0, Kind::Downgrade { r: 1 }, true),
];

// Caller 0 releases its downgraded right on replica 1.
const DOWNGRADED_ENDS: &[Row] = &[(0, Kind::BackOff { r: 1 }, true)];

// Caller 0 takes replica 2 shared.
const SHARED: &[Row] = &[(0, Kind::TryShared { r: 2 }, true)];

// Caller 0 releases its shared right on replica 2.
const SHARED_ENDS: &[Row] = &[(0, Kind::BackOff { r: 2 }, true)];

// Caller 0 tries replica 3 shared, which caller 1 holds exclusively, so that the try leaves a passer's mark.
const PASSER: &[Row] = &[(0, Kind::TryShared { r: 3 }, true)];

// Caller 0 takes its passer's mark on replica 3 back.
const PASSER_ENDS: &[Row] = &[(0, Kind::BackOff { r: 3 }, true)];

// Two rights of caller 0 begin and end in each order, while caller 1 holds replica 3 exclusively. Each part but the last is lists of rows, made one
// after another.
const RIGHTS: [Part; 19] = [
    Part::Rows(&[&[(1, Kind::TryExclusive { r: 3 }, true)]]),
    // an exclusive right and a shared one
    Part::Rows(&[EXCLUSIVE, SHARED, EXCLUSIVE_ENDS, SHARED_ENDS]),
    Part::Rows(&[EXCLUSIVE, SHARED, SHARED_ENDS, EXCLUSIVE_ENDS]),
    Part::Rows(&[SHARED, EXCLUSIVE, EXCLUSIVE_ENDS, SHARED_ENDS]),
    Part::Rows(&[SHARED, EXCLUSIVE, SHARED_ENDS, EXCLUSIVE_ENDS]),
    // an exclusive right and a passer's mark
    Part::Rows(&[EXCLUSIVE, PASSER, EXCLUSIVE_ENDS, PASSER_ENDS]),
    Part::Rows(&[EXCLUSIVE, PASSER, PASSER_ENDS, EXCLUSIVE_ENDS]),
    Part::Rows(&[PASSER, EXCLUSIVE, EXCLUSIVE_ENDS, PASSER_ENDS]),
    Part::Rows(&[PASSER, EXCLUSIVE, PASSER_ENDS, EXCLUSIVE_ENDS]),
    // a downgraded right and a shared one
    Part::Rows(&[DOWNGRADED, SHARED, DOWNGRADED_ENDS, SHARED_ENDS]),
    Part::Rows(&[DOWNGRADED, SHARED, SHARED_ENDS, DOWNGRADED_ENDS]),
    Part::Rows(&[SHARED, DOWNGRADED, DOWNGRADED_ENDS, SHARED_ENDS]),
    Part::Rows(&[SHARED, DOWNGRADED, SHARED_ENDS, DOWNGRADED_ENDS]),
    // a downgraded right and a passer's mark
    Part::Rows(&[DOWNGRADED, PASSER, DOWNGRADED_ENDS, PASSER_ENDS]),
    Part::Rows(&[DOWNGRADED, PASSER, PASSER_ENDS, DOWNGRADED_ENDS]),
    Part::Rows(&[PASSER, DOWNGRADED, DOWNGRADED_ENDS, PASSER_ENDS]),
    Part::Rows(&[PASSER, DOWNGRADED, PASSER_ENDS, DOWNGRADED_ENDS]),
    // a downgraded right and an exclusive one; at the end CUR names replica 0, and caller 1 still holds replica 3
    Part::Rows(&[&DOWNGRADED_FIRST]),
    Part::Are(&[Fact::Locks(&[1, 0, 0, EXCLUSIVE_MARK])]),
];

// A downgraded right has to end before an exclusive one is released or downgraded. Each row: the caller, the step, and whether the step is allowed.
const DOWNGRADED_FIRST: [Row; 11] = [
    (0, Kind::TryExclusive { r: 1 }, true),
    (0, Kind::Downgrade { r: 1 }, true),
    (0, Kind::TryExclusive { r: 2 }, true),
    (0, Kind::ReleaseExclusive { r: 2 }, false),
    (0, Kind::BackOff { r: 1 }, true),
    (0, Kind::Downgrade { r: 2 }, true),
    (0, Kind::TryExclusive { r: 1 }, true),
    (0, Kind::Downgrade { r: 1 }, false),
    (0, Kind::BackOff { r: 2 }, true),
    (0, Kind::BackOff { r: 1 }, false),
    (0, Kind::ReleaseExclusive { r: 1 }, true),
];

// Three callers link an entry each, and caller 0 gives replica 1 the words after the first entry: 24 steps. Each row: the caller, the step, and
// whether the step is allowed. `WriteCell` stores `v` as word `i` of the caller's cell `j`.
const BEGINNING: [Row; 24] = [
    (0, Kind::WriteCell { j: 0, i: 0, v: 1 }, true),
    (0, Kind::WriteCell { j: 0, i: 1, v: 5 }, true),
    (1, Kind::WriteCell { j: 0, i: 0, v: 1 }, true),
    (1, Kind::WriteCell { j: 0, i: 1, v: 7 }, true),
    (2, Kind::WriteCell { j: 0, i: 0, v: 1 }, true),
    (2, Kind::WriteCell { j: 0, i: 1, v: 9 }, true),
    // the entries get the tickets 0, 1 and 2, in the order of the callers
    (0, Kind::Look { s: 0 }, true),
    (0, Kind::Link { j: 0 }, true),
    (1, Kind::Look { s: 0 }, true),
    (1, Kind::Look { s: 1 }, true),
    (1, Kind::Link { j: 0 }, true),
    (2, Kind::Look { s: 1 }, true),
    (2, Kind::Look { s: 2 }, true),
    (2, Kind::Link { j: 0 }, true),
    // replica 1: the sum, the number and the reply of caller 0, and the place, are stored and made durable
    (0, Kind::TryExclusive { r: 1 }, true),
    (
        0,
        Kind::StoreWord {
            r: 1,
            i: SUM_ADDRESS,
            v: 5,
        },
        true,
    ),
    (0, Kind::StoreWord { r: 1, i: 8, v: 1 }, true),
    (0, Kind::StoreWord { r: 1, i: 9, v: 5 }, true),
    (0, Kind::StoreWord { r: 1, i: 0, v: 1 }, true),
    (0, Kind::Persist { r: 1, i: 0 }, true),
    (
        0,
        Kind::Persist {
            r: 1,
            i: SUM_ADDRESS,
        },
        true,
    ),
    (0, Kind::Persist { r: 1, i: 9 }, true),
    (0, Kind::Persist { r: 1, i: 8 }, true),
    (0, Kind::Downgrade { r: 1 }, true),
];

// Caller 1 tries each replica and gets none, the last one because caller 2 has it shared. Caller 2 stores words of replica 3 and makes them durable
// in another order. Then all is as before, but for the counts. It is run eight times: 33 steps each. Each row: the caller, the step, and whether
// the step is allowed. A try of a lock is allowed also where it takes nothing.
const ROUND: [Row; 33] = [
    (1, Kind::TryExclusive { r: 0 }, true),
    (1, Kind::TryExclusive { r: 1 }, true),
    // replica 2 is held by caller 0, and replica 3 by caller 2
    (0, Kind::TryExclusive { r: 2 }, true),
    (1, Kind::TryExclusive { r: 2 }, true),
    (2, Kind::TryExclusive { r: 3 }, true),
    (1, Kind::TryExclusive { r: 3 }, true),
    // caller 2 holds replica 4 shared, so that the exclusive try of caller 1 takes nothing
    (2, Kind::TryShared { r: 4 }, true),
    (1, Kind::TryExclusive { r: 4 }, true),
    (2, PLACE_OF_4, true),
    // caller 1 leaves a passer's mark on replica 3
    (1, Kind::TryShared { r: 3 }, true),
    (2, Kind::BackOff { r: 4 }, true),
    // caller 2 holds replica 5 shared: with it, each replica has refused caller 1
    (2, Kind::TryShared { r: 5 }, true),
    (1, Kind::TryExclusive { r: 5 }, true),
    (2, PLACE_OF_5, true),
    // caller 2 stores two words of replica 3, which may not be released before they are as they were and durable
    (2, Kind::StoreWord { r: 3, i: 9, v: 4 }, true),
    (
        2,
        Kind::StoreWord {
            r: 3,
            i: SUM_ADDRESS,
            v: 9,
        },
        true,
    ),
    (2, Kind::ReleaseExclusive { r: 3 }, false),
    (
        2,
        Kind::Persist {
            r: 3,
            i: SUM_ADDRESS,
        },
        true,
    ),
    (2, Kind::Persist { r: 3, i: 9 }, true),
    (2, Kind::ReleaseExclusive { r: 3 }, false),
    // the two words are stored back and made durable in the other order, and replica 3 is released
    (
        2,
        Kind::StoreWord {
            r: 3,
            i: SUM_ADDRESS,
            v: 0,
        },
        true,
    ),
    (2, Kind::StoreWord { r: 3, i: 9, v: 0 }, true),
    (2, Kind::Persist { r: 3, i: 9 }, true),
    (
        2,
        Kind::Persist {
            r: 3,
            i: SUM_ADDRESS,
        },
        true,
    ),
    (2, Kind::ReleaseExclusive { r: 3 }, true),
    // all marks and rights end, and caller 0 gets its downgraded right on replica 1 again
    (1, Kind::BackOff { r: 3 }, true),
    (2, Kind::BackOff { r: 5 }, true),
    (0, Kind::ReleaseExclusive { r: 2 }, false),
    (0, Kind::BackOff { r: 1 }, true),
    (0, Kind::ReleaseExclusive { r: 2 }, true),
    (0, Kind::TryExclusive { r: 1 }, true),
    (0, Kind::Downgrade { r: 1 }, true),
    (1, Kind::LoadFree, true),
];

// At the end of the script caller 1 has a replica half stored, caller 2 a passer's mark on it, and caller 0 a shared right: 12 steps. Each row: the
// caller, the step, and whether the step is allowed.
const END: [Row; 12] = [
    (1, Kind::TryExclusive { r: 2 }, true),
    (1, Kind::StoreWord { r: 2, i: 0, v: 2 }, true),
    (1, Kind::StoreWord { r: 2, i: 153, v: 1 }, true),
    (
        1,
        Kind::StoreWord {
            r: 2,
            i: 154,
            v: 12,
        },
        true,
    ),
    (1, Kind::Persist { r: 2, i: 153 }, true),
    // caller 2 leaves a passer's mark on replica 2, may try none shared besides, and is refused replicas 1 and 0
    (2, Kind::TryShared { r: 2 }, true),
    (2, Kind::TryShared { r: 1 }, false),
    (2, Kind::TryExclusive { r: 1 }, true),
    (2, Kind::TryExclusive { r: 0 }, true),
    // caller 0 holds replica 4 shared, and loads its place
    (0, Kind::TryShared { r: 4 }, true),
    (0, PLACE_OF_4, true),
    // the right of caller 0 on replica 1 is downgraded, so that it loads no word of it
    (0, LOAD_OF_1, false),
];

// A load of word 0 of replica 4, which is its place, in a script of three callers, who have six replicas.
const PLACE_OF_4: Kind = LOAD_OF_4;

// A load of word 0 of replica 5, which is its place.
const PLACE_OF_5: Kind = Kind::LoadWord {
    r: 5,
    i: 0,
    refused: false,
};

// Replica 2 as caller 1 leaves it: the place and the result slot of caller 1 are stored, and the sum is not. Pairs of address and word.
const HALF_STORED: Words = &[(0, 2), (153, 1), (154, 12), (VERSION_AT, 7)];

// After 300 steps, of which 26 are refused: the lock word of each of six replicas, what VOL and PER hold of them, and what each caller knows.
const AFTER_300: [Fact; 17] = [
    Fact::Locks(&[1, 1, EXCLUSIVE_MARK + 1, 0, 1, 0]),
    Fact::Replica(0, IMAGE_0, IMAGE_0),
    Fact::Replica(1, IMAGE_1, IMAGE_1),
    Fact::Replica(2, HALF_STORED, &[(153, 1), (VERSION_AT, 7)]),
    Fact::Replica(3, IMAGE_0, IMAGE_0),
    Fact::Replica(4, IMAGE_0, IMAGE_0),
    Fact::Replica(5, IMAGE_0, IMAGE_0),
    // `Tried` is steps made, refusals met, the replica tried last, and the lock word found there
    Fact::Of(0, Known::Tried([56, 0, 4, 0])),
    Fact::Of(1, Known::Tried([82, 8, 2, 0])),
    Fact::Of(2, Known::Tried([136, 0, 0, 1])),
    // `Rights` is the replicas held exclusively, held shared, passed and downgraded, and the place of the last one
    Fact::Of(0, Known::Rights([None, Some(4), None, Some(1), Some(1)])),
    Fact::Of(1, Known::Rights([Some(2), None, None, None, None])),
    Fact::Of(2, Known::Rights([None, None, Some(2), None, None])),
    Fact::Of(0, Known::Loaded(&[(0, 0)])),
    Fact::Of(1, Known::Stored(&[0, 154], HALF_STORED)),
    Fact::Of(2, Known::Refused(&[1, 0])),
    Fact::Callers(3),
];

// Each script: the number of callers, then its parts: the rows above from the opening state on, and what holds after them.
static SCRIPTS: [Script; 4] = [
    (
        1,
        &[
            Part::Seen(&TWO_REPLICAS),
            Part::Are(&[Fact::Of(0, Known::Met(0))]),
        ],
    ),
    (
        2,
        &[
            Part::Rows(&[&REFUSALS]),
            Part::Are(&[Fact::Locks(&[1, 0, 0, 0])]),
        ],
    ),
    (2, &RIGHTS),
    (
        3,
        &[
            Part::Rows(&[&BEGINNING, &ROUND, &ROUND, &ROUND, &ROUND]),
            Part::Rows(&[&ROUND, &ROUND, &ROUND, &ROUND, &END]),
            Part::Are(&AFTER_300),
        ],
    ),
];

// Asserts that all steps of the scripts are allowed or refused as their rows say, and that all facts hold.
#[test]
fn locks_and_regions(rt: HostRuntime) -> Result<(), Fail> {
    holds(&rt, first_wrong(rt.alloc(), &SCRIPTS)?.is_none());
    Ok(())
}

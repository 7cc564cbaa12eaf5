//! The steps on CUR and DUR: one caller from its entry to its answer, a race of two callers that publish, reads answered and refused, and each
//! guard failing for one reason.

use crate::board::{Row, holds};
use crate::facts::{Fact, Known};
use crate::race::{AFTER_TWO, SECOND_WIN};
use crate::scripts::{Part, Script, first_wrong};
use cx_core::{Kind, WonCode};
use std::test::Fail;

// An operation of Tally that only reads: word 0 would be added to the sum, and word 1 says that the operation reads.
const READ: [u64; 144] = [
    0, 1, 0, 0, 0, 0, 0, 0, 0, 0, 0, 0, 0, 0, 0, 0, 0, 0, 0, 0, 0, 0, 0, 0, 0, 0, 0, 0, 0, 0, 0, 0,
    0, 0, 0, 0, 0, 0, 0, 0, 0, 0, 0, 0, 0, 0, 0, 0, 0, 0, 0, 0, 0, 0, 0, 0, 0, 0, 0, 0, 0, 0, 0, 0,
    0, 0, 0, 0, 0, 0, 0, 0, 0, 0, 0, 0, 0, 0, 0, 0, 0, 0, 0, 0, 0, 0, 0, 0, 0, 0, 0, 0, 0, 0, 0, 0,
    0, 0, 0, 0, 0, 0, 0, 0, 0, 0, 0, 0, 0, 0, 0, 0, 0, 0, 0, 0, 0, 0, 0, 0, 0, 0, 0, 0, 0, 0, 0, 0,
    0, 0, 0, 0, 0, 0, 0, 0, 0, 0, 0, 0, 0, 0, 0, 0,
];

// A raise of DUR by code 10 that also asks to answer an operation, which is no read: it adds 0.
const ADDS: Kind = Kind::Raise {
    code: 10,
    read: Some([0; 144]),
};

// A raise of DUR by code 0 that also asks to answer a read.
const ASKS_0: Kind = Kind::Raise {
    code: 0,
    read: Some(READ),
};

// A raise of DUR by code 10 that also asks to answer a read.
const ASKS_10: Kind = Kind::Raise {
    code: 10,
    read: Some(READ),
};

// A raise of DUR by code 5 that also asks to answer a read.
const ASKS_5: Kind = Kind::Raise {
    code: 5,
    read: Some(READ),
};

// A load of word 0 of replica 0, which is its place.
const PLACE_OF_0: Kind = Kind::LoadWord {
    r: 0,
    i: 0,
    refused: false,
};

// A load of word 0 of replica 1, which is its place.
const PLACE_OF_1: Kind = Kind::LoadWord {
    r: 1,
    i: 0,
    refused: false,
};

// A load of word 0 of replica 2, which is its place.
const PLACE_OF_2: Kind = Kind::LoadWord {
    r: 2,
    i: 0,
    refused: false,
};

// A raise of DUR by code 0 that asks for no read.
const RAISES_0: Kind = Kind::Raise {
    code: 0,
    read: None,
};

// A raise of DUR by code 1 that asks for no read.
const RAISES_1: Kind = Kind::Raise {
    code: 1,
    read: None,
};

// A raise of DUR by code 10 that asks for no read.
const RAISES_10: Kind = Kind::Raise {
    code: 10,
    read: None,
};

// A raise of DUR by code 3 that asks for no read.
const RAISES_3: Kind = Kind::Raise {
    code: 3,
    read: None,
};

// A raise of DUR by code 5 that asks for no read.
const RAISES_5: Kind = Kind::Raise {
    code: 5,
    read: None,
};

// A raise of DUR by 2^64 - 1, which is no root code, that asks for no read.
const RAISES_NO_CODE: Kind = Kind::Raise {
    code: u64::MAX,
    read: None,
};

// A load of word 1 of replica 2, which is not its place.
const WORD_1_OF_2: Kind = Kind::LoadWord {
    r: 2,
    i: 1,
    refused: false,
};

// One caller links an entry that adds 0, brings replica 1 up to place 1, and publishes it by code 3. Each row: the caller, the step, and whether
// the step is allowed.
const ONE_CALLER: [Row; 14] = [
    (0, Kind::WriteCell { j: 0, i: 0, v: 1 }, true),
    (0, Kind::Look { s: 0 }, true),
    (0, Kind::Link { j: 0 }, true),
    // replica 1 gets the number of the entry and the place, and both are made durable
    (0, Kind::TryExclusive { r: 1 }, true),
    (0, Kind::StoreWord { r: 1, i: 8, v: 1 }, true),
    (0, Kind::StoreWord { r: 1, i: 0, v: 1 }, true),
    (0, Kind::Persist { r: 1, i: 8 }, true),
    (0, Kind::Persist { r: 1, i: 0 }, true),
    (0, Kind::Downgrade { r: 1 }, true),
    (0, Kind::LoadCur, true),
    (0, Kind::Publish, true),
    // DUR is not raised yet, so that the code published is not retired; after the raise it is
    (0, Kind::Retire, false),
    (0, RAISES_3, true),
    (0, Kind::Retire, true),
];

// After the race CUR is code 10, which names replica 2 at place 2. Caller 0 asks for reads at that code. Each row: the caller, the step, and
// whether the step is allowed. Each refusal has one cause.
const READS: [Row; 20] = [
    (0, Kind::LoadCur, true),
    // caller 0 holds no replica shared
    (0, ASKS_10, false),
    (0, Kind::TryShared { r: 2 }, true),
    // caller 0 holds replica 2 shared, and did not load its place; then it loads another word
    (0, ASKS_10, false),
    (0, WORD_1_OF_2, true),
    (0, ASKS_10, false),
    (0, PLACE_OF_2, true),
    // the operation is no read, since it adds; a read is answered
    (0, ADDS, false),
    (0, ASKS_10, true),
    // the raise before ended the use of the code that was found in CUR, so that CUR has to be loaded again
    (0, ASKS_10, false),
    (0, RAISES_10, true),
    (0, Kind::LoadCur, true),
    (0, ASKS_10, true),
    // caller 0 writes a word into a cell, and that ends the use of the code that was found
    (0, Kind::LoadCur, true),
    (0, Kind::WriteCell { j: 1, i: 0, v: 2 }, true),
    (0, ASKS_10, false),
    // caller 0 has released replica 2
    (0, Kind::LoadCur, true),
    (0, Kind::BackOff { r: 2 }, true),
    (0, ASKS_10, false),
    (0, RAISES_10, true),
];

// Caller 0 has published code 5, has found code 10 in CUR since, holds replica 1 shared, and has loaded its place, which is that of code 5. Each
// row: the caller, the step, and whether the step is allowed.
const READS_AT_THE_CODE_FOUND: [Row; 8] = [
    (0, Kind::TryShared { r: 1 }, true),
    (0, PLACE_OF_1, true),
    (0, Kind::LoadCur, true),
    // a read asks for the code that was found in CUR, and 5 is not that one; without a read the raise is allowed
    (0, ASKS_5, false),
    (0, RAISES_5, true),
    // a raise by the code found answers no entry more, and code 5 may be retired
    (0, RAISES_10, true),
    (0, Kind::Retire, true),
    // code 5 is retired, and is not the code found in CUR
    (0, RAISES_5, false),
];

// The opening root code, 0, names replica 0 at place 0. At that place reads are answered, and no entries. Each row: the caller, the step, and
// whether the step is allowed.
const READ_BEFORE_ANY_UPDATE: [Row; 9] = [
    (1, Kind::BackOff { r: 2 }, true),
    (1, Kind::TryShared { r: 0 }, true),
    (1, PLACE_OF_0, true),
    // caller 1 holds replica 0 shared and has loaded its place, but not CUR
    (1, ASKS_0, false),
    (1, Kind::LoadCur, true),
    // these codes were not found in CUR, and caller 1 has not published them
    (1, RAISES_1, false),
    (1, RAISES_NO_CODE, false),
    (1, ASKS_0, true),
    (1, RAISES_0, true),
];

// Each row: the caller, the step, and whether the step is allowed. Each refusal has one cause. No caller is refused a load of CUR.
const GUARDS: [Row; 10] = [
    // there is no caller 2
    (2, Kind::LoadCur, false),
    (2, Kind::Publish, false),
    (2, RAISES_0, false),
    (2, Kind::Retire, false),
    // caller 0 has published nothing that it could retire
    (0, Kind::Retire, false),
    // caller 1 publishes replica 2 at place 2; the replica of caller 0, at place 1, is not above that
    (1, Kind::Publish, true),
    (0, Kind::LoadCur, true),
    (0, Kind::Publish, false),
    // caller 0 has released its replica, and has none to publish
    (0, Kind::BackOff { r: 1 }, true),
    (0, Kind::Publish, false),
];

// Caller 0 has published, and has another replica ready at a place above. It may not publish that before it has retired the first one. Each row:
// the caller, the step, and whether the step is allowed.
const ONE_WIN: [Row; 9] = [
    (0, Kind::Publish, false),
    // caller 0 has to raise DUR itself, before it may retire; a raise by caller 1 does not count
    (0, Kind::Retire, false),
    (1, Kind::LoadCur, true),
    (1, RAISES_5, true),
    (0, Kind::Retire, false),
    // caller 0 raises DUR, may still not publish, retires its first code, and then publishes the second one
    (0, RAISES_5, true),
    (0, Kind::Publish, false),
    (0, Kind::Retire, true),
    (0, Kind::Publish, true),
];

// Each script: the number of callers, then its parts. `Race(n)`: two callers get ready to publish, and make the first n steps of their race. A root
// code is the place times the number of replicas, plus the replica.
static SCRIPTS: [Script; 7] = [
    // One caller. `Answered` is a ticket and a sum; `Counts` is entries answered, reads answered, the greatest code raised by, the floor, and
    // refusals met.
    (
        1,
        &[
            Part::Rows(&[&ONE_CALLER]),
            Part::Are(&[
                Fact::Root([3, 3], [None, None]),
                Fact::Locks(&[0, 1]),
                Fact::Of(0, Known::Answered(Some((0, 0)))),
                Fact::Of(0, Known::Counts([1, 0, 3, 1, 0])),
            ]),
        ],
    ),
    // The whole race: each caller has the reply to its entry.
    (
        2,
        &[
            Part::Race(12),
            Part::Are(&[
                Fact::Locks(&[0, 0, 1, 0]),
                Fact::Of(0, Known::Answered(Some((0, 5)))),
                Fact::Of(1, Known::Answered(Some((1, 12)))),
                Fact::Of(0, Known::Counts([1, 0, 5, 1, 0])),
                Fact::Of(1, Known::Counts([1, 0, 10, 2, 1])),
            ]),
        ],
    ),
    // Reads after the race. `Read` is its number; then the place, the sum that it was answered, and how many entries were answered before.
    (
        2,
        &[
            Part::Race(12),
            Part::Rows(&[&READS]),
            Part::Are(&[
                Fact::Root([10, 10], [None, None]),
                Fact::Of(0, Known::Counts([1, 2, 10, 2, 0])),
                Fact::Of(0, Known::Read(0, [2, 12, 1])),
                Fact::Of(0, Known::Read(1, [2, 12, 1])),
            ]),
        ],
    ),
    // A read that is refused, after the first 5 steps of the race, in which both callers publish.
    (
        2,
        &[
            Part::Race(5),
            Part::Rows(&[&READS_AT_THE_CODE_FOUND]),
            Part::Are(&[
                Fact::Root([10, 10], [None, SECOND_WIN]),
                Fact::Locks(&[0, 2, 1, 0]),
                Fact::Of(0, Known::Answered(Some((0, 5)))),
                Fact::Of(0, Known::Counts([1, 0, 10, 1, 0])),
            ]),
        ],
    ),
    // A read before any caller publishes.
    (
        2,
        &[
            Part::Race(0),
            Part::Rows(&[&READ_BEFORE_ANY_UPDATE]),
            Part::Are(&[
                Fact::Of(1, Known::Counts([0, 1, 0, 0, 0])),
                Fact::Of(1, Known::Read(0, [0, 0, 0])),
            ]),
        ],
    ),
    // Each guard by itself. At the end CUR is code 10, which caller 1 put in the place of code 0.
    (
        2,
        &[
            Part::Race(0),
            Part::Rows(&[&GUARDS]),
            Part::Are(&[Fact::Root([10, 0], [None, WIN_FROM_0])]),
        ],
    ),
    // Caller 0 publishes twice, at places 1 and 2. `Root` is CUR and DUR, then what each caller put into CUR and has not retired.
    (
        2,
        &[
            Part::Race(3),
            Part::Prepared(0, 3, &AFTER_TWO),
            Part::Rows(&[&ONE_WIN]),
            // the entry of caller 0 at ticket 0 is below place 1, and that of caller 1 at ticket 1 is not
            Part::Are(&[
                Fact::Of(0, Known::Answered(Some((0, 5)))),
                Fact::Of(1, Known::Answered(None)),
                Fact::Root([11, 5], [WIN_FROM_5, None]),
                Fact::Locks(&[0, 1, 1, 1]),
            ]),
        ],
    ),
];

// Code 10, put into CUR in the place of code 0.
const WIN_FROM_0: Option<WonCode> = Some(WonCode {
    code: 10,
    before: 0,
});

// Code 11, put into CUR in the place of code 5.
const WIN_FROM_5: Option<WonCode> = Some(WonCode {
    code: 11,
    before: 5,
});

// Asserts that all steps of the scripts are allowed or refused as their rows say, and that all facts hold.
#[test]
fn publishers_raises_and_reads(rt: HostRuntime) -> Result<(), Fail> {
    holds(&rt, first_wrong(rt.alloc(), &SCRIPTS)?.is_none());
    Ok(())
}

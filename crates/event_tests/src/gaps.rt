//! The kinds on the ring of gaps: each guard failing for one reason, gaps that have a changed line or no ticket of the history refused, and
//! words that stand until another is noted over them.

use crate::board::{Row, holds};
use crate::facts::{Fact, IMAGE_0, Known};
use crate::race::LINKED;
use crate::scripts::{Part, Script, first_wrong};
use cx_core::Kind;
use std::test::Fail;

// A word of the ring has the line behind a gap in its lowest 17 bits, the line in front of it in the next 17, and how often the slot came
// round before above them. This is the word of ticket 0 that lines 2 to 145 are as they were.
const FROM_1_TO_146: u64 = 0x2_0092;

// The word of ticket 1024, which has the slot of ticket 0 again, that lines 2 to 145 are as they were.
const OF_1024: u64 = 0x4_0002_0092;

// No entry is linked, so that the history has no ticket 0, and only a word whose gap has no line may stand in the slot of ticket 0. Each row: the
// caller, the step, which stores `v` as word `i` of slot `s`, and whether the step is allowed.
const NOTHING_LINKED: [Row; 3] = [
    // refused: there is no ticket 0
    (
        0,
        Kind::NoteGap {
            s: 0,
            i: 0,
            v: FROM_1_TO_146,
        },
        false,
    ),
    // refused: line 1, of no ticket
    (0, Kind::NoteGap { s: 0, i: 0, v: 2 }, false),
    // allowed: no line, as 1 follows 0
    (0, Kind::NoteGap { s: 0, i: 0, v: 1 }, true),
];

// A gap is allowed where its ticket has changed none of its lines. Ticket 0 changes lines 0, 1 and 146, and ticket 1 lines 0, 19 and 146. Each row:
// the caller, the step, which stores `v` as word `i` of slot `s`, and whether the step is allowed. Each refusal has one cause.
const NOTES: [Row; 30] = [
    // refused: there is no caller 2
    (
        2,
        Kind::NoteGap {
            s: 0,
            i: 0,
            v: FROM_1_TO_146,
        },
        false,
    ),
    // refused: two callers have slots 0 to 1023
    (
        0,
        Kind::NoteGap {
            s: 1024,
            i: 0,
            v: 1,
        },
        false,
    ),
    // refused: a slot has words 0 to 15
    (
        0,
        Kind::NoteGap {
            s: 0,
            i: 16,
            v: FROM_1_TO_146,
        },
        false,
    ),
    // Allowed: lines 2 to 145 of ticket 0, which it leaves as they are.
    (
        0,
        Kind::NoteGap {
            s: 0,
            i: 0,
            v: FROM_1_TO_146,
        },
        true,
    ),
    // The last word of the last slot. No ticket of the history has that slot, so a word with a line is refused.
    (
        0,
        Kind::NoteGap {
            s: 1023,
            i: 15,
            v: 1,
        },
        true,
    ),
    (
        0,
        Kind::NoteGap {
            s: 1023,
            i: 15,
            v: 2,
        },
        false,
    ),
    // Refused: gaps of ticket 0 with a line that it changes. First line 1 alone, then lines 1 to 145.
    (0, Kind::NoteGap { s: 0, i: 1, v: 2 }, false),
    (0, Kind::NoteGap { s: 0, i: 1, v: 146 }, false),
    // refused: lines 2 to 146
    (
        0,
        Kind::NoteGap {
            s: 0,
            i: 1,
            v: 0x2_0093,
        },
        false,
    ),
    // refused: line 146 alone
    (
        0,
        Kind::NoteGap {
            s: 0,
            i: 1,
            v: 0x122_0093,
        },
        false,
    ),
    // refused: lines 146 to 209
    (
        0,
        Kind::NoteGap {
            s: 0,
            i: 1,
            v: 0x122_00d2,
        },
        false,
    ),
    // Allowed: lines 147 to 209, up to the end of a region, and then lines far beyond it.
    (
        0,
        Kind::NoteGap {
            s: 0,
            i: 1,
            v: 0x124_00d2,
        },
        true,
    ),
    (
        0,
        Kind::NoteGap {
            s: 0,
            i: 1,
            v: 0x125_ffff,
        },
        true,
    ),
    // Allowed: gaps without a line. This one is from line 146 to itself, the next from line 146 to line 147, and the last from line 146 back to
    // line 1.
    (
        0,
        Kind::NoteGap {
            s: 0,
            i: 2,
            v: 0x124_0092,
        },
        true,
    ),
    (
        0,
        Kind::NoteGap {
            s: 0,
            i: 2,
            v: 0x124_0093,
        },
        true,
    ),
    // allowed: no line, as 1 is below 146
    (
        0,
        Kind::NoteGap {
            s: 0,
            i: 2,
            v: 0x124_0001,
        },
        true,
    ),
    // Ticket 1, which another caller linked: lines 1 to 18 are allowed, lines 1 to 19 are refused, since it changes line 19.
    (0, Kind::NoteGap { s: 1, i: 0, v: 19 }, true),
    (0, Kind::NoteGap { s: 1, i: 0, v: 20 }, false),
    // refused: lines 2 to 145, of which it changes line 19
    (
        0,
        Kind::NoteGap {
            s: 1,
            i: 0,
            v: FROM_1_TO_146,
        },
        false,
    ),
    // allowed: lines 20 to 145
    (
        0,
        Kind::NoteGap {
            s: 1,
            i: 1,
            v: 0x26_0092,
        },
        true,
    ),
    // refused: lines 19 to 145, of which it changes line 19
    (
        0,
        Kind::NoteGap {
            s: 1,
            i: 1,
            v: 0x24_0092,
        },
        false,
    ),
    // refused: lines 20 to 146, of which it changes line 146
    (
        0,
        Kind::NoteGap {
            s: 1,
            i: 1,
            v: 0x26_0093,
        },
        false,
    ),
    // Ticket 2 is not linked, so that each gap of it with a line is refused: lines 1 to 18, and line 6.
    (0, Kind::NoteGap { s: 2, i: 0, v: 19 }, false),
    (
        0,
        Kind::NoteGap {
            s: 2,
            i: 0,
            v: 0xa_0007,
        },
        false,
    ),
    // allowed: no line, as 6 follows 5
    (
        0,
        Kind::NoteGap {
            s: 2,
            i: 0,
            v: 0xa_0006,
        },
        true,
    ),
    // The slot of ticket 0 for later tickets, which are not linked. Refused: lines 2 to 145 of ticket 1024.
    (
        0,
        Kind::NoteGap {
            s: 0,
            i: 3,
            v: OF_1024,
        },
        false,
    ),
    // allowed: no line, of ticket 1024
    (
        0,
        Kind::NoteGap {
            s: 0,
            i: 3,
            v: 0x4_0000_0001,
        },
        true,
    ),
    // refused: line 1 of the last ticket of this slot that a word can name
    (
        0,
        Kind::NoteGap {
            s: 0,
            i: 3,
            v: 0xffff_fffc_0000_0002,
        },
        false,
    ),
    // allowed: no line, since both ends are the same
    (
        0,
        Kind::NoteGap {
            s: 0,
            i: 3,
            v: u64::MAX,
        },
        true,
    ),
    // Caller 1 stores the word that stands there already.
    (
        1,
        Kind::NoteGap {
            s: 0,
            i: 0,
            v: FROM_1_TO_146,
        },
        true,
    ),
];

// Loads of words of the ring: the caller, the slot `s` and the word `i` of it, and whether the load is allowed.
const LOADS: [Row; 6] = [
    // refused: there is no caller 2, no slot 1024, and no word 16 of a slot
    (2, Kind::LoadGap { s: 0, i: 0 }, false),
    (1, Kind::LoadGap { s: 1024, i: 0 }, false),
    (1, Kind::LoadGap { s: 0, i: 16 }, false),
    // allowed: a word that was noted, the last word of the ring, and one that was never noted
    (1, Kind::LoadGap { s: 0, i: 0 }, true),
    (1, Kind::LoadGap { s: 1023, i: 15 }, true),
    (1, Kind::LoadGap { s: 500, i: 7 }, true),
];

// One script of two callers: the rows above from the opening state on, and what holds after each table. A fact `GapWord` names a word of the ring
// by its index, which is 16 s + i for word i of slot s.
static SCRIPTS: [Script; 1] = [(
    2,
    &[
        Part::Rows(&[&NOTHING_LINKED]),
        Part::Are(&[
            // the one word that was allowed, the one after it, and one step of caller 0
            Fact::GapWord(0, 1),
            Fact::GapWord(1, 0),
            Fact::Of(0, Known::Steps(1)),
        ]),
        Part::Rows(&[&LINKED, &NOTES]),
        Part::Are(&[
            // words 0 to 4 of the slot of ticket 0
            Fact::GapWord(0, FROM_1_TO_146),
            Fact::GapWord(1, 0x125_ffff),
            Fact::GapWord(2, 0x124_0001),
            Fact::GapWord(3, u64::MAX),
            Fact::GapWord(4, 0),
            // words 0 and 1 of slot 1, word 0 of slot 2, and the last word of the ring
            Fact::GapWord(16, 19),
            Fact::GapWord(17, 0x26_0092),
            Fact::GapWord(32, 0xa_0006),
            Fact::GapWord(16_383, 1),
            // beside the ring, the last word of the write sets and replica 0 are as before
            Fact::SetWord(16_415, 0),
            Fact::Replica(0, IMAGE_0, IMAGE_0),
            // the steps that each caller has made so far
            Fact::Of(0, Known::Steps(17)),
            Fact::Of(1, Known::Steps(6)),
        ]),
        Part::Rows(&[&LOADS]),
        Part::Are(&[
            Fact::GapWord(0, FROM_1_TO_146),
            Fact::Of(1, Known::Steps(9)),
        ]),
    ],
)];

// Asserts that all steps of the script are allowed or refused as their rows say, and leave the words of the ring that it names.
#[test]
fn gaps_are_noted_and_loaded(rt: HostRuntime) -> Result<(), Fail> {
    holds(&rt, first_wrong(rt.alloc(), &SCRIPTS)?.is_none());
    Ok(())
}

//! The kinds on the ring: each guard failing for one reason, and what is opened beside callers that state, confirm and release
//! what they need.

use crate::board::{Row, holds};
use crate::facts::{Fact, Known, SeenRow};
use crate::scripts::{Part, Script, first_wrong};
use cx_core::{Kind, Protection, Scan, SeenNeed};
use std::test::Fail;

// What the word NEED of a caller is while it has no protection: 2^64 - 1.
const NEEDS_NONE: u64 = u64::MAX;

// Caller 0 loads CUR and finds code 0, at place 0. Then caller 1 publishes its replica at place 2, so that CUR is code 10. Each row: the caller,
// the step, and whether the step is allowed.
const PUBLISHED: [Row; 2] = [(0, Kind::LoadCur, true), (1, Kind::Publish, true)];

// Each row: the caller, the step, and whether the step is allowed. Each refusal has one cause. In `Protect`, `p` is the least ticket that the
// caller needs; in `Scan`, `d` is the caller whose NEED is loaded.
const GUARDS: [Row; 35] = [
    // no such caller
    (2, Kind::Protect { p: 0 }, false),
    (2, Kind::Confirm, false),
    (2, Kind::Unprotect, false),
    (2, Kind::CloseLow { target: 0 }, false),
    (2, Kind::Scan { d: 0 }, false),
    (2, Kind::OpenFree, false),
    // caller 0 has no protection
    (0, Kind::Confirm, false),
    (0, Kind::Unprotect, false),
    // `p` is at most 2^40, the number of tickets
    (0, Kind::Protect { p: (1 << 40) + 1 }, false),
    (0, Kind::Protect { p: 1 << 40 }, true),
    // a second protection while one stands, a second confirmation and a second release are refused
    (0, Kind::Protect { p: 0 }, false),
    (0, Kind::Confirm, true),
    (0, Kind::Confirm, false),
    (0, Kind::Protect { p: 0 }, false),
    (0, Kind::Unprotect, true),
    (0, Kind::Unprotect, false),
    // a protection that is not confirmed may be released; then there is none to confirm
    (0, Kind::Protect { p: 0 }, true),
    (0, Kind::Unprotect, true),
    (0, Kind::Confirm, false),
    // caller 1 has not begun a scan: that is what `CloseLow` does
    (1, Kind::Scan { d: 0 }, false),
    (1, Kind::OpenFree, false),
    // LOW may be raised only to a place at most that of the code last found in CUR, which is 0 for caller 0 and 2 for caller 1
    (0, Kind::CloseLow { target: 1 }, false),
    (1, Kind::CloseLow { target: 3 }, false),
    (1, Kind::CloseLow { target: 1 }, true),
    // a second `CloseLow` is refused while the scan is not at its end
    (1, Kind::CloseLow { target: 2 }, false),
    // the scan loads NEED of caller 0 first and of caller 1 next, and FREE is raised only after both
    (1, Kind::Scan { d: 1 }, false),
    (1, Kind::OpenFree, false),
    (1, Kind::Scan { d: 0 }, true),
    (1, Kind::Scan { d: 0 }, false),
    (1, Kind::CloseLow { target: 2 }, false),
    (1, Kind::OpenFree, false),
    (1, Kind::Scan { d: 1 }, true),
    // there is no caller 2 to scan; after that the scan ends with FREE raised, once
    (1, Kind::Scan { d: 2 }, false),
    (1, Kind::OpenFree, true),
    (1, Kind::OpenFree, false),
];

// Caller 1 raises LOW to 2, scans both callers, and raises FREE, while caller 0 needs the tickets from 1 on. So FREE becomes 1 alone.
// Each row: the caller, the step, and whether the step is allowed; then what it leaves: LOW, FREE, NEED of caller 0 and NEED of caller 1.
const BESIDE_A_NEED: [SeenRow; 10] = [
    (
        (0, Kind::Protect { p: 1 }, true),
        Fact::Ring([0, 0, 1, NEEDS_NONE]),
    ),
    ((0, Kind::Confirm, true), Fact::Ring([0, 0, 1, NEEDS_NONE])),
    ((1, Kind::LoadCur, true), Fact::Ring([0, 0, 1, NEEDS_NONE])),
    // caller 1 raises LOW to 2, and loads NEED of both callers
    (
        (1, Kind::CloseLow { target: 2 }, true),
        Fact::Ring([2, 0, 1, NEEDS_NONE]),
    ),
    (
        (1, Kind::Scan { d: 0 }, true),
        Fact::Ring([2, 0, 1, NEEDS_NONE]),
    ),
    (
        (1, Kind::Scan { d: 1 }, true),
        Fact::Ring([2, 0, 1, NEEDS_NONE]),
    ),
    ((1, Kind::OpenFree, true), Fact::Ring([2, 1, 1, NEEDS_NONE])),
    // FREE is 1 now: caller 0 may overwrite its entry, which has ticket 0, and caller 1 may not overwrite its own, which has ticket 1
    ((1, OVERWRITE, false), Fact::Ring([2, 1, 1, NEEDS_NONE])),
    ((0, Kind::LoadFree, true), Fact::Ring([2, 1, 1, NEEDS_NONE])),
    ((0, OVERWRITE, true), Fact::Ring([2, 1, 1, NEEDS_NONE])),
];

// A caller writes the number of its second entry over that of its first one, into its cell 0. The ticket of the first one has to be below FREE.
const OVERWRITE: Kind = Kind::WriteCell { j: 0, i: 0, v: 2 };

// Caller 1 loads NEED of caller 0 just before caller 0 releases its protection, so that FREE stays 1. A second scan raises it to 2. Each row: the
// caller, the step, and whether the step is allowed; then what it leaves: LOW, FREE, NEED of caller 0 and NEED of caller 1.
const GIVEN_UP: [SeenRow; 10] = [
    (
        (1, Kind::CloseLow { target: 2 }, true),
        Fact::Ring([2, 1, 1, NEEDS_NONE]),
    ),
    (
        (1, Kind::Scan { d: 0 }, true),
        Fact::Ring([2, 1, 1, NEEDS_NONE]),
    ),
    // caller 0 releases its protection, after the first scan has seen it
    (
        (0, Kind::Unprotect, true),
        Fact::Ring([2, 1, NEEDS_NONE, NEEDS_NONE]),
    ),
    (
        (1, Kind::Scan { d: 1 }, true),
        Fact::Ring([2, 1, NEEDS_NONE, NEEDS_NONE]),
    ),
    // FREE stays 1, and a second scan begins
    (
        (1, Kind::OpenFree, true),
        Fact::Ring([2, 1, NEEDS_NONE, NEEDS_NONE]),
    ),
    (
        (1, Kind::CloseLow { target: 2 }, true),
        Fact::Ring([2, 1, NEEDS_NONE, NEEDS_NONE]),
    ),
    // the second scan finds no protection
    (
        (1, Kind::Scan { d: 0 }, true),
        Fact::Ring([2, 1, NEEDS_NONE, NEEDS_NONE]),
    ),
    (
        (1, Kind::Scan { d: 1 }, true),
        Fact::Ring([2, 1, NEEDS_NONE, NEEDS_NONE]),
    ),
    // FREE becomes 2, and caller 1 may overwrite its entry, which has ticket 1
    (
        (1, Kind::OpenFree, true),
        Fact::Ring([2, 2, NEEDS_NONE, NEEDS_NONE]),
    ),
    (
        (1, OVERWRITE, true),
        Fact::Ring([2, 2, NEEDS_NONE, NEEDS_NONE]),
    ),
];

// Caller 0 protects the tickets from 1 on only after LOW is 2 and caller 1 has loaded its NEED. So the protection is not confirmed. A refusal is
// counted, since this shows that the code that caller 0 found in CUR is outdated.
// Each row: the caller, the step, and whether the step is allowed; then what it leaves: LOW, FREE, NEED of caller 0 and NEED of caller 1.
const TOO_LATE: [SeenRow; 4] = [
    (
        (1, Kind::CloseLow { target: 2 }, true),
        Fact::Ring([2, 0, NEEDS_NONE, NEEDS_NONE]),
    ),
    (
        (1, Kind::Scan { d: 0 }, true),
        Fact::Ring([2, 0, NEEDS_NONE, NEEDS_NONE]),
    ),
    (
        (0, Kind::Protect { p: 1 }, true),
        Fact::Ring([2, 0, 1, NEEDS_NONE]),
    ),
    ((0, Kind::Confirm, true), Fact::Ring([2, 0, 1, NEEDS_NONE])),
];

// What follows `TOO_LATE`. The protection is tried again, and no second refusal is counted: the code found first is known to be outdated, and the
// newer one is at a place above the protection. At last a protection from LOW on is confirmed.
// Each row: the caller, the step, and whether the step is allowed; then what it leaves: LOW, FREE, NEED of caller 0 and NEED of caller 1.
const IN_TIME: [SeenRow; 8] = [
    ((0, Kind::Confirm, true), Fact::Ring([2, 0, 1, NEEDS_NONE])),
    // caller 1 ends its scan, which did not see the protection, so that FREE becomes 2
    (
        (1, Kind::Scan { d: 1 }, true),
        Fact::Ring([2, 0, 1, NEEDS_NONE]),
    ),
    ((1, Kind::OpenFree, true), Fact::Ring([2, 2, 1, NEEDS_NONE])),
    // caller 0 finds code 10, at place 2, and its protection from 1 on is still not confirmed
    ((0, Kind::LoadCur, true), Fact::Ring([2, 2, 1, NEEDS_NONE])),
    ((0, Kind::Confirm, true), Fact::Ring([2, 2, 1, NEEDS_NONE])),
    // a protection from 2 on, which is LOW, is confirmed
    (
        (0, Kind::Unprotect, true),
        Fact::Ring([2, 2, NEEDS_NONE, NEEDS_NONE]),
    ),
    (
        (0, Kind::Protect { p: 2 }, true),
        Fact::Ring([2, 2, 2, NEEDS_NONE]),
    ),
    ((0, Kind::Confirm, true), Fact::Ring([2, 2, 2, NEEDS_NONE])),
];

// Both callers raise LOW, scan and raise FREE at once. What one has raised further, the other does not lower. Each row: the caller, the step, and
// whether the step is allowed; then what it leaves: LOW, FREE, NEED of caller 0 and NEED of caller 1.
const TWO_SCANS: [SeenRow; 9] = [
    (
        (0, Kind::LoadCur, true),
        Fact::Ring([0, 0, NEEDS_NONE, NEEDS_NONE]),
    ),
    (
        (1, Kind::CloseLow { target: 2 }, true),
        Fact::Ring([2, 0, NEEDS_NONE, NEEDS_NONE]),
    ),
    // caller 0 raises LOW to 1 alone, where it is 2 already, and it stays 2
    (
        (0, Kind::CloseLow { target: 1 }, true),
        Fact::Ring([2, 0, NEEDS_NONE, NEEDS_NONE]),
    ),
    // each of the callers loads NEED of caller 0
    (
        (0, Kind::Scan { d: 0 }, true),
        Fact::Ring([2, 0, NEEDS_NONE, NEEDS_NONE]),
    ),
    (
        (1, Kind::Scan { d: 0 }, true),
        Fact::Ring([2, 0, NEEDS_NONE, NEEDS_NONE]),
    ),
    // caller 1 ends its scan and raises FREE to 2
    (
        (1, Kind::Scan { d: 1 }, true),
        Fact::Ring([2, 0, NEEDS_NONE, NEEDS_NONE]),
    ),
    (
        (1, Kind::OpenFree, true),
        Fact::Ring([2, 2, NEEDS_NONE, NEEDS_NONE]),
    ),
    // caller 0 ends its scan, which would raise FREE to 1 alone, and FREE stays 2
    (
        (0, Kind::Scan { d: 1 }, true),
        Fact::Ring([2, 2, NEEDS_NONE, NEEDS_NONE]),
    ),
    (
        (0, Kind::OpenFree, true),
        Fact::Ring([2, 2, NEEDS_NONE, NEEDS_NONE]),
    ),
];

// Protections that are not confirmed are scanned too, and those above LOW. The scan of caller 1 keeps the least of the two, which is its own: 3.
// Each row: the caller, the step, and whether the step is allowed; then what it leaves: LOW, FREE, NEED of caller 0 and NEED of caller 1.
const TWO_NEEDS: [SeenRow; 5] = [
    (
        (0, Kind::Protect { p: 7 }, true),
        Fact::Ring([2, 2, 7, NEEDS_NONE]),
    ),
    ((1, Kind::Protect { p: 3 }, true), Fact::Ring([2, 2, 7, 3])),
    (
        (1, Kind::CloseLow { target: 2 }, true),
        Fact::Ring([2, 2, 7, 3]),
    ),
    ((1, Kind::Scan { d: 0 }, true), Fact::Ring([2, 2, 7, 3])),
    ((1, Kind::Scan { d: 1 }, true), Fact::Ring([2, 2, 7, 3])),
];

// Each script: the number of callers, then its parts. `Race(0)`: both callers link an entry, and each makes a replica ready to publish. A fact
// `Scans` says of a caller: its protection, its running scan, what its last whole scan found; then the greatest LOW and FREE that it found, the
// refusals counted, the scans ended, and 1 where the code that it found in CUR is still of use.
static SCRIPTS: [Script; 4] = [
    // Each guard by itself. At the end LOW and FREE are 1, and no caller has a protection.
    (
        2,
        &[
            Part::Race(0),
            Part::Rows(&[&PUBLISHED, &GUARDS]),
            Part::Are(&[Fact::Ring([1, 1, NEEDS_NONE, NEEDS_NONE])]),
        ],
    ),
    // FREE while a protection stands, and after it is released.
    (
        2,
        &[
            Part::Race(0),
            Part::Rows(&[&PUBLISHED]),
            Part::Are(&[
                // before the scan: caller 0 has found a code in CUR, and the code that caller 1 found is of no more use since it published
                Fact::Of(
                    0,
                    Known::Scans(Protection::Unprotected, None, None, [0, 0, 0, 0, 1]),
                ),
                Fact::Of(
                    1,
                    Known::Scans(Protection::Unprotected, None, None, [0, 0, 0, 0, 0]),
                ),
            ]),
            Part::Seen(&BESIDE_A_NEED),
            Part::Are(&[
                // caller 0 has a confirmed protection, and caller 1 has ended a scan that found it
                Fact::Of(
                    0,
                    Known::Scans(Protection::Confirmed(1), None, None, [0, 1, 0, 0, 0]),
                ),
                Fact::Of(
                    1,
                    Known::Scans(
                        Protection::Unprotected,
                        None,
                        Some(FIRST_NEED),
                        [0, 1, 0, 1, 0],
                    ),
                ),
            ]),
            Part::Seen(&GIVEN_UP),
            Part::Are(&[
                // caller 1 has ended three scans: one in `BESIDE_A_NEED`, and two in `GIVEN_UP`
                Fact::Of(
                    0,
                    Known::Scans(Protection::Unprotected, None, None, [0, 1, 0, 0, 0]),
                ),
                Fact::Of(
                    1,
                    Known::Scans(
                        Protection::Unprotected,
                        None,
                        Some(NO_NEED),
                        [0, 2, 0, 3, 0],
                    ),
                ),
            ]),
        ],
    ),
    // A protection that comes too late, and one that comes in time.
    (
        2,
        &[
            Part::Race(0),
            Part::Rows(&[&PUBLISHED]),
            Part::Seen(&TOO_LATE),
            Part::Are(&[
                // one refusal is counted, and the scan of caller 1 is halfway
                Fact::Of(
                    0,
                    Known::Scans(Protection::Stated(1), None, None, [2, 0, 1, 0, 0]),
                ),
                Fact::Of(
                    1,
                    Known::Scans(
                        Protection::Unprotected,
                        Some(HALF_SCANNED),
                        None,
                        [0, 0, 0, 0, 0],
                    ),
                ),
            ]),
            Part::Seen(&IN_TIME),
            // the protection is confirmed, no further refusal is counted, and caller 1 has ended its scan
            Part::Are(&[
                Fact::Of(
                    0,
                    Known::Scans(Protection::Confirmed(2), None, None, [2, 0, 1, 0, 1]),
                ),
                Fact::Of(
                    1,
                    Known::Scans(
                        Protection::Unprotected,
                        None,
                        Some(NO_NEED),
                        [0, 2, 0, 1, 0],
                    ),
                ),
            ]),
        ],
    ),
    // Two scans at once, and two protections.
    (
        2,
        &[
            Part::Race(0),
            Part::Rows(&[&PUBLISHED]),
            Part::Seen(&TWO_SCANS),
            Part::Are(&[
                // each caller has ended one scan, and found FREE 2
                Fact::Of(
                    0,
                    Known::Scans(
                        Protection::Unprotected,
                        None,
                        Some(NO_NEED),
                        [0, 2, 0, 1, 0],
                    ),
                ),
                Fact::Of(
                    1,
                    Known::Scans(
                        Protection::Unprotected,
                        None,
                        Some(NO_NEED),
                        [0, 2, 0, 1, 0],
                    ),
                ),
            ]),
            Part::Seen(&TWO_NEEDS),
            Part::Are(&[
                // the scan of caller 1 has seen both protections, and is not ended
                Fact::Of(
                    0,
                    Known::Scans(Protection::Stated(7), None, Some(NO_NEED), [0, 2, 0, 1, 0]),
                ),
                Fact::Of(
                    1,
                    Known::Scans(
                        Protection::Stated(3),
                        Some(SCANNED),
                        Some(NO_NEED),
                        [0, 2, 0, 1, 0],
                    ),
                ),
            ]),
        ],
    ),
];

// What a whole scan found: the least NEED is that of caller 0, the tickets from 1 on.
const FIRST_NEED: SeenNeed = SeenNeed { need: 1, caller: 0 };

// What a scan found: the least NEED is that of no protection.
const NO_NEED: SeenNeed = SeenNeed {
    need: NEEDS_NONE,
    caller: 0,
};

// The scan of caller 1, which raised LOW to `target`, after it loaded NEED of caller 0, which is that of no protection. `bound` is what FREE may
// become, `next` the caller to load next, and `least` the least NEED so far.
const HALF_SCANNED: Scan = Scan {
    target: 2,
    bound: 2,
    next: 1,
    least: Some(NO_NEED),
};

// The scan of caller 1 in `TWO_NEEDS` after it loaded both NEEDs: `least` is 3, its own.
const SCANNED: Scan = Scan {
    target: 2,
    bound: 2,
    next: 2,
    least: Some(SeenNeed { need: 3, caller: 1 }),
};

// Asserts that all steps of the scripts are allowed or refused as their rows say, and that each fact holds after its row.
#[test]
fn guards_needs_and_scans(rt: HostRuntime) -> Result<(), Fail> {
    holds(&rt, first_wrong(rt.alloc(), &SCRIPTS)?.is_none());
    Ok(())
}

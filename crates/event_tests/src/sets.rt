//! The steps on write sets: each guard failing for one reason, sets that are no write set of their entry refused, and a cell that is overwritten
//! while another caller reads.

use crate::board::{Row, holds};
use crate::facts::{Fact, Known, LAST_ADDRESS, SUM_ADDRESS, SeenRow};
use crate::race::LINKED;
use crate::scripts::{Part, Script, first_wrong};
use cx_core::{Kind, SeenOffer};
use std::test::Fail;

// A cell that has no linked entry has no write set. Each row: the caller, the step, and whether the step is allowed.
const NOTHING_LINKED: [Row; 2] = [
    (0, Kind::WriteSet { j: 0, i: 0, v: 0 }, false),
    (0, Kind::Offer { j: 0 }, false),
];

// The write set of caller 0's first entry: the number of its pairs, then the address and the value of each. The pairs are the sum, the number and
// the reply of caller 0, and the place. Each row: the caller, the step, which stores `v` as word `i` of the write set of the caller's cell `j`, and
// whether it is allowed.
const FIRST_SET: [Row; 9] = [
    // four pairs
    (0, Kind::WriteSet { j: 0, i: 0, v: 4 }, true),
    // address SUM_ADDRESS has 5, address 8 has 1, address 9 has 5, and address 0 has 1
    (
        0,
        Kind::WriteSet {
            j: 0,
            i: 1,
            v: SUM_ADDRESS,
        },
        true,
    ),
    (0, Kind::WriteSet { j: 0, i: 2, v: 5 }, true),
    (0, Kind::WriteSet { j: 0, i: 3, v: 8 }, true),
    (0, Kind::WriteSet { j: 0, i: 4, v: 1 }, true),
    (0, Kind::WriteSet { j: 0, i: 5, v: 9 }, true),
    (0, Kind::WriteSet { j: 0, i: 6, v: 5 }, true),
    (0, Kind::WriteSet { j: 0, i: 7, v: 0 }, true),
    (0, Kind::WriteSet { j: 0, i: 8, v: 1 }, true),
];

// Writes and offers of write sets. Each row: the caller, the step, and whether the step is allowed. `WriteSet` stores `v` as word `i` of the write
// set of the caller's cell `j`; `Offer` offers that set. Each refusal has one cause.
const WRITES: [Row; 24] = [
    // there is no caller 2, no cell 16 of a caller, and no word 513 of a write set
    (2, Kind::WriteSet { j: 0, i: 0, v: 0 }, false),
    (0, Kind::WriteSet { j: 16, i: 0, v: 0 }, false),
    (0, Kind::WriteSet { j: 0, i: 513, v: 0 }, false),
    // cell 1 has no linked entry; then the last word of a write set is written
    (0, Kind::WriteSet { j: 1, i: 0, v: 0 }, false),
    (0, Kind::Offer { j: 1 }, false),
    (
        0,
        Kind::WriteSet {
            j: 0,
            i: 512,
            v: u64::MAX,
        },
        true,
    ),
    // there is no caller 2, and no cell 16 of a caller
    (2, Kind::Offer { j: 0 }, false),
    (0, Kind::Offer { j: 16 }, false),
    // refused: the set of caller 1, which has no pairs, and then the set of caller 0 with three pairs, which lacks that of the place
    (1, Kind::Offer { j: 0 }, false),
    (0, Kind::WriteSet { j: 0, i: 0, v: 3 }, true),
    (0, Kind::Offer { j: 0 }, false),
    // a set has room for 256 pairs, and not for 257
    (0, Kind::WriteSet { j: 0, i: 0, v: 257 }, true),
    (0, Kind::Offer { j: 0 }, false),
    (0, Kind::WriteSet { j: 0, i: 0, v: 4 }, true),
    // refused: the pair of the sum has the value 6, where the entry makes it 5
    (0, Kind::WriteSet { j: 0, i: 2, v: 6 }, true),
    (0, Kind::Offer { j: 0 }, false),
    (0, Kind::WriteSet { j: 0, i: 2, v: 5 }, true),
    // refused: the pair of the sum has an address behind the region; then the set is right, and is offered
    (
        0,
        Kind::WriteSet {
            j: 0,
            i: 1,
            v: LAST_ADDRESS + 1,
        },
        true,
    ),
    (0, Kind::Offer { j: 0 }, false),
    (
        0,
        Kind::WriteSet {
            j: 0,
            i: 1,
            v: SUM_ADDRESS,
        },
        true,
    ),
    (0, Kind::Offer { j: 0 }, true),
    // a set that is offered is neither offered nor written again
    (0, Kind::Offer { j: 0 }, false),
    (0, Kind::WriteSet { j: 0, i: 0, v: 4 }, false),
    (0, Kind::WriteSet { j: 0, i: 512, v: 0 }, false),
];

// Loads of offer words and of words of write sets. Each row: the caller, the step, and whether the step is allowed. `k` is a cell among those of
// all callers, `t` the ticket of its entry, and `i` a word of its write set. Each refusal has one cause.
const READS: [Row; 36] = [
    // caller 1 has looked at slot 1 last, which does not name cell 0
    (1, Kind::LoadOffer { k: 0, t: 0 }, false),
    (1, Kind::Look { s: 0 }, true),
    // caller 1 has no confirmed protection
    (1, Kind::LoadOffer { k: 0, t: 0 }, false),
    (1, Kind::Protect { p: 0 }, true),
    (1, Kind::LoadOffer { k: 0, t: 0 }, false),
    (1, Kind::Confirm, true),
    // caller 1 has not loaded the offer word of cell 0
    (1, Kind::ReadSet { k: 0, t: 0, i: 0 }, false),
    // refused: another cell, other tickets, and caller 2, which there is not; then the offer word is loaded
    (1, Kind::LoadOffer { k: 1, t: 0 }, false),
    (1, Kind::LoadOffer { k: 0, t: 1 }, false),
    (1, Kind::LoadOffer { k: 0, t: 32 }, false),
    (2, Kind::LoadOffer { k: 0, t: 0 }, false),
    (1, Kind::LoadOffer { k: 0, t: 0 }, true),
    // the first and the last word of the set are read; refused: a word behind the last, another cell, another ticket, and caller 2, which there is
    // not
    (1, Kind::ReadSet { k: 0, t: 0, i: 0 }, true),
    (1, Kind::ReadSet { k: 0, t: 0, i: 512 }, true),
    (1, Kind::ReadSet { k: 0, t: 0, i: 513 }, false),
    (1, Kind::ReadSet { k: 1, t: 0, i: 0 }, false),
    (1, Kind::ReadSet { k: 0, t: 1, i: 0 }, false),
    (2, Kind::ReadSet { k: 0, t: 0, i: 0 }, false),
    // slot 1, looked at last, names cell 16 and not cell 0
    (1, Kind::Look { s: 1 }, true),
    (1, Kind::ReadSet { k: 0, t: 0, i: 0 }, false),
    // the own entry of caller 1, in cell 16 at ticket 1, is not offered
    (1, Kind::LoadOffer { k: 16, t: 1 }, true),
    (1, Kind::ReadSet { k: 16, t: 1, i: 0 }, false),
    // the offer word that caller 1 loaded last is that of cell 16; then it loads that of cell 0
    (1, Kind::Look { s: 0 }, true),
    (1, Kind::ReadSet { k: 0, t: 0, i: 0 }, false),
    (1, Kind::LoadOffer { k: 0, t: 0 }, true),
    (1, Kind::ReadSet { k: 0, t: 0, i: 0 }, true),
    // refused: loads without a protection, under one that is not confirmed, and under one from ticket 1 on
    (1, Kind::Unprotect, true),
    (1, Kind::LoadOffer { k: 0, t: 0 }, false),
    (1, Kind::ReadSet { k: 0, t: 0, i: 0 }, false),
    (1, Kind::Protect { p: 0 }, true),
    (1, Kind::ReadSet { k: 0, t: 0, i: 0 }, false),
    (1, Kind::Unprotect, true),
    (1, Kind::Protect { p: 1 }, true),
    (1, Kind::Confirm, true),
    (1, Kind::LoadOffer { k: 0, t: 0 }, false),
    (1, Kind::ReadSet { k: 0, t: 0, i: 0 }, false),
];

// Caller 0 writes the number of its second entry over that of its first one, in its cell 0.
const OVERWRITE: Kind = Kind::WriteCell { j: 0, i: 0, v: 2 };

// A caller raises LOW to 2, which closes the tickets below 2.
const CLOSE: Kind = Kind::CloseLow { target: 2 };

// Caller 0 raises LOW to 2, loads NEED of both callers, and raises FREE to the least of 2 and what they need. Each row: the caller, the step, and
// whether the step is allowed.
const SCANNED: [Row; 5] = [
    (0, CLOSE, true),
    (0, Kind::Scan { d: 0 }, true),
    (0, Kind::Scan { d: 1 }, true),
    (0, Kind::OpenFree, true),
    (0, Kind::LoadFree, true),
];

// Caller 1 protects the tickets from 0 on and reads the first word of the write set of ticket 0, and caller 0 loads CUR. Each row: the caller, the
// step, and whether the step is allowed.
const READER: [Row; 6] = [
    (1, Kind::Look { s: 0 }, true),
    (1, Kind::Protect { p: 0 }, true),
    (1, Kind::Confirm, true),
    (1, Kind::LoadOffer { k: 0, t: 0 }, true),
    (1, Kind::ReadSet { k: 0, t: 0, i: 0 }, true),
    (0, Kind::LoadCur, true),
];

// Caller 0 may not overwrite its cell while the protection of caller 1 stands, nor before it scans again, and caller 1 reads on. Each row: the
// caller, the step, and whether the step is allowed; then FREE after it.
const KEPT: [SeenRow; 4] = [
    ((0, OVERWRITE, false), Fact::Free(0)),
    ((1, Kind::ReadSet { k: 0, t: 0, i: 8 }, true), Fact::Free(0)),
    ((1, Kind::Unprotect, true), Fact::Free(0)),
    ((0, OVERWRITE, false), Fact::Free(0)),
];

// The cell is overwritten. Its offer word stays as it was, and offers nothing more. Each row: the caller, the step, and whether the step is
// allowed; then what it leaves: the offer word of cell 0, or the offer word that caller 1 loaded last, with its cell and ticket.
const GIVEN_AGAIN: [SeenRow; 17] = [
    ((0, OVERWRITE, true), Fact::OfferWord(0, 1)),
    // the write set of an entry that is not linked is neither written nor offered
    (
        (0, Kind::WriteSet { j: 0, i: 0, v: 4 }, false),
        Fact::OfferWord(0, 1),
    ),
    ((0, Kind::Offer { j: 0 }, false), Fact::OfferWord(0, 1)),
    // a protection below LOW, which is 2, is not confirmed, so that caller 1 may not load the offer word nor the set
    ((1, Kind::Protect { p: 0 }, true), Fact::OfferWord(0, 1)),
    ((1, Kind::Confirm, true), Fact::OfferWord(0, 1)),
    (
        (1, Kind::LoadOffer { k: 0, t: 0 }, false),
        Fact::Of(
            1,
            Known::Offer(Some(SeenOffer {
                cell: 0,
                ticket: 0,
                word: 1,
            })),
        ),
    ),
    (
        (1, Kind::ReadSet { k: 0, t: 0, i: 0 }, false),
        Fact::OfferWord(0, 1),
    ),
    ((1, Kind::Unprotect, true), Fact::OfferWord(0, 1)),
    // caller 0 links its second entry, at ticket 2, and caller 1 protects the tickets from 2 on
    (
        (0, Kind::WriteCell { j: 0, i: 1, v: 3 }, true),
        Fact::OfferWord(0, 1),
    ),
    ((0, Kind::Look { s: 2 }, true), Fact::OfferWord(0, 1)),
    ((0, Kind::Link { j: 0 }, true), Fact::OfferWord(0, 1)),
    ((1, Kind::Protect { p: 2 }, true), Fact::OfferWord(0, 1)),
    ((1, Kind::Confirm, true), Fact::OfferWord(0, 1)),
    ((1, Kind::Look { s: 2 }, true), Fact::OfferWord(0, 1)),
    // the offer word in the cell is still that of ticket 0, which is 1, so that the set may not be read
    (
        (1, Kind::LoadOffer { k: 0, t: 2 }, true),
        Fact::Of(
            1,
            Known::Offer(Some(SeenOffer {
                cell: 0,
                ticket: 2,
                word: 1,
            })),
        ),
    ),
    (
        (1, Kind::ReadSet { k: 0, t: 2, i: 0 }, false),
        Fact::OfferWord(0, 1),
    ),
    // the words of the set are still those of ticket 0, so that it may not be offered for ticket 2
    ((0, Kind::Offer { j: 0 }, false), Fact::OfferWord(0, 1)),
];

// Caller 0, whose second entry adds 3 at ticket 2, writes the four values of the set anew and offers it, and caller 1 reads it. Each row: the
// caller, the step, and whether the step is allowed; then what it leaves: a word of the set of cell 0, its offer word, or the offer word that
// caller 1 loaded last.
const OFFERED_AGAIN: [SeenRow; 9] = [
    // the new values of the sum, the number, the reply and the place
    (
        (0, Kind::WriteSet { j: 0, i: 2, v: 15 }, true),
        Fact::SetWord(2, 15),
    ),
    (
        (0, Kind::WriteSet { j: 0, i: 4, v: 2 }, true),
        Fact::SetWord(4, 2),
    ),
    (
        (0, Kind::WriteSet { j: 0, i: 6, v: 15 }, true),
        Fact::SetWord(6, 15),
    ),
    (
        (0, Kind::WriteSet { j: 0, i: 8, v: 3 }, true),
        Fact::SetWord(8, 3),
    ),
    ((0, Kind::Offer { j: 0 }, true), Fact::OfferWord(0, 3)),
    // caller 1 has loaded the offer word before the offer, so that it may not read the set; then it loads the offer word again
    (
        (1, Kind::ReadSet { k: 0, t: 2, i: 0 }, false),
        Fact::Of(
            1,
            Known::Offer(Some(SeenOffer {
                cell: 0,
                ticket: 2,
                word: 1,
            })),
        ),
    ),
    (
        (1, Kind::LoadOffer { k: 0, t: 2 }, true),
        Fact::Of(
            1,
            Known::Offer(Some(SeenOffer {
                cell: 0,
                ticket: 2,
                word: 3,
            })),
        ),
    ),
    (
        (1, Kind::ReadSet { k: 0, t: 2, i: 8 }, true),
        Fact::OfferWord(0, 3),
    ),
    // a set that is offered is not written again
    (
        (0, Kind::WriteSet { j: 0, i: 8, v: 3 }, false),
        Fact::OfferWord(0, 3),
    ),
];

// Each script: the number of callers, then its parts: the rows above, and what holds after them.
static SCRIPTS: [Script; 2] = [
    // Each guard by itself, from the opening state on. `OfferWord` is a cell and its offer word; `SetWord` is the index of a word and the word.
    (
        2,
        &[
            Part::Rows(&[&NOTHING_LINKED, &LINKED, &FIRST_SET, &WRITES]),
            Part::Are(&[
                Fact::OfferWord(0, 1),
                Fact::OfferWord(16, 0),
                Fact::SetWord(0, 4),
                Fact::SetWord(1, SUM_ADDRESS),
                Fact::SetWord(512, u64::MAX),
                Fact::Of(1, Known::Offer(None)),
            ]),
            // after the reads, the offer word that caller 1 loaded last is that of cell 0
            Part::Rows(&[&READS]),
            Part::Are(&[Fact::Of(
                1,
                Known::Offer(Some(SeenOffer {
                    cell: 0,
                    ticket: 0,
                    word: 1,
                })),
            )]),
        ],
    ),
    // After the race of two publishers, whose entries are both answered: a cell is read, kept, overwritten and offered again.
    (
        2,
        &[
            Part::Race(12),
            Part::Rows(&[
                &FIRST_SET,
                &[(0, Kind::Offer { j: 0 }, true)],
                &READER,
                &SCANNED,
            ]),
            Part::Seen(&KEPT),
            Part::Rows(&[&SCANNED]),
            Part::Are(&[Fact::Free(2)]),
            Part::Seen(&GIVEN_AGAIN),
            Part::Seen(&OFFERED_AGAIN),
        ],
    ),
];

// Asserts that all steps of the scripts are allowed or refused as their rows say, and that all facts hold.
#[test]
fn sets_are_offered_and_read_and_cells_come_round(rt: HostRuntime) -> Result<(), Fail> {
    holds(&rt, first_wrong(rt.alloc(), &SCRIPTS)?.is_none());
    Ok(())
}

//! The reports of lives, worked by hand.

use crate::holds::holds;
use crate::named::name_commands;
use crate::records::{Lived, RowReply, records_of};
use cx_base::Items;
use doc_text::{LifeRecord, Script, read_script, report};
use std::alloc::{AllocError, Global};
use std::test::Fail;

/// A script, the records of its lives, and the report that they have to give. The lives of the script get as many clients as their records have.
#[derive(Clone, Copy)]
struct Worked {
    script: &'static [u8],
    lives: &'static [Lived],
    report: &'static [u8],
}

// A script without a life, whose report is empty.
const NOTHING: Worked = Worked {
    script: b"lines 64\n",
    lives: &[],
    report: b"",
};

// A put of a new key, a put that replaces the document, and a read.
const WRITTEN_AND_READ: Worked = Worked {
    script: b"\
lines 64
life 1 power 0
0 put a 1
0 put a 2
0 get a
",
    lives: &[(
        // clients, and the place where the life begins; then its entries: ticket, client, command, reply
        (1, 0),
        &[
            (0, 0, 1, Some(RowReply::New)),
            (1, 0, 2, Some(RowReply::Replaced)),
        ],
        // reads of client 0: command, place, reply
        &[(3, 2, RowReply::Doc(b"2"))],
        // clients stopped, and clients without a free cell; then the choice, the entries kept and the documents
        (&[], &[]),
        (0, 2, 1),
    )],
    report: b"\
life 0 clients 1 from 0
0 0.1 put a 1 = new
1 0.2 put a 2 = replaced
read 0.3 at 2 get a = 2
power 0 kept 2 of 2 documents 1
",
};

// A read of a key that has no document.
const EMPTY_STORE: Worked = Worked {
    script: b"\
lines 64
life 1 power 0
0 get a
",
    lives: &[(
        // clients, and the place where the life begins; then its entries, of which there are none
        (1, 0),
        &[],
        // reads of client 0: command, place, reply
        &[(1, 0, RowReply::Absent)],
        // clients stopped, and clients without a free cell; then the choice, the entries kept and the documents
        (&[], &[]),
        (0, 0, 0),
    )],
    report: b"\
life 0 clients 1 from 0
read 0.1 at 0 get a = none
power 0 kept 0 of 0 documents 0
",
};

// An addition to the greatest 64-bit integer overflows.
const END_OF_TYPE: Worked = Worked {
    script: b"\
lines 64
life 1 power 0
0 add k 9223372036854775807
0 add k 1
0 get k
",
    lives: &[(
        // clients, and the place where the life begins; then its entries: ticket, client, command, reply
        (1, 0),
        &[
            (0, 0, 1, Some(RowReply::Sum(i64::MAX))),
            (1, 0, 2, Some(RowReply::Overflow)),
        ],
        // reads of client 0: command, place, reply
        &[(3, 2, RowReply::Doc(b"9223372036854775807"))],
        // clients stopped, and clients without a free cell; then the choice, the entries kept and the documents
        (&[], &[]),
        (0, 2, 1),
    )],
    report: b"\
life 0 clients 1 from 0
0 0.1 add k 9223372036854775807 = sum 9223372036854775807
1 0.2 add k 1 = overflow
read 0.3 at 2 get k = 9223372036854775807
power 0 kept 2 of 2 documents 1
",
};

// A document that is not a number cannot be added to, a second deletion finds no document, and documents stand in the report as compact text.
const COMPACT_TEXT: Worked = Worked {
    script: b"\
lines 64
life 1 power 0
0 put a {\"a\":[],\"b\":1}
0 get a
0 add a 1
0 del a
0 del a
",
    lives: &[(
        // clients, and the place where the life begins; then its entries: ticket, client, command, reply
        (1, 0),
        &[
            (0, 0, 1, Some(RowReply::New)),
            (1, 0, 3, Some(RowReply::NotNumber)),
            (2, 0, 4, Some(RowReply::Deleted)),
            (3, 0, 5, Some(RowReply::Absent)),
        ],
        // reads of client 0: command, place, reply
        &[(2, 1, RowReply::Doc(b"{\"a\":[],\"b\":1}"))],
        // clients stopped, and clients without a free cell; then the choice, the entries kept and the documents
        (&[], &[]),
        (0, 4, 0),
    )],
    report: b"\
life 0 clients 1 from 0
0 0.1 put a {\"a\":[],\"b\":1} = new
1 0.3 add a 1 = notnumber
2 0.4 del a = deleted
3 0.5 del a = none
read 0.2 at 1 get a = {\"a\":[],\"b\":1}
power 0 kept 4 of 4 documents 0
",
};

// The least key above each of some keys, and the number of documents.
const KEYS_AND_COUNT: Worked = Worked {
    script: b"\
lines 64
life 1 power 0
0 put a 1
0 put c 2
0 next
0 next a
0 next b
0 next c
0 count
",
    lives: &[(
        // clients, and the place where the life begins; then its entries: ticket, client, command, reply
        (1, 0),
        &[
            (0, 0, 1, Some(RowReply::New)),
            (1, 0, 2, Some(RowReply::New)),
        ],
        // reads of client 0: command, place, reply
        &[
            (3, 2, RowReply::Key(b"a")),
            (4, 2, RowReply::Key(b"c")),
            (5, 2, RowReply::Key(b"c")),
            (6, 2, RowReply::Absent),
            (7, 2, RowReply::Number(2)),
        ],
        // clients stopped, and clients without a free cell; then the choice, the entries kept and the documents
        (&[], &[]),
        (0, 2, 2),
    )],
    report: b"\
life 0 clients 1 from 0
0 0.1 put a 1 = new
1 0.2 put c 2 = new
read 0.3 at 2 next = key a
read 0.4 at 2 next a = key c
read 0.5 at 2 next b = key c
read 0.6 at 2 next c = none
read 0.7 at 2 count = count 2
power 0 kept 2 of 2 documents 2
",
};

// Puts that ask for a revision of the document, and reads of its revision. Revisions go on where a key is deleted and put again.
const REVISIONS: Worked = Worked {
    script: b"\
lines 64
life 1 power 0
0 putif a 0 1
0 putif a 0 2
0 put a 3
0 rev a
0 putif a 2 4
0 del a
0 put a 5
0 rev a
",
    lives: &[(
        // clients, and the place where the life begins; then its entries: ticket, client, command, reply
        (1, 0),
        &[
            (0, 0, 1, Some(RowReply::Set(1))),
            (1, 0, 2, Some(RowReply::Stale(1))),
            (2, 0, 3, Some(RowReply::Replaced)),
            (3, 0, 5, Some(RowReply::Set(3))),
            (4, 0, 6, Some(RowReply::Deleted)),
            (5, 0, 7, Some(RowReply::New)),
        ],
        // reads of client 0: command, place, reply
        &[(4, 3, RowReply::Revision(2)), (8, 6, RowReply::Revision(4))],
        // clients stopped, and clients without a free cell; then the choice, the entries kept and the documents
        (&[], &[]),
        (0, 6, 1),
    )],
    report: b"\
life 0 clients 1 from 0
0 0.1 putif a 0 1 = set 1
1 0.2 putif a 0 2 = stale 1
2 0.3 put a 3 = replaced
3 0.5 putif a 2 4 = set 3
4 0.6 del a = deleted
5 0.7 put a 5 = new
read 0.4 at 3 rev a = rev 2
read 0.8 at 6 rev a = rev 4
power 0 kept 6 of 6 documents 1
",
};

// The entry of client 1 comes before that of client 0.
const TWO_CLIENTS: Worked = Worked {
    script: b"\
lines 64
life 2 power 0
0 add n 1
1 add n 1
",
    lives: &[(
        // clients, and the place where the life begins; then its entries: ticket, client, command, reply
        (2, 0),
        &[
            (0, 1, 1, Some(RowReply::Sum(1))),
            (1, 0, 1, Some(RowReply::Sum(2))),
        ],
        // reads; clients stopped, and clients without a free cell; then the choice, the entries kept and the documents
        &[],
        (&[], &[]),
        (0, 2, 1),
    )],
    report: b"\
life 0 clients 2 from 0
0 1.1 add n 1 = sum 1
1 0.1 add n 1 = sum 2
power 0 kept 2 of 2 documents 1
",
};

// The second life begins with what the first one left.
const TWO_LIVES: Worked = Worked {
    script: b"\
lines 64
life 2 power 1
0 put stock:apple {\"name\":\"apple\",\"price\":120}
1 put stock:pear {\"name\":\"pear\",\"price\":95}
0 add sold 3
1 add sold 4
life 1 power 0
0 next stock:
0 get sold
0 count
",
    lives: &[
        (
            // clients, and the place where the life begins; then its entries: ticket, client, command, reply
            (2, 0),
            &[
                (0, 0, 1, Some(RowReply::New)),
                (1, 1, 1, Some(RowReply::New)),
                (2, 0, 2, Some(RowReply::Sum(3))),
                (3, 1, 2, Some(RowReply::Sum(7))),
            ],
            // reads; clients stopped, and clients without a free cell; then the choice, the entries kept and the documents
            &[],
            (&[], &[]),
            (1, 4, 3),
        ),
        (
            // the second life begins at place 4, with no entry of its own
            (1, 4),
            &[],
            // reads of client 0: command, place, reply
            &[
                (1, 4, RowReply::Key(b"stock:apple")),
                (2, 4, RowReply::Doc(b"7")),
                (3, 4, RowReply::Number(3)),
            ],
            // clients stopped, and clients without a free cell; then the choice, the entries kept and the documents
            (&[], &[]),
            (0, 0, 3),
        ),
    ],
    report: b"\
life 0 clients 2 from 0
0 0.1 put stock:apple {\"name\":\"apple\",\"price\":120} = new
1 1.1 put stock:pear {\"name\":\"pear\",\"price\":95} = new
2 0.2 add sold 3 = sum 3
3 1.2 add sold 4 = sum 7
power 1 kept 4 of 4 documents 3
life 1 clients 1 from 4
read 0.1 at 4 next stock: = key stock:apple
read 0.2 at 4 get sold = 7
read 0.3 at 4 count = count 3
power 0 kept 0 of 0 documents 3
",
};

// A put for which the store has no room, and an addition whose client was stopped in it. The record has one client, so that the command of client 1
// is not done.
const WITHOUT_ROOM: Worked = Worked {
    script: b"\
lines 64
life 2 power 0
1 count
0 put a 1
0 add a -1
",
    lives: &[(
        // clients, and the place where the life begins; then its entries: ticket, client, command, and the reply, if it was given
        (1, 0),
        &[(0, 0, 1, Some(RowReply::NoRoom)), (1, 0, 2, None)],
        // reads; clients stopped, and clients without a free cell; then the choice, the entries kept and the documents
        &[],
        (&[], &[]),
        (0, 2, 0),
    )],
    report: b"\
life 0 clients 1 from 0
0 0.1 put a 1 = noroom
1 0.2 add a -1 = unanswered
power 0 kept 2 of 2 documents 0
",
};

// Two clients that were stopped. The entry of one is kept, and that of the other is lost. In the second life a client was stopped before its first
// step.
const STOPPED: Worked = Worked {
    script: b"\
lines 64
life 3 power 2
0 put a 1
1 add a 2
2 del a
0 get a
life 2 power 0
1 put a 1
",
    lives: &[
        (
            // clients, and the place where the life begins; then its entries: ticket, client, command, and the reply, if it was given
            (3, 0),
            &[
                (0, 0, 1, Some(RowReply::New)),
                (1, 1, 1, None),
                (2, 2, 1, None),
            ],
            // reads of client 0: command, place, reply
            &[(2, 1, RowReply::Doc(b"1"))],
            (
                // clients stopped: client, command, limit of steps, and whether the entry is kept
                &[(1, 1, 12, true), (2, 1, 18_446_744_073_709_551_614, false)],
                &[],
            ),
            // the choice, the entries kept and the documents
            (2, 2, 1),
        ), // A client that was stopped before its first step.
        ((2, 2), &[], &[], (&[(1, 1, 0, false)], &[]), (0, 0, 1)),
    ],
    report: b"\
life 0 clients 3 from 0
0 0.1 put a 1 = new
1 1.1 add a 2 = unanswered
2 2.1 del a = unanswered
read 0.2 at 1 get a = 1
stopped 1.1 at 12 kept
stopped 2.1 at 18446744073709551614 lost
power 2 kept 2 of 3 documents 1
life 1 clients 2 from 2
stopped 1.1 at 0 lost
power 0 kept 0 of 0 documents 1
",
};

// A client that found no cell free, since a stopped client keeps its cells in use. No run of this script gives the record.
const GAVE_UP: Worked = Worked {
    script: b"\
lines 64
life 2 power 0
0 count
",
    // columns: clients and place; entries; reads; clients stopped; without a free cell (client, command, holder, need, ticket); choice, kept and
    // documents
    lives: &[((2, 0), &[], &[], (&[], &[(0, 17, 1, 0, 1)]), (0, 0, 0))],
    report: b"\
life 0 clients 2 from 0
full 0.17 holder 1 need 0 ticket 1
power 0 kept 0 of 0 documents 0
",
};

// One client that was stopped, and two that found no cell free, since it keeps their cells in use. No run of this script gives the record.
const STOPPED_AND_GAVE_UP: Worked = Worked {
    script: b"\
lines 64
life 3 power 1
0 count
",
    lives: &[(
        // clients, and the place where the life begins; no entries; then the reads of client 0: command, place, reply
        (3, 7),
        &[],
        &[(1, 7, RowReply::Number(0))],
        (
            // clients stopped: client, command, limit of steps, and whether the entry is kept
            &[(1, 2, 40, false)],
            // clients without a free cell: client, command; then holder, need and ticket of the note that each was given
            &[(0, 2, 1, 7, 8), (2, 1, 1, 7, 18_446_744_073_709_551_615)],
        ),
        // the choice, the entries kept and the documents
        (1, 0, 0),
    )],
    report: b"\
life 0 clients 3 from 7
read 0.1 at 7 count = count 0
stopped 1.2 at 40 lost
full 0.2 holder 1 need 7 ticket 8
full 2.1 holder 1 need 7 ticket 18446744073709551615
power 1 kept 0 of 0 documents 0
",
};

// All cases of this file, in their order.
static ROWS: [Worked; 13] = [
    NOTHING,
    WRITTEN_AND_READ,
    EMPTY_STORE,
    END_OF_TYPE,
    COMPACT_TEXT,
    KEYS_AND_COUNT,
    REVISIONS,
    TWO_CLIENTS,
    TWO_LIVES,
    WITHOUT_ROOM,
    STOPPED,
    GAVE_UP,
    STOPPED_AND_GAVE_UP,
];

// Asserts that the report of each case is exactly the text that stands in it.
#[test]
fn writes_worked_reports(rt: HostRuntime) -> Result<(), Fail> {
    holds(&rt, first_wrong(rt.alloc(), &ROWS)?.is_none());
    Ok(())
}

/// The index of the first row whose records give another report than the row has; `None` if there is none. `Err` means out of memory.
fn first_wrong(alloc: Global, rows: &[Worked]) -> Result<Option<usize>, AllocError> {
    for (i, row) in rows.iter().enumerate() {
        let records = records_of(alloc, row.lives)?;
        if !is_reported(alloc, row.script, &records, row.report)? {
            return Ok(Some(i));
        }
    }
    Ok(None)
}

/// Whether the report of a script with these records is `text`. `false` also where the script is refused. `Err` means out of memory.
fn is_reported(
    alloc: Global,
    script: &[u8],
    records: &[LifeRecord],
    text: &[u8],
) -> Result<bool, AllocError> {
    match read_script(alloc, script) {
        Ok(script) => has_report(alloc, &with_clients(script, records), records, text),
        Err(_) => Ok(false),
    }
}

/// The script, with as many clients in each life as the record of the life has.
fn with_clients(script: Script, records: &[LifeRecord]) -> Script {
    let mut lives = script.lives.into_vec();
    for (life, life_report) in lives.iter_mut().zip(records) {
        life.clients = life_report.clients;
    }
    Script {
        lines: script.lines,
        lives: Items::of(lives),
    }
}

// Whether the records name commands of the script's lives, and their report is `text`. `Err` means out of memory.
fn has_report(
    alloc: Global,
    script: &Script,
    records: &[LifeRecord],
    text: &[u8],
) -> Result<bool, AllocError> {
    if !name_commands(alloc, script.lives.as_slice(), records)? {
        return Ok(false);
    }
    let written = report(alloc, script, records)?;
    Ok(written.as_slice() == text)
}

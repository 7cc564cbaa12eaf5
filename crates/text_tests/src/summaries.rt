//! The lines on a life, written out.

use crate::holds::holds;
use cx_base::{Bytes, Items};
use doc_model::Pair;
use doc_text::{LifeRecord, summary};
use std::alloc::{AllocError, Global};
use std::test::Fail;

/// A row: the documents that a life left, and the lines of its summary.
type Row = (&'static [&'static [u8]], &'static [u8]);

// Each row: the documents, and the four lines that the summary of a life with five clients and no entry has.
const ROWS: [Row; 4] = [
    // no document
    (&[], b"clients 5\nupdates 0\ndocuments 0\nsum 0\n"),
    // only integers are summed: 3 and -10
    (
        &[b"3", b"{}", b"\"4\"", b"-10"],
        b"clients 5\nupdates 0\ndocuments 4\nsum -7\n",
    ),
    // sums beyond the integers of 64 bits with a sign
    (
        &[b"9223372036854775807", b"9223372036854775807"],
        b"clients 5\nupdates 0\ndocuments 2\nsum 18446744073709551614\n",
    ),
    (
        &[b"-9223372036854775808", b"-9223372036854775808", b"00"],
        b"clients 5\nupdates 0\ndocuments 3\nsum -18446744073709551616\n",
    ),
];

// Asserts that the summary of each row has its lines.
#[test]
fn documents_that_are_integers_are_summed(rt: HostRuntime) -> Result<(), Fail> {
    holds(&rt, first_wrong(rt.alloc(), &ROWS)?.is_none());
    Ok(())
}

/// The index of the first row whose summary has other lines; `None` if there is none. `Err` means out of memory.
fn first_wrong(alloc: Global, rows: &[Row]) -> Result<Option<usize>, AllocError> {
    for (i, (documents, lines)) in rows.iter().enumerate() {
        let pairs = pairs_of(alloc, documents)?;
        if !has_lines(alloc, &pairs, lines)? {
            return Ok(Some(i));
        }
    }
    Ok(None)
}

/// Whether the summary of a life that left these pairs has these lines. `Err` means out of memory.
fn has_lines(alloc: Global, pairs: &[Pair], lines: &[u8]) -> Result<bool, AllocError> {
    // Of these numbers the summary writes only the clients; the updates are the entries of the journal, which is empty.
    let report = LifeRecord {
        clients: 5,
        from: 1,
        journal: Items::new(alloc),
        reads: Items::new(alloc),
        stops: Items::new(alloc),
        fulls: Items::new(alloc),
        choice: 2,
        kept: 3,
        items: 4,
    };
    match summary(alloc, &report, pairs) {
        Ok(text) => Ok(text.as_slice() == lines),
        Err(AllocError) => Err(AllocError),
    }
}

/// Pairs with these documents, in their order, all with the key `k`. `Err` means out of memory.
fn pairs_of(alloc: Global, documents: &[&[u8]]) -> Result<Vec<Pair>, AllocError> {
    let mut pairs = Vec::new(alloc);
    for document in documents {
        pairs.push(pair_of(alloc, document)?)?;
    }
    Ok(pairs)
}

// A pair with the key `k`, this document and revision 1. `Err` means out of memory.
fn pair_of(alloc: Global, document: &[u8]) -> Result<Pair, AllocError> {
    let key = Bytes::of(alloc, b"k")?;
    let doc = Bytes::of(alloc, document)?;
    Ok(Pair {
        key,
        doc,
        revision: 1,
    })
}

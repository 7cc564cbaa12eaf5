//! Worked rows: words of operations and replies, and words that are none.

use crate::holds::holds;
use crate::rows::{LETTERS, Row, has_reply, laid_out, words_of};
use cx_base::pack;
use doc_model::{
    Op, OpFault, Reply, is_op, op_of, op_words, packed_document_reply, packed_key_reply, reply_of,
    reply_words,
};
use std::alloc::{AllocError, Global};
use std::test::Fail;

/// The kind, the key, the document and the amount of an operation. Kind 0 is of words that are no operation's.
type Parts<'a> = (u64, &'a [u8], &'a [u8], i64);

/// A row has three parts: the kind, the key, the document and the number that words are made of; places in them, each with the word that is then put
/// there; and the kind, the key, the document and the amount of the operation that the words are read as.
type Changed = (Row, &'static [(usize, u64)], Parts<'static>);

/// The kind of an operation, which is word 0 of its words.
fn kind_of(op: &Op) -> u64 {
    match op {
        Op::Put { .. } => 1,
        Op::Del { .. } => 2,
        Op::Add { .. } => 3,
        Op::Get { .. } => 4,
        Op::Next { .. } => 5,
        Op::Count => 6,
        Op::PutIf { .. } => 7,
        Op::Rev { .. } => 8,
    }
}

/// The key that an operation names, or nothing.
fn key_of(op: &Op) -> &[u8] {
    match op {
        Op::Put { key, .. } => key.as_slice(),
        Op::Del { key } => key.as_slice(),
        Op::Add { key, .. } => key.as_slice(),
        Op::Get { key } => key.as_slice(),
        Op::Next { above } => above.as_slice(),
        Op::Count => &[],
        Op::PutIf { key, .. } => key.as_slice(),
        Op::Rev { key } => key.as_slice(),
    }
}

/// The document that an operation has, or nothing.
fn document_of(op: &Op) -> &[u8] {
    match op {
        Op::Put { doc, .. } => doc.as_slice(),
        Op::PutIf { doc, .. } => doc.as_slice(),
        _ => &[],
    }
}

/// The amount of an addition, the revision of a put on condition (in two's complement), or 0.
fn amount_of(op: &Op) -> i64 {
    match op {
        Op::Add { amount, .. } => *amount,
        Op::PutIf { revision, .. } => revision.cast_signed(),
        _ => 0,
    }
}

/// Whether an operation has the parts `want`: the kind, the key, the document and the amount.
fn has_parts(op: &Op, want: &Parts<'_>) -> bool {
    kind_of(op) == want.0
        && key_of(op) == want.1
        && document_of(op) == want.2
        && amount_of(op) == want.3
}

/// Whether words are read as an operation of the parts `want`, and are the words of this operation again. Where `want` has kind 0, whether they
/// are no operation's.
fn is_read(alloc: Global, words: &[u64; 144], want: &Parts<'_>) -> Result<bool, AllocError> {
    match op_of(alloc, words) {
        Ok(op) => Ok(is_op(words) && op_words(&op) == *words && has_parts(&op, want)),
        Err(OpFault::BadOp) => Ok(!is_op(words) && want.0 == 0),
        Err(OpFault::Memory) => Err(AllocError),
    }
}

// The columns: the kind, key, document and number that words are made of; the words changed then, each by its place; and the kind, key, document and
// amount of the operation that they are then. Kind 1 is a put, 2 a removal, 3 an addition, 4 a get, 5 the next key, 6 the count, 7 a put on
// condition of a revision, 8 a revision. Kind 0 is of words that are no operation's.
static OPERATIONS: [Changed; 52] = [
    // puts; the second key has the least and the greatest byte that a key may have
    ((1, "a", " ", 0), &[], (1, b"a", b" ", 0)),
    ((1, "!~", "\u{FF}", 0), &[], (1, b"!~", b"\xC3\xBF", 0)),
    // a removal
    ((2, "a", "", 0), &[], (2, b"a", b"", 0)),
    // additions of 0, of the least amount and of the greatest
    ((3, "a", "", 0), &[], (3, b"a", b"", 0)),
    (
        (3, "a", "", 9223372036854775808),
        &[],
        (3, b"a", b"", -9223372036854775808),
    ),
    (
        (3, "a", "", 9223372036854775807),
        &[],
        (3, b"a", b"", 9223372036854775807),
    ),
    // gets, of a key in one word and of one in two words
    ((4, "a", "", 0), &[], (4, b"a", b"", 0)),
    ((4, "abcdefghi", "", 0), &[], (4, b"abcdefghi", b"", 0)),
    // the next key, above none and above a
    ((5, "", "", 0), &[], (5, b"", b"", 0)),
    ((5, "a", "", 0), &[], (5, b"a", b"", 0)),
    // the count
    ((6, "", "", 0), &[], (6, b"", b"", 0)),
    // puts on condition: the key is missing (0), and the greatest revision, which is -1 as an amount
    ((7, "a", "1", 0), &[], (7, b"a", b"1", 0)),
    (
        (7, "a", "1", 18446744073709551615),
        &[],
        (7, b"a", b"1", -1),
    ),
    // a revision
    ((8, "a", "", 0), &[], (8, b"a", b"", 0)),
    // no operations: a part that the kind needs is missing or is no key, or there is one that it does not use
    // a put on condition (7) without a document, and without a key
    ((7, "a", "", 1), &[], (0, b"", b"", 0)),
    ((7, "", "1", 1), &[], (0, b"", b"", 0)),
    // a revision (8) without a key, with a document, and with a number
    ((8, "", "", 0), &[], (0, b"", b"", 0)),
    ((8, "a", "1", 0), &[], (0, b"", b"", 0)),
    ((8, "a", "", 1), &[], (0, b"", b"", 0)),
    // a removal (2) with a document, and with a number; an addition (3) with a document
    ((2, "a", "1", 0), &[], (0, b"", b"", 0)),
    ((2, "a", "", 1), &[], (0, b"", b"", 0)),
    ((3, "a", "1", 5), &[], (0, b"", b"", 0)),
    // a get (4) without a key; the next key (5) with a number, and above a key with a space
    ((4, "", "", 0), &[], (0, b"", b"", 0)),
    ((5, "a", "", 1), &[], (0, b"", b"", 0)),
    ((5, "a b", "", 0), &[], (0, b"", b"", 0)),
    // a count (6) with a key, and with a number
    ((6, "a", "", 0), &[], (0, b"", b"", 0)),
    ((6, "", "", 1), &[], (0, b"", b"", 0)),
    // from words that are all 0, a put of document 1 at key a
    (
        (0, "", "", 0),
        &[(0, 1), (1, 1), (2, 1), (8, 97), (16, 49)],
        (1, b"a", b"1", 0),
    ),
    // from words that are all 0, an addition of -1 at key a
    (
        (0, "", "", 0),
        &[(0, 3), (1, 1), (3, 18446744073709551615), (8, 97)],
        (3, b"a", b"", -1),
    ),
    // words that are all 0: no operation
    ((0, "", "", 0), &[], (0, b"", b"", 0)),
    // words of a put, some of them changed, which are no operation's (0) then
    // the kind: 0, one that there is not, and a removal, which has no document
    ((1, "a", "1", 0), &[(0, 0)], (0, b"", b"", 0)),
    ((1, "a", "1", 0), &[(0, 9)], (0, b"", b"", 0)),
    ((1, "a", "1", 0), &[(0, 2)], (0, b"", b"", 0)),
    // the length of the key: 0, with its byte and without it; 2, whose second byte is 0; and one above 64
    ((1, "a", "1", 0), &[(1, 0)], (0, b"", b"", 0)),
    ((1, "a", "1", 0), &[(1, 0), (8, 0)], (0, b"", b"", 0)),
    ((1, "a", "1", 0), &[(1, 2)], (0, b"", b"", 0)),
    ((1, "a", "1", 0), &[(1, 65)], (0, b"", b"", 0)),
    // the greatest number as the length of the key
    (
        (1, "a", "1", 0),
        &[(1, 18446744073709551615), (3, 0)],
        (0, b"", b"", 0),
    ),
    // the length of the document: 0, without its byte; 2, whose second byte is 0; and one above 1,024
    ((1, "a", "1", 0), &[(2, 0), (16, 0)], (0, b"", b"", 0)),
    ((1, "a", "1", 0), &[(2, 2)], (0, b"", b"", 0)),
    ((1, "a", "1", 0), &[(2, 1025)], (0, b"", b"", 0)),
    // words that a put does not use: 3, 4 and 7
    ((1, "a", "1", 0), &[(3, 1)], (0, b"", b"", 0)),
    ((1, "a", "1", 0), &[(4, 1)], (0, b"", b"", 0)),
    ((1, "a", "1", 0), &[(7, 1)], (0, b"", b"", 0)),
    // the key: a byte behind its end, a space, a byte above the visible ones, and a word behind its end
    ((1, "a", "1", 0), &[(8, 353)], (0, b"", b"", 0)),
    ((1, "a", "1", 0), &[(8, 32)], (0, b"", b"", 0)),
    ((1, "a", "1", 0), &[(8, 127)], (0, b"", b"", 0)),
    // word 15 is the last one for a key
    ((1, "a", "1", 0), &[(15, 1)], (0, b"", b"", 0)),
    // the document: a control character, and a word behind its end
    ((1, "a", "1", 0), &[(16, 31)], (0, b"", b"", 0)),
    ((1, "a", "1", 0), &[(143, 1)], (0, b"", b"", 0)),
    // another key, and another document or length, which are a put again
    ((1, "a", "1", 0), &[(8, 33), (16, 32)], (1, b"!", b" ", 0)),
    ((1, "a", "1", 0), &[(1, 2), (8, 25185)], (1, b"ab", b"1", 0)),
];

/// These words after `changes`: each is a place and the word put there. A place behind the words is passed over.
fn changed(words: [u64; 144], changes: &[(usize, u64)]) -> [u64; 144] {
    let mut words = words;
    for (at, word) in changes {
        if let Some(place) = words.get_mut(*at) {
            *place = *word;
        }
    }
    words
}

/// The number of the first row whose words, after its changes, are not read as the row says; `None` where all rows are right.
fn first_other(alloc: Global, rows: &[Changed]) -> Result<Option<usize>, AllocError> {
    for (i, (row, changes, want)) in rows.iter().enumerate() {
        if !is_read(alloc, &changed(words_of(*row), changes), want)? {
            return Ok(Some(i));
        }
    }
    Ok(None)
}

// The length of a key, the length of a document, and whether a put may have them.
static LENGTHS: [(usize, usize, bool); 9] = [
    // the least and the greatest lengths, a key that fills a word, and documents of 56 and 57 bytes, in one line and in two
    (1, 1, true),
    (7, 56, true),
    (8, 57, true),
    (64, 1024, true),
    (1, 1024, true),
    // one byte too long, and none at all
    (65, 1, false),
    (64, 1025, false),
    (0, 1, false),
    (1, 0, false),
];

/// The number of the first row of lengths of which a put's words are not read as the row says; `None` where all rows are right. The keys and
/// documents are of the letter x.
fn first_other_length(
    alloc: Global,
    rows: &[(usize, usize, bool)],
) -> Result<Option<usize>, AllocError> {
    for (i, (key_len, document_len, is_put)) in rows.iter().enumerate() {
        let key = &LETTERS[..(*key_len).min(1025)];
        let document = &LETTERS[..(*document_len).min(1025)];
        let kind = u64::from(*is_put);
        let words = laid_out(1, key, document, 0);
        if !is_read(alloc, &words, &(kind, key, document, 0))? {
            return Ok(Some(i));
        }
    }
    Ok(None)
}

#[test]
fn words_are_read_as_operations(rt: HostRuntime) -> Result<(), Fail> {
    holds(&rt, first_other(rt.alloc(), &OPERATIONS)?.is_none());
    holds(&rt, first_other_length(rt.alloc(), &LENGTHS)?.is_none());
    Ok(())
}

// The kind, key, document and number that words are made of; whether a reply has these words; and its sum, or 0 where it is no sum. Kind 1 is new, 2
// replaced, 3 deleted, 4 absent, 5 a document, 6 a sum, 7 no number, 8 an overflow, 9 no room, 10 a key, 11 a number, 12 set, 13 stale, 14 a
// revision.
static REPLIES: [(Row, bool, i64); 29] = [
    // replies without a part: new, replaced, deleted, absent
    ((1, "", "", 0), true, 0),
    ((2, "", "", 0), true, 0),
    ((3, "", "", 0), true, 0),
    ((4, "", "", 0), true, 0),
    // a document, and sums of 7 and of -2
    ((5, "", "1", 0), true, 0),
    ((6, "", "", 7), true, 7),
    ((6, "", "", 18446744073709551614), true, -2),
    // no number, overflow and no room
    ((7, "", "", 0), true, 0),
    ((8, "", "", 0), true, 0),
    ((9, "", "", 0), true, 0),
    // a key, and numbers: 0 and the greatest
    ((10, "abcdefgh", "", 0), true, 0),
    ((11, "", "", 0), true, 0),
    ((11, "", "", 18446744073709551615), true, 0),
    // kind 0 is no reply's
    ((0, "", "", 0), false, 0),
    // set, stale and revision, each with a revision
    ((12, "", "", 7), true, 0),
    ((13, "", "", 0), true, 0),
    ((14, "", "", 18446744073709551615), true, 0),
    // kind 15 is no reply's
    ((15, "", "", 0), false, 0),
    // parts that a reply of this kind does not have, or that it misses
    ((12, "a", "", 7), false, 0),
    ((13, "", "1", 7), false, 0),
    ((14, "a", "", 7), false, 0),
    // a new key with a number, an absent one with a key, a document that is empty or has a control character
    ((1, "", "", 1), false, 0),
    ((4, "a", "", 0), false, 0),
    ((5, "", "", 0), false, 0),
    ((5, "", "\x1F", 0), false, 0),
    // a sum with a key, no room with a document, no key where it has to be one, and a number with a document
    ((6, "a", "", 1), false, 0),
    ((9, "", "1", 0), false, 0),
    ((10, "", "", 0), false, 0),
    ((11, "", "1", 3), false, 0),
];

/// The sum that a reply has, or 0.
fn sum_of(reply: &Reply) -> i64 {
    match reply {
        Reply::Sum(sum) => *sum,
        _ => 0,
    }
}

/// Whether the words of a row (its parts, whether they are a reply's, the sum) are read as a reply of these parts, and are the words of this reply
/// again; or, where the row says so, whether they are no reply's.
fn is_reply_read(alloc: Global, row: &(Row, bool, i64)) -> Result<bool, AllocError> {
    let words = words_of(row.0);
    match reply_of(alloc, &words) {
        Ok(reply) => Ok(
            row.1
                && reply_words(&reply) == words
                && has_reply(&reply, &row.0)
                && sum_of(&reply) == row.2,
        ),
        Err(OpFault::BadOp) => Ok(!row.1),
        Err(OpFault::Memory) => Err(AllocError),
    }
}

/// The number of the first row whose words are not read as the reply that it says; `None` where all rows are right.
fn first_other_reply(
    alloc: Global,
    rows: &[(Row, bool, i64)],
) -> Result<Option<usize>, AllocError> {
    for (i, row) in rows.iter().enumerate() {
        if !is_reply_read(alloc, row)? {
            return Ok(Some(i));
        }
    }
    Ok(None)
}

/// Whether the words of the reply of the key `key` are 0 but for `key_words`, and those of the reply of the document `document!` are 0 but for
/// `document_words`. Each of these is a place and its word.
fn are_packed(key_words: &[(usize, u64)], document_words: &[(usize, u64)]) -> bool {
    let mut key = [0; 8];
    pack(b"key", &mut key);
    let mut document = [0; 128];
    pack(b"document!", &mut document);
    packed_key_reply(3, &key) == changed([0; 144], key_words)
        && packed_document_reply(9, &document) == changed([0; 144], document_words)
}

// The words that are not 0 of the reply of the key `key`: the kind, its length and its bytes.
static KEY_WORDS: [(usize, u64); 3] = [(0, 10), (1, 3), (8, 0x0079_656b)];

// The words that are not 0 of the reply of the document `document!`: the kind, its length and its bytes.
static DOCUMENT_WORDS: [(usize, u64); 4] = [
    (0, 5),
    (2, 9),
    (16, 0x746e_656d_7563_6f64),
    (17, 0x21),
];

#[test]
fn words_are_read_as_replies(rt: HostRuntime) -> Result<(), Fail> {
    holds(&rt, first_other_reply(rt.alloc(), &REPLIES)?.is_none());
    holds(&rt, are_packed(&KEY_WORDS, &DOCUMENT_WORDS));
    Ok(())
}

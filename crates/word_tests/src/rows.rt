//! Worked rows over words: the words of operations, and the words that they are answered.

ghost use Rattle.std.specs.Prelude.{◌≡◌, ◌≤◌, ◌*◌, ◌^◌, IsTrue, IfOk, OnOk, length};
ghost use Rattle.cx_base.specs.Memory.{Always};
ghost use Rattle.doc_store.specs.ExactStep.{IsImageOfStore};

use crate::holds::holds;
use cx_base::{Halt, Memory, Object, VecMemory};
use doc_model::{OpFault, Pairs, Reply, op_of};
use doc_store::DocStore;
use std::alloc::{AllocError, Global};
use std::test::Fail;

/// The parts of words, as the rows give them: the kind, the key, the document and the number. An operation's kinds are 1 put, 2 removal,
/// 3 addition, 4 get, 5 next key, 6 count, 7 put on condition of a revision, and 8 revision; `kind_of` has a reply's. Kind 0 is none.
pub(crate) type Row = (u64, &'static str, &'static str, u64);

/// The letter x, 1,025 times: its first bytes are a key or a document of any length, also one that is too long by a byte.
pub(crate) static LETTERS: [u8; 1025] = [b'x'; 1025];

/// Lays `bytes` out in words of 0, from the word at place `from` on: byte i is in word i / 8 of them, at bits 8 * (i mod 8).
fn lay(words: &mut [u64], from: usize, bytes: &[u8]) {
    for (i, byte) in bytes.iter().enumerate() {
        if let Some(word) = words.get_mut(from.saturating_add(i / 8)) {
            *word |= u64::from(*byte) << (8 * (i % 8));
        }
    }
}

/// The words of an operation or a reply of these parts: word 0 is the kind, words 1 and 2 are the lengths of the key and of the document, word 3 is
/// the number. The key begins at word 8 and the document at word 16. All other words are 0.
pub(crate) fn laid_out(kind: u64, key: &[u8], document: &[u8], number: u64) -> [u64; 144] {
    let mut words = [0; 144];
    words[0] = kind;
    words[1] = key.len() as u64;
    words[2] = document.len() as u64;
    words[3] = number;
    lay(&mut words, 8, key);
    lay(&mut words, 16, document);
    words
}

/// The words of an operation or a reply, by its parts.
pub(crate) fn words_of(row: Row) -> [u64; 144] {
    laid_out(row.0, row.1.as_bytes(), row.2.as_bytes(), row.3)
}

/// The kind of a reply, which is word 0 of its words.
fn kind_of(reply: &Reply) -> u64 {
    match reply {
        Reply::New => 1,
        Reply::Replaced => 2,
        Reply::Deleted => 3,
        Reply::Absent => 4,
        Reply::Doc(_) => 5,
        Reply::Sum(_) => 6,
        Reply::NotNumber => 7,
        Reply::Overflow => 8,
        Reply::NoRoom => 9,
        Reply::Key(_) => 10,
        Reply::Number(_) => 11,
        Reply::Set(_) => 12,
        Reply::Stale(_) => 13,
        Reply::Revision(_) => 14,
    }
}

/// The key that a reply has, or nothing.
fn key_of(reply: &Reply) -> &[u8] {
    match reply {
        Reply::Key(key) => key.as_slice(),
        _ => &[],
    }
}

/// The document that a reply has, or nothing.
fn document_of(reply: &Reply) -> &[u8] {
    match reply {
        Reply::Doc(document) => document.as_slice(),
        _ => &[],
    }
}

/// The number that a reply has, a sum in two's complement, or 0.
fn number_of(reply: &Reply) -> u64 {
    match reply {
        Reply::Sum(sum) => sum.cast_unsigned(),
        Reply::Number(number)
        | Reply::Set(number)
        | Reply::Stale(number)
        | Reply::Revision(number) => *number,
        _ => 0,
    }
}

/// Whether a reply has the parts of the row `want`: the kind, the key, the document and the number.
pub(crate) fn has_reply(reply: &Reply, want: &Row) -> bool {
    kind_of(reply) == want.0
        && key_of(reply) == want.1.as_bytes()
        && document_of(reply) == want.2.as_bytes()
        && number_of(reply) == want.3
}

/// Whether two replies are the same.
pub(crate) fn same_reply(one: &Reply, other: &Reply) -> bool {
    kind_of(one) == kind_of(other)
        && key_of(one) == key_of(other)
        && document_of(one) == document_of(other)
        && number_of(one) == number_of(other)
}

/// The reply of the plain program, which keeps `pairs`, to the operation of these words in a store of `lines` lines. It is `None` where the words
/// are no operation's. The pairs are afterwards those that the operation leaves.
pub(crate) fn meant(
    alloc: Global,
    pairs: &mut Pairs,
    lines: u64,
    words: &[u64; 144],
) -> Result<Option<Reply>, AllocError> {
    match op_of(alloc, words) {
        Ok(op) => Ok(Some(pairs.step(alloc, lines, &op)?)),
        Err(OpFault::BadOp) => Ok(None),
        Err(OpFault::Memory) => Err(AllocError),
    }
}

/// Whether the plain program's reply to the words `op` has the parts of `want`. Words of no operation have no reply, and `want` has kind 0.
fn is_meant(
    alloc: Global,
    pairs: &mut Pairs,
    lines: u64,
    op: &[u64; 144],
    want: &Row,
) -> Result<bool, AllocError> {
    Ok(match meant(alloc, pairs, lines, op)? {
        Some(reply) => has_reply(&reply, want),
        None => want.0 == 0,
    })
}

/// The words of the store's reply to the operation with the words `op`. The memory has the words of a lawful image before, and also after, unless
/// it halts.
pub(crate) fn asked<M: Memory>(
    store: &DocStore,
    mem: &mut M,
    op: &[u64; 144],
) -> Result<[u64; 144], Halt>
    requires size { M.size mem.old ≡ 8 * store.now.lines }
    requires writable { IsTrue (M.writable mem.old) }
    requires lawful { Always (M.stands mem.old) (IsImageOfStore store.now.lines) }
    ensures size { M.size mem.new ≡ 8 * store.now.lines }
    ensures writable { IsTrue (M.writable mem.new) }
    ensures lawful { IfOk result (λ _. Always (M.stands mem.new) (IsImageOfStore store.now.lines)) }
{
    store.run(mem, op)
}

/// Makes the words of a memory the image of the empty store, whatever they were. The image is lawful, unless the memory halts.
pub(crate) fn opened<M: Memory>(store: &DocStore, mem: &mut M) -> Result<(), Halt>
    requires size { M.size mem.old ≡ 8 * store.now.lines }
    requires writable { IsTrue (M.writable mem.old) }
    ensures size { M.size mem.new ≡ 8 * store.now.lines }
    ensures writable { IsTrue (M.writable mem.new) }
    ensures lawful { OnOk result (Always (M.stands mem.new) (IsImageOfStore store.now.lines)) }
{
    store.format(mem)
}

/// Whether the store and the plain program both answer the operation of a row (its first half) by its reply (its second half). The memory holds a
/// lawful image before, and after where the answer is `true`.
fn is_answered<M: Memory>(
    alloc: Global,
    store: &DocStore,
    mem: &mut M,
    pairs: &mut Pairs,
    row: &(Row, Row),
) -> Result<bool, AllocError>
    requires size { M.size mem.old ≡ 8 * store.now.lines }
    requires writable { IsTrue (M.writable mem.old) }
    requires lawful { Always (M.stands mem.old) (IsImageOfStore store.now.lines) }
    ensures size { M.size mem.new ≡ 8 * store.now.lines }
    ensures writable { IsTrue (M.writable mem.new) }
    ensures lawful { IfOk result (λ yes. IsTrue yes → Always (M.stands mem.new) (IsImageOfStore store.now.lines)) }
{
    let op = words_of(row.0);
    match asked(store, mem, &op) {
        Ok(reply) if reply == words_of(row.1) => {
            is_meant(alloc, pairs, store.lines(), &op, &row.1)
        }
        _ => Ok(false),
    }
}

/// Whether the store, which is made empty before, and the plain program both answer the operation of each row, one after the other, by its reply.
fn both_answer<M: Memory>(
    alloc: Global,
    store: &DocStore,
    mem: &mut M,
    pairs: &mut Pairs,
    rows: &[(Row, Row)],
) -> Result<bool, AllocError>
    requires size { M.size mem.old ≡ 8 * store.now.lines }
    requires writable { IsTrue (M.writable mem.old) }
{
    // the store is empty now, or its memory halted
    let Ok(()) = opened(store, mem) else {
        return Ok(false);
    };
    for row in rows {
        if !is_answered(alloc, store, mem, pairs, row)? {
            return Ok(false);
        }
    }
    Ok(true)
}

/// A memory of `lines` lines, each word of which is 2^64 - 1, without a limit of accesses.
pub(crate) fn memory(alloc: Global, lines: u64) -> Result<VecMemory, AllocError>
    requires { lines ≤ 2 ^ 14 }
    ensures { IfOk result (λ m. length m.words.items ≡ 8 * lines) }
{
    let words = vec![in alloc; u64::MAX; 8 * lines as usize]?;
    Ok(VecMemory::of(words, None))
}

/// Whether the store in `lines` lines and the plain program, both empty at first, answer the operations of rows in turn by their replies.
pub(crate) fn are_answered(
    alloc: Global,
    lines: u64,
    rows: &[(Row, Row)],
) -> Result<bool, AllocError>
    requires some { 1 ≤ lines }
    requires few { lines ≤ 64 }
{
    let mut mem = memory(alloc, lines)?;
    let mut pairs = Pairs::new(alloc);
    both_answer(alloc, &DocStore::of(lines), &mut mem, &mut pairs, rows)
}

// 19 pairs of three lines each, and k19 of six lines: with them, all 63 lines behind the header are in use. A row is an operation and its reply, each
// by its kind, key, document and number. Of the operations, 1 is a put, 3 an addition, 4 a get, 5 the next key, 6 the count. Of the replies, 1 is
// new, 2 replaced, 4 absent, 5 a document, 6 a sum, 9 no room, 10 a key, 11 a number.
static FULL: [(Row, Row); 30] = [
    // puts of new keys: the kind, key, document and number of the operation, then those of the reply
    ((1, "k00", "0", 0), (1, "", "", 0)),
    ((1, "k01", "0", 0), (1, "", "", 0)),
    ((1, "k02", "0", 0), (1, "", "", 0)),
    ((1, "k03", "0", 0), (1, "", "", 0)),
    ((1, "k04", "0", 0), (1, "", "", 0)),
    ((1, "k05", "0", 0), (1, "", "", 0)),
    ((1, "k06", "0", 0), (1, "", "", 0)),
    ((1, "k07", "0", 0), (1, "", "", 0)),
    // more puts (1) of new keys, each answered as new (1)
    ((1, "k08", "0", 0), (1, "", "", 0)),
    ((1, "k09", "0", 0), (1, "", "", 0)),
    ((1, "k10", "0", 0), (1, "", "", 0)),
    ((1, "k11", "0", 0), (1, "", "", 0)),
    ((1, "k12", "0", 0), (1, "", "", 0)),
    ((1, "k13", "0", 0), (1, "", "", 0)),
    ((1, "k14", "0", 0), (1, "", "", 0)),
    // the last of the pairs of three lines
    ((1, "k15", "0", 0), (1, "", "", 0)),
    ((1, "k16", "0", 0), (1, "", "", 0)),
    ((1, "k17", "0", 0), (1, "", "", 0)),
    ((1, "k18", "0", 0), (1, "", "", 0)),
    // k19 is put: a line for its node, one for its key, and four for its document
    (
        (
            1,
            "k19",
            "\"xxxxxxxxxxxxxxxxxxxxxxxxxxxxxxxxxxxxxxxxxxxxxxxxxxxxxxxxxxxxxxxxxxxxxxxxxxxxxxxxxxxxxxxxxxxxxxxxxxxxxxxxxxxxxxxxxxxxxxxxxxxxxxxxxxxxxxxxxxxxxxxxxxxxxxxxxxxxxxxxxxxxxxxxxxxxxxxxxxxxxxxxxxxxxxxxxxxxxx\"",
            0,
        ),
        (1, "", "", 0),
    ),
    // there is no room (9) for a new key, neither by a put nor by an addition
    ((1, "k20", "0", 0), (9, "", "", 0)),
    ((3, "k20", "", 1), (9, "", "", 0)),
    // so a get does not find it, and the count is 20
    ((4, "k20", "", 0), (4, "", "", 0)),
    ((6, "", "", 0), (11, "", "", 20)),
    // a shorter document of k19 is put over the long one, which makes room for k20
    ((1, "k19", "0", 0), (2, "", "", 0)),
    ((1, "k20", "0", 0), (1, "", "", 0)),
    // 7 is added to the 0 of k18; there are 21 pairs; k19 is the next key above k18; k20 has its document
    ((3, "k18", "", 7), (6, "", "", 7)),
    ((6, "", "", 0), (11, "", "", 21)),
    ((5, "k18", "", 0), (10, "k19", "", 0)),
    ((4, "k20", "", 0), (5, "", "0", 0)),
];

// A sum at the end of 64 bits with a sign, and sums below 0. As words, 9223372036854775807 is the greatest number and 9223372036854775808 the
// least, 18446744073709551615 is -1, and 18446744073709551611 is -5. A row is an operation and its reply, each by its kind, key, document and
// number. Of the operations, 3 is an addition and 4 a get. Of the replies, 5 is a document, 6 a sum, 8 an overflow.
static SUMS: [(Row, Row); 7] = [
    // the greatest number is added to a key that is missing, which counts as 0
    (
        (3, "k", "", 9223372036854775807),
        (6, "", "", 9223372036854775807),
    ),
    // one more overflows, and changes nothing
    ((3, "k", "", 1), (8, "", "", 0)),
    ((4, "k", "", 0), (5, "", "9223372036854775807", 0)),
    // the least number is added: the sum is -1
    (
        (3, "k", "", 9223372036854775808),
        (6, "", "", 18446744073709551615),
    ),
    ((4, "k", "", 0), (5, "", "-1", 0)),
    // -5 is added to another missing key
    (
        (3, "n", "", 18446744073709551611),
        (6, "", "", 18446744073709551611),
    ),
    ((4, "n", "", 0), (5, "", "-5", 0)),
];

// A document that is no number, so that nothing is added to it, and a key that is taken out and is gone then. A row is an operation and its reply,
// each by its kind, key, document and number. Of the operations, 1 is a put, 2 a removal, 3 an addition, 4 a get. Of the replies, 1 is new, 3
// deleted, 4 absent, 5 a document, 7 no number.
static NO_NUMBERS: [(Row, Row); 6] = [
    // the document is put, and got
    ((1, "a", "{\"a\":[],\"b\":1}", 0), (1, "", "", 0)),
    ((4, "a", "", 0), (5, "", "{\"a\":[],\"b\":1}", 0)),
    // an addition to it is refused, as it is no number
    ((3, "a", "", 1), (7, "", "", 0)),
    // the key is removed, and is then missing for a removal and for a get
    ((2, "a", "", 0), (3, "", "", 0)),
    ((2, "a", "", 0), (4, "", "", 0)),
    ((4, "a", "", 0), (4, "", "", 0)),
];

// Words at the limits of an operation, and words that are no operation's, which zeros answer: a reply of kind 0. A row is an operation and its reply,
// each by its kind, key, document and number. Of the operations, 1 is a put, 4 a get, 6 the count, 7 a put on condition, 8 a revision. Of the
// replies, 1 is new, 5 a document, 11 a number.
static AT_THE_LIMITS: [(Row, Row); 12] = [
    // a put of a key of 64 bytes
    (
        (
            1,
            "kkkkkkkkkkkkkkkkkkkkkkkkkkkkkkkkkkkkkkkkkkkkkkkkkkkkkkkkkkkkkkkk",
            "1",
            0,
        ),
        (1, "", "", 0),
    ),
    // a get of it
    (
        (
            4,
            "kkkkkkkkkkkkkkkkkkkkkkkkkkkkkkkkkkkkkkkkkkkkkkkkkkkkkkkkkkkkkkkk",
            "",
            0,
        ),
        (5, "", "1", 0),
    ),
    // a put of a key of 65 bytes: no operation
    (
        (
            1,
            "kkkkkkkkkkkkkkkkkkkkkkkkkkkkkkkkkkkkkkkkkkkkkkkkkkkkkkkkkkkkkkkkk",
            "1",
            0,
        ),
        (0, "", "", 0),
    ),
    // a get of it: no operation
    (
        (
            4,
            "kkkkkkkkkkkkkkkkkkkkkkkkkkkkkkkkkkkkkkkkkkkkkkkkkkkkkkkkkkkkkkkkk",
            "",
            0,
        ),
        (0, "", "", 0),
    ),
    // a key with a space, and a put without a document
    ((1, "a b", "1", 0), (0, "", "", 0)),
    ((1, "a", "", 0), (0, "", "", 0)),
    // kinds that need a key without one, kinds that there are not, and a count with a number
    ((7, "", "", 0), (0, "", "", 0)),
    ((8, "", "", 0), (0, "", "", 0)),
    ((9, "", "", 0), (0, "", "", 0)),
    ((0, "", "", 0), (0, "", "", 0)),
    ((6, "", "", 1), (0, "", "", 0)),
    // one pair was put
    ((6, "", "", 0), (11, "", "", 1)),
];

// Seven lines, of which two pairs take six: a document of 56 bytes takes one line, and one of 57 bytes takes two, for which there is no room. A row
// is an operation and its reply, each by its kind, key, document and number. Of the operations, 1 is a put, 3 an addition, 5 the next key, 6 the
// count. Of the replies, 1 is new, 2 replaced, 4 absent, 6 a sum, 9 no room, 10 a key, 11 a number.
static SEVEN_LINES: [(Row, Row); 8] = [
    // there is no key yet; then two keys come in, by a put and by an addition
    ((5, "", "", 0), (4, "", "", 0)),
    ((1, "b", "1", 0), (1, "", "", 0)),
    ((3, "a", "", 41), (6, "", "", 41)),
    // there is no room for a third key
    ((1, "c", "1", 0), (9, "", "", 0)),
    // 57 bytes at b have no room
    (
        (
            1,
            "b",
            "xxxxxxxxxxxxxxxxxxxxxxxxxxxxxxxxxxxxxxxxxxxxxxxxxxxxxxxxx",
            0,
        ),
        (9, "", "", 0),
    ),
    // 56 bytes at b have room
    (
        (
            1,
            "b",
            "xxxxxxxxxxxxxxxxxxxxxxxxxxxxxxxxxxxxxxxxxxxxxxxxxxxxxxxx",
            0,
        ),
        (2, "", "", 0),
    ),
    // b is the next key above a, and there are two pairs
    ((5, "a", "", 0), (10, "b", "", 0)),
    ((6, "", "", 0), (11, "", "", 2)),
];

// Two keys: the least one above each key, if there is one, and the number of pairs. A row is an operation and its reply, each by its kind, key,
// document and number. Of the operations, 1 is a put, 5 the next key, 6 the count. Of the replies, 1 is new, 4 absent, 10 a key, 11 a number.
static LEAST_KEYS: [(Row, Row); 7] = [
    // a and c are put
    ((1, "a", "1", 0), (1, "", "", 0)),
    ((1, "c", "2", 0), (1, "", "", 0)),
    // the next key: above none, above a, above the missing b, and above c, where there is none
    ((5, "", "", 0), (10, "a", "", 0)),
    ((5, "a", "", 0), (10, "c", "", 0)),
    ((5, "b", "", 0), (10, "c", "", 0)),
    ((5, "c", "", 0), (4, "", "", 0)),
    // the number of pairs
    ((6, "", "", 0), (11, "", "", 2)),
];

// Each write of a key has the next revision. A put on condition of another revision is stale, which names the key's revision, or 0 where it is
// missing. A row is an operation and its reply, each by its kind, key, document and number. Of the operations, 1 is a put, 2 a removal, 4 a get, 6
// the count, 7 a put on condition of the revision that is its number, 8 a revision. Of the replies, 1 is new, 2 replaced, 3 deleted, 4 absent, 5 a
// document, 11 a number, 12 set, 13 stale, 14 a revision.
static REVISIONS: [(Row, Row); 12] = [
    // on condition that a is missing (0): it is set with revision 1, and the second time it is stale
    ((7, "a", "1", 0), (12, "", "", 1)),
    ((7, "a", "2", 0), (13, "", "", 1)),
    // a plain put gives revision 2
    ((1, "a", "3", 0), (2, "", "", 0)),
    ((8, "a", "", 0), (14, "", "", 2)),
    // on condition of revision 2, which is right: it is set with revision 3
    ((7, "a", "4", 2), (12, "", "", 3)),
    ((4, "a", "", 0), (5, "", "4", 0)),
    // the key is removed: it has no revision, and a put on condition of its old one is stale
    ((2, "a", "", 0), (3, "", "", 0)),
    ((8, "a", "", 0), (4, "", "", 0)),
    ((7, "a", "5", 3), (13, "", "", 0)),
    // it is put again, with revision 4, as revisions go on
    ((1, "a", "5", 0), (1, "", "", 0)),
    ((8, "a", "", 0), (14, "", "", 4)),
    ((6, "", "", 0), (11, "", "", 1)),
];

// Seven lines, filled by a and b. A put that is stale and has no room is answered stale, and a put without room gives no revision. A row is an
// operation and its reply, each by its kind, key, document and number. Of the operations, 1 is a put, 2 a removal, 3 an addition, 7 a put on
// condition of the revision that is its number, 8 a revision. Of the replies, 1 is new, 3 deleted, 6 a sum, 9 no room, 12 set, 13 stale, 14 a
// revision.
static STALE_WITHOUT_ROOM: [(Row, Row); 11] = [
    // a is put with revision 1, and b with revision 2
    ((1, "a", "1", 0), (1, "", "", 0)),
    ((1, "b", "1", 0), (1, "", "", 0)),
    // a new key on condition of revision 1 is stale; on condition that it is missing, there is no room
    ((7, "c", "1", 1), (13, "", "", 0)),
    ((7, "c", "1", 0), (9, "", "", 0)),
    // two lines of document at a, on condition of revision 2: stale, as a has revision 1
    (
        (
            7,
            "a",
            "xxxxxxxxxxxxxxxxxxxxxxxxxxxxxxxxxxxxxxxxxxxxxxxxxxxxxxxxx",
            2,
        ),
        (13, "", "", 1),
    ),
    // on condition of revision 1: no room
    (
        (
            7,
            "a",
            "xxxxxxxxxxxxxxxxxxxxxxxxxxxxxxxxxxxxxxxxxxxxxxxxxxxxxxxxx",
            1,
        ),
        (9, "", "", 0),
    ),
    // a has still revision 1
    ((8, "a", "", 0), (14, "", "", 1)),
    // b makes room for c, which has revision 3, the next one; the addition to a gives revision 4
    ((2, "b", "", 0), (3, "", "", 0)),
    ((7, "c", "1", 0), (12, "", "", 3)),
    ((3, "a", "", 1), (6, "", "", 2)),
    ((8, "a", "", 0), (14, "", "", 4)),
];

// An operation by its kind, key, document and number, and whether it is a reading. Words of no operation, as a get without a key, are none. Kind 1 is
// a put, 2 a removal, 3 an addition, 4 a get, 5 the next key, 6 the count, 7 a put on condition, 8 a revision.
static READINGS: [(Row, bool); 11] = [
    // changes
    ((1, "a", "1", 0), false),
    ((2, "a", "", 0), false),
    ((3, "a", "", 1), false),
    // readings
    ((4, "a", "", 0), true),
    ((5, "", "", 0), true),
    ((6, "", "", 0), true),
    // no operations, as the key is missing
    ((4, "", "", 0), false),
    ((7, "", "", 0), false),
    // a change, a reading, and a reading without its key
    ((7, "a", "1", 4), false),
    ((8, "a", "", 0), true),
    ((8, "", "", 0), false),
];

#[test]
fn commands_have_their_replies(rt: HostRuntime) -> Result<(), Fail> {
    let alloc = rt.alloc();
    holds(&rt, are_answered(alloc, 64, &SUMS)?);
    holds(&rt, are_answered(alloc, 64, &NO_NUMBERS)?);
    holds(&rt, are_answered(alloc, 64, &AT_THE_LIMITS)?);
    holds(&rt, are_answered(alloc, 64, &FULL)?);
    holds(&rt, are_answered(alloc, 7, &SEVEN_LINES)?);
    holds(&rt, are_answered(alloc, 64, &LEAST_KEYS)?);
    holds(&rt, are_answered(alloc, 64, &REVISIONS)?);
    holds(&rt, are_answered(alloc, 7, &STALE_WITHOUT_ROOM)?);
    Ok(())
}

/// Whether `reads` returns for each operation what its row says.
fn are_recognized(store: &DocStore, rows: &[(Row, bool)]) -> bool {
    for (ask, want) in rows {
        if store.reads(&words_of(*ask)) != *want {
            return false;
        }
    }
    true
}

#[test]
fn readings_are_recognized(rt: HostRuntime) {
    let store = DocStore::of(64);
    holds(&rt, are_recognized(&store, &READINGS));
    holds(&rt, store.lines() == 64 && store.version() == 2);
}

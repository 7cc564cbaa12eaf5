//! Images whose words are laid out by hand: one of version 1, and one whose last revision is the greatest.

ghost use Rattle.std.specs.Prelude.{◌≡◌, ◌*◌, IsTrue};
ghost use Rattle.cx_base.specs.Memory.{Always};
ghost use Rattle.doc_store.specs.ExactStep.{IsImageOfStore};

use crate::holds::holds;
use crate::rows::{Row, asked, words_of};
use cx_base::{Memory, Object, VecMemory};
use doc_store::{DocStore, documents};
use std::alloc::{AllocError, Global};
use std::test::Fail;

// Four lines: the header, the node of one pair, the key 'a' and the document '1'. The header has the version, the root, the first line given
// back, the end, how many lines are given back, how many pairs there are, and the last revision; the node has its two children, its height, the
// line and the length of its key and of its document, and its revision.
const FIRST_VERSION: [u64; 32] = [
    1, 1, 0, 4, 0, 1, 0, 0, // the header
    0, 0, 1, 2, 1, 3, 1, 0, // the node
    0, 97, 0, 0, 0, 0, 0, 0, // its key
    0, 49, 0, 0, 0, 0, 0, 0, // its document
];

// What `FIRST_VERSION` is in version 2: revision 1 is that of the pair, and the last one in the header.
const SECOND_VERSION: [u64; 32] = [
    2, 1, 0, 4, 0, 1, 1, 0, // the header
    0, 0, 1, 2, 1, 3, 1, 1, // the node
    0, 97, 0, 0, 0, 0, 0, 0, // its key
    0, 49, 0, 0, 0, 0, 0, 0, // its document
];

/// The words of an image of version 1 after its upgrade to version 2; `None` where it is not a lawful image of version 1.
fn upgraded(
    alloc: Global,
    store: &DocStore,
    image: &[u64],
) -> Result<Option<Vec<u64>>, AllocError> {
    if !store.check_old(alloc, image)? {
        return Ok(None);
    }
    let mut words = Vec::from_slice(alloc, image)?;
    store.upgrade(&mut words);
    Ok(Some(words))
}

/// Whether an image is lawful and has one pair alone: the key `a` and the document `1`, with this revision.
fn has_one(
    alloc: Global,
    store: &DocStore,
    image: &[u64],
    revision: u64,
) -> Result<bool, AllocError> {
    if !store.check(alloc, image)? {
        return Ok(false);
    }
    let pairs = documents(alloc, image)?;
    Ok(match pairs.as_slice() {
        [pair] => pair.key.as_slice() == b"a".as_slice()
            && pair.doc.as_slice() == b"1".as_slice()
            && pair.revision == revision,
        _ => false,
    })
}

#[test]
fn an_image_of_version_1_is_upgraded(rt: HostRuntime) -> Result<(), Fail> {
    let alloc = rt.alloc();
    let store = DocStore::of(4);
    holds(&rt, store.old_version() == Some(1));
    holds(
        &rt,
        !store.check(alloc, &FIRST_VERSION)? && !store.check_old(alloc, &SECOND_VERSION)?,
    );
    let words = upgraded(alloc, &store, &FIRST_VERSION)?;
    holds(
        &rt,
        matches!(&words, Some(words) if words.as_slice() == SECOND_VERSION.as_slice()),
    );
    holds(&rt, has_one(alloc, &store, &SECOND_VERSION, 1)?);
    Ok(())
}

/// Whether the store answers the operation of a row (its first half) by its reply (its second half). The memory holds a lawful image before, and
/// where the answer is `true` also after.
fn is_answered<M: Memory>(store: &DocStore, mem: &mut M, row: &(Row, Row)) -> bool
    requires size { M.size mem.old ≡ 8 * store.now.lines }
    requires writable { IsTrue (M.writable mem.old) }
    requires lawful { Always (M.stands mem.old) (IsImageOfStore store.now.lines) }
    ensures size { M.size mem.new ≡ 8 * store.now.lines }
    ensures writable { IsTrue (M.writable mem.new) }
    ensures lawful { IsTrue result → Always (M.stands mem.new) (IsImageOfStore store.now.lines) }
{
    match asked(store, mem, &words_of(row.0)) {
        Ok(reply) => reply == words_of(row.1),
        Err(_) => false,
    }
}

/// Whether the store answers the operation of each row, one after the other, by its reply. The memory holds a lawful image before.
fn are_answered_in<M: Memory>(store: &DocStore, mem: &mut M, rows: &[(Row, Row)]) -> bool
    requires size { M.size mem.old ≡ 8 * store.now.lines }
    requires writable { IsTrue (M.writable mem.old) }
    requires lawful { Always (M.stands mem.old) (IsImageOfStore store.now.lines) }
{
    for row in rows {
        if !is_answered(store, mem, row) {
            return false;
        }
    }
    true
}

// A row is an operation and its reply, each by its kind, key, document and number. The last revision before is 2^64 - 1: each write gives this
// revision again, as there is none above. Of the operations, 2 is a removal, 7 a put on condition of the revision that is its number, 8 a revision.
// Of the replies, 3 is deleted, 12 set, 13 stale, 14 a revision.
const GREATEST: [(Row, Row); 7] = [
    // the key has revision 1 before, and the greatest one after a put
    ((8, "a", "", 0), (14, "", "", 1)),
    ((7, "a", "2", 1), (12, "", "", 18446744073709551615)),
    ((8, "a", "", 0), (14, "", "", 18446744073709551615)),
    // a put on condition of revision 1 is stale, and one on condition of the greatest is done
    ((7, "a", "3", 1), (13, "", "", 18446744073709551615)),
    (
        (7, "a", "3", 18446744073709551615),
        (12, "", "", 18446744073709551615),
    ),
    // after its removal the key is put again, on condition that it is missing (0)
    ((2, "a", "", 0), (3, "", "", 0)),
    ((7, "a", "4", 0), (12, "", "", 18446744073709551615)),
];

/// Whether `SECOND_VERSION` with `last` as its last revision is a lawful image, and the store answers the operations of rows in it by their replies.
fn are_answered_after(alloc: Global, last: u64, rows: &[(Row, Row)]) -> Result<bool, AllocError> {
    let store = DocStore::of(4);
    let mut words = SECOND_VERSION;
    words[6] = last;
    if !store.check(alloc, &words)? {
        return Ok(false);
    }
    let mut mem = VecMemory::of(Vec::from_slice(alloc, &words)?, None);
    Ok(are_answered_in(&store, &mut mem, rows))
}

#[test]
fn the_greatest_revision_is_given_again(rt: HostRuntime) -> Result<(), Fail> {
    holds(&rt, are_answered_after(rt.alloc(), u64::MAX, &GREATEST)?);
    holds(&rt, !are_answered_after(rt.alloc(), 0, &[])?);
    Ok(())
}

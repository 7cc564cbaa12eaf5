//! Images of which some words are wrong: lies, which have to be found. And the pairs of images without a lie.

use crate::holds::holds;
use doc_model::Pair;
use index_validation::{lawful, pairs_of};
use std::alloc::{AllocError, Global};
use std::test::Fail;
use word_index::upgrade_index;

// Eight letters x.
const XS: u64 = 0x7878_7878_7878_7878;

// Twenty-one lines of version 1 with the pairs a to e, each node before its blocks: b is the root, over a and d, which is over c and
// e. The document of e has two blocks. Two lines are given back: their words behind the first, and the words of the last
// two lines, are not looked at.
//
// The header has the version, the root, the first line given back, the end, how many lines are given back, how many pairs there are, and the last
// revision. A node has its two children, its height, the line and the length of its key and of its document, and its revision.
const IMAGE: [u64; 168] = [
    1, 4, 17, 19, 2, 5, 0, 0, // the header
    0, 0, 1, 2, 1, 3, 1, 0, // a
    0, 0x61, 0, 0, 0, 0, 0, 0, // its key
    0, 0x31, 0, 0, 0, 0, 0, 0, // its document
    1, 10, 3, 5, 1, 6, 1, 0, // b, the root
    0, 0x62, 0, 0, 0, 0, 0, 0, // its key
    0, 0x32, 0, 0, 0, 0, 0, 0, // its document
    0, 0, 1, 8, 1, 9, 1, 0, // c
    0, 0x63, 0, 0, 0, 0, 0, 0, // its key
    0, 0x33, 0, 0, 0, 0, 0, 0, // its document
    7, 13, 2, 11, 1, 12, 1, 0, // d
    0, 0x64, 0, 0, 0, 0, 0, 0, // its key
    0, 0x34, 0, 0, 0, 0, 0, 0, // its document
    0, 0, 1, 14, 1, 15, 57, 0, // e
    0, 0x65, 0, 0, 0, 0, 0, 0, // its key
    16, XS, XS, XS, XS, XS, XS, XS, // its document
    0, 0x78, 0, 0, 0, 0, 0, 0, // goes on
    18, 8, 7, 6, 5, 4, 3, 2, // given back
    0, 1, 2, 3, 4, 5, 6, 7, // given back
    1, 2, 3, 4, 5, 6, 7, 8, // never given
    8, 7, 6, 5, 4, 3, 2, 1, // never given
];

// What is changed of the image: each entry is a line, a place in this line from 0 to 7, and the word that is put there. In line 0, the header, these
// places are 0 version, 1 root, 2 first line given back, 3 end, 4 lines given back, 5 pairs, 6 last revision. In a node they are 0 and 1 children, 2
// height, 3 and 4 the line and the length of the key, 5 and 6 those of the document, 7 revision.
type Lie = &'static [(usize, usize, u64)];

// What makes the image one of version 2: each pair has revision 1, which is the last one given. An entry is a line, a place in it and its word.
const UPGRADE: Lie = &[
    (0, 0, 2),
    (0, 6, 1),
    (1, 7, 1),
    (4, 7, 1),
    (7, 7, 1),
    (10, 7, 1),
    (13, 7, 1),
];

// Lies in the header, of both versions. An entry is a line, a place in it and the word put there. The header is line 0. Its places are 1 for the
// root, 3 for the end, 5 for how many pairs there are, and 7, which has to be 0.
static HEADERS: [Lie; 17] = [
    // no root
    &[(0, 1, 0)],
    // no root, and no pair is counted
    &[(0, 1, 0), (0, 5, 0)],
    // the root is a block
    &[(0, 1, 2)],
    // the root is a child
    &[(0, 1, 10)],
    // the root is a child, and its pairs are counted
    &[(0, 1, 10), (0, 5, 3)],
    // the root is past the end
    &[(0, 1, 19)],
    // the root is past the words
    &[(0, 1, 21)],
    // the root times eight is past 64 bits
    &[(0, 1, 0x2000_0000_0000_0001)],
    // the end is 0
    &[(0, 3, 0)],
    // the end is before a line in use
    &[(0, 3, 18)],
    // the end is behind a line never given
    &[(0, 3, 20)],
    // the end is past the words
    &[(0, 3, 22)],
    // the end is the last number
    &[(0, 3, u64::MAX)],
    // a pair too few is counted
    &[(0, 5, 4)],
    // a pair too many is counted
    &[(0, 5, 6)],
    // pairs without end are counted
    &[(0, 5, u64::MAX)],
    // a seventh word
    &[(0, 7, 1)],
];

// Changes of the image that are lies in version 1 alone. An entry is a line, a place in it and the word put there. Place 0 of line 0 is the version,
// and place 6 the last revision. The nodes are in lines 1, 4, 7, 10 and 13, each with its revision at place 7.
static FIRST_VERSION: [Lie; 7] = [
    // another version
    &[(0, 0, 2)],
    // no version
    &[(0, 0, 0)],
    // a last revision
    &[(0, 6, 1)],
    // a revision
    &[(4, 7, 1)],
    // a last revision, and the revision of the first node
    &[(0, 6, 1), (1, 7, 1)],
    // all revisions
    &[
        (0, 6, 1),
        (1, 7, 1),
        (4, 7, 1),
        (7, 7, 1),
        (10, 7, 1),
        (13, 7, 1),
    ],
    // the greatest last revision
    &[(0, 6, u64::MAX)],
];

// Changes of the image that are lies in version 2 alone. An entry is a line, a place in it and the word put there. Place 0 of line 0 is the version,
// and place 6 the last revision. The nodes are in lines 1, 4, 7, 10 and 13, each with its revision at place 7.
static SECOND_VERSION: [Lie; 13] = [
    // another version
    &[(0, 0, 1)],
    // a version that never was
    &[(0, 0, 3)],
    // no revision was given
    &[(0, 6, 0)],
    // a revision of 0, at each node
    &[(1, 7, 0)],
    &[(4, 7, 0)],
    &[(7, 7, 0)],
    &[(10, 7, 0)],
    &[(13, 7, 0)],
    // a revision behind the last one given, at a leaf, at the root and at the last node
    &[(1, 7, 2)],
    &[(4, 7, 2)],
    &[(13, 7, 2)],
    // the greatest revision, behind the last one given
    &[(0, 6, u64::MAX - 1), (7, 7, u64::MAX)],
    // revisions of version 1
    &[
        (0, 6, 0),
        (1, 7, 0),
        (4, 7, 0),
        (7, 7, 0),
        (10, 7, 0),
        (13, 7, 0),
    ],
];

// Changes of the image that are no lies in version 2. An entry is a line, a place in it and the word put there. Place 6 of line 0 is the last
// revision. The nodes are in lines 1, 4, 7, 10 and 13, each with its revision at place 7.
static REVISIONS: [Lie; 4] = [
    // revisions up to the last one given
    &[
        (0, 6, 9),
        (1, 7, 9),
        (4, 7, 1),
        (7, 7, 3),
        (10, 7, 2),
        (13, 7, 5),
    ],
    // a last revision that no pair has
    &[(0, 6, 2)],
    // two pairs with one revision, and the greatest one
    &[(0, 6, u64::MAX), (1, 7, u64::MAX), (13, 7, u64::MAX)],
    // another word of a given-back line
    &[(17, 7, 0), (18, 7, u64::MAX)],
];

// Lies in the children and heights of nodes, of both versions. An entry is a line, a place in it and the word put there. The nodes of a to e are in
// lines 1, 4, 7, 10 and 13, each with its children at places 0 and 1 and its height at place 2. Line 0 has the root at place 1, the first line given
// back at place 2, how many are given back at place 4, and how many pairs there are at place 5.
static TREES: [Lie; 25] = [
    // a leaf of height 0
    &[(1, 2, 0)],
    // a leaf of height 2
    &[(1, 2, 2)],
    // a leaf of the last height
    &[(1, 2, u64::MAX)],
    // a root too low
    &[(4, 2, 2)],
    // a root too high
    &[(4, 2, 4)],
    // a root 65 high
    &[(4, 2, 65)],
    // a root of the last height
    &[(4, 2, u64::MAX)],
    // a node without its height
    &[(10, 2, 1), (4, 2, 2)],
    // a root two higher at the right
    &[
        // the left child of b is gone, and 4 pairs are counted
        (4, 0, 0),
        (0, 5, 4),
        // the three lines of the child are given back: the list of such lines begins with them
        (0, 2, 1),
        (1, 0, 2),
        (2, 0, 3),
        (3, 0, 17),
        (0, 4, 5),
    ],
    // a root two higher at the left
    &[
        // d is the root, over b alone, which is over a and c: 4 pairs
        (0, 1, 10),
        (10, 0, 4),
        (10, 1, 0),
        (10, 2, 3),
        (4, 1, 7),
        (4, 2, 2),
        (0, 5, 4),
        // the four lines of e are given back: the list of such lines begins with them
        (0, 2, 13),
        (13, 0, 14),
        (14, 0, 15),
        (15, 0, 16),
        (16, 0, 17),
        (0, 4, 6),
    ],
    // a root is its own child
    &[(4, 0, 4)],
    // a root is its grandchild
    &[(10, 0, 4)],
    // a root is its grandchild, and pairs without end are counted
    &[(10, 0, 4), (0, 5, u64::MAX)],
    // a root is its grandchild, and as many pairs are counted as there can be
    &[(10, 0, 4), (0, 5, 18)],
    // a leaf is its own child, and of the last height
    &[(1, 0, 1), (1, 2, u64::MAX)],
    // a shared child
    &[(10, 0, 13)],
    // a shared child, and the lines of the other are given back
    &[
        // e is the left child of d too
        (10, 0, 13),
        // the three lines of c are given back
        (0, 2, 7),
        (7, 0, 8),
        (8, 0, 9),
        (9, 0, 17),
        (0, 4, 5),
    ],
    // a shared subtree
    &[(4, 0, 10), (0, 5, 7)],
    // a child that is in the tree elsewhere
    &[(7, 0, 1), (7, 2, 2), (10, 2, 3), (4, 2, 4), (0, 5, 6)],
    // a node is not reached
    &[
        // b is over d alone, which has no child
        (4, 0, 0),
        (10, 0, 0),
        (10, 1, 0),
        (10, 2, 1),
        (4, 2, 2),
        (0, 5, 2),
    ],
    // a child is a block
    &[(4, 0, 2)],
    // a child is a given-back line
    &[(1, 0, 17)],
    // a child was never given
    &[(1, 0, 19)],
    // a child is past the words
    &[(1, 0, 21)],
    // a child times eight is past 64 bits
    &[(1, 0, 0x2000_0000_0000_0001)],
];

// Lies in the order of keys, and in which lines are a key's or a document's, of both versions. An entry is a line, a place in it and the word put
// there. The nodes of a to e are in lines 1, 4, 7, 10 and 13, each with the line and the length of its key at places 3 and 4, and those of its
// document at places 5 and 6. The key's line is the next one, with its first bytes at place 1.
static PAIRS: [Lie; 12] = [
    // equal keys, of a node and its child
    &[(2, 1, 0x62)],
    // equal keys at a distance
    &[(8, 1, 0x62)],
    // children the other way round
    &[(10, 0, 13), (10, 1, 7)],
    // a key above its parent's at the left
    &[(8, 1, 0x7A)],
    // a key below its parent's at the right
    &[(14, 1, 0x41)],
    // a key out of order at a distance
    &[(8, 1, 0x41)],
    // a key out of order at the same distance from the other side
    &[
        // d is the root, over b and e, and the key of c, at the right of b, is z
        (0, 1, 10),
        (10, 0, 4),
        (10, 2, 3),
        (4, 1, 7),
        (4, 2, 2),
        (8, 1, 0x7A),
    ],
    // a key before the one that it goes on from
    &[(2, 1, 0x6261), (1, 4, 2), (5, 1, 0x61)],
    // both keys in one block
    &[(4, 3, 2)],
    // the key's block is the document's
    &[(1, 5, 2)],
    // the document's block is a node
    &[(1, 5, 7)],
    // the document's block is given back
    &[(1, 5, 17)],
];

// Lies in the bytes and lengths of keys and documents, of both versions. An entry is a line, a place in it and the word put there. A node, as in
// lines 1 and 13, has the line and the length of its key at places 3 and 4, and those of its document at places 5 and 6. A line of bytes has the line
// that it goes on in at place 0, and its bytes behind.
static TEXTS: [Lie; 18] = [
    // an empty key
    &[(1, 3, 0), (1, 4, 0)],
    // a key of 65 bytes
    &[(1, 4, 65)],
    // a key without end
    &[(1, 4, u64::MAX)],
    // a key with a byte more than its length
    &[(2, 1, 0x6261)],
    // a key with a byte less than its length
    &[(1, 4, 2)],
    // a key with a space
    &[(2, 1, 0x20)],
    // a key with a byte above the visible ones
    &[(14, 1, 0x7F)],
    // an empty document
    &[(1, 5, 0), (1, 6, 0)],
    // a document of 1,025 bytes
    &[(13, 6, 1025)],
    // a document without end
    &[(13, 6, u64::MAX)],
    // a document with a block too many
    &[(13, 6, 56)],
    // a document with a block too few
    &[(13, 6, 113)],
    // a document with a control character
    &[(3, 1, 0x1F)],
    // a document with an unused word
    &[(16, 7, 1)],
    // a document with an unused byte
    &[(16, 1, 0x7878)],
    // a block that follows itself
    &[(16, 0, 16)],
    // blocks in a ring
    &[(16, 0, 15), (13, 6, 1024)],
    // a block is the header
    &[(1, 3, 0)],
];

// Lies in the lines that are given back, of both versions. An entry is a line, a place in it and the word put there. Line 0 has the first line given
// back at place 2 and how many there are at place 4. Each of them, lines 17 and 18, has the next one at place 0.
static GIVEN_BACK: [Lie; 8] = [
    // no given-back line
    &[(0, 2, 0)],
    // no given-back line is counted
    &[(0, 4, 0)],
    // a given-back line too many is counted
    &[(0, 4, 3)],
    // given-back lines without end are counted
    &[(0, 4, u64::MAX)],
    // given-back lines in a ring
    &[(18, 0, 17), (0, 4, u64::MAX)],
    // a given-back line is missed
    &[(17, 0, 0), (0, 4, 1)],
    // a given-back line is in use
    &[(17, 0, 3), (0, 4, 3)],
    // a given-back line was never given
    &[(18, 0, 19), (0, 4, 3)],
];

// Changes of the image that are no lies, of both versions. An entry is a line, a place in it and the word put there.
static TRUTHS: [Lie; 7] = [
    // nothing is changed
    &[],
    // another word of a given-back line
    &[(17, 1, u64::MAX), (18, 7, 0)],
    // a word of a line never given
    &[(19, 0, 1), (20, 7, u64::MAX)],
    // a key that goes on from the one before
    &[(14, 1, 0x6564), (13, 4, 2)],
    // the last bytes that a key and a document may have
    &[(14, 1, 0x7E), (3, 1, 0xFF)],
    // the given-back lines in another order
    &[(0, 2, 18), (18, 0, 17), (17, 0, 0)],
    // the pairs in another tree
    &[(0, 1, 10), (10, 0, 4), (10, 2, 3), (4, 1, 7), (4, 2, 2)],
];

// Changes words as a lie says, and returns `false` where there is no such line or word.
fn tell(words: &mut [u64; 168], lie: Lie) -> bool {
    for (line, place, word) in lie {
        if *line >= 21 || *place >= 8 {
            return false;
        }
        words[8 * *line + *place] = *word;
    }
    true
}

// The words of the image in a version, with a lie in them; `None` where the lie names a line or a word that there is not.
fn with_lie(version: u64, lie: Lie) -> Option<[u64; 168]> {
    let mut words = IMAGE;
    if version != 1 && !tell(&mut words, UPGRADE) {
        return None;
    }
    if !tell(&mut words, lie) {
        return None;
    }
    Some(words)
}

// Whether `lawful` finds the first `count` words of the image in a version, with a lie in them, lawful. The image has 168 words. The answer is `None`
// where `count` is above that, or the lie names a word that there is not.
fn is_lawful(
    alloc: Global,
    version: u64,
    lie: Lie,
    count: usize,
) -> Result<Option<bool>, AllocError> {
    match with_lie(version, lie) {
        Some(words) if count <= 168 => Ok(Some(lawful(alloc, &words[..count], version)?)),
        _ => Ok(None),
    }
}

// The number of the first lie with which `lawful` does not return `truth` in a version; `None` where there is none.
fn first_other_lie(
    alloc: Global,
    version: u64,
    lies: &[Lie],
    truth: bool,
) -> Result<Option<usize>, AllocError> {
    for (i, lie) in lies.iter().enumerate() {
        if is_lawful(alloc, version, lie, 168)? != Some(truth) {
            return Ok(Some(i));
        }
    }
    Ok(None)
}

// How many words of the image there are, and whether they are lawful.
const COUNTS: [(usize, bool); 11] = [
    // fewer than the nineteen lines in use
    (0, false),
    (1, false),
    (7, false),
    (8, false),
    (144, false),
    (151, false),
    // these lines, and with them one line or two more, whole or not
    (152, true),
    (153, false),
    (160, true),
    (167, false),
    (168, true),
];

// The number of the first row, a count of words and whether they are lawful, of which `lawful` does not say so; `None` where there is none.
fn first_other_count(
    alloc: Global,
    version: u64,
    rows: &[(usize, bool)],
) -> Result<Option<usize>, AllocError> {
    for (i, (count, truth)) in rows.iter().enumerate() {
        if is_lawful(alloc, version, &[], *count)? != Some(*truth) {
            return Ok(Some(i));
        }
    }
    Ok(None)
}

// Whether in a version each lie of both versions is found, and no image without a lie is refused.
fn are_judged(alloc: Global, version: u64) -> Result<bool, AllocError> {
    Ok(
        first_other_lie(alloc, version, &HEADERS, false)?.is_none()
            && first_other_lie(alloc, version, &TREES, false)?.is_none()
            && first_other_lie(alloc, version, &PAIRS, false)?.is_none()
            && first_other_lie(alloc, version, &TEXTS, false)?.is_none()
            && first_other_lie(alloc, version, &GIVEN_BACK, false)?.is_none()
            && first_other_lie(alloc, version, &TRUTHS, true)?.is_none()
            && first_other_count(alloc, version, &COUNTS)?.is_none(),
    )
}

#[test]
fn lies_are_found(rt: HostRuntime) -> Result<(), Fail> {
    let alloc = rt.alloc();
    holds(&rt, are_judged(alloc, 1)?);
    holds(&rt, are_judged(alloc, 2)?);
    Ok(())
}

#[test]
fn each_version_has_its_own_lies(rt: HostRuntime) -> Result<(), Fail> {
    let alloc = rt.alloc();
    holds(
        &rt,
        first_other_lie(alloc, 1, &FIRST_VERSION, false)?.is_none(),
    );
    holds(
        &rt,
        first_other_lie(alloc, 2, &SECOND_VERSION, false)?.is_none(),
    );
    holds(&rt, first_other_lie(alloc, 2, &REVISIONS, true)?.is_none());
    Ok(())
}

// A row: a version that never was, and the entries (a line, a place in it, and its word) that give the image this version. The revisions are those of
// version 2 or, in the last row, of version 1.
const NO_VERSION: [(u64, Lie); 4] = [
    (0, &[(0, 0, 0)]),
    (3, &[(0, 0, 3)]),
    (u64::MAX, &[(0, 0, u64::MAX)]),
    (
        0,
        &[
            (0, 0, 0),
            (0, 6, 0),
            (1, 7, 0),
            (4, 7, 0),
            (7, 7, 0),
            (10, 7, 0),
            (13, 7, 0),
        ],
    ),
];

// The number of the first row whose words `lawful` does not refuse in the version of the row; `None` where there is none.
fn first_of_no_version(alloc: Global, rows: &[(u64, Lie)]) -> Result<Option<usize>, AllocError> {
    for (i, (version, lie)) in rows.iter().enumerate() {
        if is_lawful(alloc, *version, lie, 168)? != Some(false) {
            return Ok(Some(i));
        }
    }
    Ok(None)
}

#[test]
fn there_is_no_other_version(rt: HostRuntime) -> Result<(), Fail> {
    holds(&rt, first_of_no_version(rt.alloc(), &NO_VERSION)?.is_none());
    Ok(())
}

// Whether `words` are lawful in version 1, and are the words `wanted` of version 2 after the upgrade.
fn becomes(alloc: Global, words: &mut [u64], wanted: &[u64]) -> Result<bool, AllocError> {
    if !lawful(alloc, words, 1)? {
        return Ok(false);
    }
    upgrade_index(words);
    Ok(&*words == wanted)
}

// The number of the first change in `truths` with which the words of version 1 are not upgraded to those of version 2; `None` where there is none.
fn first_other_upgrade(alloc: Global, truths: &[Lie]) -> Result<Option<usize>, AllocError> {
    for (i, truth) in truths.iter().enumerate() {
        let (Some(mut words), Some(wanted)) = (with_lie(1, truth), with_lie(2, truth)) else {
            return Ok(Some(i));
        };
        if !becomes(alloc, &mut words, &wanted)? {
            return Ok(Some(i));
        }
    }
    Ok(None)
}

#[test]
fn words_are_upgraded(rt: HostRuntime) -> Result<(), Fail> {
    let alloc = rt.alloc();
    holds(&rt, first_other_upgrade(alloc, &TRUTHS)?.is_none());
    // where there are no pairs too, 1 is the last revision
    holds(
        &rt,
        becomes(
            alloc,
            &mut [1, 0, 0, 1, 0, 0, 0, 0],
            &[2, 0, 0, 1, 0, 0, 1, 0],
        )?,
    );
    Ok(())
}

// The pairs of the image, each a key and its document, in the order of their keys.
const LISTED: [(&[u8], &[u8]); 5] = [
    (b"a", b"1"),
    (b"b", b"2"),
    (b"c", b"3"),
    (b"d", b"4"),
    (b"e", &[b'x'; 57]),
];

// Whether the image in version 2, with a lie in it, is lawful and has the pairs `rows`, each a key and its document, with these revisions.
fn lists(
    alloc: Global,
    lie: Lie,
    rows: &[(&[u8], &[u8])],
    revisions: &[u64],
) -> Result<bool, AllocError> {
    let Some(words) = with_lie(2, lie) else {
        return Ok(false);
    };
    if !lawful(alloc, &words, 2)? {
        return Ok(false);
    }
    let pairs = pairs_of(alloc, &words)?;
    Ok(pairs.len() == rows.len() && are_listed(&pairs, rows) && have_revisions(&pairs, revisions))
}

// Whether the pairs have the keys and documents of `rows`, in this order, as far as there are both.
fn are_listed(pairs: &[Pair], rows: &[(&[u8], &[u8])]) -> bool {
    for (pair, (key, document)) in pairs.iter().zip(rows) {
        if pair.key.as_slice() != *key || pair.doc.as_slice() != *document {
            return false;
        }
    }
    true
}

// Whether the pairs have these revisions, in this order, as far as there are both.
fn have_revisions(pairs: &[Pair], revisions: &[u64]) -> bool {
    for (pair, revision) in pairs.iter().zip(revisions) {
        if pair.revision != *revision {
            return false;
        }
    }
    true
}

// Both trees of the pairs list them in the order of their keys, each with its revision.
#[test]
fn pairs_are_listed_in_order(rt: HostRuntime) -> Result<(), Fail> {
    let alloc = rt.alloc();
    // the image as it is, with its pairs in another tree, and with other revisions
    holds(&rt, lists(alloc, TRUTHS[0], &LISTED, &[1; 5])?);
    holds(&rt, lists(alloc, TRUTHS[6], &LISTED, &[1; 5])?);
    holds(&rt, lists(alloc, REVISIONS[0], &LISTED, &[9, 1, 3, 2, 5])?);
    Ok(())
}

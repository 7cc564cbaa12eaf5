//! How many accesses of the memory operations take, by the number of keys.

ghost use Rattle.std.specs.Prelude.{◌≡◌, ◌*◌, ◌^◌, ◌≤◌, IsTrue, IfOk, OnOk};
ghost use Rattle.cx_base.specs.Memory.{Always};
ghost use Rattle.doc_store.specs.ExactStep.{IsImageOfStore};

use crate::counted::{Counting, counted_words};
use crate::holds::holds;
use crate::mixed::digit;
use crate::rows::{LETTERS, asked, laid_out, opened};
use cx_base::{Halt, Memory, VecMemory};
use doc_store::DocStore;
use std::alloc::{AllocError, Global};
use std::test::Fail;

/// The kind of a put.
pub(crate) const PUT: u64 = 1;

/// The kind of a removal.
pub(crate) const DEL: u64 = 2;

/// The kind of a get.
const GET: u64 = 4;

/// The n-th key of 16 bytes: the letter k, and the last 15 decimal digits of `n`, with zeros before.
pub(crate) fn key_of(n: u64) -> [u8; 16] {
    let mut key = *b"k000000000000000";
    let mut rest = n;
    for i in 0..15 {
        key[15 - i] = digit(rest);
        rest /= 10;
    }
    key
}

/// The words of an operation of this kind on the n-th key of 16 bytes, with this document, or with none where it is empty.
pub(crate) fn on_key(kind: u64, n: u64, document: &[u8]) -> [u64; 144] {
    laid_out(kind, &key_of(n), document, 0)
}

/// Puts the keys of the numbers from `from` on to before `to`, in rising order, each with a document of 16 letters. The memory holds a lawful image
/// before, and unless it halts also after.
fn put_rising<M: Memory>(store: &DocStore, mem: &mut M, from: u64, to: u64) -> Result<(), Halt>
    requires size { M.size mem.old ≡ 8 * store.now.lines }
    requires writable { IsTrue (M.writable mem.old) }
    requires lawful { Always (M.stands mem.old) (IsImageOfStore store.now.lines) }
    ensures size { M.size mem.new ≡ 8 * store.now.lines }
    ensures writable { IsTrue (M.writable mem.new) }
    ensures lawful { OnOk result (Always (M.stands mem.new) (IsImageOfStore store.now.lines)) }
{
    for n in from..to {
        asked(store, mem, &on_key(PUT, n, &LETTERS[..16]))?;
    }
    Ok(())
}

/// The most loads that a get of one of the first `keys` keys takes, after they are put in rising order into the empty store.
fn most_loads<M: Memory>(store: &DocStore, mem: &mut Counting<M>, keys: u64) -> Result<u64, Halt>
    requires size { M.size mem.old.inner ≡ 8 * store.now.lines }
    requires writable { IsTrue (M.writable mem.old.inner) }
{
    opened(store, mem)?;
    put_rising(store, mem, 0, keys)?;
    let mut most = 0;
    for n in 0..keys {
        // the loads up to this get, which are taken off
        let before = mem.loads;
        asked(store, mem, &on_key(GET, n, b""))?;
        most = most.max(mem.loads.saturating_sub(before));
    }
    Ok(most)
}

/// The height of the root that the header of an image names: word 1 of the header is the root's line, and word 2 of this line is the height. It is
/// `None` where there are not words enough.
fn height_in(words: &[u64]) -> Option<u64> {
    let root = *words.get(1)?;
    words
        .get(root.saturating_mul(8).saturating_add(2) as usize)
        .copied()
}

/// Whether each get among `keys` rising keys loads no more words than `limit`; `false` also where the memory halts.
fn loads_few<M: Memory>(store: &DocStore, mem: &mut Counting<M>, keys: u64, limit: u64) -> bool
    requires size { M.size mem.old.inner ≡ 8 * store.now.lines }
    requires writable { IsTrue (M.writable mem.old.inner) }
{
    match most_loads(store, mem, keys) {
        Ok(most) => most <= limit,
        Err(Halt) => false,
    }
}

/// Whether the tree in a memory has this height.
pub(crate) fn has_height(mem: Counting<VecMemory>, height: u64) -> bool {
    height_in(&mem.inner.into_words()) == Some(height)
}

#[test]
fn a_get_among_1023_rising_keys_loads_few_words(rt: HostRuntime) -> Result<(), Fail> {
    let mut mem = counted_words(rt.alloc(), 4096)?;
    // 1 load of the root's line; at each of at most 21 nodes 5 loads: a link, the line of the key, its length and its two words; and 4 loads of the
    // document's line, its length and its two words
    holds(
        &rt,
        loads_few(&DocStore::of(4096), &mut mem, 1023, 1 + 5 * 21 + 4),
    );
    // the tree of 2^10 - 1 rising keys is full
    holds(&rt, has_height(mem, 10));
    Ok(())
}

/// A row: how many keys are put before, in rising order; the operation's kind, the number of its key, and its document; and four limits of its
/// accesses: the most loads, the least stores, the most stores, and the most loads and stores together.
type Limited = (u64, u64, u64, &'static [u8], [u64; 4]);

/// What stands in a row for a number without a limit.
const NO_LIMIT: u64 = u64::MAX;

// The columns: how many keys are put before, the operation's kind, its key, its document, and the limits: the most loads, the least stores, the most
// stores, and the most of both. Each operation visits at most 7, 14, 20 and 25 nodes: the greatest v with 2^v <= 2 * (n + 1)^2. A get loads at most
// 5 v + 10 words and stores none, and a change has at most 8 v + 64 accesses.
static GROWING: [Limited; 20] = [
    // over 10 keys: a new key is put
    (
        10,
        PUT,
        10,
        b"xxxxxxxxxxxxxxxx",
        [NO_LIMIT, 0, NO_LIMIT, 120],
    ),
    // one of the keys is removed, and put again
    (10, DEL, 5, b"", [NO_LIMIT, 0, NO_LIMIT, 120]),
    (
        10,
        PUT,
        5,
        b"xxxxxxxxxxxxxxxx",
        [NO_LIMIT, 0, NO_LIMIT, 120],
    ),
    // it is got, and the new key is removed
    (10, GET, 5, b"", [45, 0, 0, NO_LIMIT]),
    (10, DEL, 10, b"", [NO_LIMIT, 0, NO_LIMIT, 120]),
    // over 100 keys: a new key is put
    (
        100,
        PUT,
        100,
        b"xxxxxxxxxxxxxxxx",
        [NO_LIMIT, 0, NO_LIMIT, 176],
    ),
    // one of the keys is removed, and put again
    (100, DEL, 50, b"", [NO_LIMIT, 0, NO_LIMIT, 176]),
    (
        100,
        PUT,
        50,
        b"xxxxxxxxxxxxxxxx",
        [NO_LIMIT, 0, NO_LIMIT, 176],
    ),
    // it is got, and the new key is removed
    (100, GET, 50, b"", [80, 0, 0, NO_LIMIT]),
    (100, DEL, 100, b"", [NO_LIMIT, 0, NO_LIMIT, 176]),
    // over 1,000 keys: a new key is put
    (
        1000,
        PUT,
        1000,
        b"xxxxxxxxxxxxxxxx",
        [NO_LIMIT, 0, NO_LIMIT, 224],
    ),
    // one of the keys is removed, and put again
    (1000, DEL, 500, b"", [NO_LIMIT, 0, NO_LIMIT, 224]),
    (
        1000,
        PUT,
        500,
        b"xxxxxxxxxxxxxxxx",
        [NO_LIMIT, 0, NO_LIMIT, 224],
    ),
    // it is got, and the new key is removed
    (1000, GET, 500, b"", [110, 0, 0, NO_LIMIT]),
    (1000, DEL, 1000, b"", [NO_LIMIT, 0, NO_LIMIT, 224]),
    // over 5,000 keys: a new key is put
    (
        5000,
        PUT,
        5000,
        b"xxxxxxxxxxxxxxxx",
        [NO_LIMIT, 0, NO_LIMIT, 264],
    ),
    // one of the keys is removed, and put again
    (5000, DEL, 2500, b"", [NO_LIMIT, 0, NO_LIMIT, 264]),
    (
        5000,
        PUT,
        2500,
        b"xxxxxxxxxxxxxxxx",
        [NO_LIMIT, 0, NO_LIMIT, 264],
    ),
    // it is got, and the new key is removed
    (5000, GET, 2500, b"", [135, 0, 0, NO_LIMIT]),
    (5000, DEL, 5000, b"", [NO_LIMIT, 0, NO_LIMIT, 264]),
];

// Puts over the document of one of five keys, one after the other. Each put stores its revision in two words. The columns: how many keys are put
// before, the operation's kind, its key, its document, and the limits: the most loads, the least stores, the most stores, and the most of both.
static OVER: [Limited; 4] = [
    // 100 letters in place of 16
    (
        5,
        PUT,
        3,
        b"xxxxxxxxxxxxxxxxxxxxxxxxxxxxxxxxxxxxxxxxxxxxxxxxxxxxxxxxxxxxxxxxxxxxxxxxxxxxxxxxxxxxxxxxxxxxxxxxxxxx",
        [NO_LIMIT, 14, NO_LIMIT, NO_LIMIT],
    ),
    // the same letters again
    (
        5,
        PUT,
        3,
        b"xxxxxxxxxxxxxxxxxxxxxxxxxxxxxxxxxxxxxxxxxxxxxxxxxxxxxxxxxxxxxxxxxxxxxxxxxxxxxxxxxxxxxxxxxxxxxxxxxxxx",
        [NO_LIMIT, 2, 2, NO_LIMIT],
    ),
    // other letters, in 13 words
    (
        5,
        PUT,
        3,
        b"yyyyyyyyyyyyyyyyyyyyyyyyyyyyyyyyyyyyyyyyyyyyyyyyyyyyyyyyyyyyyyyyyyyyyyyyyyyyyyyyyyyyyyyyyyyyyyyyyyyy",
        [NO_LIMIT, 15, 15, NO_LIMIT],
    ),
    // four letters more in the last of these words, and another length
    (
        5,
        PUT,
        3,
        b"yyyyyyyyyyyyyyyyyyyyyyyyyyyyyyyyyyyyyyyyyyyyyyyyyyyyyyyyyyyyyyyyyyyyyyyyyyyyyyyyyyyyyyyyyyyyyyyyyyyyyyyy",
        [NO_LIMIT, 4, 4, NO_LIMIT],
    ),
];

/// Whether an operation with this many loads and stores is within `limits`: the most loads, the least stores, the most stores, the most of both.
fn are_within(loads: u64, stores: u64, limits: &[u64; 4]) -> bool {
    let [most_loads, least_stores, most_stores, most] = *limits;
    loads <= most_loads
        && stores >= least_stores
        && stores <= most_stores
        && loads.saturating_add(stores) <= most
}

/// Puts the keys that a row wants, from number `there` on, and returns whether the accesses of its operation are within its limits. The memory holds
/// a lawful image before, and unless it halts also after.
fn is_limited<M: Memory>(
    store: &DocStore,
    mem: &mut Counting<M>,
    there: u64,
    row: &Limited,
) -> Result<bool, Halt>
    requires size { M.size mem.old.inner ≡ 8 * store.now.lines }
    requires writable { IsTrue (M.writable mem.old.inner) }
    requires lawful { Always (M.stands mem.old.inner) (IsImageOfStore store.now.lines) }
    ensures size { M.size mem.new.inner ≡ 8 * store.now.lines }
    ensures writable { IsTrue (M.writable mem.new.inner) }
    ensures lawful { IfOk result (λ _. Always (M.stands mem.new.inner) (IsImageOfStore store.now.lines)) }
{
    let (keys, kind, n, document, limits) = row;
    put_rising(store, mem, there, *keys)?;
    // the counts before the operation
    let (loads, stores) = (mem.loads, mem.stores);
    asked(store, mem, &on_key(*kind, *n, document))?;
    Ok(are_within(
        mem.loads.saturating_sub(loads),
        mem.stores.saturating_sub(stores),
        limits,
    ))
}

/// Whether each row's operation is within its limits, where the store is empty before the first row, and each row finds what those before it left.
fn are_within_limits<M: Memory>(
    store: &DocStore,
    mem: &mut Counting<M>,
    rows: &[Limited],
) -> Result<bool, Halt>
    requires size { M.size mem.old.inner ≡ 8 * store.now.lines }
    requires writable { IsTrue (M.writable mem.old.inner) }
{
    opened(store, mem)?;
    // how many keys were put for the rows before
    let mut there = 0;
    for row in rows {
        if !is_limited(store, mem, there, row)? {
            return Ok(false);
        }
        there = row.0;
    }
    Ok(true)
}

/// Whether each row's operation is within its limits, in a store of `lines` lines that is empty before; `false` also where the memory halts.
fn are_limited(alloc: Global, lines: u64, rows: &[Limited]) -> Result<bool, AllocError>
    requires some { 1 ≤ lines }
    requires few { lines ≤ 2 ^ 14 }
{
    let mut mem = counted_words(alloc, lines)?;
    Ok(are_within_limits(&DocStore::of(lines), &mut mem, rows).unwrap_or(false))
}

#[test]
fn accesses_grow_as_visits_do(rt: HostRuntime) -> Result<(), Fail> {
    holds(&rt, are_limited(rt.alloc(), 16_384, &GROWING)?);
    Ok(())
}

#[test]
fn a_put_over_as_many_lines_stores_what_differs(rt: HostRuntime) -> Result<(), Fail> {
    holds(&rt, are_limited(rt.alloc(), 64, &OVER)?);
    Ok(())
}

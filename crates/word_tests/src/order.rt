//! Every order in which seven keys can be put in and taken out, with a look at the image after each command.

ghost use Rattle.std.specs.Prelude.{IsTrue, IfOk};
ghost use Rattle.doc_store.specs.ExactStep.{IsImageOfStore};

use crate::holds::holds;
use crate::mixed::accesses;
use crate::rows::{laid_out, memory, opened};
use cx_base::{Object, VecMemory};
use doc_model::Pair;
use doc_store::{DocStore, documents};
use std::alloc::{AllocError, Global};
use std::test::Fail;

/// The keys, in rising order.
const KEYS: [&str; 7] = ["a", "b", "c", "d", "e", "f", "g"];

/// The places of the keys in rising order.
const RISING: [usize; 7] = [0, 1, 2, 3, 4, 5, 6];

/// The kind of a put.
const PUT: u64 = 1;

/// The kind of a removal.
const DEL: u64 = 2;

/// The kind of the count of pairs.
const COUNT: u64 = 6;

/// The kind of a reply that a key is new.
const NEW: u64 = 1;

/// The kind of a reply that a key is deleted.
const DELETED: u64 = 3;

/// The kind of a reply that is a number.
const NUMBER: u64 = 11;

/// Takes a place out of a list: what is behind it moves forward by one place.
fn take_out(rest: &mut [usize; 7], at: usize) {
    for i in at..6 {
        rest[i] = rest[i + 1];
    }
}

/// The n-th of the 5,040 orders of the numbers 0 to 6, counted from 0.
fn order_of(n: u64) -> [usize; 7] {
    // the numbers that have no place yet, in rising order
    let mut rest = RISING;
    let mut order = [0; 7];
    let mut n = n;
    for i in 0..7 {
        // how many numbers are left: what remains of n chooses one of them
        let choices = 7 - i as u64;
        let at = (n % choices) as usize;
        n /= choices;
        order[i] = rest[at];
        take_out(&mut rest, at);
    }
    order
}

/// Whether there is a pair, and it is of this key, which is also its document.
fn is_pair(pair: Option<&Pair>, key: &[u8]) -> bool {
    match pair {
        Some(pair) => pair.key.as_slice() == key && pair.doc.as_slice() == key,
        None => false,
    }
}

/// Whether pairs are exactly those of the keys that are there, in rising order, each with the key as its document. Of key number i, `there` says at
/// place i whether it is there.
fn are_pairs(pairs: &[Pair], there: &[bool; 7]) -> bool {
    // how many pairs have been found to be right
    let mut found = 0usize;
    for (key, there) in KEYS.iter().zip(there) {
        if *there {
            if !is_pair(pairs.get(found), key.as_bytes()) {
                return false;
            }
            found = found.saturating_add(1);
        }
    }
    found == pairs.len()
}

/// Whether an image is lawful and holds exactly the keys of which `there` says so.
fn holds_keys(
    alloc: Global,
    store: &DocStore,
    image: &[u64],
    there: &[bool; 7],
) -> Result<bool, AllocError>
    ensures { IfOk result (λ yes. IsTrue yes → IsImageOfStore store.now.lines image.now) }
{
    if !store.check(alloc, image)? {
        return Ok(false);
    }
    Ok(are_pairs(&documents(alloc, image)?, there))
}

/// Does the command `op` in an image. It returns `false` where the image before is not lawful or does not hold exactly the keys of which `there` says
/// so, or the reply is not of kind `reply`.
fn done(
    alloc: Global,
    store: &DocStore,
    image: &mut [u64; 512],
    there: &[bool; 7],
    op: &[u64; 144],
    reply: u64,
) -> Result<bool, AllocError> {
    if !holds_keys(alloc, store, image, there)? {
        return Ok(false);
    }
    let mut mem = VecMemory::of(Vec::from_slice(alloc, image)?, None);
    match store.run(&mut mem, op) {
        Ok(words) => Ok(words[0] == reply && copied(&mem.into_words(), image)),
        Err(_) => Ok(false),
    }
}

/// Copies 512 words into an image, and returns `false` where there are more or fewer.
fn copied(words: &[u64], image: &mut [u64; 512]) -> bool {
    if words.len() != 512 {
        return false;
    }
    image.copy_from_slice(words);
    true
}

/// The words of a command of this kind on key number `at`, which is put with itself as its document.
fn on_key(kind: u64, at: usize) -> [u64; 144] {
    let key = KEYS[at % 7].as_bytes();
    laid_out(kind, key, if kind == PUT { key } else { b"" }, 0)
}

/// Puts all keys in, or takes them out, in an order: `kind` is that of a put or of a removal, and `reply` the kind of the reply to each. It returns
/// `false` where an image or a reply is wrong on the way.
fn all_done(
    alloc: Global,
    store: &DocStore,
    image: &mut [u64; 512],
    order: &[usize; 7],
    kind: u64,
    reply: u64,
) -> Result<bool, AllocError> {
    let puts = kind == PUT;
    // no key is there before the puts, and each is before the removals
    let mut there = [!puts; 7];
    for at in order {
        if !done(alloc, store, image, &there, &on_key(kind, *at), reply)? {
            return Ok(false);
        }
        there[*at % 7] = puts;
    }
    // at the end, a count of the pairs, with a look at the image before it
    done(
        alloc,
        store,
        image,
        &there,
        &laid_out(COUNT, b"", b"", 0),
        NUMBER,
    )
}

/// Makes the words the opening image of 64 lines, and returns whether that was done.
fn empty(alloc: Global, image: &mut [u64; 512]) -> Result<bool, AllocError> {
    let mut mem = memory(alloc, 64)?;
    match opened(&DocStore::of(64), &mut mem) {
        Ok(()) => Ok(copied(&mem.into_words(), image)),
        Err(_) => Ok(false),
    }
}

/// Whether the keys can be put into the empty store in the order `puts`, and then taken out in the order `takes`.
fn there_and_back(
    alloc: Global,
    store: &DocStore,
    puts: &[usize; 7],
    takes: &[usize; 7],
) -> Result<bool, AllocError> {
    let mut image = [0; 512];
    Ok(
        empty(alloc, &mut image)?
            && all_done(alloc, store, &mut image, puts, PUT, NEW)?
            && all_done(alloc, store, &mut image, takes, DEL, DELETED)?,
    )
}

/// Whether the keys can be put in in each order and taken out in the same.
fn in_each_order(alloc: Global) -> Result<bool, AllocError> {
    let store = DocStore::of(64);
    for n in 0..5040 {
        let order = order_of(n);
        if !there_and_back(alloc, &store, &order, &order)? {
            return Ok(false);
        }
    }
    Ok(true)
}

/// Whether the keys can be put in in rising order and taken out in each.
fn out_in_each_order(alloc: Global) -> Result<bool, AllocError> {
    let store = DocStore::of(64);
    for n in 0..5040 {
        if !there_and_back(alloc, &store, &RISING, &order_of(n))? {
            return Ok(false);
        }
    }
    Ok(true)
}

#[test]
fn seven_keys_in_every_order(rt: HostRuntime) -> Result<(), Fail> {
    holds(&rt, in_each_order(rt.alloc())?);
    holds(&rt, out_in_each_order(rt.alloc())?);
    Ok(())
}

/// How many accesses the removal of the middle one of seven keys takes, which in a balanced tree has a key at each side below it; 0 where the keys
/// cannot be put.
fn removal(alloc: Global) -> Result<u64, AllocError> {
    let store = DocStore::of(64);
    let mut image = [0; 512];
    if !empty(alloc, &mut image)? || !all_done(alloc, &store, &mut image, &RISING, PUT, NEW)? {
        return Ok(0);
    }
    accesses(alloc, &store, &image, &on_key(DEL, 3))
}

#[test]
fn each_access_of_a_removal_can_be_refused(rt: HostRuntime) -> Result<(), Fail> {
    holds(&rt, removal(rt.alloc())? > 20);
    Ok(())
}

/// The first byte of the key at the root of an image, and the height of the root; `None` where the words end before.
fn root_of(image: &[u64]) -> Option<(u64, u64)> {
    // the header has the root's line in word 1, and the root has its height in word 2 and the line of its key in word 3
    let node = (*image.get(1)? as usize).checked_mul(8)?;
    let height = *image.get(node.checked_add(2)?)?;
    let block = (*image.get(node.checked_add(3)?)? as usize).checked_mul(8)?;
    let key = *image.get(block.checked_add(1)?)?;
    Some((key, height))
}

// A row for each of the keys a to g: the first byte of the key at the root, and the height of the root, after the key is put. They were worked by
// hand: the root is first a (97), from the third key on b (98), and from the sixth on d (100).
static ROOTS: [(u64, u64); 7] = [
    (97, 1),
    (97, 2),
    (98, 2),
    (98, 3),
    (98, 3),
    (100, 3),
    (100, 3),
];

/// Whether the root of the image has the key and the height of its row in `roots` after each key is put in, in rising order.
fn have_roots(alloc: Global, roots: &[(u64, u64); 7]) -> Result<bool, AllocError> {
    let store = DocStore::of(64);
    let mut image = [0; 512];
    let mut there = [false; 7];
    if !empty(alloc, &mut image)? {
        return Ok(false);
    }
    for at in 0..7 {
        if !done(alloc, &store, &mut image, &there, &on_key(PUT, at), NEW)?
            || root_of(&image) != Some(roots[at])
        {
            return Ok(false);
        }
        there[at] = true;
    }
    Ok(true)
}

#[test]
fn rising_keys_turn_the_root(rt: HostRuntime) -> Result<(), Fail> {
    holds(&rt, have_roots(rt.alloc(), &ROOTS)?);
    Ok(())
}

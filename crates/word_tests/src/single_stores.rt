//! How often one operation stores each word.

ghost use Rattle.std.specs.Prelude.{◌≡◌, ◌*◌, ◌^◌, ◌≤◌, IsTrue, OnOk};
ghost use Rattle.cx_base.specs.Memory.{Always};
ghost use Rattle.doc_store.specs.ExactStep.{IsImageOfStore};

use crate::access::{DEL, PUT, has_height, key_of, on_key};
use crate::counted::{Counting, WordStores, counted_words};
use crate::holds::holds;
use crate::mixed::{Numbers, command};
use crate::rows::{LETTERS, asked, laid_out, opened};
use cx_base::{Halt, Memory};
use doc_store::DocStore;
use std::alloc::{AllocError, Global};
use std::test::Fail;

/// The stores of operations: how many there were (`all`), how many of them were of a word that the same operation had stored before (`again`), and
/// how many words an operation stored that were in the end as they had been (`needless`).
#[derive(Clone, Copy)]
struct Stores {
    all: u64,
    again: u64,
    needless: u64,
}

/// No stores.
const NO_STORES: Stores = Stores {
    all: 0,
    again: 0,
    needless: 0,
};

/// The stores so far with those of one operation, of which `words` has the counts of each word. It sets these counts back to 0.
fn counted(words: &mut [WordStores], so_far: Stores) -> Stores {
    let mut sum = so_far;
    for word in words.iter_mut() {
        sum.all = sum.all.saturating_add(word.stores);
        sum.again = sum.again.saturating_add(word.stores.saturating_sub(1));
        if word.stores > 0 && word.before == word.now {
            sum.needless = sum.needless.saturating_add(1);
        }
        word.stores = 0;
        word.before = word.now;
    }
    sum
}

/// Whether there are more stores than `more_than`, each of another word, which it changes.
fn are_single(stores: &Stores, more_than: u64) -> bool {
    stores.again == 0 && stores.needless == 0 && stores.all > more_than
}

/// The stores of `commands` commands that look random, in a store that is made empty before. The stores that make it empty are not counted.
fn stores_of<M: Memory>(
    store: &DocStore,
    mem: &mut Counting<M>,
    commands: u64,
) -> Result<Stores, Halt>
    requires size { M.size mem.old.inner ≡ 8 * store.now.lines }
    requires writable { IsTrue (M.writable mem.old.inner) }
{
    opened(store, mem)?;
    let mut numbers = Numbers::of(7);
    let mut sum = NO_STORES;
    counted(&mut mem.words, sum);
    for _ in 0..commands {
        asked(store, mem, &command(&mut numbers))?;
        sum = counted(&mut mem.words, sum);
    }
    Ok(sum)
}

/// Whether `commands` commands that look random make more stores than `more_than` in `lines` lines, each of another word of its operation, which it
/// changes.
fn store_once(alloc: Global, lines: u64, commands: u64, more_than: u64) -> Result<bool, AllocError>
    requires some { 1 ≤ lines }
    requires few { lines ≤ 2 ^ 14 }
{
    let mut mem = counted_words(alloc, lines)?;
    Ok(match stores_of(&DocStore::of(lines), &mut mem, commands) {
        Ok(stores) => are_single(&stores, more_than),
        Err(_) => false,
    })
}

// With 256 lines the store is full before the commands end, and with 512 lines it is not.
#[test]
fn an_operation_stores_each_word_that_changes_once(rt: HostRuntime) -> Result<(), Fail> {
    holds(&rt, store_once(rt.alloc(), 256, 1000, 1500)?);
    holds(&rt, store_once(rt.alloc(), 512, 300, 2500)?);
    Ok(())
}

/// How many pairs the smallest balanced tree of each height has, from height 0 on: from height 2 on, one and those of the two heights before.
const SMALLEST: [u64; 18] = [
    0, 1, 2, 4, 7, 12, 20, 33, 54, 88, 143, 232, 376, 609, 986, 1596, 2583, 4180,
];

/// A smallest balanced tree of a height, whose keys have the numbers from `least` on. Below its root, the left side is the lower one where `is_left`,
/// and else the right side. Each tree at the left of a node has `is_left`; of those at the right, only the one below the root of the whole tree has
/// it.
#[derive(Clone, Copy)]
struct Smallest {
    least: u64,
    height: usize,
    is_left: bool,
}

/// The whole tree. The right side of its root is the lower one, and in the tree at its right the left side is. Where the key of the root is removed,
/// the next key takes its place, from the end of a path through the lower side of each node. Each node of this path needs a double rotation then.
const WHOLE: Smallest = Smallest {
    least: 0,
    height: 17,
    is_left: false,
};

impl Smallest {
    /// The tree below it at its left.
    fn below_left(&self) -> Smallest {
        Smallest {
            least: self.least,
            height: self.height.saturating_sub(if self.is_left { 2 } else { 1 }),
            is_left: true,
        }
    }

    /// The number of the key at its root. As many of its keys are before this one as the tree at the left has.
    fn root(&self) -> u64 {
        let before = SMALLEST.get(self.below_left().height).copied();
        self.least.saturating_add(before.unwrap_or(0))
    }

    /// The tree below it at its right.
    fn below_right(&self) -> Smallest {
        Smallest {
            least: self.root().saturating_add(1),
            height: self.height.saturating_sub(if self.is_left { 1 } else { 2 }),
            is_left: self.height == 17,
        }
    }
}

/// The smallest tree of height 17 with those below it, level by level: keys put in the order of their roots make the tree without a rotation.
fn level_by_level(alloc: Global) -> Result<Vec<Smallest>, AllocError> {
    let mut trees = Vec::new(alloc);
    trees.push(WHOLE)?;
    // the two trees below each tree go to the end of the list; one of height 0 has no key
    for i in 0..4180 {
        let Some(tree) = trees.get(i).copied() else {
            break;
        };
        for below in [tree.below_left(), tree.below_right()] {
            if below.height > 0 {
                trees.push(below)?;
            }
        }
    }
    Ok(trees)
}

/// The words of an operation on the n-th key of 64 bytes, which is above the n-th one of 16 bytes and below the next.
fn on_long_key(kind: u64, n: u64, document: &[u8]) -> [u64; 144] {
    let mut key = [b'k'; 64];
    key[..16].copy_from_slice(&key_of(n));
    laid_out(kind, &key, document, 0)
}

/// Puts a pair of one letter at the key of each tree's root. The memory holds a lawful image before, and unless it halts also after.
fn put_short<M: Memory>(store: &DocStore, mem: &mut M, trees: &[Smallest]) -> Result<(), Halt>
    requires size { M.size mem.old ≡ 8 * store.now.lines }
    requires writable { IsTrue (M.writable mem.old) }
    requires lawful { Always (M.stands mem.old) (IsImageOfStore store.now.lines) }
    ensures size { M.size mem.new ≡ 8 * store.now.lines }
    ensures writable { IsTrue (M.writable mem.new) }
    ensures lawful { OnOk result (Always (M.stands mem.new) (IsImageOfStore store.now.lines)) }
{
    for tree in trees {
        asked(store, mem, &on_key(PUT, tree.root(), b"x"))?;
    }
    Ok(())
}

/// Makes the empty store, puts the longest pair at key number `root`, and a short pair at the key of the root of each tree in `others`. The image is
/// lawful then, unless the memory halts.
fn grown<M: Memory>(
    store: &DocStore,
    mem: &mut M,
    root: u64,
    others: &[Smallest],
) -> Result<(), Halt>
    requires size { M.size mem.old ≡ 8 * store.now.lines }
    requires writable { IsTrue (M.writable mem.old) }
    ensures size { M.size mem.new ≡ 8 * store.now.lines }
    ensures writable { IsTrue (M.writable mem.new) }
    ensures lawful { OnOk result (Always (M.stands mem.new) (IsImageOfStore store.now.lines)) }
{
    opened(store, mem)?;
    asked(store, mem, &on_long_key(PUT, root, &LETTERS[..1024]))?;
    put_short(store, mem, others)
}

/// Whether two operations store each word that they change once, and no other: the put of the longest pair at key number `last`, after that of `root`
/// and of the roots of `others`, and the removal of the longest pair at `root`. They make more than 170 and more than 60 stores.
fn are_deep<M: Memory>(
    store: &DocStore,
    mem: &mut Counting<M>,
    root: u64,
    others: &[Smallest],
    last: u64,
) -> Result<bool, Halt>
    requires size { M.size mem.old.inner ≡ 8 * store.now.lines }
    requires writable { IsTrue (M.writable mem.old.inner) }
{
    // all keys but the last; their stores are not looked at
    grown(store, mem, root, others)?;
    counted(&mut mem.words, NO_STORES);
    // the put of the last key
    asked(store, mem, &on_long_key(PUT, last, &LETTERS[..1024]))?;
    let put = counted(&mut mem.words, NO_STORES);
    // the removal of the key at the root
    asked(store, mem, &on_long_key(DEL, root, b""))?;
    let taken = counted(&mut mem.words, NO_STORES);
    Ok(are_single(&put, 170) && are_single(&taken, 60))
}

/// Whether the last put that makes a tree, and the removal of its root's key, store each word that they change once. `trees` has the tree, and those
/// below it, level by level. It is `false` also where the memory halts.
fn are_last<M: Memory>(store: &DocStore, mem: &mut Counting<M>, trees: &[Smallest]) -> bool
    requires size { M.size mem.old.inner ≡ 8 * store.now.lines }
    requires writable { IsTrue (M.writable mem.old.inner) }
{
    let [root, others @ .., last] = trees else {
        return false;
    };
    match are_deep(store, mem, root.root(), others, last.root()) {
        Ok(deep) => deep,
        Err(Halt) => false,
    }
}

// 16,384 lines are the most that a replica has, and no higher tree has room in them.
#[test]
fn a_change_of_the_deepest_tree_stores_no_word_twice(rt: HostRuntime) -> Result<(), Fail> {
    let mut mem = counted_words(rt.alloc(), 16_384)?;
    let trees = level_by_level(rt.alloc())?;
    // the smallest tree of height 17 has 4,180 keys, and without its root's key the height is 16
    holds(&rt, trees.len() == 4180);
    holds(&rt, are_last(&DocStore::of(16_384), &mut mem, &trees));
    holds(&rt, has_height(mem, 16));
    Ok(())
}

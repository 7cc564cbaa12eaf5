//! Many commands against the plain list of pairs, and a limit on accesses that refuses each of them in turn.

ghost use Rattle.std.specs.Prelude.{◌≡◌, ◌*◌, ◌<◌, IsTrue, IfOk};
ghost use Rattle.cx_base.specs.Memory.{Always};
ghost use Rattle.doc_store.specs.ExactStep.{IsImageOfStore};

use crate::holds::holds;
use crate::rows::{LETTERS, asked, laid_out, meant, memory, opened, same_reply, words_of};
use cx_base::{Memory, Object, VecMemory};
use doc_model::{OpFault, Pair, Pairs, Reply, reply_of};
use doc_store::{DocStore, documents};
use std::alloc::{AllocError, Global};
use std::test::Fail;

/// The letters of the digits 0 to 9.
const DIGITS: [u8; 10] = *b"0123456789";

/// The kinds of the commands, drawn from fourteen: four are a put (1), three a put on condition (7), two an addition (3), and one each a
/// removal (2), a get (4), the next key (5), the count (6) and a revision (8).
const KINDS: [u64; 14] = [1, 1, 1, 1, 2, 3, 3, 4, 5, 6, 7, 7, 7, 8];

/// Numbers that look random, each made of the one before.
#[derive(Drop)]
pub(crate) struct Numbers {
    state: u64,
}

impl Numbers {
    /// The numbers that follow from this state, the same each time.
    pub(crate) fn of(state: u64) -> Numbers {
        Numbers { state }
    }

    /// The next number, which is below `below`.
    fn next(&mut self, below: u64) -> u64
        requires { 0 < below }
        ensures { result < below }
    {
        self.state = self
            .state
            .wrapping_mul(6364136223846793005)
            .wrapping_add(1442695040888963407);
        (self.state >> 33) % below
    }
}

/// The last decimal digit of a number, as a letter.
pub(crate) fn digit(n: u64) -> u8 {
    DIGITS[(n % 10) as usize]
}

/// The words of a command on one of 500 keys: a number, or up to 150 letters, is what is put. Half of what is put on condition of a
/// revision is put on condition that the key is missing.
pub(crate) fn command(numbers: &mut Numbers) -> [u64; 144] {
    // what may be used: the kind, one of 500 keys, a number of two digits, and a length below 150
    let kind = KINDS[numbers.next(14) as usize];
    let n = numbers.next(500);
    let key = [b'k', digit(n / 100), digit(n / 10), digit(n)];
    let number = [digit(numbers.next(9) + 1), digit(numbers.next(10))];
    let long = numbers.next(150) as usize;
    // most puts have letters as their document, and the others the number; half of the puts on condition are of revision 0, of a missing key
    match kind {
        1 if long < 30 => laid_out(1, &key, &number, 0),
        1 => laid_out(1, &key, &LETTERS[..long], 0),
        3 => laid_out(3, &key, &[], numbers.next(1000)),
        7 if long < 75 => laid_out(7, &key, &number, 0),
        7 => laid_out(7, &key, &number, numbers.next(10_000)),
        6 => laid_out(6, &[], &[], 0),
        _ => laid_out(kind, &key, &[], 0),
    }
}

/// Whether two pairs have the same key, document and revision.
fn same_pair(one: &Pair, other: &Pair) -> bool {
    one.key.as_slice() == other.key.as_slice()
        && one.doc.as_slice() == other.doc.as_slice()
        && one.revision == other.revision
}

/// Whether two lists have the same pairs in the same order.
fn same_pairs(ones: &[Pair], others: &[Pair]) -> bool {
    for (one, other) in ones.iter().zip(others) {
        if !same_pair(one, other) {
            return false;
        }
    }
    ones.len() == others.len()
}

/// Whether `words` are those of the reply `want`.
fn is_reply(alloc: Global, words: &[u64; 144], want: &Reply) -> Result<bool, AllocError> {
    match reply_of(alloc, words) {
        Ok(reply) => Ok(same_reply(&reply, want)),
        Err(OpFault::BadOp) => Ok(false),
        Err(OpFault::Memory) => Err(AllocError),
    }
}

/// Whether the plain program, with its list of pairs, gives `reply` to the command with these words in `lines` lines. The list is afterwards as the
/// command leaves it.
fn is_meant(
    alloc: Global,
    pairs: &mut Pairs,
    lines: u64,
    words: &[u64; 144],
    reply: &[u64; 144],
) -> Result<bool, AllocError> {
    match meant(alloc, pairs, lines, words)? {
        Some(want) => is_reply(alloc, reply, &want),
        None => Ok(false),
    }
}

/// Does the command with these words in the store and in the plain program, and returns whether they give the same reply; `false` also where the
/// memory halts. The memory holds a lawful image before, and where the answer is `true` also after.
fn both<M: Memory>(
    alloc: Global,
    store: &DocStore,
    mem: &mut M,
    pairs: &mut Pairs,
    words: &[u64; 144],
) -> Result<bool, AllocError>
    requires size { M.size mem.old ≡ 8 * store.now.lines }
    requires writable { IsTrue (M.writable mem.old) }
    requires lawful { Always (M.stands mem.old) (IsImageOfStore store.now.lines) }
    ensures size { M.size mem.new ≡ 8 * store.now.lines }
    ensures writable { IsTrue (M.writable mem.new) }
    ensures lawful { IfOk result (λ same. IsTrue same → Always (M.stands mem.new) (IsImageOfStore store.now.lines)) }
{
    match asked(store, mem, words) {
        Ok(reply) => is_meant(alloc, pairs, store.lines(), words, &reply),
        Err(_) => Ok(false),
    }
}

/// Whether the store and the plain program give the same replies to `commands` commands that look random. The store is made empty before; `pairs` are
/// those of the plain program.
fn are_same<M: Memory>(
    alloc: Global,
    store: &DocStore,
    mem: &mut M,
    pairs: &mut Pairs,
    commands: u64,
) -> Result<bool, AllocError>
    requires size { M.size mem.old ≡ 8 * store.now.lines }
    requires writable { IsTrue (M.writable mem.old) }
{
    let Ok(()) = opened(store, mem) else {
        return Ok(false);
    };
    let mut numbers = Numbers::of(7);
    for _ in 0..commands {
        if !both(alloc, store, mem, pairs, &command(&mut numbers))? {
            return Ok(false);
        }
    }
    Ok(true)
}

/// Whether `words` are a lawful image of exactly these pairs, in this order.
fn are_listed(
    alloc: Global,
    store: &DocStore,
    words: &[u64],
    pairs: &[Pair],
) -> Result<bool, AllocError> {
    if !store.check(alloc, words)? {
        return Ok(false);
    }
    Ok(same_pairs(&documents(alloc, words)?, pairs))
}

#[test]
fn twenty_thousand_commands_as_in_the_list(rt: HostRuntime) -> Result<(), Fail> {
    let alloc = rt.alloc();
    let store = DocStore::of(2048);
    let mut mem = memory(alloc, 2048)?;
    let mut pairs = Pairs::new(alloc);
    holds(&rt, are_same(alloc, &store, &mut mem, &mut pairs, 20_000)?);
    holds(&rt, pairs.len() > 250);
    holds(
        &rt,
        are_listed(alloc, &store, &mem.into_words(), pairs.as_slice())?,
    );
    Ok(())
}

/// Whether the command `op` is done in an image with `left` accesses allowed, and the image is lawful before.
fn is_done(
    alloc: Global,
    store: &DocStore,
    image: &[u64],
    op: &[u64; 144],
    left: u64,
) -> Result<bool, AllocError> {
    if !store.check(alloc, image)? {
        return Ok(false);
    }
    let mut mem = VecMemory::of(Vec::from_slice(alloc, image)?, Some(left));
    Ok(store.run(&mut mem, op).is_ok())
}

/// The fewest accesses, below 10,000, with which a command is done in a lawful image; 0 also where there is no such number.
pub(crate) fn accesses(
    alloc: Global,
    store: &DocStore,
    image: &[u64],
    op: &[u64; 144],
) -> Result<u64, AllocError> {
    for left in 0..10_000 {
        if is_done(alloc, store, image, op, left)? {
            return Ok(left);
        }
    }
    Ok(0)
}

/// Whether a put takes more than 20 accesses in an image, and words of no operation (a put on condition without a key) none.
fn are_refused(alloc: Global, store: &DocStore, image: &[u64]) -> Result<bool, AllocError> {
    let put = accesses(alloc, store, image, &words_of((1, "new", "1", 0)))?;
    let no_operation = accesses(alloc, store, image, &words_of((7, "", "", 0)))?;
    Ok(put > 20 && no_operation == 0)
}

#[test]
fn each_access_can_be_refused(rt: HostRuntime) -> Result<(), Fail> {
    let store = DocStore::of(64);
    let mut pairs = Pairs::new(rt.alloc());
    let mut mem = memory(rt.alloc(), 64)?;
    holds(&rt, are_same(rt.alloc(), &store, &mut mem, &mut pairs, 20)?);
    holds(&rt, are_refused(rt.alloc(), &store, &mem.into_words())?);
    Ok(())
}

//! What rows say of a board: of its shared words, and of what a caller knows and did.

use crate::board::{Board, Row};
use cx_core::{Local, OBJECT_START, Protection, Scan, SeenNeed, SeenOffer, WonCode};

/// The number of words of a region, which is one replica.
pub const REGION: usize = 1680;

/// The address of the last word of a region, counted from 0, as the steps take addresses.
pub const LAST_ADDRESS: u64 = REGION as u64 - 1;

/// Some words of a region as pairs: the address, counted from 0, and the word there. All words that are not listed are 0.
pub type Words = &'static [(usize, u64)];

/// The address of Tally's version, which is 7. It is the first word of the object's part of a region. Tally is the object of these tests: a sum.
pub const VERSION_AT: usize = OBJECT_START as usize;

/// The address of Tally's sum, the word after its version.
pub const SUM_AT: usize = VERSION_AT + 1;

/// The address of Tally's sum, as the steps take addresses.
pub const SUM_ADDRESS: u64 = OBJECT_START + 1;

/// The words of a region before the first entry, at place 0: the version alone is not 0.
pub const IMAGE_0: Words = &[(VERSION_AT, 7)];

/// The words of a region after the first entry of caller 0, which adds 5. In this order: the place, the number of caller 0's last entry, the first
/// word of its reply, the version and the sum.
pub const IMAGE_1: Words = &[(0, 1), (8, 1), (9, 5), (VERSION_AT, 7), (SUM_AT, 5)];

/// A row, and a fact that holds of the board after its event.
pub type SeenRow = (Row, Fact);

/// A fact of a board, with the values that it has to have. A board is the state that the steps of a test change.
#[derive(Clone, Copy)]
pub enum Fact {
    /// The lock word of each replica, that of replica 0 first.
    Locks(&'static [u64]),
    /// The lock word of replica 0.
    FirstLock(u64),
    /// The number of a replica, its words in VOL as stores left them, and its words in PER, which are durable.
    Replica(u32, Words, Words),
    /// The words of the first four link slots.
    Links([u64; 4]),
    /// The index of a word among the words of all cells, which have 145 each, and the word.
    CellWord(usize, u64),
    /// The number of a cell, and its offer word.
    OfferWord(usize, u64),
    /// The index of a word among the write sets of all cells, which have 513 words each, and the word.
    SetWord(usize, u64),
    /// The index of a word in the ring of gaps, whose slots have 16 words each, and the word.
    GapWord(usize, u64),
    /// FREE, the ticket below which cells may be written again.
    Free(u64),
    /// In this order: LOW, FREE, the NEED of caller 0 and the NEED of caller 1.
    Ring([u64; 4]),
    /// CUR and DUR; then, for caller 0 and for caller 1, the root code that it put into CUR, with the code that it replaced. `None` stands for a
    /// caller that put none there, or has retired it by the step `Retire`.
    Root([u64; 2], [Option<WonCode>; 2]),
    /// The number of callers.
    Callers(usize),
    /// The number of a caller, and what it knows.
    Of(usize, Known),
}

/// What a caller knows or did.
#[derive(Clone, Copy)]
pub enum Known {
    /// How many refusals it met.
    Met(u64),
    /// The front: the ticket after the last linked entry, as far as it knows.
    Front(u64),
    /// The steps made.
    Steps(u64),
    /// The ticket of its first entry, where there is one.
    Ticket(Option<u64>),
    /// In this order: the steps made, the refusals met, the replica that it tried to lock last, and the lock word found there. The last two are 0
    /// before any try.
    Tried([u64; 4]),
    /// The replicas on which it has an exclusive right, a shared right, a passer's mark and a downgraded right, in this order; then the place of
    /// the downgraded one.
    Rights([Option<u64>; 5]),
    /// The offer word that it loaded last.
    Offer(Option<SeenOffer>),
    /// The words loaded from the replica that it holds shared, as pairs of address and word.
    Loaded(&'static [(u64, u64)]),
    /// The dirty addresses of the replica that it holds exclusively, and its words.
    Stored(&'static [u64], Words),
    /// The replicas that refused it.
    Refused(&'static [u64]),
    /// In this order: how many entries and how many reads were answered, the greatest root code with which it raised DUR, the floor, and the
    /// refusals met.
    Counts([u64; 5]),
    /// The ticket of the first entry answered, and the first word of its reply, which is the sum.
    Answered(Option<(u64, u64)>),
    /// The number of an answered read, counted from 0; then its place, the first word of its reply, which is the sum, and how many entries were
    /// answered before or with it.
    Read(usize, [u64; 3]),
    /// Its protection, its running scan, and what the last whole scan found. Then, in this order: the greatest LOW found, the greatest FREE found,
    /// the refusals met, the scans ended, and 1 where the root code that it found in CUR is still of use, else 0.
    Scans(Protection, Option<Scan>, Option<SeenNeed>, [u64; 5]),
}

/// Whether a fact holds of a board.
pub fn is_so(board: &Board, fact: &Fact) -> bool {
    match fact {
        // Facts of the shared words: a list of words has to be equal, or one word by its index.
        Fact::Locks(words) => board.state.lock() == *words,
        Fact::FirstLock(word) => has_word(board.state.lock(), 0, *word),
        Fact::Replica(r, vol, per) => {
            has_region(board.state.vol(), *r, vol) && has_region(board.state.per(), *r, per)
        }
        Fact::Links(words) => begins_with(board.state.link(), words),
        Fact::CellWord(at, word) => has_word(board.state.cell(), *at, *word),
        Fact::OfferWord(cell, word) => has_word(board.state.offer(), *cell, *word),
        Fact::SetWord(at, word) => has_word(board.state.set(), *at, *word),
        Fact::GapWord(at, word) => has_word(board.state.gap(), *at, *word),
        Fact::Free(free) => board.state.free() == *free,
        // Facts of several shared words, and of the callers.
        Fact::Ring(words) => is_ring(board, words),
        Fact::Root(codes, wins) => is_root(board, codes, wins),
        Fact::Callers(callers) => board.state.locals().len() == *callers,
        Fact::Of(caller, known) => match board.state.locals().get(*caller) {
            None => false,
            Some(local) => is_known(local, known),
        },
    }
}

// Whether the word at index `at` of a list is `word`. `false` also where the list ends before.
fn has_word(words: &[u64], at: usize, word: u64) -> bool {
    words.get(at).copied() == Some(word)
}

// Whether a list begins with the words `first`.
fn begins_with(words: &[u64], first: &[u64]) -> bool {
    words.get(..first.len()) == Some(first)
}

// Whether replica `r` has the words `given`. `words` are those of all replicas, one after another.
fn has_region(words: &[u64], r: u32, given: Words) -> bool {
    let from = REGION * r as usize;
    are_words(words.get(from..from + REGION).unwrap_or(&[]), given)
}

/// Whether `words` are a whole region, with the words `given` at their addresses and 0 at all others.
pub fn are_words(words: &[u64], given: &[(usize, u64)]) -> bool {
    for (at, word) in words.iter().enumerate() {
        if *word != word_at(given, at) {
            return false;
        }
    }
    words.len() == REGION
}

// The word that `given` has for the address `at`, or 0 where it lists none.
fn word_at(given: &[(usize, u64)], at: usize) -> u64 {
    for (place, word) in given {
        if *place == at {
            return *word;
        }
    }
    0
}

// Whether LOW, FREE, the NEED of caller 0 and the NEED of caller 1 are these four words, in this order.
fn is_ring(board: &Board, words: &[u64; 4]) -> bool {
    board.state.low() == words[0]
        && board.state.free() == words[1]
        && begins_with(board.state.need(), &words[2..])
}

// Whether CUR and DUR are the two `codes`, and the root codes that callers 0 and 1 put into CUR and have not retired are the two `wins`.
fn is_root(board: &Board, codes: &[u64; 2], wins: &[Option<WonCode>; 2]) -> bool {
    board.state.cur() == codes[0]
        && board.state.dur() == codes[1]
        && won(board, 0) == wins[0]
        && won(board, 1) == wins[1]
}

// The root code that a caller put into CUR, with the code that it replaced. `None` where it put none there or has retired it, and for no such
// caller.
fn won(board: &Board, caller: usize) -> Option<WonCode> {
    match board.state.locals().get(caller) {
        None => None,
        Some(local) => local.won,
    }
}

// Whether what `local` says of a caller has the values of `known`.
fn is_known(local: &Local, known: &Known) -> bool {
    match known {
        Known::Met(met) => local.met == *met,
        Known::Front(front) => local.front == *front,
        Known::Steps(steps) => local.steps == *steps,
        Known::Ticket(ticket) => first_ticket(local) == *ticket,
        // Facts whose values stand in several fields of `local`.
        Known::Tried(tried) => tried_by(local) == *tried,
        Known::Rights(rights) => rights_of(local) == *rights,
        Known::Offer(seen) => local.seen_offer == *seen,
        Known::Loaded(words) => has_loaded(local, words),
        Known::Stored(dirty, words) => has_stored(local, dirty, words),
        Known::Refused(replicas) => local.refused.as_slice() == *replicas,
        Known::Counts(counts) => counts_of(local) == *counts,
        Known::Answered(answer) => first_answer(local) == *answer,
        Known::Read(i, read) => has_read(local, *i, read),
        Known::Scans(protection, scan, need, counts) => {
            local.protection == *protection
                && local.scan == *scan
                && local.seen_need == *need
                && scan_counts(local) == *counts
        }
    }
}

// The ticket of a caller's first linked entry. `None` where it linked none.
fn first_ticket(local: &Local) -> Option<u64> {
    match local.own.as_slice().first() {
        None => None,
        Some(linked) => Some(linked.ticket),
    }
}

// A caller's steps, the refusals that it met, the replica that it tried to lock last, and the lock word found there. The last two are 0 before any
// try.
fn tried_by(local: &Local) -> [u64; 4] {
    match local.seen_lock {
        None => [local.steps, local.met, 0, 0],
        Some(seen) => [local.steps, local.met, seen.replica, seen.word],
    }
}

// The number of the replica that a caller holds exclusively.
fn exclusive_on(local: &Local) -> Option<u64> {
    match &local.exclusive {
        None => None,
        Some(held) => Some(held.replica),
    }
}

// The number of the replica that a caller holds shared.
fn shared_on(local: &Local) -> Option<u64> {
    match &local.shared {
        None => None,
        Some(held) => Some(held.replica),
    }
}

// The replicas on which a caller has an exclusive right, a shared right, a passer's mark and a downgraded right; then the place of the downgraded
// one.
fn rights_of(local: &Local) -> [Option<u64>; 5] {
    let (exclusive, shared) = (exclusive_on(local), shared_on(local));
    match local.downgraded {
        None => [exclusive, shared, local.passer, None, None],
        Some(held) => [
            exclusive,
            shared,
            local.passer,
            Some(held.replica),
            Some(held.place),
        ],
    }
}

// Whether a caller holds a replica shared, and has loaded from it these `words`: pairs of address and word, in the order of the loads.
fn has_loaded(local: &Local, words: &[(u64, u64)]) -> bool {
    match &local.shared {
        None => false,
        Some(held) => held.loaded.as_slice() == words,
    }
}

// Whether a caller holds a replica exclusively, which has these `words` and, stored and not yet durable, the addresses `dirty`.
fn has_stored(local: &Local, dirty: &[u64], words: Words) -> bool {
    match &local.exclusive {
        None => false,
        Some(held) => held.dirty.as_slice() == dirty && are_words(held.words.as_slice(), words),
    }
}

// How many entries and reads of a caller were answered, the greatest root code with which it raised DUR, its floor, and the refusals that it met.
fn counts_of(local: &Local) -> [u64; 5] {
    [
        local.answered.len() as u64,
        local.seen_reads.len() as u64,
        local.raised,
        local.floor,
        local.met,
    ]
}

// The ticket of a caller's first answered entry, and the first word of the reply. `None` where none was answered.
fn first_answer(local: &Local) -> Option<(u64, u64)> {
    match local.answered.as_slice().first() {
        None => None,
        Some(answer) => Some((answer.ticket, answer.reply[0])),
    }
}

// Whether a caller's answered read with number `i` has the `wanted` values: its place, the first word of its reply, and how many entries were
// answered before or with it.
fn has_read(local: &Local, i: usize, wanted: &[u64; 3]) -> bool {
    match local.seen_reads.as_slice().get(i) {
        None => false,
        Some(read) => [read.place, read.reply[0], read.before] == *wanted,
    }
}

// The greatest LOW and the greatest FREE that a caller found, the refusals that it met and the scans that it ended; then 1 where the root code that
// it found in CUR is still of use, else 0.
fn scan_counts(local: &Local) -> [u64; 5] {
    [
        local.seen_low,
        local.seen_free,
        local.met,
        local.scans,
        u64::from(local.fresh),
    ]
}

//! What the callers ask for.

/// What an update adds whose step may be held.
pub(crate) const HELD: u64 = 1_000_000;

/// The number that an update adds which comes late.
pub(crate) const LATE: u64 = 10;

/// Operations of one kind.
#[derive(Clone, Copy)]
pub(crate) enum Work {
    /// Of Tally: this many updates that add a number.
    Adds { amount: u64, count: u64 },
    /// Of Tally: an operation each of whose words is this.
    Filled(u64),
    /// Of Tally: this many operations, each word of operation k being k.
    Rising(u64),
    /// Of Tally: a read.
    Sum,
    /// Of Tally: 24 updates and 6 reads of each caller.
    Sums,
    /// Of a document store: 24 updates and 6 reads of each caller.
    Documents,
    /// Of Tally: 24 updates and 6 reads of callers 0 and 1, and 30 reads of each other.
    Apart,
    /// Of Tally: this many updates of each caller whose steps may be held.
    Held { count: u64 },
    /// Of Tally: 8 updates of each caller and a read. The step of caller 0's fifth may be held, and the others' updates come late.
    HeldInFifth,
    /// Of a document store: 20,000 updates of each caller over 60 keys, and a read behind each 50 of them.
    Long,
    /// Of a document store: each caller with an even number has this many of these, and each other has 30 of them, before each of which the
    /// others go on.
    Lagging { count: u64 },
    /// Of a document store: this many blocks of a document under one key are put in place of as many others. Caller 0's second update and
    /// one other of its updates put one block more under another key.
    Blocks { count: u64, wider: u64 },
    /// Of a document store: two documents of this many bytes, which caller 0's first two updates put, are read by entries in turn.
    Gets { bytes: u64 },
}

impl Work {
    /// How many operations a caller has.
    pub(crate) fn count(self, caller: u64) -> u64 {
        match self {
            Work::Adds { amount: _, count } | Work::Rising(count) | Work::Held { count } => count,
            Work::Lagging { count } if caller % 2 == 0 => count,
            Work::Lagging { count: _ } | Work::Blocks { .. } | Work::Gets { .. } => 30,
            Work::Filled(_) | Work::Sum => 1,
            Work::Sums | Work::Documents | Work::Apart => 30,
            Work::HeldInFifth => 9,
            Work::Long => 20_400,
        }
    }

    /// The place that has to be reached before a caller asks for operation k, or 0: caller 0 alone goes on to each.
    pub(crate) fn waits_for(self, caller: u64, k: u64) -> u64 {
        match self {
            Work::Lagging { count } if caller % 2 == 1 => {
                k.wrapping_mul(count).wrapping_mul(caller.wrapping_add(1)) / 256
            }
            _ => 0,
        }
    }

    /// Operation k of a caller.
    pub(crate) fn task(self, caller: u64, k: u64) -> [u64; 144] {
        match self {
            Work::Adds { amount, count: _ } => adds(amount),
            Work::Held { count: _ } => adds(HELD),
            Work::HeldInFifth if k == 8 => sum(),
            Work::HeldInFifth if caller > 0 => adds(LATE),
            Work::HeldInFifth if k == 4 => adds(HELD),
            Work::HeldInFifth => adds(1),
            Work::Filled(word) => [word; 144],
            Work::Rising(_) => [k; 144],
            Work::Sum => sum(),
            Work::Documents => document_task(caller, k),
            Work::Long | Work::Lagging { count: _ } => long_task(caller, k),
            Work::Blocks { count, wider } if caller == 0 && (k == 1 || k == wider) => {
                filled(b"b", count.saturating_add(1).wrapping_mul(56), k)
            }
            Work::Blocks { count, wider: _ } => {
                filled(b"a", count.wrapping_mul(56), k.wrapping_add(caller))
            }
            Work::Gets { bytes } if caller == 0 && k < 2 => filled(key_of(k), bytes, k),
            Work::Gets { bytes: _ } => words_of(4, key_of(k), b"", 0),
            Work::Apart if caller >= 2 => sum(),
            Work::Sums | Work::Apart if k % 5 == 4 => sum(),
            Work::Sums | Work::Apart => adds(caller.wrapping_mul(1000).wrapping_add(k)),
        }
    }
}

/// An operation of Tally that adds.
pub(crate) fn adds(n: u64) -> [u64; 144] {
    let mut op = [0; 144];
    op[0] = n;
    op
}

/// An operation of Tally that only reads.
pub(crate) fn sum() -> [u64; 144] {
    let mut op = [0; 144];
    op[1] = 1;
    op
}

// The parts of the words of an operation: the kind, the key, the document and the number.
type Row = (u64, &'static str, &'static str, u64);

const UPDATES: [Row; 11] = [
    (1, "a", "1", 0),
    (3, "a", "", 5),
    (
        1,
        "b",
        "\"a document of more than one block, which takes two lines\"",
        0,
    ),
    (2, "a", "", 0),
    (3, "c", "", 7),
    (1, "c", "{\"a\":[],\"b\":1}", 0),
    (2, "b", "", 0),
    (3, "a", "", 18446744073709551615),
    (1, "d", "[1,2]", 0),
    (2, "c", "", 0),
    (7, "", "", 0),
];

const READS: [Row; 4] = [
    (6, "", "", 0),
    (4, "a", "", 0),
    (5, "a", "", 0),
    (4, "c", "", 0),
];

// Operation k of a caller of a document store.
fn document_task(caller: u64, k: u64) -> [u64; 144] {
    let step = caller.wrapping_mul(3).wrapping_add(k);
    let row = if k % 5 == 4 {
        READS[(step % 4) as usize]
    } else {
        UPDATES[(step % 11) as usize]
    };
    let (kind, key, document, number) = row;
    words_of(kind, key.as_bytes(), document.as_bytes(), number)
}

const DIGITS: [u8; 10] = *b"0123456789";

// A digit of a number.
fn digit(number: u64) -> u8 {
    DIGITS[(number % 10) as usize]
}

// One of two keys in turn.
fn key_of(k: u64) -> &'static [u8] {
    if k % 2 == 0 { b"a" } else { b"b" }
}

// The words that put a document under a key, `bytes` of them, up to 1,024, each of which is a digit of a number.
fn filled(key: &[u8], bytes: u64, number: u64) -> [u64; 144] {
    let document = [digit(number); 1024];
    words_of(1, key, &document[..bytes.min(1024) as usize], 0)
}

// Operation k of a caller of a document store in a long run. Of 8 updates 4 put a document, 3 add and one deletes.
fn long_task(caller: u64, k: u64) -> [u64; 144] {
    let mixed = caller
        .wrapping_mul(20_400)
        .wrapping_add(k)
        .wrapping_mul(0x9e37_79b9_7f4a_7c15);
    let number = mixed >> 32;
    let key = [b'k', digit(number % 60 / 10), digit(number % 60)];
    if k % 51 == 50 {
        return match number / 60 % 3 {
            0 => words_of(6, b"", b"", 0),
            1 => words_of(5, &key, b"", 0),
            _ => words_of(4, &key, b"", 0),
        };
    }
    match number / 60 % 8 {
        0..2 => words_of(
            1,
            &key,
            &[b'7', digit(number / 480), digit(number / 4800)],
            0,
        ),
        2..4 => words_of(
            1,
            &key,
            LONG_DOCUMENTS[(number / 480 % 3) as usize].as_bytes(),
            0,
        ),
        4..7 => words_of(3, &key, b"", number / 480),
        _ => words_of(2, &key, b"", 0),
    }
}

const LONG_DOCUMENTS: [&str; 3] = [
    "{\"a\":[1,2,3],\"b\":null}",
    "\"a document of more than one block, which takes two lines\"",
    "\"a document that takes three lines of the store, since it goes on and on, as documents do that are written to be long\"",
];

fn put_word(words: &mut [u64], at: usize, word: u64) {
    if let Some(place) = words.get_mut(at) {
        *place = word;
    }
}

// Lays bytes out from a word on: byte i is in word i / 8 at bits 8 * (i mod 8).
fn lay(words: &mut [u64], from: usize, bytes: &[u8]) {
    for (i, byte) in bytes.iter().enumerate() {
        if let Some(word) = words.get_mut(from.saturating_add(i / 8)) {
            *word |= u64::from(*byte) << (8 * (i % 8));
        }
    }
}

/// The words of an operation on documents.
pub(crate) fn words_of(kind: u64, key: &[u8], document: &[u8], number: u64) -> [u64; 144] {
    let mut words = [0; 144];
    put_word(&mut words, 0, kind);
    put_word(&mut words, 1, key.len() as u64);
    put_word(&mut words, 2, document.len() as u64);
    put_word(&mut words, 3, number);
    lay(&mut words, 8, key);
    lay(&mut words, 16, document);
    words
}

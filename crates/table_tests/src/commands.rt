//! Commands of the document store that look random.

ghost use Rattle.std.specs.Prelude.{◌≡◌, ◌<◌};
ghost use Rattle.cx_base.specs.Memory.{Words};

use cx_core::Entry;

// The letters of the digits 0 to 9.
const DIGITS: [u8; 10] = *b"0123456789";

// The longest document that is put.
const LETTERS: [u8; 150] = [b'x'; 150];

// The kinds of the commands, drawn from ten: four are a put (1), one a removal (2), two an addition (3), one a get (4), one the next key (5),
// and one the count (6).
const KINDS: [u64; 10] = [1, 1, 1, 1, 2, 3, 3, 4, 5, 6];

/// Numbers that look random, and are the same for the same first `state`.
#[derive(Drop)]
pub(crate) struct Numbers {
    pub(crate) state: u64,
}

impl Numbers {
    /// The next number, which is less than `below`.
    pub(crate) fn next(&mut self, below: u64) -> u64
        requires { 0 < below }
        ensures { result < below }
    {
        self.state = self
            .state
            .wrapping_mul(6364136223846793005)
            .wrapping_add(1442695040888963407);
        (self.state >> 33) % below
    }
}

// The last decimal digit of a number, as a letter.
fn digit(n: u64) -> u8 {
    DIGITS[(n % 10) as usize]
}

// Puts a word at the index `at`, if there is one.
fn put_word(words: &mut [u64], at: usize, word: u64) {
    if let Some(place) = words.get_mut(at) {
        *place = word;
    }
}

// Lays bytes out from a word on: byte i is in word i / 8 at bits 8 * (i mod 8).
fn lay(words: &mut [u64], from: usize, bytes: &[u8]) {
    for (i, byte) in bytes.iter().enumerate() {
        if let Some(word) = words.get_mut(from.saturating_add(i / 8)) {
            *word |= u64::from(*byte) << (8 * (i % 8));
        }
    }
}

/// The words of an operation that puts `long` letters, at most 150, under a key.
pub(crate) fn put(key: &[u8], long: usize) -> [u64; 144] {
    let mut words = [0; 144];
    put_word(&mut words, 0, 1);
    put_word(&mut words, 1, key.len() as u64);
    put_word(&mut words, 2, long.min(150) as u64);
    lay(&mut words, 8, key);
    lay(&mut words, 16, &LETTERS[..long.min(150)]);
    words
}

// The words of a command on one of 50 keys; what is put is a number of two digits, or 30 to 149 letters.
fn command(numbers: &mut Numbers) -> [u64; 144] {
    // what is drawn: the kind of the command, its key, a number, and a length
    let kind = KINDS[numbers.next(10) as usize];
    let n = numbers.next(50);
    let key = [b'k', digit(n / 10), digit(n)];
    let number = [digit(numbers.next(9) + 1), digit(numbers.next(10))];
    let long = numbers.next(150) as usize;
    if kind == 1 && long >= 30 {
        return put(&key, long);
    }
    // word 0 is the kind, word 1 the length of the key, word 2 that of the document, word 3 what is added
    let mut words = [0; 144];
    put_word(&mut words, 0, kind);
    if kind < 6 {
        put_word(&mut words, 1, 3);
        lay(&mut words, 8, &key);
    }
    if kind == 3 {
        put_word(&mut words, 3, numbers.next(1000));
    }
    if kind == 1 {
        put_word(&mut words, 2, 2);
        lay(&mut words, 16, &number);
    }
    words
}

/// The entry with this number of a caller, with the operation `op`.
pub(crate) fn entry_of(caller: u32, number: u64, op: &[u64; 144]) -> Entry
    ensures caller { result.caller ≡ caller }
    ensures op { Words 144 result.op }
{
    let mut words = [0; 144];
    words.copy_from_slice(op);
    Entry {
        caller,
        number,
        op: words,
    }
}

/// The entry `k`, from 0 on, of 8 callers in turn, with a command that looks random. It is of caller k mod 8.
pub(crate) fn next_entry(numbers: &mut Numbers, k: u64) -> Entry
    ensures caller { result.caller < 8 }
    ensures op { Words 144 result.op }
{
    let op = command(numbers);
    entry_of((k % 8) as u32, k / 8 + 1, &op)
}

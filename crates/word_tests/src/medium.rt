//! A medium by worked rows, and against a plain list that keeps times in place of marks.

ghost use Rattle.std.specs.Prelude.{◌≡◌, ◌*◌, ◌≤◌, IfOk, length};

use crate::holds::{holds, holds_with_memory};
use pmem_model::Medium;
use std::alloc::{AllocError, Global};
use std::test::Fail;

// A medium of `lines` lines of zeros, up to 8.
fn lines_of_zeros(alloc: Global, lines: usize) -> Result<Medium, AllocError>
    requires { lines ≤ 8 }
    ensures words { IfOk result (λ m. length m.words ≡ 8 * lines) }
    ensures stores { IfOk result (λ m. length m.stores ≡ lines) }
{
    Medium::of(alloc, vec![in alloc; 0; 8 * lines]?)
}

// Choices, and what each leaves of the first word where 5 was stored over 0 and is not durable: the old word, the new one, or another.
const STORED: [(u64, u64); 3] = [(0, 0), (1, 5), (3, 3)];

// Choices, and what each leaves of the first word where 5 was stored and is durable.
const FENCED: [(u64, u64); 3] = [(0, 5), (1, 5), (3, 5)];

// Choices, and what each leaves of the first word where 5 was written back and 6 was stored before the fence: the word 0 of the beginning, or 6.
const STORED_AGAIN: [(u64, u64); 2] = [(0, 0), (1, 6)];

// Whether a medium of one line leaves by each choice the first word that the row says.
fn leaves(medium: &Medium, rows: &[(u64, u64)]) -> bool
    requires { length medium.now.words ≡ 8 }
{
    let mut image = [7; 8];
    for (choice, want) in rows {
        medium.image(*choice, &mut image);
        if image[0] != *want {
            return false;
        }
    }
    true
}

// Whether a store lasts once it was written back and fenced, and no earlier.
fn lasts_once_fenced(alloc: Global) -> Result<bool, AllocError> {
    let mut medium = lines_of_zeros(alloc, 1)?;
    medium.store(0, 5);
    let stored = leaves(&medium, &STORED);
    medium.write_back(0);
    let written_back = leaves(&medium, &STORED);
    medium.fence();
    Ok(stored && written_back && leaves(&medium, &FENCED))
}

// Whether a store between a write-back and the fence leaves the word dirty.
fn is_dirty_again(alloc: Global) -> Result<bool, AllocError> {
    let mut medium = lines_of_zeros(alloc, 1)?;
    medium.store(0, 5);
    medium.write_back(0);
    medium.store(0, 6);
    medium.fence();
    let left = leaves(&medium, &STORED_AGAIN);
    Ok(left && medium.load(0) == 6 && medium.is_dirty(0) && medium.stores(0) == 2)
}

// Whether the count of stores of a line, at its end but one, goes to its end and stays there.
fn stays_at_its_end(alloc: Global) -> Result<bool, AllocError> {
    let words = vec![in alloc; 0; 8]?;
    let stores = vec![in alloc; u64::MAX - 1; 1]?;
    let mut medium = Medium::with_stores(alloc, words, stores)?;
    medium.store(0, 1);
    let first = medium.stores(0) == u64::MAX;
    medium.store(1, 1);
    let second = medium.stores(0) == u64::MAX;
    medium.store(2, 1);
    Ok(first && second && medium.stores(0) == u64::MAX)
}

#[test]
fn worked_rows(rt: HostRuntime) {
    holds_with_memory(&rt, lasts_once_fenced(rt.alloc()));
    holds_with_memory(&rt, is_dirty_again(rt.alloc()));
    holds_with_memory(&rt, stays_at_its_end(rt.alloc()));
}

// A word of the plain list: its value, its durable value, when it was last stored to (`stored`), and when it was last made durable (`settled`). A
// time is the number of a call, from 1 on, and 0 is before all calls. The word is dirty where it was stored to after it was last made durable.
#[derive(Clone, Copy)]
struct Timed {
    value: u64,
    durable: u64,
    stored: u64,
    settled: u64,
}

// A word of the plain list that is 0 and was never stored to.
const FRESH: Timed = Timed {
    value: 0,
    durable: 0,
    stored: 0,
    settled: 0,
};

// The plain list: its words, when each line was last written back (`backs`), and how often each line was stored to (`stores`).
#[derive(Drop)]
struct Plain {
    words: [Timed; 64],
    backs: [u64; 8],
    stores: [u64; 8],
}

// The next number of a row of numbers that looks random.
fn scrambled(seed: u64) -> u64 {
    seed.wrapping_mul(6364136223846793005)
        .wrapping_add(1442695040888963407)
}

// Makes durable, at this time, each dirty word of the plain list whose line was written back after the word was last stored to.
fn settle(plain: &mut Plain, time: u64) {
    for (i, word) in plain.words.iter_mut().enumerate() {
        if word.stored > word.settled && plain.backs[i / 8] > word.stored {
            word.durable = word.value;
            word.settled = time;
        }
    }
}

// Stores, writes back or fences, in the medium and in the plain list, as `number` says: parts of it choose the kind of call and the word or the line.
// A store puts `number` itself. `time` is the number of the call. The medium has 8 lines.
fn call(medium: &mut Medium, plain: &mut Plain, time: u64, number: u64)
    requires words { length medium.old.words ≡ 64 }
    requires stores { length medium.old.stores ≡ 8 }
    ensures words { length medium.new.words ≡ 64 }
    ensures stores { length medium.new.stores ≡ 8 }
{
    let at = number / 65536 % 64;
    let line = number / 65536 % 8;
    match number / 256 % 8 {
        // a fence, one time in eight
        0 => {
            medium.fence();
            settle(plain, time);
        }
        // a write-back of a line
        1 | 2 => {
            medium.write_back(line);
            plain.backs[line as usize] = time;
        }
        // a store to a word
        _ => {
            medium.store(at, number);
            plain.words[at as usize].value = number;
            plain.words[at as usize].stored = time;
            let line = (at / 8) as usize;
            plain.stores[line] = plain.stores[line].saturating_add(1);
        }
    }
}

// What a crash leaves of a word of the plain list by a choice. `place` is the number of the word, counted from 1. A word that is not dirty is left as
// it is. A dirty one is its durable value, its present one, or the product of the choice and the place.
fn word_left(word: &Timed, choice: u64, place: u64) -> u64 {
    if word.stored <= word.settled {
        return word.value;
    }
    match choice {
        0 => word.durable,
        1 => word.value,
        _ => choice.wrapping_mul(place),
    }
}

// Whether the medium has the values and the dirty words that the plain list says, and leaves by a choice the words that it says.
fn agrees_by(medium: &Medium, words: &[Timed; 64], choice: u64) -> bool
    requires { length medium.now.words ≡ 64 }
{
    let mut image = [0; 64];
    medium.image(choice, &mut image);
    for (i, word) in words.iter().enumerate() {
        let at = i as u64;
        if image[i] != word_left(word, choice, at + 1)
            || medium.is_dirty(at) != (word.stored > word.settled)
            || medium.load(at) != word.value
        {
            return false;
        }
    }
    true
}

// Whether the medium agrees with the plain list, by each of four choices.
fn agrees(medium: &Medium, words: &[Timed; 64]) -> bool
    requires { length medium.now.words ≡ 64 }
{
    agrees_by(medium, words, 0)
        && agrees_by(medium, words, 1)
        && agrees_by(medium, words, 2)
        && agrees_by(medium, words, u64::MAX)
}

// Whether the lines were stored to as often as the plain list says.
fn are_counted(medium: &Medium, stores: &[u64; 8]) -> bool
    requires { length medium.now.stores ≡ 8 }
{
    for (line, count) in stores.iter().enumerate() {
        if medium.stores(line as u64) != *count {
            return false;
        }
    }
    true
}

// Whether the medium agrees with the plain list after each of two thousand calls that look random.
fn agree(medium: &mut Medium) -> bool
    requires words { length medium.old.words ≡ 64 }
    requires stores { length medium.old.stores ≡ 8 }
{
    let mut plain = Plain {
        words: [FRESH; 64],
        backs: [0; 8],
        stores: [0; 8],
    };
    let mut number = 1;
    for time in 1..2001 {
        number = scrambled(number);
        call(medium, &mut plain, time, number);
        if !agrees(medium, &plain.words) {
            return false;
        }
    }
    are_counted(medium, &plain.stores)
}

#[test]
fn two_thousand_mixed_calls(rt: HostRuntime) -> Result<(), Fail> {
    let mut medium = lines_of_zeros(rt.alloc(), 8)?;
    holds(&rt, agree(&mut medium));
    Ok(())
}

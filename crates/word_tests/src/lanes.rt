//! The kernels by worked rows, and against the plain programs.

ghost use Rattle.std.specs.Prelude.{◌*◌, ◌<◌, ◌≤◌, All};

use crate::holds::holds;
use crate::plain;
use line_lanes::{add_touched, differing, first_apart, touched};

// The most lines in which words are compared or marked.
const LINES: usize = 40;

// The words of these lines, and three behind them, which belong to no line.
const WORDS: usize = 8 * LINES + 3;

// Whether one word of two lines differs in the second.
fn second_differs() -> bool {
    let zeros = [0; 16];
    let mut other = zeros;
    // word 9 is in line 1
    other[9] = 1;
    let mut out = [true, false];
    differing(&zeros, &other, &mut out);
    out == [false, true]
}

// Whether addresses of two lines mark both, and no address marks none.
fn are_touched() -> bool {
    let mut both = [false; 2];
    touched(&[0, 7, 8], &mut both);
    let mut untouched = [true; 2];
    touched(&[], &mut untouched);
    both == [true, true] && untouched == [false, false]
}

// Whether `add_touched` leaves a mark that was there before, and adds that of the line touched.
fn marks_stay() -> bool {
    let mut out = [true, false, false];
    add_touched(&[8, 15], &mut out);
    out == [true, true, false]
}

// Whether the first place from one on is found at which words differ, among sixteen and behind them, and the end where none does.
fn are_apart() -> bool {
    let zeros = [0; 21];
    let mut other = zeros;
    other[10] = 1;
    other[20] = 1;
    // the words differ at 10 and at 20; 21 is the end
    first_apart(&zeros, &other, 0) == 10
        && first_apart(&other, &zeros, 10) == 10
        && first_apart(&zeros, &other, 11) == 20
        && first_apart(&zeros, &zeros, 3) == 21
        && first_apart(&zeros, &other, 21) == 21
}

// Whether calls for no line at all leave an empty list of marks.
fn is_empty() -> bool {
    let mut out = [true; 0];
    differing(&[1, 2], &[3], &mut out);
    touched(&[], &mut out);
    out.is_empty()
}

#[test]
fn worked_rows(rt: HostRuntime) {
    holds(&rt, second_differs());
    holds(&rt, are_touched());
    holds(&rt, marks_stay());
    holds(&rt, is_empty());
    holds(&rt, are_apart());
}

// A list of numbers, which look random and are the same for the same seed.
fn scrambled(mut seed: u64) -> [u64; WORDS] {
    let mut words = [0; WORDS];
    for word in words.iter_mut() {
        seed = seed
            .wrapping_mul(6364136223846793005)
            .wrapping_add(1442695040888963407);
        *word = seed;
    }
    words
}

// Whether the kernel marks the lines in which `a` and `b` differ as the plain program does, among the first `lines` lines, and no mark behind them.
fn differ_as_plain(a: &[u64; WORDS], b: &[u64; WORDS], lines: usize) -> bool
    requires { lines ≤ 40 }
{
    // the marks before: true or false, by the number of lines
    let is_even = lines % 2 == 0;
    let mut out = [is_even; LINES];
    let mut wanted = [is_even; LINES];
    differing(a, b, &mut out[..lines]);
    plain::differing(a, b, &mut wanted[..lines]);
    out == wanted
}

// The first number of lines in which the kernel and the plain program do not mark the same lines as different; `None` where there is none.
fn first_other_differing(a: &[u64; WORDS], b: &[u64; WORDS]) -> Option<usize> {
    for lines in 0..LINES + 1 {
        if !differ_as_plain(a, b, lines) {
            return Some(lines);
        }
    }
    None
}

// The first place of a word for which this is so: two lists differ in one bit of this word alone, and the kernel and the plain program do not mark
// the same lines. It is `None` where there is no such place.
fn first_other_place() -> Option<usize> {
    let words = scrambled(1);
    for at in 0..WORDS {
        let mut other = words;
        other[at] ^= 1 << (at % 64);
        if first_other_differing(&words, &other).is_some() {
            return Some(at);
        }
    }
    None
}

#[test]
fn words_that_differ(rt: HostRuntime) {
    let words = scrambled(1);
    holds(&rt, first_other_differing(&words, &words).is_none());
    holds(&rt, first_other_differing(&words, &scrambled(2)).is_none());
    holds(&rt, first_other_place().is_none());
}

// Whether the kernel marks the lines of addresses as the plain program does. Each address is of a word in `lines` lines.
fn touch_as_plain(addresses: &[u64], lines: usize) -> bool
    requires few { lines ≤ 40 }
    requires within { All (λ address. address < 8 * lines) addresses.now }
{
    let mut out = [addresses.len() % 2 == 0; LINES];
    let mut wanted = out;
    touched(addresses, &mut out[..lines]);
    plain::touched(addresses, &mut wanted[..lines]);
    out == wanted
}

// The first number of lines in which the kernel and the plain program do not mark one address, at some place, in the same way.
fn first_other_address() -> Option<usize> {
    for lines in 1..LINES + 1 {
        for at in 0..8 * lines as u64 {
            if !touch_as_plain(&[at], lines) {
                return Some(lines);
            }
        }
    }
    None
}

// A list of 26 times the same address, which is of a word in `lines` lines.
fn repeated(address: u64, lines: usize) -> [u64; 26]
    requires { address < 8 * lines }
    ensures { All (λ address. address < 8 * lines) result }
{
    [address; 26]
}

// The first number of lines in which the kernel and the plain program do not mark the last address, given up to 26 times, in the same way.
fn first_other_repeated() -> Option<usize> {
    for lines in 1..LINES + 1 {
        let last = repeated(8 * lines as u64 - 1, lines);
        for count in 0..27 {
            if !touch_as_plain(&last[..count], lines) {
                return Some(lines);
            }
        }
    }
    None
}

// Addresses of words in `lines` lines, which look random and are the same for the same seed.
fn scattered(seed: u64, lines: usize) -> [u64; WORDS]
    requires few { lines ≤ 40 }
    requires some { 0 < lines }
    ensures { All (λ address. address < 8 * lines) result }
{
    let mut addresses = scrambled(seed);
    for address in addresses.iter_mut() {
        *address = *address / 65536 % (8 * lines as u64);
    }
    addresses
}

// The first number of lines in which the kernel and the plain program do not mark up to 59 scattered addresses in the same way.
fn first_other_scattered() -> Option<usize> {
    for lines in 1..LINES + 1 {
        let addresses = scattered(lines as u64, lines);
        for count in 0..60 {
            if !touch_as_plain(&addresses[..count], lines) {
                return Some(lines);
            }
        }
    }
    None
}

#[test]
fn addresses_touch_lines(rt: HostRuntime) {
    holds(&rt, first_other_address().is_none());
    holds(&rt, first_other_repeated().is_none());
    holds(&rt, first_other_scattered().is_none());
}

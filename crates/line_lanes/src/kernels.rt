//! The kernels. A line is 8 words, so it is one vector of eight `u64`, and no words of a line are left over. Addresses are
//! taken eight at once; those that fill no vector go through a plain loop.

ghost use Rattle.std.specs.Prelude.{◌≡◌, ◌≢◌, ◌*◌, ◌/◌, ◌<◌, ◌≤◌, ◌↔◌, All, IsTrue, length, slice_index};
ghost use Rattle.line_lanes.specs.Lines.{AddsMarks, AgreeFrom, DifferSomewhere, DiffersInLine, MarksLines, TouchesLine, is_line_of, is_touched};

use std::simd::prelude::*;

/// Marks the lines in which two lists of words differ. Words behind the last line are not looked at.
#[inline]
pub fn differing(a: &[u64], b: &[u64], out: &mut [bool])
    requires a_lines { 8 * length out.old ≤ length a.now }
    requires b_lines { 8 * length out.old ≤ length b.now }
    ensures { MarksLines (DiffersInLine a.now b.now) out.new }
{
    for (line, differs) in out.iter_mut().enumerate() {
        let first = 8 * line;
        *differs = differ(
            u64x8::from_slice(&a[first..]),
            u64x8::from_slice(&b[first..]),
        );
    }
}

/// The first place from one on at which two lists of words of one length differ, their length where that is none.
#[inline]
pub fn first_apart(a: &[u64], b: &[u64], from: usize) -> usize
    requires long { length a.now ≡ length b.now }
    requires from { from ≤ length a.now }
    ensures least { from ≤ result }
    ensures most { result ≤ length a.now }
    ensures same { AgreeFrom a.now b.now from result }
    ensures apart { result < length a.now → slice_index a.now result ≢ slice_index b.now result }
{
    // words that differ often stand one behind the other
    if from < a.len() && a[from] != b[from] {
        return from;
    }
    for at in same_sixteens(a, b, from)..a.len() {
        if a[at] != b[at] {
            return at;
        }
    }
    a.len()
}

/// A place up to which two lists of words are the same from one on, sixteen words at a time.
#[inline(always)]
fn same_sixteens(a: &[u64], b: &[u64], from: usize) -> usize
    requires long { length a.now ≡ length b.now }
    requires from { from ≤ length a.now }
    ensures least { from ≤ result }
    ensures most { result ≤ length a.now }
    ensures same { AgreeFrom a.now b.now from result }
{
    let mut at = from;
    while a.len() - at >= 16 {
        let differs = differ_in_sixteen(u64x16::from_slice(&a[at..]), u64x16::from_slice(&b[at..]));
        if differs {
            return at;
        }
        at += 16;
    }
    at
}

/// Whether sixteen words differ, as two lines do.
#[inline(always)]
fn differ_in_sixteen(a: u64x16, b: u64x16) -> bool
    ensures { IsTrue result ↔ DifferSomewhere a b }
{
    let apart = a ^ b;
    apart.reduce_or() != 0
}

/// Whether two lines differ: the words' differences, gathered into one word, are not 0. On x86-64 with SSE4.1 that is four
/// `pxor`, three `por` and one `ptest`.
#[inline(always)]
fn differ(a: u64x8, b: u64x8) -> bool
    ensures { IsTrue result ↔ DifferSomewhere a b }
{
    (a ^ b).reduce_or() != 0
}

/// Marks the lines in which some address lies, and unmarks every other.
#[inline]
pub fn touched(addresses: &[u64], out: &mut [bool])
    requires { All (λ address. address < 8 * length out.old) addresses.now }
    ensures { MarksLines (TouchesLine addresses.now) out.new }
{
    out.fill(false);
    add_touched(addresses, out);
}

/// Marks the lines in which some address lies, and leaves every other as it is.
#[inline]
pub fn add_touched(addresses: &[u64], out: &mut [bool])
    requires { All (λ address. address < 8 * length out.old) addresses.now }
    ensures { AddsMarks (is_touched addresses.now) out.old out.new }
{
    let whole = addresses.len() / 8;
    for eight in 0..whole {
        mark_eight(u64x8::from_slice(&addresses[8 * eight..]), out);
    }
    mark_left(&addresses[8 * whole..], out);
}

/// Marks the lines of eight addresses, which four `psrlq` find.
#[inline(always)]
fn mark_eight(addresses: u64x8, out: &mut [bool])
    requires { All (λ address. address < 8 * length out.old) addresses }
    ensures { AddsMarks (is_touched addresses) out.old out.new }
{
    mark_lines(&(addresses >> 3).to_array(), out);
}

/// Marks the lines with these numbers.
#[inline(always)]
fn mark_lines(lines: &[u64], out: &mut [bool])
    requires { All (λ line. line < length out.old) lines.now }
    ensures { AddsMarks (is_line_of lines.now) out.old out.new }
{
    for line in lines {
        out[*line as usize] = true;
    }
}

/// Marks the lines of the addresses that fill no vector.
fn mark_left(addresses: &[u64], out: &mut [bool])
    requires { All (λ address. address < 8 * length out.old) addresses.now }
    ensures { AddsMarks (is_touched addresses.now) out.old out.new }
{
    for address in addresses {
        out[(*address / 8) as usize] = true;
    }
}

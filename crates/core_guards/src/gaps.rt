//! What guards on the ring of gaps ask: where its words are, which gap a word names, and whether two regions have the same words in the lines
//! of a gap.

ghost use Rattle.std.specs.Prelude.{◌≡◌, ◌^◌, ◌<◌, ◌≤◌, ◌↔◌, ℕ, IsTrue, slice_index};
ghost use Rattle.cx_core.specs.Gaps.{IsSameLine, gap_of};
ghost use Rattle.cx_core.specs.Layout.{gap_at, gap_slots};

use crate::callers::Callers;

/// The slots of the ring of gaps for each caller.
pub const GAP_SLOTS: u64 = 512;
/// The words of a slot of the ring of gaps.
pub const SLOT_WORDS: u64 = 16;
/// The words of the ring of gaps for each caller.
pub const GAP_WORDS: u64 = GAP_SLOTS * SLOT_WORDS;

/// The number of slots of the ring of gaps.
pub fn gap_slots(callers: u32) -> u64
    ensures { result ≡ gap_slots callers }
{
    GAP_SLOTS * u64::from(callers)
}

/// Word `i` of a slot of the ring of gaps.
pub fn gap_at(callers: u32, slot: u64, i: u64) -> usize
    requires slot { slot ≤ gap_slots callers }
    requires i { i < SLOT_WORDS }
    ensures { result ≡ gap_at callers slot i }
{
    4 + 10563 * callers as usize + (SLOT_WORDS * slot + i) as usize
}

/// Whether a caller may load word `i` of slot `s` of the ring of gaps: the word is there.
pub fn can_load_gap(callers: Callers, s: u64, i: u64) -> bool
    ensures { IsTrue result ↔ ((s < gap_slots callers.number) × (i < 16)) }
{
    s < gap_slots(callers.number) && i < SLOT_WORDS
}

/// A gap that a word of the ring names: the lines strictly between two, which the entry with the ticket leaves as they are.
#[derive(Clone, Copy, Debug, Drop)]
pub struct NamedGap {
    pub ticket: u64,
    pub from: u64,
    pub to: u64,
}

/// The gap that a word of slot `s` names.
pub fn gap_of(callers: Callers, s: u64, word: u64) -> NamedGap
    requires { s < gap_slots callers.number }
    ensures value { gap_of callers.number s word ≡ record { ticket = result.ticket; from = result.from; to = result.to } }
    ensures ticket { result.ticket < 2 ^ 43 }
    ensures from { result.from < 2 ^ 17 }
    ensures to { result.to < 2 ^ 17 }
{
    NamedGap {
        ticket: word / 0x4_0000_0000 * gap_slots(callers.number) + s,
        from: word / 0x2_0000 % 0x2_0000,
        to: word % 0x2_0000,
    }
}

/// Whether two regions have the same words in each line strictly between two.
pub fn is_quiet(before: &[u64], after: &[u64], from: u64, to: u64) -> bool
    requires from { from < 2 ^ 17 }
    requires to { to < 2 ^ 17 }
    ensures { IsTrue result ↔ ((n : ℕ) → from < n → n < to → IsSameLine n before.now after.now) }
{
    for n in from + 1..to {
        if !is_same_line(n, before, after) {
            return false;
        }
    }
    true
}

/// Whether two regions have the same words in line `n`.
fn is_same_line(n: u64, before: &[u64], after: &[u64]) -> bool
    requires { n < 2 ^ 17 }
    ensures { IsTrue result ↔ IsSameLine n before.now after.now }
{
    for k in 0..8 {
        let i = (8 * n + k) as usize;
        if word_at(after, i) != word_at(before, i) {
            return false;
        }
    }
    true
}

/// Word `i` of a region, 0 after its end.
fn word_at(region: &[u64], i: usize) -> u64
    ensures { result ≡ slice_index region.now i }
{
    region.get(i).copied().unwrap_or(0)
}

//! Kinds of step by their names and numbers.

ghost use Rattle.std.specs.Prelude.{◌≡◌};
ghost use Rattle.std.specs.Option.{option_copied};
ghost use Rattle.trace_text.specs.Kinds.{kind_without, kind_with_one, kind_with_two, kind_with_three, numbered, with_first, with_second, with_third};

use cx_core::Kind;
use plain_text::{is_word, number_of, split_word};

/// The kind of this name with the numbers behind it.
pub(crate) fn read_numbered(name: &[u8], rest: Option<&[u8]>) -> Option<Kind>
    ensures { result ≡ numbered name.now (option_copied rest.entry) }
{
    match rest {
        None => kind_without(name),
        Some(text) => read_first(name, text),
    }
}

/// Reads a kind of step from its first number on.
#[tactic(auto, unfolding(crate::specs::Kinds::with_first))]
fn read_first(name: &[u8], text: &[u8]) -> Option<Kind>
    ensures { result ≡ with_first name.now text.now }
{
    let (first, rest) = split_word(text);
    let first = number_of(first)?;
    read_second(name, first, rest)
}

/// Reads a kind of step from its second number on.
#[tactic(auto, unfolding(crate::specs::Kinds::with_second))]
fn read_second(name: &[u8], first: u64, rest: Option<&[u8]>) -> Option<Kind>
    ensures { result ≡ with_second name.now first (option_copied rest.entry) }
{
    let Some(text) = rest else {
        return kind_with_one(name, first);
    };
    let (second, rest) = split_word(text);
    let second = number_of(second)?;
    read_third(name, first, second, rest)
}

/// Reads a kind of step from its third number on.
#[tactic(auto, unfolding(crate::specs::Kinds::with_third))]
fn read_third(name: &[u8], first: u64, second: u64, rest: Option<&[u8]>) -> Option<Kind>
    ensures { result ≡ with_third name.now first second (option_copied rest.entry) }
{
    let Some(text) = rest else {
        return kind_with_two(name, first, second);
    };
    let third = number_of(text)?;
    kind_with_three(name, first, second, third)
}

/// The kind of this name that has no number.
#[tactic(auto, unfolding(crate::specs::Kinds::kind_without))]
fn kind_without(name: &[u8]) -> Option<Kind>
    ensures { result ≡ kind_without name.now }
{
    if is_word(b"load_free", name) {
        Some(Kind::LoadFree)
    } else if is_word(b"load_cur", name) {
        Some(Kind::LoadCur)
    } else if is_word(b"publish", name) {
        Some(Kind::Publish)
    } else if is_word(b"retire", name) {
        Some(Kind::Retire)
    } else if is_word(b"confirm", name) {
        Some(Kind::Confirm)
    } else if is_word(b"unprotect", name) {
        Some(Kind::Unprotect)
    } else if is_word(b"open_free", name) {
        Some(Kind::OpenFree)
    } else {
        None
    }
}

/// The kind of this name with one number.
#[tactic(auto, unfolding(crate::specs::Kinds::kind_with_one))]
fn kind_with_one(name: &[u8], a: u64) -> Option<Kind>
    ensures { result ≡ kind_with_one name.now a }
{
    if is_word(b"link", name) {
        Some(Kind::Link { j: a })
    } else if is_word(b"look", name) {
        Some(Kind::Look { s: a })
    } else if is_word(b"try_exclusive", name) {
        Some(Kind::TryExclusive { r: a })
    } else if is_word(b"try_shared", name) {
        Some(Kind::TryShared { r: a })
    } else if is_word(b"back_off", name) {
        Some(Kind::BackOff { r: a })
    } else if is_word(b"downgrade", name) {
        Some(Kind::Downgrade { r: a })
    } else if is_word(b"release_exclusive", name) {
        Some(Kind::ReleaseExclusive { r: a })
    } else if is_word(b"protect", name) {
        Some(Kind::Protect { p: a })
    } else if is_word(b"close_low", name) {
        Some(Kind::CloseLow { target: a })
    } else if is_word(b"scan", name) {
        Some(Kind::Scan { d: a })
    } else if is_word(b"offer", name) {
        Some(Kind::Offer { j: a })
    } else {
        None
    }
}

/// The kind of this name with two numbers.
#[tactic(auto, unfolding(crate::specs::Kinds::kind_with_two))]
fn kind_with_two(name: &[u8], a: u64, b: u64) -> Option<Kind>
    ensures { result ≡ kind_with_two name.now a b }
{
    if is_word(b"persist", name) {
        Some(Kind::Persist { r: a, i: b })
    } else if is_word(b"load_offer", name) {
        Some(Kind::LoadOffer { k: a, t: b })
    } else if is_word(b"load_gap", name) {
        Some(Kind::LoadGap { s: a, i: b })
    } else {
        None
    }
}

/// The kind of this name with three numbers.
#[tactic(auto, unfolding(crate::specs::Kinds::kind_with_three))]
fn kind_with_three(name: &[u8], a: u64, b: u64, c: u64) -> Option<Kind>
    ensures { result ≡ kind_with_three name.now a b c }
{
    if is_word(b"write_cell", name) {
        Some(Kind::WriteCell { j: a, i: b, v: c })
    } else if is_word(b"read_cell", name) {
        Some(Kind::ReadCell { t: a, k: b, i: c })
    } else if is_word(b"store_word", name) {
        Some(Kind::StoreWord { r: a, i: b, v: c })
    } else if is_word(b"write_set", name) {
        Some(Kind::WriteSet { j: a, i: b, v: c })
    } else if is_word(b"read_set", name) {
        Some(Kind::ReadSet { k: a, t: b, i: c })
    } else if is_word(b"note_gap", name) {
        Some(Kind::NoteGap { s: a, i: b, v: c })
    } else {
        None
    }
}

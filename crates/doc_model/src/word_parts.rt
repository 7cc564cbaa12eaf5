//! The parts that the words of an operation or a reply have: a kind, a key, a document and a number.

ghost use Rattle.std.specs.Prelude.{◌≡◌, ◌==◌, ◌+◌, ◌-◌, ◌*◌, ◌^◌, ◌<◌, ◌≤◌, ◌++◌, ℕ, List, IfOk, IfSome, IfNone, MatchBool, length, min};
ghost use Rattle.cx_base.specs.Packing.{packed, unpacked};
ghost use Rattle.doc_model.specs.Words as spec;
ghost use Rattle.doc_model.specs.WordParts as kinds;

use crate::packed_texts::{are_between, are_zero, is_padded};
use cx_base::{Bytes, OP_WORDS, OpWords, pack, unpack};
use std::alloc::{AllocError, Global};
use std::marker::Model;

/// The word, of the 144 of an operation or a reply, that has the kind.
pub const KIND_AT: usize = 0;

/// The word that has the number of the key's bytes.
pub const KEY_LENGTH_AT: usize = 1;

/// The word that has the number of the document's bytes.
pub const DOCUMENT_LENGTH_AT: usize = 2;

/// The word that has the number, a signed one in two's complement.
pub const NUMBER_AT: usize = 3;

/// The first word that is of no part. Those up to the key are, and are 0.
const FREE_AT: usize = 4;

/// The first word of the key, whose words end where those of the document begin.
pub const KEY_AT: usize = 8;

/// The first word of the document, whose words go to the end.
pub const DOCUMENT_AT: usize = 16;

/// Writes the words of some parts: behind the head `key_words` words for the key, and the rest for the document.
fn write_words(
    into: &mut [u64],
    key_words: usize,
    kind: u64,
    key: &[u8],
    document: &[u8],
    number: u64,
)
    requires room { 8 + key_words ≤ length into.old }
    requires key_fits { length key.now ≤ 8 * key_words }
    requires document_fits { length document.now ≤ 8 * (length into.old - (8 + key_words)) }
    ensures { into.new ≡ spec.words_in key_words (length into.old - (8 + key_words)) kind key.now document.now number }
{
    into[..8].copy_from_slice(&[
        kind,
        key.len() as u64,
        document.len() as u64,
        number,
        0,
        0,
        0,
        0,
    ]);
    pack(key, &mut into[8..8 + key_words]);
    pack(document, &mut into[8 + key_words..]);
}

/// The words of some parts.
pub(crate) fn words_with(kind: u64, key: &[u8], document: &[u8], number: u64) -> OpWords
    requires key_short { length key.now ≤ 64 }
    requires document_short { length document.now ≤ 1024 }
    ensures { result ≡ spec.words_with kind key.now document.now number }
{
    let mut words = [0; OP_WORDS];
    write_words(&mut words, 8, kind, key, document, number);
    words
}

/// Writes eight words, a key behind them, and a document to the end.
fn write_packed(into: &mut [u64], head: &[u64], key: &[u64], document: &[u64])
    requires head { length head.now ≡ 8 }
    requires whole { length into.old ≡ 8 + length key.now + length document.now }
    ensures { into.new ≡ head.now ++ (key.now ++ document.now) }
{
    into[..8].copy_from_slice(head);
    into[8..8 + key.len()].copy_from_slice(key);
    into[8 + key.len()..].copy_from_slice(document);
}

/// The words of a kind, and of a key and a document that are packed already; their numbers of bytes are given.
pub(crate) fn words_of_packed(
    kind: u64,
    key_len: u64,
    key: &[u64; 8],
    document_len: u64,
    document: &[u64; 128],
) -> OpWords
    ensures { (name text : List ℕ) → key_len ≡ length name → key.now ≡ packed 8 name → document_len ≡ length text → document.now ≡ packed 128 text → result ≡ spec.words_with kind name text 0 }
{
    let mut words = [0; OP_WORDS];
    let head = [kind, key_len, document_len, 0, 0, 0, 0, 0];
    write_packed(&mut words, &head, key, document);
    words
}

/// A key or a document where it stands in words: at most `N` bytes.
#[derive(Drop)]
pub(crate) struct Text<'a, const N: usize> {
    words: &'a [u64],
    len: usize,
}

impl<'a, const N: usize> Model for Text<'a, N> {
    ghost use Rattle.std.specs.Prelude.{◌*◌, ◌≤◌, ℕ, List, length};
    ghost use Rattle.cx_base.specs.Packing.{unpacked};

    ghost Value = { List ℕ };

    ghost view = { λ t. unpacked t.len t.words.now };

    ghost invariant = { λ t. (t.len ≤ N) × (N ≤ 8 * length t.words.now) };
}

impl<'a, const N: usize> Text<'a, N> {
    /// The first `len` bytes of some words, and of more than `N` the first `N`.
    fn at(words: &'a [u64], len: u64) -> Self
        requires { N ≤ 8 * length words.now }
        ensures { result ≡ unpacked (min len N) words.now }
    {
        Text {
            words,
            len: len.min(N as u64) as usize,
        }
    }

    /// Whether there is no byte.
    pub(crate) fn is_empty(&self) -> bool
        ensures { result ≡ (length self.now == 0) }
    {
        self.len == 0
    }

    /// Whether the bytes are a key: 1 to 64 visible characters of ASCII.
    #[inline(always)]
    pub(crate) fn is_key(&self) -> bool
        ensures { result ≡ kinds.is_key self.now }
    {
        if self.len == 0 || self.len > 64 {
            return false;
        }
        are_between::<0x21, 0x7E>(self.words, self.len)
    }

    /// Whether the bytes are a document's: 1 to 1,024 bytes that are no control characters below 32.
    pub(crate) fn is_document(&self) -> bool
        ensures { result ≡ kinds.is_document self.now }
    {
        if self.len == 0 || self.len > 1024 {
            return false;
        }
        are_between::<0x20, 0xFF>(self.words, self.len)
    }

    /// Copies the bytes. `Err` means out of memory.
    pub(crate) fn bytes(&self, alloc: Global) -> Result<Bytes, AllocError>
        ensures { IfOk result (λ bytes. bytes ≡ self.now) }
    {
        let mut bytes = [0; N];
        let text = &mut bytes[..self.len];
        unpack(self.words, text);
        Bytes::of(alloc, text)
    }
}

/// Whether some parts have these words: the lengths are within the limits, and what no part uses is 0.
#[inline(always)]
fn have_parts(words: &OpWords) -> bool
    ensures { MatchBool result (kinds.HaveParts words.now) (kinds.HaveNoParts words.now) }
{
    let key_len = words[KEY_LENGTH_AT];
    let document_len = words[DOCUMENT_LENGTH_AT];
    if key_len > 64 || document_len > 1024 {
        return false;
    }
    if !are_zero(&words[FREE_AT..KEY_AT]) {
        return false;
    }
    if !is_padded(&words[KEY_AT..DOCUMENT_AT], key_len) {
        return false;
    }
    is_padded(&words[DOCUMENT_AT..], document_len)
}

/// The parts of some words.
#[derive(Drop)]
pub(crate) struct Parts<'a> {
    pub(crate) kind: u64,
    pub(crate) key: Text<'a, 64>,
    pub(crate) document: Text<'a, 1024>,
    pub(crate) number: u64,
}

impl<'a> Parts<'a> {
    /// The parts that have these words. None exactly where no parts have them. Inlined, no parts are written to memory and read back at once.
    #[inline(always)]
    pub(crate) fn of(words: &'a OpWords) -> Option<Parts<'a>>
        ensures some { IfSome result (λ p. words.now ≡ spec.words_with p.kind p.key p.document p.number) }
        ensures small { IfSome result (λ p. p.number < 2 ^ 64) }
        ensures texts { IfSome result (λ p. kinds.IsShortText 64 p.key × kinds.IsShortText 1024 p.document) }
        ensures none { IfNone result (kinds.HaveNoParts words.now) }
    {
        if !have_parts(words) {
            return None;
        }
        Some(Parts {
            kind: words[KIND_AT],
            key: Text::<64>::at(&words[KEY_AT..DOCUMENT_AT], words[KEY_LENGTH_AT]),
            document: Text::<1024>::at(&words[DOCUMENT_AT..], words[DOCUMENT_LENGTH_AT]),
            number: words[NUMBER_AT],
        })
    }
}

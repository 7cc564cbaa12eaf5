//! Where a key stands among sorted pairs, and whether there is room for one more.

ghost use Rattle.std.specs.Prelude.{◌≡◌, ◌-◌, ◌^◌, ◌∷◌, ◌++◌, ℕ, min, IfOk, IfErr, ◌≤◌, length, drop};
ghost use Rattle.std.specs.Option.{option_copied};
ghost use Rattle.cx_base.specs.Store as store;
ghost use Rattle.doc_model.specs.Meaning as meaning;
ghost use Rattle.doc_model.specs.Place.{IsAtPlace, IsGapFor, pairs_of};

use crate::operations::Pair;

/// The place of a key, or the place where it would go.
pub(crate) fn place_of(pairs: &[Pair], key: &[u8]) -> Result<usize, usize>
    requires { store.KeysRise (pairs_of pairs.now) }
    ensures found { IfOk result (IsAtPlace pairs.now key.now) }
    ensures missing { IfErr result (IsGapFor pairs.now key.now) }
{
    pairs.binary_search_by(|pair| pair.key.as_slice().cmp(&key))
}

/// The place from which the keys are above this one.
pub(crate) fn place_above(pairs: &[Pair], key: &[u8]) -> usize
    requires { store.KeysRise (pairs_of pairs.now) }
    ensures within { result ≤ length pairs.now }
    ensures above { meaning.pairs_above key.now (pairs_of pairs.now) ≡ pairs_of (drop result pairs.now) }
{
    match place_of(pairs, key) {
        Ok(at) => at + 1,
        Err(at) => at,
    }
}

/// The document of a key.
pub(crate) fn document_of<'a>(pairs: &'a [Pair], key: &[u8]) -> Option<&'a [u8]>
    requires { store.KeysRise (pairs_of pairs.now) }
    ensures { option_copied result ≡ meaning.document_at key.now (pairs_of pairs.now) }
{
    match place_of(pairs, key) {
        Ok(at) => {
            let pair = &pairs[at];
            Some(pair.doc.as_slice())
        }
        Err(_) => None,
    }
}

/// The revision of a key, and 0 where it is missing.
pub(crate) fn revision_of(pairs: &[Pair], key: &[u8]) -> u64
    requires { store.KeysRise (pairs_of pairs.now) }
    ensures { (last : ℕ) → result ≡ meaning.standing_revision key.now (record { last = last; triples = pairs.now }) }
{
    match place_of(pairs, key) {
        Ok(at) => {
            let pair = &pairs[at];
            pair.revision
        }
        Err(_) => 0,
    }
}

/// The lines that the bytes take, 56 of them in each.
fn blocks(bytes: &[u8]) -> u64
    ensures { result ≡ store.blocks bytes.now }
{
    bytes.len().div_ceil(56) as u64
}

/// The lines of a pair: its node, the key's and the document's.
fn pair_lines(key: &[u8], doc: &[u8]) -> u64
    ensures { result ≡ store.pair_lines (key.now, doc.now) }
{
    1 + blocks(key) + blocks(doc)
}

/// The lines of the pairs, and 2^64 - 1 where they are more.
fn lines_of(pairs: &[Pair]) -> u64
    ensures { result ≡ min (store.lines_of (pairs_of pairs.now)) (2 ^ 64 - 1) }
{
    let mut lines: u64 = 0;
    for pair in pairs {
        lines = lines.saturating_add(pair_lines(pair.key.as_slice(), pair.doc.as_slice()));
    }
    lines
}

/// Whether `lines` lines, the first of which holds no pair, hold this pair between those below and those above.
pub(crate) fn has_room(lines: u64, below: &[Pair], key: &[u8], doc: &[u8], above: &[Pair]) -> bool
    ensures { result ≡ meaning.has_room lines (pairs_of below.now ++ (key.now, doc.now) ∷ pairs_of above.now) }
{
    let others = lines_of(below).saturating_add(lines_of(above));
    others.saturating_add(pair_lines(key, doc)) <= lines.saturating_sub(1)
}

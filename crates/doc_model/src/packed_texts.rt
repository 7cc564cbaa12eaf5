//! Texts that are packed into words, tested where they stand, so that no byte of them is copied.

ghost use Rattle.std.specs.Prelude.{◌≡◌, ◌*◌, ◌/◌, ◌%◌, ◌^◌, ◌<◌, ◌≤◌, ◌↔◌, ℕ, IsTrue, All, length};
ghost use Rattle.cx_base.specs.Packing.{byte_at};
ghost use Rattle.doc_model.specs.WordParts.{IsBetween, IsPadded};

/// Whether all words are 0.
pub(crate) fn are_zero(words: &[u64]) -> bool
    ensures { IsTrue result ↔ All (λ word. word ≡ 0) words.now }
{
    let mut all = 0;
    for word in words {
        all |= *word;
    }
    all == 0
}

/// Whether the bytes behind the first ones are 0.
pub(crate) fn is_padded(words: &[u64], len: u64) -> bool
    ensures { IsTrue result ↔ IsPadded len words.now }
{
    let whole = (len / 8) as usize;
    if whole >= words.len() {
        return true;
    }
    if words[whole] >> (8 * (len % 8)) != 0 {
        return false;
    }
    are_zero(&words[whole + 1..])
}

/// Whether the bytes of a word are all from one number to another.
fn is_word_between<const LEAST: u64, const MOST: u64>(word: u64) -> bool
    ensures { IsTrue result ↔ ((i : ℕ) → i < 8 → IsBetween LEAST MOST (word / 2 ^ (8 * i) % 256)) }
{
    for i in 0..8u64 {
        let byte = (word >> (8 * i)) % 256;
        if byte < LEAST || byte > MOST {
            return false;
        }
    }
    true
}

/// Whether the first bytes are all from one number to another. Those of whole words are tested word by word.
pub(crate) fn are_between<const LEAST: u64, const MOST: u64>(words: &[u64], len: usize) -> bool
    requires { len ≤ 8 * length words.now }
    ensures { IsTrue result ↔ ((i : ℕ) → i < len → IsBetween LEAST MOST (byte_at words.now i)) }
{
    let whole = len / 8;
    for at in 0..whole {
        if !is_word_between::<LEAST, MOST>(words[at]) {
            return false;
        }
    }
    for i in 8 * whole..len {
        let byte = (words[i / 8] >> (8 * (i % 8))) % 256;
        if byte < LEAST || byte > MOST {
            return false;
        }
    }
    true
}

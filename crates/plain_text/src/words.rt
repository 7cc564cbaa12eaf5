//! The words of a line, with one space between two words.

ghost use Rattle.std.specs.Prelude.{◌≡◌, ◌<◌, IfSome, IfNone, IsUtf8, is_none, length, true, false};
ghost use Rattle.std.specs.Option.{option_copied};
ghost use Rattle.std.specs.List.{position, before_first, after_first};
ghost use Rattle.plain_text.specs.Words.{first_word, has_byte, is_byte, is_word, rest_of};

/// What stands before the first such byte, and what stands after it.
pub(crate) fn cut_at(bytes: &[u8], byte: u8) -> Option<(&[u8], &[u8])>
    ensures none { IfNone result (has_byte (is_byte byte) bytes.now ≡ false) }
    ensures some { IfSome result (λ parts. (has_byte (is_byte byte) bytes.now ≡ true)
        × (parts.0.now ≡ before_first (is_byte byte) bytes.now)
        × (parts.1.now ≡ after_first (is_byte byte) bytes.now)) }
{
    match place_of(bytes, byte) {
        Some(at) => Some((&bytes[..at], &bytes[at + 1..])),
        None => None,
    }
}

/// The place of the first such byte.
fn place_of(bytes: &[u8], byte: u8) -> Option<usize>
    ensures value { result ≡ position (is_byte byte) bytes.now }
    ensures bound { IfSome result (λ at. at < length bytes.now) }
{
    bytes.iter().position(|b| *b == byte)
}

/// The first word of a text, and what stands behind its space.
pub fn split_word(text: &[u8]) -> (&[u8], Option<&[u8]>)
    ensures word { result.0.now ≡ first_word text.now }
    ensures rest { option_copied result.1 ≡ rest_of text.now }
    ensures utf8 { IsUtf8 text.now → IfSome result.1 (λ rest. IsUtf8 rest.now) }
{
    match cut_at(text, b' ') {
        Some((word, rest)) => (word, Some(rest)),
        None => (text, None),
    }
}

/// Whether the text is one word alone.
pub fn is_one_word(text: &[u8]) -> bool
    ensures { result ≡ is_none (rest_of text.now) }
{
    split_word(text).1.is_none()
}

/// Whether the text is this word.
pub fn is_word(name: &[u8], text: &[u8]) -> bool
    ensures { result ≡ is_word name.now text.now }
{
    text == name
}

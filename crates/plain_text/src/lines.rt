//! The lines of a text.

ghost use Rattle.std.specs.Prelude.{◌≡◌, ◌<◌, ◌∷◌, length};
ghost use Rattle.plain_text.specs.Lines.{text_lines, without_return};

use crate::words::cut_at;

/// The first line of a text that is not empty, and the text after it.
pub fn next_line(bytes: &[u8]) -> (&[u8], &[u8])
    requires { 0 < length bytes.now }
    ensures lines { text_lines bytes.now ≡ result.0.now ∷ text_lines result.1.now }
    ensures shorter { length result.1.now < length bytes.now }
{
    match cut_at(bytes, b'\n') {
        Some((line, rest)) => (without_return(line), rest),
        None => (bytes, &[]),
    }
}

/// The line without a carriage return at its end.
fn without_return(line: &[u8]) -> &[u8]
    ensures { result.now ≡ without_return line.now }
{
    line.strip_suffix(b"\r").unwrap_or(line)
}

//! Words of lines that may be there or not.

ghost use Rattle.std.specs.Prelude.{◌≡◌, ◌<◌};
ghost use Rattle.avl_words.specs.Links.{high_of};
ghost use Rattle.avl_words.specs.Lines.{word_of};

/// Word `place` of a line, and 0 where there is no such word.
pub fn word_at(words: &[u64], line: u64, place: usize) -> u64
    requires { place < 8 }
    ensures { result ≡ word_of words.now line place }
{
    if line > (words.len() / 8) as u64 {
        return 0;
    }
    words.get(8 * line as usize + place).copied().unwrap_or(0)
}

/// The height of the tree below a link, as its node says.
pub fn high_at(words: &[u64], line: u64) -> u64
    ensures { result ≡ high_of line words.now }
{
    if line == 0 {
        0
    } else {
        word_at(words, line, 2)
    }
}

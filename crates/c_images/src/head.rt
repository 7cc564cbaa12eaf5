//! The head of an image in words.

ghost use Rattle.std.specs.Prelude.{◌↔◌, IsTrue, MatchResult};
ghost use Rattle.c_images.specs.Words.{IsFormat, IsHeadFault, IsHeaded, IsHeadOf, IsKind};

use crate::reader::WordsFault;

/// How many words the head has.
pub(crate) const HEAD: usize = 8;
/// "githoppu" in bytes, the first in the lowest bits.
pub(crate) const NAME: u64 = 8462387323625302375;
/// The format of an image of all replicas.
pub(crate) const REPLICAS: u64 = 1;
/// The format of an image of one region.
pub(crate) const ONE_REGION: u64 = 2;

/// The head of an image in words: `format` is 1 or 2, `callers` is how many callers the service has that the image is of, `lines` is how many lines
/// the service's object has, and `root` is the root code, which names a replica and its place.
#[derive(Clone, Copy, Debug, Drop)]
pub struct Head {
    pub format: u64,
    pub callers: u32,
    pub lines: u64,
    pub root: u64,
}

/// The head of `words`, which are to be an image of an object of this `kind`. `Err` is `Head` where the words begin with no head, and `Kind` where
/// they begin with the head of an object of another kind, which it names.
pub fn head_of(words: &[u64], kind: u64) -> Result<Head, WordsFault>
    ensures { MatchResult result (IsHeadOf kind words.now) (IsHeadFault kind words.now) }
{
    if !is_headed(words) {
        return Err(WordsFault::Head);
    }
    if words[2] != kind {
        return Err(WordsFault::Kind { found: words[2] });
    }
    // word 0 is the name, and the words 6 and 7 are 0
    Ok(Head {
        format: words[1],
        callers: words[3] as u32,
        lines: words[4],
        root: words[5],
    })
}

/// Whether words begin with the head of some image: at least eight words, of which the first is the name, with a known format and kind, two zeros at
/// the end, 1 to 8 callers, and 64 to 16,384 lines.
fn is_headed(words: &[u64]) -> bool
    ensures { IsTrue result ↔ IsHeaded words.now }
{
    words.len() >= HEAD
        && words[0] == NAME
        && is_format(words[1])
        && is_kind(words[2])
        && words[6] == 0
        && words[7] == 0
        && words[3] >= 1
        && words[3] <= 8
        && words[4] >= 64
        && words[4] <= 16384
}

/// Whether this is the number of a kind of objects: 1 is a document store, 2 a queue, 3 the object of a program.
fn is_kind(kind: u64) -> bool
    ensures { IsTrue result ↔ IsKind kind }
{
    kind == 1 || kind == 2 || kind == 3
}

/// Whether this is the number of a format: 1 has the words of all replicas, 2 those of one region.
fn is_format(format: u64) -> bool
    ensures { IsTrue result ↔ IsFormat format }
{
    format == REPLICAS || format == ONE_REGION
}

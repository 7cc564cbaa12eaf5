//! What the lines of an image text say so far, and why one is refused.

ghost use Rattle.std.specs.Prelude.{◌≡◌};

use cx_core::Image;
use std::fmt;

/// The numbers of the first line: callers, the lines of their object, and the words of all replicas.
#[derive(Clone, Copy, Drop)]
pub struct ImageHead {
    pub callers: u32,
    pub lines: u64,
    pub count: u64,
}

/// What the lines say so far.
#[derive(Drop)]
pub enum ImageLines {
    /// There is no line.
    Nothing,
    /// The first line.
    Begun(ImageHead),
    /// The root, and the words of the lines behind it.
    Whole(Image),
}

/// Why a text is no image text.
pub type TextFault = plain_text::TextFault<ImageReason>;

/// Why a line is refused, by which of the three kinds of line should stand there.
#[derive(Clone, Copy, Debug, PartialEq, Eq)]
pub enum ImageReason {
    /// The first line is not the one with the numbers of the image, or is missing.
    Image,
    /// The second line is not the one with the root, or is missing.
    Root,
    /// A further line is none of a word, or its word may not stand there.
    Word,
}

impl ImageReason {
    ghost use Rattle.image_text.specs.Reasons.{image_reason_text};

    /// The reason as a word.
    pub fn word(self) -> &'static str
        ensures { result.now ≡ image_reason_text self }
    {
        match self {
            ImageReason::Image => "image",
            ImageReason::Root => "root",
            ImageReason::Word => "word",
        }
    }
}

impl fmt::Display for ImageReason {
    ghost use Rattle.std.specs.Prelude.{Some};
    ghost use Rattle.image_text.specs.Reasons.{image_reason_text};

    ghost output = { λ reason. Some (image_reason_text reason) };

    fn fmt<W: fmt::Write>(&self, f: &mut fmt::Formatter<W>) -> fmt::Result {
        f.write_str(self.word())
    }
}

//! Images read from their text.

ghost use Rattle.std.specs.Prelude.{◌≡◌, IfErr, IfOk};
ghost use Rattle.plain_text.specs.LineGrammar.{IsOkOr};
ghost use Rattle.recovery.specs.Images.{IsReadable};
ghost use Rattle.image_text.specs.ImageTexts.{IsImageFault, IsImageText};
ghost use Rattle.image_text.specs.Reading.{with_root};

use crate::heads::{read_head, read_pair, read_root};
use crate::lines::{ImageHead, ImageLines, ImageReason, TextFault};
use cx_base::Items;
use cx_core::Image;
use plain_text::{LineReader, read_lines};
use std::alloc::{AllocError, Global};

/// Reads an image. It is Ok exactly for image texts, unless memory runs out. Other texts are refused by the first line with
/// which the lines so far are none, or by the missing one where they end before the second.
pub fn read_image(alloc: Global, bytes: &[u8]) -> Result<Image, TextFault>
    // What is read is what the text says.
    ensures read { IfOk result (IsImageText bytes.now) }
    // What an image text says is read.
    ensures only { (image : Image) → IsImageText bytes.now image → IsOkOr image result }
    // It may be recovered from.
    ensures readable { IfOk result (λ image. IsReadable image.lines image) }
    // The line refused is the first with which the lines so far are none, with the reason for it.
    ensures refused { IfErr result (IsImageFault bytes.now) }
{
    match read_lines(alloc, bytes, ImageLines::Nothing)? {
        ImageLines::Nothing => Err(TextFault::Refused {
            line: 1,
            reason: ImageReason::Image,
        }),
        ImageLines::Begun(_) => Err(TextFault::Refused {
            line: 2,
            reason: ImageReason::Root,
        }),
        ImageLines::Whole(image) => Ok(image),
    }
}

impl LineReader for ImageLines {
    ghost use Rattle.image_text.specs.ImageTexts.{image_grammar, KeepsImageLimits};
    ghost use Rattle.image_text.specs.Reading.{judged_image};
    ghost use Rattle.image_text.specs.Judging.{reads_images};

    type Reason = ImageReason;

    ghost grammar = { image_grammar };

    ghost judged = { judged_image };

    ghost Keeps = { KeepsImageLimits };

    /// Adds a line, or gives the reason for which it is refused.
    fn add_line(&mut self, alloc: Global, line: &[u8]) -> Result<Option<ImageReason>, AllocError> {
        match self {
            ImageLines::Nothing => {
                let Some(head) = read_head(line) else {
                    return Ok(Some(ImageReason::Image));
                };
                *self = ImageLines::Begun(head);
                Ok(None)
            }
            ImageLines::Begun(head) => {
                let Some(root) = read_root(line) else {
                    return Ok(Some(ImageReason::Root));
                };
                *self = ImageLines::Whole(with_root(alloc, *head, root));
                Ok(None)
            }
            ImageLines::Whole(image) => {
                let Some(pair) = read_pair(image.pairs.as_slice(), image.count, line) else {
                    return Ok(Some(ImageReason::Word));
                };
                image.pairs.push(pair)?;
                Ok(None)
            }
        }
    }

    ghost reads = { reads_images };
}

/// The image without words.
fn with_root(alloc: Global, head: ImageHead, root: u64) -> Image
    ensures { result ≡ with_root head root }
{
    Image {
        callers: head.callers,
        lines: head.lines,
        count: head.count,
        root,
        pairs: Items::new(alloc),
    }
}

//! The answer to bytes that may be an image text.

ghost use Rattle.std.specs.Prelude.{◌≡◌, ℕ, List, IfOk};
ghost use Rattle.recovery.specs.Images.{IsReadable};
ghost use Rattle.image_text.specs.ImageTexts.{IsImageText};
ghost use Rattle.doc_commands.specs.ImageTexts.{HasEnd, Writes};

use crate::image_texts::{image_refusal, line_refusal};
use crate::recovered_documents::recovered;
use doc_text::recovered_text;
use image_text::{TextFault, read_image};
use recovery::Image;
use std::alloc::{AllocError, Global};

/// How an answer ends.
#[derive(Clone, Copy, Debug, PartialEq, Eq)]
pub enum ImageEnd {
    /// The image was recovered, and the text shows what is recovered from it.
    Fine,
    /// The bytes are no image text.
    Refused,
    /// The image was refused.
    BadImage,
}

/// The answer to bytes: how it ends, and its whole text.
#[derive(Drop)]
pub struct ImageAnswer {
    pub end: ImageEnd,
    pub text: Vec<u8>,
}

/// Answers bytes that may be an image text: by what is recovered from the image, by the check that the image does not pass, or by the first line at
/// which the bytes are no image text. `Err` means out of memory.
pub fn answer_image(alloc: Global, bytes: &[u8]) -> Result<ImageAnswer, AllocError>
    // `answer.end` is the one end that an answer to these bytes has.
    ensures ends { IfOk result (λ answer. HasEnd bytes.now answer.end) }
    // `answer.text` is the text that belongs to these bytes and this end.
    ensures writes { IfOk result (λ answer. Writes bytes.now answer.end answer.text.items) }
{
    match read_image(alloc, bytes) {
        Ok(image) => answer_of(alloc, &image),
        Err(TextFault::Refused { line, reason }) => {
            let text = line_refusal(alloc, line, reason)?;
            Ok(ImageAnswer {
                end: ImageEnd::Refused,
                text,
            })
        }
        Err(TextFault::Memory) => Err(AllocError),
    }
}

/// The answer to bytes that are the text of this image.
fn answer_of(alloc: Global, image: &Image) -> Result<ImageAnswer, AllocError>
    requires { IsReadable image.now.lines image.now }
    ensures { (input : List ℕ) → IsImageText input image.now → IfOk result (λ answer. HasEnd input answer.end × Writes input answer.end answer.text.items) }
{
    match recovered(alloc, image) {
        Ok(found) => {
            let text = recovered_text(alloc, &found)?;
            Ok(ImageAnswer {
                end: ImageEnd::Fine,
                text,
            })
        }
        Err(fault) => {
            let text = image_refusal(alloc, fault)?;
            Ok(ImageAnswer {
                end: ImageEnd::BadImage,
                text,
            })
        }
    }
}

/// The law that the answers to the same bytes have the same end.
pub fn ends_are_one()
    ensures { (input : List ℕ) (one other : ImageEnd) → HasEnd input one → HasEnd input other → one ≡ other }
{}

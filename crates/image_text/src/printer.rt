//! Images as text.

ghost use Rattle.std.specs.Prelude.{◌≡◌, ◌++◌, ℕ, IfOk, OnOk};
ghost use Rattle.recovery.specs.Images.{IsReadable, image_word};
ghost use Rattle.image_text.specs.ImageTexts.{IsImageText};
ghost use Rattle.image_text.specs.Printing.{FitsImage, head_line, pair_text, pairs_text, text_of, without_zeros};

use cx_core::Image;
use plain_text::{write_labelled, write_number};
use std::alloc::{AllocError, Global};

/// The text of an image: its numbers, its root, and the words that are not 0. `Err` means out of memory.
pub fn image_text(alloc: Global, image: &Image) -> Result<Vec<u8>, AllocError>
    ensures { IfOk result (λ text. text.items ≡ text_of image.now) }
{
    let mut out = Vec::new(alloc);
    write_head(&mut out, image)?;
    write_labelled(&mut out, b"root ", image.root)?;
    out.extend_from_slice(b"\n")?;
    write_pairs(&mut out, image.pairs.as_slice())?;
    Ok(out)
}

// After an `Err` what is written is of no use.

/// Writes the first line of an image: its callers, lines and number of words.
fn write_head(out: &mut Vec<u8>, image: &Image) -> Result<(), AllocError>
    ensures { OnOk result (out.new.items ≡ out.old.items ++ head_line image.now) }
{
    write_labelled(out, b"image ", u64::from(image.callers))?;
    write_labelled(out, b" ", image.lines)?;
    write_labelled(out, b" ", image.count)?;
    out.extend_from_slice(b"\n")
}

/// Writes a line for each pair of an address and a word.
fn write_pairs(out: &mut Vec<u8>, pairs: &[(u64, u64)]) -> Result<(), AllocError>
    ensures { OnOk result (out.new.items ≡ out.old.items ++ pairs_text pairs.now) }
{
    for pair in pairs {
        write_pair(out, *pair)?;
    }
    Ok(())
}

/// Appends the line of a word that is not 0.
fn write_pair(out: &mut Vec<u8>, pair: (u64, u64)) -> Result<(), AllocError>
    ensures { OnOk result (out.new.items ≡ out.old.items ++ pair_text pair) }
{
    if pair.1 == 0 {
        return Ok(());
    }
    write_number(out, pair.0)?;
    write_labelled(out, b" ", pair.1)?;
    out.extend_from_slice(b"\n")
}

/// What is written of an image is read as an image with the same numbers and the same words: the one without the pairs of words that
/// are 0.
pub fn image_texts_are_read()
    ensures read { (image : Image) → IsReadable image.lines image → FitsImage image → IsImageText (text_of image) (without_zeros image) }
    ensures words { (image : Image) → IsReadable image.lines image → (at : ℕ) →
        image_word (without_zeros image).pairs at ≡ image_word image.pairs at }
{}

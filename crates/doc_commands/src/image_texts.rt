//! What is written of bytes that are no image text, and of an image that is refused.

ghost use Rattle.std.specs.Prelude.{◌≡◌, ◌≢◌, ◌++◌, IfOk, OnOk};
ghost use Rattle.recovery.specs.declared.recovered_base.ImageFault.TheVariants.{Memory};
ghost use Rattle.doc_commands.specs.ImageTexts.{bad_image_text, bad_line_text, fault_text};

use image_text::ImageReason;
use plain_text::write_labelled;
use recovery::ImageFault;
use std::alloc::{AllocError, Global};

/// The text that names a line at fault and why it is refused.
pub(crate) fn line_refusal(
    alloc: Global,
    line: u64,
    reason: ImageReason,
) -> Result<Vec<u8>, AllocError>
    ensures { IfOk result (λ text. text.items ≡ bad_line_text line reason) }
{
    let mut out = Vec::new(alloc);
    write_labelled(&mut out, b"refused line ", line)?;
    out.extend_from_slice(b": ")?;
    out.extend_from_slice(reason.word().as_bytes())?;
    out.extend_from_slice(b"\n")?;
    Ok(out)
}

/// The text that names the check that an image did not pass. `Err` means out of memory, and always comes where the fault is that.
pub(crate) fn image_refusal(alloc: Global, fault: ImageFault) -> Result<Vec<u8>, AllocError>
    ensures text { IfOk result (λ text. text.items ≡ bad_image_text fault) }
    ensures some { IfOk result (λ _. fault ≢ Memory) }
{
    let mut out = Vec::from_slice(alloc, b"image refused: ")?;
    write_fault(&mut out, fault)?;
    out.extend_from_slice(b"\n")?;
    Ok(out)
}

/// Writes the text of a fault behind what `out` has. After an `Err`, `out` may have any bytes there.
fn write_fault(out: &mut Vec<u8>, fault: ImageFault) -> Result<(), AllocError>
    ensures written { OnOk result (out.new.items ≡ out.old.items ++ fault_text fault) }
    ensures some { OnOk result (fault ≢ Memory) }
{
    match fault {
        ImageFault::Size { found } => write_labelled(out, b"size ", found),
        ImageFault::Root { found } => write_labelled(out, b"root ", found),
        ImageFault::Version { found } => write_labelled(out, b"version ", found),
        ImageFault::Place { root, region } => {
            write_labelled(out, b"place ", root)?;
            write_labelled(out, b" ", region)
        }
        ImageFault::Body => out.extend_from_slice(b"body"),
        ImageFault::Memory => Err(AllocError),
    }
}

//! The text that refuses an input.

ghost use Rattle.std.specs.Prelude.{◌≡◌, IfOk};
ghost use Rattle.cx_program.specs.Texts.{refused_text};

use std::alloc::{AllocError, Global};

/// The text that names a line of a script at fault and why it is refused. `Err` means out of memory.
pub(crate) fn refusal(alloc: Global, line: u64, reason: &str) -> Result<Vec<u8>, AllocError>
    ensures { IfOk result (λ text. text.items ≡ refused_text line reason.now) }
{
    let text = format!(in alloc; "refused line {line}: ")?;
    let mut bytes = text.into_bytes();
    bytes.extend_from_slice(reason.as_bytes())?;
    bytes.extend_from_slice(b"\n")?;
    Ok(bytes)
}

//! The command `recover`: an image that is read, and what is recovered from it.

ghost use Rattle.std.specs.Prelude.{◌≡◌, IfOk};
ghost use Rattle.cx_program.specs.Commands.{recover_command};
ghost use Rattle.cx_program.specs.Status.{status_of};

use crate::status::{FinishedRun, Status};
use doc_commands::{ImageEnd, answer_image};
use std::alloc::{AllocError, Global};

/// The text that an input calls for, and how the run ends. `Err` means out of memory.
pub(crate) fn recover_text(
    alloc: Global,
    bytes: &[u8],
) -> Result<(Vec<u8>, FinishedRun), AllocError>
    ensures calls { IfOk result (λ made. recover_command.calls bytes.now made.1.status) }
    ensures writes { IfOk result (λ made. recover_command.writes bytes.now made.1.status made.1.trails made.0.items) }
{
    let answer = answer_image(alloc, bytes)?;
    let ended = FinishedRun::without_lives(alloc, status_of(answer.end));
    Ok((answer.text, ended))
}

/// The status with which the text of an answer is written.
fn status_of(end: ImageEnd) -> Status
    ensures { result ≡ status_of end }
{
    match end {
        ImageEnd::Fine => Status::Fine,
        ImageEnd::Refused => Status::Refused,
        ImageEnd::BadImage => Status::BadImage,
    }
}

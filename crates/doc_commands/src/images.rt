//! The image text of what the last of a script's lives left.

ghost use Rattle.std.specs.Prelude.{◌≡◌, IfOk};
ghost use Rattle.doc_model.specs.Meaning.{IsOp};
ghost use Rattle.life_records.specs.Limits.{KeepsLimits};
ghost use Rattle.doc_commands.specs.ScriptTexts.{IsLastImage, text_left};

use crate::lives::run_lives;
use cx_base::{Gate, Items};
use cx_table::Trail;
use doc_text::Script;
use image_text::{Image, image_text};
use std::alloc::{AllocError, Global};
use std::sync::Wait;
use std::thread::Threads;

/// The image text of what the crash left that ended the last of a script's lives, each run in turn, and their trails. There is no
/// text where there is no life. `Err` means out of memory. It may wait.
pub fn image_of_script<R: Threads + Wait + Sync, G: Gate + Sync>(
    rt: &R,
    alloc: Global,
    script: &Script,
    gate: &G,
) -> Result<(Vec<u8>, Items<Trail>), AllocError>
    requires { KeepsLimits IsOp 8 script.now }
    ensures { IfOk result (λ made. IsLastImage script.now made.1 made.0.items) }
{
    let lived = run_lives(rt, alloc, script, gate)?;
    let text = text_left(alloc, &lived.image)?;
    Ok((text, lived.trails))
}

/// The text of an image, and no text where there is no image.
fn text_left(alloc: Global, image: &Option<Image>) -> Result<Vec<u8>, AllocError>
    ensures { IfOk result (λ text. text.items ≡ text_left image.now) }
{
    match image {
        Some(image) => image_text(alloc, image),
        None => Ok(Vec::new(alloc)),
    }
}

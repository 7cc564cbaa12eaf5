//! Scripts read from their text.

ghost use Rattle.std.specs.Prelude.{◌≡◌, All, [], IfErr, IfOk, map};
ghost use Rattle.plain_text.specs.LineGrammar.{IsOkOr};
ghost use Rattle.fifo_commands.specs.declared.record.FifoScript.{FifoScript as fifo_script};
ghost use Rattle.fifo_object.specs.Queue.{IsOp};
ghost use Rattle.life_records.specs.Limits.{KeepsLimits};
ghost use Rattle.fifo_commands.specs.Grammar.{IsQueueScriptFault, IsFifoScript};
ghost use Rattle.fifo_commands.specs.Uncut.{cutless, uncut_script};

use crate::commands::QueueTexts;
use crate::reasons::FifoTextFault;
use crate::record::{FifoLife, FifoScript};
use cx_base::Items;
use fifo_object::FifoOp;
use life_records::{Life, Script};
use std::alloc::{AllocError, Global};

/// Reads a script. It is Ok exactly for the texts of scripts, unless memory runs out. Other texts are refused by
/// the first line with which the lines so far are no script.
pub fn read_fifo_script(alloc: Global, bytes: &[u8]) -> Result<FifoScript, FifoTextFault>
    // The script that is returned is the one that `bytes` are the text of.
    ensures script { IfOk result (IsFifoScript bytes.now) }
    // Where `bytes` are the text of a script, that script is returned, unless memory runs out.
    ensures only { (script : fifo_script) → IsFifoScript bytes.now script → IsOkOr script result }
    ensures limits { IfOk result (λ script. KeepsLimits IsOp 8 (uncut_script script)) }
    // The refused line is the first one with which the lines up to it are no script.
    ensures refused { IfErr result (IsQueueScriptFault bytes.now) }
{
    let script = script_text::read_script::<QueueTexts>(alloc, bytes)?;
    Ok(without_cuts(alloc, script)?)
}

/// A script of the queue from one that was read and has no cut. `Err` means out of memory.
fn without_cuts(alloc: Global, script: Script<FifoOp>) -> Result<FifoScript, AllocError>
    requires { All (λ life. life.cuts ≡ []) script.lives }
    ensures { IfOk result (λ left. uncut_script left ≡ script) }
{
    let Script { lines, lives } = script;
    let lives = lives_of(alloc, lives.into_vec())?;
    Ok(FifoScript {
        lines,
        lives: Items::of(lives),
    })
}

/// The lives without their cuts, which a queue's script has none of.
fn lives_of(alloc: Global, lives: Vec<Life<FifoOp>>) -> Result<Vec<FifoLife>, AllocError>
    ensures { IfOk result (λ left. left.items ≡ map cutless lives.items) }
{
    let mut left = Vec::new(alloc);
    for life in lives {
        left.push(life_of(life))?;
    }
    Ok(left)
}

/// A life without its cuts.
fn life_of(life: Life<FifoOp>) -> FifoLife
    ensures { result ≡ cutless life }
{
    let Life {
        clients,
        choice,
        commands,
        ..
    } = life;
    FifoLife {
        clients,
        choice,
        commands,
    }
}

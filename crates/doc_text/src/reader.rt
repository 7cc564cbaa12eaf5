//! Scripts read from their text.

ghost use Rattle.std.specs.Prelude.{IfErr, IfOk};
ghost use Rattle.plain_text.specs.LineGrammar.{IsOkOr};
ghost use Rattle.doc_model.specs.Meaning.{IsOp};
ghost use Rattle.doc_model.specs.declared.operations.Op.{Op};
ghost use Rattle.life_records.specs.Limits.{KeepsLimits};
ghost use Rattle.life_records.specs.declared.script.Script.{Script};
ghost use Rattle.script_text.specs.Within.{IsScriptWithin};
ghost use Rattle.doc_text.specs.Grammar.{IsPoolScript, IsScript, pool_commands};
ghost use Rattle.doc_text.specs.Refusal.{IsScriptFault, IsPoolFault};

use crate::commands::{Documents, PoolDocuments};
use crate::script_parts::{Script, TextFault};
use std::alloc::Global;

/// Reads a script. It is Ok exactly for the texts of scripts, unless memory runs out. Other texts are refused by
/// the first line with which the lines so far are no script.
pub fn read_script(alloc: Global, bytes: &[u8]) -> Result<Script, TextFault>
    // The script that is returned is the one that `bytes` are the text of.
    ensures script { IfOk result (IsScript bytes.now) }
    // Where `bytes` are the text of a script, that script is returned, unless memory runs out.
    ensures only { (script : Script Op) → IsScript bytes.now script → IsOkOr script result }
    ensures limits { IfOk result (KeepsLimits IsOp 8) }
    // The refused line is the first one with which the lines up to it are no script.
    ensures refused { IfErr result (IsScriptFault bytes.now) }
{
    script_text::read_script::<Documents>(alloc, bytes)
}

/// Reads a script of a pool: one life at the most, of up to 64 clients, without cut lines. It is Ok exactly for the texts of such scripts,
/// unless memory runs out. Other texts are refused by the first line with which the lines so far are none.
pub fn read_pool_script(alloc: Global, bytes: &[u8]) -> Result<Script, TextFault>
    // The script of a pool that is returned is the one that `bytes` are the text of.
    ensures script { IfOk result (IsPoolScript bytes.now) }
    // Where `bytes` are the text of a script of a pool, that script is returned, unless memory runs out.
    ensures only { (script : Script Op) → IsPoolScript bytes.now script → IsOkOr script result }
    ensures limits { IfOk result (λ script. KeepsLimits IsOp 64 script × IsScriptWithin pool_commands.limits script) }
    // The refused line is the first one with which the lines up to it are no script of a pool.
    ensures refused { IfErr result (IsPoolFault bytes.now) }
{
    script_text::read_script::<PoolDocuments>(alloc, bytes)
}

//! The commands that scripts are written in.

ghost use Rattle.std.specs.Prelude.{◌≡◌, List, ℕ, Option, Result, IfOk, IfSome, IsUtf8};
ghost use Rattle.std.specs.Option.{option_copied};
ghost use Rattle.script_text.specs.Grammar.{Commands, ReadsCommands};
ghost use Rattle.script_text.specs.Reading.{IsTextRead};

use crate::lines::{ScriptLimits, ScriptReason};
use std::alloc::{AllocError, Global};

/// The commands of an object's scripts, as they are read.
pub trait CommandReader: Drop {
    /// What a command asks for.
    type Op: Drop;

    /// Why a line is refused.
    type Reason: Drop;

    /// The commands, with the reasons of refusal and what a script may have.
    ghost commands: { Commands Self.Op Self.Reason };

    /// The operation that the text behind a client asks for, or why it asks for none.
    ghost asked: { Option (List ℕ) → Result Self.Op Self.Reason };

    /// What each operation keeps to that is asked for.
    ghost is_op: { Self.Op → Type 0 };

    /// What a script may have.
    fn limits() -> ScriptLimits
        ensures { result ≡ commands.limits };

    /// The reason of a refusal that all scripts have.
    fn reason(of: ScriptReason) -> Self::Reason
        ensures { result ≡ commands.reason of };

    /// The operation that the text behind a client asks for, or why it asks for none. `Err` means out of memory.
    fn read_op(
        alloc: Global,
        text: Option<&[u8]>,
    ) -> Result<Result<Self::Op, Self::Reason>, AllocError>
        requires { IfSome text (λ t. IsUtf8 t.now) }
        ensures { IfOk result (IsTextRead is_op (asked (option_copied text.entry))) };

    /// Operations are read by the rules of the commands.
    ghost reads: { ReadsCommands commands asked };
}

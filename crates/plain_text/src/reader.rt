//! Texts that are read line by line.

ghost use Rattle.std.specs.Prelude.{◌≡◌, List, ℕ, Result, IfErr, IfOk, OnOk};
ghost use Rattle.plain_text.specs.LineGrammar.{IsFault, IsOkOr, IsTextOf, LineGrammar, ReadsLines, outcome};
ghost use Rattle.plain_text.specs.declared.reader.TextFault.TheVariants.{Memory};

use crate::lines::next_line;
use std::alloc::{AllocError, AllocFailed, Global};

/// Why a text was not read.
#[derive(Debug, Drop)]
pub enum TextFault<Reason> {
    /// The line, counted from 1, is the first with which the lines so far say nothing together.
    Refused { line: u64, reason: Reason },
    /// Memory ran out.
    Memory,
}

impl<Reason: Drop> From<AllocError> for TextFault<Reason> {
    ghost from_gives = { λ _ e. e ≡ Memory };

    fn from(_e: AllocError) -> TextFault<Reason> {
        TextFault::Memory
    }
}

impl<Reason: Drop, T: Drop> From<AllocFailed<T>> for TextFault<Reason> {
    ghost from_gives = { λ _ e. e ≡ Memory };

    fn from(_e: AllocFailed<T>) -> TextFault<Reason> {
        TextFault::Memory
    }
}

/// What lines say so far. Contracts see it as it is said.
pub trait LineReader: Drop {
    /// Why a line is refused.
    type Reason: Drop;

    /// The language.
    ghost grammar: { LineGrammar Self Self.Reason };

    /// What is said with one more line, or why it is refused.
    ghost judged: { Self → List ℕ → Result Self Self.Reason };

    /// What each text keeps to that is read.
    ghost Keeps: { Self → Type 0 };

    /// Adds a line, or gives the reason for which it is refused. `Err` says that memory ran out, and then what was said is of no use.
    fn add_line(&mut self, alloc: Global, line: &[u8]) -> Result<Option<Self::Reason>, AllocError>
        ensures value { IfOk result (λ refused. judged self.old line.now ≡ outcome refused self.new) }
        ensures keeps { OnOk result (Keeps self.old → Keeps self.new) };

    /// Lines are read by the grammar.
    ghost reads: { ReadsLines grammar judged };
}

/// Reads a text. It is Ok exactly for the texts of the language, unless memory runs out. Other texts are refused by the first
/// line with which the lines so far say nothing together.
pub fn read_lines<R: LineReader>(
    alloc: Global,
    bytes: &[u8],
    nothing: R,
) -> Result<R, TextFault<R::Reason>>
    requires nothing { nothing ≡ R.grammar.nothing }
    requires keeps { R.Keeps nothing }
    // What is read is what the text says.
    ensures read { IfOk result (IsTextOf R.grammar bytes.now) }
    // What the language has is read.
    ensures only { (said : R) → IsTextOf R.grammar bytes.now said → IsOkOr said result }
    ensures keeps { IfOk result R.Keeps }
    // The line refused is the first with which the lines so far say nothing together.
    ensures refused { IfErr result (IsFault R.grammar bytes.now) }
{
    let mut said = nothing;
    let mut rest = bytes;
    let mut number: u64 = 0;
    while !rest.is_empty() {
        let (line, after) = next_line(rest);
        number += 1;
        if let Some(reason) = said.add_line(alloc, line)? {
            return Err(TextFault::Refused {
                line: number,
                reason,
            });
        }
        rest = after;
    }
    Ok(said)
}

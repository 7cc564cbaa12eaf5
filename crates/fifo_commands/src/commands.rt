//! The commands of a queue, read from the text behind a client.

ghost use Rattle.std.specs.Prelude.{◌≡◌, IfOk};
ghost use Rattle.std.specs.Option.{option_copied};
ghost use Rattle.fifo_object.specs.Queue.{IsOp};
ghost use Rattle.fifo_commands.specs.CommandLaws.{reads_queue_commands};
ghost use Rattle.fifo_commands.specs.Grammar.{queue_commands};
ghost use Rattle.fifo_commands.specs.Reading.{asked_queue_op, queue_op_by_verb, push_of, queue_verb_of};
ghost use Rattle.script_text.specs.Reading.{IsTextRead};

use crate::reasons::FifoReason;
use cx_base::Bytes;
use fifo_object::{FifoOp, is_text};
use plain_text::{is_one_word, is_word, split_word};
use script_text::{CommandReader, ScriptLimits, ScriptReason};
use std::alloc::{AllocError, Global};

/// What a command does.
#[derive(Clone, Copy, Debug, PartialEq, Eq)]
pub(crate) enum Verb {
    Push,
    Pop,
    Peek,
    Len,
}

/// The commands of a queue. A script has up to 1,000 lives of 8 clients, without cut lines.
#[derive(Drop)]
pub(crate) struct QueueTexts;

impl CommandReader for QueueTexts {
    type Op = FifoOp;

    type Reason = FifoReason;

    ghost commands = { queue_commands };

    ghost asked = { asked_queue_op };

    ghost is_op = { IsOp };

    fn limits() -> ScriptLimits {
        ScriptLimits {
            clients: 8,
            lives: 1_000,
            cuts: false,
        }
    }

    fn reason(of: ScriptReason) -> FifoReason {
        match of {
            ScriptReason::Utf8 => FifoReason::Utf8,
            ScriptReason::Header => FifoReason::Header,
            ScriptReason::Life => FifoReason::Life,
            ScriptReason::Lives => FifoReason::Lives,
            // The word `cut` is no number of a client.
            ScriptReason::Cut => FifoReason::Client,
            ScriptReason::Client => FifoReason::Client,
            ScriptReason::Commands => FifoReason::Commands,
        }
    }

    fn read_op(
        alloc: Global,
        text: Option<&[u8]>,
    ) -> Result<Result<FifoOp, FifoReason>, AllocError> {
        let Some(text) = text else {
            return Ok(Err(FifoReason::Command));
        };
        let (verb, words) = split_word(text);
        read_words(alloc, read_verb(verb), words)
    }

    ghost reads = { reads_queue_commands };
}

/// The operation that a verb and what stands behind it ask for, or why they ask for none. `Err` means out of memory.
fn read_words(
    alloc: Global,
    verb: Option<Verb>,
    words: Option<&[u8]>,
) -> Result<Result<FifoOp, FifoReason>, AllocError>
    ensures { IfOk result (IsTextRead IsOp (queue_op_by_verb verb (option_copied words.entry))) }
{
    match (verb, words) {
        (Some(Verb::Push), Some(words)) => read_push(alloc, words),
        (Some(Verb::Pop), None) => Ok(Ok(FifoOp::Pop)),
        (Some(Verb::Peek), None) => Ok(Ok(FifoOp::Peek)),
        (Some(Verb::Len), None) => Ok(Ok(FifoOp::Len)),
        _ => Ok(Err(FifoReason::Command)),
    }
}

/// Reads what follows `push`: a text.
fn read_push(alloc: Global, words: &[u8]) -> Result<Result<FifoOp, FifoReason>, AllocError>
    ensures { IfOk result (IsTextRead IsOp (push_of words.now)) }
{
    if !is_one_word(words) {
        return Ok(Err(FifoReason::Command));
    }
    if !is_text(words) {
        return Ok(Err(FifoReason::Text));
    }
    let text = Bytes::of(alloc, words)?;
    Ok(Ok(FifoOp::Push { text }))
}

/// The command that a word names.
#[tactic(auto, unfolding(crate::specs::Reading::queue_verb_of))]
fn read_verb(word: &[u8]) -> Option<Verb>
    ensures { result ≡ queue_verb_of word.now }
{
    if is_word(b"push", word) {
        Some(Verb::Push)
    } else if is_word(b"pop", word) {
        Some(Verb::Pop)
    } else if is_word(b"peek", word) {
        Some(Verb::Peek)
    } else if is_word(b"len", word) {
        Some(Verb::Len)
    } else {
        None
    }
}

//! The commands that only read.

ghost use Rattle.std.specs.Prelude.{IfOk};
ghost use Rattle.std.specs.Option.{option_copied};
ghost use Rattle.trace_text.specs.Commands.{IsCommandRead, keyed_of, next_of, reading_by, reading_of};

use cx_base::Bytes;
use doc_model::{Op, is_key};
use plain_text::{is_word, split_word};
use std::alloc::{AllocError, Global};

/// The operation that a command asks for and that only reads. `Err` means out of memory.
#[tactic(auto, unfolding(crate::specs::Commands::reading_of))]
pub(crate) fn read_reading(alloc: Global, text: &[u8]) -> Result<Option<Op>, AllocError>
    ensures { IfOk result (IsCommandRead (reading_of text.now)) }
{
    let (verb, rest) = split_word(text);
    read_by_verb(alloc, verb, rest)
}

/// Reads an operation by its verb and what stands behind it.
#[tactic(auto, unfolding(crate::specs::Commands::reading_by))]
fn read_by_verb(alloc: Global, verb: &[u8], rest: Option<&[u8]>) -> Result<Option<Op>, AllocError>
    ensures { IfOk result (IsCommandRead (reading_by verb.now (option_copied rest.entry))) }
{
    if is_word(b"get", verb) {
        return read_get(alloc, rest);
    }
    if is_word(b"rev", verb) {
        return read_rev(alloc, rest);
    }
    if is_word(b"next", verb) {
        return read_next(alloc, rest);
    }
    if is_word(b"count", verb) && rest.is_none() {
        return Ok(Some(Op::Count));
    }
    Ok(None)
}

/// Reads what follows `get`: a key.
fn read_get(alloc: Global, key: Option<&[u8]>) -> Result<Option<Op>, AllocError>
    ensures { IfOk result (IsCommandRead (keyed_of Op.Get (option_copied key.entry))) }
{
    match key {
        Some(key) if is_key(key) => Ok(Some(Op::Get {
            key: Bytes::of(alloc, key)?,
        })),
        _ => Ok(None),
    }
}

/// Reads what follows `rev`: a key.
fn read_rev(alloc: Global, key: Option<&[u8]>) -> Result<Option<Op>, AllocError>
    ensures { IfOk result (IsCommandRead (keyed_of Op.Rev (option_copied key.entry))) }
{
    match key {
        Some(key) if is_key(key) => Ok(Some(Op::Rev {
            key: Bytes::of(alloc, key)?,
        })),
        _ => Ok(None),
    }
}

/// Without a key, the operation asks for the least key of all.
fn read_next(alloc: Global, key: Option<&[u8]>) -> Result<Option<Op>, AllocError>
    ensures { IfOk result (IsCommandRead (next_of (option_copied key.entry))) }
{
    match key {
        None => Ok(Some(Op::Next {
            above: Bytes::of(alloc, b"")?,
        })),
        Some(key) if is_key(key) => Ok(Some(Op::Next {
            above: Bytes::of(alloc, key)?,
        })),
        _ => Ok(None),
    }
}

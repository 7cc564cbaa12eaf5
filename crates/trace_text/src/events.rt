//! The lines of events.

ghost use Rattle.std.specs.Prelude.{◌≡◌, IfOk};
ghost use Rattle.std.specs.Option.{option_copied};
ghost use Rattle.trace_text.specs.Reading.{below, caller_number_of, event_of, kind_by, kind_of, load_behind, load_of, marked, raise_behind, raise_of, what_behind, what_of};

use crate::commands::read_reading;
use crate::heads::read_crash;
use crate::kinds::read_numbered;
use crate::trace::TraceWhat;
use cx_core::{Event, Kind};
use doc_model::op_words;
use plain_text::{is_word, number_of, split_word};
use std::alloc::{AllocError, Global};

/// Reads a line behind the first, in a trace of `callers` callers: an event or a crash. `None` where it is neither. `Err` means out of memory.
#[tactic(auto, unfolding(crate::specs::Reading::what_of))]
pub(crate) fn read_what(
    alloc: Global,
    callers: u32,
    line: &[u8],
) -> Result<Option<TraceWhat>, AllocError>
    ensures { IfOk result (λ what. what ≡ what_of callers line.now) }
{
    let (word, rest) = split_word(line);
    let Some(text) = rest else {
        return Ok(None);
    };
    read_what_behind(alloc, callers, word, text)
}

/// Reads a line by its first word and what stands behind it.
#[tactic(auto, unfolding(crate::specs::Reading::what_behind))]
fn read_what_behind(
    alloc: Global,
    callers: u32,
    word: &[u8],
    text: &[u8],
) -> Result<Option<TraceWhat>, AllocError>
    ensures { IfOk result (λ what. what ≡ what_behind callers word.now text.now) }
{
    if is_word(b"crash", word) {
        return Ok(read_crash(text));
    }
    read_event(alloc, read_caller(callers, word), text)
}

/// The caller that a word names, of `callers` callers.
#[tactic(auto, unfolding(crate::specs::Reading::caller_number_of))]
fn read_caller(callers: u32, word: &[u8]) -> Option<u32>
    ensures { result ≡ caller_number_of callers word.now }
{
    let caller = number_of(word)?;
    below(callers, caller)
}

/// The number, where it is below another.
fn below(end: u32, number: u64) -> Option<u32>
    ensures { result ≡ below end number }
{
    if number < u64::from(end) {
        Some(number as u32)
    } else {
        None
    }
}

/// A step of this caller, of the kind that stands behind it. `Err` means out of memory.
fn read_event(
    alloc: Global,
    caller: Option<u32>,
    text: &[u8],
) -> Result<Option<TraceWhat>, AllocError>
    ensures { IfOk result (λ what. what ≡ event_of caller text.now) }
{
    let Some(caller) = caller else {
        return Ok(None);
    };
    let Some(kind) = read_kind(alloc, text)? else {
        return Ok(None);
    };
    Ok(Some(TraceWhat::Event(Event { caller, kind })))
}

/// A kind of step with its arguments. `Err` means out of memory.
#[tactic(auto, unfolding(crate::specs::Reading::kind_of))]
fn read_kind(alloc: Global, text: &[u8]) -> Result<Option<Kind>, AllocError>
    ensures { IfOk result (λ kind. kind ≡ kind_of text.now) }
{
    let (name, rest) = split_word(text);
    read_kind_behind(alloc, name, rest)
}

/// Reads a step's kind by its name and what stands behind it.
#[tactic(auto, unfolding(crate::specs::Reading::kind_by))]
fn read_kind_behind(
    alloc: Global,
    name: &[u8],
    rest: Option<&[u8]>,
) -> Result<Option<Kind>, AllocError>
    ensures { IfOk result (λ kind. kind ≡ kind_by name.now (option_copied rest.entry)) }
{
    if is_word(b"load_word", name) {
        return Ok(read_load(rest));
    }
    if is_word(b"raise", name) {
        return read_raise(alloc, rest);
    }
    Ok(read_numbered(name, rest))
}

/// What stands behind `load_word`: `R I`, with `refused` behind it where it is marked.
#[tactic(auto, unfolding(crate::specs::Reading::load_of))]
fn read_load(rest: Option<&[u8]>) -> Option<Kind>
    ensures { result ≡ load_of (option_copied rest.entry) }
{
    let (replica, word) = split_word(rest?);
    let r = number_of(replica)?;
    read_load_behind(r, word)
}

/// Reads the load of a word from the address on.
#[tactic(auto, unfolding(crate::specs::Reading::load_behind))]
fn read_load_behind(r: u64, rest: Option<&[u8]>) -> Option<Kind>
    ensures { result ≡ load_behind r (option_copied rest.entry) }
{
    let (address, mark) = split_word(rest?);
    let i = number_of(address)?;
    marked(r, i, mark)
}

/// The load of a word, marked as a refusal or not.
fn marked(r: u64, i: u64, mark: Option<&[u8]>) -> Option<Kind>
    ensures { result ≡ marked r i (option_copied mark.entry) }
{
    match mark {
        None => Some(Kind::LoadWord {
            r,
            i,
            refused: false,
        }),
        Some(word) if is_word(b"refused", word) => Some(Kind::LoadWord {
            r,
            i,
            refused: true,
        }),
        _ => None,
    }
}

/// What stands behind `raise`: `CODE`, with `read COMMAND` behind it where a read is named. `Err` means out of memory.
#[tactic(auto, unfolding(crate::specs::Reading::raise_of))]
fn read_raise(alloc: Global, rest: Option<&[u8]>) -> Result<Option<Kind>, AllocError>
    ensures { IfOk result (λ kind. kind ≡ raise_of (option_copied rest.entry)) }
{
    let Some(text) = rest else {
        return Ok(None);
    };
    let (code, rest) = split_word(text);
    let Some(code) = number_of(code) else {
        return Ok(None);
    };
    read_raise_behind(alloc, code, rest)
}

/// Reads a raise from behind its code on.
#[tactic(auto, unfolding(crate::specs::Reading::raise_behind))]
fn read_raise_behind(
    alloc: Global,
    code: u64,
    rest: Option<&[u8]>,
) -> Result<Option<Kind>, AllocError>
    ensures { IfOk result (λ kind. kind ≡ raise_behind code (option_copied rest.entry)) }
{
    let Some(text) = rest else {
        return Ok(Some(Kind::Raise { code, read: None }));
    };
    let (word, rest) = split_word(text);
    let Some(command) = rest else {
        return Ok(None);
    };
    if !is_word(b"read", word) {
        return Ok(None);
    }
    let Some(op) = read_reading(alloc, command)? else {
        return Ok(None);
    };
    Ok(Some(Kind::Raise {
        code,
        read: Some(op_words(&op)),
    }))
}

//! The commands of documents, read from the text behind a client.

ghost use Rattle.std.specs.Prelude.{◌≡◌, IfOk, IfSome, IsUtf8};
ghost use Rattle.std.specs.Option.{option_copied};
ghost use Rattle.plain_text.specs.Words.{first_word, rest_of};
ghost use Rattle.cx_base.specs.Store.{IsKey};
ghost use Rattle.doc_model.specs.Meaning.{IsOp};
ghost use Rattle.doc_text.specs.CommandLaws.{reads_commands, reads_pool_commands};
ghost use Rattle.doc_text.specs.Grammar.{document_commands, pool_commands};
ghost use Rattle.doc_text.specs.Reading.{verb_of, only_key, put_with, put_if_with, add_with, op_by_verb, asked_op};
ghost use Rattle.script_text.specs.Reading.{IsTextRead, then_ok};

use crate::document::read_document;
use crate::script_parts::Reason;
use cx_base::Bytes;
use doc_model::{Op, is_key};
use plain_text::{integer_of, is_one_word, is_word, number_of, split_word};
use script_text::{CommandReader, ScriptLimits, ScriptReason};
use std::alloc::{AllocError, Global};

/// What a command does.
#[derive(Clone, Copy, Debug, PartialEq, Eq)]
pub(crate) enum Verb {
    Put,
    Del,
    Add,
    Get,
    Next,
    Count,
    PutIf,
    Rev,
}

/// The commands of documents. A script has up to 1,000 lives of 8 clients, which may have cut lines.
#[derive(Drop)]
pub(crate) struct Documents;

impl CommandReader for Documents {
    type Op = Op;

    type Reason = Reason;

    ghost commands = { document_commands };

    ghost asked = { asked_op };

    ghost is_op = { IsOp };

    fn limits() -> ScriptLimits {
        ScriptLimits {
            clients: 8,
            lives: 1_000,
            cuts: true,
        }
    }

    fn reason(of: ScriptReason) -> Reason {
        match of {
            ScriptReason::Utf8 => Reason::Utf8,
            ScriptReason::Header => Reason::Header,
            ScriptReason::Life => Reason::Life,
            ScriptReason::Lives => Reason::Lives,
            ScriptReason::Cut => Reason::Cut,
            ScriptReason::Client => Reason::Client,
            ScriptReason::Commands => Reason::Commands,
        }
    }

    fn read_op(alloc: Global, text: Option<&[u8]>) -> Result<Result<Op, Reason>, AllocError> {
        read_asked(alloc, text)
    }

    ghost reads = { reads_commands };
}

/// The commands of the document store in a script of a pool, which has one life at the most, of 64 clients, without cut lines.
#[derive(Drop)]
pub(crate) struct PoolDocuments;

impl CommandReader for PoolDocuments {
    type Op = Op;

    type Reason = Reason;

    ghost commands = { pool_commands };

    ghost asked = { asked_op };

    ghost is_op = { IsOp };

    fn limits() -> ScriptLimits {
        ScriptLimits {
            clients: 64,
            lives: 1,
            cuts: false,
        }
    }

    fn reason(of: ScriptReason) -> Reason {
        match of {
            ScriptReason::Lives => Reason::Life,
            of => Documents::reason(of),
        }
    }

    fn read_op(alloc: Global, text: Option<&[u8]>) -> Result<Result<Op, Reason>, AllocError> {
        read_asked(alloc, text)
    }

    ghost reads = { reads_pool_commands };
}

/// The operation that the text behind a client asks for, or why it asks for none. `Err` means out of memory.
fn read_asked(alloc: Global, text: Option<&[u8]>) -> Result<Result<Op, Reason>, AllocError>
    requires { IfSome text (λ t. IsUtf8 t.now) }
    ensures { IfOk result (IsTextRead IsOp (asked_op (option_copied text.entry))) }
{
    let Some(text) = text else {
        return Ok(Err(Reason::Command));
    };
    let (verb, words) = split_word(text);
    read_words(alloc, read_verb(verb), words)
}

/// The operation that a verb and what stands behind it ask for, or why they ask for none. `Err` means out of memory.
fn read_words(
    alloc: Global,
    verb: Option<Verb>,
    words: Option<&[u8]>,
) -> Result<Result<Op, Reason>, AllocError>
    requires { IfSome words (λ t. IsUtf8 t.now) }
    ensures { IfOk result (IsTextRead IsOp (op_by_verb verb (option_copied words.entry))) }
{
    match (verb, words) {
        (Some(Verb::Put), Some(words)) => read_put(alloc, words),
        (Some(Verb::Del), Some(words)) => read_del(alloc, words),
        (Some(Verb::Add), Some(words)) => read_add(alloc, words),
        (Some(Verb::Get), Some(words)) => read_get(alloc, words),
        (Some(Verb::Next), Some(words)) => read_next(alloc, words),
        (Some(Verb::Next), None) => Ok(Ok(Op::Next {
            above: Bytes::of(alloc, b"")?,
        })),
        (Some(Verb::Count), None) => Ok(Ok(Op::Count)),
        (Some(Verb::PutIf), Some(words)) => read_put_if(alloc, words),
        (Some(Verb::Rev), Some(words)) => read_rev(alloc, words),
        _ => Ok(Err(Reason::Command)),
    }
}

/// Reads what follows `put`: a key and JSON.
fn read_put(alloc: Global, words: &[u8]) -> Result<Result<Op, Reason>, AllocError>
    requires { IsUtf8 words.now }
    ensures { IfOk result (IsTextRead IsOp (put_with (first_word words.now) (rest_of words.now))) }
{
    let (key, json) = split_word(words);
    let Some(json) = json else {
        return Ok(Err(Reason::Command));
    };
    if !is_key(key) {
        return Ok(Err(Reason::Key));
    }
    let doc = match read_document(alloc, json)? {
        Ok(doc) => doc,
        Err(reason) => return Ok(Err(reason)),
    };
    let key = Bytes::of(alloc, key)?;
    Ok(Ok(Op::Put { key, doc }))
}

/// Reads what follows `putif`: a key, a revision and JSON.
fn read_put_if(alloc: Global, words: &[u8]) -> Result<Result<Op, Reason>, AllocError>
    requires { IsUtf8 words.now }
    ensures { IfOk result (IsTextRead IsOp (put_if_with (first_word words.now) (rest_of words.now))) }
{
    let (key, text) = split_word(words);
    let Some(text) = text else {
        return Ok(Err(Reason::Command));
    };
    let (revision, json) = split_word(text);
    let Some(json) = json else {
        return Ok(Err(Reason::Command));
    };
    if !is_key(key) {
        return Ok(Err(Reason::Key));
    }
    let Some(revision) = number_of(revision) else {
        return Ok(Err(Reason::Number));
    };
    let doc = match read_document(alloc, json)? {
        Ok(doc) => doc,
        Err(reason) => return Ok(Err(reason)),
    };
    let key = Bytes::of(alloc, key)?;
    Ok(Ok(Op::PutIf { key, revision, doc }))
}

/// Reads what follows `del`: a key.
fn read_del(alloc: Global, words: &[u8]) -> Result<Result<Op, Reason>, AllocError>
    ensures { IfOk result (IsTextRead IsOp (then_ok Op.Del (only_key words.now))) }
{
    Ok(match read_key(alloc, words)? {
        Ok(key) => Ok(Op::Del { key }),
        Err(reason) => Err(reason),
    })
}

/// Reads what follows `add`: a key and an amount.
fn read_add(alloc: Global, words: &[u8]) -> Result<Result<Op, Reason>, AllocError>
    ensures { IfOk result (IsTextRead IsOp (add_with (first_word words.now) (rest_of words.now))) }
{
    let (key, amount) = split_word(words);
    let Some(amount) = amount else {
        return Ok(Err(Reason::Command));
    };
    if !is_one_word(amount) {
        return Ok(Err(Reason::Command));
    }
    if !is_key(key) {
        return Ok(Err(Reason::Key));
    }
    let Some(amount) = integer_of(amount) else {
        return Ok(Err(Reason::Number));
    };
    let key = Bytes::of(alloc, key)?;
    Ok(Ok(Op::Add { key, amount }))
}

/// Reads what follows `get`: a key.
fn read_get(alloc: Global, words: &[u8]) -> Result<Result<Op, Reason>, AllocError>
    ensures { IfOk result (IsTextRead IsOp (then_ok Op.Get (only_key words.now))) }
{
    Ok(match read_key(alloc, words)? {
        Ok(key) => Ok(Op::Get { key }),
        Err(reason) => Err(reason),
    })
}

/// Reads what follows `rev`: a key.
fn read_rev(alloc: Global, words: &[u8]) -> Result<Result<Op, Reason>, AllocError>
    ensures { IfOk result (IsTextRead IsOp (then_ok Op.Rev (only_key words.now))) }
{
    Ok(match read_key(alloc, words)? {
        Ok(key) => Ok(Op::Rev { key }),
        Err(reason) => Err(reason),
    })
}

/// Reads what follows `next`: the key above which the next one is sought.
fn read_next(alloc: Global, words: &[u8]) -> Result<Result<Op, Reason>, AllocError>
    ensures { IfOk result (IsTextRead IsOp (then_ok Op.Next (only_key words.now))) }
{
    Ok(match read_key(alloc, words)? {
        Ok(above) => Ok(Op::Next { above }),
        Err(reason) => Err(reason),
    })
}

/// The key that is the only word left, or why it is none. `Err` means out of memory.
fn read_key(alloc: Global, words: &[u8]) -> Result<Result<Bytes, Reason>, AllocError>
    ensures { IfOk result (IsTextRead IsKey (only_key words.now)) }
{
    if !is_one_word(words) {
        return Ok(Err(Reason::Command));
    }
    if !is_key(words) {
        return Ok(Err(Reason::Key));
    }
    Ok(Ok(Bytes::of(alloc, words)?))
}

/// The command that a word names.
#[tactic(auto, unfolding(crate::specs::Reading::verb_of))]
fn read_verb(word: &[u8]) -> Option<Verb>
    ensures { result ≡ verb_of word.now }
{
    if is_word(b"put", word) {
        Some(Verb::Put)
    } else if is_word(b"del", word) {
        Some(Verb::Del)
    } else if is_word(b"add", word) {
        Some(Verb::Add)
    } else if is_word(b"get", word) {
        Some(Verb::Get)
    } else if is_word(b"next", word) {
        Some(Verb::Next)
    } else if is_word(b"count", word) {
        Some(Verb::Count)
    } else if is_word(b"putif", word) {
        Some(Verb::PutIf)
    } else if is_word(b"rev", word) {
        Some(Verb::Rev)
    } else {
        None
    }
}

//! Operations and replies as 144 words. Word 0 is the kind, word 1 the length of the key, word 2 the length of the
//! document, word 3 a number, signed ones in two's complement. Words 4 to 7 are 0, 8 to 15 hold the key, and 16 to
//! 143 the document, eight bytes a word. What a kind does not use is 0.

ghost use Rattle.std.specs.Prelude.{◌≡◌, ◌↔◌, ℕ, List, length, IfOk, IsErrOf, IsTrue, MatchBool, MatchResult, ◌&&◌, nat_le};
ghost use Rattle.std.specs.List.{list_all};
ghost use Rattle.cx_base.specs.Packing as packing;
ghost use Rattle.cx_base.specs.Store.{IsKey};
ghost use Rattle.doc_model.specs.Meaning.{IsOp};
ghost use Rattle.doc_model.specs.Words as spec;
ghost use Rattle.doc_model.specs.WordParts as kinds;
ghost use Rattle.doc_model.specs.declared.operations.Op.{Op};
ghost use Rattle.doc_model.specs.declared.operations.Reply.{Reply};
ghost use Rattle.doc_model.specs.declared.operations.Reply.TheVariants.{Doc, Key};
ghost use Rattle.doc_model.specs.declared.words.OpFault.TheVariants.{BadOp, Memory};

use crate::operations::{Op, Reply};
use crate::word_parts::{Parts, words_of_packed, words_with};
use cx_base::{Bytes, OpWords};
use std::alloc::{AllocError, Global};
use std::error::Error;
use std::fmt;

/// Why words were not read.
#[derive(Clone, Copy, Debug, PartialEq, Eq)]
pub enum OpFault {
    /// No operation, or no reply, has these words.
    BadOp,
    /// Out of memory.
    Memory,
}

impl fmt::Display for OpFault {
    fn fmt<W: fmt::Write>(&self, f: &mut fmt::Formatter<W>) -> fmt::Result {
        match self {
            OpFault::BadOp => f.write_str("no operation or reply has these words"),
            OpFault::Memory => f.write_str("out of memory"),
        }
    }
}

impl Error for OpFault {}

impl From<AllocError> for OpFault {
    ghost from_gives = { λ _ e. e ≡ Memory };

    fn from(_e: AllocError) -> OpFault {
        OpFault::Memory
    }
}

/// The words of an operation. They take no memory.
pub fn op_words(op: &Op) -> OpWords
    requires { IsOp op.now }
    ensures { result ≡ spec.op_words op.now }
{
    match op {
        Op::Put { key, doc } => words_with(1, key.as_slice(), doc.as_slice(), 0),
        Op::Del { key } => words_with(2, key.as_slice(), &[], 0),
        Op::Add { key, amount } => words_with(3, key.as_slice(), &[], amount.cast_unsigned()),
        Op::Get { key } => words_with(4, key.as_slice(), &[], 0),
        Op::Next { above } => words_with(5, above.as_slice(), &[], 0),
        Op::Count => words_with(6, &[], &[], 0),
        Op::PutIf { key, revision, doc } => words_with(
            7,
            key.as_slice(),
            doc.as_slice(),
            *revision,
        ),
        Op::Rev { key } => words_with(8, key.as_slice(), &[], 0),
    }
}

/// The words of a reply. They take no memory.
pub fn reply_words(reply: &Reply) -> OpWords
    requires { spec.IsReply reply.now }
    ensures { result ≡ spec.reply_words reply.now }
{
    match reply {
        Reply::New => words_with(1, &[], &[], 0),
        Reply::Replaced => words_with(2, &[], &[], 0),
        Reply::Deleted => words_with(3, &[], &[], 0),
        Reply::Absent => words_with(4, &[], &[], 0),
        Reply::Doc(doc) => words_with(5, &[], doc.as_slice(), 0),
        Reply::Sum(sum) => words_with(6, &[], &[], sum.cast_unsigned()),
        Reply::NotNumber => words_with(7, &[], &[], 0),
        Reply::Overflow => words_with(8, &[], &[], 0),
        Reply::NoRoom => words_with(9, &[], &[], 0),
        Reply::Key(key) => words_with(10, key.as_slice(), &[], 0),
        Reply::Number(number) => words_with(11, &[], &[], *number),
        Reply::Set(revision) => words_with(12, &[], &[], *revision),
        Reply::Stale(revision) => words_with(13, &[], &[], *revision),
        Reply::Revision(revision) => words_with(14, &[], &[], *revision),
    }
}

/// The words of the reply that is a document of `len` bytes, which are packed already.
pub fn packed_document_reply(len: u64, packed: &[u64; 128]) -> OpWords
    ensures { (document : List ℕ) → len ≡ length document → packed.now ≡ packing.packed 128 document → result ≡ spec.reply_words (Doc document) }
{
    words_of_packed(5, 0, &[0; 8], len, packed)
}

/// The words of the reply that is a key of `len` bytes, which are packed already.
pub fn packed_key_reply(len: u64, packed: &[u64; 8]) -> OpWords
    ensures { (key : List ℕ) → len ≡ length key → packed.now ≡ packing.packed 8 key → result ≡ spec.reply_words (Key key) }
{
    words_of_packed(10, len, packed, 0, &[0; 128])
}

/// Whether an operation within the limits has these words. It takes no memory.
pub fn is_op(words: &OpWords) -> bool
    ensures { MatchBool result (spec.AreOfAnOp words.now) (spec.AreOfNoOp words.now) }
{
    match Parts::of(words) {
        Some(parts) => has_op(&parts),
        None => false,
    }
}

/// The operation that has these words. `BadOp` comes exactly where none within the limits has them, and
/// `Memory` means out of memory.
pub fn op_of(alloc: Global, words: &OpWords) -> Result<Op, OpFault>
    // What is read has these words.
    ensures found { IfOk result (λ op. IsOp op × (spec.op_words op ≡ words.now)) }
    // What has these words is read, unless memory runs out.
    ensures only { (op : Op) → IsOp op → spec.HasIntegerAmount op → spec.op_words op ≡ words.now → MatchResult result (λ read. read ≡ op) (λ fault. fault ≡ OpFault.Memory) }
    ensures bad { IsErrOf result OpFault.BadOp ↔ spec.AreOfNoOp words.now }
{
    let Some(parts) = Parts::of(words) else {
        return Err(OpFault::BadOp);
    };
    if !has_op(&parts) {
        return Err(OpFault::BadOp);
    }
    Ok(op_with(alloc, &parts)?)
}

/// The reply that has these words. `BadOp` comes exactly where none within the limits has them, and
/// `Memory` means out of memory.
pub fn reply_of(alloc: Global, words: &OpWords) -> Result<Reply, OpFault>
    // What is read has these words.
    ensures found { IfOk result (λ reply. spec.IsReply reply × (spec.reply_words reply ≡ words.now)) }
    // What has these words is read, unless memory runs out.
    ensures only { (reply : Reply) → spec.IsReply reply → spec.HasWordNumber reply → spec.reply_words reply ≡ words.now → MatchResult result (λ read. read ≡ reply) (λ fault. fault ≡ OpFault.Memory) }
    ensures bad { IsErrOf result OpFault.BadOp ↔ spec.AreOfNoReply words.now }
{
    let Some(parts) = Parts::of(words) else {
        return Err(OpFault::BadOp);
    };
    if !has_reply(&parts) {
        return Err(OpFault::BadOp);
    }
    Ok(reply_with(alloc, &parts)?)
}

/// Whether each byte is a visible character of ASCII.
fn are_visible(bytes: &[u8]) -> bool
    ensures { result ≡ list_all (λ b. nat_le 33 b && nat_le b 126) bytes.now }
{
    bytes.iter().all(|byte| *byte >= 0x21 && *byte <= 0x7E)
}

/// Whether the bytes are a key: 1 to 64 of them, each from 0x21 to 0x7E.
pub fn is_key(key: &[u8]) -> bool
    ensures test { result ≡ kinds.is_key key.now }
    ensures rule { IsTrue result ↔ IsKey key.now }
{
    passes_as_key(key)
}

/// Whether the bytes are a key: 1 to 64 visible characters of ASCII.
fn passes_as_key(key: &[u8]) -> bool
    ensures { result ≡ kinds.is_key key.now }
{
    !key.is_empty() && key.len() <= 64 && are_visible(key)
}

/// Whether some operation has these parts.
fn has_op(parts: &Parts) -> bool
    ensures { result ≡ kinds.has_op parts.now.kind parts.now.key parts.now.document parts.now.number }
{
    let is_key = parts.key.is_key();
    let no_number = parts.number == 0;
    let only_key = is_key && parts.document.is_empty();
    let no_text = parts.key.is_empty() && parts.document.is_empty();
    match parts.kind {
        1 => is_key && parts.document.is_document() && no_number,
        2 | 4 | 8 => only_key && no_number,
        3 => only_key,
        5 => (only_key || no_text) && no_number,
        6 => no_text && no_number,
        7 => is_key && parts.document.is_document(),
        _ => false,
    }
}

/// The operation of some parts.
fn op_with(alloc: Global, parts: &Parts) -> Result<Op, AllocError>
    ensures { IfOk result (λ op. op ≡ kinds.op_with parts.now.kind parts.now.key parts.now.document parts.now.number) }
{
    if parts.kind == 6 {
        return Ok(Op::Count);
    }
    let key = parts.key.bytes(alloc)?;
    match parts.kind {
        1 => Ok(Op::Put {
            key,
            doc: parts.document.bytes(alloc)?,
        }),
        2 => Ok(Op::Del { key }),
        3 => Ok(Op::Add {
            key,
            amount: parts.number.cast_signed(),
        }),
        4 => Ok(Op::Get { key }),
        5 => Ok(Op::Next { above: key }),
        7 => Ok(Op::PutIf {
            key,
            revision: parts.number,
            doc: parts.document.bytes(alloc)?,
        }),
        _ => Ok(Op::Rev { key }),
    }
}

/// Whether some reply has these parts.
fn has_reply(parts: &Parts) -> bool
    ensures { result ≡ kinds.has_reply parts.now.kind parts.now.key parts.now.document parts.now.number }
{
    let no_number = parts.number == 0;
    let no_text = parts.key.is_empty() && parts.document.is_empty();
    match parts.kind {
        1..=4 | 7..=9 => no_text && no_number,
        5 => parts.key.is_empty() && parts.document.is_document() && no_number,
        6 | 11..=14 => no_text,
        10 => parts.key.is_key() && parts.document.is_empty() && no_number,
        _ => false,
    }
}

/// The reply of some parts.
fn reply_with(alloc: Global, parts: &Parts) -> Result<Reply, AllocError>
    ensures { IfOk result (λ reply. reply ≡ kinds.reply_with parts.now.kind parts.now.key parts.now.document parts.now.number) }
{
    match parts.kind {
        1 => Ok(Reply::New),
        2 => Ok(Reply::Replaced),
        3 => Ok(Reply::Deleted),
        4 => Ok(Reply::Absent),
        5 => Ok(Reply::Doc(parts.document.bytes(alloc)?)),
        6 => Ok(Reply::Sum(parts.number.cast_signed())),
        7 => Ok(Reply::NotNumber),
        8 => Ok(Reply::Overflow),
        9 => Ok(Reply::NoRoom),
        10 => Ok(Reply::Key(parts.key.bytes(alloc)?)),
        11 => Ok(Reply::Number(parts.number)),
        12 => Ok(Reply::Set(parts.number)),
        13 => Ok(Reply::Stale(parts.number)),
        _ => Ok(Reply::Revision(parts.number)),
    }
}

//! Whether the results that a base holds are replies.

ghost use Rattle.std.specs.Prelude.{◌<◌, ◌≤◌, ◌↔◌, IfOk, IsTrue, length};
ghost use Rattle.c_images.specs.Replies.{HoldsReplies, IsDocumentReply, IsKeptReply, IsQueueReply, IsReplyOfKind, IsSlot};

use cx_base::{OP_WORDS, OpWords};
use cx_core::{Base, OBJECT_START};
use doc_model::{OpFault, reply_of};
use fifo_object::{FifoFault, fifo_reply_of};
use recovery::{Outcome, outcome};
use std::alloc::{AllocError, Global};

/// Whose replies results are to be: a document store's, a queue's, or a program's, of which any words are one.
#[derive(Clone, Copy, Debug, PartialEq, Eq, Drop)]
pub enum ReplyKind {
    Document,
    Queue,
    Program,
}

/// The words of a reply.
type ReplyWords = OpWords;

/// Whether each result of a base that has a number holds a reply of this kind, or 144 zeros, which answer words that are no operation. `Err` is out of
/// memory.
pub fn holds_replies(alloc: Global, base: &Base, kind: ReplyKind) -> Result<bool, AllocError>
    requires { OBJECT_START ≤ length base.now.words }
    ensures { IfOk result (λ holds. IsTrue holds ↔ HoldsReplies (IsReplyOfKind kind) base.now.words) }
{
    for caller in 0..8 {
        if !is_reply_slot(alloc, base, caller, kind)? {
            return Ok(false);
        }
    }
    Ok(true)
}

/// Whether a base holds no result of a caller, or one that keeps a reply of this kind or 144 zeros.
fn is_reply_slot(
    alloc: Global,
    base: &Base,
    caller: u32,
    kind: ReplyKind,
) -> Result<bool, AllocError>
    requires caller { caller < 8 }
    requires words { OBJECT_START ≤ length base.now.words }
    ensures { IfOk result (λ is. IsTrue is ↔ IsSlot (IsReplyOfKind kind) caller base.now.words) }
{
    // a result with the number 0 is of no entry, and holds no reply
    match outcome(base, caller) {
        Outcome::Never => Ok(true),
        Outcome::Applied { reply, .. } => is_kept_reply(alloc, &reply, kind),
    }
}

/// Whether words are a reply of this kind, or 144 zeros.
fn is_kept_reply(alloc: Global, words: &ReplyWords, kind: ReplyKind) -> Result<bool, AllocError>
    ensures { IfOk result (λ is. IsTrue is ↔ IsKeptReply (IsReplyOfKind kind) words.now) }
{
    match kind {
        ReplyKind::Document => is_document_reply(alloc, words),
        ReplyKind::Queue => is_queue_reply(alloc, words),
        ReplyKind::Program => Ok(true),
    }
}

/// Whether words are a reply of a document store, or 144 zeros.
fn is_document_reply(alloc: Global, words: &ReplyWords) -> Result<bool, AllocError>
    ensures { IfOk result (λ is. IsTrue is ↔ IsKeptReply IsDocumentReply words.now) }
{
    if *words == [0; OP_WORDS] {
        return Ok(true);
    }
    match reply_of(alloc, words) {
        Ok(_) => Ok(true),
        // the words are no reply of a document store, or it is not known, since memory ran out
        Err(OpFault::BadOp) => Ok(false),
        Err(OpFault::Memory) => Err(AllocError),
    }
}

/// Whether words are a reply of a queue, or 144 zeros.
fn is_queue_reply(alloc: Global, words: &ReplyWords) -> Result<bool, AllocError>
    ensures { IfOk result (λ is. IsTrue is ↔ IsKeptReply IsQueueReply words.now) }
{
    if *words == [0; OP_WORDS] {
        return Ok(true);
    }
    match fifo_reply_of(alloc, words) {
        Ok(_) => Ok(true),
        // the words are no reply of a queue, or it is not known, since memory ran out
        Err(FifoFault::BadOp) => Ok(false),
        Err(FifoFault::Memory) => Err(AllocError),
    }
}

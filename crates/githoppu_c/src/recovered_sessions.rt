//! Sessions of a service that is taken up from words.

ghost use Rattle.std.specs.Prelude.{◌≡◌, ◌≤◌, ◌↔◌, ◌⊎◌, IfOk, IsTrue, MatchResult, length};
ghost use Rattle.cx_core.specs.Base.{LawfulBase};
ghost use Rattle.c_images.specs.Replies.{IsReplyOfKind};
ghost use Rattle.c_images.specs.Words.{IsSaid};
ghost use Rattle.githoppu_c.specs.Codes.{IsOpenCode};
ghost use Rattle.githoppu_c.specs.Contents.{AreSessionsOf, queue_session, store_session};
ghost use Rattle.githoppu_c.specs.Objects.{IsNoneWith, IsObjectFault, IsObjectIn, IsQueueFault, IsQueueIn, IsSameWith, IsStoreFault, IsStoreIn};
ghost use Rattle.githoppu_c.specs.Recoveries.{AreFew, AreRecovered, IsRefusal, RefusesWords};

use crate::boxes::boxed;
use crate::codes::{BAD_SIZE, IMAGE_BODY, NO_MEMORY, fault_code, open_code};
use crate::content::AnyHandleState;
use crate::images::{DOCUMENTS, QUEUE};
use crate::objects::OfC;
use c_images::{Head, ReplyKind, base_of, head_of, holds_replies};
use c_sessions::{Session, open_from};
use cx_base::Object;
use cx_core::{Base, OBJECT_START};
use doc_store::DocStore;
use fifo_object::Fifo;
use std::alloc::Global;

/// `count` sessions of the document store in the words of an image. `Err` is the code of the refusal: BAD_SIZE where the sessions are not 1 to 8;
/// what is wrong with the image; else NO_MEMORY, or AGAIN where the sessions' new queue did not take its first entry.
pub fn recover_documents(
    alloc: Global,
    words: &[u64],
    count: usize,
) -> Result<Vec<Box<AnyHandleState>>, i32>
    ensures { MatchResult result (λ boxes. AreRecovered store_session (IsStoreIn words.now) count boxes.items) (RefusesWords 1 (IsStoreFault words.now) words.now count) }
{
    if !are_few(count) {
        return Err(BAD_SIZE);
    }
    let head = match head_of(words, DOCUMENTS) {
        Ok(head) => head,
        Err(fault) => return Err(fault_code(fault)),
    };
    let sessions = recovered(alloc, DocStore::of(head.lines), words, head, count)?;
    boxed(alloc, sessions)
}

/// `count` sessions of the queue in the words of an image. `Err` is the code of the refusal: BAD_SIZE where the sessions are not 1 to 8; what is
/// wrong with the image; else NO_MEMORY, or AGAIN where the sessions' new queue did not take its first entry.
pub fn recover_queue(
    alloc: Global,
    words: &[u64],
    count: usize,
) -> Result<Vec<Box<AnyHandleState>>, i32>
    ensures { MatchResult result (λ boxes. AreRecovered queue_session (IsQueueIn words.now) count boxes.items) (RefusesWords 2 (IsQueueFault words.now) words.now count) }
{
    if !are_few(count) {
        return Err(BAD_SIZE);
    }
    let head = match head_of(words, QUEUE) {
        Ok(head) => head,
        Err(fault) => return Err(fault_code(fault)),
    };
    let sessions = recovered(alloc, Fifo::of(head.lines), words, head, count)?;
    boxed(alloc, sessions)
}

/// `count` sessions of a new service of `object`, which starts from the base in the words of an image: a place and a replica. `head` is what the
/// first words say. `Err` says what is wrong with the image, or is NO_MEMORY, or AGAIN where the sessions' new queue did not take its first entry.
pub(crate) fn recovered<O: OfC>(
    alloc: Global,
    object: O,
    words: &[u64],
    head: Head,
    count: usize,
) -> Result<Vec<Session<O>>, i32>
    requires head { IsSaid words.now head }
    requires lines { head.lines ≡ O.line_count object }
    requires few { AreFew count }
    ensures { MatchResult result
        (λ sessions. AreSessionsOf object (O.line_count object) count (IsObjectIn O.Object O.replies_kept object words.now) sessions.items)
        (λ code. IsRefusal (IsObjectFault O.Object O.replies_kept object words.now) code ⊎ IsOpenCode code) }
{
    let base = base_in(alloc, &object, O::reply_kind(), words, head)?;
    match open_from(alloc, object, count as u32, &base) {
        Ok(sessions) => Ok(sessions),
        Err(fault) => Err(open_code(fault)),
    }
}

/// The base, that is, the place and the replica, that is recovered for `object` from words with this head. `Err` is the code of the refusal, which is
/// also given where a result in the replica keeps no reply of this kind.
pub(crate) fn base_in<O: Object>(
    alloc: Global,
    object: &O,
    kind: ReplyKind,
    words: &[u64],
    head: Head,
) -> Result<Base, i32>
    requires head { IsSaid words.now head }
    requires lines { head.lines ≡ O.line_count object.now }
    ensures base { MatchResult result (IsObjectIn O.Object kind object.now words.now) (IsRefusal (IsObjectFault O.Object kind object.now words.now)) }
    ensures lawful { IfOk result (LawfulBase (O.line_count object.now) (O.lawful object.now)) }
{
    match base_of(alloc, object, words, head) {
        Ok(base) => with_replies(alloc, base, kind),
        Err(fault) => Err(fault_code(fault)),
    }
}

/// Gives `base` back where each result in it that has a number keeps a reply of this kind. `Err` is IMAGE_BODY where one does not, or NO_MEMORY.
fn with_replies(alloc: Global, base: Base, kind: ReplyKind) -> Result<Base, i32>
    requires { OBJECT_START ≤ length base.words }
    ensures { MatchResult result (IsSameWith (IsReplyOfKind kind) base) (IsNoneWith (IsReplyOfKind kind) base) }
{
    match holds_replies(alloc, &base, kind) {
        Ok(true) => Ok(base),
        Ok(false) => Err(IMAGE_BODY),
        Err(_) => Err(NO_MEMORY),
    }
}

/// Whether there may be this many sessions of a service: 1 to 8.
pub(crate) fn are_few(count: usize) -> bool
    ensures { IsTrue result ↔ AreFew count }
{
    count >= 1 && count <= 8
}

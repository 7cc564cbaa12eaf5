//! Sessions are opened, and put where C wants them.

ghost use Rattle.std.specs.Prelude.{◌≡◌, ◌↔◌, IsTrue, MatchResult};
ghost use Rattle.cx_core.specs.Base.{fresh_region};
ghost use Rattle.githoppu_c.specs.Codes.{IsOpenCode};
ghost use Rattle.githoppu_c.specs.Contents.{AreOpened, AreSessionsOf, MayOpen, Refuses, queue_session, store_session};

use crate::boxes::boxed;
use crate::codes::{BAD_SIZE, open_code};
use crate::content::AnyHandleState;
use c_sessions::{Session, open};
use cx_base::Object;
use doc_store::DocStore;
use fifo_object::Fifo;
use std::alloc::Global;

/// `count` sessions of an empty document store in `lines` lines. `Err` is the code of the refusal: BAD_SIZE where the lines are not 64 to 16,384 or the
/// sessions not 1 to 8, else NO_MEMORY, or AGAIN where the sessions' new queue did not take its first entry.
pub fn open_documents(
    alloc: Global,
    lines: u64,
    count: usize,
) -> Result<Vec<Box<AnyHandleState>>, i32>
    ensures { MatchResult result (λ boxes. AreOpened store_session lines count boxes.items) (Refuses lines count) }
{
    if !may_open(lines, count) {
        return Err(BAD_SIZE);
    }
    let sessions = opened(alloc, DocStore::of(lines), count)?;
    boxed(alloc, sessions)
}

/// `count` sessions of an empty queue in `lines` lines. `Err` is the code of the refusal: BAD_SIZE where the lines are not 64 to 16,384 or the
/// sessions not 1 to 8, else NO_MEMORY, or AGAIN where the sessions' new queue did not take its first entry.
pub fn open_queue(alloc: Global, lines: u64, count: usize) -> Result<Vec<Box<AnyHandleState>>, i32>
    ensures { MatchResult result (λ boxes. AreOpened queue_session lines count boxes.items) (Refuses lines count) }
{
    if !may_open(lines, count) {
        return Err(BAD_SIZE);
    }
    let sessions = opened(alloc, Fifo::of(lines), count)?;
    boxed(alloc, sessions)
}

/// `count` sessions of a new service of `object`, which starts from the object's opening image. `Err` is NO_MEMORY, or AGAIN where the sessions' new
/// queue did not take its first entry.
pub(crate) fn opened<O: Object>(
    alloc: Global,
    object: O,
    count: usize,
) -> Result<Vec<Session<O>>, i32>
    requires { MayOpen (O.line_count object) count }
    ensures { MatchResult result (λ sessions. AreSessionsOf object (O.line_count object) count (λ base. base.words ≡ fresh_region (O.opening object)) sessions.items) IsOpenCode }
{
    match open(alloc, object, count as u32) {
        Ok(sessions) => Ok(sessions),
        Err(fault) => Err(open_code(fault)),
    }
}

/// Puts the pointer to each session into the slot of the same number, from which C has it. A session without a slot is dropped.
pub fn hand_out(sessions: Vec<Box<AnyHandleState>>, slots: &mut [*mut u8]) {
    let mut at = 0;
    for session in sessions {
        if at < slots.len() {
            slots[at] = Box::into_raw(session) as *mut u8;
            at += 1;
        }
    }
}

/// Whether an object may be opened with this many lines and sessions: with 64 to 16,384 lines, and `count` sessions, 1 to 8.
pub(crate) fn may_open(lines: u64, count: usize) -> bool
    ensures { IsTrue result ↔ MayOpen lines count }
{
    lines >= 64 && lines <= 16384 && count >= 1 && count <= 8
}

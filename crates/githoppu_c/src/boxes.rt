//! Sessions as C has them.

ghost use Rattle.std.specs.Prelude.{◌≡◌, IfOk, MatchResult, map, pos};
ghost use Rattle.std.specs.Global.{Global as global};
ghost use Rattle.std_alloc.specs.declared.boxed.Box.{Box as box_type};
ghost use Rattle.githoppu_c.specs.Contents.{program_session, queue_session, store_session};
ghost use Rattle.githoppu_c.specs.declared.content.AnyHandleState.{AnyHandleState as any_type};

use crate::codes::NO_MEMORY;
use crate::content::{AnyHandleState, HandleState};
use c_sessions::Session;
use doc_store::DocStore;
use fifo_object::Fifo;
use program_object::ProgramObject;
use std::alloc::{AllocError, Global};

/// A type of session to which C may hold a pointer: a session of a document store, of a queue, or of a program's object.
pub trait SessionOfC: Drop {
    /// What stands behind a pointer of C's to this session: the session, marked with the kind of its object.
    ghost as_any: { Self → any_type };

    /// What stands behind a pointer of C's to this session: the session, marked with the kind of its object.
    fn any(self) -> AnyHandleState
        ensures { result ≡ as_any self };
}

impl SessionOfC for Session<DocStore> {
    ghost as_any = { store_session };

    fn any(self) -> AnyHandleState {
        AnyHandleState::Documents(HandleState::Session(self))
    }
}

impl SessionOfC for Session<Fifo> {
    ghost as_any = { queue_session };

    fn any(self) -> AnyHandleState {
        AnyHandleState::Queue(HandleState::Session(self))
    }
}

impl SessionOfC for Session<ProgramObject> {
    ghost as_any = { program_session };

    fn any(self) -> AnyHandleState {
        AnyHandleState::Program(HandleState::Session(self))
    }
}

/// Puts each session into a box of its own, in the same order, marked with the kind of its object. `Err` is the status NO_MEMORY.
pub fn boxed<S: SessionOfC>(
    alloc: Global,
    sessions: Vec<S>,
) -> Result<Vec<Box<AnyHandleState>>, i32>
    ensures { MatchResult result (λ boxes. map (λ (b : box_type any_type global). b.value) boxes.items ≡ map S.as_any sessions.items) (λ code. code ≡ pos 8) }
{
    match in_boxes(alloc, sessions) {
        Ok(boxes) => Ok(boxes),
        Err(_) => Err(NO_MEMORY),
    }
}

/// Puts each session into a box of its own, in the same order, marked with the kind of its object. `Err` means out of memory.
fn in_boxes<S: SessionOfC>(
    alloc: Global,
    sessions: Vec<S>,
) -> Result<Vec<Box<AnyHandleState>>, AllocError>
    ensures { IfOk result (λ boxes. map (λ (b : box_type any_type global). b.value) boxes.items ≡ map S.as_any sessions.items) }
{
    let mut boxes = Vec::new(alloc);
    for session in sessions {
        boxes.push(Box::new(alloc, session.any())?)?;
    }
    Ok(boxes)
}

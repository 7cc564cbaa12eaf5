//! An image of an old version, made by hand, and a service that goes on from what is recovered of it.

ghost use Rattle.std.specs.Prelude.{IsTrue};
ghost use Rattle.cx_service.specs.Callers.{IsCallerOf};
ghost use Rattle.recovery.specs.Recovery.{NumbersWithin};

use crate::calls::{UPDATE, asked};
use crate::holds::holds;
use crate::starts::one_started;
use crate::tasks::words_of;
use crate::written::{DOCUMENT, Written, image_of};
use cx_core::{Base, slot_start};
use cx_service::{Caller, Handed, Service};
use doc_store::DocStore;
use recovery::recover;
use std::alloc::{AllocError, Global};
use std::test::Fail;

// Whether no slot of a base has a number above the base's place.
fn has_numbers_within(base: &Base) -> bool
    ensures { IsTrue result → NumbersWithin base.now }
{
    for caller in 0..8u32 {
        let at = slot_start(caller) as usize;
        if base.words.as_slice().get(at).copied().unwrap_or(0) > base.place {
            return false;
        }
    }
    true
}

// An image of a document store in its old version 1: replica 1 at place 1 has one document.
const OLD_DOCUMENT: Written = (1, 3360, 3, &DOCUMENT);

// A command on the key a: its kind, its document and its number; and of its answer the ticket, and the kind and the number of the reply.
type Answered = (u64, &'static str, u64, (u64, u64, u64));

// A pair of an old image has revision 1, so a put on condition of none is stale, and one on condition of 1 gives 2.
const CONDITIONAL: [Answered; 4] = [
    (7, "2", 0, (1, 13, 1)),
    (7, "2", 1, (2, 12, 2)),
    (8, "", 0, (3, 14, 2)),
    (7, "3", 1, (4, 13, 2)),
];

// The first command that is answered with something else.
fn first_other(service: &Service<DocStore>, caller: Caller, rows: &[Answered]) -> Option<usize>
    requires { IsCallerOf service.now caller }
{
    let mut handed = Handed::Idle(caller);
    for (i, (kind, document, number, want)) in rows.iter().enumerate() {
        let op = words_of(*kind, b"a", document.as_bytes(), *number);
        let (back, call) = asked(service, handed, &op, UPDATE);
        handed = back;
        if !call.is_updated(want.0) || (call.reply[0], call.reply[3]) != (want.1, want.2) {
            return Some(i);
        }
    }
    None
}

// Whether a service of documents that opens from what is recovered of an image answers each command as its row says.
fn documents_go_on(
    alloc: Global,
    written: &Written,
    rows: &[Answered],
) -> Result<bool, AllocError> {
    let image = image_of(alloc, written)?;
    let store = DocStore::of(64);
    let Ok(base) = recover(alloc, &store, &image) else {
        return Ok(false);
    };
    if !has_numbers_within(&base) {
        return Ok(false);
    }
    let (service, caller) = one_started(alloc, store, &base)?;
    Ok(first_other(&service, caller, rows).is_none())
}

#[test]
fn documents_go_on_from_an_old_image(rt: HostRuntime) -> Result<(), Fail> {
    holds(
        &rt,
        documents_go_on(rt.alloc(), &OLD_DOCUMENT, &CONDITIONAL)?,
    );
    Ok(())
}

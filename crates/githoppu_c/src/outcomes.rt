//! What became of a session's last operation, as the words of an image say.

ghost use Rattle.std.specs.Prelude.{◌≡◌, ◌≢◌, MatchResult};
ghost use Rattle.c_images.specs.Words.{IsHeaded, IsSaid, object_kind_in};
ghost use Rattle.githoppu_c.specs.Outcomes.{IsOutcomeIn, RefusesOutcome, TellsBase};
ghost use Rattle.githoppu_c.specs.Outcomes as spec;

use crate::codes::{BAD_SIZE, fault_code};
use crate::images::{DOCUMENTS, PROGRAM, QUEUE};
use crate::named_program::NamedProgram;
use crate::recovered_sessions::base_in;
use c_images::{Head, ReplyKind, WordsFault, base_words, head_of};
use cx_base::root_replica;
use cx_core::{Base, OBJECT_START};
use doc_store::DocStore;
use fifo_object::Fifo;
use recovery::{Outcome, outcome};
use std::alloc::Global;

/// What became of the last operation of the session with the number `session`, by the words of an image. `Err` is the code of the refusal: BAD_SIZE
/// where `session` is above 7, NO_MEMORY, or what is wrong with the image.
pub fn outcome_in(alloc: Global, words: &[u64], session: u64) -> Result<Outcome, i32>
    ensures { MatchResult result (IsOutcomeIn words.now session) (RefusesOutcome words.now session) }
{
    if session >= 8 {
        return Err(BAD_SIZE);
    }
    let base = any_base(alloc, words)?;
    Ok(outcome(&base, session as u32))
}

/// The base, that is, the place and the replica, that is recovered from the words of an image of any kind of object. `Err` is the code of the
/// refusal.
fn any_base(alloc: Global, words: &[u64]) -> Result<Base, i32>
    ensures { TellsBase words.now result }
{
    match head_of(words, DOCUMENTS) {
        Ok(head) => base_in(
            alloc,
            &DocStore::of(head.lines),
            ReplyKind::Document,
            words,
            head,
        ),
        Err(WordsFault::Kind { .. }) => other_base(alloc, words),
        Err(fault) => Err(fault_code(fault)),
    }
}

/// The base that is recovered from the words of an image whose head names another kind than a document store. `Err` is the code of the refusal.
fn other_base(alloc: Global, words: &[u64]) -> Result<Base, i32>
    requires headed { IsHeaded words.now }
    requires other { object_kind_in words.now ≢ 1 }
    ensures { TellsBase words.now result }
{
    match head_of(words, QUEUE) {
        Ok(head) => base_in(alloc, &Fifo::of(head.lines), ReplyKind::Queue, words, head),
        Err(WordsFault::Kind { .. }) => program_base(alloc, words),
        Err(fault) => Err(fault_code(fault)),
    }
}

/// The base that is recovered from the words of an image whose head names neither a document store nor a queue. The program need not be there: of it
/// the image has the fingerprint. `Err` is the code of the refusal.
fn program_base(alloc: Global, words: &[u64]) -> Result<Base, i32>
    requires headed { IsHeaded words.now }
    requires no_store { object_kind_in words.now ≢ 1 }
    requires no_queue { object_kind_in words.now ≢ 2 }
    ensures { TellsBase words.now result }
{
    match head_of(words, PROGRAM) {
        Ok(head) => {
            let object = NamedProgram::of(head.lines, fingerprint_in(words, head));
            base_in(alloc, &object, ReplyKind::Program, words, head)
        }
        Err(fault) => Err(fault_code(fault)),
    }
}

/// The fingerprint of the program that the words of an image name: the first word of the object, in the replica that the root names. 0 where the
/// words end before it.
fn fingerprint_in(words: &[u64], head: Head) -> u64
    requires { IsSaid words.now head }
    ensures { result ≡ spec.fingerprint_in words.now }
{
    // the words of the replicas before the one that the root names; format 2 has one replica only
    let region = if head.format == 2 {
        0
    } else {
        base_words(head.lines) * u64::from(root_replica(head.callers, head.root))
    };
    // behind the head of 8 words and those replicas, the object follows on the results
    match words.get((8 + region + OBJECT_START) as usize) {
        Some(word) => *word,
        None => 0,
    }
}

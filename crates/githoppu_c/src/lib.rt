//! The problem: programs in C, and in whatever calls C, want the proved store and the proved queue, and objects of their own, though nothing is proved of such
//! programs.
//!
//! The idea: a call takes a handle, answers a number, and gives the handle back, so each call owns its session while it runs. All that these
//! contracts ask of C is that handles and buffers are what the header says; whatever order the calls come in, one out of turn is refused and changes
//! nothing. The bodies are thin: `c_sessions` has what a call does, `c_images` has images.
//!
//! The document store, the queue and the object of a program for C: `include/githoppu.h` says how each is called. A session is a caller with its share of a
//! service, and C gives each to one call at a time. What a call does stands once, for any object (`HandleState`), and is matched once by object
//! (`AnyHandleState`).
#![tactic(auto)]

ghost use Rattle.std.specs.Prelude.{◌≡◌, length};
ghost use Rattle.githoppu_c.specs.Again.{ComesBack, TakenComesBack};
ghost use Rattle.githoppu_c.specs.Checkpoints.{AnswersCheckpoint};
ghost use Rattle.githoppu_c.specs.Closings.{ClosesAs, Images};
ghost use Rattle.githoppu_c.specs.Contents.{AnswersTries, CallHasResult, FinishesSession, IsCallable, IsTriesFor, AnswersOpening};
ghost use Rattle.githoppu_c.specs.Places.{AnswersSight, TellsPlace};
ghost use Rattle.githoppu_c.specs.Objects.{IsQueueFault, IsQueueIn, IsStoreFault, IsStoreIn};
ghost use Rattle.githoppu_c.specs.Outcomes.{WritesOutcome};
ghost use Rattle.githoppu_c.specs.Recoveries.{Recovers};
ghost use Rattle.githoppu_c.specs.Programs.{AnswersProgramOpening, RecoversProgram, TellsFault, TellsFingerprint};
ghost use Rattle.githoppu_c.specs.declared.content.AnyHandleState as content_type;

mod boxes;
mod checkpoint;
mod codes;
mod content;
mod handle;
mod images;
mod named_program;
mod objects;
mod open;
mod outcomes;
mod programs;
mod raw_box;
mod recovered_sessions;

use crate::codes::{
    BAD_PROGRAM, BAD_SIZE, DONE, NO_MEMORY, OTHERS, OUT_OF_TURN, code_of, sight_code,
};
use crate::handle::Handle;
use crate::open::{hand_out, open_documents, open_queue};
use crate::outcomes::outcome_in;
use crate::programs::{
    MOST_FUEL, fingerprint_of, open_program, program_fault_number, recover_program,
};
use crate::recovered_sessions::{recover_documents, recover_queue};
use c_sessions::Tries;
use cx_base::{OP_WORDS, OpWords};
use program_code::Program;
use recovery::Outcome;
use std::alloc::Global;
use std::ptr;

// The most tries that a call makes.
const MOST: u64 = 1 << 20;

// The version of the library, 0.5.0: a million times the first number, a thousand times the second, and the third.
const VERSION: u64 = 5000;

/// How many tries a call makes where C asks for `asked` tries: as many, but at least 1 and at most 2^20.
fn tries_of(asked: u64) -> Tries
    ensures { IsTriesFor asked result.count }
{
    Tries {
        count: asked.clamp(1, MOST),
    }
}

/// Opens an empty document store in `lines` lines, and puts the pointer to a session into each slot of `sessions`. The answer is DONE; or it is
/// BAD_SIZE, NO_MEMORY or AGAIN, and no slot is written.
#[unsafe(no_mangle)]
pub extern "C" fn githoppu_open(alloc: Global, lines: u64, sessions: &mut [*mut u8]) -> i32
    ensures { AnswersOpening lines (length sessions.old) result }
{
    match open_documents(alloc, lines, sessions.len()) {
        Ok(made) => {
            hand_out(made, sessions);
            DONE
        }
        Err(code) => code,
    }
}

/// Opens an empty queue in `lines` lines, and puts the pointer to a session into each slot of `sessions`. The answer is DONE; or it is BAD_SIZE,
/// NO_MEMORY or AGAIN, and no slot is written.
#[unsafe(no_mangle)]
pub extern "C" fn githoppu_open_queue(alloc: Global, lines: u64, sessions: &mut [*mut u8]) -> i32
    ensures { AnswersOpening lines (length sessions.old) result }
{
    match open_queue(alloc, lines, sessions.len()) {
        Ok(made) => {
            hand_out(made, sessions);
            DONE
        }
        Err(code) => code,
    }
}

/// Opens an empty object in `lines` lines whose operations are runs of a program of at most `fuel` instructions each, and puts the pointer to a
/// session into each slot of `sessions`. The first `instructions` words of `program` are instructions, the others constants. The answer is DONE; or
/// it is BAD_SIZE, BAD_PROGRAM, NO_MEMORY or AGAIN, and no slot is written.
#[unsafe(no_mangle)]
pub extern "C" fn githoppu_open_program(
    alloc: Global,
    program: &[u64],
    instructions: u64,
    fuel: u64,
    lines: u64,
    sessions: &mut [*mut u8],
) -> i32
    ensures { AnswersProgramOpening program.now instructions fuel lines (length sessions.old) result }
{
    match open_program(alloc, program, instructions, fuel, lines, sessions.len()) {
        Ok(made) => {
            hand_out(made, sessions);
            DONE
        }
        Err(code) => code,
    }
}

/// Tells why the words `program` are no program. The answer is BAD_PROGRAM where they are none: then `fault` is the number of the kind of the first
/// fault, and `at` that of the instruction at fault. It is DONE where they are a program: then both are 0. It is NO_MEMORY where memory ran out: then
/// nothing is written.
#[unsafe(no_mangle)]
pub extern "C" fn githoppu_program_fault(
    alloc: Global,
    program: &[u64],
    instructions: u64,
    fault: &mut u64,
    at: &mut u64,
) -> i32
    ensures { TellsFault program.now instructions fault.old fault.new at.old at.new result }
{
    match Program::of(alloc, program, instructions as usize) {
        Ok(_) => {
            *fault = 0;
            *at = 0;
            DONE
        }
        Err(found) => match program_fault_number(found.kind) {
            Some(number) => {
                *fault = number;
                *at = found.at;
                BAD_PROGRAM
            }
            None => NO_MEMORY,
        },
    }
}

/// Writes the fingerprint of the program with this fuel, which stands in its images. The answer is DONE; or it is BAD_SIZE where `fuel` is above
/// 2^20, BAD_PROGRAM or NO_MEMORY, and nothing is written.
#[unsafe(no_mangle)]
pub extern "C" fn githoppu_program_fingerprint(
    alloc: Global,
    program: &[u64],
    instructions: u64,
    fuel: u64,
    fingerprint: &mut u64,
) -> i32
    ensures { TellsFingerprint program.now instructions fuel fingerprint.old fingerprint.new result }
{
    if fuel > MOST_FUEL {
        return BAD_SIZE;
    }
    match fingerprint_of(alloc, program, instructions, fuel) {
        Ok(found) => {
            *fingerprint = found;
            DONE
        }
        Err(code) => code,
    }
}

/// Does the operation `op`, in at most `tries` tries, where 0 counts as 1 and more than 2^20 as 2^20. The reply is written where the answer is DONE;
/// else `reply` may have any words. The pointer to the session stands at `out` afterwards.
#[unsafe(no_mangle)]
pub extern "C" fn githoppu_call(
    session: Handle,
    op: &OpWords,
    reply: &mut OpWords,
    tries: u64,
    out: &mut *mut u8,
) -> i32
    requires { IsCallable session.content }
    ensures { AnswersTries tries (λ n called after. CallHasResult op.now n session.content called after reply.new) result }
{
    let mut content = session.into_box();
    let called = content.call(op, reply, tries_of(tries));
    *out = Box::into_raw(content) as *mut u8;
    code_of(called)
}

/// Drives the linked entry to its answer, in at most `tries` attempts, where 0 counts as 1 and more than 2^20 as 2^20. The reply is written where the
/// answer is DONE; else `reply` may have any words. The pointer to the session stands at `out` afterwards.
#[unsafe(no_mangle)]
pub extern "C" fn githoppu_finish(
    session: Handle,
    reply: &mut OpWords,
    tries: u64,
    out: &mut *mut u8,
) -> i32
    requires { IsCallable session.content }
    ensures { AnswersTries tries (λ n called after. FinishesSession n session.content called after reply.new) result }
{
    let mut content = session.into_box();
    let called = content.finish(reply, tries_of(tries));
    *out = Box::into_raw(content) as *mut u8;
    code_of(called)
}

/// Closes a session. Its caller is handed in; the session of an object that is closed last closes the object, and what the object left stands at `out`. Where
/// other sessions are not closed yet, `out` is null; after any other answer what the handle holds then stands at `out`.
#[unsafe(no_mangle)]
pub extern "C" fn githoppu_close(alloc: Global, session: Handle, out: &mut *mut u8) -> i32
    requires { IsCallable session.content }
    ensures { (after : content_type.AnyHandleState) × IsCallable after × ClosesAs session.content after result }
{
    let mut content = session.into_box();
    let code = content.close(alloc);
    // the session is closed, and nothing is left for C to hold
    if code == OTHERS {
        drop(content);
        *out = ptr::null_mut();
    } else {
        *out = Box::into_raw(content) as *mut u8;
    }
    code
}

/// Writes an image that a crash could leave of a closed object into `words`: `choice` picks the root, and the values of the dirty words. `needed`
/// becomes the number of words of the image, which `words` has to have; where the handle holds no closed object, `needed` is 0, and the answer is
/// OUT_OF_TURN. Where the answer is DONE, a recovery of the words with 1 to 8 sessions answers DONE, or NO_MEMORY (`GITHOPPU_NO_MEMORY`) where memory
/// runs out, or AGAIN where the new sessions' queue did not take its first entry; and `githoppu_outcome` of a store's or a queue's words answers DONE
/// or NO_MEMORY for each session. The pointer to what the handle holds stands at `out` afterwards.
#[unsafe(no_mangle)]
pub extern "C" fn githoppu_image(
    closed: Handle,
    choice: u64,
    words: &mut [u64],
    needed: &mut u64,
    out: &mut *mut u8,
) -> i32
    requires { IsCallable closed.content }
    ensures images { Images closed.content choice words.old words.new needed.new result }
    ensures back { ComesBack closed.content choice words.new result }
{
    let content = closed.into_box();
    let code = content.image(choice, words, needed);
    *out = Box::into_raw(content) as *mut u8;
    code
}

/// Has a session write an image of its object into `words`, while other sessions go on: the image after all that was answered before. `needed`
/// becomes the number of words of the image, which has one region only, and `words` has to have as many; where the handle holds no session, `needed`
/// is 0, and the answer is OUT_OF_TURN. Where the answer is DONE and each result in the words keeps a reply, a recovery of them with 1 to 8 sessions
/// answers DONE, or NO_MEMORY (`GITHOPPU_NO_MEMORY`) where memory runs out, or AGAIN where the new sessions' queue did not take its first entry. The
/// pointer to what the handle holds stands at `out` afterwards.
#[unsafe(no_mangle)]
pub extern "C" fn githoppu_checkpoint(
    session: Handle,
    words: &mut [u64],
    needed: &mut u64,
    out: &mut *mut u8,
) -> i32
    requires { IsCallable session.content }
    ensures answers { AnswersCheckpoint session.content words.old words.new needed.new result }
    ensures back { TakenComesBack session.content words.new result }
{
    let mut content = session.into_box();
    let code = content.checkpoint(words, needed);
    *out = Box::into_raw(content) as *mut u8;
    code
}

/// Recovers a document store from the words of an image, in the format of a closed service or that of a checkpoint, and puts the pointer to a session
/// into each slot of `sessions`. The answer is DONE; or it says why nothing is recovered, and no slot is written.
#[unsafe(no_mangle)]
pub extern "C" fn githoppu_recover(alloc: Global, words: &[u64], sessions: &mut [*mut u8]) -> i32
    ensures { Recovers 1 (IsStoreIn words.now) (IsStoreFault words.now) words.now (length sessions.old) result }
{
    match recover_documents(alloc, words, sessions.len()) {
        Ok(made) => {
            hand_out(made, sessions);
            DONE
        }
        Err(code) => code,
    }
}

/// Recovers a queue from the words of an image, in the format of a closed service or that of a checkpoint, and puts the pointer to a session into
/// each slot of `sessions`. The answer is DONE; or it says why nothing is recovered, and no slot is written.
#[unsafe(no_mangle)]
pub extern "C" fn githoppu_recover_queue(
    alloc: Global,
    words: &[u64],
    sessions: &mut [*mut u8],
) -> i32
    ensures { Recovers 2 (IsQueueIn words.now) (IsQueueFault words.now) words.now (length sessions.old) result }
{
    match recover_queue(alloc, words, sessions.len()) {
        Ok(made) => {
            hand_out(made, sessions);
            DONE
        }
        Err(code) => code,
    }
}

/// Recovers an object of this program from the words `image`, in the format of a closed service or that of a checkpoint, and puts the pointer to a
/// session into each slot of `sessions`. Where `before` is not 0, it is the fingerprint of another program whose images are taken too. The answer is
/// DONE; or it says why nothing is recovered, and no slot is written.
#[unsafe(no_mangle)]
pub extern "C" fn githoppu_recover_program(
    alloc: Global,
    program: &[u64],
    instructions: u64,
    fuel: u64,
    before: u64,
    image: &[u64],
    sessions: &mut [*mut u8],
) -> i32
    ensures { RecoversProgram program.now instructions fuel before image.now (length sessions.old) result }
{
    match recover_program(
        alloc,
        program,
        instructions,
        fuel,
        before,
        image,
        sessions.len(),
    ) {
        Ok(made) => {
            hand_out(made, sessions);
            DONE
        }
        Err(code) => code,
    }
}

/// Tells what became of the last operation of the session with the number `session`, as the words of an image say: `number` becomes the number of the
/// operation among the session's, and `reply` its reply, or 0 and 144 zeros where it had none. The answer is DONE; or it says why the words are
/// refused, and nothing is written.
#[unsafe(no_mangle)]
pub extern "C" fn githoppu_outcome(
    alloc: Global,
    words: &[u64],
    session: u64,
    number: &mut u64,
    reply: &mut OpWords,
) -> i32
    ensures { WritesOutcome words.now session number.old number.new reply.old reply.new result }
{
    match outcome_in(alloc, words, session) {
        Ok(Outcome::Never) => {
            *number = 0;
            *reply = [0; OP_WORDS];
            DONE
        }
        Ok(
            Outcome::Applied {
                number: last,
                reply: answer,
            },
        ) => {
            *number = last;
            *reply = answer;
            DONE
        }
        Err(code) => code,
    }
}

/// The version of the library.
#[unsafe(no_mangle)]
pub extern "C" fn githoppu_version() -> u64
    ensures { result ≡ 5000 }
{
    VERSION
}

/// Writes the place of a session, with which another session may catch up. Where the handle holds no session the answer is OUT_OF_TURN, and 0 is
/// written. The pointer to what the handle holds stands at `out` afterwards.
#[unsafe(no_mangle)]
pub extern "C" fn githoppu_place_of(session: Handle, place: &mut u64, out: &mut *mut u8) -> i32
    ensures { TellsPlace session.content place.new result }
{
    let content = session.into_box();
    let seen_place = content.place();
    *out = Box::into_raw(content) as *mut u8;
    match seen_place {
        Some(seen) => {
            *place = seen;
            DONE
        }
        None => {
            *place = 0;
            OUT_OF_TURN
        }
    }
}

/// Has a session catch up with `place`, the place of another session of the same object. The answer is DONE where it did, BEHIND where the current
/// place is below `place`, STOPPED or OUT_OF_TURN. The pointer to what the handle holds stands at `out` afterwards.
#[unsafe(no_mangle)]
pub extern "C" fn githoppu_see_place(session: Handle, place: u64, out: &mut *mut u8) -> i32
    requires { IsCallable session.content }
    ensures { AnswersSight place session.content result }
{
    let mut content = session.into_box();
    let sight = content.catch_up(place);
    *out = Box::into_raw(content) as *mut u8;
    sight_code(sight)
}

/// Releases what C holds. The last session of an object releases the object too.
#[unsafe(no_mangle)]
pub extern "C" fn githoppu_drop(session: Handle) {
    drop(session.into_box());
}

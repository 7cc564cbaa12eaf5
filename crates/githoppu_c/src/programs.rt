//! Sessions of an object whose operations are runs of a program.

ghost use Rattle.std.specs.Prelude.{◌≡◌, MatchResult, true};
ghost use Rattle.program_object.specs.Fingerprint as prints;
ghost use Rattle.program_object.specs.Meaning.{numbers_fit};
ghost use Rattle.githoppu_c.specs.Programs as spec;
ghost use Rattle.githoppu_c.specs.Programs.{AreProgramsOpened, AreProgramsRecovered, IsFuel, IsObjectOf, IsProgram, RefusesProgram, RefusesProgramOpening, RefusesProgramRecovery};

use crate::boxes::boxed;
use crate::codes::{BAD_PROGRAM, BAD_SIZE, NO_MEMORY, fault_code};
use crate::content::AnyHandleState;
use crate::images::PROGRAM;
use crate::open::{may_open, opened};
use crate::recovered_sessions::{are_few, recovered};
use c_images::head_of;
use program_code::{FaultKind, Program};
use program_object::ProgramObject;
use std::alloc::Global;

/// The most instructions that an operation may be allowed to take.
pub const MOST_FUEL: u64 = 1 << 20;

// How many lines an object has that is made only to ask it for its fingerprint.
const FEW_LINES: u64 = 64;

/// `count` sessions of an object of a program in `lines` lines, as it opens. `Err` is the code of the refusal: BAD_SIZE where the lines are not 64 to 16,384,
/// the sessions not 1 to 8 or the fuel is above 2^20; BAD_PROGRAM where the words are no program; else NO_MEMORY, or AGAIN where the sessions' new queue did
/// not take its first entry.
pub fn open_program(
    alloc: Global,
    words: &[u64],
    instructions: u64,
    fuel: u64,
    lines: u64,
    count: usize,
) -> Result<Vec<Box<AnyHandleState>>, i32>
    ensures { MatchResult result (λ boxes. AreProgramsOpened words.now instructions fuel lines count boxes.items) (RefusesProgramOpening words.now instructions fuel lines count) }
{
    if !may_open(lines, count) || fuel > MOST_FUEL {
        return Err(BAD_SIZE);
    }
    // a new object has no images of another program to take over
    let object = object_of(alloc, words, instructions, fuel, lines, None)?;
    let sessions = opened(alloc, object, count)?;
    boxed(alloc, sessions)
}

/// `count` sessions of the object of this program, from the words `image` of an image of it, or of one of the program with the fingerprint `before`,
/// where that is not 0. `Err` is the code of the refusal: BAD_SIZE where the sessions are not 1 to 8 or the fuel is above 2^20; BAD_PROGRAM where
/// `words` are no program; what is wrong with the image; else NO_MEMORY, or AGAIN where the sessions' new queue did not take its first entry.
pub fn recover_program(
    alloc: Global,
    words: &[u64],
    instructions: u64,
    fuel: u64,
    before: u64,
    image: &[u64],
    count: usize,
) -> Result<Vec<Box<AnyHandleState>>, i32>
    ensures { MatchResult result (λ boxes. AreProgramsRecovered words.now instructions fuel before image.now count boxes.items) (RefusesProgramRecovery words.now instructions fuel before image.now count) }
{
    if !are_few(count) || fuel > MOST_FUEL {
        return Err(BAD_SIZE);
    }
    // `before` counts only where it is not the program's own fingerprint
    let fingerprint = fingerprint_of(alloc, words, instructions, fuel)?;
    let head = match head_of(image, PROGRAM) {
        Ok(head) => head,
        Err(fault) => return Err(fault_code(fault)),
    };
    let before = before_of(before, fingerprint);
    // the object has as many lines as the head of the image says
    let object = object_of(alloc, words, instructions, fuel, head.lines, before)?;
    let sessions = recovered(alloc, object, image, head, count)?;
    boxed(alloc, sessions)
}

/// The fingerprint of the program that `words` are, with this fuel. `Err` is BAD_PROGRAM or NO_MEMORY.
pub fn fingerprint_of(
    alloc: Global,
    words: &[u64],
    instructions: u64,
    fuel: u64,
) -> Result<u64, i32>
    requires { IsFuel fuel }
    ensures { MatchResult result (λ found. IsProgram words.now instructions × (found ≡ prints.fingerprint words.now instructions fuel)) (RefusesProgram words.now instructions) }
{
    let object = object_of(alloc, words, instructions, fuel, FEW_LINES, None)?;
    Ok(object.fingerprint())
}

/// The fingerprint of another program whose images are taken over: `before`, or none where that is 0 or is the program's own.
fn before_of(before: u64, fingerprint: u64) -> Option<u64>
    ensures { result ≡ spec.before_of before fingerprint }
{
    if before == 0 || before == fingerprint {
        None
    } else {
        Some(before)
    }
}

/// The object of the program that `words` are: the first `instructions` of them are instructions, the others constants. `Err` is BAD_PROGRAM or
/// NO_MEMORY.
fn object_of(
    alloc: Global,
    words: &[u64],
    instructions: u64,
    fuel: u64,
    lines: u64,
    before: Option<u64>,
) -> Result<ProgramObject, i32>
    requires fits { numbers_fit lines fuel (prints.fingerprint words.now instructions fuel) before ≡ true }
    ensures { MatchResult result (IsObjectOf words.now instructions fuel lines before) (RefusesProgram words.now instructions) }
{
    let program = match Program::of(alloc, words, instructions as usize) {
        Ok(program) => program,
        Err(fault) => return Err(refusal_code(fault.kind)),
    };
    // `None` does not come: by the contract the numbers fit
    match ProgramObject::of(program, lines, fuel, before) {
        Some(object) => Ok(object),
        None => unreachable!(),
    }
}

/// The status for the fault `kind`: NO_MEMORY where memory ran out, else BAD_PROGRAM.
fn refusal_code(kind: FaultKind) -> i32
    ensures { result ≡ spec.refusal_code kind }
{
    match kind {
        FaultKind::Memory => NO_MEMORY,
        _ => BAD_PROGRAM,
    }
}

/// The number by which C knows the fault `kind` of words that are no program. `None` where memory ran out, which is no fault of the words.
pub fn program_fault_number(kind: FaultKind) -> Option<u64>
    ensures { result ≡ spec.program_fault_number kind }
{
    match kind {
        FaultKind::Length => Some(1),
        FaultKind::Opcode => Some(2),
        FaultKind::Unused => Some(3),
        FaultKind::Register => Some(4),
        FaultKind::Target => Some(5),
        FaultKind::End => Some(6),
        FaultKind::Helper => Some(7),
        FaultKind::Map => Some(8),
        FaultKind::Atomic => Some(9),
        FaultKind::Packet => Some(10),
        FaultKind::Memory => None,
    }
}

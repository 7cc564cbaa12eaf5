//! Programs: words that were decoded and found to keep the rules.

ghost use Rattle.std.specs.Prelude.{◌≡◌, ◌+◌, ◌<◌, ◌≤◌, ◌⊎◌, length, slice_index, MatchResult};
ghost use Rattle.program_code.specs.Program.{Decodes, IsFirstProgramFault, instructions_of, program_words};
ghost use Rattle.program_code.specs.Program as spec;

use crate::instruction::{Instruction, Operand, Register, Test};
use crate::spelling::{FaultKind, spelled};
use std::alloc::Global;

/// How many instructions a program may have.
const MOST: usize = 65_536;

/// Why words are no program, and the number of the instruction at fault.
#[derive(Clone, Copy, Debug, PartialEq, Eq)]
pub struct ProgramFault {
    pub kind: FaultKind,
    pub at: u64,
}

/// A program: its words, the first of which are instructions, and the instructions, decoded.
#[derive(Drop)]
pub struct Program {
    words: Vec<u64>,
    code: Vec<Instruction>,
}

impl Program {
    /// The program of words: the first `instructions` of them are instructions, the others are constants. `Err` is the first fault, or says that memory ran
    /// out.
    pub fn of(alloc: Global, words: &[u64], instructions: usize) -> Result<Program, ProgramFault>
        ensures made { MatchResult result (λ program. Decodes words.now instructions (instructions_of program)) (λ fault. (fault.kind ≡ FaultKind.Memory) ⊎ IsFirstProgramFault words.now instructions fault) }
        ensures kept { MatchResult result (λ program. program_words program ≡ words.now) (λ _. Unit {0}) }
    {
        if !has_length(words, instructions) {
            return Err(ProgramFault {
                kind: FaultKind::Length,
                at: 0,
            });
        }
        let code = decoded_all(alloc, &words[..instructions])?;
        match words.to_vec(alloc) {
            Ok(words) => Ok(Program { words, code }),
            Err(_) => Err(out_of_memory()),
        }
    }

    /// Its words.
    pub fn words(&self) -> &[u64]
        ensures { result.now ≡ program_words self.now }
    {
        &self.words
    }

    /// Its instructions.
    pub fn code(&self) -> &[Instruction]
        ensures { result.now ≡ instructions_of self.now }
    {
        &self.code
    }
}

/// The fault of a program for which memory ran out.
fn out_of_memory() -> ProgramFault
    ensures { result.kind ≡ FaultKind.Memory }
{
    ProgramFault {
        kind: FaultKind::Memory,
        at: 0,
    }
}

/// Whether the first `count` of the words may be instructions: at least one, at most 65,536, and not more than there are words.
fn has_length(words: &[u64], count: usize) -> bool
    ensures { result ≡ spec.has_length words.now count }
{
    count > 0 && count <= MOST && count <= words.len()
}

/// The instructions of all `words`, one for each word. `Err` is the first fault, or says that memory ran out.
fn decoded_all(alloc: Global, words: &[u64]) -> Result<Vec<Instruction>, ProgramFault>
    requires { length words.now ≤ 65536 }
    ensures { MatchResult result (λ code. spec.DecodesTo words.now (length words.now) code.items) (λ fault. (fault.kind ≡ FaultKind.Memory) ⊎ spec.IsFirstInstructionFault words.now fault) }
{
    let mut code = Vec::new(alloc);
    for at in 0..words.len() {
        match decoded(words, at) {
            Ok(instruction) => {
                if code.push(instruction).is_err() {
                    return Err(out_of_memory());
                }
            }
            Err(kind) => {
                let at = at as u64;
                return Err(ProgramFault { kind, at });
            }
        }
    }
    Ok(code)
}

/// The word at a place, 0 where there is none.
fn word_at(words: &[u64], at: usize) -> u64
    ensures { result ≡ slice_index words.now at }
{
    if at < words.len() { words[at] } else { 0 }
}

/// The instruction of the word `at`, or why there is none. The second word of a number of 64 bits is `Rest`.
fn decoded(words: &[u64], at: usize) -> Result<Instruction, FaultKind>
    requires within { at < length words.now }
    requires few { length words.now ≤ 65536 }
    ensures { result ≡ spec.decoded words.now at }
{
    if is_rest(words, at as u64) {
        return Ok(Instruction::Rest);
    }
    match spelled(words[at], word_at(words, at + 1), at as u64) {
        Ok(instruction) => ruled(words, at, instruction),
        Err(kind) => Err(kind),
    }
}

/// The instruction of the word `at`, where it keeps the rules: it names registers that it may use, it leads to an instruction where it jumps or
/// calls, and where it goes on, the word that it goes on to is there. `Err` is the first rule that it breaks.
fn ruled(words: &[u64], at: usize, instruction: Instruction) -> Result<Instruction, FaultKind>
    requires within { at < length words.now }
    requires few { length words.now ≤ 65536 }
    ensures { result ≡ spec.ruled words.now at instruction }
{
    if !has_registers(instruction) {
        return Err(FaultKind::Register);
    }
    if !leads_right(words, instruction) {
        return Err(FaultKind::Target);
    }
    if !is_within(words, follower(at, instruction)) {
        return Err(FaultKind::End);
    }
    Ok(instruction)
}

/// Whether a register may be read: those numbered 0 to 10.
fn is_known(register: Register) -> bool
    ensures { result ≡ spec.is_known register }
{
    register.number <= 10
}

/// Whether a register may be written: those numbered 0 to 9.
fn is_writable(register: Register) -> bool
    ensures { result ≡ spec.is_writable register }
{
    register.number <= 9
}

/// Whether an operand may be read: it is a number, or a register that may be read.
fn is_operand(operand: Operand) -> bool
    ensures { result ≡ spec.is_operand operand }
{
    match operand {
        Operand::Number(_) => true,
        Operand::In(register) => is_known(register),
    }
}

/// Whether each register that an instruction names may be used as it is used there.
fn has_registers(instruction: Instruction) -> bool
    ensures { result ≡ spec.has_registers instruction }
{
    match instruction {
        Instruction::Compute { to, by, .. } => is_writable(to) && is_operand(by),
        Instruction::Wide { to, .. } => is_writable(to),
        Instruction::Jump { left, right, .. } => is_known(left) && is_operand(right),
        Instruction::Load { to, base, .. } => is_writable(to) && is_known(base),
        Instruction::Store { base, value, .. } => is_known(base) && is_operand(value),
        Instruction::Call { .. } | Instruction::Exit | Instruction::Rest => true,
    }
}

/// Whether the word `at` is the second one of a number of 64 bits: the word before has the opcode 0x18.
fn is_rest(words: &[u64], at: u64) -> bool
    ensures { result ≡ spec.is_rest words.now at }
{
    at > 0 && word_at(words, (at - 1) as usize) % (1 << 8) == 0x18
}

/// Whether an instruction begins at the word `at`: there is such a word, and it is not the second one of a number of 64 bits.
fn is_instruction(words: &[u64], at: u64) -> bool
    ensures { result ≡ spec.is_instruction words.now at }
{
    at < words.len() as u64 && !is_rest(words, at)
}

/// Whether an instruction that jumps or calls leads to the beginning of an instruction.
fn leads_right(words: &[u64], instruction: Instruction) -> bool
    ensures { result ≡ spec.leads_right words.now instruction }
{
    match instruction {
        Instruction::Jump { target, .. } | Instruction::Call { target } => {
            is_instruction(words, target)
        }
        _ => true,
    }
}

/// The number of the word that the instruction of the word `at` goes on to, where it does not jump. `None` where it never goes on.
fn follower(at: usize, instruction: Instruction) -> Option<usize>
    requires { at < 65536 }
    ensures { result ≡ spec.follower at instruction }
{
    match instruction {
        Instruction::Exit => None,
        Instruction::Jump {
            test: Test::Always,
            ..
        } => None,
        Instruction::Wide { .. } => Some(at + 2),
        _ => Some(at + 1),
    }
}

/// Whether the place that an instruction goes on to, if there is one, is within the words.
fn is_within(words: &[u64], next: Option<usize>) -> bool
    ensures { result ≡ spec.is_within words.now next }
{
    match next {
        None => true,
        Some(next) => next < words.len(),
    }
}

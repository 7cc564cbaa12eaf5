//! The instruction that a word spells.

ghost use Rattle.std.specs.Prelude.{◌≡◌, ◌+◌, ◌*◌, ◌%◌, ◌^◌, Some};
ghost use Rattle.program_code.specs.Spelling as spec;

use crate::fields::{
    class_in, extending, from_in, has_one_operand, immediate_in, mode_in, offset_in, operand_in,
    operation_code_in, plain, signed, signed_number, signed_offset, signed_unit, size_in,
    source_in, test_of, to_in, to_little, to_other, unit_of,
};
use crate::instruction::{Arith, Instruction, Operand, Test, Unit, Width};

/// Why words are no program.
#[derive(Clone, Copy, Debug, PartialEq, Eq)]
pub enum FaultKind {
    /// There are no instructions, more than 65,536, or more than there are words.
    Length,
    /// An operation that is not known.
    Opcode,
    /// A field that the instruction does not use is not zero.
    Unused,
    /// A register above 10, or one above 9 that is written.
    Register,
    /// A jump or a call that leads to no instruction.
    Target,
    /// The last instruction goes on behind the end.
    End,
    /// A call of a helper, or by an address in a register: only functions of the program are called.
    Helper,
    /// An address of a map.
    Map,
    /// An atomic operation.
    Atomic,
    /// An access to a packet.
    Packet,
    /// Out of memory.
    Memory,
}

/// The instruction that `word` spells as the word `at` of a program. `next` is the word after it, which has the upper half of the number where
/// `word` begins one of 64 bits. `Err` says why there is none.
pub fn spelled(word: u64, next: u64, at: u64) -> Result<Instruction, FaultKind>
    ensures { result ≡ spec.spelled word next at }
{
    match class_in(word) {
        // by the class: a number of 64 bits, loads, stores of a number and of a register, arithmetic, and else jumps, calls and the exit
        0 => wide(word, next),
        1 => loaded(word),
        2 => stored_number(word),
        3 => stored_register(word),
        4 | 7 => spelled_arithmetic(word),
        _ => led(word, at),
    }
}

/// The instruction, where `are_zero` says that the fields that it does not use are zero; else the fault `Unused`.
fn unused(are_zero: bool, instruction: Instruction) -> Result<Instruction, FaultKind>
    ensures { result ≡ spec.unused are_zero instruction }
{
    if are_zero {
        Ok(instruction)
    } else {
        Err(FaultKind::Unused)
    }
}

/// The instruction of two words that loads a number of 64 bits, or why there is none.
fn wide(word: u64, next: u64) -> Result<Instruction, FaultKind>
    ensures { result ≡ spec.wide word next }
{
    // 0x18 is the opcode of a number of 64 bits; the modes 1 and 2 are accesses to packets
    if word % (1 << 8) != 0x18 {
        let mode = mode_in(word);
        if mode == 1 || mode == 2 {
            return Err(FaultKind::Packet);
        }
        return Err(FaultKind::Opcode);
    }
    // a source register other than 0 marks an address of a map
    if from_in(word).number != 0 {
        return Err(FaultKind::Map);
    }
    if offset_in(word) == 0 && next % (1 << 32) == 0 {
        return Ok(Instruction::Wide {
            to: to_in(word),
            number: wide_number(word, next),
        });
    }
    Err(FaultKind::Unused)
}

/// The number of 64 bits whose lower half is the immediate number of `word`, and whose upper half is that of `next`.
fn wide_number(word: u64, next: u64) -> u64
    ensures { result ≡ spec.immediate_in word + 2 ^ 32 * spec.immediate_in next }
{
    (word >> 32) + (1 << 32) * (next >> 32)
}

/// The load that a word spells, or why there is none.
fn loaded(word: u64) -> Result<Instruction, FaultKind>
    ensures { result ≡ spec.loaded word }
{
    match mode_in(word) {
        // mode 3 is a plain load, and mode 4 one that extends the sign
        3 => loaded_as(word, unit_of(size_in(word))),
        4 => match signed_unit(size_in(word)) {
            Some(unit) => loaded_as(word, unit),
            None => Err(FaultKind::Opcode),
        },
        _ => Err(FaultKind::Opcode),
    }
}

/// The load of this `unit` that `word` spells, or why there is none: its immediate number is not used, and has to be 0.
fn loaded_as(word: u64, unit: Unit) -> Result<Instruction, FaultKind>
    ensures { result ≡ spec.loaded_as word (Some unit) }
{
    let load = Instruction::Load {
        unit,
        to: to_in(word),
        base: from_in(word),
        offset: signed_offset(word),
    };
    unused(immediate_in(word) == 0, load)
}

/// The store of a number that a word spells, or why there is none.
fn stored_number(word: u64) -> Result<Instruction, FaultKind>
    ensures { result ≡ spec.stored_number word }
{
    if mode_in(word) != 3 {
        return Err(FaultKind::Opcode);
    }
    let store = Instruction::Store {
        unit: unit_of(size_in(word)),
        base: to_in(word),
        offset: signed_offset(word),
        value: Operand::Number(signed_number(word)),
    };
    unused(from_in(word).number == 0, store)
}

/// The store of a register that a word spells, or why there is none.
fn stored_register(word: u64) -> Result<Instruction, FaultKind>
    ensures { result ≡ spec.stored_register word }
{
    match mode_in(word) {
        3 => {
            let store = Instruction::Store {
                unit: unit_of(size_in(word)),
                base: to_in(word),
                offset: signed_offset(word),
                value: Operand::In(from_in(word)),
            };
            unused(immediate_in(word) == 0, store)
        }
        // mode 6 is an atomic operation, which no program may have
        6 => Err(FaultKind::Atomic),
        _ => Err(FaultKind::Opcode),
    }
}

/// How many bits an instruction of a class computes with or tests: 32 in the classes 4 and 6, and else 64.
fn width_of(class: u64) -> Width
    ensures { result ≡ spec.width_of class }
{
    if class == 4 || class == 6 {
        Width::Half
    } else {
        Width::Whole
    }
}

/// The arithmetic instruction that a word spells, or why there is none.
fn spelled_arithmetic(word: u64) -> Result<Instruction, FaultKind>
    ensures { result ≡ spec.spelled_arithmetic word }
{
    match operation_code_in(word) {
        // the operation code 13 changes the byte order, and 8 negates
        13 => reordered(word),
        8 => spelled_negation(word),
        _ => operated(word),
    }
}

/// The move that `word` spells where its offset is 8, 16 or 32: one that extends the sign of that number of bits. `None` where there is no such
/// move: it takes a register, and class 4, which computes with 32 bits, has none that extends 32 bits.
fn moved(word: u64) -> Option<Arith>
    ensures { result ≡ spec.moved word }
{
    let offset = offset_in(word);
    if source_in(word) == 0 || (class_in(word) == 4 && offset == 32) {
        return None;
    }
    extending(offset)
}

/// The operation on two operands that `word` spells, by its operation code and its offset. `None` where there is none.
fn operation(word: u64) -> Option<Arith>
    ensures { result ≡ spec.operation word }
{
    let code = operation_code_in(word);
    match offset_in(word) {
        // offset 1 makes division and remainder signed; with another offset only a move, code 11, is an operation
        0 => plain(code),
        1 => signed(code),
        _ => { if code == 11 { moved(word) } else { None } }
    }
}

/// The instruction on two operands that a word spells, or why there is none.
fn operated(word: u64) -> Result<Instruction, FaultKind>
    ensures { result ≡ spec.operated word (spec.operation word) }
{
    match operation(word) {
        None => Err(FaultKind::Opcode),
        Some(kind) => {
            let compute = Instruction::Compute {
                kind,
                width: width_of(class_in(word)),
                to: to_in(word),
                by: operand_in(word),
            };
            unused(has_one_operand(word), compute)
        }
    }
}

/// The negation that a word spells, or why there is none.
fn spelled_negation(word: u64) -> Result<Instruction, FaultKind>
    ensures { result ≡ spec.spelled_negation word }
{
    if source_in(word) != 0 {
        return Err(FaultKind::Opcode);
    }
    let compute = Instruction::Compute {
        kind: Arith::Neg,
        width: width_of(class_in(word)),
        to: to_in(word),
        by: Operand::Number(0),
    };
    let are_zero = from_in(word).number == 0 && (offset_in(word) == 0 && immediate_in(word) == 0);
    unused(are_zero, compute)
}

/// The change of the byte order that `word` spells, where its immediate number says of how many bits: in class 4 to little or to big endian, by the
/// source bit, and in class 7 to the other order. `None` where there is none.
fn order(word: u64) -> Option<Arith>
    ensures { result ≡ spec.order word }
{
    let bits = immediate_in(word);
    if class_in(word) == 4 {
        if source_in(word) == 0 {
            to_little(bits)
        } else {
            to_other(bits)
        }
    } else if source_in(word) == 0 {
        to_other(bits)
    } else {
        None
    }
}

/// The instruction that changes the byte order that a word spells, or why there is none.
fn reordered(word: u64) -> Result<Instruction, FaultKind>
    ensures { result ≡ spec.reordered word (spec.order word) }
{
    match order(word) {
        None => Err(FaultKind::Opcode),
        Some(kind) => {
            let compute = Instruction::Compute {
                kind,
                width: Width::Whole,
                to: to_in(word),
                by: Operand::Number(0),
            };
            let are_zero = from_in(word).number == 0 && offset_in(word) == 0;
            unused(are_zero, compute)
        }
    }
}

/// The jump, call or exit that a word at a place spells, or why there is none.
fn led(word: u64, at: u64) -> Result<Instruction, FaultKind>
    ensures { result ≡ spec.led word at }
{
    let code = operation_code_in(word);
    // calls and the exit are of class 5; class 6 has only jumps
    let is_first = class_in(word) == 5;
    if code == 0 {
        return jumps_always(word, at);
    }
    if is_first && code == 8 {
        return spelled_call(word, at);
    }
    if is_first && code == 9 {
        return spelled_exit(word);
    }
    jumps(word, at)
}

/// The number of the instruction that a jump or a call in the word `at` leads to: `by` words from the one behind it, modulo 2^64.
fn target(at: u64, by: u64) -> u64
    ensures { result ≡ spec.target at by }
{
    at.wrapping_add(1).wrapping_add(by)
}

/// The jump on a test that a word at a place spells, or why there is none.
fn jumps(word: u64, at: u64) -> Result<Instruction, FaultKind>
    ensures { result ≡ spec.jumps word at (spec.test_of (spec.operation_code_in word)) }
{
    match test_of(operation_code_in(word)) {
        None => Err(FaultKind::Opcode),
        Some(test) => {
            let jump = Instruction::Jump {
                test,
                width: width_of(class_in(word)),
                left: to_in(word),
                right: operand_in(word),
                target: target(at, signed_offset(word)),
            };
            unused(has_one_operand(word), jump)
        }
    }
}

/// The jump to `target` without a test, as an instruction whose test always holds.
fn jump_always(word: u64, target: u64) -> Instruction
    ensures { result ≡ spec.always word target }
{
    Instruction::Jump {
        test: Test::Always,
        width: Width::Whole,
        left: to_in(word),
        right: Operand::Number(0),
        target,
    }
}

/// The jump without a test that a word at a place spells, or why there is none.
fn jumps_always(word: u64, at: u64) -> Result<Instruction, FaultKind>
    ensures { result ≡ spec.jumps_always word at }
{
    if source_in(word) != 0 {
        return Err(FaultKind::Opcode);
    }
    // such a jump uses no register; it goes by the offset in class 5, and by the immediate number in class 6
    let no_registers = to_in(word).number == 0 && from_in(word).number == 0;
    if class_in(word) == 5 {
        let jump = jump_always(word, target(at, signed_offset(word)));
        unused(no_registers && immediate_in(word) == 0, jump)
    } else {
        let jump = jump_always(word, target(at, signed_number(word)));
        unused(no_registers && offset_in(word) == 0, jump)
    }
}

/// The call of a function of the program that a word at a place spells, or why there is none.
fn spelled_call(word: u64, at: u64) -> Result<Instruction, FaultKind>
    ensures { result ≡ spec.spelled_call word at }
{
    // source register 1 marks a call of a function of the program; every other call is of a helper or by a register
    if source_in(word) == 0 && from_in(word).number == 1 {
        let are_zero = to_in(word).number == 0 && offset_in(word) == 0;
        let target = target(at, signed_number(word));
        return unused(are_zero, Instruction::Call { target });
    }
    Err(FaultKind::Helper)
}

/// The exit that a word spells, or why there is none.
fn spelled_exit(word: u64) -> Result<Instruction, FaultKind>
    ensures { result ≡ spec.spelled_exit word }
{
    // the opcode of the exit, with every other field 0
    if word == 0x95 {
        Ok(Instruction::Exit)
    } else if source_in(word) == 0 {
        Err(FaultKind::Unused)
    } else {
        Err(FaultKind::Opcode)
    }
}

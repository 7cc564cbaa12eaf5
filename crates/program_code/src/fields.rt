//! The fields of a word, and the tables of the standard.

ghost use Rattle.std.specs.Prelude.{◌≡◌, ◌+◌, ◌%◌};
ghost use Rattle.program_code.specs.Spelling as spec;

use crate::instruction::{Arith, Operand, Register, Test, Unit};

/// The class of the instruction that `word` spells: 0 is a number of 64 bits, 1 a load, 2 and 3 are stores, 4 and 7 are arithmetic, and 5 and 6 are
/// jumps, calls and the exit.
pub fn class_in(word: u64) -> u64
    ensures { result ≡ spec.class_in word }
{
    word % 8
}

/// The code of an operation of arithmetic, of a jump, of a call or of the exit: 4 bits, so 0 to 15.
pub fn operation_code_in(word: u64) -> u64
    ensures { result ≡ spec.operation_code_in word }
{
    (word >> 4) % 16
}

/// 1 where an operand is a register, 0 where it is a number.
pub fn source_in(word: u64) -> u64
    ensures { result ≡ spec.source_in word }
{
    (word >> 3) % 2
}

/// The mode of a load or a store: 3 is a plain one, 4 a load that extends the sign, and 6 an atomic operation.
pub fn mode_in(word: u64) -> u64
    ensures { result ≡ spec.mode_in word }
{
    (word >> 5) % 8
}

/// The code of how many bytes a load or a store moves: 0 is four, 1 is two, 2 is one, and 3 is eight.
pub fn size_in(word: u64) -> u64
    ensures { result ≡ spec.size_in word }
{
    (word >> 3) % 4
}

/// The destination register.
pub fn to_in(word: u64) -> Register
    ensures { result ≡ spec.to_in word }
{
    Register {
        number: ((word >> 8) % 16) as u8,
    }
}

/// The source register.
pub fn from_in(word: u64) -> Register
    ensures { result ≡ spec.from_in word }
{
    Register {
        number: ((word >> 12) % 16) as u8,
    }
}

/// The offset, 16 bits, as it stands in the word.
pub fn offset_in(word: u64) -> u64
    ensures { result ≡ spec.offset_in word }
{
    (word >> 16) % (1 << 16)
}

/// The immediate number, the upper 32 bits, as it stands in the word.
pub fn immediate_in(word: u64) -> u64
    ensures { result ≡ spec.immediate_in word }
{
    word >> 32
}

/// The offset as a signed number, with its sign extended to 64 bits.
pub fn signed_offset(word: u64) -> u64
    ensures { result ≡ spec.signed_offset word }
{
    let a = offset_in(word);
    if a >= 1 << 15 {
        a + 0xffff_ffff_ffff_0000
    } else {
        a
    }
}

/// The immediate number as a signed number, with its sign extended to 64 bits.
pub fn signed_number(word: u64) -> u64
    ensures { result ≡ spec.signed_number word }
{
    let a = immediate_in(word);
    if a >= 1 << 31 {
        a + 0xffff_ffff_0000_0000
    } else {
        a
    }
}

/// The operand of an instruction: the immediate number where the source bit is 0, and the source register where it is 1.
pub fn operand_in(word: u64) -> Operand
    ensures { result ≡ spec.operand_in word }
{
    if source_in(word) == 0 {
        Operand::Number(signed_number(word))
    } else {
        Operand::In(from_in(word))
    }
}

/// Whether the field that the operand does not use is zero: the source register where the operand is the number, and the number where it is the
/// register.
pub fn has_one_operand(word: u64) -> bool
    ensures { result ≡ spec.has_one_operand word }
{
    if source_in(word) == 0 {
        from_in(word).number == 0
    } else {
        immediate_in(word) == 0
    }
}

/// The arithmetic of a code, in a word whose offset is 0. `None` where no operation on two operands has this code.
pub fn plain(code: u64) -> Option<Arith>
    ensures { result ≡ spec.plain code }
{
    match code {
        0 => Some(Arith::Add),
        1 => Some(Arith::Sub),
        2 => Some(Arith::Mul),
        3 => Some(Arith::Div),
        4 => Some(Arith::Or),
        5 => Some(Arith::And),
        6 => Some(Arith::ShiftLeft),
        7 => Some(Arith::ShiftRight),
        9 => Some(Arith::Mod),
        10 => Some(Arith::Xor),
        11 => Some(Arith::Mov),
        12 => Some(Arith::ShiftSigned),
        _ => None,
    }
}

/// The arithmetic of a code, in a word whose offset is 1: signed division and remainder. `None` for every other code.
pub fn signed(code: u64) -> Option<Arith>
    ensures { result ≡ spec.signed code }
{
    match code {
        3 => Some(Arith::SignedDiv),
        9 => Some(Arith::SignedMod),
        _ => None,
    }
}

/// The move of a register that extends the sign of 8, 16 or 32 bits. `None` for any other number of `bits`.
pub fn extending(bits: u64) -> Option<Arith>
    ensures { result ≡ spec.extending bits }
{
    match bits {
        8 => Some(Arith::Signed8),
        16 => Some(Arith::Signed16),
        32 => Some(Arith::Signed32),
        _ => None,
    }
}

/// The change of the byte order to little endian: the lowest 16, 32 or 64 bits stay as they are. `None` for any other number of `bits`.
pub fn to_little(bits: u64) -> Option<Arith>
    ensures { result ≡ spec.to_little bits }
{
    match bits {
        16 => Some(Arith::Low16),
        32 => Some(Arith::Low32),
        64 => Some(Arith::Low64),
        _ => None,
    }
}

/// The change of the byte order to big endian or to the other order: the bytes of the lowest 16, 32 or 64 bits are reversed. `None` for any other
/// number.
pub fn to_other(bits: u64) -> Option<Arith>
    ensures { result ≡ spec.to_other bits }
{
    match bits {
        16 => Some(Arith::Swap16),
        32 => Some(Arith::Swap32),
        64 => Some(Arith::Swap64),
        _ => None,
    }
}

/// The test of a jump by its code. `None` where no test has this code; a jump without a test has the code 0.
pub fn test_of(code: u64) -> Option<Test>
    ensures { result ≡ spec.test_of code }
{
    match code {
        1 => Some(Test::Equal),
        2 => Some(Test::Above),
        3 => Some(Test::AtLeast),
        4 => Some(Test::AnyBit),
        5 => Some(Test::Other),
        6 => Some(Test::SignedAbove),
        7 => Some(Test::SignedAtLeast),
        10 => Some(Test::Below),
        11 => Some(Test::AtMost),
        12 => Some(Test::SignedBelow),
        13 => Some(Test::SignedAtMost),
        _ => None,
    }
}

/// How many bytes a load or a store moves, by the code `size`.
pub fn unit_of(size: u64) -> Unit
    ensures { result ≡ spec.unit_of size }
{
    match size {
        0 => Unit::Four,
        1 => Unit::Two,
        2 => Unit::One,
        _ => Unit::Eight,
    }
}

/// How many bytes a load that extends the sign moves, by the code `size`. `None` for eight bytes, which are 64 bits already.
pub fn signed_unit(size: u64) -> Option<Unit>
    ensures { result ≡ spec.signed_unit size }
{
    match size {
        0 => Some(Unit::SignedFour),
        1 => Some(Unit::SignedTwo),
        2 => Some(Unit::SignedOne),
        _ => None,
    }
}

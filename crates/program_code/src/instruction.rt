//! Instructions, as they are after decoding.

/// A register. A program that was decoded names registers 0 to 10, and writes 0 to 9.
#[derive(Clone, Copy)]
pub struct Register {
    pub number: u8,
}

/// What an instruction takes beside its register: a number, extended to 64 bits, or what a register holds.
#[derive(Clone, Copy)]
pub enum Operand {
    Number(u64),
    In(Register),
}

/// 64 bits, or the lower 32 alone.
#[derive(Clone, Copy)]
pub enum Width {
    Whole,
    Half,
}

/// How many bytes a load or a store moves. A unit with `Signed` in its name is of a load that extends the sign to 64 bits.
#[derive(Clone, Copy)]
pub enum Unit {
    One,
    Two,
    Four,
    Eight,
    SignedOne,
    SignedTwo,
    SignedFour,
}

/// Arithmetic. The standard's names: ADD, SUB, MUL, DIV, OR, AND, LSH, RSH, NEG, MOD, XOR, MOV, ARSH, SDIV, SMOD, MOVSX, and END or BSWAP.
#[derive(Clone, Copy)]
pub enum Arith {
    Add,
    Sub,
    Mul,
    Div,
    Or,
    And,
    /// A shift to the left. `ShiftRight` moves in zeros, and `ShiftSigned` copies of the sign.
    ShiftLeft,
    ShiftRight,
    Neg,
    Mod,
    Xor,
    /// The operand itself is written to the register.
    Mov,
    ShiftSigned,
    SignedDiv,
    SignedMod,
    /// A signed number of 8, 16 or 32 bits, with its sign extended.
    Signed8,
    Signed16,
    Signed32,
    /// The lower 16 or 32 bits, or all.
    Low16,
    Low32,
    Low64,
    /// The lower 16, 32 or 64 bits, with their bytes in the other order.
    Swap16,
    Swap32,
    Swap64,
}

/// Tests of jumps. The standard's names: JA, JEQ, JGT, JGE, JSET, JNE, JSGT, JSGE, JLT, JLE, JSLT, JSLE.
#[derive(Clone, Copy)]
pub enum Test {
    Always,
    Equal,
    Above,
    AtLeast,
    /// Some bit is 1 in both numbers.
    AnyBit,
    /// The numbers are not equal. The tests with `Signed` in their names take both as numbers in two's complement.
    Other,
    SignedAbove,
    SignedAtLeast,
    Below,
    AtMost,
    SignedBelow,
    SignedAtMost,
}

/// One instruction. `to` is the register that is written, and `target` the number of the instruction that a jump or a call goes to.
#[derive(Clone, Copy)]
pub enum Instruction {
    /// Arithmetic on what the register `to` holds, and on the operand `by`; the result is written to `to`.
    Compute {
        kind: Arith,
        width: Width,
        to: Register,
        by: Operand,
    },
    /// A number of 64 bits, which takes two words.
    Wide {
        to: Register,
        number: u64,
    },
    /// A jump to the instruction `target`, where the test holds of the register `left` and the operand `right`.
    Jump {
        test: Test,
        width: Width,
        left: Register,
        right: Operand,
        target: u64,
    },
    /// A load of a unit into the register `to`, from the address at `offset` from what the register `base` holds.
    Load {
        unit: Unit,
        to: Register,
        base: Register,
        offset: u64,
    },
    /// A store of a unit of the operand `value`, to the address at `offset` from what the register `base` holds.
    Store {
        unit: Unit,
        base: Register,
        offset: u64,
        value: Operand,
    },
    /// A call of the function of the program that begins at the instruction `target`.
    Call {
        target: u64,
    },
    /// The return from a function, or the end of the run where none is called.
    Exit,
    /// The second word of a number of 64 bits.
    Rest,
}

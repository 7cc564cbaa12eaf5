//! The problem: whoever writes a data structure in C hands in words that a compiler made, and an object's meaning has to follow from them alone.
//!
//! The idea: words of the BPF instruction set (RFC 9669: the groups base32, base64, divmul32 and divmul64) are decoded and validated once. What comes out is
//! the instructions that the words spell, or the first instruction that is at fault, and why.
//!
//! - A word spells an instruction by the tables of the standard: `specs/Spelling.antt`. What is spelled has to keep the rules of `specs/Program.antt`:
//!   registers 0 to 10, of which 10 is not written; jumps and calls that lead to an instruction; a last instruction that does not go on.
//! - `Program::of` answers exactly: the instructions (`Decodes`), or the first fault (`IsFirstProgramFault`).
//!
//! Calls of helpers, maps, atomic operations and packet access are refused, each by its name.
#![tactic(auto)]

mod fields;
mod instruction;
mod program;
mod spelling;

pub use instruction::{Arith, Instruction, Operand, Register, Test, Unit, Width};
pub use program::{Program, ProgramFault};
pub use spelling::FaultKind;

//! The problem: each instruction of a program is to mean something exact, whatever its registers hold.
//!
//! The idea: an instruction changes a machine of registers, calls, a stack and a reply, or it needs one word of the object. All but that word is one function
//! of plain values, `step` of `specs/Machine.antt`, and the code is proved equal to it for every instruction (`Machine::wish`).
//!
//! - Arithmetic and tests are those of RFC 9669, of 64 and of 32 bits: division by 0 gives 0, a remainder by 0 leaves its first number, shifts go by the lower
//!   6 or 5 bits of their second one: `computed`, `test_holds` (`specs/Arithmetic.antt`).
//! - The object, the request, the reply, the stack and the constants stand at fixed addresses: `place_of_address`.
#![tactic(auto)]

mod arithmetic;
mod machine;

pub use arithmetic::{computed, test_holds};
pub use machine::{
    AddressPlace, Machine, RunEnd, RunFault, Wish, part, place_of_address, with_part,
};

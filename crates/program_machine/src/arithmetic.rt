//! What instructions compute of words.

ghost use Rattle.std.specs.Prelude.{◌≡◌, ◌+◌, ◌-◌, ◌*◌, ◌/◌, ◌%◌, ◌^◌, ◌<◌};
ghost use Rattle.program_machine.specs.Arithmetic as spec;

use program_code::{Arith, Test, Width};

/// The lower 32 bits.
#[inline(always)]
fn low(a: u64) -> u64
    ensures { result ≡ spec.low a }
{
    a % (1 << 32)
}

/// What an instruction of arithmetic writes to its register, which held `a`; `b` is its operand. With `Half` it computes on the lower 32 bits of
/// both.
#[inline(always)]
pub fn computed(kind: Arith, width: Width, a: u64, b: u64) -> u64
    ensures { result ≡ spec.computed kind width a b }
{
    match width {
        Width::Whole => computed_whole(kind, a, b),
        Width::Half => computed_half(kind, low(a), low(b)),
    }
}

/// What an operation gives on 64 bits: `a` is what its register held, and `b` is its operand.
#[inline(always)]
fn computed_whole(kind: Arith, a: u64, b: u64) -> u64
    ensures { result ≡ spec.computed_whole kind a b }
{
    match kind {
        Arith::Add => a.wrapping_add(b),
        Arith::Sub => a.wrapping_sub(b),
        Arith::Mul => a.wrapping_mul(b),
        Arith::Div => quotient(a, b),
        Arith::Or => a | b,
        Arith::And => a & b,
        Arith::ShiftLeft => a << (b % 64),
        Arith::ShiftRight => a >> (b % 64),
        // a negation has no operand
        Arith::Neg => negated(a),
        Arith::Mod => remainder(a, b),
        Arith::Xor => a ^ b,
        Arith::Mov => b,
        Arith::ShiftSigned => shifted_signed(a, b % 64),
        Arith::SignedDiv => signed_quotient(a, b),
        Arith::SignedMod => signed_remainder(a, b),
        // a signed number of the operand's lowest 8, 16 or 32 bits, with its sign extended
        Arith::Signed8 => signed_8(b % (1 << 8)),
        Arith::Signed16 => signed_16(b % (1 << 16)),
        Arith::Signed32 => signed_32(b % (1 << 32)),
        // the register's lowest 16, 32 or 64 bits, and then the same with their bytes in the other order
        Arith::Low16 => a % (1 << 16),
        Arith::Low32 => a % (1 << 32),
        Arith::Low64 => a,
        Arith::Swap16 => swapped_16(a),
        Arith::Swap32 => swapped_32(a),
        Arith::Swap64 => swapped_64(a),
    }
}

/// What an operation gives on 32 bits: `a` is what its register held, and `b` is its operand. An operation that is not named here gives the lower 32
/// bits of its result on 64 bits.
#[inline(always)]
fn computed_half(kind: Arith, a: u64, b: u64) -> u64
    requires left { a < 2 ^ 32 }
    requires right { b < 2 ^ 32 }
    ensures { result ≡ spec.computed_half kind a b }
{
    match kind {
        Arith::ShiftLeft => low(a << (b % 32)),
        Arith::ShiftRight => a >> (b % 32),
        Arith::ShiftSigned => shifted_signed(a << 32, b % 32) >> 32,
        Arith::SignedDiv => low(signed_quotient(signed_32(a), signed_32(b))),
        Arith::SignedMod => low(signed_remainder(signed_32(a), signed_32(b))),
        _ => low(computed_whole(kind, a, b)),
    }
}

/// The quotient of two unsigned numbers; by 0 it is 0.
fn quotient(a: u64, b: u64) -> u64
    ensures { result ≡ spec.quotient a b }
{
    if b == 0 { 0 } else { a / b }
}

/// The remainder of two unsigned numbers; by 0 it is the first of them.
fn remainder(a: u64, b: u64) -> u64
    ensures { result ≡ spec.remainder a b }
{
    if b == 0 { a } else { a % b }
}

/// The negation in two's complement.
#[inline(always)]
fn negated(a: u64) -> u64
    ensures { result ≡ spec.negated a }
{
    0u64.wrapping_sub(a)
}

/// Whether a number is negative in two's complement.
fn is_negative(a: u64) -> bool
    ensures { result ≡ spec.is_negative a }
{
    a >= 1 << 63
}

/// The absolute value of a number in two's complement, as an unsigned number.
fn size_of(a: u64) -> u64
    ensures { result ≡ spec.size_of a }
{
    if a >= 1 << 63 { u64::MAX - a + 1 } else { a }
}

/// Whether two numbers in two's complement are both negative, or neither.
fn have_one_sign(a: u64, b: u64) -> bool
    ensures { result ≡ spec.have_one_sign a b }
{
    if is_negative(a) {
        is_negative(b)
    } else {
        !is_negative(b)
    }
}

/// The quotient of two signed numbers, rounded towards 0; by 0 it is 0.
fn signed_quotient(a: u64, b: u64) -> u64
    ensures { result ≡ spec.signed_quotient a b }
{
    let size = quotient(size_of(a), size_of(b));
    if have_one_sign(a, b) {
        size
    } else {
        negated(size)
    }
}

/// The remainder of two signed numbers, with the sign of the first; by 0 it is the first of them.
fn signed_remainder(a: u64, b: u64) -> u64
    ensures { result ≡ spec.signed_remainder a b }
{
    let size = remainder(size_of(a), size_of(b));
    if is_negative(a) { negated(size) } else { size }
}

/// The signed number `a` shifted right by `by` bits, with copies of its sign moved in.
#[inline(always)]
fn shifted_signed(a: u64, by: u64) -> u64
    requires { by < 64 }
    ensures { result ≡ spec.shifted_signed a by }
{
    if a >= 1 << 63 { !(!a >> by) } else { a >> by }
}

/// A byte with its sign extended to 64 bits.
#[inline(always)]
pub fn signed_8(a: u64) -> u64
    requires { a < 2 ^ 8 }
    ensures { result ≡ spec.signed_8 a }
{
    if a >= 1 << 7 {
        a + 0xffff_ffff_ffff_ff00
    } else {
        a
    }
}

/// A number of 16 bits with its sign extended to 64 bits.
#[inline(always)]
pub fn signed_16(a: u64) -> u64
    requires { a < 2 ^ 16 }
    ensures { result ≡ spec.signed_16 a }
{
    if a >= 1 << 15 {
        a + 0xffff_ffff_ffff_0000
    } else {
        a
    }
}

/// A number of 32 bits with its sign extended to 64 bits.
#[inline(always)]
pub fn signed_32(a: u64) -> u64
    requires { a < 2 ^ 32 }
    ensures { result ≡ spec.signed_32 a }
{
    if a >= 1 << 31 {
        a + 0xffff_ffff_0000_0000
    } else {
        a
    }
}

/// The lowest two bytes in the other order.
fn swapped_16(a: u64) -> u64
    ensures value { result ≡ spec.swapped_16 a }
    ensures few { result < 2 ^ 16 }
{
    a % (1 << 8) * (1 << 8) + (a >> 8) % (1 << 8)
}

/// The lowest four bytes in the other order.
fn swapped_32(a: u64) -> u64
    ensures value { result ≡ spec.swapped_32 a }
    ensures few { result < 2 ^ 32 }
{
    swapped_16(a) * (1 << 16) + swapped_16(a >> 16)
}

/// The eight bytes in the other order.
fn swapped_64(a: u64) -> u64
    ensures { result ≡ spec.swapped_64 a }
{
    swapped_32(a) * (1 << 32) + swapped_32(a >> 32)
}

/// Whether a test holds of `a`, its left number, and `b`. With `Half` it is of their lower 32 bits, which are moved up so that their signs count.
#[inline(always)]
pub fn test_holds(test: Test, width: Width, a: u64, b: u64) -> bool
    ensures { result ≡ spec.test_holds test width a b }
{
    match width {
        Width::Whole => test_holds_whole(test, a, b),
        Width::Half => test_holds_whole(test, low(a) << 32, low(b) << 32),
    }
}

/// Whether a test holds of `a`, its left number, and `b`. Those with `Signed` in their names take both as numbers in two's complement.
#[inline(always)]
fn test_holds_whole(test: Test, a: u64, b: u64) -> bool
    ensures { result ≡ spec.test_holds_whole test a b }
{
    match test {
        Test::Always => true,
        Test::Equal => a == b,
        Test::Above => a > b,
        Test::AtLeast => a >= b,
        Test::AnyBit => a & b != 0,
        Test::Other => a != b,
        Test::SignedAbove => biased(a) > biased(b),
        Test::SignedAtLeast => biased(a) >= biased(b),
        Test::Below => a < b,
        Test::AtMost => a <= b,
        Test::SignedBelow => biased(a) < biased(b),
        Test::SignedAtMost => biased(a) <= biased(b),
    }
}

/// A number moved by 2^63, so that signed numbers compare as unsigned ones.
#[inline(always)]
fn biased(a: u64) -> u64
    ensures { result ≡ spec.biased a }
{
    a.wrapping_add(1 << 63)
}

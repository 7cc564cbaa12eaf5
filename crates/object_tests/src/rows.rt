//! The fields, values and programs that `runs` makes programs of.

/// The register bytes that are tried in an instruction: the destination in the lower half of a byte, the source in the upper half.
pub const REGISTERS: [u64; 5] = [0x21, 0x01, 0x11, 0x2a, 0xb1];

/// The offsets that are tried in an instruction. The last one is -8.
pub const OFFSETS: [u64; 7] = [0, 1, 2, 8, 16, 32, 0xfff8];

/// The numbers that are tried in an instruction. The last one is -1.
pub const NUMBERS: [u64; 7] = [0, 1, 3, 16, 32, 64, 0xffff_ffff];

/// What registers 1 and 2 have when an instruction is tried: edges of numbers, and addresses. The upper half of an address says where it is: 1 the
/// object, 2 the request, 3 the reply, 4 the stack, 5 the words of the program; the lower half is the byte there.
pub const PAIRS: [(u64, u64); 24] = [
    // zeros and ones
    (0x0000_0000_0000_0000, 0x0000_0000_0000_0000),
    (0x0000_0000_0000_0001, 0x0000_0000_0000_0000),
    (0x0000_0000_0000_0000, 0x0000_0000_0000_0001),
    // signed division: 7 or -7 by 3 or -3
    (0x0000_0000_0000_0007, 0x0000_0000_0000_0003),
    (0xffff_ffff_ffff_fff9, 0x0000_0000_0000_0003),
    (0x0000_0000_0000_0007, 0xffff_ffff_ffff_fffd),
    (0xffff_ffff_ffff_fff9, 0xffff_ffff_ffff_fffd),
    // the least signed number and -1, of 64 bits and then in the lower 32 bits alone
    (0x8000_0000_0000_0000, 0xffff_ffff_ffff_ffff),
    (0x0000_0000_8000_0000, 0x0000_0000_ffff_ffff),
    // the highest bit of each half, and a shift by 33
    (0x8000_0000_8000_0000, 0x0000_0000_0000_0021),
    // numbers in which the hexadecimal digits all differ
    (0x0123_4567_89ab_cdef, 0xfedc_ba98_7654_3210),
    // all bits set, and a shift by 63
    (0xffff_ffff_ffff_ffff, 0xffff_ffff_ffff_ffff),
    (0xffff_ffff_ffff_ffff, 0x0000_0000_0000_003f),
    // shifts by 64 and by 31
    (0x0000_0000_0000_0005, 0x0000_0000_0000_0040),
    (0x0000_0000_0000_0005, 0x0000_0000_0000_001f),
    // the greatest and the least signed number
    (0x7fff_ffff_ffff_ffff, 0x8000_0000_0000_0000),
    // addresses in the object, with the sign bit of 8 bits and of 16 bits
    (0x0000_0001_0000_0000, 0x0000_0000_0000_0080),
    (0x0000_0001_0000_00b0, 0x0000_0000_0000_8000),
    // two addresses: request and object, reply and request, stack and reply
    (0x0000_0002_0000_0000, 0x0000_0001_0000_0000),
    (0x0000_0003_0000_0000, 0x0000_0002_0000_0008),
    (0x0000_0004_0000_0ff0, 0x0000_0003_0000_0000),
    // addresses that are no multiples of 8: object and stack
    (0x0000_0001_0000_0001, 0x0000_0004_0000_0002),
    // addresses of constants: two multiples of 8, and two that are none
    (0x0000_0005_0000_0000, 0x0000_0005_0000_0020),
    (0x0000_0005_0000_0007, 0x0000_0005_0000_0009),
];

/// A program that clang made: calls, loops, constants, bytes, divisions. The last two words are constants. Over some words a comment gives their
/// instructions in the notation of C, one for each word: `r0` to `r10` are the registers; `goto n` and `call n` go to the next instruction plus n. At
/// the start r1, r2 and r3 are the addresses of request, reply and object, and r4 is the object's length in bytes.
pub const SAMPLE: [u64; 51] = [
    // `r7 = r3; r6 = r2; r8 = r1`: keeps the addresses of object, reply and request
    0x0000_0000_0000_37bf,
    0x0000_0000_0000_26bf,
    0x0000_0000_0000_18bf,
    // `r1 = *(u64 *)(r8); r2 = r1; r2 &= 1; if r2 == 0 goto +6`: where the request changes the object
    0x0000_0000_0000_8179,
    0x0000_0000_0000_12bf,
    0x0000_0001_0000_0257,
    0x0000_0000_0006_0215,
    // `r1 = r7; r2 = 8; call +20`: the weighted sum of 8 words of the object
    0x0000_0000_0000_71bf,
    0x0000_0008_0000_02b7,
    0x0000_0014_0000_1085,
    // `*(u64 *)(r6) = r0; r0 = 1; goto +16`: puts the sum into the reply, and goes to an exit
    0x0000_0000_0000_067b,
    0x0000_0001_0000_00b7,
    0x0000_0000_0010_0005,
    // `r1 += r4; r2 = *(u64 *)(r7 + 8); r1 += r2; *(u64 *)(r7 + 8) = r1`: adds to word 1 of the object
    0x0000_0000_0000_410f,
    0x0000_0000_0008_7279,
    0x0000_0000_0000_210f,
    0x0000_0000_0008_177b,
    // `r1 = r7; r2 = 4; call +10`: the weighted sum of 4 words of the object
    0x0000_0000_0000_71bf,
    0x0000_0004_0000_02b7,
    0x0000_000a_0000_1085,
    // `r1 = *(u64 *)(r8 + 8); r1 += 3; r0 /= r1`: divides the sum by word 1 of the request and 3
    0x0000_0000_0008_8179,
    0x0000_0003_0000_0107,
    0x0000_0000_0000_103f,
    // `r1 = r0; r1 >>= 3; *(u8 *)(r7 + 40) = r1`: stores one byte of the quotient
    0x0000_0000_0000_01bf,
    0x0000_0003_0000_0177,
    0x0000_0000_0028_1773,
    // `*(u64 *)(r7 + 16) = r0; *(u64 *)(r6 + 8) = r0; r0 = 2; exit`: stores the quotient, and puts it into the reply
    0x0000_0000_0010_077b,
    0x0000_0000_0008_067b,
    0x0000_0002_0000_00b7,
    0x0000_0000_0000_0095,
    // `r0 = 0; if r2 == 0 goto +16`: the function: the weighted sum of r2 words from address r1 on
    0x0000_0000_0000_00b7,
    0x0000_0000_0010_0215,
    // `r3 = 0; r4 = 0`: the index, and the sum so far
    0x0000_0000_0000_03b7,
    0x0000_0000_0000_04b7,
    // `r5 = r3; r5 &= 3; r5 <<= 2`: the loop begins: 4 * (r3 % 4)
    0x0000_0000_0000_35bf,
    0x0000_0003_0000_0557,
    0x0000_0002_0000_0567,
    // `r0 = 0x500000188`: the address of the constants; these are two words
    0x0000_0188_0000_0018,
    0x0000_0005_0000_0000,
    // `r0 += r5; r5 = *(u32 *)(r0)`: the weight
    0x0000_0000_0000_500f,
    0x0000_0000_0000_0561,
    // `r0 = *(u64 *)(r1); r0 *= r5; r0 += r4`: the word times the weight, and the sum before
    0x0000_0000_0000_1079,
    0x0000_0000_0000_502f,
    0x0000_0000_0000_400f,
    // `r1 += 8; r3 += 1; r4 = r0; if r3 < r2 goto -14`: the next word
    0x0000_0008_0000_0107,
    0x0000_0001_0000_0307,
    0x0000_0000_0000_04bf,
    0x0000_0000_fff2_23ad,
    // `exit`: the function returns
    0x0000_0000_0000_0095,
    // constants, two of 32 bits in each word: the weights 3, 5, 7 and 11
    0x0000_0005_0000_0003,
    0x0000_000b_0000_0007,
];

/// Programs at the edges of what a program may do, each of 8 words, over an object of 24 words. The word 0x95 is an exit. Over each program its
/// instructions stand in the notation of C: `goto n` and `call n` go to the next instruction plus n, so that `goto -1` goes to itself; `exits` is
/// an exit in each further word. At the start r1, r2 and r3 are the addresses of request, reply and object, and r10 is the end of the stack.
pub const FAULTS: [[u64; 8]; 46] = [
    // an endless loop
    // goto -1; exits
    [
        0x0000_0000_ffff_0005,
        0x0000_0000_0000_0095,
        0x0000_0000_0000_0095,
        0x0000_0000_0000_0095,
        0x0000_0000_0000_0095,
        0x0000_0000_0000_0095,
        0x0000_0000_0000_0095,
        0x0000_0000_0000_0095,
    ],
    // a load from address 0
    // r1 = 0; r0 = *(u64 *)(r1); exits
    [
        0x0000_0000_0000_01b7,
        0x0000_0000_0000_1079,
        0x0000_0000_0000_0095,
        0x0000_0000_0000_0095,
        0x0000_0000_0000_0095,
        0x0000_0000_0000_0095,
        0x0000_0000_0000_0095,
        0x0000_0000_0000_0095,
    ],
    // a store to the object: a fault where the operation only reads
    // *(u64 *)(r3) = 9; r0 = 1; exits
    [
        0x0000_0009_0000_037a,
        0x0000_0001_0000_00b7,
        0x0000_0000_0000_0095,
        0x0000_0000_0000_0095,
        0x0000_0000_0000_0095,
        0x0000_0000_0000_0095,
        0x0000_0000_0000_0095,
        0x0000_0000_0000_0095,
    ],
    // the last word of the object
    // *(u64 *)(r3 + 184) = 9; r0 = *(u64 *)(r3 + 184); exits
    [
        0x0000_0009_00b8_037a,
        0x0000_0000_00b8_3079,
        0x0000_0000_0000_0095,
        0x0000_0000_0000_0095,
        0x0000_0000_0000_0095,
        0x0000_0000_0000_0095,
        0x0000_0000_0000_0095,
        0x0000_0000_0000_0095,
    ],
    // one word after the object
    // *(u64 *)(r3 + 192) = 9; exits
    [
        0x0000_0009_00c0_037a,
        0x0000_0000_0000_0095,
        0x0000_0000_0000_0095,
        0x0000_0000_0000_0095,
        0x0000_0000_0000_0095,
        0x0000_0000_0000_0095,
        0x0000_0000_0000_0095,
        0x0000_0000_0000_0095,
    ],
    // one word before the object
    // *(u64 *)(r3 - 8) = 9; exits
    [
        0x0000_0009_fff8_037a,
        0x0000_0000_0000_0095,
        0x0000_0000_0000_0095,
        0x0000_0000_0000_0095,
        0x0000_0000_0000_0095,
        0x0000_0000_0000_0095,
        0x0000_0000_0000_0095,
        0x0000_0000_0000_0095,
    ],
    // a store to the request
    // *(u64 *)(r1) = 9; exits
    [
        0x0000_0009_0000_017a,
        0x0000_0000_0000_0095,
        0x0000_0000_0000_0095,
        0x0000_0000_0000_0095,
        0x0000_0000_0000_0095,
        0x0000_0000_0000_0095,
        0x0000_0000_0000_0095,
        0x0000_0000_0000_0095,
    ],
    // the last word of the request
    // r0 = *(u64 *)(r1 + 1144); exits
    [
        0x0000_0000_0478_1079,
        0x0000_0000_0000_0095,
        0x0000_0000_0000_0095,
        0x0000_0000_0000_0095,
        0x0000_0000_0000_0095,
        0x0000_0000_0000_0095,
        0x0000_0000_0000_0095,
        0x0000_0000_0000_0095,
    ],
    // one word after the request
    // r0 = *(u64 *)(r1 + 1152); exits
    [
        0x0000_0000_0480_1079,
        0x0000_0000_0000_0095,
        0x0000_0000_0000_0095,
        0x0000_0000_0000_0095,
        0x0000_0000_0000_0095,
        0x0000_0000_0000_0095,
        0x0000_0000_0000_0095,
        0x0000_0000_0000_0095,
    ],
    // the last word of the reply
    // *(u64 *)(r2 + 1080) = 9; r0 = *(u64 *)(r2 + 1080); exits
    [
        0x0000_0009_0438_027a,
        0x0000_0000_0438_2079,
        0x0000_0000_0000_0095,
        0x0000_0000_0000_0095,
        0x0000_0000_0000_0095,
        0x0000_0000_0000_0095,
        0x0000_0000_0000_0095,
        0x0000_0000_0000_0095,
    ],
    // one word after the reply
    // *(u64 *)(r2 + 1088) = 9; exits
    [
        0x0000_0009_0440_027a,
        0x0000_0000_0000_0095,
        0x0000_0000_0000_0095,
        0x0000_0000_0000_0095,
        0x0000_0000_0000_0095,
        0x0000_0000_0000_0095,
        0x0000_0000_0000_0095,
        0x0000_0000_0000_0095,
    ],
    // the last word of the stack
    // *(u64 *)(r10 - 8) = 9; r0 = *(u64 *)(r10 - 8); exits
    [
        0x0000_0009_fff8_0a7a,
        0x0000_0000_fff8_a079,
        0x0000_0000_0000_0095,
        0x0000_0000_0000_0095,
        0x0000_0000_0000_0095,
        0x0000_0000_0000_0095,
        0x0000_0000_0000_0095,
        0x0000_0000_0000_0095,
    ],
    // one word after the stack
    // r0 = *(u64 *)(r10); exits
    [
        0x0000_0000_0000_a079,
        0x0000_0000_0000_0095,
        0x0000_0000_0000_0095,
        0x0000_0000_0000_0095,
        0x0000_0000_0000_0095,
        0x0000_0000_0000_0095,
        0x0000_0000_0000_0095,
        0x0000_0000_0000_0095,
    ],
    // the first word of the stack
    // *(u64 *)(r10 - 4096) = 9; r0 = *(u64 *)(r10 - 4096); exits
    [
        0x0000_0009_f000_0a7a,
        0x0000_0000_f000_a079,
        0x0000_0000_0000_0095,
        0x0000_0000_0000_0095,
        0x0000_0000_0000_0095,
        0x0000_0000_0000_0095,
        0x0000_0000_0000_0095,
        0x0000_0000_0000_0095,
    ],
    // one word before the stack
    // r0 = *(u64 *)(r10 - 4104); exits
    [
        0x0000_0000_eff8_a079,
        0x0000_0000_0000_0095,
        0x0000_0000_0000_0095,
        0x0000_0000_0000_0095,
        0x0000_0000_0000_0095,
        0x0000_0000_0000_0095,
        0x0000_0000_0000_0095,
        0x0000_0000_0000_0095,
    ],
    // the last constant: a program may read its own words as constants, and here they are 8
    // r1 = 0x500000000 (two words); r0 = *(u64 *)(r1 + 56); exits
    [
        0x0000_0000_0000_0118,
        0x0000_0005_0000_0000,
        0x0000_0000_0038_1079,
        0x0000_0000_0000_0095,
        0x0000_0000_0000_0095,
        0x0000_0000_0000_0095,
        0x0000_0000_0000_0095,
        0x0000_0000_0000_0095,
    ],
    // one word after the constants, which are the 8 words of the program
    // r1 = 0x500000000 (two words); r0 = *(u64 *)(r1 + 64); exits
    [
        0x0000_0000_0000_0118,
        0x0000_0005_0000_0000,
        0x0000_0000_0040_1079,
        0x0000_0000_0000_0095,
        0x0000_0000_0000_0095,
        0x0000_0000_0000_0095,
        0x0000_0000_0000_0095,
        0x0000_0000_0000_0095,
    ],
    // a store to a constant
    // r1 = 0x500000000 (two words); *(u64 *)(r1) = 1; exits
    [
        0x0000_0000_0000_0118,
        0x0000_0005_0000_0000,
        0x0000_0001_0000_017a,
        0x0000_0000_0000_0095,
        0x0000_0000_0000_0095,
        0x0000_0000_0000_0095,
        0x0000_0000_0000_0095,
        0x0000_0000_0000_0095,
    ],
    // a word at an address that is no multiple of 8
    // r0 = *(u64 *)(r3 + 4); exits
    [
        0x0000_0000_0004_3079,
        0x0000_0000_0000_0095,
        0x0000_0000_0000_0095,
        0x0000_0000_0000_0095,
        0x0000_0000_0000_0095,
        0x0000_0000_0000_0095,
        0x0000_0000_0000_0095,
        0x0000_0000_0000_0095,
    ],
    // 4 bytes at an address that is no multiple of 4
    // r0 = *(u32 *)(r3 + 2); exits
    [
        0x0000_0000_0002_3061,
        0x0000_0000_0000_0095,
        0x0000_0000_0000_0095,
        0x0000_0000_0000_0095,
        0x0000_0000_0000_0095,
        0x0000_0000_0000_0095,
        0x0000_0000_0000_0095,
        0x0000_0000_0000_0095,
    ],
    // 2 bytes at an address that is no multiple of 2
    // r0 = *(u16 *)(r3 + 1); exits
    [
        0x0000_0000_0001_3069,
        0x0000_0000_0000_0095,
        0x0000_0000_0000_0095,
        0x0000_0000_0000_0095,
        0x0000_0000_0000_0095,
        0x0000_0000_0000_0095,
        0x0000_0000_0000_0095,
        0x0000_0000_0000_0095,
    ],
    // one byte at any address
    // *(u8 *)(r3 + 7) = -1; r0 = *(u8 *)(r3 + 7); exits
    [
        0xffff_ffff_0007_0372,
        0x0000_0000_0007_3071,
        0x0000_0000_0000_0095,
        0x0000_0000_0000_0095,
        0x0000_0000_0000_0095,
        0x0000_0000_0000_0095,
        0x0000_0000_0000_0095,
        0x0000_0000_0000_0095,
    ],
    // a store, and then a fault, which takes it back
    // *(u64 *)(r3) = 9; *(u64 *)(r3 + 8) = 9; r0 = *(u64 *)(r0); exits
    [
        0x0000_0009_0000_037a,
        0x0000_0009_0008_037a,
        0x0000_0000_0000_0079,
        0x0000_0000_0000_0095,
        0x0000_0000_0000_0095,
        0x0000_0000_0000_0095,
        0x0000_0000_0000_0095,
        0x0000_0000_0000_0095,
    ],
    // 256 stores
    // r5 = 256; *(u64 *)(r3) = 9; r5 += -1; if r5 != 0 goto -3; exits
    [
        0x0000_0100_0000_05b7,
        0x0000_0009_0000_037a,
        0xffff_ffff_0000_0507,
        0x0000_0000_fffd_0555,
        0x0000_0000_0000_0095,
        0x0000_0000_0000_0095,
        0x0000_0000_0000_0095,
        0x0000_0000_0000_0095,
    ],
    // 257 stores
    // r5 = 257; *(u64 *)(r3) = r5; r5 += -1; if r5 != 0 goto -3; exits
    [
        0x0000_0101_0000_05b7,
        0x0000_0000_0000_537b,
        0xffff_ffff_0000_0507,
        0x0000_0000_fffd_0555,
        0x0000_0000_0000_0095,
        0x0000_0000_0000_0095,
        0x0000_0000_0000_0095,
        0x0000_0000_0000_0095,
    ],
    // calls without end
    // call -1; exits
    [
        0xffff_ffff_0000_1085,
        0x0000_0000_0000_0095,
        0x0000_0000_0000_0095,
        0x0000_0000_0000_0095,
        0x0000_0000_0000_0095,
        0x0000_0000_0000_0095,
        0x0000_0000_0000_0095,
        0x0000_0000_0000_0095,
    ],
    // 7 calls within one another
    // r6 = 7; call +1; exit; r0 = r6; r6 += -1; if r6 == 0 goto +1; call -4; exit
    [
        0x0000_0007_0000_06b7,
        0x0000_0001_0000_1085,
        0x0000_0000_0000_0095,
        0x0000_0000_0000_60bf,
        0xffff_ffff_0000_0607,
        0x0000_0000_0001_0615,
        0xffff_fffc_0000_1085,
        0x0000_0000_0000_0095,
    ],
    // 8 calls within one another
    // r6 = 8; call +1; exit; r0 = r6; r6 += -1; if r6 == 0 goto +1; call -4; exit
    [
        0x0000_0008_0000_06b7,
        0x0000_0001_0000_1085,
        0x0000_0000_0000_0095,
        0x0000_0000_0000_60bf,
        0xffff_ffff_0000_0607,
        0x0000_0000_0001_0615,
        0xffff_fffc_0000_1085,
        0x0000_0000_0000_0095,
    ],
    // a word of the stack, seen by the function that is called
    // *(u64 *)(r10 - 520) = 9; call +1; exit; r0 = *(u64 *)(r10 - 8); exits
    [
        0x0000_0009_fdf8_0a7a,
        0x0000_0001_0000_1085,
        0x0000_0000_0000_0095,
        0x0000_0000_fff8_a079,
        0x0000_0000_0000_0095,
        0x0000_0000_0000_0095,
        0x0000_0000_0000_0095,
        0x0000_0000_0000_0095,
    ],
    // registers 6 to 9 after a call
    // r6 = 5; call +2; r0 = r6; exit; r6 = 9; exits
    [
        0x0000_0005_0000_06b7,
        0x0000_0002_0000_1085,
        0x0000_0000_0000_60bf,
        0x0000_0000_0000_0095,
        0x0000_0009_0000_06b7,
        0x0000_0000_0000_0095,
        0x0000_0000_0000_0095,
        0x0000_0000_0000_0095,
    ],
    // as much fuel as there is: 1,999 instructions and an exit
    // r5 = 998; r5 += -1; if r5 != 0 goto -2; goto +0; goto +0; exits
    [
        0x0000_03e6_0000_05b7,
        0xffff_ffff_0000_0507,
        0x0000_0000_fffe_0555,
        0x0000_0000_0000_0005,
        0x0000_0000_0000_0005,
        0x0000_0000_0000_0095,
        0x0000_0000_0000_0095,
        0x0000_0000_0000_0095,
    ],
    // one instruction more than there is fuel
    // r5 = 998; r5 += -1; if r5 != 0 goto -2; goto +0; goto +0; goto +0; exits
    [
        0x0000_03e6_0000_05b7,
        0xffff_ffff_0000_0507,
        0x0000_0000_fffe_0555,
        0x0000_0000_0000_0005,
        0x0000_0000_0000_0005,
        0x0000_0000_0000_0005,
        0x0000_0000_0000_0095,
        0x0000_0000_0000_0095,
    ],
    // a jump to the place behind the last instruction
    // goto +7; exits
    [
        0x0000_0000_0007_0005,
        0x0000_0000_0000_0095,
        0x0000_0000_0000_0095,
        0x0000_0000_0000_0095,
        0x0000_0000_0000_0095,
        0x0000_0000_0000_0095,
        0x0000_0000_0000_0095,
        0x0000_0000_0000_0095,
    ],
    // a jump to the place before the first instruction
    // goto -2; exits
    [
        0x0000_0000_fffe_0005,
        0x0000_0000_0000_0095,
        0x0000_0000_0000_0095,
        0x0000_0000_0000_0095,
        0x0000_0000_0000_0095,
        0x0000_0000_0000_0095,
        0x0000_0000_0000_0095,
        0x0000_0000_0000_0095,
    ],
    // a jump into a number of 64 bits
    // goto +1; r1 = 0x5 (two words); exits
    [
        0x0000_0000_0001_0005,
        0x0000_0005_0000_0118,
        0x0000_0000_0000_0000,
        0x0000_0000_0000_0095,
        0x0000_0000_0000_0095,
        0x0000_0000_0000_0095,
        0x0000_0000_0000_0095,
        0x0000_0000_0000_0095,
    ],
    // a call into a number of 64 bits
    // call +1; r1 = 0x5 (two words); exits
    [
        0x0000_0001_0000_1085,
        0x0000_0005_0000_0118,
        0x0000_0000_0000_0000,
        0x0000_0000_0000_0095,
        0x0000_0000_0000_0095,
        0x0000_0000_0000_0095,
        0x0000_0000_0000_0095,
        0x0000_0000_0000_0095,
    ],
    // the last instruction goes on behind the end
    // 8 times r0 = 1
    [
        0x0000_0001_0000_00b7,
        0x0000_0001_0000_00b7,
        0x0000_0001_0000_00b7,
        0x0000_0001_0000_00b7,
        0x0000_0001_0000_00b7,
        0x0000_0001_0000_00b7,
        0x0000_0001_0000_00b7,
        0x0000_0001_0000_00b7,
    ],
    // a number of 64 bits as the end
    // 6 times exit; r0 = 0x5 (two words)
    [
        0x0000_0000_0000_0095,
        0x0000_0000_0000_0095,
        0x0000_0000_0000_0095,
        0x0000_0000_0000_0095,
        0x0000_0000_0000_0095,
        0x0000_0000_0000_0095,
        0x0000_0005_0000_0018,
        0x0000_0000_0000_0000,
    ],
    // half a number of 64 bits as the end: its second word is missing
    // 7 times exit; the first word of r0 = a number of 64 bits
    [
        0x0000_0000_0000_0095,
        0x0000_0000_0000_0095,
        0x0000_0000_0000_0095,
        0x0000_0000_0000_0095,
        0x0000_0000_0000_0095,
        0x0000_0000_0000_0095,
        0x0000_0000_0000_0095,
        0x0000_0001_0000_0018,
    ],
    // a call of a function outside the program
    // call helper 1; exits
    [
        0x0000_0001_0000_0085,
        0x0000_0000_0000_0095,
        0x0000_0000_0000_0095,
        0x0000_0000_0000_0095,
        0x0000_0000_0000_0095,
        0x0000_0000_0000_0095,
        0x0000_0000_0000_0095,
        0x0000_0000_0000_0095,
    ],
    // a call by a register
    // call r1; exits
    [
        0x0000_0000_0000_018d,
        0x0000_0000_0000_0095,
        0x0000_0000_0000_0095,
        0x0000_0000_0000_0095,
        0x0000_0000_0000_0095,
        0x0000_0000_0000_0095,
        0x0000_0000_0000_0095,
        0x0000_0000_0000_0095,
    ],
    // the address of a map, which no program may have
    // r1 = the address of map 1 (two words); exits
    [
        0x0000_0001_0000_1118,
        0x0000_0000_0000_0000,
        0x0000_0000_0000_0095,
        0x0000_0000_0000_0095,
        0x0000_0000_0000_0095,
        0x0000_0000_0000_0095,
        0x0000_0000_0000_0095,
        0x0000_0000_0000_0095,
    ],
    // an atomic addition
    // an atomic *(u64 *)(r3) += r1; exits
    [
        0x0000_0000_0000_13db,
        0x0000_0000_0000_0095,
        0x0000_0000_0000_0095,
        0x0000_0000_0000_0095,
        0x0000_0000_0000_0095,
        0x0000_0000_0000_0095,
        0x0000_0000_0000_0095,
        0x0000_0000_0000_0095,
    ],
    // an access to a packet
    // r0 = 4 bytes of a packet; exits
    [
        0x0000_0000_0000_0020,
        0x0000_0000_0000_0095,
        0x0000_0000_0000_0095,
        0x0000_0000_0000_0095,
        0x0000_0000_0000_0095,
        0x0000_0000_0000_0095,
        0x0000_0000_0000_0095,
        0x0000_0000_0000_0095,
    ],
    // a store to register 10
    // r10 = 1; exits
    [
        0x0000_0001_0000_0ab7,
        0x0000_0000_0000_0095,
        0x0000_0000_0000_0095,
        0x0000_0000_0000_0095,
        0x0000_0000_0000_0095,
        0x0000_0000_0000_0095,
        0x0000_0000_0000_0095,
        0x0000_0000_0000_0095,
    ],
    // register 11
    // r0 = r11; exits
    [
        0x0000_0000_0000_b0bf,
        0x0000_0000_0000_0095,
        0x0000_0000_0000_0095,
        0x0000_0000_0000_0095,
        0x0000_0000_0000_0095,
        0x0000_0000_0000_0095,
        0x0000_0000_0000_0095,
        0x0000_0000_0000_0095,
    ],
];

/// Programs that take over an image of another one, each of 8 words. For that a program is run once, with a request whose first word is -2 and whose
/// second one is the fingerprint of the other program. At the start r1 is the address of the request, and r3 that of the object.
pub const UPGRADES: [[u64; 8]; 6] = [
    // the upgrade moves a field, and puts the fingerprint before in its place; other operations return at once
    // r4 = *(u64 *)(r1); if r4 != -2 goto +4; r5 = *(u64 *)(r3); *(u64 *)(r3 + 8) = r5; r5 = *(u64 *)(r1 + 8); *(u64 *)(r3) = r5; exits
    [
        0x0000_0000_0000_1479,
        0xffff_fffe_0004_0455,
        0x0000_0000_0000_3579,
        0x0000_0000_0008_537b,
        0x0000_0000_0008_1579,
        0x0000_0000_0000_537b,
        0x0000_0000_0000_0095,
        0x0000_0000_0000_0095,
    ],
    // a store, and then a fault
    // *(u64 *)(r3) = 9; r0 = *(u64 *)(r0); exits
    [
        0x0000_0009_0000_037a,
        0x0000_0000_0000_0079,
        0x0000_0000_0000_0095,
        0x0000_0000_0000_0095,
        0x0000_0000_0000_0095,
        0x0000_0000_0000_0095,
        0x0000_0000_0000_0095,
        0x0000_0000_0000_0095,
    ],
    // a store, and then an endless loop
    // *(u64 *)(r3) = 9; goto -1; exits
    [
        0x0000_0009_0000_037a,
        0x0000_0000_ffff_0005,
        0x0000_0000_0000_0095,
        0x0000_0000_0000_0095,
        0x0000_0000_0000_0095,
        0x0000_0000_0000_0095,
        0x0000_0000_0000_0095,
        0x0000_0000_0000_0095,
    ],
    // 257 stores
    // r5 = 257; *(u64 *)(r3) = r5; r5 += -1; if r5 != 0 goto -3; exits
    [
        0x0000_0101_0000_05b7,
        0x0000_0000_0000_537b,
        0xffff_ffff_0000_0507,
        0x0000_0000_fffd_0555,
        0x0000_0000_0000_0095,
        0x0000_0000_0000_0095,
        0x0000_0000_0000_0095,
        0x0000_0000_0000_0095,
    ],
    // a program that knows no upgrade: it stores only where the first word of the request is 2
    // r4 = *(u64 *)(r1); if r4 != 2 goto +1; *(u64 *)(r3) = 9; exits
    [
        0x0000_0000_0000_1479,
        0x0000_0002_0001_0455,
        0x0000_0009_0000_037a,
        0x0000_0000_0000_0095,
        0x0000_0000_0000_0095,
        0x0000_0000_0000_0095,
        0x0000_0000_0000_0095,
        0x0000_0000_0000_0095,
    ],
    // a store 64 bytes before the object, as if the first line of the image, which is the library's, could be reached there
    // *(u64 *)(r3 - 64) = 9; exits
    [
        0x0000_0009_ffc0_037a,
        0x0000_0000_0000_0095,
        0x0000_0000_0000_0095,
        0x0000_0000_0000_0095,
        0x0000_0000_0000_0095,
        0x0000_0000_0000_0095,
        0x0000_0000_0000_0095,
        0x0000_0000_0000_0095,
    ],
];

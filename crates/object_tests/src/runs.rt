//! Words are made a program, the program is run, and a digest is made of all replies and images.

ghost use Rattle.std.specs.Prelude.{◌≡◌, ◌*◌, IfOk, length};
ghost use Rattle.cx_base.specs.Memory.{Always, Known};

use crate::rows::{FAULTS, NUMBERS, OFFSETS, PAIRS, REGISTERS, SAMPLE, UPGRADES};
use cx_base::{Halt, OP_WORDS, Object, OpWords, VecMemory};
use program_code::{FaultKind, Program, ProgramFault};
use program_object::ProgramObject;
use std::alloc::{AllocError, Global};

/// The result of a number of runs.
#[derive(Clone, Copy)]
pub struct Tally {
    /// How many times the words were no program.
    pub refused: u64,
    /// A digest of all that was answered.
    pub digest: u64,
}

impl Tally {
    // The result of no run: nothing is refused, and the digest has its starting number.
    fn none() -> Tally {
        Tally {
            refused: 0,
            digest: 14695981039346656037,
        }
    }

    /// Adds a word to the digest.
    fn add(&mut self, word: u64) {
        let product = (self.digest ^ word).wrapping_mul(0x9E37_79B9_7F4A_7C15);
        self.digest = product ^ (product >> 29);
    }
}

/// The word of an instruction with these fields. Of each field the lowest bits are taken that have room.
fn word_of(opcode: u64, registers: u64, offset: u64, number: u64) -> u64 {
    opcode % 256 | (registers % 256) << 8 | (offset % 65_536) << 16 | (number % (1 << 32)) << 32
}

/// A program of 9 words round the instruction `word`: the numbers `first` and `second` go into registers 1 and 2, the instruction is run, and the
/// program returns register 1. Where the instruction jumps over the two words behind it, the program returns 7.
fn around(word: u64, first: u64, second: u64) -> [u64; 9] {
    [
        // register 1 = first: a number of 64 bits takes two words
        word_of(0x18, 0x01, 0, first),
        (first >> 32) << 32,
        // register 2 = second
        word_of(0x18, 0x02, 0, second),
        (second >> 32) << 32,
        word,
        // register 0, which an exit returns, = register 1; exit
        word_of(0xbf, 0x10, 0, 0),
        word_of(0x95, 0, 0, 0),
        // register 0 = 7; exit
        word_of(0xb7, 0, 0, 7),
        word_of(0x95, 0, 0, 0),
    ]
}

/// Runs one opcode with each of `REGISTERS`, `OFFSETS`, `NUMBERS` and `PAIRS`.
pub fn of_opcode(alloc: Global, opcode: u64) -> Tally {
    let mut tally = Tally::none();
    for registers in &REGISTERS {
        for offset in &OFFSETS {
            of_fields(alloc, opcode, *registers, *offset, &mut tally);
        }
    }
    tally
}

/// Runs the instruction with this opcode, these registers and this offset, with each of `NUMBERS` and `PAIRS`.
fn of_fields(alloc: Global, opcode: u64, registers: u64, offset: u64, tally: &mut Tally) {
    for number in &NUMBERS {
        let word = word_of(opcode, registers, offset, *number);
        for (first, second) in &PAIRS {
            run(alloc, &around(word, *first, *second), 9, &[2], tally);
        }
    }
}

/// Runs `SAMPLE` 64 times, each time with another bit of word `at` changed. The last two words of `SAMPLE` are constants, the others are
/// instructions.
pub fn flipped(alloc: Global, at: usize) -> Tally {
    let mut tally = Tally::none();
    if at < SAMPLE.len() {
        for bit in 0..64u64 {
            let mut words = SAMPLE;
            words[at] = words[at] ^ 1 << bit;
            run(alloc, &words, SAMPLE.len() - 2, &[2, 4, 3], &mut tally);
        }
    }
    tally
}

/// Runs the program in row `row` of `FAULTS`.
pub fn faults(alloc: Global, row: usize) -> Tally {
    let mut tally = Tally::none();
    if row < FAULTS.len() {
        run(alloc, &FAULTS[row], 8, &[2, 3], &mut tally);
    }
    tally
}

/// Has the program in row `row` of `UPGRADES` take over an image of another program. A refused allocation adds the greatest number to the digest.
pub fn upgraded(alloc: Global, row: usize) -> Tally {
    let mut tally = Tally::none();
    if row < UPGRADES.len() {
        if take_over(alloc, &UPGRADES[row], &mut tally).is_err() {
            tally.add(u64::MAX);
        }
    }
    tally
}

/// Has a program take over an image of the program with the fingerprint 5. The image that is left is added to the digest, and whether it is one of
/// the new program.
fn take_over(alloc: Global, words: &[u64], tally: &mut Tally) -> Result<(), AllocError> {
    let Ok(program) = Program::of(alloc, words, 8) else {
        return Err(AllocError);
    };
    // an object of 4 lines; an operation may take 2,000 instructions, and images with the fingerprint 5 may be taken over
    let Some(object) = ProgramObject::of(program, 4, 2_000, Some(5)) else {
        return Err(AllocError);
    };
    // 4 lines of 8 words: the fingerprint, and then the numbers 1 to 31
    let mut image = [5; 32];
    for at in 1..32 {
        image[at] = at as u64;
    }
    if !object.check_old(alloc, &image)? {
        return Err(AllocError);
    }
    object.upgrade(&mut image);
    tell(&image, tally);
    if object.check(alloc, &image)? {
        tell(&[1], tally);
    }
    Ok(())
}

/// Makes a program of words, of which the first `instructions` are instructions, and does an operation for each number in `operations`, which is the
/// first word of its request. An even number is an update, an odd one a read. Words that are no program are counted, and the fault is added to the
/// digest.
fn run(alloc: Global, words: &[u64], instructions: usize, operations: &[u64], tally: &mut Tally) {
    match Program::of(alloc, words, instructions) {
        Ok(program) => {
            if let Some(object) = ProgramObject::of(program, 4, 2_000, None) {
                if run_all(alloc, &object, operations, tally).is_err() {
                    tally.add(u64::MAX);
                }
            }
        }
        Err(ProgramFault { kind, at }) => {
            tally.refused = tally.refused.wrapping_add(1);
            tally.add(number_of(kind));
            tally.add(at);
        }
    }
}

/// Does operations one after another, from the opening image on. The request of each has its number in `operations`, and then 5.
fn run_all<O: Object>(
    alloc: Global,
    object: &O,
    operations: &[u64],
    tally: &mut Tally,
) -> Result<(), AllocError> {
    let mut words = opening(alloc, object)?;
    for kind in operations {
        let mut op = [0; OP_WORDS];
        op[0] = *kind;
        op[1] = 5;
        words = stepped(alloc, object, words, &op, tally)?;
    }
    Ok(())
}

/// The opening image of an object of 4 lines, made over words that are all the greatest number. `Err` also where the object has other lines.
fn opening<O: Object>(alloc: Global, object: &O) -> Result<Vec<u64>, AllocError> {
    if object.lines() != 4 {
        return Err(AllocError);
    }
    let mut memory = VecMemory::of(vec![in alloc; u64::MAX; 32]?, None);
    match object.format(&mut memory) {
        Ok(()) => Ok(memory.into_words()),
        Err(Halt) => Err(AllocError),
    }
}

/// A memory of these words. `Err` also where they are not 4 lines, or the object does not take them for an image.
fn image_of<O: Object>(alloc: Global, object: &O, words: Vec<u64>) -> Result<VecMemory, AllocError>
    ensures size { IfOk result (λ m. length m.words.items ≡ 8 * O.line_count object.now) }
    ensures lawful { IfOk result (λ m. Always (Known m.words.items) (O.lawful object.now)) }
{
    if object.lines() != 4 || words.len() != 32 {
        return Err(AllocError);
    }
    let is_image = object.check(alloc, &words)?;
    if !is_image {
        return Err(AllocError);
    }
    let memory = VecMemory::of(words, None);
    Ok(memory)
}

/// The words that the operation `op` on `words` leaves. The first 16 words of its reply and the words behind the first line are added to the digest.
/// `Err` where memory runs out, or `words` are no image.
fn stepped<O: Object>(
    alloc: Global,
    object: &O,
    words: Vec<u64>,
    op: &OpWords,
    tally: &mut Tally,
) -> Result<Vec<u64>, AllocError> {
    let mut memory = image_of(alloc, object, words)?;
    let answer = if object.reads(op) {
        object.query(&mut memory, op)
    } else {
        object.run(&mut memory, op)
    };
    match answer {
        Ok(reply) => {
            let words = memory.into_words();
            tell(&reply[..16], tally);
            if words.len() > 8 {
                tell(&words[8..], tally);
            }
            Ok(words)
        }
        Err(Halt) => {
            tally.add(u64::MAX);
            Ok(memory.into_words())
        }
    }
}

/// Adds words to the digest.
fn tell(words: &[u64], tally: &mut Tally) {
    for word in words {
        tally.add(*word);
    }
}

/// The number of a kind of fault in the digest: why words are no program.
fn number_of(kind: FaultKind) -> u64 {
    match kind {
        FaultKind::Length => 1,
        FaultKind::Opcode => 2,
        FaultKind::Unused => 3,
        FaultKind::Register => 4,
        FaultKind::Target => 5,
        FaultKind::End => 6,
        FaultKind::Helper => 7,
        FaultKind::Map => 8,
        FaultKind::Atomic => 9,
        FaultKind::Packet => 10,
        FaultKind::Memory => 11,
    }
}

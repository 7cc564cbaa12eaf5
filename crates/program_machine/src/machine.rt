//! One instruction of a run, as far as it needs no word of the object.

ghost use Rattle.std.specs.Prelude.{◌≡◌, ◌+◌, ◌*◌, ◌<◌};
ghost use Rattle.program_machine.specs.Machine as spec;

use crate::arithmetic::{computed, signed_8, signed_16, signed_32, test_holds};
use program_code::{Instruction, Operand, Register, Unit};

/// The words of a request, and of a reply.
pub const REQUEST_WORDS: usize = 144;

/// What a program may not do.
#[derive(Clone, Copy, Debug, PartialEq, Eq)]
pub enum RunFault {
    /// An address is no place that it may load from or store to.
    Address,
    /// An address is not a multiple of what is loaded or stored.
    Alignment,
    /// A store to the object in an operation that only reads.
    ReadOnly,
    /// More stores to the object than one operation may make.
    Stores,
    /// More instructions than one operation may take.
    Fuel,
    /// More calls within calls than there are frames.
    Depth,
    /// No instruction is there.
    Place,
}

/// How a run ends: with a value, which the program returned in register 0, or with a fault. `at` is the number of the instruction that it was at, and
/// `address` is the address that it was to load from or store to, or 0 where the fault is of none.
#[derive(Clone, Copy, Debug, PartialEq, Eq)]
pub enum RunEnd {
    Returned(u64),
    Fault {
        kind: RunFault,
        at: u64,
        address: u64,
    },
}

/// What an instruction still needs after the machine did its part of it: nothing, as it is done and the run goes on; the run's end; or a load or a
/// store of a word of the object, which the machine does not have. `place` is the number of that word, `unit` is how many of its bytes are moved,
/// from `address` on, `to` is the register that is loaded, and `value` is what is stored.
#[derive(Clone, Copy)]
pub enum Wish {
    /// The instruction needs no word of the object: it is done, and the run goes on.
    Goes,
    /// The run ends here, by a return or by a fault.
    Ends(RunEnd),
    /// The word at `place` of the object is to be loaded, and its part written to the register `to`.
    Loads {
        place: u64,
        unit: Unit,
        address: u64,
        to: Register,
    },
    /// A part of the word at `place` of the object is to be replaced by `value`.
    Stores {
        place: u64,
        unit: Unit,
        address: u64,
        value: u64,
    },
}

/// Where an address is: in the object, the request, the reply, the stack or the program's words, with the number of the word there; or nowhere.
#[derive(Clone, Copy)]
pub enum AddressPlace {
    Object(u64),
    Request(u64),
    Reply(u64),
    Stack(u64),
    Constant(u64),
    Nowhere,
}

/// What a run has beside the object. `registers` are the registers, of which a decoded program names 0 to 10. `at` is the number of the next
/// instruction, and `depth` is how many calls are under way. `frames` keeps six words for each of them, `stack` has 512 words, and `reply` is the
/// reply so far.
#[derive(Drop)]
pub struct Machine {
    pub registers: [u64; 16],
    pub at: u64,
    pub depth: u64,
    pub frames: [u64; 48],
    pub stack: [u64; 512],
    pub reply: [u64; 144],
}

/// Where an address is, for an object of `words` words and a program of `constants` words. The upper 32 bits of the address say which of five parts
/// it is in, and the lower 32 bits are a number of bytes from the start of that part. The first eight words of the object and of the reply are in no
/// part.
#[inline(always)]
pub fn place_of_address(address: u64, words: u64, constants: u64) -> AddressPlace
    ensures { result ≡ spec.place_of_address address words constants }
{
    let index = address % (1 << 32) / 8;
    match address >> 32 {
        // part 1 is the object without its first line of eight words, which the library keeps
        1 if index + 8 < words => AddressPlace::Object(index + 8),
        // parts 2 and 3 are the request, of 144 words, and the reply without its first eight words
        2 if index < 144 => AddressPlace::Request(index),
        3 if index < 136 => AddressPlace::Reply(index + 8),
        4 if index < 512 => AddressPlace::Stack(index),
        // part 5 has the program's words, of which those after its instructions are constants
        5 if index < constants => AddressPlace::Constant(index),
        _ => AddressPlace::Nowhere,
    }
}

/// Whether an address is a multiple of what is loaded or stored.
#[inline(always)]
fn is_aligned(unit: Unit, address: u64) -> bool
    ensures { result ≡ spec.is_aligned unit address }
{
    match unit {
        Unit::One | Unit::SignedOne => true,
        Unit::Two | Unit::SignedTwo => address % 2 == 0,
        Unit::Four | Unit::SignedFour => address % 4 == 0,
        Unit::Eight => address % 8 == 0,
    }
}

/// The bits that a unit has, as ones: those of 1, 2, 4 or 8 bytes.
#[inline(always)]
fn mask_of(unit: Unit) -> u64
    ensures { result ≡ spec.mask_of unit }
{
    match unit {
        Unit::One | Unit::SignedOne => 0xff,
        Unit::Two | Unit::SignedTwo => 0xffff,
        Unit::Four | Unit::SignedFour => 0xffff_ffff,
        Unit::Eight => 0xffff_ffff_ffff_ffff,
    }
}

/// The part of `word` that a load of `unit` from `address` gives: 1, 2, 4 or 8 bytes, from the byte of the word that `address` names. A signed unit
/// is extended to 64 bits by its sign.
#[inline(always)]
pub fn part(unit: Unit, address: u64, word: u64) -> u64
    ensures { result ≡ spec.part unit address word }
{
    let from = word >> (8 * (address % 8));
    match unit {
        Unit::One => from % (1 << 8),
        Unit::Two => from % (1 << 16),
        Unit::Four => from % (1 << 32),
        Unit::Eight => from,
        Unit::SignedOne => signed_8(from % (1 << 8)),
        Unit::SignedTwo => signed_16(from % (1 << 16)),
        Unit::SignedFour => signed_32(from % (1 << 32)),
    }
}

/// `word` with the bytes that a store of `unit` at `address` replaces taken from the lowest bytes of `value`.
#[inline(always)]
pub fn with_part(unit: Unit, address: u64, word: u64, value: u64) -> u64
    ensures { result ≡ spec.with_part unit address word value }
{
    let shift = 8 * (address % 8);
    (word & !(mask_of(unit) << shift)) | ((value & mask_of(unit)) << shift)
}

impl Machine {
    /// What a register holds.
    #[inline(always)]
    fn read(&self, register: Register) -> u64
        ensures { result ≡ spec.read self.now register }
    {
        self.registers[(register.number % 16) as usize]
    }

    /// The value of an operand: the number itself, or what the register holds.
    #[inline(always)]
    fn value(&self, operand: Operand) -> u64
        ensures { result ≡ spec.value_of self.now operand }
    {
        match operand {
            Operand::Number(number) => number,
            Operand::In(register) => self.read(register),
        }
    }

    /// The address at `offset` from what the register `base` holds, modulo 2^64.
    #[inline(always)]
    fn sum(&self, base: Register, offset: u64) -> u64
        ensures { result ≡ spec.address_of self.now base offset }
    {
        self.read(base).wrapping_add(offset)
    }

    /// Writes `value` to a register, and goes on to the next instruction.
    #[inline(always)]
    pub fn write(&mut self, register: Register, value: u64)
        ensures { self.new ≡ spec.wrote self.old register value }
    {
        self.registers[(register.number % 16) as usize] = value;
        self.at = self.at.wrapping_add(1);
    }

    /// The end of the run by a fault of this kind at the machine's instruction, with the address that it was to access.
    #[inline(always)]
    fn fault(&self, kind: RunFault, address: u64) -> Wish
        ensures { result ≡ spec.fault self.now kind address }
    {
        Wish::Ends(RunEnd::Fault {
            kind,
            at: self.at,
            address,
        })
    }

    /// Loads a unit from `address` into the register `to`, and answers `Goes`. Where the address is in the object, it loads nothing and answers
    /// which word is needed; where it is not a multiple of the unit or is nowhere, it answers the fault. `words` is how many words the object has.
    #[inline(always)]
    fn load(
        &mut self,
        unit: Unit,
        to: Register,
        address: u64,
        request: &[u64; 144],
        constants: &[u64],
        words: u64,
    ) -> Wish
        ensures { (result, self.new) ≡ spec.loads self.old unit to address request.now constants.now words }
    {
        if !is_aligned(unit, address) {
            return self.fault(RunFault::Alignment, address);
        }
        let word = match place_of_address(address, words, constants.len() as u64) {
            AddressPlace::Object(place) => {
                return Wish::Loads {
                    place,
                    unit,
                    address,
                    to,
                };
            }
            AddressPlace::Request(at) => request[at as usize],
            AddressPlace::Reply(at) => self.reply[at as usize],
            AddressPlace::Stack(at) => self.stack[at as usize],
            AddressPlace::Constant(at) => constants[at as usize],
            AddressPlace::Nowhere => return self.fault(RunFault::Address, address),
        };
        self.write(to, part(unit, address, word));
        Wish::Goes
    }

    /// Stores a unit of `value` at `address`, in the reply or the stack, and answers `Goes`. Where the address is in the object, it stores nothing
    /// and answers what is to be stored; where it is not a multiple of the unit, or is in no place that may be stored to, it answers the fault.
    /// `words` is how many words the object has.
    #[inline(always)]
    fn store(&mut self, unit: Unit, address: u64, value: u64, words: u64) -> Wish
        ensures { (result, self.new) ≡ spec.stores self.old unit address value words }
    {
        if !is_aligned(unit, address) {
            return self.fault(RunFault::Alignment, address);
        }
        match place_of_address(address, words, 0) {
            AddressPlace::Object(place) => Wish::Stores {
                place,
                unit,
                address,
                value,
            },
            AddressPlace::Reply(at) => {
                let at = at as usize;
                self.reply[at] = with_part(unit, address, self.reply[at], value);
                self.at = self.at.wrapping_add(1);
                Wish::Goes
            }
            AddressPlace::Stack(at) => {
                let at = at as usize;
                self.stack[at] = with_part(unit, address, self.stack[at], value);
                self.at = self.at.wrapping_add(1);
                Wish::Goes
            }
            AddressPlace::Request(_) | AddressPlace::Constant(_) | AddressPlace::Nowhere => {
                self.fault(RunFault::Address, address)
            }
        }
    }

    /// Calls the function of the program at instruction `target`: keeps registers 6 to 10 and the place after the call in a frame of six words, and
    /// moves register 10, the end of the stack, 512 bytes down. It answers `Goes`, or a fault where seven calls are under way.
    fn call(&mut self, target: u64) -> Wish
        ensures { (result, self.new) ≡ spec.calls self.old target }
    {
        if self.depth >= 7 {
            return self.fault(RunFault::Depth, 0);
        }
        // the frame begins at this word of the frames
        let base = 6 * self.depth as usize;
        self.frames[base] = self.registers[6];
        self.frames[base + 1] = self.registers[7];
        self.frames[base + 2] = self.registers[8];
        self.frames[base + 3] = self.registers[9];
        self.frames[base + 4] = self.registers[10];
        self.frames[base + 5] = self.at.wrapping_add(1);
        // the function has the next 512 bytes of the stack, and the run goes on at its first instruction
        self.registers[10] = self.registers[10].wrapping_sub(512);
        self.depth += 1;
        self.at = target;
        Wish::Goes
    }

    /// Returns to the caller: registers 6 to 10 and the place after the call come back from its frame, and it answers `Goes`. Where no call is under
    /// way, it answers the end of the run, with the value in register 0.
    fn exit(&mut self) -> Wish
        ensures { (result, self.new) ≡ spec.exits self.old }
    {
        if self.depth == 0 || self.depth > 7 {
            return Wish::Ends(RunEnd::Returned(self.registers[0]));
        }
        self.depth -= 1;
        let base = 6 * self.depth as usize;
        self.registers[6] = self.frames[base];
        self.registers[7] = self.frames[base + 1];
        self.registers[8] = self.frames[base + 2];
        self.registers[9] = self.frames[base + 3];
        self.registers[10] = self.frames[base + 4];
        self.at = self.frames[base + 5];
        Wish::Goes
    }

    /// Does an instruction as far as it needs no word of the object, and answers what it still needs: `Goes` where it is done and the run goes on,
    /// `Ends` where the run ends, and else the word of the object that it loads or stores. `words` is how many words the object has.
    #[inline(always)]
    pub fn wish(
        &mut self,
        instruction: &Instruction,
        request: &[u64; 144],
        constants: &[u64],
        words: u64,
    ) -> Wish
        ensures { (result, self.new) ≡ spec.wish self.old instruction.now request.now constants.now words }
    {
        match *instruction {
            Instruction::Compute {
                kind,
                width,
                to,
                by,
            } => {
                let value = computed(kind, width, self.read(to), self.value(by));
                self.write(to, value);
                Wish::Goes
            }
            // a number of 64 bits takes two words of the program, and the second is passed over
            Instruction::Wide { to, number } => {
                self.write(to, number);
                self.at = self.at.wrapping_add(1);
                Wish::Goes
            }
            Instruction::Jump {
                test,
                width,
                left,
                right,
                target,
            } => {
                // where the test holds the run goes on at the target, and else at the next instruction
                if test_holds(test, width, self.read(left), self.value(right)) {
                    self.at = target;
                    return Wish::Goes;
                }
                self.at = self.at.wrapping_add(1);
                Wish::Goes
            }
            Instruction::Load {
                unit,
                to,
                base,
                offset,
            } => {
                let address = self.sum(base, offset);
                self.load(unit, to, address, request, constants, words)
            }
            Instruction::Store {
                unit,
                base,
                offset,
                value,
            } => {
                let address = self.sum(base, offset);
                let value = self.value(value);
                self.store(unit, address, value, words)
            }
            Instruction::Call { target } => self.call(target),
            Instruction::Exit => self.exit(),
            // the second word of a number of 64 bits is no instruction
            Instruction::Rest => self.fault(RunFault::Place, 0),
        }
    }
}

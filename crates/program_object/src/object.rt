//! The object whose operations are runs of a program.

ghost use Rattle.std.specs.Prelude.{◌≡◌, ◌*◌, ◌+◌, ◌^◌, ◌<◌, ◌≤◌, ◌↔◌, IsFalse, IsTrue, MatchOption, true, false, length};
ghost use Rattle.cx_base.specs.Calls.{Changes};
ghost use Rattle.cx_base.specs.Memory.{Becomes};
ghost use Rattle.program_code.specs.Program.{instructions_of, program_words};
ghost use Rattle.program_object.specs.Fingerprint as prints;
ghost use Rattle.program_object.specs.Meaning as spec;
ghost use Rattle.program_object.specs.Laws as laws;

use crate::fingerprint::fingerprint;
use crate::run::to_end;
use crate::slice_memory::SliceMemory;
use crate::undo::{Undo, undo_all};
use cx_base::{Halt, Memory, OP_WORDS, Object, OpWords};
use program_code::Program;
use program_machine::{Machine, RunEnd, RunFault};
use std::alloc::{AllocError, Global};

/// A program over an object of `lines` lines. Each operation takes at most `fuel` instructions. `version` is the fingerprint of the program, and
/// `before` is that of a program whose images are taken over, if there is one.
#[derive(Drop)]
pub struct ProgramObject {
    lines: u64,
    version: u64,
    fuel: u64,
    before: Option<u64>,
    program: Program,
    ghost some: { 1 ≤ lines },
    ghost few: { lines ≤ 2 ^ 26 },
    ghost small: { version < 2 ^ 64 },
    ghost other: { spec.is_other before version ≡ true },
}

impl ProgramObject {
    /// The object of a program, with 1 to 2^26 lines and a fuel of at most 2^20. Images of a program with the fingerprint `before` are taken over; it has
    /// to be another than this program's own. `None` where one of these numbers does not fit.
    pub fn of(program: Program, lines: u64, fuel: u64, before: Option<u64>) -> Option<ProgramObject>
        ensures { let version = prints.fingerprint (program_words program) (length (instructions_of program)) fuel in MatchOption result (spec.numbers_fit lines fuel version before ≡ false)
            (λ o. (o.program ≡ program) × (o.lines ≡ lines) × (o.fuel ≡ fuel) × (o.before ≡ before) × (o.version ≡ version)) }
    {
        let version = fingerprint(program.words(), program.code().len() as u64, fuel);
        if numbers_fit(lines, fuel, version, before) {
            Some(ProgramObject {
                lines,
                version,
                fuel,
                before,
                program,
            })
        } else {
            None
        }
    }

    /// The fingerprint that its images begin with.
    pub fn fingerprint(&self) -> u64
        ensures { result ≡ self.now.version }
    {
        self.version
    }

    /// Runs the program once for the operation `op`, and writes its reply. The run may store to the object only where `writes` says so. What a run
    /// that a fault ends has stored is put back. `Changes` relates the object's words before and after, as `Operates` says. `Halt` comes only where
    /// no access is left.
    fn operate<M: Memory>(
        &self,
        mem: &mut M,
        op: &OpWords,
        writes: bool,
        reply: &mut OpWords,
    ) -> Result<(), Halt>
        requires size { M.size mem.old ≡ 8 * self.now.lines }
        requires writable { IsTrue writes → IsTrue (M.writable mem.old) }
        ensures done { Changes M.Memory mem.old mem.new result (λ _ before now. spec.Operates (instructions_of self.now.program) (program_words self.now.program) self.now.lines self.now.fuel writes op.now before now reply.new) }
        ensures kept { IsFalse writes → Becomes (M.stands mem.old) (M.stands mem.new) ◌≡◌ }
    {
        let words = 8 * self.lines;
        let mut machine = started(self.lines);
        let mut undo = Undo::none();
        match to_end(
            self.program.code(),
            self.program.words(),
            words,
            op,
            writes,
            self.fuel,
            mem,
            &mut machine,
            &mut undo,
        )? {
            // the reply begins with 1 and the value, or with the fault's number, the instruction and the address
            RunEnd::Returned(value) => *reply = returned(value, &machine.reply),
            RunEnd::Fault { kind, at, address } => {
                if writes {
                    undo_all(mem, words, &undo)?;
                }
                *reply = faulted(kind, at, address);
            }
        }
        Ok(())
    }
}

/// Whether the numbers of a program's object are within their limits: 1 to 2^26 lines, a fuel of at most 2^20, and a fingerprint `before`, if there
/// is one, that is not `version`.
fn numbers_fit(lines: u64, fuel: u64, version: u64, before: Option<u64>) -> bool
    ensures { result ≡ spec.numbers_fit lines fuel version before }
{
    lines >= 1 && lines <= 1 << 26 && fuel <= 1 << 20 && is_other(before, version)
}

/// Whether the fingerprint `before`, if there is one, is another than `version`.
fn is_other(before: Option<u64>, version: u64) -> bool
    ensures { result ≡ spec.is_other before version }
{
    match before {
        None => true,
        Some(old) => old != version,
    }
}

/// Whether words are an image of this number of lines and of the program with this fingerprint.
fn is_image(words: &[u64], lines: u64, version: u64) -> bool
    requires some { 1 ≤ lines }
    requires few { lines ≤ 2 ^ 26 }
    ensures { IsTrue result ↔ spec.IsProgramImage lines version words.now }
{
    words.len() as u64 == 8 * lines && words[0] == version
}

/// The machine as a run begins, for an object of `lines` lines. Registers 1 to 4 hold the addresses of the request, the reply and the object, and
/// how many bytes of the object the program has. Register 10 holds the end of the stack of 4,096 bytes. All else is 0.
#[tactic(auto, unfolding(crate::specs::Meaning::start))]
fn started(lines: u64) -> Machine
    requires some { 1 ≤ lines }
    requires few { lines ≤ 2 ^ 26 }
    ensures { result ≡ spec.start lines 0 }
{
    Machine {
        registers: [
            0,
            2 << 32,
            3 << 32,
            1 << 32,
            64 * (lines - 1),
            0,
            0,
            0,
            0,
            0,
            (4 << 32) + 4096,
            0,
            0,
            0,
            0,
            0,
        ],
        at: 0,
        depth: 0,
        frames: [0; 48],
        stack: [0; 512],
        reply: [0; OP_WORDS],
    }
}

/// The number of a fault in a reply.
fn fault_number(kind: RunFault) -> u64
    ensures { result ≡ spec.fault_number kind }
{
    match kind {
        RunFault::Address => 2,
        RunFault::Alignment => 3,
        RunFault::ReadOnly => 4,
        RunFault::Stores => 5,
        RunFault::Fuel => 6,
        RunFault::Depth => 7,
        RunFault::Place => 8,
    }
}

/// The reply of a run that returned `value`: `reply` as the run left it, with 1 in its first word and the value in its second.
fn returned(value: u64, reply: &OpWords) -> OpWords
    ensures { result ≡ spec.returned value reply.now }
{
    let mut words = *reply;
    words[0] = 1;
    words[1] = value;
    words
}

/// The reply of a run that a fault ended: the fault's number, the number of the instruction, the address, and zeros.
#[tactic(auto, unfolding(crate::specs::Meaning::faulted))]
fn faulted(kind: RunFault, at: u64, address: u64) -> OpWords
    ensures { result ≡ spec.faulted (spec.fault_number kind) at address }
{
    let mut words = [0; OP_WORDS];
    words[0] = fault_number(kind);
    words[1] = at;
    words[2] = address;
    words
}

/// The operation that a program is run with once for each image that it takes over: a first word of 2^64 - 2, an even number, so that the run may
/// store; then the fingerprint `old` of the program before.
#[tactic(auto, unfolding(crate::specs::Meaning::upgrade_request))]
fn upgrade_request(old: u64) -> OpWords
    ensures { result ≡ spec.upgrade_request old }
{
    let mut words = [0; OP_WORDS];
    words[0] = u64::MAX - 1;
    words[1] = old;
    words
}

// Of an object `o`: `lawful` says which words are an image of it, `opening` is its first image, and `step` is the image and the reply after an
// operation. `old_format` is the format of the images that it takes over. The items from `opens` on are the laws of an object, each proved by the
// law that it names.
impl Object for ProgramObject {
    ghost line_count = { λ o. o.lines };

    ghost version_number = { λ o. o.version };

    ghost lawful = { λ o. spec.IsProgramImage o.lines o.version };

    ghost opening = { λ o. spec.opening o.lines o.version };

    ghost step = { λ o. spec.program_step (instructions_of o.program) (program_words o.program) o.lines o.fuel };

    ghost only_reads = { λ _. spec.reads };

    ghost old_format = { λ o. spec.old_of (instructions_of o.program) (program_words o.program) o.lines o.fuel o.version o.before };

    ghost opens = { λ o. laws.program_opens o.lines o.version o.some o.small };

    ghost keeps = { λ o. laws.program_keeps (instructions_of o.program) (program_words o.program) o.lines o.version o.fuel };

    ghost shape = { λ o. laws.program_shape o.lines o.version };

    ghost replies = { λ o. laws.program_replies (instructions_of o.program) (program_words o.program) o.lines o.version o.fuel };

    ghost leaves = { λ o. laws.program_leaves (instructions_of o.program) (program_words o.program) o.lines o.version o.fuel };

    ghost takes_over = { λ o. laws.program_takes_over (instructions_of o.program) (program_words o.program) o.lines o.version o.fuel o.before o.some o.small o.other };

    fn lines(&self) -> u64 {
        self.lines
    }

    fn version(&self) -> u64 {
        self.version
    }

    fn format<M: Memory>(&self, mem: &mut M) -> Result<(), Halt> {
        mem.store(0, self.version)?;
        for at in 1..8 * self.lines {
            mem.store(at, 0)?;
        }
        Ok(())
    }

    fn reads(&self, op: &OpWords) -> bool {
        op[0] % 2 == 1
    }

    fn run_into<M: Memory>(
        &self,
        mem: &mut M,
        op: &OpWords,
        reply: &mut OpWords,
    ) -> Result<(), Halt> {
        self.operate(mem, op, !self.reads(op), reply)
    }

    fn query_into<M: Memory>(
        &self,
        mem: &mut M,
        op: &OpWords,
        reply: &mut OpWords,
    ) -> Result<(), Halt> {
        self.operate(mem, op, false, reply)
    }

    fn check(&self, _alloc: Global, words: &[u64]) -> Result<bool, AllocError> {
        Ok(is_image(words, self.lines, self.version))
    }

    fn old_version(&self) -> Option<u64> {
        self.before
    }

    fn check_old(&self, _alloc: Global, words: &[u64]) -> Result<bool, AllocError> {
        match self.before {
            None => Ok(false),
            Some(old) => Ok(is_image(words, self.lines, old)),
        }
    }

    fn upgrade(&self, words: &mut [u64]) {
        match self.before {
            None => {}
            Some(old) => {
                // the image becomes one of this program, which is then run once over it
                words[0] = self.version;
                let mut mem = SliceMemory { words };
                let mut reply = [0; OP_WORDS];
                // it has no limit, so it does not halt
                let _ = self.run_into(&mut mem, &upgrade_request(old), &mut reply);
            }
        }
    }
}

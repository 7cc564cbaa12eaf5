//! A run of a program over the words of a memory.

ghost use Rattle.std.specs.Prelude.{◌≡◌};
ghost use Rattle.cx_base.specs.Calls.{Changes};
ghost use Rattle.program_object.specs.Run as spec;

use crate::undo::Undo;
use cx_base::{Halt, Memory, OpWords};
use program_code::Instruction;
use program_machine::{Machine, RunEnd, RunFault, Wish, part, with_part};

/// Gives an instruction what it still needs, `wish`, of the object's words in `mem`, which are `words` many. It answers the end of the run, or
/// `None` where the run goes on. A store goes only where `writes` says so, and the word that it replaces is noted in `undo`. `Changes` relates the
/// words before and after: they, the machine and `undo` are as `Granted` says. `Err` comes only where no access to the memory is left.
#[inline(always)]
fn grant<M: Memory>(
    wish: Wish,
    writes: bool,
    words: u64,
    mem: &mut M,
    machine: &mut Machine,
    undo: &mut Undo,
) -> Result<Option<RunEnd>, Halt>
    requires { spec.MayRun M.Memory words writes mem.old undo.old }
    ensures done { Changes M.Memory mem.old mem.new result (λ next before now. spec.Granted writes words wish machine.old undo.old before next machine.new undo.new now) }
    ensures leaves { spec.LeavesRun M.Memory writes mem.old mem.new undo.new }
{
    match wish {
        // the instruction needed no word of the object and is done: the run goes on
        Wish::Goes => Ok(None),
        Wish::Ends(end) => Ok(Some(end)),
        Wish::Loads {
            place,
            unit,
            address,
            to,
        } => {
            // the object's first line of eight words, and what is behind the object, are not for the program
            if place < 8 || place >= words {
                return Ok(end_by_fault(machine, RunFault::Address, address));
            }
            let word = mem.load(place)?;
            machine.write(to, part(unit, address, word));
            Ok(None)
        }
        Wish::Stores {
            place,
            unit,
            address,
            value,
        } => {
            if place < 8 || place >= words {
                return Ok(end_by_fault(machine, RunFault::Address, address));
            }
            // a store to the object in an operation that only reads is a fault, and so is a store after 256 of them
            if !writes {
                return Ok(end_by_fault(machine, RunFault::ReadOnly, address));
            }
            if undo.count >= 256 {
                return Ok(end_by_fault(machine, RunFault::Stores, address));
            }
            // the part of the word is replaced, and the word that it was is noted for the undo
            let word = mem.load(place)?;
            mem.store(place, with_part(unit, address, word, value))?;
            undo.push(place, word);
            machine.at = machine.at.wrapping_add(1);
            Ok(None)
        }
    }
}

/// The end of a run by a fault of this kind at the machine's instruction, with the address that it was to access, or 0 where there is none.
#[inline(always)]
fn end_by_fault(machine: &Machine, kind: RunFault, address: u64) -> Option<RunEnd>
    ensures { result ≡ spec.end_by_fault machine.now kind address }
{
    Some(RunEnd::Fault {
        kind,
        at: machine.at,
        address,
    })
}

/// Does the machine's next instruction of `code`, and returns the end of the run, or `None` where the run goes on. `constants` are the program's
/// words, `words` is how many words the object in `mem` has, `request` is the operation, and `writes` says whether it may store to the object.
/// `undo` notes what stores replace. In the contract, `setting` is what does not change in a run: code, constants, words, request and `writes`.
#[inline(always)]
fn step<M: Memory>(
    code: &[Instruction],
    constants: &[u64],
    words: u64,
    request: &OpWords,
    writes: bool,
    mem: &mut M,
    machine: &mut Machine,
    undo: &mut Undo,
) -> Result<Option<RunEnd>, Halt>
    requires { spec.MayRun M.Memory words writes mem.old undo.old }
    ensures done { Changes M.Memory mem.old mem.new result (λ next before now. spec.Stepped (spec.setting code.now constants.now words request.now writes) machine.old undo.old before next machine.new undo.new now) }
    ensures leaves { spec.LeavesRun M.Memory writes mem.old mem.new undo.new }
{
    if machine.at >= code.len() as u64 {
        return Ok(end_by_fault(machine, RunFault::Place, 0));
    }
    let instruction = &code[machine.at as usize];
    let wish = machine.wish(instruction, request, constants, words);
    grant(wish, writes, words, mem, machine, undo)
}

/// Runs `code` to its end, with at most `fuel` instructions, and returns the end; a run that needs more ends by a fault. `constants` are the
/// program's words, `words` is how many words the object in `mem` has, `request` is the operation, and `writes` says whether it may store to the
/// object. `undo` notes what stores replace. In the contract, `setting` is what does not change in a run: code, constants, words, request and
/// `writes`. `Halt` comes only where no access is left.
pub fn to_end<M: Memory>(
    code: &[Instruction],
    constants: &[u64],
    words: u64,
    request: &OpWords,
    writes: bool,
    fuel: u64,
    mem: &mut M,
    machine: &mut Machine,
    undo: &mut Undo,
) -> Result<RunEnd, Halt>
    requires { spec.MayRun M.Memory words writes mem.old undo.old }
    ensures done { Changes M.Memory mem.old mem.new result (λ end before now. spec.RunsToEnd (spec.setting code.now constants.now words request.now writes) fuel machine.old undo.old before end machine.new undo.new now) }
    ensures leaves { spec.LeavesRun M.Memory writes mem.old mem.new undo.new }
{
    for turn in 0..fuel {
        match step(code, constants, words, request, writes, mem, machine, undo)? {
            None => {}
            Some(end) => return Ok(end),
        }
    }
    Ok(RunEnd::Fault {
        kind: RunFault::Fuel,
        at: machine.at,
        address: 0,
    })
}

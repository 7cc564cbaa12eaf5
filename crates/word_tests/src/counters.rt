//! The calls of an object, as a caller of many steps makes them: the counters over a vector.

ghost use Rattle.std.specs.Prelude.{◌≡◌, ◌*◌, IsTrue, OnOk};
ghost use Rattle.cx_base.specs.Memory.{Always};

use crate::holds::holds;
use crate::rows::memory;
use bounded_counters::{Counters, Reply, add_words, read_words};
use cx_base::{Halt, Memory, Object};
use std::alloc::{AllocError, Global};
use std::test::Fail;

// Makes the opening image of an object in a memory of as many words as the object has. The image is lawful, unless the memory halts.
fn opened<O: Object, M: Memory>(object: &O, mem: &mut M) -> Result<(), Halt>
    requires size { M.size mem.old ≡ 8 * O.line_count object.now }
    requires writable { IsTrue (M.writable mem.old) }
    ensures size { M.size mem.new ≡ 8 * O.line_count object.now }
    ensures writable { IsTrue (M.writable mem.new) }
    ensures lawful { OnOk result (Always (M.stands mem.new) (O.lawful object.now)) }
{
    object.format(mem)
}

// Does the step `op` of an object in a lawful image, and returns the words of the reply. The image is lawful after it, unless the memory halts.
fn asked<O: Object, M: Memory>(object: &O, mem: &mut M, op: &[u64; 144]) -> Result<[u64; 144], Halt>
    requires size { M.size mem.old ≡ 8 * O.line_count object.now }
    requires writable { IsTrue (M.writable mem.old) }
    requires lawful { Always (M.stands mem.old) (O.lawful object.now) }
    ensures size { M.size mem.new ≡ 8 * O.line_count object.now }
    ensures writable { IsTrue (M.writable mem.new) }
    ensures lawful { OnOk result (Always (M.stands mem.new) (O.lawful object.now)) }
{
    object.run(mem, op)
}

// Whether counter 5 of the opening image is 9 after 9 is added to it, in 64 lines, whose counters stay below 11.
fn are_answered(alloc: Global) -> Result<bool, AllocError> {
    let object = Counters::of(64, 11);
    let mut memory = memory(alloc, 64)?;
    if opened(&object, &mut memory).is_err()
        || asked(&object, &mut memory, &add_words(5, 9)).is_err()
    {
        return Ok(false);
    }
    Ok(asked(&object, &mut memory, &read_words(5)) == Ok(Reply::Value(9).words()))
}

#[test]
fn a_caller_makes_many_steps(rt: HostRuntime) -> Result<(), Fail> {
    holds(&rt, are_answered(rt.alloc())?);
    Ok(())
}

//! The full step of an entry, over any object and any writable memory of a region. The object sees its part of that memory as a memory.

ghost use Rattle.std.specs.Prelude.{◌+◌, ◌^◌, ◌<◌, ◌≤◌, ℕ, List, ◌≡◌};
ghost use Rattle.cx_core.specs.Inside.{Inside, PartFixed, inside_some, inside_words};
ghost use Rattle.cx_base.specs.Calls.{Changes};
ghost use Rattle.cx_base.specs.Memory.{Always};
ghost use Rattle.cx_core.specs.Region.{place_of, object_part};
ghost use Rattle.cx_core.specs.Step.{HasRegion, IsStepped, OnPart, full_step_of};

use crate::entry::Entry;
use crate::layout::{LINE_WORDS, OBJECT_START, PLACE_AT, PLACE_END, slot_start};
use cx_base::{Halt, Memory, OP_WORDS, Object, OpWords, load_below, store_word, store_words};

/// The words of a memory from a place on, as a memory of their own. It keeps the words around it as they are.
#[derive(Drop)]
pub struct Part<'a, M: Memory> {
    pub inner: &'a mut M,
    pub from: u64,
    pub len: u64,
    ghost within: { from + len ≤ M.size inner.now },
    ghost small: { from + len < 2 ^ 64 },
}

impl<M: Memory> Memory for Part<'_, M> {
    ghost use Rattle.std.specs.Borrow.{GName};

    ghost size = { λ p. p.len };

    ghost Fixed = { PartFixed GName M.Fixed };

    ghost fixed = { λ p. record { name = p.inner.ghost_name; inner = M.fixed p.inner.now; whole = M.size p.inner.now; from = p.from; len = p.len } };

    ghost writable = { λ p. M.writable p.inner.now };

    ghost left = { λ p. M.left p.inner.now };

    ghost Key = { M.Key × List ℕ × List ℕ };

    ghost stands = { λ p. Inside (M.stands p.inner.now) p.from p.len };

    ghost some_stands = { λ p. inside_some (M.size p.inner.now) p.from p.len p.within (M.words p.inner.now) (M.some_stands p.inner.now) };

    ghost words = { λ p. inside_words (M.size p.inner.now) p.from p.len (M.words p.inner.now) };

    fn load(&mut self, at: u64) -> Result<u64, Halt> {
        self.inner.load(self.from + at)
    }

    fn load_words(&mut self, at: u64, into: &mut [u64]) -> Result<(), Halt> {
        self.inner.load_words(self.from + at, into)
    }

    fn store(&mut self, at: u64, v: u64) -> Result<(), Halt> {
        self.inner.store(self.from + at, v)
    }
}

/// Does the full step of an entry on a region: the object's step on the object part, the number and the reply into
/// the slot of the entry's caller, and 1 added to the place. Of the slot it stores only the words that differ.
/// `Halt` comes only where no access is left.
pub fn full_step<O: Object, M: Memory>(object: &O, mem: &mut M, entry: &Entry) -> Result<(), Halt>
    requires region { HasRegion M.Memory (O.line_count object.now) mem.old }
    requires place { Always (M.stands mem.old) (λ region. place_of region < 2 ^ 40) }
    requires lawful { Always (M.stands mem.old) (λ region. O.lawful object.now (object_part region)) }
    requires caller { entry.now.caller < 8 }
    ensures { Changes M.Memory mem.old mem.new result (λ _ before now. now ≡ full_step_of (O.step object.now) entry.now before) }
{
    let mut reply = [0; OP_WORDS];
    full_step_into(object, mem, entry, &mut reply)
}

/// The full step of an entry, as `full_step` does it. The object's reply to it is also written into the caller's buffer, so that it need not be
/// loaded from the slot. `Halt` comes only where no access is left.
pub fn full_step_into<O: Object, M: Memory>(
    object: &O,
    mem: &mut M,
    entry: &Entry,
    reply: &mut OpWords,
) -> Result<(), Halt>
    requires region { HasRegion M.Memory (O.line_count object.now) mem.old }
    requires place { Always (M.stands mem.old) (λ region. place_of region < 2 ^ 40) }
    requires lawful { Always (M.stands mem.old) (λ region. O.lawful object.now (object_part region)) }
    requires caller { entry.now.caller < 8 }
    ensures { Changes M.Memory mem.old mem.new result (λ _ before now. IsStepped (O.step object.now) entry.now reply.new before now) }
{
    let place = load_below(mem, PLACE_AT, PLACE_END)?;
    run_part(object, mem, &entry.op, reply)?;
    let slot = slot_start(entry.caller);
    store_word(mem, slot, entry.number)?;
    store_words(mem, slot + 1, reply)?;
    mem.store(PLACE_AT, place + 1)?;
    Ok(())
}

/// Does the object's step on the object part of a region.
fn run_part<O: Object, M: Memory>(
    object: &O,
    mem: &mut M,
    op: &OpWords,
    reply: &mut OpWords,
) -> Result<(), Halt>
    requires region { HasRegion M.Memory (O.line_count object.now) mem.old }
    requires lawful { Always (M.stands mem.old) (λ region. O.lawful object.now (object_part region)) }
    ensures { Changes M.Memory mem.old mem.new result (λ _. OnPart OBJECT_START (λ before now. O.step object.now before op.now ≡ (now, reply.new))) }
{
    let len = LINE_WORDS * object.lines();
    let mut part = Part {
        inner: mem,
        from: OBJECT_START,
        len,
    };
    object.run_into(&mut part, op, reply)
}

/// Makes the opening image in the object part of a region. `Halt` comes only where no access is left.
pub fn format_part<O: Object, M: Memory>(object: &O, mem: &mut M) -> Result<(), Halt>
    requires region { HasRegion M.Memory (O.line_count object.now) mem.old }
    ensures { Changes M.Memory mem.old mem.new result (λ _. OnPart OBJECT_START (λ _ now. now ≡ O.opening object.now)) }
{
    let len = LINE_WORDS * object.lines();
    let mut part = Part {
        inner: mem,
        from: OBJECT_START,
        len,
    };
    object.format(&mut part)
}

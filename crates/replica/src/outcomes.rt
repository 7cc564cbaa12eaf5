//! What a region says: the place after which it is, and the number and the reply of each caller's last entry there.

ghost use Rattle.std.specs.Prelude.{◌≡◌, ◌+◌, ◌<◌, ◌≤◌, Some, OnErr, OnOk, IfOk};
ghost use Rattle.cx_base.specs.Memory.{Becomes, Framed, Reads};
ghost use Rattle.cx_core.specs.Region.{place_of};
ghost use Rattle.replica.specs.Outcomes.{IsOutcome, ReplyFrom};

use cx_base::{Halt, Memory, OP_WORDS, OpWords};
use cx_core::{OBJECT_START, slot_start};

/// The word of a region that has the place.
const PLACE_AT: u64 = 0;

/// The place after which a region is. `Halt` comes only where no access is left.
pub fn place<M: Memory>(mem: &mut M) -> Result<u64, Halt>
    requires region { OBJECT_START ≤ M.size mem.old }
    ensures read { IfOk result (λ place. Reads (M.stands mem.old) (M.stands mem.new) (λ region. place_of region ≡ place)) }
    ensures unchanged { Becomes (M.stands mem.old) (M.stands mem.new) ◌≡◌ }
    ensures halts { OnErr result (M.left mem.new ≡ Some 0) }
    ensures framed { Framed M.size M.fixed M.writable M.left mem.old mem.new }
{
    mem.load(PLACE_AT)
}

/// The number of a caller's last entry in a region, 0 for none, and the reply to it, which is written into the caller's buffer. `Halt` comes
/// only where no access is left.
pub fn outcome<M: Memory>(mem: &mut M, caller: u32, reply: &mut OpWords) -> Result<u64, Halt>
    requires region { OBJECT_START ≤ M.size mem.old }
    requires caller { caller < 8 }
    ensures read { IfOk result (λ number. Reads (M.stands mem.old) (M.stands mem.new) (IsOutcome caller number reply.new)) }
    ensures unchanged { Becomes (M.stands mem.old) (M.stands mem.new) ◌≡◌ }
    ensures halts { OnErr result (M.left mem.new ≡ Some 0) }
    ensures framed { Framed M.size M.fixed M.writable M.left mem.old mem.new }
{
    let slot = slot_start(caller);
    let number = mem.load(slot)?;
    load_reply(mem, slot + 1, reply)?;
    Ok(number)
}

/// Loads a reply from a place on.
fn load_reply<M: Memory>(mem: &mut M, from: u64, reply: &mut OpWords) -> Result<(), Halt>
    requires region { from + OP_WORDS ≤ M.size mem.old }
    requires small { from < OBJECT_START }
    ensures read { OnOk result (Reads (M.stands mem.old) (M.stands mem.new) (ReplyFrom from reply.new)) }
    ensures unchanged { Becomes (M.stands mem.old) (M.stands mem.new) ◌≡◌ }
    ensures halts { OnErr result (M.left mem.new ≡ Some 0) }
    ensures framed { Framed M.size M.fixed M.writable M.left mem.old mem.new }
{
    mem.load_words(from, reply)
}

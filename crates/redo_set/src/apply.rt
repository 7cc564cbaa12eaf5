//! A write set stored over the words of a memory.

ghost use Rattle.std.specs.Prelude.{◌≡◌, ◌+◌, ℕ, IsTrue, OnErr, OnOk};
ghost use Rattle.cx_base.specs.Calls.{Changes};
ghost use Rattle.cx_base.specs.Memory.{Always, Becomes};
ghost use Rattle.cx_core.specs.History.{full_image};
ghost use Rattle.cx_core.specs.State.{Instance};
ghost use Rattle.cx_core.specs.WriteSet.{IsWriteSetOf};
ghost use Rattle.redo_set.specs.Sets.{AreWithin, IsFrontOver, put_over};

use crate::set::WriteSet;
use cx_base::{Halt, Memory};

/// Stores the pairs of a set in order. A write set of the ticket at which an image stands makes it the image after that entry, as the
/// entry's full step does. `Halt` comes only where no access is left, and then the first of the pairs are stored.
pub fn apply_set<M: Memory>(mem: &mut M, set: &WriteSet) -> Result<(), Halt>
    requires within { AreWithin (M.size mem.old) set.now }
    requires writable { IsTrue (M.writable mem.old) }
    ensures changes { Changes M.Memory mem.old mem.new result (λ _ before now. now ≡ put_over set.now before) }
    ensures next { OnOk result ((instance : Instance) (history : _) (ticket : ℕ) → IsWriteSetOf instance history ticket set.now →
        Always (M.stands mem.old) (λ words. words ≡ full_image instance.step instance.base history ticket) →
        Always (M.stands mem.new) (λ words. words ≡ full_image instance.step instance.base history (ticket + 1))) }
    ensures cut { OnErr result (Becomes (M.stands mem.old) (M.stands mem.new) (IsFrontOver set.now)) }
{
    for m in 0..set.len() {
        let (at, v) = set.pair(m);
        mem.store(at, v)?;
    }
    Ok(())
}

//! A read can be answered.

ghost use Rattle.std.specs.Prelude.{◌≡◌, ◌<◌, ℕ, List, IsTrue, Some, length, slice_get};
ghost use Rattle.core_reach.specs.Reaching.{AreOpWords, ReachesRead};
ghost use Rattle.cx_core.specs.Lawful.{Lawful};
ghost use Rattle.cx_core.specs.State.{Instance, State};

/// From each lawful state `s` over a base with words, whatever the callers hold, some run answers a read of a caller, of the words `op` of any
/// operation that only reads; `l` is the caller's local state in `s`. The caller puts down what it holds, as for an update. Then CUR is loaded, its
/// replica taken shared, the place there looked at, and DUR raised by the code found.
pub fn reads_can_be_answered()
    ensures { (instance : Instance) (s : State) (caller : ℕ) (l : _) (op : List ℕ) → Lawful instance s → slice_get s.locals caller ≡ Some l →
        0 < length instance.base.words → IsTrue (instance.reads op) → AreOpWords op → ReachesRead instance s caller l op }
{}

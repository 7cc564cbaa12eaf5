//! One order of all operations of a run.

ghost use Rattle.std.specs.Prelude.{ℕ};
ghost use Rattle.core_order.specs.TotalOrder.{IsUnmade, RunsHaveOrder};
ghost use Rattle.cx_core.specs.Base.{LawfulBase};
ghost use Rattle.cx_core.specs.declared.entry.Base.{Base};
ghost use Rattle.cx_core.specs.State.{opening_state};

use cx_base::Object;

/// The operations that took effect in a run from a state in which none had have one order: each is in it once, where one was answered before
/// another one began it stands before it, and the object alone, which makes each of them by its step, gives each reply in this order. A read's step
/// is the object's own too.
pub fn runs_have_one_order<O: Object>()
    ensures { (object : O) (callers : ℕ) (base : Base) → LawfulBase (O.line_count object) (O.lawful object) base →
        RunsHaveOrder (record { callers = callers; base = base; step = O.step object; reads = O.only_reads object }) }
{}

/// In the state with which a service opens none has taken effect.
pub fn openings_are_unmade()
    ensures { (callers : ℕ) (base : Base) → IsUnmade (opening_state callers base) }
{}

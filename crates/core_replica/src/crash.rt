//! What is kept of a state after a crash is a lawful base.

ghost use Rattle.std.specs.Prelude.{◌≡◌, ◌+◌, ◌^◌, ◌≤◌, ℕ, length};
ghost use Rattle.cx_core.specs.Base.{LawfulBase};
ghost use Rattle.cx_core.specs.Crash.{IsKept};
ghost use Rattle.cx_core.specs.History.{AreLawful, full_image};
ghost use Rattle.cx_core.specs.State.{State};

use cx_base::Object;
use cx_core::Base;

/// What is recovered is a lawful base, and its words are the full image after its place, where the object's base was lawful and each entry of the history
/// is lawful.
pub fn kept_bases_are_lawful<O: Object>(object: &O, base: &Base)
    requires { LawfulBase (O.line_count object.now) (O.lawful object.now) base.now }
    ensures { (callers : ℕ) (history : _) (s : State) (kept : _) → AreLawful base.now.place history → base.now.place + length history ≤ 2 ^ 40 →
        IsKept (record { callers = callers; base = base.now; step = O.step object.now; reads = O.only_reads object.now }) history s kept →
        LawfulBase (O.line_count object.now) (O.lawful object.now) kept × (kept.words ≡ full_image (O.step object.now) base.now history kept.place) }
{}

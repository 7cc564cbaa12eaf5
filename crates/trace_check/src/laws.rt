//! What a crash leaves of a state recovers at the place that a trace names. The law is the contract of a function that does
//! nothing.

ghost use Rattle.std.specs.Prelude.{◌≡◌, ℕ};
ghost use Rattle.cx_base.specs.OldFormat.{no_old_format};
ghost use Rattle.cx_core.specs.Base.{LawfulBase};
ghost use Rattle.cx_core.specs.Lawful.{Lawful};
ghost use Rattle.cx_core.specs.State.{Instance, State};
ghost use Rattle.recovery.specs.Kept.{IsKeptAt};
ghost use Rattle.recovery.specs.Recovery.{IsAccepted, place_in_root, recovered_from};
ghost use Rattle.trace_check.specs.Images.{IsImageOf};
ghost use Rattle.trace_check.specs.Lines.{LeavesPlace};

use cx_base::Object;
use cx_core::Base;

/// What a crash leaves of a lawful state by choice is accepted as of the object's own version, at the place of the code that the
/// choice takes. What is recovered is the full image after that place, at or above DUR's and each answer's.
pub fn images_recover<O: Object>(object: &O, base: &Base)
    requires { LawfulBase (O.line_count object.now) (O.lawful object.now) base.now }
    ensures accepted { (callers choice place : ℕ) (s : State) (image : _) → let instance : Instance = record { callers = callers; base = base.now; step = O.step object.now; reads = O.only_reads object.now } in
        Lawful instance s → IsImageOf (O.line_count object.now) instance s choice image → LeavesPlace instance s choice place →
        IsAccepted (O.version_number object.now) (O.lawful object.now) no_old_format image × (place_in_root image ≡ place) }
    ensures kept { (callers choice : ℕ) (s : State) (image : _) → let instance : Instance = record { callers = callers; base = base.now; step = O.step object.now; reads = O.only_reads object.now } in
        (law : Lawful instance s) → IsImageOf (O.line_count object.now) instance s choice image →
        IsKeptAt (O.line_count object.now) (O.lawful object.now) instance law.history s image.root (recovered_from no_old_format image) }
{}

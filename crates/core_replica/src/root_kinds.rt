//! The opening state has the part of the lawful state on the root, and each kind of step keeps it.

ghost use Rattle.std.specs.Prelude.{◌≡◌, ◌≤◌};
ghost use Rattle.core_replica.specs.Root.{KeepsRoot};
ghost use Rattle.cx_core.specs.LawfulRoot.{Root};
ghost use Rattle.cx_core.specs.Region.{place_of};
ghost use Rattle.cx_core.specs.State.{Instance, opening_locals, opening_words};

/// The opening state has the part on the root, `Root`, where the base's words have its place.
pub fn opening_has_the_root()
    ensures { (instance : Instance) → 1 ≤ instance.callers → place_of instance.base.words ≡ instance.base.place →
        Root instance (opening_words instance.callers instance.base) (opening_locals instance.callers instance.base.place) }
{}

/// Each step of any kind keeps `Root`: steps of the queue touch nothing that the part names.
pub fn events_keep_the_root()
    ensures { (kind : _) → KeepsRoot kind }
{}

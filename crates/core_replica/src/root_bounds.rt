//! What the part on fronts needs of the root.

ghost use Rattle.std.specs.Prelude.{ℕ, List};
ghost use Rattle.cx_core.specs.Lawful.{Shape};
ghost use Rattle.cx_core.specs.LawfulLocks.{Locks};
ghost use Rattle.cx_core.specs.LawfulRegions.{Regions};
ghost use Rattle.cx_core.specs.LawfulRoot.{Root, RootBounds};
ghost use Rattle.cx_core.specs.State.{Instance};

/// DUR and what callers have seen and won with are at most CUR. CUR's place and those of downgraded replicas are at most the
/// history's end.
pub fn root_has_bounds()
    ensures { (instance : Instance) (history : _) (words : List ℕ) (locals : _) → Shape instance words locals → Locks instance.callers words locals →
        Regions instance history words locals → Root instance words locals → RootBounds instance history words locals }
{}

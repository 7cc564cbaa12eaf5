//! The opening state has the parts of the lawful state on locks and on regions, and each kind of step keeps them.

ghost use Rattle.std.specs.Prelude.{◌≡◌, ◌≤◌, []};
ghost use Rattle.core_replica.specs.Replicas.{KeepsReplicas, ReplicasLawful};
ghost use Rattle.cx_core.specs.Region.{place_of};
ghost use Rattle.cx_core.specs.State.{Instance, opening_locals, opening_words};

/// The opening state has the parts of `ReplicasLawful`, where the base's words have its place.
pub fn opening_has_the_replicas()
    ensures { (instance : Instance) → 1 ≤ instance.callers → place_of instance.base.words ≡ instance.base.place →
        ReplicasLawful instance [] (opening_words instance.callers instance.base) (opening_locals instance.callers instance.base.place) }
{}

/// Each step of any kind keeps the parts of `ReplicasLawful`: steps of the queue touch nothing that these parts name.
pub fn events_keep_the_replicas()
    ensures { (kind : _) → KeepsReplicas kind }
{}

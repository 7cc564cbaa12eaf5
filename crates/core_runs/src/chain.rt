//! What the chain of codes from DUR to CUR keeps from being written, and the replica that is free beside it.

ghost use Rattle.std.specs.Prelude.{◌≡◌, ℕ, Some, slice_get};
ghost use Rattle.std.specs.List.{Contains};
ghost use Rattle.cx_base.specs.Codes.{root_replica_of};
ghost use Rattle.core_replica.specs.Chain.{LeavesReplicas, SameWords};
ghost use Rattle.cx_core.specs.Chain.{IsCodeChain};
ghost use Rattle.cx_core.specs.Events.{Makes};
ghost use Rattle.cx_core.specs.Free.{HoldsNone, SomeFree};
ghost use Rattle.cx_core.specs.Lawful.{Lawful};
ghost use Rattle.cx_core.specs.LawfulRegions.{IsReplicaImage};
ghost use Rattle.cx_core.specs.State.{Instance, State};

/// In a lawful state each code of a chain names a replica that is the full image after its place, in both memories.
pub fn chains_name_images()
    ensures { (instance : Instance) (s : State) (codes : _) (code : ℕ) (law : Lawful instance s) → IsCodeChain s.words s.locals codes → Contains codes code →
        IsReplicaImage instance law.history s.words (root_replica_of instance.callers code) }
{}

/// No event stores to a replica that a code of the chain names, nor persists a word of it.
pub fn no_event_stores_to_the_chain()
    ensures { (instance : Instance) (before after : State) (event : _) (codes : _) (code : ℕ) → Lawful instance before →
        IsCodeChain before.words before.locals codes → Contains codes code → Makes instance event before after → LeavesReplicas event.kind (root_replica_of instance.callers code) }
{}

/// Each event leaves the words of the replicas that the codes of a chain name as they were, in both memories.
pub fn events_leave_the_chain()
    ensures { (instance : Instance) (before after : State) (event : _) (codes : _) (code : ℕ) → Lawful instance before →
        IsCodeChain before.words before.locals codes → Contains codes code → Makes instance event before after →
        SameWords instance before.words after.words (root_replica_of instance.callers code) }
{}

/// A caller that holds none has a free replica among the 2N.
pub fn some_replica_is_free()
    ensures { (instance : Instance) (s : State) (caller : ℕ) (l : _) → Lawful instance s → slice_get s.locals caller ≡ Some l → HoldsNone l → SomeFree instance.callers s.words }
{}

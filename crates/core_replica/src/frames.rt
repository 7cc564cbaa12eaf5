//! One framing law for each part: a step on a word that the part does not name, which changes no field that the part
//! names, keeps the part. Regions are also kept by a history that goes on.

ghost use Rattle.cx_core.specs.Frames.{Continues, StepApart};
ghost use Rattle.core_replica.specs.Frames.{OffLocks, OffRegions, SameHeld, SameRights};
ghost use Rattle.cx_core.specs.LawfulLocks.{Locks};
ghost use Rattle.cx_core.specs.LawfulRegions.{Regions};
ghost use Rattle.cx_core.specs.State.{Instance, State};

/// A step that stores neither CUR nor a lock word, and leaves its caller's rights on the replicas on which they were, keeps `Locks`.
pub fn locks_framed()
    ensures { (instance : Instance) (before after : State) → StepApart (OffLocks instance) SameRights before after →
        Locks instance.callers before.words before.locals → Locks instance.callers after.words after.locals }
{}

/// A step that stores no word of a replica, and leaves what its caller holds exclusively and shared as it was, keeps `Regions`.
pub fn regions_framed()
    ensures { (instance : Instance) (history : _) (before after : State) → StepApart (OffRegions instance) SameHeld before after →
        Regions instance history before.words before.locals → Regions instance history after.words after.locals }
{}

/// A history that goes on keeps `Regions`, since it has the same full images up to the old end.
pub fn regions_of_a_longer_history()
    ensures { (instance : Instance) (history longer : _) (s : State) → Continues history longer →
        Regions instance history s.words s.locals → Regions instance longer s.words s.locals }
{}

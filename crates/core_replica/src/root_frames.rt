//! The framing law of the root: a step on a word that the part does not name, which changes no field that it names, keeps it.

ghost use Rattle.std.specs.Prelude.{◌≤◌};
ghost use Rattle.core_replica.specs.RootFrames.{OffRoot, SameRoot};
ghost use Rattle.cx_core.specs.Frames.{StepApart};
ghost use Rattle.cx_core.specs.LawfulLocks.{Locks};
ghost use Rattle.cx_core.specs.LawfulRoot.{Root};
ghost use Rattle.cx_core.specs.State.{Instance, State};

/// Where `Locks` holds, a step that stores neither CUR, DUR nor the place word of a replica, leaves what its caller saw of CUR and its win as they were,
/// and leaves or ends its downgraded right, keeps `Root`.
pub fn root_framed()
    ensures { (instance : Instance) (before after : State) → StepApart (OffRoot instance) SameRoot before after → 1 ≤ instance.callers →
        Locks instance.callers before.words before.locals → Root instance before.words before.locals → Root instance after.words after.locals }
{}

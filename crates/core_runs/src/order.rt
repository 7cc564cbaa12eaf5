//! Real-time order in the runs of the core, however the callers' steps interleave.

ghost use Rattle.std.specs.Prelude.{◌≡◌, ◌+◌, ◌^◌, ◌≤◌, ℕ, Some, min, slice_get};
ghost use Rattle.core_runs.specs.Counting.{steps_of};
ghost use Rattle.core_runs.specs.Linearizable.{IsLinearizable};
ghost use Rattle.core_runs.specs.RealTime.{IsAhead, IsAnswered, IsBefore, IsPointOf, KeepsRealTime};
ghost use Rattle.cx_core.specs.Events.{Run};
ghost use Rattle.cx_core.specs.Lawful.{Lawful};
ghost use Rattle.cx_core.specs.Layout.{max_word};
ghost use Rattle.cx_core.specs.Region.{place_of};
ghost use Rattle.cx_core.specs.State.{Instance, State, opening_state};

/// Each step that a caller counts is one of the run's, and the run has no others of it, as far as the count goes, which stays at its type's end.
pub fn steps_are_counted()
    ensures { (instance : Instance) (events : _) (from to : State) (caller : ℕ) (l l' : _) → Run instance from events to → slice_get from.locals caller ≡ Some l → slice_get to.locals caller ≡ Some l' →
        l.steps ≤ max_word → l'.steps ≡ min (l.steps + steps_of caller events) max_word }
{}

/// From a lawful state on: what was answered in it stands before what had not begun in it.
pub fn moments_keep_real_time_order()
    ensures { (instance : Instance) (moment to : State) (events : _) (a b : _) (p q : _) → Lawful instance moment → Run instance moment events to →
        IsAnswered moment a → IsAhead moment b → IsPointOf to a p → IsPointOf to b q → IsBefore p q }
{}

/// Each run from a lawful state keeps the real-time order of its operations.
pub fn runs_keep_real_time_order()
    ensures { (instance : Instance) (from to : State) → Lawful instance from → KeepsRealTime instance from to }
{}

/// Each state that a run reaches from a lawful state is that of a linearizable object, and durably so, as far as operations began behind it.
pub fn lawful_states_go_on_linearizable()
    ensures { (instance : Instance) (events : _) (from to : State) → Lawful instance from → Run instance from events to → IsLinearizable instance from to }
{}

/// Each state that a run reaches from the opening state is that of a linearizable object, and durably so.
pub fn runs_are_linearizable()
    ensures { (instance : Instance) (events : _) (to : State) →
        1 ≤ instance.callers → instance.callers ≤ 8 → instance.base.place ≤ 2 ^ 40 → place_of instance.base.words ≡ instance.base.place →
        Run instance (opening_state instance.callers instance.base) events to → IsLinearizable instance (opening_state instance.callers instance.base) to }
{}

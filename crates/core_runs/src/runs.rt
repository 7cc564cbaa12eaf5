//! Every state of every run is lawful, however the callers' steps interleave.

ghost use Rattle.std.specs.Prelude.{◌≡◌, ◌^◌, ◌≤◌};
ghost use Rattle.cx_core.specs.Events.{Makes, Run};
ghost use Rattle.cx_core.specs.Lawful.{Lawful};
ghost use Rattle.cx_core.specs.Region.{place_of};
ghost use Rattle.cx_core.specs.State.{Instance, State, opening_state};

/// The opening state of 1 to 8 callers is lawful, where the base's place is at most 2^40 and stands in its words.
pub fn opening_is_lawful()
    ensures { (instance : Instance) → 1 ≤ instance.callers → instance.callers ≤ 8 → instance.base.place ≤ 2 ^ 40 →
        place_of instance.base.words ≡ instance.base.place → Lawful instance (opening_state instance.callers instance.base) }
{}

/// Each step of any kind leaves a lawful state.
pub fn event_keeps()
    ensures { (instance : Instance) (before after : State) (event : _) → Lawful instance before → Makes instance event before after → Lawful instance after }
{}

/// Each state that a run reaches from the opening state is lawful, whatever the object means.
pub fn runs_are_lawful()
    ensures { (instance : Instance) (events : _) (to : State) →
        1 ≤ instance.callers → instance.callers ≤ 8 → instance.base.place ≤ 2 ^ 40 → place_of instance.base.words ≡ instance.base.place →
        Run instance (opening_state instance.callers instance.base) events to → Lawful instance to }
{}

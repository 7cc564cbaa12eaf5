//! The laws of the rule.

ghost use Rattle.std.specs.Prelude.{◌≡◌, ◌++◌, ◌*◌, ◌^◌, ◌<◌, ℕ, List, length, Some, [], ◌∷◌, slice_get, slice_index};
ghost use mathlib.Core.Option.{some};
ghost use lib.ListN.{get_elem?};
ghost use Rattle.atomic_table.specs.Table.{State, keeps, stepped};
ghost use Rattle.cx_core.specs.Base.{LawfulBase};
ghost use Rattle.cx_core.specs.Events.{new_word, step_word};
ghost use Rattle.cx_core.specs.Gaps.{gap_of};
ghost use Rattle.cx_core.specs.Layout.{gap_slots};
ghost use Rattle.cx_core.specs.QueueEvents.{cell_of};
ghost use Rattle.cx_core.specs.Rights.{shared_on};
ghost use Rattle.cx_core.specs.SetEvents.{CanWriteSet, offer_of};
ghost use Rattle.cx_core.specs.State.{Instance};
ghost use Rattle.cx_core.specs.declared.kinds.Kind.TheVariants.{BackOff, NoteGap, Offer};
ghost use Rattle.table_invariant.specs.declared.rule.Known.{Known};
ghost use Rattle.table_invariant.specs.Having.{FitsThere};
ghost use Rattle.table_invariant.specs.Learns.{LearnsInAnyState, LearnsBy};
ghost use Rattle.table_invariant.specs.Listed.{AgreeListed, TellsGap};
ghost use Rattle.table_invariant.specs.Offers.{TellsOffer, TellsSet};
ghost use Rattle.table_invariant.specs.Rule.{RuleHolds};
ghost use Rattle.table_invariant.specs.Fitting.{TellsWords};
ghost use Rattle.table_invariant.specs.Seats.{known_kept};
ghost use Rattle.table_invariant.specs.Steps.{MayReleaseKnowing, IsImageLearned};

use cx_base::Object;
use cx_core::Base;

/// An event of the core, made by the seat of its caller, keeps the rule, of whatever kind it is: it has to be allowed in each lawful
/// state that the seat may stand before, and there the seat has to show afterwards what the event makes.
pub fn events_keep_the_rule()
    ensures { (instance : _) (kind : _) (s : State ℕ _) (seat : ℕ) (known after : Known) (word new : ℕ) → RuleHolds instance s → get_elem? s.views seat ≡ some (known ∷ []) → LearnsInAnyState instance s.words kind known word new after → RuleHolds instance (stepped s word new seat [] (after ∷ []) keeps) }
{}

/// The event stands then at the end of the list of the steps that all callers made, and the others stand as they stood: so the list that the rule
/// keeps has the steps in the order in which they were made.
pub fn events_are_recorded()
    ensures { (instance : _) (kind : _) (s : State ℕ _) (seat : ℕ) (known after : Known) (word new : ℕ) → (rule : RuleHolds instance s) → get_elem? s.views seat ≡ some (known ∷ []) → LearnsInAnyState instance s.words kind known word new after →
        (then_ : RuleHolds instance (stepped s word new seat [] (after ∷ []) keeps)) × (then_.reached.events ≡ rule.reached.events ++ record { caller = known.local.number; kind = kind } ∷ []) }
{}

/// What is really there fits what a seat knows, and it stays lawful through each entry and each write set that the seat has: those that it
/// read whole, and its caller's own.
pub fn what_is_there_fits<O: Object>(object: &O, base: &Base)
    requires { LawfulBase (O.line_count object.now) (O.lawful object.now) base.now }
    ensures { (callers : ℕ) (s : State ℕ _) (seat i : ℕ) (view : _) (known : Known) (l : _) → let instance : Instance = record { callers = callers; base = base.now; step = O.step object.now; reads = O.only_reads object.now } in
        (rule : RuleHolds instance s) → get_elem? s.views seat ≡ some view → slice_get view i ≡ Some known → slice_get rule.locals known.local.number ≡ Some l →
        FitsThere (O.line_count object.now) (O.lawful object.now) base.now (O.step object.now) known l }
{}

/// A set that a caller wrote into the cell of its own entry may be offered, where whatever fits what its seat knows tells that the set is one
/// of the entry's ticket.
pub fn known_sets_may_be_offered<O: Object>(object: &O, base: &Base)
    requires { LawfulBase (O.line_count object.now) (O.lawful object.now) base.now }
    ensures { (callers j : ℕ) (known : Known) → let instance : Instance = record { callers = callers; base = base.now; step = O.step object.now; reads = O.only_reads object.now } in
        CanWriteSet known.local j → TellsOffer (O.line_count object.now) (O.lawful object.now) base.now (O.step object.now) known j →
        LearnsBy instance (λ _. Offer j) known (step_word instance (Offer j) known.local) (λ _. offer_of (cell_of known.local j).ticket (cell_of known.local j).offer) }
{}

/// A set may be kept by the caller of its entry, where whatever fits what the caller's seat knows tells that the set is one of the ticket. No event is
/// made, and each word of the table stays as it is.
pub fn known_sets_may_be_kept<O: Object>(object: &O, base: &Base)
    requires { LawfulBase (O.line_count object.now) (O.lawful object.now) base.now }
    ensures { (callers ticket word : ℕ) (set : List ℕ) (s : State ℕ _) (seat : ℕ) (known : Known) → let instance : Instance = record { callers = callers; base = base.now; step = O.step object.now; reads = O.only_reads object.now } in
        RuleHolds instance s → get_elem? s.views seat ≡ some (known ∷ []) → TellsSet (O.line_count object.now) (O.lawful object.now) base.now (O.step object.now) known ticket set →
        RuleHolds instance (stepped s word (slice_index s.words word) seat [] (known_kept ticket set known ∷ []) keeps) }
{}

/// A gap of a ticket may be noted in the ring, where whatever fits what a caller's seat knows tells a write set of the ticket that has no address
/// in the gap.
pub fn known_gaps_may_be_noted<O: Object>(object: &O, base: &Base)
    requires { LawfulBase (O.line_count object.now) (O.lawful object.now) base.now }
    ensures { (callers s i v : ℕ) (known : Known) (set : List ℕ) → let instance : Instance = record { callers = callers; base = base.now; step = O.step object.now; reads = O.only_reads object.now } in
        s < gap_slots callers → i < 16 → v < 2 ^ 64 → TellsGap (O.line_count object.now) (O.lawful object.now) base.now (O.step object.now) known (gap_of callers s v) set →
        LearnsBy instance (λ _. NoteGap s i v) known (step_word instance (NoteGap s i v) known.local) (λ _. v) }
{}

/// The release of a shared right of which the listed lines alone were copied makes the words loaded those that are noted of the replica held
/// exclusively, as the release of one that was copied whole does: gaps that were loaded lead over each line that was not copied.
pub fn listed_copies_are_learned()
    ensures { (instance : Instance) (r : ℕ) (known : Known) (lines from to : ℕ) (lists : ℕ → List ℕ) →
        r < 2 * instance.callers → shared_on known.local ≡ Some r → length instance.base.words ≡ 8 * lines → AgreeListed instance known lines from to lists →
        MayReleaseKnowing instance (BackOff r) known (step_word instance (BackOff r) known.local) (λ x. new_word instance (BackOff r) known.local x) }
{}

/// The release of a shared right on a replica all of whose words were loaded makes these one image more that the caller took: they are the full
/// image after their place.
pub fn loaded_images_are_learned()
    ensures { (instance : Instance) (r : ℕ) (image : List ℕ) (known : Known) →
        r < 2 * instance.callers → shared_on known.local ≡ Some r → TellsWords known (length instance.base.words) image →
        IsImageLearned instance (BackOff r) image known (step_word instance (BackOff r) known.local) (λ x. new_word instance (BackOff r) known.local x) }
{}

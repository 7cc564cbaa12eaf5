//! What the lawful state says of write sets: of those that are offered at a live ticket, and of those in a caller's own cells.

ghost use Rattle.std.specs.Prelude.{ℕ};
ghost use Rattle.core_queue.specs.Live.{IsLiveIn};
ghost use Rattle.core_queue.specs.NotedSets.{IsOfferedAt, OwnSetsHold, SetNotesHold, SetStays};
ghost use Rattle.core_queue.specs.Queue.{QueueLawful};
ghost use Rattle.cx_core.specs.Events.{Makes};
ghost use Rattle.cx_core.specs.Frames.{Continues};
ghost use Rattle.cx_core.specs.State.{EachLocal, Instance, State};

/// Where the entry of a live ticket is offered, no event changes the ticket's link slot, its offer or a word of its set.
pub fn offered_sets_stay()
    ensures { (instance : Instance) (history : _) (before after : State) (event : _) (t : ℕ) (e : _) → QueueLawful instance history before.words before.locals →
        IsLiveIn instance before history t e → IsOfferedAt instance before t → Makes instance event before after → SetStays instance before after t }
{}

/// A cell that is offered with the ticket that it still has has a write set of that ticket, whether the ticket is live or not, and each
/// event leaves it so.
pub fn own_sets_stay()
    ensures { (instance : Instance) (history later : _) (before after : State) (event : _) → QueueLawful instance history before.words before.locals →
        EachLocal before.locals (λ _ l. OwnSetsHold instance history l.cells) → Makes instance event before after → Continues history later →
        EachLocal after.locals (λ _ l. OwnSetsHold instance later l.cells) }
{}

/// What was noted of sets stays so: a word stands as long as its ticket is live, and a set that was read whole is a write set of its
/// ticket from then on.
pub fn set_notes_stay()
    ensures { (instance : Instance) (history later : _) (before after : State) (event : _) (notes : _) → QueueLawful instance history before.words before.locals →
        SetNotesHold instance before history notes → Makes instance event before after → Continues history later →
        SetNotesHold instance after later notes }
{}

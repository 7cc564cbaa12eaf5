//! One framing law for each part of the lawful state: a step on a word that the part does not name, which changes no
//! field that the part names, keeps the part.

ghost use Rattle.core_queue.specs.Frames.{OffCells, OffFronts, OffLinks, OffQueue, OffRing, SameCells, SameFront, SameQueue, SameRing, SameTickets};
ghost use Rattle.cx_core.specs.Frames.{AnyLocal, AnyWord, StepApart};
ghost use Rattle.core_queue.specs.Queue.{QueueLawful};
ghost use Rattle.cx_core.specs.Lawful.{Cells, Fronts, Links, Shape, Tickets};
ghost use Rattle.cx_core.specs.LawfulRing.{Ring};
ghost use Rattle.cx_core.specs.State.{Instance, State};

/// A step that leaves its caller's own list and answers as they were keeps `Tickets`, whichever word it stores.
pub fn tickets_framed()
    ensures { (instance : Instance) (history : _) (before after : State) → StepApart AnyWord SameTickets before after →
        Tickets instance history before.locals → Tickets instance history after.locals }
{}

/// A step that stores no link word keeps `Links`, whatever it changes of its caller's local state.
pub fn links_framed()
    ensures { (instance : Instance) (history : _) (before after : State) → StepApart (OffLinks instance) AnyLocal before after →
        Links instance history before.words → Links instance history after.words }
{}

/// Where `Shape` holds, a step that stores neither FREE nor a word of the links, cells, offers and sets, and leaves its caller's cells and what it saw of
/// slots and offers as they were, keeps `Cells`.
pub fn cells_framed()
    ensures { (instance : Instance) (history : _) (before after : State) → StepApart (OffCells instance) SameCells before after →
        Shape instance before.words before.locals → Cells instance history before.words before.locals →
        Cells instance history after.words after.locals }
{}

/// A step that stores neither DUR, LOW nor FREE, and leaves the fields of `SameFront` as they were, keeps `Fronts`.
pub fn fronts_framed()
    ensures { (instance : Instance) (history : _) (before after : State) → StepApart OffFronts SameFront before after →
        Fronts instance history before.words before.locals → Fronts instance history after.words after.locals }
{}

/// Where `Shape` holds, a step that stores neither CUR, LOW, FREE nor the need of a caller, and leaves its caller's protection and scan as they were, keeps
/// `Ring`.
pub fn ring_framed()
    ensures { (instance : Instance) (before after : State) → StepApart (OffRing instance) SameRing before after →
        Shape instance before.words before.locals → Ring instance before.words before.locals → Ring instance after.words after.locals }
{}

/// A step that stores a lock word, or a word of gaps or replicas, and leaves the fields of `SameQueue` as they were, keeps `QueueLawful`: all five parts
/// and `Shape`.
pub fn queue_framed()
    ensures { (instance : Instance) (history : _) (before after : State) → StepApart (OffQueue instance) SameQueue before after →
        QueueLawful instance history before.words before.locals → QueueLawful instance history after.words after.locals }
{}

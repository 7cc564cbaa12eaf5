//! What the lawful state says of live tickets, which are the linked ones at or above FREE, and of those that a protection keeps.

ghost use Rattle.std.specs.Prelude.{◌≡◌, ◌≤◌, ◌∷◌, ℕ, slice_index};
ghost use Rattle.core_queue.specs.Live.{CellStays, HasLive, IsLiveIn, KeepsTicket, MayReadWord, named_cell};
ghost use Rattle.core_queue.specs.Queue.{QueueLawful};
ghost use Rattle.cx_core.specs.Events.{Makes};
ghost use Rattle.cx_core.specs.Layout.{cell_at};
ghost use Rattle.cx_core.specs.Lawful.{Lawful};
ghost use Rattle.cx_core.specs.Merge.{IsLinked};
ghost use Rattle.cx_core.specs.State.{Instance, State};

/// No two live tickets share a cell.
pub fn live_tickets_apart()
    ensures { (instance : Instance) (s : State) (law : Lawful instance s) (t u : ℕ) (e f : _) →
        IsLiveIn instance s law.history t e → IsLiveIn instance s law.history u f →
        named_cell instance s t ≡ named_cell instance s u → t ≡ u }
{}

/// No caller has more than 16 live tickets.
pub fn callers_have_few_live_tickets()
    ensures { (instance : Instance) (s : State) (law : Lawful instance s) (caller count : ℕ) →
        HasLive instance s law.history caller count → count ≤ 16 }
{}

/// Where a caller may load a word of a cell for a live ticket, the word there is that of the history's entry.
pub fn reads_give_the_entry()
    ensures { (instance : Instance) (s : State) (law : Lawful instance s) (caller t k i : ℕ) (e : _) →
        MayReadWord instance s caller t k i → IsLiveIn instance s law.history t e →
        slice_index s.words (cell_at instance.callers k i) ≡ slice_index (e.number ∷ e.op) i }
{}

/// A linked ticket at or above a confirmed protection, of any caller, is live.
pub fn protected_tickets_are_live()
    ensures { (instance : Instance) (s : State) (history : _) (caller t : ℕ) (e : _) → QueueLawful instance history s.words s.locals →
        KeepsTicket s caller t → IsLinked instance.base.place history t e → IsLiveIn instance s history t e }
{}

/// No event stores to a word of the cell of a linked ticket that a caller's protection keeps, nor changes the ticket's link slot.
pub fn protected_cells_stay()
    ensures { (instance : Instance) (history : _) (before after : State) (event : _) (caller t : ℕ) (e : _) → QueueLawful instance history before.words before.locals →
        KeepsTicket before caller t → IsLinked instance.base.place history t e → Makes instance event before after → CellStays instance before after t }
{}

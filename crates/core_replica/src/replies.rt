//! What answers tell their callers.

ghost use Rattle.std.specs.Prelude.{◌≡◌, ◌+◌, ◌<◌, ◌≤◌, ◌↔◌, ◌++◌, ℕ, Some, length, slice_get};
ghost use Rattle.core_replica.specs.Replies.{IsReplyToOwn, StillAnswered};
ghost use Rattle.cx_core.specs.Events.{Run};
ghost use Rattle.cx_core.specs.History.{reply_at};
ghost use Rattle.cx_core.specs.Lawful.{Tickets};
ghost use Rattle.cx_core.specs.LawfulAnswers.{Answers, durable_place};
ghost use Rattle.cx_core.specs.Region.{object_part};
ghost use Rattle.cx_core.specs.RootEvents.{reply_after};
ghost use Rattle.cx_core.specs.State.{Instance, State};

/// Each answer of a caller is to its own entry with the same index: the object's reply after all entries with lower tickets.
pub fn answers_are_to_own_entries()
    ensures { (instance : Instance) (history : _) (s : State) (caller i : ℕ) (l x : _) → Tickets instance history s.locals → Answers instance history s.words s.locals →
        slice_get s.locals caller ≡ Some l → slice_get l.answered i ≡ Some x → IsReplyToOwn instance history l i x }
{}

/// Along each run, no answer is taken back.
pub fn answers_are_never_taken_back()
    ensures { (instance : Instance) (events : _) (from to : State) (caller : ℕ) (l : _) → Run instance from events to →
        slice_get from.locals caller ≡ Some l → StillAnswered to caller l }
{}

/// A caller's answers have rising tickets.
pub fn answers_rise()
    ensures { (instance : Instance) (history : _) (s : State) (caller i j : ℕ) (l x y : _) → Tickets instance history s.locals → slice_get s.locals caller ≡ Some l →
        slice_get l.answered i ≡ Some x → slice_get l.answered j ≡ Some y → i < j → x.ticket < y.ticket }
{}

/// An answer stays the history's reply, however the history goes on.
pub fn answers_stay()
    ensures { (instance : Instance) (history more : _) (s : State) (caller i : ℕ) (l x : _) → Answers instance history s.words s.locals →
        slice_get s.locals caller ≡ Some l → slice_get l.answered i ≡ Some x →
        reply_at instance.step instance.base.place (object_part instance.base.words) (history ++ more) x.ticket ≡ Some x.reply }
{}

/// An answered read stays the object's reply at its place, however the history goes on, where DUR's place is at most its end.
pub fn reads_stay()
    ensures { (instance : Instance) (history more : _) (s : State) (caller i : ℕ) (l x : _) → durable_place instance s.words ≤ instance.base.place + length history →
        Answers instance history s.words s.locals → slice_get s.locals caller ≡ Some l → slice_get l.seen_reads i ≡ Some x →
        x.reply ≡ reply_after instance (history ++ more) x.place x.op }
{}

/// An answered read is after those of its caller's own entries that it counts, and before the others.
pub fn reads_count_own_entries()
    ensures { (instance : Instance) (history : _) (s : State) (caller n i : ℕ) (l x y : _) → Answers instance history s.words s.locals →
        slice_get s.locals caller ≡ Some l → slice_get l.seen_reads n ≡ Some x → slice_get l.own i ≡ Some y → (y.ticket < x.place) ↔ (i < x.before) }
{}

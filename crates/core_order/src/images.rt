//! What an image that a caller takes rests on: the code in CUR, and the raise of DUR by it.

ghost use Rattle.std.specs.Prelude.{◌≡◌, ◌<◌, ◌≤◌, ℕ, Some, slice_get, slice_index};
ghost use Rattle.cx_base.specs.Codes.{root_place_of};
ghost use Rattle.cx_core.specs.declared.local.Answer.{Answer};
ghost use Rattle.cx_core.specs.declared.local.SeenRead.{SeenRead};
ghost use Rattle.cx_core.specs.Crash.{IsCrashImage, recovered};
ghost use Rattle.cx_core.specs.Events.{Run};
ghost use Rattle.cx_core.specs.Lawful.{Lawful};
ghost use Rattle.cx_core.specs.Layout.{cur_at};
ghost use Rattle.cx_core.specs.State.{EachLocal, Instance, State};

/// The place of the greatest code that a caller raised DUR by stays durable: whatever a crash leaves from then on, what is recovered of it has that
/// place or a later one.
pub fn raised_places_stay_durable()
    ensures { (instance : Instance) (s to : State) (events : _) (caller : ℕ) (l : _) (image : _) → Lawful instance s → slice_get s.locals caller ≡ Some l → Run instance s events to → IsCrashImage instance to image →
        root_place_of instance.callers l.raised ≤ (recovered instance image).place }
{}

/// Whatever any caller was answered is below the place of the code that stands in CUR. So a load of CUR finds a place above all that was answered before it.
pub fn current_places_have_what_was_answered()
    ensures { (instance : Instance) (s : State) → Lawful instance s → EachLocal s.locals (λ _ l.
        ((i : ℕ) (x : Answer) → slice_get l.answered i ≡ Some x → x.ticket < root_place_of instance.callers (slice_index s.words cur_at))
        × ((i : ℕ) (x : SeenRead) → slice_get l.seen_reads i ≡ Some x → x.place ≤ root_place_of instance.callers (slice_index s.words cur_at))) }
{}

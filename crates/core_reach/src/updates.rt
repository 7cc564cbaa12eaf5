//! An update can be answered.

ghost use Rattle.std.specs.Prelude.{◌≡◌, ◌^◌, ◌<◌, ◌≤◌, ℕ, List, Some, length, slice_get};
ghost use Rattle.core_reach.specs.Reaching.{AreOpWords, HasCellAndTicket, ReachesAnswers, ReachesUpdate, history_in, next_ticket};
ghost use Rattle.cx_core.specs.Base.{LawfulBase};
ghost use Rattle.cx_core.specs.Events.{Run};
ghost use Rattle.cx_core.specs.Lawful.{Lawful};
ghost use Rattle.cx_core.specs.Region.{slot_number};
ghost use Rattle.cx_core.specs.State.{Instance, State, opening_state};

use cx_base::Object;
use cx_core::Base;

/// From each lawful state `s` over a base with words, whatever the callers hold, some run answers each linked entry of a caller, and links no other;
/// `l` is the caller's local state in `s`. The caller puts down each right but an exclusive one, makes a replica the full image after the whole
/// history, publishes it, and raises DUR by its code. Where CUR already names a replica at the history's end, it publishes none, and raises DUR by
/// the code in CUR.
pub fn linked_updates_can_be_answered()
    ensures { (instance : Instance) (s : State) (caller : ℕ) (l : _) → Lawful instance s → slice_get s.locals caller ≡ Some l →
        0 < length instance.base.words → ReachesAnswers instance s caller (history_in instance s) l.own }
{}

/// From each lawful state `s` over a base with words, whatever the callers hold, some run links an update of a caller, of the words `op` of any
/// operation, and answers it with the object's reply after all entries before it; `l` is the caller's local state in `s`. The update takes a further
/// ticket, and a cell with no ticket or one of the history. The run opens the cells: each caller takes its protection back, and this one raises FREE.
/// The number of the caller's last entry in the base is at most the base's place.
pub fn updates_can_be_answered()
    ensures { (instance : Instance) (s : State) (caller : ℕ) (l : _) (op : List ℕ) → Lawful instance s → slice_get s.locals caller ≡ Some l →
        HasCellAndTicket instance s l → 0 < length instance.base.words → slot_number caller instance.base.words ≤ instance.base.place →
        AreOpWords op → ReachesUpdate instance s caller l op }
{}

/// In each state `s` that a run of `events` from the opening reaches, over any object with a lawful base, some run answers an update of any caller,
/// of the words `op` of any operation, as long as there is a further ticket. There are 1 to 8 callers. `instance` has their number, the base, and
/// what the object's operations do; `l` is the caller's local state in `s`.
pub fn every_update_can_be_answered<O: Object>(object: &O, base: &Base)
    requires { LawfulBase (O.line_count object.now) (O.lawful object.now) base.now }
    ensures { (callers : ℕ) (events : _) (s : State) (caller : ℕ) (l : _) (op : List ℕ) →
        let instance : Instance = record { callers = callers; base = base.now; step = O.step object.now; reads = O.only_reads object.now } in
        1 ≤ callers → callers ≤ 8 → Run instance (opening_state callers base.now) events s → slice_get s.locals caller ≡ Some l →
        next_ticket instance s < 2 ^ 40 → AreOpWords op → ReachesUpdate instance s caller l op }
{}

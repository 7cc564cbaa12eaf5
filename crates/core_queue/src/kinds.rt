//! The opening state has the parts of the lawful state on tickets, links, cells, fronts and the ring, and each kind of step
//! keeps them, where what callers have seen of the root is within it. The history stays but for a link that wins, which adds its
//! entry at the end.

ghost use Rattle.std.specs.Prelude.{◌^◌, ◌≤◌, []};
ghost use Rattle.core_queue.specs.Queue.{KeepsQueue, QueueLawful};
ghost use Rattle.cx_core.specs.State.{Instance, opening_locals, opening_words};

/// The opening state of 1 to 8 callers has all parts of `QueueLawful`, where the base's place is at most 2^40.
pub fn opening_has_the_queue()
    ensures { (instance : Instance) → 1 ≤ instance.callers → instance.callers ≤ 8 → instance.base.place ≤ 2 ^ 40 →
        QueueLawful instance [] (opening_words instance.callers instance.base) (opening_locals instance.callers instance.base.place) }
{}

/// Each step of any kind keeps the parts of `QueueLawful`: steps on locks and on the words of replicas touch nothing that these parts name.
pub fn events_keep_the_queue()
    ensures { (kind : _) → KeepsQueue kind }
{}

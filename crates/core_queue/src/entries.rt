//! What the lawful state says of the entries of its history.

ghost use Rattle.std.specs.Prelude.{◌<◌, ◌≤◌, ℕ};
ghost use Rattle.core_queue.specs.Queue.{QueueLawful};
ghost use Rattle.cx_core.specs.History.{AreLawful};
ghost use Rattle.cx_core.specs.Region.{slot_number};
ghost use Rattle.cx_core.specs.State.{Instance};

/// Where no number in the base is above its place, each entry is one that a lawful base may take at the entry's place.
pub fn entries_are_lawful()
    ensures { (instance : Instance) (history : _) (words : _) (locals : _) → QueueLawful instance history words locals →
        ((caller : ℕ) → caller < 8 → slot_number caller instance.base.words ≤ instance.base.place) →
        AreLawful instance.base.place history }
{}

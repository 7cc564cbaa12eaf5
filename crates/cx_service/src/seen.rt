//! What a caller does that has seen a place: it links no entry below it and reads nothing below it. Each law is the contract of a function that
//! does nothing.

ghost use Rattle.std.specs.Prelude.{◌≤◌, ◌+◌, List, ℕ};
ghost use Rattle.cx_core.specs.declared.local.Answer.{Answer};
ghost use Rattle.table_invariant.specs.Running.{Running};
ghost use Rattle.table_invariant.specs.Seats.{Seated};
ghost use Rattle.cx_service.specs.Callers.{IsCallerOf};
ghost use Rattle.cx_service.specs.CatchUps.{CatchUpSees, CatchesUp, HasSeen, ReadSees, UpdateSees};
ghost use Rattle.cx_service.specs.Checkpoints.{CheckpointTaken};
ghost use Rattle.cx_service.specs.Drives.{DriveDone};
ghost use Rattle.cx_service.specs.Lookups.{ReadAnswered, ReadKeeps};
ghost use Rattle.cx_service.specs.Submits.{SubmitKeeps, SubmitLinked};
ghost use Rattle.cx_service.specs.Updates.{ReadOutcome, UpdateDone, Updates};
ghost use Rattle.cx_service.specs.declared.catch_up.CaughtUp.{CaughtUp};
ghost use Rattle.cx_service.specs.declared.update.ReadDone.{ReadDone};
ghost use Rattle.cx_service.specs.declared.update.Updated.{Updated};
ghost use Rattle.cx_attempts.specs.declared.lookup.Seen.{Seen};

use cx_base::Object;

/// The law that the update of a caller which has seen a place is answered at a ticket at or above it, and that the caller has seen the place still.
pub fn updates_stand_behind_what_was_seen<O: Object>()
    ensures { (r : Running O) (op : List ℕ) (place : ℕ) (before after : Seated) (answer : Answer) → HasSeen r.callers place before.known.local → UpdateDone r op before after answer →
        (place ≤ answer.ticket) × HasSeen r.callers place after.known.local }
{}

/// The law that the read of a caller which has seen a place is answered at that place or above it, and that the caller has seen the place still.
pub fn reads_stand_behind_what_was_seen<O: Object>()
    ensures { (r : Running O) (op : List ℕ) (place : ℕ) (before after : Seated) (seen : Seen) → HasSeen r.callers place before.known.local → ReadAnswered r op before after seen →
        (place ≤ seen.place) × HasSeen r.callers place after.known.local }
{}

/// The law that an image taken by a caller which has seen a place is at that place or above it, and that the caller has seen both places then.
pub fn checkpoints_stand_behind_what_was_seen<O: Object>()
    ensures behind { (r : Running O) (words : List ℕ) (place at : ℕ) (before after : Seated) → HasSeen r.callers place before.known.local → CheckpointTaken O.Object r words at before after →
        (place ≤ at) × HasSeen r.callers place after.known.local }
    ensures seen { (r : Running O) (words : List ℕ) (at : ℕ) (before after : Seated) → CheckpointTaken O.Object r words at before after → HasSeen r.callers at after.known.local }
{}

/// A caller whose update was answered has seen each place up to the one behind the update's ticket.
pub fn answered_updates_are_seen<O: Object>()
    ensures { (r : Running O) (op : List ℕ) (before after : Seated) (answer : Answer) → UpdateDone r op before after answer → HasSeen r.callers (answer.ticket + 1) after.known.local }
{}

/// A caller whose read was answered has seen the read's place.
pub fn answered_reads_are_seen<O: Object>()
    ensures { (r : Running O) (op : List ℕ) (before after : Seated) (seen : Seen) → ReadAnswered r op before after seen → HasSeen r.callers seen.place after.known.local }
{}

/// Whatever a submit answers, its caller has seen still what it had seen before, and an entry that the submit linked has a ticket at or above each
/// place that the caller had seen.
pub fn submits_stand_behind_what_was_seen<O: Object>()
    ensures linked { (r : Running O) (op : List ℕ) (most place : ℕ) (before after : Seated) → HasSeen r.callers place before.known.local → (links : SubmitLinked r op most before after) → place ≤ links.ticket }
    ensures seen { (r : Running O) (most place : ℕ) (before after : Seated) → IsCallerOf r before → HasSeen r.callers place before.known.local → SubmitKeeps most before after → HasSeen r.callers place after.known.local }
{}

/// Whatever a read beside the queue answers, what was seen before has been seen still.
pub fn reads_keep_what_was_seen<O: Object>()
    ensures { (r : Running O) (place : ℕ) (before after : Seated) → IsCallerOf r before → HasSeen r.callers place before.known.local → ReadKeeps before after → HasSeen r.callers place after.known.local }
{}

/// Once an entry is answered, its caller has seen each place up to the one behind the entry's ticket.
pub fn driven_entries_are_seen<O: Object>()
    ensures { (r : Running O) (place : ℕ) (before after : Seated) (answer : Answer) → place ≤ answer.ticket + 1 → DriveDone r before after answer → HasSeen r.callers place after.known.local }
{}

/// An update that is answered stands at or above each place that its caller had seen. Whatever an update returns, the caller has seen each of these
/// places still, unless the caller is stopped.
pub fn updates_keep_what_was_seen<O: Object>()
    ensures { (r : Running O) (op reply : List ℕ) (place : ℕ) (before : Seated) (updated : Updated) → IsCallerOf r before → HasSeen r.callers place before.known.local → Updates r op reply before updated → UpdateSees r.callers place updated }
{}

/// A read that is answered, beside the queue or as an entry of it, stands at or above each place that its caller had seen. Whatever a read returns,
/// the caller has seen each of these places still, unless the caller is stopped.
pub fn queued_reads_keep_what_was_seen<O: Object>()
    ensures { (r : Running O) (op reply : List ℕ) (place : ℕ) (before : Seated) (done : ReadDone) → IsCallerOf r before → HasSeen r.callers place before.known.local → ReadOutcome r op reply before done → ReadSees r.callers place done }
{}

/// Catching up with another place, which may be a lower one, leaves its caller with what it had seen before, unless the caller is stopped.
pub fn catch_ups_keep_what_was_seen<O: Object>()
    ensures { (r : Running O) (other place : ℕ) (before : Seated) (caught : CaughtUp) → IsCallerOf r before → HasSeen r.callers place before.known.local → CatchesUp r other before caught → CatchUpSees r.callers place caught }
{}

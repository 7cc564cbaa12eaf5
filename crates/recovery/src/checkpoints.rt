//! The law on images that callers took of a running table, known once the table is closed. It is the contract of a function that does nothing.

ghost use Rattle.std.specs.Prelude.{◌≡◌, ℕ, List, All, Some, slice_get};
ghost use Rattle.table_invariant.specs.Running.{Running, instance_at};
ghost use Rattle.table_invariant.specs.Seats.{Seated};
ghost use Rattle.cx_table.specs.Remains.{ClosingWitness};
ghost use Rattle.recovery.specs.Taken.{IsCheckpoint};
ghost use Rattle.recovery.specs.Kept.{IsOpened};

use cx_base::Object;

/// The law that each image which a caller took is a base of the history that the table was closed with: a service may start from it, it holds each
/// caller's last entry below its place, and the entries from the place on lead from it to what the whole history leads to.
pub fn base_of_checkpoint<O: Object>()
    ensures { (table : Running O) (seats : List Seated) (r : _) → IsOpened O.line_count O.lawful table → ClosingWitness table (instance_at table O.step O.only_reads) seats r →
        All (λ (s : Seated). (i : ℕ) (words : List ℕ) → slice_get s.known.images i ≡ Some words → IsCheckpoint O.line_count O.lawful O.step table r.trail.history words) seats }
{}

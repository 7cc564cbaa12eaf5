//! What a closed table tells of the order of its callers' operations.

ghost use Rattle.std.specs.Prelude.{List};
ghost use Rattle.table_invariant.specs.Running.{IsTableWithinLimits, Running, instance_at};
ghost use Rattle.table_invariant.specs.Seats.{Seated};
ghost use Rattle.cx_table.specs.Remains.{ClosingWitness};
ghost use Rattle.cx_table.specs.declared.remains.Remains.{Remains};
ghost use Rattle.cx_service.specs.ClosedOrder.{IsLinearizedBy};

use core_order::one_order::runs_have_one_order;
use cx_base::Object;

/// What a table leaves was reached by the steps of all its callers, one after another, in the order in which they were made. By that order it is
/// what a linearizable object leaves, with the history of the trail: each answer is the object's there, what was answered before something else
/// began stands before it, and whatever a crash leaves has all that was answered. For each operation its caller's seat has two counts
/// of the caller's steps: the operation was answered when the caller had made the one number of steps, and had not begun when it had made the other.
/// Where by these counts, in the order of all steps, one operation ended before another one began, it stands before it in the history (`KeepsCalls`).
pub fn closed_tables_are_linearizable<O: Object>()
    ensures { (table : Running O) (seats : List Seated) (r : Remains) → IsTableWithinLimits O.line_count O.lawful table →
        (leaves : ClosingWitness table (instance_at table O.step O.only_reads) seats r) → IsLinearizedBy leaves }
{
    runs_have_one_order::<O>();
}

//! A law of the lives of a queue.

ghost use Rattle.std.specs.Prelude.{◌≡◌, ℕ, List, Some, slice_get, take};
ghost use Rattle.table_invariant.specs.Ending.{Ending};
ghost use Rattle.fifo_commands.specs.declared.record.FifoLife.{FifoLife};
ghost use Rattle.fifo_commands.specs.Results.{HasResultsOf};
ghost use Rattle.fifo_commands.specs.Runs.{HaveFifoLived};
ghost use Rattle.fifo_commands.specs.declared.runs.FifoLived.{FifoLived};

/// The service of each life began with the results of all lives before it: for each client the number of its kept entries, and the reply
/// to the last of them.
pub fn lives_begin_with_results()
    ensures { (lines : ℕ) (lives : List FifoLife) (lived : FifoLived) → HaveFifoLived lines lives lived →
        (i : ℕ) (trail : Ending) → slice_get lived.trails i ≡ Some trail → HasResultsOf (take i lived.records) trail.base }
{}

//! A law of the reports of a queue's lives.

ghost use Rattle.std.specs.Prelude.{◌≡◌, ◌++◌, ℕ, List, []};
ghost use Rattle.table_invariant.specs.Ending.{Ending};
ghost use Rattle.fifo_commands.specs.FifoLives.{items_left, kept_ops};
ghost use Rattle.fifo_commands.specs.declared.record.FifoScript.{FifoScript};
ghost use Rattle.fifo_object.specs.Queue.{all_popped, all_pushed};
ghost use Rattle.fifo_commands.specs.Texts.{IsFifoReport};

use crate::lives::lives_keep_their_order;

/// What was pushed comes out once and in order, over all crashes: of the lives in a report, the texts of the kept pops
/// that were given an item, followed by the items that are left, are the texts of the kept pushes that were taken.
pub fn reports_keep_their_order()
    ensures { (script : FifoScript) (trails : List Ending) (text : List ℕ) (is_report : IsFifoReport script trails text) →
        all_pushed script.lines [] (kept_ops script.lives is_report.records)
        ≡ all_popped script.lines [] (kept_ops script.lives is_report.records) ++ items_left script.lines script.lives is_report.records }
{
    lives_keep_their_order();
}

//! The laws of the lives of a queue.

ghost use Rattle.std.specs.Prelude.{◌≡◌, ◌++◌, ℕ, List, []};
ghost use Rattle.fifo_object.specs.Queue.{Queue, all_popped, all_pushed};
ghost use Rattle.fifo_object.specs.declared.operations.FifoReply.{FifoReply};
ghost use Rattle.fifo_object.specs.FifoMeaning.{fifo_meaning};
ghost use Rattle.life_records.specs.Lives.{IsLegalLife};
ghost use Rattle.life_records.specs.Records.{LifeRecord};
ghost use Rattle.fifo_commands.specs.FifoLives.{AreFifoLives, IsFifoLife, items_left, kept_ops, uncut};
ghost use Rattle.fifo_commands.specs.Leaving.{without_cuts};
ghost use Rattle.fifo_commands.specs.declared.record.FifoLife.{FifoLife};
ghost use Rattle.fifo_commands.specs.declared.record.FifoRecord.{FifoRecord};

/// A legal life without cuts has no stop line and no full line, and its record without these is one of a life of the queue.
pub fn uncut_lives_are_fifo_lives()
    ensures { (lines place : ℕ) (queue : Queue) (life : FifoLife) (report : LifeRecord FifoReply) →
        IsLegalLife (fifo_meaning lines) place queue (uncut life) report → IsFifoLife lines place queue life (without_cuts report) }
{}

/// Over all lives, the texts of the kept pops that were given an item, followed by the items that are left at the end, are the texts of
/// the kept pushes that were taken, in order.
pub fn lives_keep_their_order()
    ensures { (lines : ℕ) (lives : List FifoLife) (records : List FifoRecord) → AreFifoLives lines lives records →
        all_pushed lines [] (kept_ops lives records) ≡ all_popped lines [] (kept_ops lives records) ++ items_left lines lives records }
{}

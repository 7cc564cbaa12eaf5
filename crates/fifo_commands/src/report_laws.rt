//! What is known of records that are reported.

ghost use Rattle.std.specs.Prelude.{List};
ghost use Rattle.fifo_commands.specs.FifoLives.{AreFifoLives};
ghost use Rattle.fifo_commands.specs.declared.record.FifoRecord.{FifoRecord};
ghost use Rattle.fifo_commands.specs.declared.record.FifoScript.{FifoScript};
ghost use Rattle.fifo_commands.specs.Report.{NameFifoCommands};

/// The records of legal lives of a queue can be reported: there is one for each life of the script, and its lines name commands of it.
pub fn legal_lives_can_be_reported()
    ensures { (script : FifoScript) (records : List FifoRecord) → AreFifoLives script.lines script.lives records → NameFifoCommands script records }
{}

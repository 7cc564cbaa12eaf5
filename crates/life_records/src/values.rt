//! What the types of a life and of a record say of their numbers and texts. Each call reads the value once.

ghost use Rattle.std.specs.Prelude.{All, IfSome};
ghost use Rattle.life_records.specs.Replies.{HasOpValues, HasReplyValues};

use crate::borrowed::BorrowedLife;
use crate::record::{JournalLine, LifeRecord, ReadLine};
use crate::script::Command;
use typed_object::TypedObject;

/// The operations of a life are values of their type.
pub fn operations_are_values<O: TypedObject>(object: &O, life: &BorrowedLife<'_, O::Op>)
    ensures { HasOpValues (O.meaning object.now) life.now }
{
    commands_are_values(object, life.commands());
}

/// The operations of commands are values of the object's type.
fn commands_are_values<O: TypedObject>(object: &O, commands: &[Command<O::Op>])
    ensures { All (λ c. (O.meaning object.now).is_op_value c.op) commands.now }
{
    for command in commands {
        object.op_is_a_value(&command.op);
    }
}

/// The replies of a record are values of their type.
pub fn replies_are_values<O: TypedObject>(object: &O, report: &LifeRecord<O::Reply>)
    ensures { HasReplyValues (O.meaning object.now) report.now }
{
    entries_have_values(object, report.journal.as_slice());
    reads_have_values(object, report.reads.as_slice());
}

/// The replies of journal lines are values of the object's type.
fn entries_have_values<O: TypedObject>(object: &O, lines: &[JournalLine<O::Reply>])
    ensures { All (λ line. IfSome line.reply (O.meaning object.now).is_reply_value) lines.now }
{
    for line in lines {
        entry_has_a_value(object, line);
    }
}

/// The reply of a journal line is a value of the object's type.
fn entry_has_a_value<O: TypedObject>(object: &O, line: &JournalLine<O::Reply>)
    ensures { IfSome line.now.reply (O.meaning object.now).is_reply_value }
{
    if let Some(reply) = &line.reply {
        object.reply_is_a_value(reply);
    }
}

/// The replies of read lines are values of the object's type.
fn reads_have_values<O: TypedObject>(object: &O, lines: &[ReadLine<O::Reply>])
    ensures { All (λ line. (O.meaning object.now).is_reply_value line.reply) lines.now }
{
    for line in lines {
        object.reply_is_a_value(&line.reply);
    }
}

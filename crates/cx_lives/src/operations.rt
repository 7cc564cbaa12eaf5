//! The commands of a script, and the words of their operations.

ghost use Rattle.std.specs.Prelude.{◌≡◌, ◌<◌, IsTrue, Some, length, slice_get};

use cx_base::OpWords;
use life_records::Command;
use typed_object::TypedObject;

/// The command at a place of the script. Commands are made in the order of these places.
pub fn command_at<Op>(commands: &[Command<Op>], at: usize) -> &Command<Op>
    requires { at < length commands.now }
    ensures { slice_get commands.now at ≡ Some result.now }
{
    &commands[at]
}

/// The words of an operation, and whether it only reads.
pub fn words_of<O: TypedObject>(object: &O, op: &O::Op) -> (OpWords, bool)
    requires { (O.meaning object.now).is_op op.now }
    ensures words { result.0 ≡ (O.meaning object.now).encoding.op_words op.now }
    ensures value { (O.meaning object.now).is_op_value op.now }
    ensures reads { IsTrue result.1 → IsTrue (O.only_reads object.now result.0) }
{
    object.op_is_a_value(op);
    let words = object.words_of(op);
    let reads = is_reading(object, op, &words);
    (words, reads)
}

/// Whether an operation of these words only reads.
fn is_reading<O: TypedObject>(object: &O, op: &O::Op, words: &OpWords) -> bool
    requires words { words.now ≡ (O.meaning object.now).encoding.op_words op.now }
    requires op { (O.meaning object.now).is_op op.now }
    requires value { (O.meaning object.now).is_op_value op.now }
    ensures { IsTrue result → IsTrue (O.only_reads object.now words.now) }
{
    object.is_reading(op)
}

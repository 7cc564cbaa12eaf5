//! Text written to a sink.

ghost use Rattle.std.specs.Prelude.{◌≤◌, OnOk, OnErr};
ghost use Rattle.cx_base.specs.Outside.{Rose};
ghost use Rattle.cx_program.specs.Output.{Appends, AppendsFront};

use cx_base::{Failed, Sink};

/// Writes all of a text. After `Failed` a prefix of it was written.
pub(crate) fn write_text<K: Sink>(sink: &mut K, text: &[u8]) -> Result<(), Failed>
    ensures ok { OnOk result (Appends text.now (K.written sink.old) (K.written sink.new)) }
    ensures front { OnErr result (AppendsFront text.now (K.written sink.old) (K.written sink.new)) }
    ensures failed { OnErr result (Rose (K.faults sink.old) (K.faults sink.new)) }
    ensures count { K.faults sink.old ≤ K.faults sink.new }
{
    let mut at = 0;
    while at < text.len() {
        let (_, rest) = text.split_at(at);
        at += sink.write(rest)?;
    }
    Ok(())
}

//! The report of what happened, with commands on documents and their replies.

ghost use Rattle.std.specs.Prelude.{◌≡◌, ◌++◌, IfOk, OnOk};
ghost use Rattle.life_records.specs.Lives.{NameCommands};
ghost use Rattle.doc_text.specs.Grammar.{command_text};
ghost use Rattle.doc_text.specs.Report.{document_wording, document_report_of};

use crate::commands::Documents;
use crate::script_parts::{LifeRecord, Script};
use doc_model::{Op, Reply};
use plain_text::{write_labelled, write_signed};
use script_text::ReportWriter;
use std::alloc::{AllocError, Global};

/// The report of a script's lives. `Err` means out of memory.
pub fn report(alloc: Global, script: &Script, records: &[LifeRecord]) -> Result<Vec<u8>, AllocError>
    // There is one record for each life, and its lines name commands of the script.
    requires { NameCommands script.now.lives records.now }
    ensures { IfOk result (λ text. text.items ≡ document_report_of script.now records.now) }
{
    script_text::report::<Documents>(alloc, script, records)
}

// Each function below appends a part of the report to what is written. After an `Err` what is written is of no use,
// since there is no report then.

impl ReportWriter for Documents {
    type Op = Op;

    type Reply = Reply;

    ghost wording = { document_wording };

    fn write_command(out: &mut Vec<u8>, op: &Op) -> Result<(), AllocError> {
        match op {
            Op::Put { key, doc } => {
                out.extend_from_slice(b"put ")?;
                out.extend_from_slice(key.as_slice())?;
                out.extend_from_slice(b" ")?;
                out.extend_from_slice(doc.as_slice())
            }
            Op::Del { key } => {
                out.extend_from_slice(b"del ")?;
                out.extend_from_slice(key.as_slice())
            }
            Op::Add { key, amount } => {
                out.extend_from_slice(b"add ")?;
                out.extend_from_slice(key.as_slice())?;
                out.extend_from_slice(b" ")?;
                write_signed(out, *amount)
            }
            Op::Get { key } => {
                out.extend_from_slice(b"get ")?;
                out.extend_from_slice(key.as_slice())
            }
            Op::Next { above } => write_next(out, above.as_slice()),
            Op::Count => out.extend_from_slice(b"count"),
            Op::PutIf { key, revision, doc } => {
                out.extend_from_slice(b"putif ")?;
                out.extend_from_slice(key.as_slice())?;
                write_labelled(out, b" ", *revision)?;
                out.extend_from_slice(b" ")?;
                out.extend_from_slice(doc.as_slice())
            }
            Op::Rev { key } => {
                out.extend_from_slice(b"rev ")?;
                out.extend_from_slice(key.as_slice())
            }
        }
    }

    fn write_reply(out: &mut Vec<u8>, reply: &Reply) -> Result<(), AllocError> {
        match reply {
            Reply::New => out.extend_from_slice(b"new"),
            Reply::Replaced => out.extend_from_slice(b"replaced"),
            Reply::Deleted => out.extend_from_slice(b"deleted"),
            Reply::Absent => out.extend_from_slice(b"none"),
            Reply::Doc(document) => out.extend_from_slice(document.as_slice()),
            Reply::Sum(sum) => {
                out.extend_from_slice(b"sum ")?;
                write_signed(out, *sum)
            }
            Reply::NotNumber => out.extend_from_slice(b"notnumber"),
            Reply::Overflow => out.extend_from_slice(b"overflow"),
            Reply::NoRoom => out.extend_from_slice(b"noroom"),
            Reply::Key(key) => {
                out.extend_from_slice(b"key ")?;
                out.extend_from_slice(key.as_slice())
            }
            Reply::Number(count) => write_labelled(out, b"count ", *count),
            Reply::Set(revision) => write_labelled(out, b"set ", *revision),
            Reply::Stale(revision) => write_labelled(out, b"stale ", *revision),
            Reply::Revision(revision) => write_labelled(out, b"rev ", *revision),
        }
    }

    fn items() -> &'static [u8] {
        b" documents "
    }
}

/// Writes the command `next`, with the key above which it seeks, if there is one.
fn write_next(out: &mut Vec<u8>, above: &[u8]) -> Result<(), AllocError>
    ensures { OnOk result (out.new.items ≡ out.old.items ++ command_text (Op.Next above.now)) }
{
    if above.is_empty() {
        return out.extend_from_slice(b"next");
    }
    out.extend_from_slice(b"next ")?;
    out.extend_from_slice(above)
}

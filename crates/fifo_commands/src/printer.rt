//! The report of what happened, with commands on a queue and their replies.

ghost use Rattle.std.specs.Prelude.{◌≡◌, ◌++◌, IfOk, OnOk};
ghost use Rattle.fifo_commands.specs.FifoLives.{uncut};
ghost use Rattle.fifo_commands.specs.Leaving.{with_no_stops};
ghost use Rattle.life_records.specs.Lives.{NamesCommands};
ghost use Rattle.script_text.specs.Report.{record_text};
ghost use Rattle.fifo_commands.specs.Report.{NameFifoCommands, lines_text, queue_wording, queue_report_of};

use crate::commands::QueueTexts;
use crate::record::{FifoLife, FifoRecord, FifoScript};
use fifo_object::{FifoOp, FifoReply};
use life_records::BorrowedLife;
use plain_text::write_labelled;
use script_text::{IndexedLife, ReportWriter, write_journal, write_life, write_power, write_reads};
use std::alloc::{AllocError, Global};

/// The report of a script's lives. `Err` means out of memory.
pub fn fifo_report(
    alloc: Global,
    script: &FifoScript,
    records: &[FifoRecord],
) -> Result<Vec<u8>, AllocError>
    // There is one record for each life, and its lines name commands of the script.
    requires { NameFifoCommands script.now records.now }
    ensures { IfOk result (λ text. text.items ≡ queue_report_of script.now records.now) }
{
    let mut out = Vec::new(alloc);
    let lives = script.lives.as_slice();
    for (number, report) in records.iter().enumerate() {
        write_record(alloc, &mut out, number as u64, &lives[number], report)?;
    }
    Ok(out)
}

// Each function below appends a part of the report to what is written. After an `Err` what is written is of no use,
// since there is no report then.

/// Writes the record of a life, whose commands it finds by client and number.
fn write_record(
    alloc: Global,
    out: &mut Vec<u8>,
    number: u64,
    life: &FifoLife,
    report: &FifoRecord,
) -> Result<(), AllocError>
    requires { NamesCommands (uncut life.now) (with_no_stops report.now) }
    ensures { OnOk result (out.new.items ≡ out.old.items ++ record_text queue_wording number (uncut life.now) (with_no_stops report.now)) }
{
    let lent = BorrowedLife::of(life.clients, life.choice, &[], life.commands.as_slice());
    let life = IndexedLife::of(alloc, &lent)?;
    write_lines(out, number, &life, report)
}

/// Writes the lines of a record.
fn write_lines(
    out: &mut Vec<u8>,
    number: u64,
    life: &IndexedLife<'_, FifoOp>,
    report: &FifoRecord,
) -> Result<(), AllocError>
    requires { NamesCommands life.now (with_no_stops report.now) }
    ensures { OnOk result (out.new.items ≡ out.old.items ++ lines_text number life.now report.now) }
{
    let journal = report.journal.as_slice();
    write_life(out, number, report.clients, report.from)?;
    write_journal::<QueueTexts>(out, life, journal)?;
    write_reads::<QueueTexts>(out, life, report.reads.as_slice())?;
    write_power(
        out,
        report.choice,
        report.kept,
        journal.len() as u64,
        QueueTexts::items(),
        report.items,
    )
}

impl ReportWriter for QueueTexts {
    type Op = FifoOp;

    type Reply = FifoReply;

    ghost wording = { queue_wording };

    fn write_command(out: &mut Vec<u8>, op: &FifoOp) -> Result<(), AllocError> {
        match op {
            FifoOp::Push { text } => {
                out.extend_from_slice(b"push ")?;
                out.extend_from_slice(text.as_slice())
            }
            FifoOp::Pop => out.extend_from_slice(b"pop"),
            FifoOp::Peek => out.extend_from_slice(b"peek"),
            FifoOp::Len => out.extend_from_slice(b"len"),
        }
    }

    fn write_reply(out: &mut Vec<u8>, reply: &FifoReply) -> Result<(), AllocError> {
        match reply {
            FifoReply::Pushed => out.extend_from_slice(b"pushed"),
            FifoReply::Full => out.extend_from_slice(b"full"),
            FifoReply::Item(text) => {
                out.extend_from_slice(b"item ")?;
                out.extend_from_slice(text.as_slice())
            }
            FifoReply::Empty => out.extend_from_slice(b"empty"),
            FifoReply::Length(number) => write_labelled(out, b"len ", *number),
        }
    }

    fn items() -> &'static [u8] {
        b" items "
    }
}

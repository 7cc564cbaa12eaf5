//! The report of what happened.

ghost use Rattle.std.specs.Prelude.{◌≡◌, ◌++◌, ◌<◌, [], IfOk, OnOk, All, flat_map};
ghost use Rattle.std.specs.Option.{option_map_or, option_copied};
ghost use Rattle.life_records.specs.Lives.{NameCommands, NamesCommands, Names};
ghost use Rattle.script_text.specs.Report.{Wording, answer_text, exchange_text, full_text, journal_text, life_text, name_text, power_text, read_text, record_text, report_of, stop_text};

use crate::indexed_life::IndexedLife;
use life_records::{FullLine, JournalLine, LifeRecord, ReadLine, Script, StopLine};
use plain_text::{write_labelled, write_number};
use std::alloc::{AllocError, Global};

// Each function below appends a part of the report to what is written. After an `Err` what is written is of no use,
// since there is no report then.

/// How an object's reports are worded.
pub trait ReportWriter: Drop {
    /// What a command asks for.
    type Op;

    /// What it is answered.
    type Reply;

    /// The words.
    ghost wording: { Wording Self.Op Self.Reply };

    /// Appends a command without its client. `Err` means out of memory; what is written is of no use then.
    fn write_command(out: &mut Vec<u8>, op: &Self::Op) -> Result<(), AllocError>
        ensures { OnOk result (out.new.items ≡ out.old.items ++ wording.command_text op.now) };

    /// Appends a reply. `Err` means out of memory; what is written is of no use then.
    fn write_reply(out: &mut Vec<u8>, reply: &Self::Reply) -> Result<(), AllocError>
        ensures { OnOk result (out.new.items ≡ out.old.items ++ wording.reply_text reply.now) };

    /// What a store has, as ` documents `.
    fn items() -> &'static [u8]
        ensures { result.now ≡ wording.items };
}

/// The report of a script's lives. `Err` means out of memory.
pub fn report<W: ReportWriter>(
    alloc: Global,
    script: &Script<W::Op>,
    records: &[LifeRecord<W::Reply>],
) -> Result<Vec<u8>, AllocError>
    // There is one record for each life, and its lines name commands of the script.
    requires { NameCommands script.now.lives records.now }
    ensures { IfOk result (λ text. text.items ≡ report_of W.wording script.now records.now) }
{
    let mut out = Vec::new(alloc);
    let lives = script.lives.as_slice();
    for (number, life_report) in records.iter().enumerate() {
        let lent = lives[number].lent();
        let life = IndexedLife::of(alloc, &lent)?;
        write_record::<W>(&mut out, number as u64, &life, life_report)?;
    }
    Ok(out)
}

/// Writes the record of a life.
fn write_record<W: ReportWriter>(
    out: &mut Vec<u8>,
    number: u64,
    life: &IndexedLife<'_, W::Op>,
    life_report: &LifeRecord<W::Reply>,
) -> Result<(), AllocError>
    requires { NamesCommands life.now life_report.now }
    ensures { OnOk result (out.new.items ≡ out.old.items ++ record_text W.wording number life.now life_report.now) }
{
    let journal = life_report.journal.as_slice();
    write_life(out, number, life_report.clients, life_report.from)?;
    write_journal::<W>(out, life, journal)?;
    write_reads::<W>(out, life, life_report.reads.as_slice())?;
    write_stops(out, life_report.stops.as_slice())?;
    write_fulls(out, life_report.fulls.as_slice())?;
    write_power(
        out,
        life_report.choice,
        life_report.kept,
        journal.len() as u64,
        W::items(),
        life_report.items,
    )
}

/// Appends the first line of a life. `Err` means out of memory.
pub fn write_life(out: &mut Vec<u8>, number: u64, clients: u32, from: u64) -> Result<(), AllocError>
    ensures { OnOk result (out.new.items ≡ out.old.items ++ life_text number clients from) }
{
    write_labelled(out, b"life ", number)?;
    write_labelled(out, b" clients ", u64::from(clients))?;
    write_labelled(out, b" from ", from)?;
    out.extend_from_slice(b"\n")
}

/// Appends the lines of a history. `Err` means out of memory.
pub fn write_journal<W: ReportWriter>(
    out: &mut Vec<u8>,
    life: &IndexedLife<'_, W::Op>,
    journal: &[JournalLine<W::Reply>],
) -> Result<(), AllocError>
    requires { All (λ line. Names life.now line.client line.command) journal.now }
    ensures { OnOk result (out.new.items ≡ out.old.items ++ flat_map (journal_text W.wording life.now) journal.now) }
{
    for line in journal {
        write_journal_line::<W>(out, life, line)?;
    }
    Ok(())
}

/// Writes the line of an entry: its ticket, its client and command, the operation and the reply.
fn write_journal_line<W: ReportWriter>(
    out: &mut Vec<u8>,
    life: &IndexedLife<'_, W::Op>,
    line: &JournalLine<W::Reply>,
) -> Result<(), AllocError>
    requires { line.now.client < life.now.clients }
    ensures { OnOk result (out.new.items ≡ out.old.items ++ journal_text W.wording life.now line.now) }
{
    write_number(out, line.ticket)?;
    out.extend_from_slice(b" ")?;
    write_name(out, line.client, line.command)?;
    out.extend_from_slice(b" ")?;
    write_exchange::<W>(out, life.op(line.client, line.command), line.reply.as_ref())
}

/// Appends the lines of reads. `Err` means out of memory.
pub fn write_reads<W: ReportWriter>(
    out: &mut Vec<u8>,
    life: &IndexedLife<'_, W::Op>,
    reads: &[ReadLine<W::Reply>],
) -> Result<(), AllocError>
    requires { All (λ line. Names life.now line.client line.command) reads.now }
    ensures { OnOk result (out.new.items ≡ out.old.items ++ flat_map (read_text W.wording life.now) reads.now) }
{
    for line in reads {
        write_read_line::<W>(out, life, line)?;
    }
    Ok(())
}

/// Writes the line of a read: its client and command, its place, the operation and the reply.
fn write_read_line<W: ReportWriter>(
    out: &mut Vec<u8>,
    life: &IndexedLife<'_, W::Op>,
    line: &ReadLine<W::Reply>,
) -> Result<(), AllocError>
    requires { line.now.client < life.now.clients }
    ensures { OnOk result (out.new.items ≡ out.old.items ++ read_text W.wording life.now line.now) }
{
    out.extend_from_slice(b"read ")?;
    write_name(out, line.client, line.command)?;
    write_labelled(out, b" at ", line.place)?;
    out.extend_from_slice(b" ")?;
    write_exchange::<W>(out, life.op(line.client, line.command), Some(&line.reply))
}

/// Appends the lines of clients that were stopped. `Err` means out of memory.
pub fn write_stops(out: &mut Vec<u8>, stops: &[StopLine]) -> Result<(), AllocError>
    ensures { OnOk result (out.new.items ≡ out.old.items ++ flat_map stop_text stops.now) }
{
    for line in stops {
        write_stop_line(out, line)?;
    }
    Ok(())
}

/// Writes the line of a client that was stopped: its command, its steps, and whether the entry was kept.
fn write_stop_line(out: &mut Vec<u8>, line: &StopLine) -> Result<(), AllocError>
    ensures { OnOk result (out.new.items ≡ out.old.items ++ stop_text line.now) }
{
    out.extend_from_slice(b"stopped ")?;
    write_name(out, line.client, line.command)?;
    write_labelled(out, b" at ", line.steps)?;
    if line.kept {
        out.extend_from_slice(b" kept\n")
    } else {
        out.extend_from_slice(b" lost\n")
    }
}

/// Appends the lines of clients that ran out of free cells. `Err` means out of memory.
pub fn write_fulls(out: &mut Vec<u8>, fulls: &[FullLine]) -> Result<(), AllocError>
    ensures { OnOk result (out.new.items ≡ out.old.items ++ flat_map full_text fulls.now) }
{
    for line in fulls {
        write_full_line(out, line)?;
    }
    Ok(())
}

/// Writes the line of a command that found no idle cell, and whose need was why.
fn write_full_line(out: &mut Vec<u8>, line: &FullLine) -> Result<(), AllocError>
    ensures { OnOk result (out.new.items ≡ out.old.items ++ full_text line.now) }
{
    out.extend_from_slice(b"full ")?;
    write_name(out, line.client, line.command)?;
    write_labelled(out, b" holder ", u64::from(line.note.holder))?;
    write_labelled(out, b" need ", line.note.need)?;
    write_labelled(out, b" ticket ", line.note.ticket)?;
    out.extend_from_slice(b"\n")
}

/// Appends the line on the crash: the choice, how many of the entries are kept, and how many items of what kind there are. `Err` means out of memory.
pub fn write_power(
    out: &mut Vec<u8>,
    choice: u64,
    kept: u64,
    entries: u64,
    items: &[u8],
    count: u64,
) -> Result<(), AllocError>
    ensures { OnOk result (out.new.items ≡ out.old.items ++ power_text choice kept entries items.now count) }
{
    write_labelled(out, b"power ", choice)?;
    write_labelled(out, b" kept ", kept)?;
    write_labelled(out, b" of ", entries)?;
    write_labelled(out, items, count)?;
    out.extend_from_slice(b"\n")
}

/// A client's command, by client and number.
fn write_name(out: &mut Vec<u8>, client: u32, command: u64) -> Result<(), AllocError>
    ensures { OnOk result (out.new.items ≡ out.old.items ++ name_text client command) }
{
    write_number(out, u64::from(client))?;
    write_labelled(out, b".", command)
}

/// An operation and its reply, to the end of the line.
fn write_exchange<W: ReportWriter>(
    out: &mut Vec<u8>,
    op: Option<&W::Op>,
    reply: Option<&W::Reply>,
) -> Result<(), AllocError>
    ensures { OnOk result (out.new.items ≡ out.old.items
        ++ exchange_text W.wording (option_copied op.entry) (answer_text W.wording (option_copied reply.entry))) }
{
    write_op::<W>(out, op)?;
    out.extend_from_slice(b" = ")?;
    write_answer::<W>(out, reply)?;
    out.extend_from_slice(b"\n")
}

/// Writes an operation, if there is one.
fn write_op<W: ReportWriter>(out: &mut Vec<u8>, op: Option<&W::Op>) -> Result<(), AllocError>
    ensures { OnOk result (out.new.items ≡ out.old.items ++ option_map_or W.wording.command_text (option_copied op.entry) []) }
{
    match op {
        Some(op) => W::write_command(out, op),
        None => Ok(()),
    }
}

/// Writes a reply, or that there was no answer.
fn write_answer<W: ReportWriter>(
    out: &mut Vec<u8>,
    reply: Option<&W::Reply>,
) -> Result<(), AllocError>
    ensures { OnOk result (out.new.items ≡ out.old.items ++ answer_text W.wording (option_copied reply.entry)) }
{
    match reply {
        Some(reply) => W::write_reply(out, reply),
        None => out.extend_from_slice(b"unanswered"),
    }
}

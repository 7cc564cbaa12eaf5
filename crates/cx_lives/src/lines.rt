//! The lines that a client's worker writes, one for each answer to the client.

ghost use Rattle.std.specs.Prelude.{◌≡◌, ◌++◌, IfOk, []};
ghost use Rattle.cx_lives.specs.Lines.{AddsClientEntry, AddsClientRead};
ghost use Rattle.cx_service.specs.Drives.{answer_with};
ghost use Rattle.cx_service.specs.Lookups.{seen_with};

use cx_base::OpWords;
use life_records::{JournalLine, ReadLine};
use std::alloc::{AllocError, Global};
use typed_object::TypedObject;

/// The lines of a client so far, or of several clients one after another: those of their entries, and those of their reads.
#[derive(Drop)]
pub struct Lines<Reply> {
    pub entries: Vec<JournalLine<Reply>>,
    pub reads: Vec<ReadLine<Reply>>,
}

impl<Reply> Lines<Reply> {
    /// Two empty lists: no entry and no read is answered yet.
    pub fn new(alloc: Global) -> Self
        ensures entries { result.entries.items ≡ [] }
        ensures reads { result.reads.items ≡ [] }
    {
        Lines {
            entries: Vec::new(alloc),
            reads: Vec::new(alloc),
        }
    }
}

impl<Reply: Drop> Lines<Reply> {
    /// One client's lines behind these of the clients before it. `Err` means out of memory.
    pub fn joined(self, own: Lines<Reply>) -> Result<Lines<Reply>, AllocError>
        ensures entries { IfOk result (λ lines. lines.entries.items ≡ self.entries.items ++ own.entries.items) }
        ensures reads { IfOk result (λ lines. lines.reads.items ≡ self.reads.items ++ own.reads.items) }
    {
        let mut lines = self;
        let mut own = own;
        lines.entries.append(&mut own.entries)?;
        lines.reads.append(&mut own.reads)?;
        Ok(lines)
    }
}

/// Adds the line of the entry of a client's command of this number, which is answered at `ticket`. `false` where the words are no reply:
/// then no line is added. `Err` means out of memory.
pub fn note_entry<O: TypedObject>(
    alloc: Global,
    object: &O,
    lines: &mut Lines<O::Reply>,
    client: u32,
    number: u64,
    ticket: u64,
    words: &OpWords,
) -> Result<bool, AllocError>
    ensures { IfOk result (AddsClientEntry (O.meaning object.now) client number (answer_with ticket words.now) lines.old lines.new) }
{
    let Some(reply) = object.reply_of(alloc, words)? else {
        return Ok(false);
    };
    lines.entries.push(JournalLine {
        ticket,
        client,
        command: number,
        reply: Some(reply),
    })?;
    Ok(true)
}

/// Adds the line of the read of a client's command of this number, which is answered at `place`. `false` where the words are no reply:
/// then no line is added. `Err` means out of memory.
pub fn note_read<O: TypedObject>(
    alloc: Global,
    object: &O,
    lines: &mut Lines<O::Reply>,
    client: u32,
    number: u64,
    place: u64,
    words: &OpWords,
) -> Result<bool, AllocError>
    ensures { IfOk result (AddsClientRead (O.meaning object.now) client number (seen_with place words.now) lines.old lines.new) }
{
    let Some(reply) = object.reply_of(alloc, words)? else {
        return Ok(false);
    };
    lines.reads.push(ReadLine {
        client,
        command: number,
        place,
        reply,
    })?;
    Ok(true)
}

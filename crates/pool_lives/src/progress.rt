//! A client makes one of its commands.

ghost use Rattle.std.specs.Prelude.{◌≡◌, ◌-◌, ◌≤◌, IfOk, Some};
ghost use Rattle.client_pool.specs.Lending.{IsPool};
ghost use Rattle.life_records.specs.Scripts.{named_op};
ghost use Rattle.pool_lives.specs.Working.{IsAtWork, MakesCommand};

use crate::calls::{CallOutcome, ask};
use client_pool::{Client, Pool};
use cx_base::OP_WORDS;
use cx_lives::{Lines, note_entry, note_read, words_of};
use life_records::{BorrowedLife, Command};
use std::alloc::{AllocError, Global};
use std::sync::Wait;
use typed_object::TypedObject;

/// Makes the client's command of this number, and adds the line of its answer to `lines`. `false` is what cannot be: there was no further
/// ticket, or the words of the answer are no reply; then no line is added. `Err` means out of memory.
pub(crate) fn make<O: TypedObject, R: Wait>(
    rt: &R,
    alloc: Global,
    object: &O,
    pool: &Pool<O>,
    life: &BorrowedLife<'_, O::Op>,
    client: &mut Client,
    lines: &mut Lines<O::Reply>,
    number: u64,
    command: &Command<O::Op>,
    clients: u32,
) -> Result<bool, AllocError>
    requires pool { IsPool O.only_reads pool.now × (pool.now.service.object ≡ object.now) }
    requires at_work { (1 ≤ number) × IsAtWork (O.meaning object.now) life.now pool.now.service pool.now.line.table.shared.table_id clients command.now.client (number - 1) client.old lines.old }
    requires named { named_op life.now command.now.client number ≡ Some command.now.op }
    requires op { (O.meaning object.now).is_op command.now.op }
    ensures { IfOk result (MakesCommand (O.meaning object.now) life.now pool.now.service pool.now.line.table.shared.table_id clients command.now.client number client.new lines.new) }
{
    let (op, reads) = words_of(object, &command.op);
    let mut reply = [0; OP_WORDS];
    let asked = ask(rt, pool, client, &op, &mut reply, reads)?;
    let by = command.client;
    match asked {
        CallOutcome::Done(ticket) => {
            let is_reply = note_entry(alloc, object, lines, by, number, ticket, &reply)?;
            Ok(is_reply)
        }
        CallOutcome::Read(place) => {
            let is_reply = note_read(alloc, object, lines, by, number, place, &reply)?;
            Ok(is_reply)
        }
        CallOutcome::Worn => Ok(false),
    }
}

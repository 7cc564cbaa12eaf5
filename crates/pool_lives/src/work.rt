//! What one client's worker does.

ghost use Rattle.std.specs.Prelude.{IfOk};
ghost use Rattle.pool_lives.specs.Working.{ClientServedOf, IsUncalledIn, ServesLife};

use crate::progress::make;
use client_pool::{Client, Pool};
use cx_base::Gate;
use cx_lives::{Lines, command_at};
use life_records::BorrowedLife;
use std::alloc::{AllocError, Global};
use std::sync::Wait;
use typed_object::TypedObject;

/// The result of a worker: its client, the client's lines, and whether it met what cannot be.
#[derive(Drop)]
pub(crate) struct ServedClient<Reply> {
    pub(crate) client: Client,
    pub(crate) lines: Lines<Reply>,
    pub(crate) impossible: bool,
}

/// Makes a client's commands in order, and passes the gate before each and after it. `Err` means out of memory.
pub(crate) fn serve<O: TypedObject, R: Wait, G: Gate>(
    rt: &R,
    alloc: Global,
    object: &O,
    pool: &Pool<O>,
    life: &BorrowedLife<'_, O::Op>,
    gate: &G,
    client: Client,
) -> Result<ServedClient<O::Reply>, AllocError>
    requires pool { ServesLife O.only_reads (O.meaning object.now) object.now life.now pool.now }
    requires client { IsUncalledIn pool.now.service pool.now.line.table.shared.table_id life.now.clients client }
    ensures { IfOk result (ClientServedOf (O.meaning object.now) life.now pool.now.service pool.now.line.table.shared.table_id life.now.clients client.number) }
{
    let mut client = client;
    let mut lines = Lines::new(alloc);
    let mut number: u64 = 0;
    let me = client.number();
    let clients = life.clients();
    let commands = life.commands();
    for at in 0..commands.len() {
        let command = command_at(commands, at);
        if command.client == me {
            number += 1;
            gate.pass(me, number, false);
            let goes_on = make(
                rt,
                alloc,
                object,
                pool,
                life,
                &mut client,
                &mut lines,
                number,
                command,
                clients,
            )?;
            gate.pass(me, number, true);
            if !goes_on {
                return Ok(ServedClient {
                    client,
                    lines,
                    impossible: true,
                });
            }
        }
    }
    Ok(ServedClient {
        client,
        lines,
        impossible: false,
    })
}

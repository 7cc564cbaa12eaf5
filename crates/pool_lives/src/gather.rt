//! The results of the workers, put together client after client.

ghost use Rattle.std.specs.Prelude.{◌≡◌, IfOk, length, vec_len};
ghost use Rattle.cx_lives.specs.Works.{AreResultsFrom};
ghost use Rattle.pool_lives.specs.Gathering.{AddsServed, AreClientsGathered};
ghost use Rattle.pool_lives.specs.Working.{ClientServedOf};

use crate::work::ServedClient;
use client_pool::{Client, Pool};
use cx_lives::{Lines, first_of};
use life_records::BorrowedLife;
use life_records::laws::{works_begin, works_go_on};
use std::alloc::{AllocError, Global};
use typed_object::TypedObject;

/// The clients so far, the lines of all, and whether some client met what cannot be: no further ticket, or words that are no reply.
#[derive(Drop)]
pub(crate) struct GatheredClients<Reply> {
    pub(crate) clients: Vec<Client>,
    pub(crate) lines: Lines<Reply>,
    pub(crate) impossible: bool,
}

impl<Reply: Drop> GatheredClients<Reply> {
    /// Adds the next client, its lines, and whether it met what cannot be.
    fn with(self, served: ServedClient<Reply>) -> Result<GatheredClients<Reply>, AllocError>
        ensures { IfOk result (λ after. AddsServed self after served) }
    {
        let GatheredClients {
            mut clients,
            lines,
            impossible,
        } = self;
        clients.push(served.client)?;
        Ok(GatheredClients {
            clients,
            lines: lines.joined(served.lines)?,
            impossible: impossible || served.impossible,
        })
    }
}

/// Puts together the results of the workers of all clients, in the order of the clients. `Err` means out of memory, in a worker or here.
pub(crate) fn gather<O: TypedObject>(
    alloc: Global,
    object: &O,
    pool: &Pool<O>,
    life: &BorrowedLife<'_, O::Op>,
    works: Vec<Result<ServedClient<O::Reply>, AllocError>>,
) -> Result<GatheredClients<O::Reply>, AllocError>
    requires { AreResultsFrom (ClientServedOf (O.meaning object.now) life.now pool.now.service pool.now.line.table.shared.table_id life.now.clients) 0 works.items }
    ensures gathered { IfOk result (AreClientsGathered (O.meaning object.now) life.now pool.now.service pool.now.line.table.shared.table_id) }
    ensures all { IfOk result (λ g. length g.clients.items ≡ vec_len works) }
{
    // with no clients there are no lines: what the loop begins with
    works_begin::<O::Op, O::Reply>();
    // the next client's lines go behind those of all clients before it: one turn of the loop
    works_go_on::<O::Op, O::Reply>();
    let clients = Vec::new(alloc);
    let lines = Lines::new(alloc);
    let mut all = GatheredClients {
        clients,
        lines,
        impossible: false,
    };
    let mut works = works;
    while !works.is_empty() {
        let served = first_of(&mut works)?;
        all = all.with(served)?;
    }
    Ok(all)
}

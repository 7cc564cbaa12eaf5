//! A worker for each client, each on a thread of its own.

ghost use Rattle.std.specs.Prelude.{◌≡◌, All, IfOk, vec_len};
ghost use Rattle.cx_lives.specs.Works.{AreResultsOf};
ghost use Rattle.pool_lives.specs.Working.{ClientServedOf, IsUncalledIn, ServesLife};

use crate::work::{ServedClient, serve};
use client_pool::{Client, Pool};
use cx_base::Gate;
use life_records::BorrowedLife;
use std::alloc::{AllocError, Global};
use std::sync::Wait;
use std::thread::{Threads, map_vec};
use typed_object::TypedObject;

/// Runs a worker for each client, all at once, and joins them. A worker whose thread cannot be started is run by the calling thread.
pub(crate) fn run_workers<O: TypedObject + Sync, R: Threads + Wait + Sync, G: Gate + Sync>(
    rt: &R,
    alloc: Global,
    object: &O,
    pool: &Pool<O>,
    clients: Vec<Client>,
    life: &BorrowedLife<'_, O::Op>,
    gate: &G,
) -> Result<Vec<Result<ServedClient<O::Reply>, AllocError>>, AllocError>
    requires pool { ServesLife O.only_reads (O.meaning object.now) object.now life.now pool.now }
    requires clients { All (IsUncalledIn pool.now.service pool.now.line.table.shared.table_id life.now.clients) clients.items }
    ensures len { IfOk result (λ works. vec_len works ≡ vec_len clients) }
    ensures each { IfOk result (λ works. AreResultsOf (λ client. ClientServedOf (O.meaning object.now) life.now pool.now.service pool.now.line.table.shared.table_id life.now.clients client.number) clients.items works.items) }
{
    // `map_vec` halves the list and runs both halves at once. To part a list takes memory: where one half finds none while the other
    // runs, its workers are not run at all, and a gate that waits for one of them may wait for good.
    map_vec(
        rt,
        clients,
        &|client: Client| -> Result<ServedClient<O::Reply>, AllocError>
            requires { ServesLife O.only_reads (O.meaning object.now) object.now life.now pool.now × IsUncalledIn pool.now.service pool.now.line.table.shared.table_id life.now.clients client }
            ensures { IfOk result (ClientServedOf (O.meaning object.entry.now) life.entry.now pool.entry.now.service pool.entry.now.line.table.shared.table_id life.entry.now.clients client.number) }
        { serve(rt, alloc, object, pool, life, gate, client) },
    )
}

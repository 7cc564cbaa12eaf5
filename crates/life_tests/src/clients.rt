//! Clients of a pool of counters add and read.

ghost use Rattle.std.specs.Prelude.{◌≡◌, ◌<◌, ℕ, All, IfOk, slice_index_or, true, vec_len};
ghost use Rattle.std.specs.List.{AllZip};
ghost use Rattle.client_pool.specs.Lending.{is_live};
ghost use Rattle.life_tests.specs.Tests.{AreCounterClients, IsClientBack, IsCounterClient, IsCounterPool};

use bounded_counters::{Counters, add_words, operations_are_read, read_words};
use client_pool::{Client, Pool, Pooled, PooledRead};
use cx_base::OP_WORDS;
use std::alloc::{AllocError, Global};
use std::sync::Wait;
use std::thread::{self, Threads, map_vec};

/// A live client asks to add 1 to counter 0, and is left a client of the pool. Returns whether the answer is `Full`, so that the client has to ask
/// again.
fn adds<R: Wait>(rt: &R, pool: &Pool<Counters>, client: &mut Client) -> bool
    requires pool { IsCounterPool pool.now }
    requires client { IsCounterClient pool.now client.old × (is_live client.old.lent.kept ≡ true) }
    ensures { IsClientBack pool.now client.old client.new }
{
    let mut reply = [0; OP_WORDS];
    let pooled = pool.update(rt, client, &add_words(0, 1), &mut reply);
    match pooled {
        Pooled::Full(_) => true,
        _ => false,
    }
}

/// A live client asks to read counter 0, and is left a client of the pool. Returns whether the answer is `Full`, so that the client has to ask again.
fn reads<R: Wait>(rt: &R, pool: &Pool<Counters>, client: &mut Client) -> bool
    requires pool { IsCounterPool pool.now }
    requires client { IsCounterClient pool.now client.old × (is_live client.old.lent.kept ≡ true) }
    ensures { IsClientBack pool.now client.old client.new }
{
    operations_are_read();
    let mut reply = [0; OP_WORDS];
    let pooled = pool.read(rt, client, &read_words(0), &mut reply);
    match pooled {
        PooledRead::Full(_) => true,
        _ => false,
    }
}

/// A client reads, where `is_read` is true, or adds 1. Where the answer is `Full`, it asks again, until it has another answer or is stopped. A client
/// that is not live makes no call.
fn calls<R: Wait>(rt: &R, pool: &Pool<Counters>, client: &mut Client, is_read: bool)
    requires pool { IsCounterPool pool.now }
    requires client { IsCounterClient pool.now client.old }
    ensures { IsClientBack pool.now client.old client.new }
{
    let mut again = client.is_live();
    for _ in rt.forever() {
        if !again || !client.is_live() {
            return;
        }
        again = if is_read {
            reads(rt, pool, client)
        } else {
            adds(rt, pool, client)
        };
        if again {
            thread::yield_now();
        }
    }
}

/// A client adds 1 to counter 0 `additions` times, and then reads it. The client is returned.
fn works<R: Wait>(rt: &R, pool: &Pool<Counters>, client: Client, additions: u64) -> Client
    requires pool { IsCounterPool pool.now }
    requires client { IsCounterClient pool.now client }
    ensures { IsClientBack pool.now client result }
{
    let mut client = client;
    for _ in 0..additions {
        calls(rt, pool, &mut client, false);
    }
    calls(rt, pool, &mut client, true);
    client
}

/// The clients make their calls on this thread, one client after another, and all of them are returned, each at its place.
fn in_turn<R: Wait>(
    rt: &R,
    alloc: Global,
    pool: &Pool<Counters>,
    clients: Vec<Client>,
    additions: u64,
) -> Result<Vec<Client>, AllocError>
    requires pool { IsCounterPool pool.now }
    requires clients { All (IsCounterClient pool.now) clients.items }
    ensures { IfOk result (λ v. AllZip (IsClientBack pool.now) clients.items v.items) }
{
    let mut worked = Vec::new(alloc);
    for client in clients {
        worked.push(works(rt, pool, client, additions))?;
    }
    Ok(worked)
}

/// The clients make their calls, each client on a thread of its own, and all of them are returned: as many as before, and each at its place.
fn on_threads<R: Wait + Threads + Sync>(
    rt: &R,
    pool: &Pool<Counters>,
    clients: Vec<Client>,
    additions: u64,
) -> Result<Vec<Client>, AllocError>
    requires pool { IsCounterPool pool.now }
    requires clients { All (IsCounterClient pool.now) clients.items }
    ensures long { IfOk result (λ v. vec_len v ≡ vec_len clients) }
    ensures each { IfOk result (λ v. (i : ℕ) (d : _) (e : _) → i < vec_len clients → IsClientBack pool.now (slice_index_or clients.items i d) (slice_index_or v.items i e)) }
{
    map_vec(
        rt,
        clients,
        &|client: Client| -> Client
            requires { IsCounterPool pool.now × IsCounterClient pool.now client }
            ensures { IsClientBack pool.entry.now client result }
        { works(rt, pool, client, additions) },
    )
}

/// All the clients of a pool make their calls, on threads of their own or one client after another, and all of them are returned.
pub(crate) fn all_work<R: Wait + Threads + Sync>(
    rt: &R,
    alloc: Global,
    pool: &Pool<Counters>,
    clients: Vec<Client>,
    additions: u64,
    threads: bool,
) -> Result<Vec<Client>, AllocError>
    requires pool { IsCounterPool pool.now }
    requires clients { AreCounterClients pool.now clients.items }
    ensures { IfOk result (λ v. AreCounterClients pool.now v.items) }
{
    // true: each client on a thread of its own
    if threads {
        let worked = on_threads(rt, pool, clients, additions)?;
        Ok(worked)
    } else {
        let worked = in_turn(rt, alloc, pool, clients, additions)?;
        Ok(worked)
    }
}

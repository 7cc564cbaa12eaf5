//! A server over a pool: threads take connections one after another, and answer their requests, each by its own client.

ghost use Rattle.std.specs.Prelude.{◌≡◌, ◌<◌, ℕ, IfOk, slice_index_or, true, vec_len};
ghost use Rattle.client_pool.specs.Lending.{is_live};
ghost use Rattle.life_tests.specs.Tests.{AreCounterClients, IsClientBack, IsCounterClient, IsCounterPool};

use crate::holds::holds;
use crate::pool_starts::opened;
use crate::shared_pools::last;
use bounded_counters::{Counters, add_words};
use client_pool::{Client, Pool, Pooled};
use cx_base::OP_WORDS;
use std::alloc::{AllocError, Global};
use std::sync::Wait;
use std::sync::atomic::{AtomicUsize, Ordering};
use std::test::Fail;
use std::thread::{self, Threads, map_vec};

/// The answer to a request.
#[derive(Clone, Copy)]
enum Told {
    /// The amount was added, and is durable: what the counter has then.
    Sum(u64),
    /// Nothing was done: the same request may be made again.
    Busy,
    /// No request is answered any more: the service is to be closed.
    Over,
}

/// Answers a request to add `amount` to counter 0. The clauses: a live client of the pool comes in, and the same client is left, still of the pool.
fn answer<R: Wait>(rt: &R, pool: &Pool<Counters>, client: &mut Client, amount: u64) -> Told
    requires pool { IsCounterPool pool.now }
    requires client { IsCounterClient pool.now client.old × (is_live client.old.lent.kept ≡ true) }
    ensures { IsClientBack pool.now client.old client.new }
{
    // word 1 of the reply is what the counter has after the addition
    let mut reply = [0; OP_WORDS];
    let pooled = pool.update(rt, client, &add_words(0, amount), &mut reply);
    match pooled {
        Pooled::Done(_) => Told::Sum(reply[1]),
        // another caller needs the cells of the one that this client keeps, or there is no room for one answer more
        Pooled::Full(_) | Pooled::Memory => Told::Busy,
        // no ticket is left, or this client's caller is stopped
        Pooled::Worn | Pooled::Stopped { .. } => Told::Over,
    }
}

/// Answers the requests of a connection, each of which adds 1, until all are answered or none is answered any more. Returns whether all are answered.
fn serve<R: Wait>(rt: &R, pool: &Pool<Counters>, client: &mut Client, requests: u64) -> bool
    requires pool { IsCounterPool pool.now }
    requires client { IsCounterClient pool.now client.old }
    ensures { IsClientBack pool.now client.old client.new }
{
    // how many requests were answered with a sum
    let mut answered = 0;
    for _ in rt.forever() {
        if answered >= requests || !client.is_live() {
            break;
        }
        match answer(rt, pool, client, 1) {
            Told::Sum(_) => answered += 1,
            Told::Busy => thread::yield_now(),
            Told::Over => break,
        }
    }
    answered >= requests
}

/// Takes one of `connections` after another and answers its requests, until no connection is left or no request is answered any more. A connection is
/// its number of requests; `accepted` is the index of the next one, for all threads. The client is returned.
fn work<R: Wait>(
    rt: &R,
    pool: &Pool<Counters>,
    client: Client,
    connections: &[u64],
    accepted: &AtomicUsize,
) -> Client
    requires pool { IsCounterPool pool.now }
    requires client { IsCounterClient pool.now client }
    ensures { IsClientBack pool.now client result }
{
    let mut client = client;
    for _ in rt.forever() {
        let Some(requests) = connections.get(accepted.fetch_add(1, Ordering::SeqCst)) else {
            break;
        };
        if !serve(rt, pool, &mut client, *requests) {
            break;
        }
    }
    client
}

/// The clients take connections and answer their requests, each client on a thread of its own. The clients are returned: as many as before, and each
/// at its place.
fn on_threads<R: Wait + Threads + Sync>(
    rt: &R,
    pool: &Pool<Counters>,
    clients: Vec<Client>,
    connections: &[u64],
) -> Result<Vec<Client>, AllocError>
    requires pool { IsCounterPool pool.now }
    requires clients { AreCounterClients pool.now clients.items }
    ensures long { IfOk result (λ v. vec_len v ≡ vec_len clients) }
    ensures each { IfOk result (λ v. (i : ℕ) (d : _) (e : _) → i < vec_len clients → IsClientBack pool.now (slice_index_or clients.items i d) (slice_index_or v.items i e)) }
{
    // the index of the next connection; all threads raise it, so that none is taken twice
    let accepted = AtomicUsize::new(0);
    map_vec(
        rt,
        clients,
        &|client: Client| -> Client
            requires { IsCounterPool pool.now × IsCounterClient pool.now client }
            ensures { IsClientBack pool.entry.now client result }
        { work(rt, pool, client, connections, &accepted) },
    )
}

/// All the clients of a pool take connections and answer their requests, and all of them are returned.
fn all_work<R: Wait + Threads + Sync>(
    rt: &R,
    pool: &Pool<Counters>,
    clients: Vec<Client>,
    connections: &[u64],
) -> Result<Vec<Client>, AllocError>
    requires pool { IsCounterPool pool.now }
    requires clients { AreCounterClients pool.now clients.items }
    ensures { IfOk result (λ v. AreCounterClients pool.now v.items) }
{
    let worked = on_threads(rt, pool, clients, connections)?;
    Ok(worked)
}

/// What the counter has once a server of two callers and three clients has answered the connections, and how many answers its clients have. A
/// connection is its number of requests. `None` where what the closed pool leaves names no counter.
fn served<R: Wait + Threads + Sync>(
    rt: &R,
    alloc: Global,
    connections: &[u64],
) -> Result<Option<(u64, u64)>, AllocError> {
    let (pool, clients) = opened(rt, alloc, 2, 3, u64::MAX)?;
    let clients = all_work(rt, &pool, clients, connections)?;
    let mut answers: u64 = 0;
    for client in clients.iter() {
        answers = answers.wrapping_add(client.answers().len() as u64);
    }
    // the counter is read from what the closed pool leaves
    match pool.close(rt, alloc, clients) {
        Ok(remains) => Ok(last(&remains).map(|(_, count)| (count, answers))),
        Err(_) => Err(AllocError),
    }
}

#[test]
fn each_request_is_answered_once(rt: HostRuntime) -> Result<(), Fail> {
    // 3 + 0 + 20 + 7 + 1 + 30 + 9 = 70 requests, each of which adds 1
    let found = served(&rt, rt.alloc(), &[3, 0, 20, 7, 1, 30, 9])?;
    holds(&rt, found == Some((70, 70)));
    Ok(())
}

//! A client catches up with a place that another one told.

ghost use Rattle.std.specs.Prelude.{◌≡◌, true};
ghost use Rattle.client_pool.specs.Lending.{is_live};
ghost use Rattle.life_tests.specs.Tests.{IsClientBack, IsCounterClient, IsCounterPool};

use crate::holds::holds;
use crate::pool_starts::opened;
use bounded_counters::{Counters, add_words, operations_are_read, read_words};
use client_pool::{Client, Pool, Pooled, PooledCatchUp, PooledRead};
use cx_base::OP_WORDS;
use std::alloc::{AllocError, Global};
use std::sync::Wait;
use std::test::Fail;

/// No limit of steps.
const NO_LIMIT: u64 = u64::MAX;

// A live client catches up with a place, and is left a client of the pool. Returns that place, or the current place where this is lower. `None` where
// the client's caller is stopped.
fn found<R: Wait>(rt: &R, pool: &Pool<Counters>, client: &mut Client, place: u64) -> Option<u64>
    requires pool { IsCounterPool pool.now }
    requires client { IsCounterClient pool.now client.old × (is_live client.old.lent.kept ≡ true) }
    ensures { IsClientBack pool.now client.old client.new }
{
    let caught = pool.catch_up(rt, client, place);
    match caught {
        PooledCatchUp::Caught => Some(place),
        PooledCatchUp::Behind(current) => Some(current),
        PooledCatchUp::Stopped => None,
    }
}

// A live client adds 1 to counter 0, and is left a client of the pool. Returns the client's place after that. `None` where the addition is not
// answered.
fn added<R: Wait>(rt: &R, pool: &Pool<Counters>, client: &mut Client) -> Option<u64>
    requires pool { IsCounterPool pool.now }
    requires client { IsCounterClient pool.now client.old × (is_live client.old.lent.kept ≡ true) }
    ensures { IsClientBack pool.now client.old client.new }
{
    let mut reply = [0; OP_WORDS];
    let pooled = pool.update(rt, client, &add_words(0, 1), &mut reply);
    match pooled {
        Pooled::Done(_) => Some(client.place()),
        _ => None,
    }
}

// A client reads the counter: the place of the read, and what the counter has there. `None` where this is not answered.
fn read<R: Wait>(rt: &R, pool: &Pool<Counters>, client: &mut Client) -> Option<(u64, u64)>
    requires pool { IsCounterPool pool.now }
    requires client { IsCounterClient pool.now client.old × (is_live client.old.lent.kept ≡ true) }
    ensures { IsClientBack pool.now client.old client.new }
{
    operations_are_read();
    let mut reply = [0; OP_WORDS];
    let pooled = pool.read(rt, client, &read_words(0), &mut reply);
    match pooled {
        PooledRead::Read(place) => Some((place, reply[1])),
        _ => None,
    }
}

// `one` adds 1, and `other` catches up with the place behind that: whether `other` then reads `sum`. Before, `other` tries a place that is one
// higher, and finds the current place below it. `None` where a client is stopped or a call is not answered.
fn follows<R: Wait>(
    rt: &R,
    pool: &Pool<Counters>,
    one: &mut Client,
    other: &mut Client,
    sum: u64,
) -> Option<bool>
    requires pool { IsCounterPool pool.now }
    requires one { IsCounterClient pool.now one.old }
    requires other { IsCounterClient pool.now other.old }
    ensures one { IsClientBack pool.now one.old one.new }
    ensures other { IsClientBack pool.now other.old other.new }
{
    if !one.is_live() || !other.is_live() {
        return None;
    }
    // `one` adds, and its place is told to `other`, which asks for one place more
    let place = added(rt, pool, one)?;
    let current = found(rt, pool, other, place.wrapping_add(1))?;
    if !other.is_live() {
        return None;
    }
    // `other` catches up with the place itself
    let before = other.caught_up();
    let caught = found(rt, pool, other, place)?;
    if !other.is_live() {
        return None;
    }
    let seen = other.caught_up();
    // `other` reads at the place `at`, which is no lower, and so sees what `one` added
    let (at, sum_read) = read(rt, pool, other)?;
    Some(
        current == place
            && before < place
            && caught == place
            && seen == place
            && at >= place
            && sum_read == sum,
    )
}

// Two clients by turns add 1 and catch up with each other, 20 times, over `callers` callers: whether each reads what the other added.
fn follow_by_turns<R: Wait>(rt: &R, alloc: Global, callers: u32) -> Result<bool, AllocError> {
    let (pool, clients) = opened(rt, alloc, callers, 2, NO_LIMIT)?;
    let mut clients = clients;
    let (Some(mut other), Some(mut one)) = (clients.pop(), clients.pop()) else {
        return Ok(false);
    };
    for turn in 0..20 {
        // what the counter has after the first of this turn's two additions
        let sum = 2 * turn + 1;
        if follows(rt, &pool, &mut one, &mut other, sum) != Some(true) {
            return Ok(false);
        }
        if follows(rt, &pool, &mut other, &mut one, sum + 1) != Some(true) {
            return Ok(false);
        }
    }
    Ok(true)
}

#[test]
fn a_client_follows_another(rt: HostRuntime) -> Result<(), Fail> {
    holds(&rt, follow_by_turns(&rt, rt.alloc(), 1)?);
    holds(&rt, follow_by_turns(&rt, rt.alloc(), 2)?);
    Ok(())
}

// Whether a client whose caller may make one step is stopped while it catches up with place 0, and is no longer live then.
fn is_stopped<R: Wait>(rt: &R, alloc: Global) -> Result<bool, AllocError> {
    let (pool, clients) = opened(rt, alloc, 1, 1, 1)?;
    let mut clients = clients;
    let Some(mut client) = clients.pop() else {
        return Ok(false);
    };
    if !client.is_live() {
        return Ok(false);
    }
    Ok(found(rt, &pool, &mut client, 0).is_none() && !client.is_live())
}

#[test]
fn a_client_is_stopped_where_it_follows(rt: HostRuntime) -> Result<(), Fail> {
    holds(&rt, is_stopped(&rt, rt.alloc())?);
    Ok(())
}

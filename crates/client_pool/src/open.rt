//! A pool is opened.

ghost use Rattle.std.specs.Prelude.{◌≡◌, ◌<◌, ◌≤◌, IfErr, IfOk, IsTrue, map};
ghost use Rattle.crossbeam_queue.specs.Passes.{view, IsPassOf, ruled_capacity};
ghost use Rattle.seat_pool.specs.Pooling.{IsHomeOf, IsPassOpened, cut_left, limits_at};
ghost use Rattle.client_pool.specs.Lending.{IsPool};
ghost use Rattle.client_pool.specs.Pools.{AreNewCallers, AreNewClients, HaveRoom, IsNewClient, AreCallersPlaced};

use crate::client::{Client, Closing};
use crate::pool::{FormerClient, Pool};
use crossbeam_queue::Pass;
use cx_base::{Object, OpWords};
use cx_service::{Caller, Handed, Service};
use seat_pool::{LenderPass, LenderQueue, Lent, place, share};
use std::alloc::{AllocError, Global};
use std::sync::Wait;

/// What `Pool::open` hands back where memory ran out: the service and its callers, as they were.
#[derive(Drop)]
pub struct Unopened<O: Object> {
    pub service: Service<O>,
    pub callers: Vec<Caller>,
}

/// Lists with room for the clients of a pool, and for what closing the pool takes.
#[derive(Drop)]
pub(crate) struct Rooms {
    pub(crate) clients: Vec<Client>,
    pub(crate) lents: Vec<Lent>,
    pub(crate) former: Vec<FormerClient>,
    pub(crate) handed_room: Vec<Handed>,
    pub(crate) out: Vec<Handed>,
}

/// Room for this many callers and clients.
fn rooms_for(alloc: Global, callers: usize, clients: usize) -> Result<Rooms, AllocError>
    ensures { IfOk result (HaveRoom callers clients) }
{
    Ok(Rooms {
        clients: Vec::with_capacity(alloc, clients)?,
        lents: Vec::with_capacity(alloc, clients)?,
        former: Vec::with_capacity(alloc, clients)?,
        handed_room: Vec::with_capacity(alloc, callers)?,
        out: Vec::with_capacity(alloc, callers)?,
    })
}

/// Places all callers of the service in its queue.
fn place_all<O: Object, R: Wait>(
    rt: &R,
    service: &Service<O>,
    line: &LenderQueue,
    pass: Pass<Caller, LenderPass>,
    callers: Vec<Caller>,
) -> Pass<Caller, LenderPass>
    requires pass { IsPassOf line.now pass × IsPassOpened service.now (map (λ c. c.known.local.limit) callers.items) (view pass) }
    requires room { ruled_capacity line.now ≡ service.now.callers }
    requires callers { AreNewCallers service.now callers.items }
    ensures placed { IsPassOf line.now result × AreCallersPlaced service.now 0 (view result) }
    ensures limits { limits_at (view result).home ≡ map (λ c. c.known.local.limit) callers.items }
{
    let mut pass = pass;
    for caller in callers {
        place(rt, service, line, &mut pass, caller);
    }
    pass
}

/// Makes a client that has made no call. Its own pass of the queue gets one part of `pass`: one of the 1,024 parts into which the right to know the whole
/// queue is cut (see `seat_pool::LenderPass`).
fn new_client<O: Object>(
    alloc: Global,
    service: &Service<O>,
    line: &LenderQueue,
    pass: &mut Pass<Caller, LenderPass>,
    number: u32,
) -> Client
    // Three facts: the pass is one of this queue, it knows that the queue is this service's, and it has a part for the client beside one for itself.
    requires { IsPassOf line.now pass.old × IsHomeOf service.now (view pass.old).home × (1 < (view pass.old).parts) }
    // The pass is still one of this queue, and has one part less.
    ensures pass { IsPassOf line.now pass.new × (view pass.new ≡ cut_left (view pass.old)) }
    ensures client { IsNewClient service.now line.now.table.shared.table_id (limits_at (view pass.old).home) number result }
{
    Client {
        number,
        floor: service.place(),
        caught_up: 0,
        answers: Vec::new(alloc),
        lent: Lent {
            pass: share(service, line, pass),
            kept: None,
        },
        closing: None,
    }
}

/// Makes the clients of a pool, numbered from 0. The last client gets what closing the pool takes: the rest of the first pass, and the rooms.
fn new_clients<O: Object>(
    alloc: Global,
    service: &Service<O>,
    line: &LenderQueue,
    pass: Pass<Caller, LenderPass>,
    rooms: Rooms,
    count: u32,
) -> Vec<Client>
    requires pass { IsPassOf line.now pass × AreCallersPlaced service.now 0 (view pass) }
    requires rooms { HaveRoom service.now.callers count rooms }
    requires count { (1 ≤ count) × (count ≤ 64) }
    ensures { AreNewClients service.now line.now.table.shared.table_id (limits_at (view pass).home) count result.items }
{
    let mut pass = pass;
    let Rooms {
        mut clients,
        lents,
        former,
        handed_room,
        out,
    } = rooms;
    for number in 0..count - 1 {
        let client = new_client(alloc, service, line, &mut pass, number);
        clients.push_reserved(client);
    }
    let mut last = new_client(alloc, service, line, &mut pass, count - 1);
    last.closing = Some(Closing {
        rest: pass,
        lents,
        former,
        handed_room,
        out,
    });
    clients.push_reserved(last);
    clients
}

impl<O: Object> Pool<O> {
    /// Opens a pool of all callers of a service, of caller 0 first, none of which has linked an entry, and makes `clients` clients that share them, 1 to 64.
    /// The probe is an operation that only reads. `Err` comes only where memory runs out, and hands back the service and its callers.
    ///
    /// The probe reads counter 0. From `crates/life_tests/src/pool_starts.rt`:
    /// ```rattle
    /// let (service, seats) = started(alloc, Counters::of(64, 1_000_000), callers, limit)?;
    /// operations_are_read();
    /// match Pool::open(rt, alloc, service, seats, clients, read_words(0)) {
    ///     Ok((pool, clients)) => Ok((pool, clients)),
    ///     Err(_) => Err(AllocError),
    /// }
    /// ```
    pub fn open<R: Wait>(
        rt: &R,
        alloc: Global,
        service: Service<O>,
        callers: Vec<Caller>,
        clients: u32,
        probe: OpWords,
    ) -> Result<(Pool<O>, Vec<Client>), Unopened<O>>
        requires callers { AreNewCallers service callers.items }
        requires clients { (1 ≤ clients) × (clients ≤ 64) }
        requires probe { IsTrue (O.only_reads service.object probe) }
        ensures opened { IfOk result (λ r. (r.0.service ≡ service) × IsPool O.only_reads r.0 × AreNewClients service r.0.line.table.shared.table_id (map (λ c. c.known.local.limit) callers.items) clients r.1.items) }
        ensures kept { IfErr result (λ k. (k.service ≡ service) × (k.callers ≡ callers)) }
    {
        // a running service is within its limits: it has one caller at least
        let _lines = service.lines();
        let Ok(rooms) = rooms_for(alloc, callers.len(), clients as usize) else {
            return Err(Unopened { service, callers });
        };
        let Ok((line, pass)) = seat_pool::open(alloc, &service, callers.as_slice()) else {
            return Err(Unopened { service, callers });
        };
        let pass = place_all(rt, &service, &line, pass, callers);
        let clients = new_clients(alloc, &service, &line, pass, rooms, clients);
        Ok((
            Pool {
                service,
                line,
                probe,
            },
            clients,
        ))
    }
}

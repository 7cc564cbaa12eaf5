//! A pool is closed.

ghost use Rattle.std.specs.Prelude.{◌≡◌, IfErr, IfOk, map, vec_capacity, vec_len};
ghost use Rattle.table_invariant.specs.Running.{instance_at};
ghost use Rattle.seat_pool.specs.Gathering.{IsRoomFor};
ghost use Rattle.client_pool.specs.Pools.{AreClients, IsClosed, IsLeftOpen, former_of};

use crate::client::{Client, Closing};
use crate::pool::{FormerClient, Pool, PoolKept};
use cx_base::Object;
use cx_service::Kept;
use cx_service::closed_order::closed_tables_are_linearizable;
use cx_table::Remains;
use seat_pool::Lent;
use std::alloc::Global;
use std::sync::Wait;

/// Parts the clients into what was lent to each of them, and what is left of each (`FormerClient`), in order. Both lists have room for all.
fn part_clients(
    clients: Vec<Client>,
    mut lents: Vec<Lent>,
    mut former: Vec<FormerClient>,
) -> (Vec<Lent>, Vec<FormerClient>)
    requires lents { IsRoomFor (vec_len clients) lents }
    requires former { IsRoomFor (vec_len clients) former }
    ensures lents { (result.0.items ≡ map (λ c. c.lent) clients.items) × (vec_capacity result.0 ≡ vec_capacity lents) }
    ensures former { (result.1.items ≡ map former_of clients.items) × (vec_capacity result.1 ≡ vec_capacity former) }
{
    for client in clients {
        let Client {
            number,
            floor,
            caught_up: _,
            answers,
            lent,
            closing: _,
        } = client;
        lents.push_reserved(lent);
        former.push_reserved(FormerClient {
            number,
            floor,
            answers,
        });
    }
    (lents, former)
}

impl<O: Object> Pool<O> {
    /// Closes the pool and its service, given all its clients, of client 0 first. The history that is left is a linearization of the calls, by the
    /// order of all callers' steps. All callers are gathered, those in the queue and those that clients keep, each once
    /// and in whatever state it is. The clients' answered entries are those that the callers show as answered, each once, but for at most one of each
    /// stopped caller, whose answer no client got; the clients' reads are among the callers'. `Err` comes only where memory runs out, and hands back
    /// the service, all its callers, of caller 0 first, and what the clients were answered.
    pub fn close<R: Wait>(
        self,
        rt: &R,
        alloc: Global,
        clients: Vec<Client>,
    ) -> Result<Remains, PoolKept<O>>
        requires { AreClients self.service self.line.table.shared.table_id clients.items }
        ensures remains { IfOk result (IsClosed self.service (instance_at self.service O.step O.only_reads) clients.items) }
        ensures kept { IfErr result (IsLeftOpen self.service clients.items) }
    {
        let Pool { service, line, .. } = self;
        let mut clients = clients;
        let Some(last) = clients.pop() else {
            unreachable!()
        };
        let Client {
            number,
            floor,
            caught_up: _,
            answers,
            lent,
            closing,
        } = last;
        let Some(
            Closing {
                rest,
                lents,
                former,
                handed_room,
                out,
            },
        ) = closing
        else {
            unreachable!()
        };
        let (mut lents, mut former) = part_clients(clients, lents, former);
        lents.push_reserved(lent);
        former.push_reserved(FormerClient {
            number,
            floor,
            answers,
        });
        // a running table is within its limits
        let _lines = service.lines();
        // what such a table leaves when it is closed is what a linearizable object leaves, by the order of all callers' steps
        closed_tables_are_linearizable::<O>();
        match seat_pool::close(rt, alloc, service, line, rest, lents, handed_room, out) {
            Ok(remains) => Ok(remains),
            Err(Kept { service, callers }) => Err(PoolKept {
                service,
                callers,
                clients: former,
            }),
        }
    }
}

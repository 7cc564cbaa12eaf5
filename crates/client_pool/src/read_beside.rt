//! A read of a client.

ghost use Rattle.std.specs.Prelude.{◌≤◌, IsTrue};
ghost use Rattle.client_pool.specs.Clients.{MayCall, ReadsForClient};
ghost use Rattle.client_pool.specs.Lending.{IsOut, IsPool, ReadsBesideQueue};

use crate::call::Answered;
use crate::client::Client;
use crate::lend::{EntryOutcome, begin, settle};
use crate::pool::{Pool, PooledRead};
use cx_base::{Object, OpWords};
use cx_service::{Answer, Caller, ReadDone, Seen, Updated};
use seat_pool::{Lent, give};
use std::sync::Wait;
use std::thread;

/// The result of an operation that only reads.
#[derive(Drop)]
pub(crate) enum LookupOutcome {
    /// The read is answered beside the queue at this place.
    Found(u64),
    /// The read entered the queue, with this result.
    Entered(EntryOutcome),
}

/// Reads by `caller`, which was taken for the call, until the place of what was read is not below `floor`, or the read enters the queue.
fn read_beside<O: Object, R: Wait>(
    rt: &R,
    pool: &Pool<O>,
    lent: &mut Lent,
    caller: Caller,
    floor: u64,
    op: &OpWords,
    reply: &mut OpWords,
) -> LookupOutcome
    requires pool { IsPool O.only_reads pool.now }
    requires out { IsOut pool.now.service pool.now.line.table.shared.table_id lent.old caller × (floor ≤ caller.known.local.front) }
    requires reads { IsTrue (O.only_reads pool.now.service.object op.now) }
    ensures { ReadsBesideQueue pool.now.service pool.now.line.table.shared.table_id op.now reply.new floor caller lent.old lent.new result }
{
    let mut caller = caller;
    for _ in rt.forever() {
        let updated = match pool.service.read(rt, caller, op, reply) {
            ReadDone::Read(back, place) => {
                if place >= floor {
                    give(rt, &pool.service, &pool.line, &mut lent.pass, back);
                    return LookupOutcome::Found(place);
                }
                thread::yield_now();
                caller = back;
                continue;
            }
            // a read that was answered as an entry of the queue is settled as an update is
            ReadDone::Queued(back, ticket) => Updated::Done(back, ticket),
            ReadDone::Full(back, note) => Updated::Full(back, note),
            ReadDone::Worn(back) => Updated::Worn(back),
            ReadDone::Halted(stopped) => Updated::Halted(stopped),
        };
        return LookupOutcome::Entered(settle(rt, pool, lent, updated));
    }
    unreachable!()
}

impl<O: Object> Pool<O> {
    /// Answers an operation that only reads for a client never answered `Stopped`, by a caller that has seen all that the client was answered before or
    /// caught up with: beside the queue, or as an entry of it. The reply is written into `reply` as in `update`. A read whose place is below the
    /// client's place is made again. The call waits as `update` does, and `Full`, `Worn`, `Stopped` and `Memory` are as there.
    pub fn read<R: Wait>(
        &self,
        rt: &R,
        client: &mut Client,
        op: &OpWords,
        reply: &mut OpWords,
    ) -> PooledRead
        requires may { MayCall O.only_reads self.now client.old }
        requires reads { IsTrue (O.only_reads self.now.service.object op.now) }
        ensures { ReadsForClient self.now.service self.now.line.table.shared.table_id op.now reply.new client.old client.new result }
    {
        if client.answers.reserve(1).is_err() {
            return PooledRead::Memory;
        }
        let floor = client.place();
        match begin(rt, self, &mut client.lent, floor, reply) {
            Ok(caller) => match read_beside(rt, self, &mut client.lent, caller, floor, op, reply) {
                LookupOutcome::Found(place) => {
                    let reply = *reply;
                    let seen = Seen { place, reply };
                    client.answers.push_reserved(Answered::Read { seen });
                    client.floor = place;
                    PooledRead::Read(place)
                }
                LookupOutcome::Entered(EntryOutcome::Done(caller, ticket)) => {
                    let reply = *reply;
                    let answer = Answer { ticket, reply };
                    client
                        .answers
                        .push_reserved(Answered::Updated { caller, answer });
                    client.floor = ticket + 1;
                    PooledRead::Queued(ticket)
                }
                LookupOutcome::Entered(EntryOutcome::Full(note)) => PooledRead::Full(note),
                LookupOutcome::Entered(EntryOutcome::Worn) => PooledRead::Worn,
                LookupOutcome::Entered(EntryOutcome::Halted(linked)) => PooledRead::Stopped {
                    linked,
                },
            },
            Err(linked) => PooledRead::Stopped { linked },
        }
    }
}

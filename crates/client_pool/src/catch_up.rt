//! A client catches up with what another one was answered.

ghost use Rattle.client_pool.specs.Clients.{ClientCatchesUp, MayCall};
ghost use Rattle.client_pool.specs.Lending.{ClientSees, MayLend};

use crate::client::Client;
use crate::lend::{keep_stopped, take_for};
use crate::pool::{Pool, PooledCatchUp};
use cx_base::Object;
use cx_service::CaughtUp;
use seat_pool::{Lent, give};
use std::sync::Wait;

/// Takes a caller for the client, has it see `place`, and gives it back. Where its step limit was reached the client keeps it.
fn catch_up_lent<O: Object, R: Wait>(
    rt: &R,
    pool: &Pool<O>,
    lent: &mut Lent,
    place: u64,
) -> PooledCatchUp
    requires { MayLend O.only_reads pool.now lent.old }
    ensures { ClientSees pool.now.service pool.now.line.table.shared.table_id place lent.old lent.new result }
{
    let caller = take_for(rt, &pool.service, &pool.line, lent);
    match pool.service.catch_up(caller, place) {
        CaughtUp::Caught(back) => {
            give(rt, &pool.service, &pool.line, &mut lent.pass, back);
            PooledCatchUp::Caught
        }
        CaughtUp::Behind(back, found) => {
            give(rt, &pool.service, &pool.line, &mut lent.pass, back);
            PooledCatchUp::Behind(found)
        }
        CaughtUp::Halted(stopped) => {
            // catching up links no entry, so the stopped caller has none
            let _none = keep_stopped(lent, stopped);
            PooledCatchUp::Stopped
        }
    }
}

impl<O: Object> Pool<O> {
    /// Has a client that was never answered `Stopped` catch up with a place that it got in whatever way: `Client::place` of another client, or of a
    /// caller's answers the ticket plus 1 of an update and the place of a read. From `Caught` on no answer to the client holds below `place`, by
    /// whichever caller it is made. `Behind` comes only where the current place was found below `place`, which is where nobody was answered at it;
    /// the client's place is as before then. After both the client keeps no caller. The call waits for a caller. `Stopped` comes only where the
    /// caller's step limit was reached: the client keeps that caller, and makes no further call.
    pub fn catch_up<R: Wait>(&self, rt: &R, client: &mut Client, place: u64) -> PooledCatchUp
        requires { MayCall O.only_reads self.now client.old }
        ensures { ClientCatchesUp self.now.service self.now.line.table.shared.table_id place client.old client.new result }
    {
        match catch_up_lent(rt, self, &mut client.lent, place) {
            PooledCatchUp::Caught => {
                client.caught_up = client.caught_up.max(place);
                PooledCatchUp::Caught
            }
            PooledCatchUp::Behind(found) => PooledCatchUp::Behind(found),
            PooledCatchUp::Stopped => PooledCatchUp::Stopped,
        }
    }
}

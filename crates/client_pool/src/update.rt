//! An update of a client.

ghost use Rattle.client_pool.specs.Clients.{MayCall, UpdatesForClient};

use crate::call::Answered;
use crate::client::Client;
use crate::lend::{EntryOutcome, begin, settle};
use crate::pool::{Pool, Pooled};
use cx_base::{Object, OpWords};
use cx_service::Answer;
use std::sync::Wait;

impl<O: Object> Pool<O> {
    /// Enters an operation into the queue for a client never answered `Stopped`, by a caller that has seen all that the client was answered before or caught
    /// up with. It waits for a caller, and for those who link and publish. `Full`, `Worn` and `Stopped` come only where the service answered the caller so in
    /// this call: the client keeps it, and its answers and its floor are as before. `Memory` is want of room for the answer, and leaves all as it was. The
    /// reply is written into `reply`, which may have any words where the operation is not answered.
    ///
    /// From `crates/life_tests/src/server.rt`:
    /// ```rattle
    /// let pooled = pool.update(rt, client, &add_words(0, amount), &mut reply);
    /// match pooled {
    ///     Pooled::Done(_) => Told::Sum(reply[1]),
    ///     // another caller needs the cells of the one that this client keeps, or there is no room for one answer more
    ///     Pooled::Full(_) | Pooled::Memory => Told::Busy,
    ///     // no ticket is left, or this client's caller is stopped
    ///     Pooled::Worn | Pooled::Stopped { .. } => Told::Over,
    /// }
    /// ```
    pub fn update<R: Wait>(
        &self,
        rt: &R,
        client: &mut Client,
        op: &OpWords,
        reply: &mut OpWords,
    ) -> Pooled
        requires { MayCall O.only_reads self.now client.old }
        ensures { UpdatesForClient self.now.service self.now.line.table.shared.table_id op.now reply.new client.old client.new result }
    {
        if client.answers.reserve(1).is_err() {
            return Pooled::Memory;
        }
        let floor = client.place();
        match begin(rt, self, &mut client.lent, floor, reply) {
            Ok(caller) => {
                let updated = self.service.update(rt, caller, op, reply);
                match settle(rt, self, &mut client.lent, updated) {
                    EntryOutcome::Done(caller, ticket) => {
                        let reply = *reply;
                        let answer = Answer { ticket, reply };
                        client
                            .answers
                            .push_reserved(Answered::Updated { caller, answer });
                        client.floor = ticket + 1;
                        Pooled::Done(ticket)
                    }
                    EntryOutcome::Full(note) => Pooled::Full(note),
                    EntryOutcome::Worn => Pooled::Worn,
                    EntryOutcome::Halted(linked) => Pooled::Stopped { linked },
                }
            }
            Err(linked) => Pooled::Stopped { linked },
        }
    }
}

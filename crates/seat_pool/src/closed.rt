//! Closing a service whose callers are lent.

ghost use Rattle.std.specs.Prelude.{◌≡◌, All, IfErr, IfOk, List, length};
ghost use Rattle.crossbeam_queue.specs.Passes.{view, IsPassOf};
ghost use Rattle.table_invariant.specs.Running.{instance_at};
ghost use Rattle.cx_service.specs.Closes.{seats_of};
ghost use Rattle.cx_service.specs.declared.close.Handed as close_handed;
ghost use Rattle.cx_table.specs.Remains.{AreSeats, ClosingWitness};
ghost use Rattle.seat_pool.specs.Gathering.{AreCallsTold, IsLentOf, IsRestOf, IsRoomFor};

use crate::gather::gather;
use crate::hand::LenderPass;
use crate::lent::Lent;
use crate::rule::LenderQueue;
use crossbeam_queue::Pass;
use cx_base::Object;
use cx_service::{Caller, Handed, Kept, Service};
use cx_table::Remains;
use std::alloc::Global;
use std::sync::Wait;

/// Closes a service whose callers are in the queue or kept by clients, where `lents` are all that was lent of it. The calls that the passes learned
/// of are those that the callers show as answered, each once, but for at most one of each stopped caller, which no pass knows. `Err` comes only where
/// memory runs out, and hands back the service and all its callers, of caller 0 first. The two rooms are for the callers.
pub fn close<O: Object, R: Wait>(
    rt: &R,
    alloc: Global,
    service: Service<O>,
    line: LenderQueue,
    pass: Pass<Caller, LenderPass>,
    lents: Vec<Lent>,
    gathered: Vec<Handed>,
    out: Vec<Handed>,
) -> Result<Remains, Kept<O>>
    requires pass { IsPassOf line pass × IsRestOf service (view pass) (length lents.items) }
    requires lents { All (IsLentOf service line.table.shared.table_id) lents.items }
    requires rooms { IsRoomFor service.callers gathered × IsRoomFor service.callers out }
    ensures remains { IfOk result (λ r. (handed : List close_handed.Handed) × ClosingWitness service (instance_at service O.step O.only_reads) (seats_of handed) r × AreCallsTold service lents.items handed) }
    ensures kept { IfErr result (λ k. (k.service ≡ service) × AreSeats service (seats_of k.callers.items) × AreCallsTold service lents.items k.callers.items) }
{
    let handed = gather(rt, &service, &line, pass, lents, gathered, out);
    service.close(alloc, handed)
}

//! All callers are gathered: those that clients keep and those in the queue.

ghost use Rattle.std.specs.Prelude.{◌≡◌, ◌<◌, ◌≤◌, ◌++◌, ℕ, [], All, length, vec_capacity};
ghost use Rattle.std.specs.List.{range_with_len};
ghost use Rattle.crossbeam_queue.specs.Passes.{view, IsPassOf};
ghost use Rattle.table_invariant.specs.Seats.{Seated};
ghost use Rattle.cx_service.specs.Closes.{seats_of};
ghost use Rattle.cx_service.specs.declared.close.Handed as handed_type;
ghost use Rattle.cx_service.specs.declared.close.Handed.TheVariants as handed_cases;
ghost use Rattle.cx_table.specs.Remains.{AreSeats};
ghost use Rattle.seat_pool.specs.Gathering.{AreSame, AreCallsTold, Gathers, IsNumberAt, IsHandedOf, IsLentOf, IsRestOf, IsRoomFor, kept_list, handed_number, one_at};
ghost use Rattle.seat_pool.specs.Pooling.{IsHomeOf, IsPassWhole, all_parts, both, total_weight};

use crate::hand::LenderPass;
use crate::lent::Lent;
use crate::queue::{learn, merge, take};
use crate::rule::LenderQueue;
use crossbeam_queue::Pass;
use cx_base::Object;
use cx_service::{Caller, Handed, Service};
use std::sync::Wait;

/// Takes in what was lent to a client: adds what its pass knows and holds to `pass`, and the caller that it keeps to `gathered`.
pub(crate) fn take_in<O: Object>(
    service: &Service<O>,
    line: &LenderQueue,
    pass: &mut Pass<Caller, LenderPass>,
    mut gathered: Vec<Handed>,
    lent: Lent,
) -> Vec<Handed>
    requires pass { IsPassOf line.now pass.old × IsHomeOf service.now (view pass.old).home × (0 < (view pass.old).parts) }
    requires gathered { Gathers service.now (view pass.old).held gathered.items × (service.now.callers ≤ vec_capacity gathered) }
    requires lent { IsLentOf service.now line.now.table.shared.table_id lent }
    ensures pass { IsPassOf line.now pass.new × (view pass.new ≡ both (view pass.old) (view lent.pass)) }
    ensures gathered { Gathers service.now (view pass.new).held result.items × (vec_capacity result ≡ vec_capacity gathered) × (result.items ≡ gathered.items ++ kept_list lent.kept) }
{
    let Lent { pass: other, kept } = lent;
    merge(service, line, pass, other);
    learn(service, line, pass);
    if let Some(handed) = kept {
        gathered.push_reserved(handed);
    }
    gathered
}

/// Takes all callers out of the queue and adds them to `gathered`. `pass` has every part, so no client has a pass any more.
pub(crate) fn drain<O: Object, R: Wait>(
    rt: &R,
    service: &Service<O>,
    line: &LenderQueue,
    pass: &mut Pass<Caller, LenderPass>,
    gathered: Vec<Handed>,
) -> Vec<Handed>
    requires { (IsPassOf line.now pass.old × IsHomeOf service.now (view pass.old).home × ((view pass.old).parts ≡ all_parts)) × (Gathers service.now (view pass.old).held gathered.items × (service.now.callers ≤ vec_capacity gathered)) }
    ensures gathered { Gathers service.now (view pass.new).held result.items }
    ensures whole { IsPassWhole (view pass.new) [] }
    ensures same { ((view pass.new).placed ≡ (view pass.old).placed) × ((view pass.new).told_calls ≡ (view pass.old).told_calls) × ((view pass.new).shown ≡ (view pass.old).shown) }
    ensures more { (f : handed_type.Handed → ℕ) → total_weight f gathered.items ≤ total_weight f result.items }
    ensures idle { (f : handed_type.Handed → ℕ) → ((s : Seated) → f (handed_cases.Idle s) ≡ 0) → total_weight f result.items ≡ total_weight f gathered.items }
{
    let mut gathered = gathered;
    for _ in rt.forever() {
        match take(rt, service, line, pass) {
            Some(caller) => gathered.push_reserved(Handed::Idle(caller)),
            None => return gathered,
        }
    }
    unreachable!()
}

/// The number of a caller, in whatever state it is.
fn number(handed: &Handed) -> u32
    ensures { result ≡ handed_number handed.now }
{
    match handed {
        Handed::Idle(caller) => caller.number(),
        Handed::Linked(linked) => linked.number(),
        Handed::Stopped(stopped) => stopped.number(),
    }
}

/// The place in `gathered` of the caller of the number `wanted`, which is there.
fn find(gathered: &Vec<Handed>, wanted: usize) -> usize
    requires { 0 < total_weight (λ g. one_at wanted (handed_number g)) gathered.now.items }
    ensures { IsNumberAt gathered.now.items result wanted }
{
    let mut place = 0;
    for handed in gathered {
        if number(handed) as usize == wanted {
            return place;
        }
        place += 1;
    }
    unreachable!()
}

/// Puts the gathered callers in order, caller 0 first, where each caller of the service is there once. `out` has room for all.
pub fn in_order<O: Object>(
    service: &Service<O>,
    gathered: Vec<Handed>,
    out: Vec<Handed>,
) -> Vec<Handed>
    requires all { All (IsHandedOf service.now) gathered.items }
    requires numbers { (h : ℕ → ℕ) → total_weight (λ g. h (handed_number g)) gathered.items ≡ total_weight h (range_with_len 0 service.now.callers) }
    requires out { IsRoomFor service.now.callers out }
    ensures all { AreSeats service.now (seats_of result.items) × All (IsHandedOf service.now) result.items }
    ensures same { AreSame result.items gathered.items }
{
    let mut gathered = gathered;
    let mut out = out;
    while !gathered.is_empty() {
        let place = find(&gathered, out.len());
        out.push_reserved(gathered.remove(place));
    }
    out
}

/// All callers of the service, of caller 0 first, where `lents` are all that was lent of the queue. The calls that their passes learned
/// of are the callers' answered calls, but for at most one of each stopped caller, which no pass knows.
pub(crate) fn gather<O: Object, R: Wait>(
    rt: &R,
    service: &Service<O>,
    line: &LenderQueue,
    pass: Pass<Caller, LenderPass>,
    lents: Vec<Lent>,
    gathered: Vec<Handed>,
    out: Vec<Handed>,
) -> Vec<Handed>
    requires pass { IsPassOf line.now pass × IsRestOf service.now (view pass) (length lents.items) }
    requires lents { All (IsLentOf service.now line.now.table.shared.table_id) lents.items }
    requires rooms { IsRoomFor service.now.callers gathered × IsRoomFor service.now.callers out }
    ensures seats { AreSeats service.now (seats_of result.items) }
    ensures are_told { AreCallsTold service.now lents.items result.items }
{
    let mut pass = pass;
    let mut lents = lents;
    let mut gathered = gathered;
    while let Some(lent) = lents.pop() {
        gathered = take_in(service, line, &mut pass, gathered, lent);
    }
    let gathered = drain(rt, service, line, &mut pass, gathered);
    in_order(service, gathered, out)
}

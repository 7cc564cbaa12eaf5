//! The last session gathers all callers of the service.

ghost use Rattle.std.specs.Prelude.{◌≤◌, List, vec_capacity};
ghost use Rattle.table_invariant.specs.Running.{Running};
ghost use Rattle.cx_service.specs.declared.close.Handed as handed_type;
ghost use Rattle.c_sessions.specs.Handing.{HasTaken};

use crate::handover::ReturnQueue;
use crate::rule::{HandedIn, Knows};
use crossbeam_queue::Pass;
use cx_base::Object;
use cx_service::{Handed, Service};
use std::alloc::Global;
use std::sync::Arc;

/// Takes callers out of the queue `handover`, beside those that were taken out before, `gathered`, until they are as many as the service has, or
/// none is found. Of the shares of the service that come with them one is kept, the last. The result is that share and all callers taken out.
/// `gathered` has to have room for all callers of the service, so no memory is taken.
pub(crate) fn gather<O: Object>(
    handover: &ReturnQueue<O>,
    pass: &mut Pass<HandedIn<O>, Knows<O>>,
    share: Option<Arc<Service<O>, Global>>,
    gathered: Vec<Handed>,
) -> (Option<Arc<Service<O>, Global>>, Vec<Handed>)
    requires taken { (r : Running O) × (given : List handed_type.Handed) × HasTaken r given handover.now pass.old share gathered.items }
    requires room { handover.now.callers ≤ vec_capacity gathered }
    ensures taken { (r : Running O) (given : List handed_type.Handed) → HasTaken r given handover.now pass.old share gathered.items → HasTaken r given handover.now pass.new result.0 result.1.items }
    ensures room { handover.now.callers ≤ vec_capacity result.1 }
{
    let mut share = share;
    let mut gathered = gathered;
    while gathered.len() < handover.callers as usize {
        // none is found: a caller is missing, or others were in the way
        let Some(HandedIn { service, handed }) = handover.take(pass) else {
            return (share, gathered);
        };
        let Some(handed) = handed else { unreachable!() };
        share = Some(service);
        gathered.push_reserved(handed);
    }
    (share, gathered)
}

//! The place that is recovered after a crash.

ghost use Rattle.std.specs.Prelude.{◌≡◌, ◌%◌, ◌≤◌, IfOk, length, vec_len};
ghost use Rattle.cx_core.specs.Chain.{IsCodeChain};
ghost use Rattle.cx_core.specs.Lawful.{Lawful};
ghost use Rattle.cx_core.specs.State.{instance_of};
ghost use Rattle.caller_cache.specs.Wins.{wins_of};
ghost use Rattle.trace_check.specs.Lines.{LeavesPlace};

use caller_cache::lead_on;
use core_events::CoreState;
use cx_base::{Object, root_place};
use cx_core::{Local, WonCode};
use std::alloc::{AllocError, Global};

/// The place that is recovered from what a crash leaves of a state by choice. `Err` means out of memory.
pub(crate) fn place_left<O: Object>(
    alloc: Global,
    object: &O,
    core: &CoreState,
    choice: u64,
) -> Result<u64, AllocError>
    requires { Lawful (instance_of core.now (O.step object.now) (O.only_reads object.now)) core.now.state }
    ensures { IfOk result (λ place. LeavesPlace (instance_of core.now (O.step object.now) (O.only_reads object.now)) core.now.state choice place) }
{
    let callers = core.callers();
    let codes = codes_of(alloc, object, core)?;
    let code = codes[(choice % codes.len() as u64) as usize];
    Ok(root_place(callers, code))
}

/// The codes published from the durable one on. `Err` means out of memory.
fn codes_of<O: Object>(alloc: Global, object: &O, core: &CoreState) -> Result<Vec<u64>, AllocError>
    requires { Lawful (instance_of core.now (O.step object.now) (O.only_reads object.now)) core.now.state }
    ensures { IfOk result (λ codes. IsCodeChain core.now.state.words core.now.state.locals codes.items) }
{
    let wins = wins_held(alloc, core.locals())?;
    let mut codes = Vec::with_capacity(alloc, wins.len() + 1)?;
    lead_on(wins, core.dur(), &mut codes);
    Ok(codes)
}

/// The wins of callers that are not retired, of caller 0 first. `Err` means out of memory.
fn wins_held(alloc: Global, locals: &[Local]) -> Result<Vec<WonCode>, AllocError>
    requires { length locals.now ≤ 8 }
    ensures wins { IfOk result (λ wins. wins.items ≡ wins_of locals.now) }
    ensures few { IfOk result (λ wins. vec_len wins ≤ length locals.now) }
{
    let mut wins = Vec::new(alloc);
    for local in locals {
        if let Some(won) = local.won {
            wins.push(won)?;
        }
    }
    Ok(wins)
}

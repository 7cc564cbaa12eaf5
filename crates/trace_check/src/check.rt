//! The check of a trace.

ghost use Rattle.std.specs.Prelude.{IfOk};
ghost use Rattle.cx_core.specs.State.{Instance, opening_state};
ghost use Rattle.trace_check.specs.GoodTraces.{IsSafeTrace, MayCheckTrace};
ghost use Rattle.trace_check.specs.Lines.{IsVerdict};
ghost use Rattle.trace_check.specs.Verdicts.{IsOnlyFound, OnYes};

use crate::left::place_left;
use core_events::{CoreState, apply};
use cx_base::Object;
use cx_core::Base;
use std::alloc::{AllocError, Global};
use trace_text::{Trace, TraceWhat};

/// What is found of a trace.
#[derive(Clone, Copy, Debug, PartialEq, Eq, Drop)]
pub enum Verdict {
    /// It is good; how many events and crashes it has.
    Yes { events: u64, crashes: u64 },
    /// The guard of the event of this line fails.
    Guard { line: u64 },
    /// After the crash of this line another place is recovered.
    Place { line: u64, found: u64 },
}

/// Checks a trace over an object, from the base with which its service opens. `Err` means out of memory. The time is that of the events,
/// each as `apply` takes it, and for a crash a walk over the callers.
pub fn check_trace<O: Object>(
    alloc: Global,
    object: &O,
    base: &Base,
    trace: &Trace,
) -> Result<Verdict, AllocError>
    requires { MayCheckTrace O.Object object.now base.now trace.now.callers }
    // The verdict is of the first line that fails, or that there is none, and no other is: so it is `Yes` exactly where the trace is good.
    ensures found { let instance : Instance = record { callers = trace.now.callers; base = base.now; step = O.step object.now; reads = O.only_reads object.now } in
        IfOk result (IsOnlyFound (O.line_count object.now) (O.version_number object.now) (O.lawful object.now) instance (opening_state trace.now.callers base.now) trace.now.steps) }
    // Where there is none, each state is lawful, and nothing answered is lost.
    ensures safe { let instance : Instance = record { callers = trace.now.callers; base = base.now; step = O.step object.now; reads = O.only_reads object.now } in
        IfOk result (λ verdict. OnYes verdict (IsSafeTrace (O.line_count object.now) (O.lawful object.now) instance (opening_state trace.now.callers base.now) trace.now.steps)) }
{
    walk_trace(alloc, object, base, trace)
}

/// Checks a trace by lines that are good one after another.
fn walk_trace<O: Object>(
    alloc: Global,
    object: &O,
    base: &Base,
    trace: &Trace,
) -> Result<Verdict, AllocError>
    requires { MayCheckTrace O.Object object.now base.now trace.now.callers }
    ensures { let instance : Instance = record { callers = trace.now.callers; base = base.now; step = O.step object.now; reads = O.only_reads object.now } in
        IfOk result (IsVerdict instance (opening_state trace.now.callers base.now) trace.now.steps) }
{
    let mut core = CoreState::opening(alloc, object, trace.callers, base)?;
    let mut events = 0;
    let mut crashes = 0;
    for step in trace.steps.as_slice() {
        match step.what {
            TraceWhat::Event(event) => {
                if !apply(alloc, object, &mut core, &event)? {
                    return Ok(Verdict::Guard { line: step.line });
                }
                events += 1;
            }
            TraceWhat::Crash { choice, place } => {
                let found = place_left(alloc, object, &core, choice)?;
                if found != place {
                    return Ok(Verdict::Place {
                        line: step.line,
                        found,
                    });
                }
                crashes += 1;
            }
        }
    }
    Ok(Verdict::Yes { events, crashes })
}

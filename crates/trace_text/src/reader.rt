//! Traces read from their text.

ghost use Rattle.std.specs.Prelude.{◌≡◌, IfErr, IfOk, OnOk};
ghost use Rattle.plain_text.specs.LineGrammar.{IsOkOr, outcome};
ghost use Rattle.trace_text.specs.Reading.{judged_trace, with_head};
ghost use Rattle.trace_text.specs.Traces.{IsTraceWithin, IsTrace, IsTraceFault};
ghost use Rattle.trace_text.specs.declared.trace.TraceLines.TheVariants.{Begun};

use crate::events::read_what;
use crate::heads::read_head;
use crate::trace::{Trace, TraceFault, TraceLine, TraceLines, TraceReason};
use cx_base::Items;
use plain_text::{LineReader, read_lines};
use std::alloc::{AllocError, Global};

/// The most lines behind the first.
const MAX_STEPS: usize = 10_000;

/// Reads a trace. It is Ok exactly for traces, unless memory runs out. Other texts are refused by the first line with which the
/// lines so far are none, or by the first where there is no line.
pub fn read_trace(alloc: Global, bytes: &[u8]) -> Result<Trace, TraceFault>
    // The trace that is returned is the one that `bytes` are the text of.
    ensures read { IfOk result (IsTrace bytes.now) }
    // Where `bytes` are the text of a trace, that trace is returned, unless memory runs out.
    ensures only { (trace : Trace) → IsTrace bytes.now trace → IsOkOr trace result }
    // Its numbers are within their limits, and each step has the number of its line.
    ensures kept { IfOk result IsTraceWithin }
    // The line refused is the first with which the lines so far are none, with the first reason that fits.
    ensures refused { IfErr result (IsTraceFault bytes.now) }
{
    match read_lines(alloc, bytes, TraceLines::Nothing)? {
        TraceLines::Nothing => Err(TraceFault::Refused {
            line: 1,
            reason: TraceReason::Trace,
        }),
        TraceLines::Begun(trace) => Ok(trace),
    }
}

impl LineReader for TraceLines {
    ghost use Rattle.trace_text.specs.Traces.{KeepsTraceLimits, trace_grammar};
    ghost use Rattle.trace_text.specs.Reading.{judged_trace};
    ghost use Rattle.trace_text.specs.Judging.{reads_traces};

    type Reason = TraceReason;

    ghost grammar = { trace_grammar };

    ghost judged = { judged_trace };

    ghost Keeps = { KeepsTraceLimits };

    /// Adds a line, or gives the reason for which it is refused.
    fn add_line(&mut self, alloc: Global, line: &[u8]) -> Result<Option<TraceReason>, AllocError> {
        match self {
            TraceLines::Nothing => {
                let Some((callers, lines)) = read_head(line) else {
                    return Ok(Some(TraceReason::Trace));
                };
                *self = TraceLines::Begun(with_head(alloc, callers, lines));
                Ok(None)
            }
            TraceLines::Begun(trace) => add_step(alloc, trace, line),
        }
    }

    ghost reads = { reads_traces };
}

/// The trace without steps.
fn with_head(alloc: Global, callers: u32, lines: u64) -> Trace
    ensures { result ≡ with_head (callers, lines) }
{
    Trace {
        callers,
        lines,
        steps: Items::new(alloc),
    }
}

/// Adds a line behind the first, or gives the reason for which it is refused. `Err` means out of memory; the trace is of no use
/// then.
fn add_step(
    alloc: Global,
    trace: &mut Trace,
    line: &[u8],
) -> Result<Option<TraceReason>, AllocError>
    ensures value { IfOk result (λ refused. judged_trace (Begun trace.old) line.now ≡ outcome refused (Begun trace.new)) }
    ensures keeps { OnOk result (IsTraceWithin trace.old → IsTraceWithin trace.new) }
{
    let count = trace.steps.len();
    if count >= MAX_STEPS {
        return Ok(Some(TraceReason::Events));
    }
    let Some(what) = read_what(alloc, trace.callers, line)? else {
        return Ok(Some(TraceReason::Event));
    };
    let line = count as u64 + 2;
    trace.steps.push(TraceLine { line, what })?;
    Ok(None)
}

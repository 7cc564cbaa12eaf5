//! The verdict on a trace over documents.

ghost use Rattle.std.specs.Prelude.{◌≡◌, ◌++◌, IfOk, OnOk};
ghost use Rattle.trace_text.specs.Traces.{IsTraceWithin};
ghost use Rattle.doc_commands.specs.TraceTexts.{IsTraceVerdict, found_text, verdict_text};

use cx_core::Base;
use doc_store::DocStore;
use plain_text::write_labelled;
use std::alloc::{AllocError, Global};
use trace_check::{Verdict, check_trace};
use trace_text::Trace;

/// The text of the verdict on a trace. `Err` means out of memory.
pub fn verdict_of_trace(alloc: Global, trace: &Trace) -> Result<Vec<u8>, AllocError>
    requires { IsTraceWithin trace.now }
    ensures { IfOk result (λ text. IsTraceVerdict trace.now text.items) }
{
    let store = DocStore::of(trace.lines);
    let base = Base::fresh(alloc, &store)?;
    let verdict = check_trace(alloc, &store, &base, trace)?;
    text_of(alloc, verdict)
}

/// A verdict as a text.
fn text_of(alloc: Global, verdict: Verdict) -> Result<Vec<u8>, AllocError>
    ensures { IfOk result (λ text. text.items ≡ verdict_text verdict) }
{
    let mut out = Vec::new(alloc);
    write_found(&mut out, verdict)?;
    out.extend_from_slice(b"\n")?;
    Ok(out)
}

/// Writes the text of a verdict behind what `out` has. After an `Err`, `out` may have any bytes there.
fn write_found(out: &mut Vec<u8>, verdict: Verdict) -> Result<(), AllocError>
    ensures { OnOk result (out.new.items ≡ out.old.items ++ found_text verdict) }
{
    match verdict {
        Verdict::Yes { events, crashes } => {
            write_labelled(out, b"yes events ", events)?;
            write_labelled(out, b" crashes ", crashes)
        }
        Verdict::Guard { line } => {
            write_labelled(out, b"no line ", line)?;
            out.extend_from_slice(b": guard")
        }
        Verdict::Place { line, found } => {
            write_labelled(out, b"no line ", line)?;
            write_labelled(out, b": place ", found)
        }
    }
}

//! A source and a sink whose calls move a byte each, and of which one call fails, each in turn.

use crate::faults_of_ends::{sink, source};
use crate::holds::holds;
use crate::program_runs::{REPORT, run_over, words_of};
use cx_base::{OpenGate, Sink};
use std::alloc::AllocError;
use std::sync::Wait;
use std::test::Fail;
use std::thread::Threads;

/// Whether it is the source or the sink of a run of which a call fails.
#[derive(Clone, Copy)]
enum Failing {
    Source,
    Sink,
}

/// Runs of one script, in each of which one call fails: whether that is a call of the source or of the sink; its number in the first run, and in the
/// last, counted from 1 and higher by 1 in each run; and the exit code of each run: 0 is success, 4 a fault of the source, 5 a fault of the sink.
type Row = (Failing, u64, u64, u8);

// End that fails, first failing call, last failing call, exit code.
const ROWS: [Row; 4] = [
    // the script has 52 bytes, and one read more finds its end; there is no call 54, so that run succeeds
    (Failing::Source, 1, 53, 4),
    (Failing::Source, 54, 54, 0),
    // the report has 125 bytes; there is no call 126
    (Failing::Sink, 1, 125, 5),
    (Failing::Sink, 126, 126, 0),
];

/// What a run has written that ends with `code`, where call number `call` fails: all of the report, nothing where the source failed, and the bytes
/// before call `call` where the sink failed, since each call writes one byte.
fn written(code: u8, call: u64) -> &'static str {
    match code {
        0 => REPORT,
        5 => REPORT.get(..call.saturating_sub(1) as usize).unwrap_or("?"),
        _ => "",
    }
}

/// Whether a run in which one call fails ends with this exit code, and has written what `written` returns for it.
fn is_right<R: Threads + Wait + Sync + AllocGlobal>(
    rt: &R,
    words: &[String],
    failing: Failing,
    call: u64,
    code: u8,
) -> Result<bool, AllocError> {
    let alloc = rt.alloc();
    // the number of the call that fails, of the source and of the sink; 0 is none
    let (reads, writes) = match failing {
        Failing::Source => (call, 0),
        Failing::Sink => (0, call),
    };
    // each call moves one byte at most
    let mut source = source(alloc, (1, reads))?;
    let mut sink = sink(alloc, (1, writes), REPORT.len())?;
    let (got, _) = run_over(rt, words, &mut source, &mut sink, &OpenGate);
    Ok(got == code && sink.written() == written(code, call).as_bytes())
}

/// The index of the first of `rows` with a call whose run ends with another exit code or writes something else, and the number of that call. `None`
/// where all runs are right.
fn first_wrong<R: Threads + Wait + Sync + AllocGlobal>(
    rt: &R,
    rows: &[Row],
) -> Result<Option<(usize, u64)>, AllocError> {
    let words = words_of(rt.alloc(), &["run"])?;
    for (i, (failing, first, last, code)) in rows.iter().enumerate() {
        for call in *first..=*last {
            if !is_right(rt, &words, *failing, call, *code)? {
                return Ok(Some((i, call)));
            }
        }
    }
    Ok(None)
}

// Whichever call of the source or the sink fails, the exit code says which end failed, and what was written before stays.
#[test]
fn each_call_fails_in_turn(rt: HostRuntime) -> Result<(), Fail> {
    holds(&rt, first_wrong(&rt, &ROWS)?.is_none());
    Ok(())
}

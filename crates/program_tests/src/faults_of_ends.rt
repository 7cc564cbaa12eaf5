//! Faults of a source and a sink, and a sink without room.

use crate::holds::holds;
use crate::program_runs::{REPORT, SCRIPT, run_over, words_of};
use cx_base::{OpenGate, Sink, VecSink, VecSource};
use std::alloc::{AllocError, Global};
use std::sync::Wait;
use std::test::Fail;
use std::thread::Threads;

/// A source or a sink: the most bytes of a call, at least 1, and the call that fails, counted from 1; 0 is none.
pub(crate) type End = (usize, u64);

/// The result of a run: its exit code (0 is success, 4 a fault of the source, 5 a fault of the sink), how many trails it leaves (one for each of its
/// lives, and none where the run fails), and what it writes.
type Came<'a> = (u8, usize, &'a str);

/// A run: its words, its source, its sink with the room that it has, and its result.
type Row = (&'static [&'static str], End, End, usize, Came<'static>);

// The words of a command that runs the script of its source.
const RUN: &[&str] = &["run"];

// The words of a command that has no script: 2 clients make 3 updates each.
const LOAD: &[&str] = &["load", "0", "2", "3"];

// Words; source and sink, each with the most bytes of a call and the call that fails; room of the sink; and exit code, trails and text.
const ROWS: [Row; 7] = [
    // the second call of the source fails, or that of the sink
    (RUN, (8, 2), (5, 0), 256, (4, 0, "")),
    (RUN, (8, 0), (5, 2), 256, (5, 0, "life ")),
    // a load does not read its source, so it meets no fault of it
    (
        LOAD,
        (8, 1),
        (5, 0),
        256,
        (0, 1, "clients 2\nupdates 6\ndocuments 6\nsum 105\n"),
    ),
    // the second call of the sink fails
    (LOAD, (8, 0), (5, 2), 256, (5, 0, "clien")),
    // a sink without room
    (RUN, (64, 0), (64, 0), 0, (5, 0, "")),
    (&["walk"], (64, 0), (64, 0), 0, (5, 0, "")),
    (LOAD, (64, 0), (64, 0), 0, (5, 0, "")),
];

/// A source that gives `SCRIPT`, by calls of at most `end.0` bytes, of which call number `end.1` fails.
pub(crate) fn source(alloc: Global, end: End) -> Result<VecSource, AllocError> {
    let fails = Vec::from_slice(alloc, &[end.1])?;
    let bytes = Vec::from_slice(alloc, SCRIPT.as_bytes())?;
    Ok(VecSource::new(bytes, end.0.max(1), fails))
}

/// A sink with `room` bytes of room, which takes at most `end.0` bytes by a call, and of which call number `end.1` fails.
pub(crate) fn sink(alloc: Global, end: End, room: usize) -> Result<VecSink, AllocError> {
    let fails = Vec::from_slice(alloc, &[end.1])?;
    let bytes = Vec::with_capacity(alloc, room)?;
    Ok(VecSink::new(bytes, end.0.max(1), fails))
}

/// Whether a run of the command `words` over this source and this sink has the result `want`.
fn comes_to<R: Threads + Wait + Sync + AllocGlobal>(
    rt: &R,
    words: &[String],
    mut source: VecSource,
    mut sink: VecSink,
    want: Came<'_>,
) -> bool {
    let (code, trails) = run_over(rt, words, &mut source, &mut sink, &OpenGate);
    code == want.0 && trails == want.1 && sink.written() == want.2.as_bytes()
}

/// The index of the first of `rows` whose run has another result; `None` where there is none.
fn first_wrong<R: Threads + Wait + Sync + AllocGlobal>(
    rt: &R,
    rows: &[Row],
) -> Result<Option<usize>, AllocError> {
    let alloc = rt.alloc();
    for (i, (words, reads, writes, room, want)) in rows.iter().enumerate() {
        let words = words_of(alloc, words)?;
        let source = source(alloc, *reads)?;
        let sink = sink(alloc, *writes, *room)?;
        if !comes_to(rt, &words, source, sink, *want) {
            return Ok(Some(i));
        }
    }
    Ok(None)
}

#[test]
fn a_fault_is_told_where_its_call_is_made(rt: HostRuntime) -> Result<(), Fail> {
    holds(&rt, first_wrong(&rt, &ROWS)?.is_none());
    Ok(())
}

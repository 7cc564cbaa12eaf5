//! Whole runs, from words and bytes to a status and bytes.

use crate::holds::holds;
use cx_base::{Gate, OpenGate, Sink, Source, SureSink, SureSource};
use cx_program::cx_run;
use std::alloc::{AllocError, Global};
use std::sync::Wait;
use std::test::Fail;
use std::thread::Threads;

/// A script of one life, and its report.
pub(crate) const SCRIPT: &str = "lines 64\nlife 1 power 0\n0 put a 1\n0 put a 2\n0 get a\n";

/// The report of `SCRIPT`: the updates with their tickets, clients and replies, the read, and what the crash kept.
pub(crate) const REPORT: &str =
    "life 0 clients 1 from 0\n0 0.1 put a 1 = new\n1 0.2 put a 2 = replaced\nread 0.3 at 2 get a = 2\npower 0 kept 2 of 2 documents 1\n";

/// What the program writes where its words are no command.
pub(crate) const USAGE: &str =
    "usage: cx_tool run | image | recover | load FROM CLIENTS OPS | pool SEATS | fifo | trace\n";

/// The words of a command as strings.
pub(crate) fn words_of(alloc: Global, all: &[&str]) -> Result<Vec<String>, AllocError> {
    let mut words = Vec::new(alloc);
    for word in all {
        words.push(String::from_str(alloc, word)?)?;
    }
    Ok(words)
}

/// Runs the command `words` over a source and a sink, where each command of a script passes `gate`. Returns the exit code, and how many trails were
/// left: one for each of its lives, and none where the run fails.
pub(crate) fn run_over<R: Threads + Wait + Sync + AllocGlobal, S: Source, K: Sink, G: Gate + Sync>(
    rt: &R,
    words: &[String],
    source: &mut S,
    sink: &mut K,
    gate: &G,
) -> (u8, usize) {
    let ended = cx_run(rt, rt.alloc(), words, source, sink, gate);
    (ended.status.code(), ended.trails.len())
}

/// The input of a run, its exit code, and how many trails it leaves: one for each life that its report has.
const TRAILS: [(&str, u8, usize); 7] = [
    // no life
    ("", 0, 0),
    ("lines 64\n", 0, 0),
    // one life
    (SCRIPT, 0, 1),
    // two lives without commands
    ("lines 64\nlife 2 power 0\nlife 1 power 3\n", 0, 2),
    (
        // client 1 is stopped before its first step, and the second life reads
        "lines 64\nlife 2 power 0\ncut 1 0\n1 put a 1\nlife 1 power 0\n0 get a\n",
        0,
        2,
    ),
    (
        // three lives, of which the second has no command
        "lines 64\nlife 2 power 0\n0 add n 1\n1 add n 1\nlife 1 power 0\nlife 1 power 0\n0 get n\n",
        0,
        3,
    ),
    // the text is no script, which is the exit code 3
    ("lines 64\nlife 1 power 0\n0 put a {\n", 3, 0),
];

/// The index of the first of `rows` whose run ends with another exit code or leaves another number of trails; `None` where there is none.
fn first_wrong<R: Threads + Wait + Sync + AllocGlobal>(
    rt: &R,
    rows: &[(&str, u8, usize)],
) -> Result<Option<usize>, AllocError> {
    let alloc = rt.alloc();
    let words = words_of(alloc, &["run"])?;
    for (i, (input, code, trails)) in rows.iter().enumerate() {
        let mut sink = SureSink::new(Vec::with_capacity(alloc, 1024)?);
        let mut source = SureSource::new(Vec::from_slice(alloc, input.as_bytes())?);
        let (got, left) = run_over(rt, &words, &mut source, &mut sink, &OpenGate);
        if got != *code || left != *trails {
            return Ok(Some(i));
        }
    }
    Ok(None)
}

#[test]
fn a_run_leaves_a_trail_for_each_life(rt: HostRuntime) -> Result<(), Fail> {
    holds(&rt, first_wrong(&rt, &TRAILS)?.is_none());
    Ok(())
}

//! A reader and a writer that do little, nothing, or fail.

use crate::holds::holds;
use crate::program_runs::{REPORT, SCRIPT, run_over, words_of};
use cx_base::{Failed, OpenGate, Sink, Source};
use cx_program::{StdSink, StdSource};
use std::alloc::{AllocError, Global};
use std::io;
use std::io::{ErrorKind, Read, Write};
use std::sync::Wait;
use std::test::Fail;
use std::thread::Threads;

/// What one call of a reader or a writer does. Calls behind the last of a list read or write all that they can.
#[derive(Clone, Copy)]
enum Does {
    /// The call reads or writes this many bytes at most.
    Bytes(usize),
    /// The call fails with an error of this kind.
    Fails(ErrorKind),
}

/// What call number `call` does, by the list `all`; calls are counted from 0.
fn done(all: &[Does], call: usize) -> Does {
    all.get(call).copied().unwrap_or(Does::Bytes(usize::MAX))
}

/// A reader of a script: what its calls do, how many were made, and the bytes that are left.
#[derive(Drop)]
struct FakeReader<'a> {
    does: &'a [Does],
    calls: usize,
    left: &'a [u8],
}

impl Read for FakeReader<'_> {
    fn read(&mut self, buf: &mut [u8]) -> io::Result<usize> {
        let does = done(self.does, self.calls);
        self.calls = self.calls.saturating_add(1);
        match does {
            Does::Fails(kind) => Err(io::Error::from(kind)),
            Does::Bytes(most) => {
                let n = most.min(buf.len()).min(self.left.len());
                let (piece, left) = self.left.split_at(n);
                buf[..n].copy_from_slice(piece);
                self.left = left;
                Ok(n)
            }
        }
    }
}

/// A writer that keeps what is written: what its calls do, how many were made, and the bytes so far.
#[derive(Drop)]
struct FakeWriter<'a> {
    does: &'a [Does],
    calls: usize,
    written: Vec<u8>,
}

impl Write for FakeWriter<'_> {
    fn write(&mut self, buf: &[u8]) -> io::Result<usize> {
        let does = done(self.does, self.calls);
        self.calls = self.calls.saturating_add(1);
        match does {
            Does::Fails(kind) => Err(io::Error::from(kind)),
            Does::Bytes(most) => {
                let n = most.min(buf.len());
                self.written.extend_from_slice(&buf[..n])?;
                Ok(n)
            }
        }
    }

    fn flush(&mut self) -> io::Result<()> {
        Ok(())
    }
}

// A source over a reader of `SCRIPT` whose calls do what the list `does` says.
fn source<'a>(does: &'a [Does]) -> StdSource<FakeReader<'a>> {
    StdSource::new(FakeReader {
        does,
        calls: 0,
        left: SCRIPT.as_bytes(),
    })
}

// A sink over a writer whose calls do what the list `does` says.
fn sink<'a>(alloc: Global, does: &'a [Does]) -> StdSink<FakeWriter<'a>> {
    StdSink::new(FakeWriter {
        does,
        calls: 0,
        written: Vec::new(alloc),
    })
}

/// What the first six reads of the script do.
const READS: [Does; 6] = [
    Does::Bytes(3),
    Does::Fails(ErrorKind::Interrupted),
    Does::Bytes(2),
    Does::Bytes(0),
    Does::Fails(ErrorKind::Other),
    Does::Fails(ErrorKind::UnexpectedEof),
];

/// The bytes that each of `READS` and one read more gives, or `None` where the read fails; and how many reads have failed by then.
const GIVEN: [(Option<&[u8]>, u64); 7] = [
    (Some(b"lin"), 0),
    (None, 1),
    (Some(b"es"), 1),
    (Some(b""), 1),
    (None, 2),
    (None, 3),
    (Some(b" 64\n"), 3),
];

/// Whether a read gave the bytes `want`, or failed where `want` is `None`.
fn is_given(read: Result<usize, Failed>, buffer: &[u8], want: Option<&[u8]>) -> bool {
    match (read, want) {
        (Ok(n), Some(bytes)) => n == bytes.len() && buffer.get(..n) == Some(bytes),
        (Err(Failed), None) => true,
        _ => false,
    }
}

/// The index of the first of `rows` whose read gives something else than it says, or after which the source counts other numbers of faults or reads.
/// `None` where there is none.
fn first_wrong_read(does: &[Does], rows: &[(Option<&[u8]>, u64)]) -> Option<usize> {
    let mut source = source(does);
    for (i, (want, faults)) in rows.iter().enumerate() {
        let mut buffer = [0; 4];
        let read = source.read(&mut buffer);
        let is_counted = source.faults == *faults && source.reads == i as u64 + 1;
        if !is_given(read, &buffer, *want) || !is_counted {
            return Some(i);
        }
    }
    None
}

/// What the first five writes of `abcd` do.
const WRITES: [Does; 5] = [
    Does::Bytes(3),
    Does::Fails(ErrorKind::Interrupted),
    Does::Bytes(0),
    Does::Bytes(1),
    Does::Fails(ErrorKind::BrokenPipe),
];

/// How many bytes each of `WRITES` and one write more takes, or `None` where the write fails; how many writes have failed by then, and the bytes that
/// were written by then. A write that takes nothing fails too.
const TAKEN: [(Option<usize>, u64, &[u8]); 6] = [
    (Some(3), 0, b"abc"),
    (None, 1, b"abc"),
    (None, 2, b"abc"),
    (Some(1), 2, b"abca"),
    (None, 3, b"abca"),
    (Some(4), 3, b"abcaabcd"),
];

/// The index of the first of `rows` whose write takes something else than it says, or after which the count of faults or the bytes are others. `None`
/// where there is none.
fn first_wrong_write(
    alloc: Global,
    does: &[Does],
    rows: &[(Option<usize>, u64, &[u8])],
) -> Option<usize> {
    let mut sink = sink(alloc, does);
    for (i, (want, faults, written)) in rows.iter().enumerate() {
        let took = sink.write(b"abcd").ok();
        if took != *want || sink.faults != *faults || sink.writer.written.as_slice() != *written {
            return Some(i);
        }
    }
    None
}

/// Two calls that fail.
const FAILING: [Does; 2] = [Does::Fails(ErrorKind::Other), Does::Fails(ErrorKind::Other)];

/// Whether the counts of faults and of reads, which begin at the greatest number less 1, rise to that number by a call that fails, and stay there by
/// a second one.
fn count_ends(alloc: Global) -> bool {
    let mut source = source(&FAILING);
    source.faults = u64::MAX - 1;
    source.reads = u64::MAX - 1;
    let mut sink = sink(alloc, &FAILING);
    sink.faults = u64::MAX - 1;
    for _ in 0..2 {
        let has_failed = source.read(&mut [0; 4]).is_err() && sink.write(b"a").is_err();
        let has_ended = source.faults == u64::MAX && source.reads == u64::MAX;
        if !has_failed || !has_ended || sink.faults != u64::MAX {
            return false;
        }
    }
    true
}

// A source and a sink report of each call what its reader or writer did, and count the calls that failed.
#[test]
fn each_call_is_told(rt: HostRuntime) {
    holds(&rt, first_wrong_read(&READS, &GIVEN).is_none());
    holds(
        &rt,
        first_wrong_write(rt.alloc(), &WRITES, &TAKEN).is_none(),
    );
    holds(&rt, count_ends(rt.alloc()));
}

/// A run of the script: what its reads and its writes do, its exit code (0 is success, 4 a fault of the source, 5 a fault of the sink), and what it
/// writes.
type Row = (&'static [Does], &'static [Does], u8, &'static str);

// Reads, writes, exit code, text.
const ROWS: [Row; 9] = [
    // each call moves all that it can
    (&[], &[], 0, REPORT),
    // short reads, and short writes
    (&[Does::Bytes(1), Does::Bytes(7)], &[], 0, REPORT),
    (&[], &[Does::Bytes(1), Does::Bytes(7)], 0, REPORT),
    // a read of no byte is the end of the input: before the script, and behind its first two lines
    (&[Does::Bytes(0)], &[], 0, ""),
    (
        &[Does::Bytes(24), Does::Bytes(0)],
        &[],
        0,
        "life 0 clients 1 from 0\npower 0 kept 0 of 0 documents 0\n",
    ),
    // an error of a read or a write is a fault, whatever its kind
    (
        &[Does::Bytes(24), Does::Fails(ErrorKind::Other)],
        &[],
        4,
        "",
    ),
    (&[Does::Fails(ErrorKind::Interrupted)], &[], 4, ""),
    (
        &[],
        &[Does::Bytes(5), Does::Fails(ErrorKind::Interrupted)],
        5,
        "life ",
    ),
    // a write that takes nothing is a fault
    (&[], &[Does::Bytes(5), Does::Bytes(0)], 5, "life "),
];

/// The index of the first of `rows` whose run ends with another exit code, or writes something else; `None` where there is none.
fn first_wrong_run<R: Threads + Wait + Sync + AllocGlobal>(
    rt: &R,
    rows: &[Row],
) -> Result<Option<usize>, AllocError> {
    let alloc = rt.alloc();
    let words = words_of(alloc, &["run"])?;
    for (i, (reads, writes, code, text)) in rows.iter().enumerate() {
        let mut source = source(reads);
        let mut sink = sink(alloc, writes);
        let (got, _) = run_over(rt, &words, &mut source, &mut sink, &OpenGate);
        if got != *code || sink.writer.written.as_slice() != text.as_bytes() {
            return Ok(Some(i));
        }
    }
    Ok(None)
}

// A short read or write is no fault: the run goes on. An error is one, and so is a write of no byte.
#[test]
fn a_run_goes_on_past_short_reads_and_writes_alone(rt: HostRuntime) -> Result<(), Fail> {
    holds(&rt, first_wrong_run(&rt, &ROWS)?.is_none());
    Ok(())
}

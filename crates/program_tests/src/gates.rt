//! Gates that a run's commands pass: one that compares, and one that holds a client.

use crate::holds::holds;
use crate::program_runs::{REPORT, SCRIPT, run_over, words_of};
use cx_base::{Gate, Sink, SureSink, SureSource};
use std::alloc::AllocError;
use std::sync::Wait;
use std::sync::atomic::{AtomicBool, AtomicU64, AtomicUsize, Ordering};
use std::test::Fail;
use std::thread::{Threads, yield_now};

/// The calls of a gate in a run of one client with three commands, in order: the client, the number of its command, and whether the call is made
/// after the command was answered; `false` is a call before the command.
const PASSED: [(u32, u64, bool); 6] = [
    (0, 1, false),
    (0, 1, true),
    (0, 2, false),
    (0, 2, true),
    (0, 3, false),
    (0, 3, true),
];

/// A gate that counts its calls, and keeps whether one of them differs from its row in `PASSED`.
#[derive(Drop)]
struct ComparingGate {
    // how many calls were made
    calls: AtomicUsize,
    // whether a call differed from its row
    is_wrong: AtomicBool,
}

impl Gate for ComparingGate {
    fn pass(&self, client: u32, command: u64, after: bool) {
        let call = self.calls.fetch_add(1, Ordering::SeqCst);
        let is_right = match PASSED.get(call) {
            Some((c, n, a)) => *c == client && *n == command && *a == after,
            None => false,
        };
        if !is_right {
            self.is_wrong.store(true, Ordering::SeqCst);
        }
    }
}

/// What a run of `script` by the command `words` writes, where each command of the script passes `gate`; there is room for `room` bytes. `None` where
/// the exit code is not 0.
pub(crate) fn written_past<R: Threads + Wait + Sync + AllocGlobal, G: Gate + Sync>(
    rt: &R,
    words: &[&str],
    script: &str,
    gate: &G,
    room: usize,
) -> Result<Option<SureSink>, AllocError> {
    let alloc = rt.alloc();
    let words = words_of(alloc, words)?;
    let mut sink = SureSink::new(Vec::with_capacity(alloc, room)?);
    let mut source = SureSource::new(Vec::from_slice(alloc, script.as_bytes())?);
    let (code, _) = run_over(rt, &words, &mut source, &mut sink, gate);
    Ok(if code == 0 { Some(sink) } else { None })
}

/// Whether a run of `script` by the command `words`, where each command of the script passes `gate`, ends with the exit code 0 and has written
/// `text`.
fn writes<R: Threads + Wait + Sync + AllocGlobal, G: Gate + Sync>(
    rt: &R,
    words: &[&str],
    script: &str,
    gate: &G,
    text: &str,
) -> Result<bool, AllocError> {
    Ok(match written_past(rt, words, script, gate, 256)? {
        Some(sink) => sink.written() == text.as_bytes(),
        None => false,
    })
}

// The gate is called twice for each command: before it, and after it was answered.
#[test]
fn each_command_passes_the_gate_before_and_after_it(rt: HostRuntime) -> Result<(), Fail> {
    let gate = ComparingGate {
        calls: AtomicUsize::new(0),
        is_wrong: AtomicBool::new(false),
    };
    holds(&rt, writes(&rt, &["run"], SCRIPT, &gate, REPORT)?);
    holds(&rt, gate.calls.load(Ordering::SeqCst) == PASSED.len());
    holds(&rt, !gate.is_wrong.load(Ordering::SeqCst));
    Ok(())
}

/// A script of two clients, each of which adds 1 to n.
const TWO_CLIENTS: &str = "lines 64\nlife 2 power 0\n0 add n 1\n1 add n 1\n";

/// The report of `TWO_CLIENTS` where the addition of client 1 comes first.
const TURNED: &str =
    "life 0 clients 2 from 0\n0 1.1 add n 1 = sum 1\n1 0.1 add n 1 = sum 2\npower 0 kept 2 of 2 documents 1\n";

/// A gate that holds client 0's first command until client 1's first command was answered. It looks 1,000,000,000 times at most.
#[derive(Drop)]
struct HoldingGate {
    /// Whether client 1's first command was answered.
    answered: AtomicBool,
    /// How many looks were left when client 0 went on, and 0 where it waited in vain.
    attempts_left: AtomicU64,
}

impl Gate for HoldingGate {
    fn pass(&self, client: u32, command: u64, after: bool) {
        // client 1's first command was answered
        if client == 1 && command == 1 && after {
            self.answered.store(true, Ordering::SeqCst);
        }
        // only client 0 is held, before its first command
        if client != 0 || command != 1 || after {
            return;
        }
        for turn in 0..1_000_000_000u64 {
            if self.answered.load(Ordering::SeqCst) {
                self.attempts_left
                    .store(1_000_000_000 - turn, Ordering::SeqCst);
                return;
            }
            yield_now();
        }
    }
}

/// Whether in a run of `TWO_CLIENTS` by the command `words`, in which client 0 is held, the addition of client 1 comes first, and client 0 did not
/// wait in vain.
fn comes_second<R: Threads + Wait + Sync + AllocGlobal>(
    rt: &R,
    words: &[&str],
) -> Result<bool, AllocError> {
    let gate = HoldingGate {
        answered: AtomicBool::new(false),
        attempts_left: AtomicU64::new(0),
    };
    let is_right = writes(rt, words, TWO_CLIENTS, &gate, TURNED)?;
    Ok(is_right && gate.attempts_left.load(Ordering::SeqCst) > 0)
}

// So it is where the clients have callers of their own, and where they share a pool of 2 callers.
#[test]
fn a_client_that_is_held_comes_second(rt: HostRuntime) -> Result<(), Fail> {
    holds(&rt, comes_second(&rt, &["run"])?);
    holds(&rt, comes_second(&rt, &["pool", "2"])?);
    Ok(())
}

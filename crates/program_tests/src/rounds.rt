//! Gates by which eight clients go side by side: each command of a client beside one of each other, and a client held in its commands
//! until the others have ended.

use crate::gates::written_past;
use crate::holds::holds;
use cx_base::{Gate, Sink};
use std::alloc::{AllocError, Global};
use std::sync::Wait;
use std::sync::atomic::{AtomicBool, AtomicU64, Ordering};
use std::test::Fail;
use std::thread::{Threads, yield_now};

/// The clients of the script.
const CLIENTS: u64 = 8;

/// The commands of each client.
const COMMANDS: u64 = 8;

/// How often a client that is held looks whether it may go on, at most.
const TURNS: u64 = 1_000_000_000;

/// A count of calls at a gate, and whether a client waited for it in vain (`is_worn`).
#[derive(Drop)]
struct Count {
    count: AtomicU64,
    is_worn: AtomicBool,
}

impl Count {
    // The count 0, for which nobody has waited.
    fn new() -> Count {
        Count {
            count: AtomicU64::new(0),
            is_worn: AtomicBool::new(false),
        }
    }

    /// Counts one call more.
    fn add(&self) {
        self.count.fetch_add(1, Ordering::SeqCst);
    }

    /// Waits until the count is at least `least`. It looks `TURNS` times at most, and then notes that the client waited in vain.
    fn wait(&self, least: u64) {
        for _turn in 0..TURNS {
            if self.count.load(Ordering::SeqCst) >= least {
                return;
            }
            yield_now();
        }
        self.is_worn.store(true, Ordering::SeqCst);
    }

    /// Whether the count is `all`, and no client waited for it in vain.
    fn has_come_to(&self, all: u64) -> bool {
        self.count.load(Ordering::SeqCst) == all && !self.is_worn.load(Ordering::SeqCst)
    }
}

/// A gate at which each client waits, before a command and behind it, until all have come there: so at one moment all are in
/// the command.
#[derive(Drop)]
struct RoundGate {
    // the calls before commands, and those after them
    begun: Count,
    ended: Count,
}

impl Gate for RoundGate {
    fn pass(&self, _client: u32, command: u64, after: bool) {
        let count = if after { &self.ended } else { &self.begun };
        count.add();
        // until each client has come to its command of this number
        count.wait(command.saturating_mul(CLIENTS));
    }
}

/// A gate that holds client 0 before its fifth command until the last command of each other client was answered.
#[derive(Drop)]
struct FifthGate {
    // how many of the other clients have ended their last command
    ended: Count,
}

impl Gate for FifthGate {
    fn pass(&self, client: u32, command: u64, after: bool) {
        if after && client > 0 && command == COMMANDS {
            self.ended.add();
        }
        if !after && client == 0 && command == 5 {
            self.ended.wait(CLIENTS - 1);
        }
    }
}

/// A script of one life of 8 clients, in which each client adds 1 to n `COMMANDS` times.
fn script(alloc: Global) -> Result<String, AllocError> {
    let mut text = String::from_str(alloc, "lines 64\nlife 8 power 0\n")?;
    for _ in 0..COMMANDS {
        text.push_str("0 add n 1\n1 add n 1\n2 add n 1\n3 add n 1\n")?;
        text.push_str("4 add n 1\n5 add n 1\n6 add n 1\n7 add n 1\n")?;
    }
    Ok(text)
}

/// The client and the number of the command in a line of the journal, as the digits that stand there: `3 0.4 add n 1 = sum 4` has 0 and 4. `None`
/// where the line has no such word, or one of them has more digits.
fn name_of(line: &str) -> Option<(u8, u8)> {
    match line.split(' ').nth(1)?.as_bytes() {
        [client, b'.', command] => Some((*client, *command)),
        _ => None,
    }
}

/// Whether, for each client, just one of these lines is of the client's command with this number.
fn are_of_each(lines: &[&str], command: u8) -> bool {
    for client in *b"01234567" {
        let found = lines
            .iter()
            .filter(|line| name_of(line) == Some((client, command)));
        if found.count() != 1 {
            return false;
        }
    }
    true
}

/// The lines of a report's journal, which stand behind the first line: as many as all clients have commands. Fewer where the report is shorter.
fn journal(alloc: Global, report: &[u8]) -> Result<Vec<&str>, AllocError> {
    let text = std::str::from_utf8(report).unwrap_or("no text");
    let all = (CLIENTS * COMMANDS) as usize;
    text.lines().skip(1).take(all).collect(alloc)
}

/// Whether the lines are 8 groups of 8, one after another: group k has command k of each client, in any order.
fn are_rounds(lines: &[&str]) -> bool {
    let rounds = lines.chunks(CLIENTS as usize);
    rounds.len() == COMMANDS as usize
        && rounds
            .zip(*b"12345678")
            .all(|(round, command)| are_of_each(round, command))
}

/// Whether the last four lines are client 0's commands 5 to 8.
fn are_last(lines: &[&str]) -> bool {
    match lines {
        [.., fifth, sixth, seventh, eighth] => {
            name_of(fifth) == Some((b'0', b'5'))
                && name_of(sixth) == Some((b'0', b'6'))
                && name_of(seventh) == Some((b'0', b'7'))
                && name_of(eighth) == Some((b'0', b'8'))
        }
        _ => false,
    }
}

/// Whether the journal of a run of `script` whose commands pass `gate` is as wanted. Where `in_turn` is true, it is to have command k of all clients
/// before command k + 1 of any; otherwise it is to end with client 0's commands from the fifth on. False also where the run fails.
fn has_journal<R: Threads + Wait + Sync + AllocGlobal, G: Gate + Sync>(
    rt: &R,
    gate: &G,
    in_turn: bool,
) -> Result<bool, AllocError> {
    let alloc = rt.alloc();
    let Some(sink) = written_past(rt, &["run"], &script(alloc)?, gate, 4096)? else {
        return Ok(false);
    };
    let lines = journal(alloc, sink.written())?;
    Ok(if in_turn {
        are_rounds(&lines)
    } else {
        are_last(&lines)
    })
}

#[test]
fn eight_clients_are_in_their_commands_at_once(rt: HostRuntime) -> Result<(), Fail> {
    let gate = RoundGate {
        begun: Count::new(),
        ended: Count::new(),
    };
    holds(&rt, has_journal(&rt, &gate, true)?);
    let all = CLIENTS * COMMANDS;
    holds(
        &rt,
        gate.begun.has_come_to(all) && gate.ended.has_come_to(all),
    );
    Ok(())
}

#[test]
fn a_client_is_held_in_its_fifth_command_while_the_others_end(rt: HostRuntime) -> Result<(), Fail> {
    let gate = FifthGate {
        ended: Count::new(),
    };
    holds(&rt, has_journal(&rt, &gate, false)?);
    holds(&rt, gate.ended.has_come_to(CLIENTS - 1));
    Ok(())
}

//! Gates hold clients at their commands: one until another was answered, or two until a third was stopped. The records of both are judged by what
//! their scripts ask for; lives without a gate are judged through the program, by the tools' tests.

ghost use Rattle.doc_model.specs.Meaning.{IsOp};
ghost use Rattle.life_records.specs.Limits.{KeepsLimits};

use crate::holds::holds;
use cx_base::Gate;
use doc_commands::run_lives;
use doc_model::{Reply, number_of};
use doc_text::{FullLine, JournalLine, LifeRecord, Script, read_script, report};
use std::alloc::{AllocError, Global};
use std::sync::Wait;
use std::sync::atomic::{AtomicBool, AtomicU64, Ordering};
use std::test::Fail;
use std::thread::{Threads, yield_now};

// How often a client that is held looks whether it may go on, at most.
const TURNS: u64 = 1_000_000_000;

// A gate that holds client 0's first command until client 1's first command was answered.
#[derive(Drop)]
struct Held {
    // whether client 1's first command was answered
    answered: AtomicBool,
    // how many of the `TURNS` looks were left when client 0 went on, at least 1; 0 where it waited in vain
    left: AtomicU64,
}

impl Gate for Held {
    fn pass(&self, client: u32, command: u64, after: bool) {
        // client 1's first command was answered
        if client == 1 && command == 1 && after {
            self.answered.store(true, Ordering::SeqCst);
        }
        // only client 0 is held, before its first command
        if client != 0 || command != 1 || after {
            return;
        }
        for turn in 0..TURNS {
            if self.answered.load(Ordering::SeqCst) {
                self.left
                    .store(TURNS.saturating_sub(turn), Ordering::SeqCst);
                return;
            }
            yield_now();
        }
    }
}

// A script of two clients, each of which adds 1 to n.
const TWO: &str = "lines 64\nlife 2 power 0\n0 add n 1\n1 add n 1\n";

// The report of `TWO` where the addition of client 1 comes first.
const SECOND_FIRST: &str =
    "life 0 clients 2 from 0\n0 1.1 add n 1 = sum 1\n1 0.1 add n 1 = sum 2\npower 0 kept 2 of 2 documents 1\n";

// Whether the lives of a script, whose commands pass `gate`, have the report `want`.
#[tactic(auto, using(life_records::proofs::Naming::names_of_lives))]
fn is_reported<R: Threads + Wait + Sync>(
    rt: &R,
    alloc: Global,
    script: &Script,
    gate: &Held,
    want: &[u8],
) -> Result<bool, AllocError>
    requires { KeepsLimits IsOp 8 script.now }
{
    let lived = run_lives(rt, alloc, script, gate)?;
    Ok(report(alloc, script, lived.records.as_slice())?.as_slice() == want)
}

// Whether a text is a script whose lives have the report `want`, where its commands pass `gate`.
fn has_report<R: Threads + Wait + Sync>(
    rt: &R,
    alloc: Global,
    text: &str,
    gate: &Held,
    want: &str,
) -> Result<bool, AllocError> {
    match read_script(alloc, text.as_bytes()) {
        Ok(script) => is_reported(rt, alloc, &script, gate, want.as_bytes()),
        Err(_) => Ok(false),
    }
}

#[test]
fn a_gate_holds_a_command(rt: HostRuntime) -> Result<(), Fail> {
    let gate = Held {
        answered: AtomicBool::new(false),
        left: AtomicU64::new(0),
    };
    holds(&rt, has_report(&rt, rt.alloc(), TWO, &gate, SECOND_FIRST)?);
    holds(&rt, gate.left.load(Ordering::SeqCst) > 0);
    Ok(())
}

// A gate that holds the first commands of the other clients until client 1 has ended a command. With it, which clients give up does not depend on
// when threads run.
#[derive(Drop)]
struct AfterOne {
    // whether client 1 has ended a command
    ended: AtomicBool,
}

impl Gate for AfterOne {
    fn pass(&self, client: u32, command: u64, after: bool) {
        if client == 1 {
            if after {
                self.ended.store(true, Ordering::SeqCst);
            }
            return;
        }
        if command != 1 || after {
            return;
        }
        for _turn in 0..TURNS {
            if self.ended.load(Ordering::SeqCst) {
                return;
            }
            yield_now();
        }
    }
}

// How many updates clients 0 and 2 make each.
const UPDATES: u64 = 48;

// The updates of clients 0 and 2: client 0 puts the numbers from 0 on under the key b, and client 2 under the key c.
const OTHERS: &str =
    "0 put b 0\n2 put c 0\n0 put b 1\n2 put c 1\n0 put b 2\n2 put c 2\n0 put b 3\n2 put c 3\n0 put b 4\n2 put c 4\n\
     0 put b 5\n2 put c 5\n0 put b 6\n2 put c 6\n0 put b 7\n2 put c 7\n0 put b 8\n2 put c 8\n0 put b 9\n2 put c 9\n\
     0 put b 10\n2 put c 10\n0 put b 11\n2 put c 11\n0 put b 12\n2 put c 12\n0 put b 13\n2 put c 13\n0 put b 14\n2 put c 14\n\
     0 put b 15\n2 put c 15\n0 put b 16\n2 put c 16\n0 put b 17\n2 put c 17\n0 put b 18\n2 put c 18\n0 put b 19\n2 put c 19\n\
     0 put b 20\n2 put c 20\n0 put b 21\n2 put c 21\n0 put b 22\n2 put c 22\n0 put b 23\n2 put c 23\n0 put b 24\n2 put c 24\n\
     0 put b 25\n2 put c 25\n0 put b 26\n2 put c 26\n0 put b 27\n2 put c 27\n0 put b 28\n2 put c 28\n0 put b 29\n2 put c 29\n\
     0 put b 30\n2 put c 30\n0 put b 31\n2 put c 31\n0 put b 32\n2 put c 32\n0 put b 33\n2 put c 33\n0 put b 34\n2 put c 34\n\
     0 put b 35\n2 put c 35\n0 put b 36\n2 put c 36\n0 put b 37\n2 put c 37\n0 put b 38\n2 put c 38\n0 put b 39\n2 put c 39\n\
     0 put b 40\n2 put c 40\n0 put b 41\n2 put c 41\n0 put b 42\n2 put c 42\n0 put b 43\n2 put c 43\n0 put b 44\n2 put c 44\n\
     0 put b 45\n2 put c 45\n0 put b 46\n2 put c 46\n0 put b 47\n2 put c 47\n";

// For each of three clients: how many entries it has in the history, and how many of its entries are answered.
#[derive(Clone, Copy)]
struct Counts {
    entries: [u64; 3],
    answered: [u64; 3],
}

// No entry and no answer.
const NONE: Counts = Counts {
    entries: [0; 3],
    answered: [0; 3],
};

// Whether the reply is that of a client's put: `New` for its first one, where the key is new, and `Replaced` for the others.
fn is_put(reply: &Reply, is_first: bool) -> bool {
    match reply {
        Reply::New => is_first,
        Reply::Replaced => !is_first,
        _ => false,
    }
}

// Counts an entry of the history. Returns false where the entry has another ticket, is not its client's next command, has another reply than that of
// the put, or stands behind an entry of its client that is not answered.
fn is_counted(counts: &mut Counts, ticket: u64, line: &JournalLine) -> bool {
    let client = line.client as usize;
    if client >= 3 || line.ticket != ticket {
        return false;
    }
    // the entries of this client so far are all answered, and this is its next command
    let before = counts.entries[client];
    if counts.answered[client] != before || line.command != before.saturating_add(1) {
        return false;
    }
    counts.entries[client] = line.command;
    match &line.reply {
        None => true,
        Some(reply) => {
            counts.answered[client] = line.command;
            is_put(reply, before == 0)
        }
    }
}

// The entries of a history from ticket 0 on, counted for each client. `None` where one of them is not right.
fn counted(journal: &[JournalLine]) -> Option<Counts> {
    let mut counts = NONE;
    for (ticket, line) in journal.iter().enumerate() {
        if !is_counted(&mut counts, ticket as u64, line) {
            return None;
        }
    }
    Some(counts)
}

// How many entries of a client are kept: those below the place that is recovered after the crash.
fn kept_of(life_report: &LifeRecord, client: u32) -> u64 {
    let mut count = 0u64;
    for line in life_report.journal.as_slice() {
        if line.client == client && line.ticket < life_report.kept {
            count = count.saturating_add(1);
        }
    }
    count
}

// Whether what the crash kept is a prefix of the history with each entry that was answered, and has one document for each client of which an entry is
// kept.
fn is_kept(life_report: &LifeRecord) -> bool {
    for line in life_report.journal.as_slice() {
        if line.reply.is_some() && line.ticket >= life_report.kept {
            return false;
        }
    }
    // each client puts all its documents under one key
    let documents = u64::from(kept_of(life_report, 0) > 0)
        + u64::from(kept_of(life_report, 1) > 0)
        + u64::from(kept_of(life_report, 2) > 0);
    life_report.kept <= life_report.journal.len() as u64 && life_report.items == documents
}

// Whether no client was stopped and client 1 is answered, or client 1 alone was stopped, after `steps` steps, and its line says whether its entry is
// kept.
fn is_stopped_or_answered(life_report: &LifeRecord, counts: &Counts, steps: u64) -> bool {
    match life_report.stops.as_slice() {
        // nobody was stopped
        [] => counts.answered[1] == 1,
        // one client was stopped: it is client 1, in its first command
        [line] => {
            line.client == 1
                && line.command == 1
                && line.steps == steps
                && counts.answered[1] == 0
                && line.kept == (kept_of(life_report, 1) == 1)
        }
        _ => false,
    }
}

// How many entries of a client at or above a ticket are answered, and whether one of them has that ticket.
fn answered_from(life_report: &LifeRecord, client: u32, ticket: u64) -> (u64, bool) {
    let mut count = 0u64;
    let mut is_there = false;
    for line in life_report.journal.as_slice() {
        if line.client == client && line.reply.is_some() && line.ticket >= ticket {
            count = count.saturating_add(1);
            is_there = is_there || line.ticket == ticket;
        }
    }
    (count, is_there)
}

// Whether `line` says that client 0 or 2 ran out of free cells in its next command. Client 1, which was stopped, needs a ticket at or below the one
// named, and 16 of the client's entries are answered from that one on, which is answered too.
fn is_legal_full(life_report: &LifeRecord, counts: &Counts, line: &FullLine) -> bool {
    let client = line.client as usize;
    if client != 0 && client != 2 {
        return false;
    }
    let next = counts.answered[client].saturating_add(1);
    let (count, is_there) = answered_from(life_report, line.client, line.note.ticket);
    line.command == next
        && next <= UPDATES
        && line.note.holder == 1
        && !life_report.stops.is_empty()
        && line.note.need <= line.note.ticket
        && count >= 16
        && is_there
}

// Whether each of the lines of clients without free cells is legal, in the order of the clients.
fn are_legal_fulls(life_report: &LifeRecord, counts: &Counts) -> bool {
    // the least client that the next line may name
    let mut least = 0u32;
    for line in life_report.fulls.as_slice() {
        if line.client < least || !is_legal_full(life_report, counts, line) {
            return false;
        }
        least = line.client.saturating_add(1);
    }
    true
}

// Whether each entry of a client is answered, and it made all updates or ran out of free cells in the next.
fn has_ended(life_report: &LifeRecord, counts: &Counts, client: usize) -> bool {
    if client >= 3 || counts.entries[client] != counts.answered[client] {
        return false;
    }
    let mut is_full = false;
    for line in life_report.fulls.as_slice() {
        is_full = is_full || line.client as usize == client;
    }
    is_full || counts.answered[client] == UPDATES
}

// Whether the record of the first life is legal, where client 1 has the step limit `steps`, and the others run out of cells only where client 1 was
// stopped.
fn is_first(life_report: &LifeRecord, steps: u64) -> bool {
    let Some(counts) = counted(life_report.journal.as_slice()) else {
        return false;
    };
    // what the script asks for, and then what was done
    life_report.clients == 3
        && life_report.choice == 1
        && life_report.from == 0
        && life_report.reads.is_empty()
        && is_kept(life_report)
        && is_stopped_or_answered(life_report, &counts, steps)
        && are_legal_fulls(life_report, &counts)
        && has_ended(life_report, &counts, 0)
        && has_ended(life_report, &counts, 2)
}

// Whether the reply to a get has the number `last`, or, where this is `None`, says that there is no document.
fn is_last(reply: &Reply, last: Option<u64>) -> bool {
    match reply {
        Reply::Absent => last.is_none(),
        Reply::Doc(document) => last.is_some() && number_of(document.as_slice()) == last,
        _ => false,
    }
}

// Whether the second life, `life_report`, reads the documents that `first` kept: of each key the last number that was put and kept.
fn is_second(life_report: &LifeRecord, first: &LifeRecord) -> bool {
    // the reads of the keys a, b and c, which clients 1, 0 and 2 of the first life have put
    let [a, b, c] = life_report.reads.as_slice() else {
        return false;
    };
    let one = if kept_of(first, 1) == 1 {
        Some(1)
    } else {
        None
    };
    life_report.clients == 1
        && life_report.choice == 0
        && life_report.from == first.kept
        && life_report.journal.is_empty()
        && life_report.stops.is_empty()
        && life_report.fulls.is_empty()
        && life_report.kept == 0
        && life_report.items == first.items
        // one client makes the three reads, and each sees all that was kept
        && (a.client, a.command, a.place) == (0, 1, life_report.from)
        && (b.client, b.command, b.place) == (0, 2, life_report.from)
        && (c.client, c.command, c.place) == (0, 3, life_report.from)
        && is_last(&a.reply, one)
        && is_last(&b.reply, kept_of(first, 0).checked_sub(1))
        && is_last(&c.reply, kept_of(first, 2).checked_sub(1))
}

// How many clients ran out of free cells in two lives. `None` where a life is not legal, or where clients 0 and 2 have all updates kept though one
// ran out, or lack one though none ran out.
fn gave_up(records: &[LifeRecord], steps: u64) -> Option<usize> {
    let [first, second] = records else {
        return None;
    };
    let all = kept_of(first, 0) == UPDATES && kept_of(first, 2) == UPDATES;
    let count = first.fulls.len();
    if is_first(first, steps) && is_second(second, first) && all == (count == 0) {
        Some(count)
    } else {
        None
    }
}

// How many clients ran out of free cells in the lives of a script in which client 1 has the step limit `steps` and the others wait until it has ended
// a command. `None` where a life is not legal.
fn tried_script<R: Threads + Wait + Sync>(
    rt: &R,
    alloc: Global,
    script: &Script,
    steps: u64,
) -> Result<Option<usize>, AllocError>
    requires { KeepsLimits IsOp 8 script.now }
{
    let gate = AfterOne {
        ended: AtomicBool::new(false),
    };
    let lived = run_lives(rt, alloc, script, &gate)?;
    Ok(gave_up(lived.records.as_slice(), steps))
}

// How many clients ran out of free cells in the lives of the script's text: client 1 makes one update and is stopped after `steps` steps, and the
// next life reads what was left. `None` where a life is not legal.
fn tried<R: Threads + Wait + Sync>(
    rt: &R,
    alloc: Global,
    steps: u64,
) -> Result<Option<usize>, AllocError> {
    let text = format!(in alloc;
        "lines 64\nlife 3 power 1\ncut 1 {steps}\n1 put a 1\n{OTHERS}life 1 power 0\n0 get a\n0 get b\n0 get c\n"
    )?;
    match read_script(alloc, text.as_bytes()) {
        Ok(script) => tried_script(rt, alloc, &script, steps),
        Err(_) => Ok(None),
    }
}

// Whether the lives are legal at each of the numbers of steps after which client 1 is stopped, and at some of them another client gave up.
fn all_tried<R: Threads + Wait + Sync>(rt: &R, alloc: Global) -> Result<bool, AllocError> {
    let mut all = 0usize;
    // Alone client 1 is answered within fewer steps than 1,200.
    for steps in (7..1200u64).step_by(14) {
        match tried(rt, alloc, steps)? {
            Some(count) => all = all.saturating_add(count),
            None => return Ok(false),
        }
    }
    Ok(all > 0)
}

#[test]
fn others_give_up_where_a_stopped_client_keeps_their_cells(rt: HostRuntime) -> Result<(), Fail> {
    holds(&rt, all_tried(&rt, rt.alloc())?);
    Ok(())
}

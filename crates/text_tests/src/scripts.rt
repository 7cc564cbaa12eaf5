//! The parts of scripts, as they are read: operations, lives with their limits of steps, and the lines of the object.

use crate::holds::holds;
use doc_model::Op;
use doc_text::{Command, Cut, Life, read_script};
use std::alloc::Global;

/// The parts of an operation: a letter for its name, its key, its document, and its amount or revision. A part that an operation lacks is empty or
/// 0.
type Parts = (u8, &'static [u8], &'static [u8], i128);

/// A script of one life with operations of each kind.
const OPERATIONS: &[u8] =
    b"lines 128\nlife 1 power 7\n0 put key -12\n0 add sum -3\n0 next\n0 next above\n0 count\n0 del k\n0 get other\n0 put a {\"b\":1, \"a\":[]}\n0 put a  [ 1 , -2 ]  \n0 put a {\"a\":1,\"a\":2}\n0 put a {\"b\":1,\"aa\":2,\"a\":3,\"\":4}\n0 put a \"\\u0041\\/\\n\\u0001\\u007f\"\n0 put a \"\\ud83d\\ude00\"\n0 put a 18446744073709551615\n0 put a\x20\ttrue\r\n0 putif key 18446744073709551615 [ 1 ]\n0 rev key";

/// The operations of `OPERATIONS`, in their order. Each row: a letter for the name, the key, the document as compact text, and the amount or
/// revision.
const PARTS: [Parts; 17] = [
    // put, add, next above the empty key, next above a key, count, del and get
    (b'p', b"key", b"-12", 0),
    (b'a', b"sum", b"", -3),
    (b'n', b"", b"", 0),
    (b'n', b"above", b"", 0),
    (b'c', b"", b"", 0),
    (b'd', b"k", b"", 0),
    (b'g', b"other", b"", 0),
    // documents become compact text: members are sorted by key, and of two with one key the last one stays
    (b'p', b"a", b"{\"a\":[],\"b\":1}", 0),
    (b'p', b"a", b"[1,-2]", 0),
    (b'p', b"a", b"{\"a\":2}", 0),
    (b'p', b"a", b"{\"\":4,\"a\":3,\"aa\":2,\"b\":1}", 0),
    // strings: escapes become the characters themselves, but for characters below 0x20
    (b'p', b"a", b"\"A/\\n\\u0001\x7f\"", 0),
    (b'p', b"a", b"\"\xf0\x9f\x98\x80\"", 0),
    // numbers and `true` stand as they are; putif with the greatest revision, and rev
    (b'p', b"a", b"18446744073709551615", 0),
    (b'p', b"a", b"true", 0),
    (b'i', b"key", b"[1]", 18_446_744_073_709_551_615),
    (b'r', b"key", b"", 0),
];

// Asserts that the script `OPERATIONS` is read as one life with the operations of `PARTS`.
#[test]
fn operations_are_read_and_documents_are_compact(rt: HostRuntime) {
    holds(&rt, has_one_life(rt.alloc(), OPERATIONS, &PARTS));
}

/// Whether a text is a script of 128 lines with one life of one client and choice 7, whose commands have the parts `wants`. `false` also where it
/// is refused.
fn has_one_life(alloc: Global, text: &[u8], wants: &[Parts]) -> bool {
    match read_script(alloc, text) {
        Ok(script) => script.lines == 128 && are_one(script.lives.as_slice(), wants),
        Err(_) => false,
    }
}

// Whether there is one life, of one client and choice 7 without a limit of steps, whose commands have the parts `wants`.
fn are_one(lives: &[Life], wants: &[Parts]) -> bool {
    let [life] = lives else {
        return false;
    };
    is_life(life, 1, 7, 0, wants.len()) && are_commands(life.commands.as_slice(), wants)
}

/// Whether a life has this many clients, this choice, this many limits of steps (`cuts`) and this many commands.
fn is_life(life: &Life, clients: u32, choice: u64, cuts: usize, commands: usize) -> bool {
    life.clients == clients
        && life.choice == choice
        && life.cuts.len() == cuts
        && life.commands.len() == commands
}

/// Whether each command is of client 0 and has the parts at its place in `wants`.
fn are_commands(commands: &[Command], wants: &[Parts]) -> bool {
    for (command, want) in commands.iter().zip(wants) {
        if command.client != 0 || !has_parts(&command.op, want) {
            return false;
        }
    }
    true
}

// Whether an operation has the name, the key, the document and the amount or revision of `want`.
fn has_parts(op: &Op, want: &Parts) -> bool {
    let (letter, key, document, amount) = *want;
    // `own` is the key of the operation, which has to be `key`
    match op {
        Op::Put { key: own, doc } => {
            letter == b'p' && own.as_slice() == key && doc.as_slice() == document
        }
        Op::Add {
            key: own,
            amount: sum,
        } => { letter == b'a' && own.as_slice() == key && i128::from(*sum) == amount }
        Op::Del { key: own } => letter == b'd' && own.as_slice() == key,
        Op::Get { key: own } => letter == b'g' && own.as_slice() == key,
        Op::Next { above } => letter == b'n' && above.as_slice() == key,
        Op::Count => letter == b'c',
        Op::PutIf {
            key: own,
            revision,
            doc,
        } => {
            letter == b'i'
                && own.as_slice() == key
                && i128::from(*revision) == amount
                && doc.as_slice() == document
        }
        Op::Rev { key: own } => letter == b'r' && own.as_slice() == key,
    }
}

/// A life: its clients, its choice, its limits of steps as pairs of client and steps, and the number of its commands.
type LifeRow = (u32, u64, &'static [(u32, u64)], usize);

/// A script of two lives, of which the first has limits of steps for two clients.
const CUTS: &[u8] =
    b"lines 64\nlife 3 power 0\ncut 2 7\ncut 0 18446744073709551615\nlife 1 power 9\n0 count\n";

/// The lives of the script `CUTS`. Each row: clients, choice, pairs of client and limit of steps, and the number of commands.
const LIVES: [LifeRow; 2] = [(3, 0, &[(2, 7), (0, u64::MAX)], 0), (1, 9, &[], 1)];

// Asserts that the script `CUTS` is read as the lives of `LIVES`.
#[test]
fn lives_and_cuts_are_read(rt: HostRuntime) {
    holds(&rt, has_lives(rt.alloc(), CUTS, &LIVES));
}

/// Whether a text is a script of these lives. `false` also where it is refused.
fn has_lives(alloc: Global, text: &[u8], wants: &[LifeRow]) -> bool {
    match read_script(alloc, text) {
        Ok(script) => are_lives(script.lives.as_slice(), wants),
        Err(_) => false,
    }
}

// Whether there are as many lives as `wants`, each with the clients, the choice, the limits of steps and the number of commands of its row.
fn are_lives(lives: &[Life], wants: &[LifeRow]) -> bool {
    for (life, (clients, choice, cuts, commands)) in lives.iter().zip(wants) {
        if !is_life(life, *clients, *choice, cuts.len(), *commands)
            || !are_cuts(life.cuts.as_slice(), cuts)
        {
            return false;
        }
    }
    lives.len() == wants.len()
}

/// Whether each limit of steps is for the client and of the steps at its place in `wants`.
fn are_cuts(cuts: &[Cut], wants: &[(u32, u64)]) -> bool {
    for (cut, (client, steps)) in cuts.iter().zip(wants) {
        if cut.client != *client || cut.steps != *steps {
            return false;
        }
    }
    true
}

/// Each row: a text, and the number of lines of the object that it sets as a script, 0 where it sets none.
const LINES: [(&[u8], u64); 4] = [
    (b"", 0),
    (b"lines 64", 64),
    (b"lines 16384", 16384),
    (
        b"# two shops\nlines 1024\nlife 2 power 1\n0 add sold 3\n",
        1024,
    ),
];

// Asserts that each text sets as many lines as its row says.
#[test]
fn lines_are_read(rt: HostRuntime) {
    holds(&rt, have_lines(rt.alloc(), &LINES));
}

/// Whether each text is a script that sets as many lines of the object as its row says.
fn have_lines(alloc: Global, rows: &[(&[u8], u64)]) -> bool {
    for (text, lines) in rows {
        if !has_lines(alloc, text, *lines) {
            return false;
        }
    }
    true
}

// Whether a text is a script that sets this many lines of the object. `false` also where it is refused.
fn has_lines(alloc: Global, text: &[u8], lines: u64) -> bool {
    match read_script(alloc, text) {
        Ok(script) => script.lines == lines,
        Err(_) => false,
    }
}

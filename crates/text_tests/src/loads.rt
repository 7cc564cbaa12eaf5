//! The script of a load, written out: what the generator makes for two clients.

use crate::holds::holds;
use doc_model::Op;
use doc_text::{Command, Script, generated};
use std::test::Fail;

/// An addition: the client, the key and the amount.
type Added = (u32, &'static [u8], i64);

/// The commands of a load whose count begins at 1,997, of two clients with three commands each. Each row: the client, the key, and what is added.
const ADDITIONS: [Added; 6] = [
    (0, b"k97", 997),
    (0, b"k98", 4),
    (0, b"k99", 11),
    (1, b"k0", 18),
    (1, b"k1", 25),
    (1, b"k2", 32),
];

// Asserts that the load from 1,997 on, of two clients with three commands each, has the commands of `ADDITIONS`.
#[test]
fn clients_go_on_where_the_one_before_ended(rt: HostRuntime) -> Result<(), Fail> {
    let script = generated(rt.alloc(), 1_997, 2, 3)?;
    holds(&rt, is_written_out(&script, &ADDITIONS));
    Ok(())
}

/// Whether a script has 1024 lines and one life of two clients with choice 0 and no limit of steps, whose commands are these additions.
fn is_written_out(script: &Script, wants: &[Added]) -> bool {
    let [life] = script.lives.as_slice() else {
        return false;
    };
    script.lines == 1_024
        && life.clients == 2
        && life.choice == 0
        && life.cuts.len() == 0
        && life.commands.len() == wants.len()
        && are_added(life.commands.as_slice(), wants)
}

// Whether each command is the addition at its place in `wants`.
fn are_added(commands: &[Command], wants: &[Added]) -> bool {
    for (command, want) in commands.iter().zip(wants) {
        if !is_added(command, want) {
            return false;
        }
    }
    true
}

// Whether a command is an addition of the client, the key and the amount of `want`.
fn is_added(command: &Command, want: &Added) -> bool {
    match &command.op {
        Op::Add { key, amount } => {
            command.client == want.0 && key.as_slice() == want.1 && *amount == want.2
        }
        _ => false,
    }
}

//! The script of a load: clients that add to numbers.

ghost use Rattle.std.specs.Prelude.{◌≡◌, ◌++◌, ◌<◌, ◌≤◌, ◌^◌, IfOk, OnOk};
ghost use Rattle.doc_model.specs.Meaning.{IsOp};
ghost use Rattle.life_records.specs.Limits.{KeepsLimits};
ghost use Rattle.doc_text.specs.Generated.{IsLoad, generated_command, generated_commands, generated_script};

use crate::script_parts::{Command, Life, Script};
use cx_base::{Bytes, Items};
use doc_model::Op;
use plain_text::write_labelled;
use std::alloc::{AllocError, Global};

/// The lines of the store of a load.
const LINES: u64 = 1_024;

/// The script of a load: 1,024 lines and one life with power choice 0, of `clients` clients, each with `ops` commands. All commands
/// are counted together, from 0 and client by client. Each adds to one of 100 keys; `from` sets with which key and amount the count
/// begins. `Err` means out of memory.
#[tactic(auto, using(crate::proofs::Loads::generated_scripts_keep_limits))]
pub fn generated(alloc: Global, from: u64, clients: u32, ops: u64) -> Result<Script, AllocError>
    requires { IsLoad from clients ops }
    ensures script { IfOk result (λ script. script ≡ generated_script from clients ops) }
    ensures limits { IfOk result (KeepsLimits IsOp 8) }
{
    let mut commands = Items::new(alloc);
    for client in 0..clients {
        add_commands(alloc, &mut commands, from, client, ops)?;
    }
    let mut lives = Items::new(alloc);
    lives.push(Life {
        clients,
        choice: 0,
        cuts: Items::new(alloc),
        commands,
    })?;
    Ok(Script {
        lines: LINES,
        lives,
    })
}

/// Adds the commands of a client.
fn add_commands(
    alloc: Global,
    commands: &mut Items<Command>,
    from: u64,
    client: u32,
    ops: u64,
) -> Result<(), AllocError>
    requires clients { client < 8 }
    requires ops { ops ≤ 10000 }
    ensures { OnOk result (commands.new ≡ commands.old ++ generated_commands from ops client) }
{
    for i in 0..ops {
        let n = u64::from(client) * ops + i;
        commands.push(nth_command(alloc, from, client, n)?)?;
    }
    Ok(())
}

/// The n-th command of all, which is one of this client.
fn nth_command(alloc: Global, from: u64, client: u32, n: u64) -> Result<Command, AllocError>
    requires { n < 2 ^ 32 }
    ensures { IfOk result (λ command. command ≡ generated_command from client n) }
{
    let mut key = Vec::new(alloc);
    write_labelled(&mut key, b"k", (from % 100 + n) % 100)?;
    let amount = (from % 1_000 + 7 * n) % 1_000;
    Ok(Command {
        client,
        op: Op::Add {
            key: Bytes::of_vec(key),
            amount: amount as i64,
        },
    })
}

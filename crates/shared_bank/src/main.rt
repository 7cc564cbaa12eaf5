//! The problem, as an example: several threads move money between accounts, and whoever adds up all accounts in between, or after a crash, has to
//! find the same sum.
//!
//! The idea: the bank is an object for one thread (`bank`), whose every step keeps the sum. Shared by `serve` of `service_parts`, an audit is one
//! operation like a transfer: it sees all of a transfer or nothing.
//!
//! 64 accounts that four threads share: money is paid out and moved, overdrafts are refused, and whoever adds up all accounts in between
//! finds the same sum. The power is lost twice, and each time one caller looks at what is there.
#![tactic(auto)]

mod callers;

use crate::callers::two_losses;
use std::io;

fn main(rt: HostRuntime) -> io::Result<()> {
    match two_losses(&rt, rt.alloc()) {
        Ok((first, second)) => {
            println!(rt;
                "four callers: {} transfers, {} overdrafts refused, {} audits found 64000",
                first.counts.moved, first.counts.refused, first.counts.right
            )?;
            println!(rt;
                "after a loss of power: account 0 has {}, all have {}",
                first.found.first, first.found.all
            )?;
            println!(rt;
                "four callers: {} transfers, {} overdrafts refused, {} audits found 64000",
                second.counts.moved, second.counts.refused, second.counts.right
            )?;
            println!(rt;
                "after another: account 0 has {}, all have {}",
                second.found.first, second.found.all
            )?;
        }
        Err(_) => println!(rt; "no memory")?,
    }
    Ok(())
}

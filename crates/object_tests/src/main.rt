//! Programs that are run: each opcode, each bit of a program turned, each fault, and images of another program. What is printed is compared with
//! `tools/bpf_model.py`, which was written from the standard alone.
//!
//! A line has a number, how many words were refused as no program, and a digest of all that was answered: for a program that is none the kind and the
//! instruction, for the others each reply and each image.
#![tactic(auto)]

mod rows;
mod runs;

use crate::rows::{FAULTS, SAMPLE, UPGRADES};
use crate::runs::{Tally, faults, flipped, of_opcode, upgraded};
use std::io;

fn main(rt: HostRuntime) -> io::Result<()> {
    let alloc = rt.alloc();
    for opcode in 0..256u64 {
        let tally = of_opcode(alloc, opcode);
        println!(rt; "opcode {opcode}: {} {}", tally.refused, tally.digest)?;
    }
    for at in 0..SAMPLE.len() {
        let tally = flipped(alloc, at);
        println!(rt; "word {at}: {} {}", tally.refused, tally.digest)?;
    }
    for row in 0..FAULTS.len() {
        let tally = faults(alloc, row);
        println!(rt; "fault {row}: {} {}", tally.refused, tally.digest)?;
    }
    for row in 0..UPGRADES.len() {
        let tally = upgraded(alloc, row);
        println!(rt; "upgrade {row}: {} {}", tally.refused, tally.digest)?;
    }
    Ok(())
}

//! The problem: the proved top call takes its words, its input, its output and its memory as arguments, and a process has to give them to it.
//!
//! The idea: `main` does that and nothing else, so no promise rests on it but that it passes them on.
//!
//! The commands, as `run` of a script of clients over the document store, are those of `cx_program`.
#![tactic(auto)]

use cx_base::OpenGate;
use cx_program::{Patient, Status, StdSink, StdSource, cx_run, words};
use std::alloc::AllocError;
use std::process::ExitCode;

fn main(rt: HostRuntime) -> ExitCode {
    let status = match words(&rt) {
        Ok(words) => {
            let mut source = StdSource::new(Patient {
                end: rt.stdin(),
                clock: &rt,
            });
            let mut sink = StdSink::new(Patient {
                end: rt.stdout(),
                clock: &rt,
            });
            cx_run(&rt, rt.alloc(), &words, &mut source, &mut sink, &OpenGate).status
        }
        Err(AllocError) => Status::Memory,
    };
    ExitCode::from(status.code())
}

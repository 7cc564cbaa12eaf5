//! The problem: a program takes words and an input and leaves an output and a status, and each of its ends may fail: memory runs out, a read breaks
//! off, a write fails.
//!
//! The idea: the top call `cx_run` is proved over any source and any sink, and its contract says of each status what was written with it. The whole
//! text is made before its first byte is written, so nothing half done is written but where the sink itself fails. What is left to `main` is to join
//! it to the system.
//!
//! Beside the top call stand the ends that the system gives: the program's words, and standard input and output.
#![tactic(auto)]

mod arguments;
mod asked;
mod command_line;
mod fifo;
mod image;
mod input;
mod load;
mod output;
mod patient;
mod pool;
mod recover;
mod refusal;
mod run;
mod standard;
mod status;
mod top_call;
mod trace;

pub use arguments::words;
pub use patient::Patient;
pub use standard::{StdSink, StdSource};
pub use status::{FinishedRun, Status};
pub use top_call::cx_run;

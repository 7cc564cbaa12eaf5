//! A run on threads, with crashes, need not happen twice in the same way. What can be written down is what is asked, where a client is stopped and
//! what a crash leaves: a script. And what happened, so that others can judge it: a report, with the one history of each life, each reply, and what
//! the crash kept.
//!
//! What the scripts of all objects share is read and written here: the header, lives and cuts, where a line may stand, why one is refused, and the
//! lines of a report. An object adds its commands, the words of its replies, and its own reasons (`CommandReader`, `ReportWriter`).
//!
//! - With any commands, whose own reader is one by the rules of `CommandReader`, a script is read exactly where the bytes are one; else the
//!   first line is named with which the lines so far are no script, and the first reason that fits it; and each script that is read keeps the
//!   limits: `read_script` (`script`, `only`, `refused`, `limits`).
//! - The report of records is its definition, in the words that `ReportWriter` gives: `report`.
#![tactic(auto)]

mod commands;
mod heads;
mod indexed_life;
mod lines;
mod printer;
mod reader;

pub use commands::CommandReader;
pub use indexed_life::IndexedLife;
pub use lines::{ScriptLimits, ScriptLine, ScriptReason};
pub use printer::{
    ReportWriter, report, write_fulls, write_journal, write_life, write_power, write_reads,
    write_stops,
};
pub use reader::read_script;

//! People and programs say in a text what clients ask for, and read in a text what happened: scripts and reports whose commands put JSON documents
//! (RFC 8259). Beside them stand the script of a load and four lines on its result, and what is recovered from a crash image.
//!
//! What all scripts have is read and written by `script_text`; here are the commands, the replies and the documents. A document is kept as the
//! compact text of its JSON value. RFC 8259 leaves limits and repeated keys to the reader. Here numbers are integers of 64 bits, of a key that comes
//! twice the last value stays, values nest at most 127 deep, and the compact text has at most 1,024 bytes.
#![tactic(auto)]

mod commands;
mod document;
mod load_script;
mod load_summary;
mod measure;
mod measured_members;
mod printer;
mod reader;
mod recovered;
mod script_parts;

pub use life_records::{Cut, FullLine, StopLine};
pub use load_script::generated;
pub use load_summary::summary;
pub use printer::report;
pub use reader::{read_pool_script, read_script};
pub use recovered::{Applied, Recovered, recovered_text};
pub use script_parts::{
    Command, JournalLine, Life, LifeRecord, ReadLine, Reason, Script, ScriptLine, TextFault,
};

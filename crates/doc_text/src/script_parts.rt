//! A script of documents and its parts, and why a line of it is refused.

ghost use Rattle.std.specs.Prelude.{◌≡◌};

use doc_model::{Op, Reply};
use std::fmt;

/// An operation that a client asks for.
pub type Command = life_records::Command<Op>;

/// The time from one start to the next crash, as it is asked for.
pub type Life = life_records::Life<Op>;

/// The lives that are asked for.
pub type Script = life_records::Script<Op>;

/// An entry of the history.
pub type JournalLine = life_records::JournalLine<Reply>;

/// A read that did not go through the history.
pub type ReadLine = life_records::ReadLine<Reply>;

/// A life as it went.
pub type LifeRecord = life_records::LifeRecord<Reply>;

/// One line of a script of documents, as it was read.
pub type ScriptLine = script_text::ScriptLine<Op>;

/// Why a text was not read.
pub type TextFault = plain_text::TextFault<Reason>;

/// Why a line is refused, in the order in which the reasons are looked for.
#[derive(Clone, Copy, Debug, PartialEq, Eq)]
pub enum Reason {
    /// The line is not UTF-8.
    Utf8,
    /// The header is missing.
    Header,
    /// The line begins a life wrongly, or stands before the first.
    Life,
    /// There are 1,000 lives before it.
    Lives,
    /// The line is no cut line, or its client has one in this life.
    Cut,
    /// The first word is no client of the life.
    Client,
    /// There are 100,000 commands before it.
    Commands,
    /// The second word is no command, or the number of words is wrong.
    Command,
    /// The key is not 1 to 64 bytes from 0x21 to 0x7E.
    Key,
    /// The amount is no 64-bit integer, or the revision no number of 64 bits.
    Number,
    /// The document is no JSON.
    Json,
    /// Some number of the document is no 64-bit integer.
    Fraction,
    /// The document has more than 1,024 bytes.
    Long,
}

impl Reason {
    ghost use Rattle.doc_text.specs.Reasons.{reason_text};

    /// The reason as a word.
    pub fn word(self) -> &'static str
        ensures { result.now ≡ reason_text self }
    {
        match self {
            Reason::Utf8 => "utf8",
            Reason::Header => "header",
            Reason::Life => "life",
            Reason::Lives => "lives",
            Reason::Cut => "cut",
            Reason::Client => "client",
            Reason::Commands => "commands",
            Reason::Command => "command",
            Reason::Key => "key",
            Reason::Number => "number",
            Reason::Json => "json",
            Reason::Fraction => "fraction",
            Reason::Long => "long",
        }
    }
}

impl fmt::Display for Reason {
    ghost use Rattle.std.specs.Prelude.{Some};
    ghost use Rattle.doc_text.specs.Reasons.{reason_text};

    ghost output = { λ reason. Some (reason_text reason) };

    fn fmt<W: fmt::Write>(&self, f: &mut fmt::Formatter<W>) -> fmt::Result {
        f.write_str(self.word())
    }
}

//! Why a line of a script is refused.

ghost use Rattle.std.specs.Prelude.{◌≡◌};

use std::fmt;

/// Why a text was not read.
pub type FifoTextFault = plain_text::TextFault<FifoReason>;

/// Why a line is refused, in the order in which the reasons are looked for.
#[derive(Clone, Copy, Debug, PartialEq, Eq)]
pub enum FifoReason {
    /// The line is not UTF-8.
    Utf8,
    /// The header is missing.
    Header,
    /// The line begins a life wrongly, or stands before the first.
    Life,
    /// There are 1,000 lives before it.
    Lives,
    /// The first word is no client of the life.
    Client,
    /// There are 100,000 commands before it.
    Commands,
    /// The second word is no command, or the number of words is wrong.
    Command,
    /// The text is not 1 to 56 bytes from 0x21 to 0x7E.
    Text,
}

impl FifoReason {
    ghost use Rattle.fifo_commands.specs.Reasons.{queue_reason_text};

    /// The reason as a word.
    pub fn word(self) -> &'static str
        ensures { result.now ≡ queue_reason_text self }
    {
        match self {
            FifoReason::Utf8 => "utf8",
            FifoReason::Header => "header",
            FifoReason::Life => "life",
            FifoReason::Lives => "lives",
            FifoReason::Client => "client",
            FifoReason::Commands => "commands",
            FifoReason::Command => "command",
            FifoReason::Text => "text",
        }
    }
}

impl fmt::Display for FifoReason {
    ghost use Rattle.std.specs.Prelude.{Some};
    ghost use Rattle.fifo_commands.specs.Reasons.{queue_reason_text};

    ghost output = { λ reason. Some (queue_reason_text reason) };

    fn fmt<W: fmt::Write>(&self, f: &mut fmt::Formatter<W>) -> fmt::Result {
        f.write_str(self.word())
    }
}

//! The lines of a script, and why a line is refused.

use life_records::{Command, Cut};

/// What scripts with some commands may have: the most clients of a life, the most lives, and whether lives have cut lines.
#[derive(Clone, Copy, Drop)]
pub struct ScriptLimits {
    pub clients: u32,
    pub lives: usize,
    pub cuts: bool,
}

/// One line of a script, as it was read.
#[derive(Drop)]
pub enum ScriptLine<Op> {
    /// The number of lines of the store: `lines L`.
    Lines(u64),
    /// A life begins, with this many clients and this choice: `life N power C`.
    Life { clients: u32, choice: u64 },
    /// A client's limit of steps in the life: `cut K S`.
    Cut(Cut),
    /// A client asks for an operation: `K COMMAND`.
    Command(Command<Op>),
}

/// Why a line of any script is refused, in the order in which the reasons are looked for. The reasons of its command come after them.
#[derive(Clone, Copy, Drop)]
pub enum ScriptReason {
    /// The line is not UTF-8.
    Utf8,
    /// The header is missing.
    Header,
    /// The line begins a life wrongly, or stands before the first.
    Life,
    /// There are as many lives before it as there may be.
    Lives,
    /// The line is no cut line, or its client has one in this life.
    Cut,
    /// The first word is no client of the life.
    Client,
    /// There are 100,000 commands before it.
    Commands,
}

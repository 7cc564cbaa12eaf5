//! A trace, and why a line of one is refused.

ghost use Rattle.std.specs.Prelude.{◌≡◌};

use cx_base::Items;
use cx_core::Event;
use std::fmt;

/// A line behind the first: an event of a caller, or a crash.
#[derive(Clone, Copy, Debug, PartialEq, Eq, Drop)]
pub enum TraceWhat {
    /// A step of a caller.
    Event(Event),
    /// A crash by this choice, after which this place is recovered.
    Crash { choice: u64, place: u64 },
}

/// A line behind the first, with its number in the text, counted from 1.
#[derive(Clone, Copy, Debug, PartialEq, Eq, Drop)]
pub struct TraceLine {
    pub line: u64,
    pub what: TraceWhat,
}

/// A trace of 1 to 8 callers of a core, whose object has 64 to 16,384 lines.
#[derive(Drop)]
pub struct Trace {
    pub callers: u32,
    pub lines: u64,
    pub steps: Items<TraceLine>,
}

/// The trace of the lines read so far: nothing before the first line, and then a trace that has begun.
#[derive(Drop)]
pub enum TraceLines {
    /// There is no line.
    Nothing,
    /// The first line, and those behind it.
    Begun(Trace),
}

/// Why a text is no trace.
pub type TraceFault = plain_text::TextFault<TraceReason>;

/// Why a line is refused, in the order in which the reasons are looked for.
#[derive(Clone, Copy, Debug, PartialEq, Eq)]
pub enum TraceReason {
    /// The first line is not the one with the numbers of the trace, or is missing.
    Trace,
    /// There are 10,000 lines between the first and this one.
    Events,
    /// The line is neither an event nor a crash.
    Event,
}

impl TraceReason {
    ghost use Rattle.trace_text.specs.Reasons.{trace_reason_text};

    /// The reason as a word.
    pub fn word(self) -> &'static str
        ensures { result.now ≡ trace_reason_text self }
    {
        match self {
            TraceReason::Trace => "trace",
            TraceReason::Events => "events",
            TraceReason::Event => "event",
        }
    }
}

impl fmt::Display for TraceReason {
    ghost use Rattle.std.specs.Prelude.{Some};
    ghost use Rattle.trace_text.specs.Reasons.{trace_reason_text};

    ghost output = { λ reason. Some (trace_reason_text reason) };

    fn fmt<W: fmt::Write>(&self, f: &mut fmt::Formatter<W>) -> fmt::Result {
        f.write_str(self.word())
    }
}

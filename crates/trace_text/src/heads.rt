//! The first line, and the lines of crashes.

ghost use Rattle.std.specs.Prelude.{◌≡◌};
ghost use Rattle.trace_text.specs.Reading.{crash_line_of, trace_head_behind, trace_head_of, trace_head_within, place_in_text};

use crate::trace::TraceWhat;
use plain_text::{is_word, number_of, split_word};

const MOST_CALLERS: u64 = 8;

/// The fewest and the most lines that an object may have.
const MIN_LINES: u64 = 64;

const MAX_LINES: u64 = 16_384;

/// The callers and the lines of the first line: `trace N L`.
#[tactic(auto, unfolding(crate::specs::Reading::trace_head_of))]
pub(crate) fn read_head(line: &[u8]) -> Option<(u32, u64)>
    ensures { result ≡ trace_head_of line.now }
{
    let (word, numbers) = split_word(line);
    if !is_word(b"trace", word) {
        return None;
    }
    read_head_behind(numbers?)
}

/// Reads the head of a trace from the number of callers on.
#[tactic(auto, unfolding(crate::specs::Reading::trace_head_behind))]
fn read_head_behind(text: &[u8]) -> Option<(u32, u64)>
    ensures { result ≡ trace_head_behind text.now }
{
    let (callers, lines) = split_word(text);
    let callers = number_of(callers)?;
    let lines = number_of(lines?)?;
    head_within(callers, lines)
}

/// The numbers of a first line, where they are within their limits.
fn head_within(callers: u64, lines: u64) -> Option<(u32, u64)>
    ensures { result ≡ trace_head_within callers lines }
{
    if 1 <= callers && callers <= MOST_CALLERS && MIN_LINES <= lines && lines <= MAX_LINES {
        Some((callers as u32, lines))
    } else {
        None
    }
}

/// What stands behind the word `crash`: `CHOICE place P`.
#[tactic(auto, unfolding(crate::specs::Reading::crash_line_of))]
pub(crate) fn read_crash(text: &[u8]) -> Option<TraceWhat>
    ensures { result ≡ crash_line_of text.now }
{
    let (choice, place) = split_word(text);
    let choice = number_of(choice)?;
    let place = read_place(place?)?;
    Some(TraceWhat::Crash { choice, place })
}

/// A place with its word.
#[tactic(auto, unfolding(crate::specs::Reading::place_in_text))]
fn read_place(text: &[u8]) -> Option<u64>
    ensures { result ≡ place_in_text text.now }
{
    let (word, place) = split_word(text);
    if !is_word(b"place", word) {
        return None;
    }
    number_of(place?)
}

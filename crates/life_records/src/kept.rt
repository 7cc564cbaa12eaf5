//! Which stopped commands' entries survive the crash.

ghost use Rattle.std.specs.Prelude.{◌≡◌, ◌+◌, ◌<◌, ◌↔◌, true};
ghost use Rattle.life_records.specs.declared.record.StopLine.{StopLine};
ghost use Rattle.life_records.specs.Lives.{IsKeptStop};
ghost use Rattle.life_records.specs.Ended.{AreFlagged};

use crate::record::{JournalLine, StopLine};

/// Whether the command of this number of this client has an entry that is kept: one of the first `kept` entries of a life that
/// began at `place`.
pub fn is_kept<Reply>(
    journal: &[JournalLine<Reply>],
    place: u64,
    kept: u64,
    client: u32,
    command: u64,
) -> bool
    ensures { (line : StopLine) → line.client ≡ client → line.command ≡ command →
        (result ≡ true) ↔ IsKeptStop place kept journal.now line }
{
    journal.iter().any(|line| {
        line.client == client && line.command == command && is_below(line.ticket, place, kept)
    })
}

/// Whether a ticket is below the end of the kept entries, which may lie above all numbers of the type.
fn is_below(ticket: u64, place: u64, kept: u64) -> bool
    ensures { (result ≡ true) ↔ (ticket < place + kept) }
{
    ticket < place || ticket - place < kept
}

/// Sets the kept flag of each stop line of a life that began at `place`, where the first `kept` entries survive the crash.
pub fn flag_stops<Reply>(
    journal: &[JournalLine<Reply>],
    place: u64,
    kept: u64,
    stops: &mut [StopLine],
)
    ensures { AreFlagged place kept journal.now stops.old stops.new }
{
    for stop in stops.iter_mut() {
        stop.kept = is_kept(journal, place, kept, stop.client, stop.command);
    }
}

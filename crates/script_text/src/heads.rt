//! The lines of a script that have no command: its header, the first lines of lives, and cut lines.

ghost use Rattle.std.specs.Prelude.{◌≡◌};
ghost use Rattle.std.specs.Option.{option_copied};
ghost use Rattle.life_records.specs.Scripts.{has_cut};
ghost use Rattle.script_text.specs.Heads.{choice_of, client_of, cut_of, header_of, life_behind, life_of, within};
ghost use Rattle.script_text.specs.Reading.{cut_behind};

use life_records::Cut;
use plain_text::{is_word, number_of, split_word};

/// The fewest and the most lines that a store may have.
const MIN_LINES: u64 = 64;

const MAX_LINES: u64 = 16_384;

/// The number of lines that a header gives.
#[tactic(auto, unfolding(crate::specs::Heads::header_of))]
pub(crate) fn read_header(line: &[u8]) -> Option<u64>
    ensures { result ≡ header_of line.now }
{
    let (word, text) = split_word(line);
    if !is_word(b"lines", word) {
        return None;
    }
    within(MIN_LINES, MAX_LINES, number_of(text?)?)
}

/// The number, where it lies between two.
fn within(least: u64, most: u64, number: u64) -> Option<u64>
    ensures { result ≡ within least most number }
{
    if least <= number && number <= most {
        Some(number)
    } else {
        None
    }
}

/// The clients and the choice of the life that begins with a line, with at most `most` clients.
#[tactic(auto, unfolding(crate::specs::Heads::life_of))]
pub(crate) fn read_life(most: u32, line: &[u8]) -> Option<(u32, u64)>
    ensures { result ≡ life_of most line.now }
{
    let (word, text) = split_word(line);
    if !is_word(b"life", word) {
        return None;
    }
    read_life_behind(most, text?)
}

/// Reads the head of a life from the number of clients on.
#[tactic(auto, unfolding(crate::specs::Heads::life_behind))]
fn read_life_behind(most: u32, text: &[u8]) -> Option<(u32, u64)>
    ensures { result ≡ life_behind most text.now }
{
    let (clients, text) = split_word(text);
    let clients = within(1, u64::from(most), number_of(clients)?)?;
    let choice = read_choice(text?)?;
    Some((clients as u32, choice))
}

/// The choice at the end of a life's first line, with its word.
#[tactic(auto, unfolding(crate::specs::Heads::choice_of))]
fn read_choice(text: &[u8]) -> Option<u64>
    ensures { result ≡ choice_of text.now }
{
    let (word, choice) = split_word(text);
    if !is_word(b"power", word) {
        return None;
    }
    number_of(choice?)
}

/// The client that a word names, of `clients` clients.
#[tactic(auto, unfolding(crate::specs::Heads::client_of))]
pub(crate) fn read_client(clients: u32, word: &[u8]) -> Option<u32>
    ensures { result ≡ client_of clients word.now }
{
    let client = number_of(word)?;
    if client < u64::from(clients) {
        Some(client as u32)
    } else {
        None
    }
}

/// The cut that stands behind the word `cut`, where lives have cut lines.
pub(crate) fn read_cut_behind(
    allowed: bool,
    clients: u32,
    cuts: &[Cut],
    rest: Option<&[u8]>,
) -> Option<Cut>
    ensures { result ≡ cut_behind allowed clients cuts.now (option_copied rest.entry) }
{
    match rest {
        Some(text) if allowed => read_cut(clients, cuts, text),
        _ => None,
    }
}

/// The cut of a client that has none, from the client on.
#[tactic(auto, unfolding(crate::specs::Heads::cut_of))]
fn read_cut(clients: u32, cuts: &[Cut], text: &[u8]) -> Option<Cut>
    ensures { result ≡ cut_of clients cuts.now text.now }
{
    let (client, steps) = split_word(text);
    let client = read_client(clients, client)?;
    if has_cut(cuts, client) {
        return None;
    }
    let steps = number_of(steps?)?;
    Some(Cut { client, steps })
}

/// Whether a client has a cut line.
fn has_cut(cuts: &[Cut], client: u32) -> bool
    ensures { result ≡ has_cut client cuts.now }
{
    cuts.iter().any(|cut| cut.client == client)
}

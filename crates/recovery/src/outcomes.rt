//! What became of a caller's last command, read from a base.

ghost use Rattle.std.specs.Prelude.{◌≡◌, ◌+◌, ◌^◌, ◌<◌, ◌≤◌, ℕ, List, length};
ghost use Rattle.cx_core.specs.Base.{LawfulBase};
ghost use Rattle.cx_core.specs.History.{AreLawful, full_image};
ghost use Rattle.cx_core.specs.Region.{slot_reply};
ghost use Rattle.table_invariant.specs.Running.{Running, instance_at};
ghost use Rattle.table_invariant.specs.Seats.{Seated};
ghost use Rattle.cx_table.specs.Remains.{ClosingWitness};
ghost use Rattle.recovery.specs.Kept.{IsKeptBy, IsOpened};
ghost use Rattle.recovery.specs.Outcomes.{TellsOutcome, outcome_of};
ghost use Rattle.recovery.specs.Recovery.{HasSlot};
ghost use Rattle.recovery.specs.Results.{HasResultsFrom};

use crate::applied::Outcome;
use crate::region::reply_words;
use cx_base::{OP_WORDS, Object, OpWords};
use cx_core::{Base, OBJECT_START, slot_start};

/// The outcome of a caller's last entry, as a base has it: the entry's number and its reply, or that no entry of the caller was ever applied.
pub fn outcome(base: &Base, caller: u32) -> Outcome
    requires caller { caller < 8 }
    requires words { OBJECT_START ≤ length base.now.words }
    ensures { result ≡ outcome_of caller base.now }
{
    let words = base.words.as_slice();
    let number = words[slot_start(caller) as usize];
    if number == 0 {
        return Outcome::Never;
    }
    let reply = reply_of(words, caller);
    Outcome::Applied { number, reply }
}

/// The reply's words in the result slot of a caller, in words that have this slot.
fn reply_of(words: &[u64], caller: u32) -> OpWords
    requires { HasSlot caller words.now }
    ensures { result ≡ slot_reply caller words.now }
{
    let mut reply = [0; OP_WORDS];
    reply.copy_from_slice(reply_words(words, caller));
    reply
}

/// The law that the full image after each place of a history from a lawful base on holds, for each caller, the number of its last entry below the place
/// and the history's reply to it, and what the base holds for a caller without an entry there.
pub fn full_images_tell_outcomes<O: Object>(object: &O, base: &Base)
    requires { LawfulBase (O.line_count object.now) (O.lawful object.now) base.now }
    ensures { (history : List _) (place caller : ℕ) → AreLawful base.now.place history → base.now.place + length history ≤ 2 ^ 40 →
        base.now.place ≤ place → place ≤ base.now.place + length history → caller < 8 →
        TellsOutcome (O.step object.now) base.now history (record { place = place; words = full_image (O.step object.now) base.now history place }) caller }
{}

/// The law that the base that is recovered after a crash of a closed table, by each choice, holds each caller's outcome as the history has it: its last
/// entry below the base's place with the reply, and what the table was opened with for a caller without an entry there.
pub fn kept_bases_tell_outcomes<O: Object>()
    ensures { (table : Running O) (seats : List Seated) (r : _) (choice caller : ℕ) (base : _) → IsOpened O.line_count O.lawful table →
        ClosingWitness table (instance_at table O.step O.only_reads) seats r → IsKeptBy O.line_count O.lawful O.step table seats r choice base →
        caller < 8 → TellsOutcome (O.step table.object) table.base r.trail.history base caller }
{}

/// The law that each result in the base that is recovered after a crash of a closed table is the one that the table was opened with, or keeps a reply of
/// the object's step.
pub fn kept_bases_have_results<O: Object>()
    ensures { (table : Running O) (seats : List Seated) (r : _) (choice : ℕ) (base : _) → IsOpened O.line_count O.lawful table →
        ClosingWitness table (instance_at table O.step O.only_reads) seats r → IsKeptBy O.line_count O.lawful O.step table seats r choice base →
        HasResultsFrom (O.lawful table.object) (O.step table.object) table.base.words base.words }
{}

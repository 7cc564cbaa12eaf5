//! The members of a JSON object by their measures.

ghost use Rattle.std.specs.Prelude.{◌≢◌, Err, OnOk, string_bytes};
ghost use Rattle.serde_json.specs.Data.{Data, Members, no_members, object, put};
ghost use Rattle.doc_text.specs.Measure.{IsMeasure, Describes, AreMeasured};

use crate::measure::{Measure, Unmeasured};
use std::alloc::Global;
use std::collections::BTreeMap;

/// The text of an object with this many keys is longer than a document.
const MANY: usize = 256;

/// The members of an object so far. Of many members only this is kept: that they are many, and that no value has a fraction.
#[derive(Drop)]
pub(crate) struct MeasuredMembers {
    members: BTreeMap<String, Measure>,
    are_many: bool,
}

impl MeasuredMembers {
    /// No members.
    pub(crate) fn new(alloc: Global) -> MeasuredMembers
        ensures { Describes result no_members }
    {
        MeasuredMembers {
            members: BTreeMap::new(alloc),
            are_many: false,
        }
    }

    /// Adds a member, or puts its value in the place of one with this key.
    pub(crate) fn add(&mut self, key: String, member: Measure) -> Result<(), Unmeasured>
        ensures ok { OnOk result ((d : Data) (ms : Members) → IsMeasure member d → Describes self.old ms → Describes self.new (put (string_bytes key) d ms)) }
        ensures refused { result ≢ Err Unmeasured.NoValue }
    {
        if self.are_many {
            return if member.has_float {
                Err(Unmeasured::Undecided)
            } else {
                Ok(())
            };
        }
        self.members.insert(key, member)?;
        if self.members.len() < MANY {
            return Ok(());
        }
        if measure_of(&self.members).has_float {
            return Err(Unmeasured::Undecided);
        }
        self.are_many = true;
        Ok(())
    }

    /// The measure of the object.
    pub(crate) fn measure(&self) -> Measure
        ensures { (ms : Members) → Describes self.now ms → IsMeasure result (object ms) }
    {
        if self.are_many {
            Measure {
                has_float: false,
                least: 1025,
            }
        } else {
            measure_of(&self.members)
        }
    }
}

/// The measure of an object with these members.
fn measure_of(members: &BTreeMap<String, Measure>) -> Measure
    ensures { (ms : Members) → AreMeasured members.now.entries ms → IsMeasure result (object ms) }
{
    let mut has_float = false;
    let mut least: usize = 1;
    for (key, member) in members.iter() {
        has_float |= member.has_float;
        least = least
            .saturating_add(4)
            .saturating_add(key.len())
            .saturating_add(member.least);
    }
    Measure { has_float, least }
}

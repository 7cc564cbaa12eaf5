//! The laws of the full step and of the full image after a place.

ghost use Rattle.std.specs.Prelude.{◌≡◌, ◌+◌, ◌-◌, ◌^◌, ◌<◌, ◌≤◌, ◌++◌, ℕ, List, IfSome, drop, length, slice_get, take};
ghost use Rattle.cx_core.specs.Base.{Keeps, LawfulBase};
ghost use Rattle.cx_core.specs.History.{AreLawful, IsLawfulEntry, full_image, image_from};
ghost use Rattle.cx_core.specs.Region.{place_of};
ghost use Rattle.cx_core.specs.State.{Instance};
ghost use Rattle.cx_core.specs.Step.{full_step_of};

use crate::entry::{Base, Entry};
use cx_base::Object;

/// The law that the full image after the base's place is the base.
pub fn full_image_begins<O: Object>(object: &O, base: &Base, history: &[Entry])
    ensures { full_image (O.step object.now) base.now history.now base.now.place ≡ base.now.words }
{}

/// The law that the full image after a ticket is the full step of its entry on the full image after the ticket's
/// place.
pub fn full_image_goes_on<O: Object>(object: &O, base: &Base, history: &[Entry], ticket: u64)
    requires { base.now.place ≤ ticket }
    ensures { IfSome (slice_get history.now (ticket - base.now.place)) (λ entry. full_image (O.step object.now) base.now history.now (ticket + 1) ≡ full_step_of (O.step object.now) entry (full_image (O.step object.now) base.now history.now ticket)) }
{}

/// The law of a full step: it leaves a lawful base at the next place, which has the object's next image and, in the
/// slot of the entry's caller, the entry's number and the reply; the other slots stay.
pub fn full_step_keeps<O: Object>(object: &O, base: &Base, entry: &Entry, next: &Base)
    requires lawful { LawfulBase (O.line_count object.now) (O.lawful object.now) base.now }
    requires place { base.now.place < 2 ^ 40 }
    requires entry { IsLawfulEntry base.now.place entry.now }
    requires next_place { next.now.place ≡ base.now.place + 1 }
    requires next_words { next.now.words ≡ full_step_of (O.step object.now) entry.now base.now.words }
    ensures { Keeps (O.line_count object.now) (O.lawful object.now) (O.step object.now) base.now entry.now next.now }
{}

/// The law that a longer history has the same full images up to the old end.
pub fn full_images_stay()
    ensures { (instance : Instance) (history more : List Entry) (place : ℕ) → place ≤ instance.base.place + length history → full_image instance.step instance.base (history ++ more) place ≡ full_image instance.step instance.base history place }
{}

/// The law that the full image after each place up to the history's end has the words of a lawful base, where the base is lawful and each entry of the
/// history is lawful.
pub fn full_images_are_lawful<O: Object>(object: &O, base: &Base)
    requires { LawfulBase (O.line_count object.now) (O.lawful object.now) base.now }
    ensures { (history : List Entry) (place : ℕ) → AreLawful base.now.place history → base.now.place + length history ≤ 2 ^ 40 → base.now.place ≤ place → place ≤ base.now.place + length history → LawfulBase (O.line_count object.now) (O.lawful object.now) (record { place = place; words = full_image (O.step object.now) base.now history place }) }
{}

/// The law that a full image with the full steps of the next entries done is the full image after them, and has their
/// place.
pub fn full_regions_go_on<O: Object>(object: &O, base: &Base)
    requires { LawfulBase (O.line_count object.now) (O.lawful object.now) base.now }
    ensures { (history : List Entry) (region : List ℕ) (n : ℕ) → AreLawful base.now.place history → base.now.place + length history ≤ 2 ^ 40 → base.now.place ≤ place_of region → region ≡ full_image (O.step object.now) base.now history (place_of region) → place_of region + n ≤ base.now.place + length history → let after = image_from (O.step object.now) region (take n (drop (place_of region - base.now.place) history)) in (after ≡ full_image (O.step object.now) base.now history (place_of region + n)) × (place_of after ≡ place_of region + n) }
{}

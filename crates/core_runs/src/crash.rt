//! What a crash may leave of a lawful state, and what is recovered from it.

ghost use Rattle.std.specs.Prelude.{◌≡◌, ℕ, List};
ghost use Rattle.std.specs.List.{Contains};
ghost use Rattle.cx_core.specs.Base.{LawfulBase};
ghost use Rattle.cx_core.specs.Chain.{IsCodeChain};
ghost use Rattle.cx_core.specs.Crash.{IsCrashImage, IsKept, IsMediumOf, recovered};
ghost use Rattle.cx_core.specs.History.{full_image};
ghost use Rattle.cx_core.specs.Lawful.{Lawful};
ghost use Rattle.cx_core.specs.State.{Instance, State};
ghost use Rattle.pmem_model.specs.Medium.{image_of};

use cx_base::Object;
use cx_core::Base;

/// Whatever a crash leaves, what is recovered from it is the full image after a place at or above DUR's: it holds each
/// entry that was answered, and the place of each read that was.
pub fn crash_images_recover()
    ensures { (instance : Instance) (s : State) (image : _) (law : Lawful instance s) → IsCrashImage instance s image → IsKept instance law.history s (recovered instance image) }
{}

/// What is recovered from a medium with the words of all replicas, by whichever choice and with any root code of the chain, is the full image after a place
/// at or above DUR's: it holds each entry that was answered, and the place of each read that was.
pub fn mediums_recover()
    ensures { (instance : Instance) (s : State) (medium : _) (chain : List ℕ) (root choice : ℕ) (law : Lawful instance s) →
        IsMediumOf instance s medium → IsCodeChain s.words s.locals chain → Contains chain root →
        IsKept instance law.history s (recovered instance (record { root = root; words = image_of choice medium })) }
{}

/// Where the object's base was lawful, what is recovered is a lawful base, and its words are the full image after its place.
pub fn recovered_bases_are_lawful<O: Object>(object: &O, base: &Base)
    requires { LawfulBase (O.line_count object.now) (O.lawful object.now) base.now }
    ensures { (callers : ℕ) (s : State) (image : _) → let instance : Instance = record { callers = callers; base = base.now; step = O.step object.now; reads = O.only_reads object.now } in
        (law : Lawful instance s) → IsCrashImage instance s image →
        LawfulBase (O.line_count object.now) (O.lawful object.now) (recovered instance image)
        × ((recovered instance image).words ≡ full_image (O.step object.now) base.now law.history (recovered instance image).place) }
{}

//! Which replicas are the full image after their place, in both memories, and that full images are lawful bases and go on.

ghost use Rattle.std.specs.Prelude.{◌≡◌, ◌+◌, ◌-◌, ◌<◌, ◌≤◌, ℕ, List, Some, drop, length, slice_get, slice_index, take};
ghost use Rattle.cx_base.specs.Codes.{root_replica_of};
ghost use Rattle.cx_core.specs.Base.{LawfulBase};
ghost use Rattle.cx_core.specs.History.{full_image, image_from};
ghost use Rattle.cx_core.specs.Lawful.{Lawful};
ghost use Rattle.cx_core.specs.LawfulRegions.{IsReplicaImage};
ghost use Rattle.cx_core.specs.Layout.{cur_at};
ghost use Rattle.cx_core.specs.Region.{place_of};
ghost use Rattle.cx_core.specs.Rights.{claims, shared_on};
ghost use Rattle.cx_core.specs.State.{Instance, State};

use cx_base::Object;
use cx_core::Base;

/// A replica that a caller holds shared. Its place is between the base's and the end of the history.
pub fn shared_replicas_are_images()
    ensures { (instance : Instance) (s : State) (law : Lawful instance s) (caller r : ℕ) (l : _) →
        slice_get s.locals caller ≡ Some l → shared_on l ≡ Some r → IsReplicaImage instance law.history s.words r }
{}

/// A replica on which a caller has any right but an exclusive one or a passer's mark.
pub fn claimed_replicas_are_images()
    ensures { (instance : Instance) (s : State) (law : Lawful instance s) (caller r : ℕ) (l : _) →
        slice_get s.locals caller ≡ Some l → 0 < claims instance.callers r l → IsReplicaImage instance law.history s.words r }
{}

/// The replica that the code in CUR names.
pub fn current_replica_is_an_image()
    ensures { (instance : Instance) (s : State) (law : Lawful instance s) →
        IsReplicaImage instance law.history s.words (root_replica_of instance.callers (slice_index s.words cur_at)) }
{}

/// The full image after each place up to the history's end has the words of a lawful base, where the object's base was lawful.
pub fn images_are_lawful_bases<O: Object>(object: &O, base: &Base)
    requires { LawfulBase (O.line_count object.now) (O.lawful object.now) base.now }
    ensures { (callers : ℕ) (s : State) (place : ℕ) (law : Lawful (record { callers = callers; base = base.now; step = O.step object.now; reads = O.only_reads object.now }) s) →
        base.now.place ≤ place → place ≤ base.now.place + length law.history →
        LawfulBase (O.line_count object.now) (O.lawful object.now) (record { place = place; words = full_image (O.step object.now) base.now law.history place }) }
{}

/// A region that is the full image after its place, with the next entries of the history applied, is the full image after them.
pub fn images_go_on<O: Object>(object: &O, base: &Base)
    requires { LawfulBase (O.line_count object.now) (O.lawful object.now) base.now }
    ensures { (callers : ℕ) (s : State) (region : List ℕ) (n : ℕ) (law : Lawful (record { callers = callers; base = base.now; step = O.step object.now; reads = O.only_reads object.now }) s) →
        base.now.place ≤ place_of region → region ≡ full_image (O.step object.now) base.now law.history (place_of region) → place_of region + n ≤ base.now.place + length law.history →
        let after = image_from (O.step object.now) region (take n (drop (place_of region - base.now.place) law.history)) in
        (after ≡ full_image (O.step object.now) base.now law.history (place_of region + n)) × (place_of after ≡ place_of region + n) }
{}

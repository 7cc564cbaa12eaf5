//! What each life begins with.

ghost use Rattle.std.specs.Prelude.{◌≡◌, ℕ};
ghost use Rattle.cx_core.specs.Base.{LawfulBase, fresh_region};
ghost use Rattle.cx_core.specs.Lawful.{Lawful};
ghost use Rattle.cx_core.specs.State.{State};
ghost use Rattle.cx_core.specs.declared.entry.Base as entry_base;
ghost use Rattle.life_records.specs.Begins.{Begun, IsBaseOf, begun_after, nothing_begun};
ghost use Rattle.life_records.specs.Meanings.{object_instance};
ghost use Rattle.life_records.specs.Recorded.{IsKeptIn, IsRecorded};
ghost use Rattle.life_records.specs.Records.{Life, LifeRecord};

use crate::meanings::steps_are_meant;
use cx_core::Base;
use typed_object::TypedObject;

/// The first base of an object, as `Base::fresh` makes it, begins with nothing.
pub fn fresh_bases_begin_with_nothing<O: TypedObject>(object: &O, base: &Base)
    requires place { base.now.place ≡ 0 }
    requires words { base.now.words ≡ fresh_region (O.opening object.now) }
    ensures { IsBaseOf (O.meaning object.now) base.now (nothing_begun (O.meaning object.now)) }
{
    steps_are_meant(object);
}

/// Where a life began with a base, a base that was kept of it begins the next life: with the place and the store after what was kept,
/// and of each client with the count of its entries and the reply to the last of them.
pub fn kept_bases_begin_the_next_life<O: TypedObject>(object: &O, base: &Base)
    requires { LawfulBase (O.line_count object.now) (O.lawful object.now) base.now }
    ensures { (callers : ℕ) (s : State) (begun : Begun O.Store) (life : Life O.Op) (report : LifeRecord O.Reply) (next : entry_base.Base)
        (law : Lawful (object_instance (O.step object.now) (O.only_reads object.now) callers base.now) s) →
        IsBaseOf (O.meaning object.now) base.now begun →
        IsRecorded (O.meaning object.now) (object_instance (O.step object.now) (O.only_reads object.now) callers base.now) s law.history begun.store life report →
        IsKeptIn (O.meaning object.now) (object_instance (O.step object.now) (O.only_reads object.now) callers base.now) s law.history report next →
        IsBaseOf (O.meaning object.now) next (begun_after (O.meaning object.now) begun life report.journal report.kept) }
{
    steps_are_meant(object);
}

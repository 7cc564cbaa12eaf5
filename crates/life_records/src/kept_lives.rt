//! A base that was kept of a life goes on behind what it kept.

ghost use Rattle.std.specs.Prelude.{ℕ};
ghost use Rattle.cx_core.specs.Base.{LawfulBase};
ghost use Rattle.cx_core.specs.Lawful.{Lawful};
ghost use Rattle.cx_core.specs.State.{State};
ghost use Rattle.cx_core.specs.declared.entry.Base as entry_base;
ghost use Rattle.life_records.specs.Meanings.{object_instance};
ghost use Rattle.life_records.specs.Recorded.{GoesOn, IsKeptIn, IsRecorded};
ghost use Rattle.life_records.specs.Records.{Life, LifeRecord};

use crate::meanings::steps_are_meant;
use cx_core::Base;
use typed_object::TypedObject;

/// Where a record is told by a lawful state of a service of the object, a base that was kept of that state is lawful. It keeps a prefix
/// of the history that holds everything answered, and stands for the store after it.
pub fn kept_lives_go_on<O: TypedObject>(object: &O, base: &Base)
    requires { LawfulBase (O.line_count object.now) (O.lawful object.now) base.now }
    ensures { (callers : ℕ) (s : State) (store : O.Store) (life : Life O.Op) (report : LifeRecord O.Reply) (next : entry_base.Base)
        (law : Lawful (object_instance (O.step object.now) (O.only_reads object.now) callers base.now) s) →
        IsRecorded (O.meaning object.now) (object_instance (O.step object.now) (O.only_reads object.now) callers base.now) s law.history store life report →
        IsKeptIn (O.meaning object.now) (object_instance (O.step object.now) (O.only_reads object.now) callers base.now) s law.history report next →
        GoesOn (O.meaning object.now) (O.line_count object.now) (O.lawful object.now) base.now.place store life report next }
{
    steps_are_meant(object);
}

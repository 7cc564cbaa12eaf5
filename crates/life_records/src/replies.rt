//! The replies of a record are the one-thread store's.

ghost use Rattle.std.specs.Prelude.{ℕ};
ghost use Rattle.cx_core.specs.Base.{LawfulBase};
ghost use Rattle.cx_core.specs.Lawful.{Lawful};
ghost use Rattle.cx_core.specs.State.{State};
ghost use Rattle.life_records.specs.Meanings.{object_instance};
ghost use Rattle.life_records.specs.Recorded.{HasReplies, IsRecorded};
ghost use Rattle.life_records.specs.Records.{Life, LifeRecord};

use crate::meanings::steps_are_meant;
use cx_core::Base;
use typed_object::TypedObject;

/// Where a record is told by a lawful state of a service of the object, each of its replies is the one-thread store's at its place, and
/// no answer to a client lies below what the client was told before.
pub fn replies_are_the_stores<O: TypedObject>(object: &O, base: &Base)
    requires { LawfulBase (O.line_count object.now) (O.lawful object.now) base.now }
    ensures { (callers : ℕ) (s : State) (store : O.Store) (life : Life O.Op) (report : LifeRecord O.Reply)
        (law : Lawful (object_instance (O.step object.now) (O.only_reads object.now) callers base.now) s) →
        IsRecorded (O.meaning object.now) (object_instance (O.step object.now) (O.only_reads object.now) callers base.now) s law.history store life report →
        HasReplies (O.meaning object.now) base.now.place store life report }
{
    steps_are_meant(object);
}

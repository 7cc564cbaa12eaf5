//! The law on a record of clients that shared the callers of a closed service.

ghost use Rattle.std.specs.Prelude.{ℕ};
ghost use Rattle.cx_core.specs.Base.{LawfulBase};
ghost use Rattle.cx_core.specs.Lawful.{Lawful};
ghost use Rattle.cx_core.specs.State.{State};
ghost use Rattle.cx_core.specs.declared.entry.Base as entry_base;
ghost use Rattle.life_records.specs.Meanings.{object_instance};
ghost use Rattle.life_records.specs.Recorded.{IsKeptIn};
ghost use Rattle.life_records.specs.Lives.{IsLegalLife};
ghost use Rattle.life_records.specs.Records.{Life, LifeRecord};
ghost use Rattle.pool_lives.specs.PoolLives.{AreToldIn};
ghost use Rattle.pool_lives.specs.Recorded.{IsPoolRecorded};

use cx_core::Base;
use life_records::steps_are_meant;
use typed_object::TypedObject;

/// The law on a record of clients that shared the callers of a service, where the record agrees with a lawful state of the service
/// (`IsPoolRecorded`), and a base was kept of that state: the record is one of a legal life, and each line is one of an entry or a read
/// of a caller.
pub fn told_pools_have_lived<O: TypedObject>(object: &O, base: &Base)
    requires { LawfulBase (O.line_count object.now) (O.lawful object.now) base.now }
    ensures { (callers : ℕ) (s : State) (store : O.Store) (life : Life O.Op) (report : LifeRecord O.Reply) (next : entry_base.Base)
        (law : Lawful (object_instance (O.step object.now) (O.only_reads object.now) callers base.now) s) →
        (is : IsPoolRecorded (O.meaning object.now) (object_instance (O.step object.now) (O.only_reads object.now) callers base.now) s law.history store life report) →
        IsKeptIn (O.meaning object.now) (object_instance (O.step object.now) (O.only_reads object.now) callers base.now) s law.history report next →
        IsLegalLife (O.meaning object.now) base.now.place store life report × AreToldIn (O.meaning object.now).encoding life base.now.place law.history is.locals report }
{
    // the object's steps are what its operations mean
    steps_are_meant(object);
}

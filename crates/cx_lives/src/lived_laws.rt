//! A life that was run, ended by a crash and recovered is a legal life, witnessed by its execution log.

ghost use Rattle.cx_core.specs.Base.{LawfulBase};
ghost use Rattle.table_invariant.specs.Running.{Running};
ghost use Rattle.life_records.specs.Begins.{Begun, IsBaseOf};
ghost use Rattle.life_records.specs.Records.{Life, LifeRecord};
ghost use Rattle.cx_lives.specs.Life.{HasRun, IsServiceOf};
ghost use Rattle.cx_lives.specs.Lives.{HasLivedOver, HasLost};

use cx_core::Base;
use life_records::laws::{flags_may_be_set, told_lives_have_ended};
use life_records::{kept_bases_begin_the_next_life, kept_lives_go_on, replies_are_the_stores};
use typed_object::TypedObject;

/// Where a life was run by a service that opened from a base, and ended in a crash, its record is one of a legal life, and what is recovered
/// begins the next one.
pub(crate) fn lives_that_ran_have_lived<O: TypedObject>(object: &O, base: &Base)
    requires { LawfulBase (O.line_count object.now) (O.lawful object.now) base.now }
    ensures { (life : Life O.Op) (begun : Begun O.Store) (service : Running O) (report flagged : LifeRecord O.Reply) (remains : _) (crashed : _) →
        IsBaseOf (O.meaning object.now) base.now begun →
        IsServiceOf object.now (O.line_count object.now) life.clients base.now service →
        HasRun (O.meaning object.now) O.step O.only_reads life service report remains →
        HasLost O.Object (O.meaning object.now) object.now base.now life report remains crashed flagged →
        HasLivedOver O.Object object.now (O.meaning object.now) life begun base.now
        (record { report = flagged; trail = remains.trail; image = crashed.image; next = crashed.next }) }
{
    // each reply is the one-thread store's at its place, and no answer to a client lies below what the client was told before
    replies_are_the_stores(object, base);
    // the recovered base keeps a prefix of the history with everything answered, and stands for the store after it
    kept_lives_go_on(object, base);
    // the next life begins with the recovered base: its place and store, and each client's count of entries and last reply
    kept_bases_begin_the_next_life(object, base);
    // each client has ended as a legal life says
    told_lives_have_ended::<O::Op, O::Reply>();
    // the record stays right when its kept flags and its numbers of kept entries and items are filled in
    flags_may_be_set::<O::Op, O::Reply>();
}

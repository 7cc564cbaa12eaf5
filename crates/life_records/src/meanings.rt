//! What the steps of a history mean.

ghost use Rattle.std.specs.Prelude.{List, ℕ};
ghost use Rattle.cx_core.specs.Base.{LawfulBase};
ghost use Rattle.cx_core.specs.Region.{object_part};
ghost use Rattle.cx_core.specs.declared.entry.Entry.{Entry};
ghost use Rattle.life_records.specs.Meanings.{HaveWordsOfLines, IsMeant, MeanStores};
ghost use Rattle.life_records.specs.Replies.{HasOpValues};
ghost use Rattle.life_records.specs.Limits.{IsLifeInLimits};
ghost use Rattle.life_records.specs.Records.{JournalLine, Life};

use cx_core::Base;
use typed_object::TypedObject;

/// From a base that stands for a store on, the images and replies of a history whose entries have the words of commands are those that
/// the commands mean.
pub fn histories_mean_stores<O: TypedObject>(object: &O, base: &Base)
    requires { LawfulBase (O.line_count object.now) (O.lawful object.now) base.now }
    ensures { (most : ℕ) (life : Life O.Op) (history : List Entry) (journal : List (JournalLine O.Reply)) (store : O.Store) →
        IsLifeInLimits (O.meaning object.now).is_op most life → HasOpValues (O.meaning object.now) life → HaveWordsOfLines (O.meaning object.now).encoding life history journal → (O.meaning object.now).stands (object_part base.now.words) store →
        MeanStores (O.meaning object.now) (O.step object.now) (O.only_reads object.now) life base.now history journal store }
{
    steps_are_meant(object);
}

/// The laws of an object: of its steps, and that they are what its operations mean.
pub fn steps_are_meant<O: TypedObject>(object: &O)
    ensures { IsMeant O.Object object.now (O.meaning object.now) }
{}

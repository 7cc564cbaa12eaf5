//! Lives one after another, each from what a crash left of the one before.

ghost use Rattle.std.specs.Prelude.{List};
ghost use Rattle.core_order.specs.CrashedLives.{AllStand, AreCrashedLives, EndsAs, LifeRun, kept_history};
ghost use Rattle.cx_core.specs.Base.{LawfulBase};

use cx_base::Object;
use cx_core::Base;

/// What the crashes kept of the lives' histories makes one history. By it each answer that any of the lives gave is the object's, from the first
/// base on; no answered entry is lost; and the base of a next life is the object after the whole of it, and lawful.
pub fn lives_are_one_object<O: Object>(object: &O, base: &Base)
    requires { LawfulBase (O.line_count object.now) (O.lawful object.now) base.now }
    ensures stand { (lives : List LifeRun) → AreCrashedLives (O.step object.now) (O.only_reads object.now) base.now lives →
        AllStand (O.step object.now) (O.only_reads object.now) base.now (kept_history (O.step object.now) (O.only_reads object.now) base.now lives) base.now lives }
    ensures ends { (lives : List LifeRun) → AreCrashedLives (O.step object.now) (O.only_reads object.now) base.now lives →
        EndsAs (O.line_count object.now) (O.lawful object.now) (O.step object.now) (O.only_reads object.now) base.now lives }
{}

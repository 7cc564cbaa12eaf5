//! In the opening state nothing is answered, and each kind of step keeps the part of the lawful state on answers.

ghost use Rattle.std.specs.Prelude.{[]};
ghost use Rattle.core_replica.specs.Keeping.{KeepsAnswers};
ghost use Rattle.cx_core.specs.LawfulAnswers.{Answers};
ghost use Rattle.cx_core.specs.State.{Instance, opening_locals, opening_words};

/// The opening state has the part on answers, `Answers`: nothing is answered yet.
pub fn opening_has_the_answers()
    ensures { (instance : Instance) → Answers instance [] (opening_words instance.callers instance.base) (opening_locals instance.callers instance.base.place) }
{}

/// Each step of any kind keeps `Answers`: but for a raise, no step touches DUR or answers anything.
pub fn events_keep_the_answers()
    ensures { (kind : _) → KeepsAnswers kind }
{}

//! The framing law of the part on answers: a step on a word that the part does not name, which changes no field that the part
//! names, keeps the part. Answers are also kept by a history that goes on.

ghost use Rattle.std.specs.Prelude.{◌+◌, ◌≤◌, ◌++◌, length};
ghost use Rattle.core_replica.specs.AnswerFrames.{OffAnswers, SameAnswers};
ghost use Rattle.cx_core.specs.Frames.{StepApart};
ghost use Rattle.cx_core.specs.LawfulAnswers.{Answers, durable_place};
ghost use Rattle.cx_core.specs.State.{Instance, State};

/// A step that does not store DUR, and leaves its caller's own list, answers, reads and floor as they were, keeps `Answers`.
pub fn answers_framed()
    ensures { (instance : Instance) (history : _) (before after : State) → StepApart OffAnswers SameAnswers before after →
        Answers instance history before.words before.locals → Answers instance history after.words after.locals }
{}

/// Where DUR's place is at most the history's end, all that was answered stays the history's as it goes on.
pub fn answers_of_a_longer_history()
    ensures { (instance : Instance) (history more : _) (s : State) → durable_place instance s.words ≤ instance.base.place + length history →
        Answers instance history s.words s.locals → Answers instance (history ++ more) s.words s.locals }
{}

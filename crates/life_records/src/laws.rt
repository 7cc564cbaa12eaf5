//! The laws of clients' lines: how they are put together, what a closed table tells of them, and how the clients end.

ghost use Rattle.std.specs.Prelude.{◌≡◌, List, [], ◌∷◌, ◌++◌, ℕ, All, Some, true, length, slice_get};
ghost use Rattle.std.specs.Option.{option_to_list};
ghost use Rattle.cx_core.specs.Merge.{IsHistory};
ghost use Rattle.cx_core.specs.declared.entry.Entry.{Entry};
ghost use Rattle.cx_core.specs.declared.local.Local.{Local};
ghost use Rattle.life_records.specs.Records.{Encoding, Life, LifeRecord};
ghost use Rattle.life_records.specs.Lives.{is_stopped};
ghost use Rattle.life_records.specs.Scripts.{limit_in};
ghost use Rattle.life_records.specs.Ended.{IsEnded, IsSameButKept};
ghost use Rattle.life_records.specs.Journal.{IsByTicket, IsRecordOf};
ghost use Rattle.life_records.specs.Told.{IsTold};
ghost use Rattle.life_records.specs.Works.{AreWorks, IsWork};

/// With no clients there are no lines.
pub fn works_begin<Op, Reply>()
    ensures { (encoding : Encoding Op Reply) (life : Life Op) → AreWorks encoding life [] [] [] [] [] }
{}

/// The lines of the next client go behind those of all before it.
pub fn works_go_on<Op, Reply>()
    ensures { (encoding : Encoding Op Reply) (life : Life Op) (locals l entries es reads rs stops stop fulls full : _) → AreWorks encoding life locals entries reads stops fulls →
        IsWork encoding life (length locals) l es rs stop full →
        AreWorks encoding life (locals ++ l ∷ []) (entries ++ es) (reads ++ rs) (stops ++ option_to_list stop) (fulls ++ option_to_list full) }
{}

/// Put by ticket, the lines are still those of the clients, and a record of them is told by the history that merges their callers'
/// own lists, where each client that ended Full names one that was stopped.
pub fn journals_are_told<Op, Reply>()
    ensures works { (encoding : Encoding Op Reply) (life : Life Op) (place : ℕ) (history locals entries journal reads stops fulls : _) →
        AreWorks encoding life locals entries reads stops fulls → IsHistory place history locals → IsByTicket entries journal →
        AreWorks encoding life locals journal reads stops fulls }
    ensures is_told { (encoding : Encoding Op Reply) (life : Life Op) (place : ℕ) (history locals entries journal reads stops fulls : _) →
        AreWorks encoding life locals entries reads stops fulls → IsHistory place history locals → IsByTicket entries journal →
        All (λ line. is_stopped line.note.holder stops ≡ true) fulls →
        (report : _) → IsRecordOf place locals journal reads stops fulls report → length locals ≡ life.clients →
        ((client : ℕ) (l : _) → slice_get locals client ≡ Some l → l.limit ≡ limit_in client life.cuts) →
        IsTold encoding life place history locals report }
{}

/// Clients whose lines a history tells have ended: each command is answered once, in order, up to a stop at the client's limit or to
/// one in which the client ended Full, since a client that was stopped kept its cells.
pub fn told_lives_have_ended<Op, Reply>()
    ensures { (encoding : Encoding Op Reply) (life : Life Op) (place : ℕ) (history : List Entry) (locals : List Local) (report : LifeRecord Reply) →
        AreWorks encoding life locals report.journal report.reads report.stops report.fulls →
        IsTold encoding life place history locals report → IsEnded life report }
{}

/// What a closed table tells of a record, and how its clients ended, stays when stop lines get their kept flags and the
/// numbers of entries kept and of items are filled in.
pub fn flags_may_be_set<Op, Reply>()
    ensures is_told { (encoding : Encoding Op Reply) (life : Life Op) (report flagged : LifeRecord Reply) → IsSameButKept report flagged →
        (place : ℕ) (history locals : _) → IsTold encoding life place history locals report → IsTold encoding life place history locals flagged }
    ensures ended { (life : Life Op) (report flagged : LifeRecord Reply) → IsSameButKept report flagged → IsEnded life report → IsEnded life flagged }
{}

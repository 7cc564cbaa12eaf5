//! What follows from the definitions.

ghost use Rattle.std.specs.Prelude.{◌≡◌, List};
ghost use Rattle.doc_model.specs.Meaning.{IsOp};
ghost use Rattle.doc_model.specs.declared.operations.Op.{Op};
ghost use Rattle.doc_model.specs.declared.operations.Reply.{Reply};
ghost use Rattle.doc_store.specs.DocumentMeaning.{document_meaning};
ghost use Rattle.life_records.specs.Limits.{KeepsLimits};
ghost use Rattle.life_records.specs.Lives.{AreLegalLives, AreNumbers};
ghost use Rattle.life_records.specs.Records.{LifeRecord, Script};
ghost use Rattle.doc_text.specs.Report.{document_report_of};

/// Two different lists of records that are legal lives of one script have different reports, so what happened is
/// read off the bytes written. (The premises on numbers hold for all values of the types.)
pub fn different_lives_have_different_reports()
    ensures { (script : Script Op) (a b : List (LifeRecord Reply)) → KeepsLimits IsOp 8 script →
        AreLegalLives (document_meaning script.lines) script a → AreLegalLives (document_meaning script.lines) script b →
        AreNumbers a → AreNumbers b →
        document_report_of script a ≡ document_report_of script b → a ≡ b }
{}

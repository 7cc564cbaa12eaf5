//! What the table of operations keeps.

ghost use Rattle.std.specs.Prelude.{◌≡◌, ℕ, true};
ghost use Rattle.doc_model.specs.Revisions.{RevisedStore, IsRevisedStore};
ghost use Rattle.doc_model.specs.Meaning.{IsOp, store_after, only_reads};
ghost use Rattle.doc_model.specs.declared.operations.Op.{Op};

/// A store within the limits is one after each operation within the limits.
pub fn operations_keep_stores()
    ensures { (lines : ℕ) (store : RevisedStore) (op : Op) → IsRevisedStore store → IsOp op → IsRevisedStore (store_after lines store op) }
{}

/// An operation that only reads leaves the store.
pub fn readings_leave_stores()
    ensures { (lines : ℕ) (store : RevisedStore) (op : Op) → only_reads op ≡ true → store_after lines store op ≡ store }
{}

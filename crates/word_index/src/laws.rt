//! Laws of the exact words that changes leave. The words after a call of the index are a function of the words before
//! it (`with_document`, `with_key_removed`), so a memory that runs calls in turn holds the same words wherever it runs.

ghost use Rattle.std.specs.Prelude.{◌≡◌, ℕ, List, if◌then◌else◌};
ghost use Rattle.cx_base.specs.Memory.{Words};
ghost use Rattle.cx_base.specs.Store.{IsKey, IsDocument};
ghost use Rattle.doc_model.specs.Meaning.{with_pair, has_room};
ghost use Rattle.doc_model.specs.Revisions.{store_written, removed};
ghost use Rattle.avl_words.specs.Lines.{line_count};
ghost use Rattle.index_validation.specs.Layout.{IsIndex};
ghost use Rattle.index_validation.specs.Reading.{store_in, revised_in};
ghost use Rattle.word_index.specs.Changes.{IsRemoved};
ghost use Rattle.word_index.specs.Exact.{with_document, inserted_in, is_key_in, with_key_removed};
ghost use Rattle.word_index.specs.Insertion.{Inserts};

/// The words that a document put at a key leaves: they stand for the store with it, where there is room, with the next revision, and are as
/// many words of 64 bits as before.
pub fn documents_are_put()
    ensures stands { (key document words : List ℕ) (n : ℕ) → IsIndex words → Words n words → IsKey key → IsDocument document → Inserts key document (inserted_in key document words) words (with_document key document words) }
    ensures words { (key document words : List ℕ) (n : ℕ) → IsIndex words → Words n words → IsKey key → IsDocument document → Words n (with_document key document words) }
    ensures revised { (key document words : List ℕ) → IsIndex words → IsKey key → IsDocument document → revised_in (with_document key document words) ≡ (if has_room (line_count words) (with_pair key document (store_in words)) then store_written key document (revised_in words) else revised_in words) }
{}

/// The words that a key taken out leaves: they stand for the store without it, with the revisions as they were, and are as many words of
/// 64 bits as before.
pub fn keys_are_removed()
    ensures stands { (key words : List ℕ) → IsIndex words → IsRemoved key (is_key_in key words) words (with_key_removed key words) }
    ensures words { (key words : List ℕ) (n : ℕ) → IsIndex words → Words n words → Words n (with_key_removed key words) }
    ensures revised { (key words : List ℕ) → IsIndex words → revised_in (with_key_removed key words) ≡ removed key (revised_in words) }
{}

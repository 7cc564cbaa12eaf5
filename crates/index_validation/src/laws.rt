//! Laws of words that stand for stores.

ghost use Rattle.std.specs.Prelude.{◌≡◌, ℕ, List};
ghost use Rattle.cx_base.specs.Memory.{Words};
ghost use Rattle.cx_base.specs.Store.{Store};
ghost use Rattle.doc_model.specs.Revisions.{IsRevisedStore, pairs_in};
ghost use Rattle.index_validation.specs.Layout.{StandsFor};
ghost use Rattle.index_validation.specs.Lawful.{IsLawful, HasOneStore};
ghost use Rattle.index_validation.specs.Reading.{store_in, revised_in, HasOneRevisedStore};

/// Words stand for at most one store.
pub fn words_stand_for_one_store()
    ensures { (words : List ℕ) (version other : ℕ) (store more : Store) → StandsFor words version store → StandsFor words other more → store ≡ more }
{}

/// Lawful words stand for exactly one store, with exactly one version.
pub fn lawful_words_have_one_store()
    ensures { (words : List ℕ) (version : ℕ) → IsLawful words version → HasOneStore words version }
{}

/// The store that words stand for is read off them.
pub fn words_tell_their_store()
    ensures { (words : List ℕ) (version : ℕ) (store : Store) → StandsFor words version store → store_in words ≡ store }
{}

/// Lawful words of version 2 stand for exactly one store whose pairs have revisions. Its pairs are those of the store without.
pub fn lawful_words_have_one_revised_store()
    ensures one { (words : List ℕ) → IsLawful words 2 → HasOneRevisedStore words }
    ensures pairs { (words : List ℕ) → pairs_in (revised_in words) ≡ store_in words }
    ensures lawful { (words : List ℕ) (n : ℕ) → IsLawful words 2 → Words n words → IsRevisedStore (revised_in words) }
{}

//! What is recovered of documents from an image.

ghost use Rattle.std.specs.Prelude.{◌≡◌, ◌≢◌, ◌≤◌, ℕ, Result, Err, IfOk, MatchResult, length};
ghost use Rattle.cx_base.specs.Store.{Store};
ghost use Rattle.cx_core.specs.Region.{object_part};
ghost use Rattle.doc_store.specs.ExactStep.{IsImageOfStore};
ghost use Rattle.index_validation.specs.Layout.{StandsFor};
ghost use Rattle.recovery.specs.Images.{IsReadable, region_of};
ghost use Rattle.recovery.specs.declared.recovered_base.ImageFault.TheVariants.{Memory};
ghost use Rattle.doc_commands.specs.Documents.{HaveDocuments, IsAnswerTo, IsRecoveredOf, HasDocuments};
ghost use Rattle.doc_commands.specs.Outcomes.{HoldsStoreReplies, IsOutcomesFault};
ghost use Rattle.word_index.specs.Upgrading.{first_revisions};

use crate::replies::outcomes_of;
use cx_base::Items;
use cx_core::{Base, Image, OBJECT_START};
use doc_model::Pair;
use doc_store::{DocStore, documents};
use doc_text::Recovered;
use recovery::{ImageFault, recover};
use std::alloc::{AllocError, Global};

/// What is recovered of documents from an image: the place of the root, the last command of each client with a number, and the
/// pairs of the store, each with its revision. An image of version 1 is upgraded. A refusal names the first check that the image does not
/// pass, in the order of `ImageFault`, and `Body` also where a slot with a number holds no reply of documents; `Memory` means out of memory.
pub fn recovered(alloc: Global, image: &Image) -> Result<Recovered, ImageFault>
    requires { IsReadable image.now.lines image.now }
    ensures { IsAnswerTo image.now result }
{
    let base = recover(alloc, &DocStore::of(image.lines), image)?;
    found_in(alloc, &base)
}

/// What a base holds of documents: its place, the last command of each client with a number, and the store's pairs.
fn found_in(alloc: Global, base: &Base) -> Result<Recovered, ImageFault>
    requires words { OBJECT_START ≤ length base.now.words }
    requires lawful { (lines : ℕ) × IsImageOfStore lines (object_part base.now.words) }
    ensures found { MatchResult result (HasDocuments base.now) (IsOutcomesFault base.now.words) }
    ensures replies { IfOk result (λ _. HoldsStoreReplies base.now.words) }
{
    let outcomes = outcomes_of(alloc, base)?;
    let Ok(pairs) = pairs_of(alloc, base) else {
        return Err(ImageFault::Memory);
    };
    Ok(Recovered {
        place: base.place,
        outcomes,
        documents: Items::of(pairs),
    })
}

/// The pairs of the store that a base stands for, with their revisions, in the order of their keys. `Err` means out of memory.
fn pairs_of(alloc: Global, base: &Base) -> Result<Vec<Pair>, AllocError>
    requires words { OBJECT_START ≤ length base.now.words }
    requires lawful { (lines : ℕ) × IsImageOfStore lines (object_part base.now.words) }
    ensures { IfOk result (λ pairs. HaveDocuments (object_part base.now.words) pairs.items) }
{
    let (_, part) = base.words.as_slice().split_at(OBJECT_START as usize);
    documents(alloc, part)
}

/// The law that two answers to the same image are the same, unless memory runs out.
pub fn answers_are_one()
    ensures { (image : Image) (one other : Result Recovered ImageFault) → IsAnswerTo image one → IsAnswerTo image other → one ≢ Err Memory → other ≢ Err Memory → one ≡ other }
{}

/// The law that from an image of version 1 those pairs are recovered that the image stands for, each with revision 1.
pub fn old_pairs_have_first_revisions()
    ensures { (image : Image) (found : Recovered) (store : Store) → IsRecoveredOf image found → StandsFor (object_part (region_of image)) 1 store → found.documents ≡ (first_revisions store).triples }
{}

//! Laws on images in words: that `base_of` takes up what was written of a closed service or taken of a running one, that such images keep replies, and
//! that `base_of` answers any words exactly by its checks. Each law is the contract of a function that does nothing else.

ghost use Rattle.std.specs.Prelude.{◌≡◌, ◌≢◌, ◌<◌, ℕ, All, Err, List, MatchResult, Some, slice_get};
ghost use Rattle.cx_core.specs.Base.{LawfulBase};
ghost use Rattle.table_invariant.specs.Running.{IsTableWithinLimits, Running, instance_at};
ghost use Rattle.table_invariant.specs.Seats.{Seated};
ghost use Rattle.cx_table.specs.Remains.{ClosingWitness};
ghost use Rattle.recovery.specs.Crashes.{AreRemainsWhole};
ghost use Rattle.recovery.specs.Kept.{IsKeptBy, IsOpened};
ghost use Rattle.recovery.specs.Outcomes.{TellsOutcome};
ghost use Rattle.recovery.specs.declared.recovered_base.ImageFault.TheVariants.{Memory};
ghost use Rattle.c_images.specs.Exact.{AreAnsweredExactly};
ghost use Rattle.c_images.specs.Replies.{IsReplyOfKind, RepliesGoOn};
ghost use Rattle.c_images.specs.Taken.{IsWrittenOf, base_at};
ghost use Rattle.c_images.specs.Words.{IsHeaded, IsKind, IsTakenUp, IsWordsFault, AreRemainsWritten, object_kind_in};
ghost use Rattle.c_images.specs.declared.reader.WordsFault.TheVariants.{Image};
ghost use Rattle.c_images.specs.declared.replies.ReplyKind.{ReplyKind};

use cx_base::Object;
use recovery::{
    base_of_checkpoint, closed_tables_are_whole, closed_tables_recover, kept_bases_have_results,
    kept_bases_tell_outcomes, lawful_bases_are_accepted, recovering_is_exact,
};

/// Words that `write_image` wrote of a closed service have a head of that kind, and `base_of` refuses them only where memory runs out. What it takes up
/// holds each answer that the service's callers were given: it is the full image after the entries of the history below the root's place.
pub fn written_images_are_taken_up<O: Object>()
    ensures headed { (r : _) (kind choice : ℕ) (words : List ℕ) → IsKind kind → AreRemainsWhole r → AreRemainsWritten kind r choice words → IsHeaded words × (object_kind_in words ≡ kind) }
    ensures taken_up { (table : Running O) (seats : List Seated) (r : _) (kind choice : ℕ) (words : List ℕ) (answer : _) →
        IsOpened O.line_count O.lawful table → ClosingWitness table (instance_at table O.step O.only_reads) seats r → AreRemainsWritten kind r choice words →
        MatchResult answer
        (IsTakenUp (O.version_number table.object) (O.lawful table.object) (O.old_format table.object) words)
        (IsWordsFault (O.version_number table.object) (O.lawful table.object) (O.old_format table.object) words) →
        MatchResult answer (IsKeptBy O.line_count O.lawful O.step table seats r choice) (λ fault. fault ≡ Image Memory) }
{
    // a closed service leaves all that a crash image is made of, and each image of it may be read for the object
    closed_tables_are_whole::<O>();
    // recovery refuses no such image, unless memory runs out, and what it gives holds each answer
    closed_tables_recover::<O>();
}

/// The law that a base that is taken up of words that `write_image` wrote of a closed service holds, for each caller, the number of its last entry below the
/// root's place and the history's reply to it, and for a caller without an entry there what the service was opened with.
pub fn written_images_tell_outcomes<O: Object>()
    ensures { (table : Running O) (seats : List Seated) (r : _) (kind choice caller : ℕ) (words : List ℕ) (base : _) →
        IsOpened O.line_count O.lawful table → ClosingWitness table (instance_at table O.step O.only_reads) seats r → AreRemainsWritten kind r choice words →
        IsTakenUp (O.version_number table.object) (O.lawful table.object) (O.old_format table.object) words base → caller < 8 →
        TellsOutcome (O.step table.object) table.base r.trail.history base caller }
{
    // what is taken up of the words is the base that is recovered after a crash of the closed service
    written_images_are_taken_up::<O>();
    // that base has each caller's last entry and its reply
    kept_bases_tell_outcomes::<O>();
}

/// A base that is taken up of words that `write_image` wrote of a closed service has replies of one kind only, where those that the service was opened
/// with are of that kind and its object's step answers by no others. 144 zeros, which answer words of no operation, count as a reply here. Each result
/// in such a base is one that the service was opened with, or a reply of the step.
pub fn written_images_keep_replies<O: Object>()
    ensures { (replies : ReplyKind) (table : Running O) (seats : List Seated) (r : _) (kind choice : ℕ) (words : List ℕ) (base : _) →
        IsOpened O.line_count O.lawful table → ClosingWitness table (instance_at table O.step O.only_reads) seats r → AreRemainsWritten kind r choice words →
        IsTakenUp (O.version_number table.object) (O.lawful table.object) (O.old_format table.object) words base →
        RepliesGoOn (IsReplyOfKind replies) (O.lawful table.object) (O.step table.object) table.base.words base.words }
{
    // what is taken up of the words is the base that is recovered after a crash of the closed service
    written_images_are_taken_up::<O>();
    // each result in that base is one that the service was opened with, or keeps a reply of the object's step
    kept_bases_have_results::<O>();
}

/// Words that `write_base` wrote of a running service, of a lawful base at its place, have a head of that kind, and `base_of` refuses them only where
/// memory runs out. What it takes up is that base.
pub fn taken_images_are_taken_up<O: Object>()
    ensures headed { (table : Running O) (kind place : ℕ) (region words : List ℕ) → IsKind kind → IsTableWithinLimits O.line_count O.lawful table →
        IsWrittenOf kind table.callers table.lines place region words → IsHeaded words × (object_kind_in words ≡ kind) }
    ensures taken_up { (table : Running O) (kind place : ℕ) (region words : List ℕ) (answer : _) → IsTableWithinLimits O.line_count O.lawful table →
        LawfulBase table.lines (O.lawful table.object) (base_at place region) → IsWrittenOf kind table.callers table.lines place region words →
        MatchResult answer
        (IsTakenUp (O.version_number table.object) (O.lawful table.object) (O.old_format table.object) words)
        (IsWordsFault (O.version_number table.object) (O.lawful table.object) (O.old_format table.object) words) →
        MatchResult answer (λ base. base ≡ base_at place region) (λ fault. fault ≡ Image Memory) }
{
    // an image whose root names a lawful base is refused by no check, and that base is recovered
    lawful_bases_are_accepted::<O>();
}

/// The images that callers took of a service keep replies of a kind where the service was opened with such replies and its object's step answers by none but
/// those. This is known once the service is closed.
pub fn taken_images_keep_replies<O: Object>()
    ensures { (replies : ReplyKind) (table : Running O) (seats : List Seated) (r : _) → IsOpened O.line_count O.lawful table →
        ClosingWitness table (instance_at table O.step O.only_reads) seats r →
        All (λ (s : Seated). (i : ℕ) (region : List ℕ) → slice_get s.known.images i ≡ Some region →
        RepliesGoOn (IsReplyOfKind replies) (O.lawful table.object) (O.step table.object) table.base.words region) seats }
{
    // each image that a caller took is a base of the history that the service was closed with
    base_of_checkpoint::<O>();
}

/// The law that `base_of` answers image words of either format exactly by its checks, unless memory runs out: with the refusal of the first check that the
/// image does not pass; where it passes all, with `Numbers` if a number of its results is above its place; and with the base if none is.
pub fn words_are_answered_exactly<O: Object>()
    ensures { (object : O) (words : List ℕ) (answer : _) → IsHeaded words →
        MatchResult answer
        (IsTakenUp (O.version_number object) (O.lawful object) (O.old_format object) words)
        (IsWordsFault (O.version_number object) (O.lawful object) (O.old_format object) words) →
        answer ≢ Err (Image Memory) → AreAnsweredExactly (O.version_number object) (O.lawful object) (O.old_format object) words answer }
{
    // recovery refuses an image exactly where a check fails, unless memory runs out
    recovering_is_exact::<O>();
}

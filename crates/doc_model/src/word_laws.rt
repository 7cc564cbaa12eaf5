//! What holds of the words of operations and replies.

ghost use Rattle.std.specs.Prelude.{◌≡◌, ◌+◌, ◌^◌, ◌<◌, ℕ, List, All, length, slice_index};
ghost use Rattle.cx_base.specs.Packing.{packed_at};
ghost use Rattle.doc_model.specs.Meaning.{IsOp, only_reads};
ghost use Rattle.doc_model.specs.Words.{words_with, op_words, reply_words, IsReply, HasIntegerAmount, HasWordNumber, is_reading_kind};
ghost use Rattle.doc_model.specs.declared.operations.Op.{Op};
ghost use Rattle.doc_model.specs.declared.operations.Reply.{Reply};

use cx_base::OP_WORDS;

/// Operations and their words are one to one: two operations within the limits that have the same words are the
/// same.
pub fn op_words_are_one_to_one()
    ensures { (one other : Op) → IsOp one → HasIntegerAmount one → IsOp other → HasIntegerAmount other → op_words one ≡ op_words other → one ≡ other }
{}

/// Replies and their words are one to one, too.
pub fn reply_words_are_one_to_one()
    ensures { (one other : Reply) → IsReply one → HasWordNumber one → IsReply other → HasWordNumber other → reply_words one ≡ reply_words other → one ≡ other }
{}

/// Operations and replies have 144 words of 64 bits.
pub fn words_are_words()
    ensures ops { (op : Op) → IsOp op → HasIntegerAmount op → (length (op_words op) ≡ OP_WORDS) × All (λ w. w < 2 ^ 64) (op_words op) }
    ensures replies { (reply : Reply) → IsReply reply → HasWordNumber reply → (length (reply_words reply) ≡ OP_WORDS) × All (λ w. w < 2 ^ 64) (reply_words reply) }
{}

/// The kinds of the operations that only read are 4 to 6 and 8, and those of the others are not.
pub fn kinds_tell_readings()
    ensures { (op : Op) → only_reads op ≡ is_reading_kind (slice_index (op_words op) 0) }
{}

/// Where the parts stand in their words.
pub fn parts_stand_in_words()
    ensures kind { (kind number : ℕ) (key document : List ℕ) → slice_index (words_with kind key document number) 0 ≡ kind }
    ensures key_length { (kind number : ℕ) (key document : List ℕ) → slice_index (words_with kind key document number) 1 ≡ length key }
    ensures document_length { (kind number : ℕ) (key document : List ℕ) → slice_index (words_with kind key document number) 2 ≡ length document }
    ensures number { (kind number : ℕ) (key document : List ℕ) → slice_index (words_with kind key document number) 3 ≡ number }
    ensures key { (kind number : ℕ) (key document : List ℕ) (k : ℕ) → k < 8 → slice_index (words_with kind key document number) (8 + k) ≡ packed_at key k }
    ensures document { (kind number : ℕ) (key document : List ℕ) (k : ℕ) → k < 128 → slice_index (words_with kind key document number) (16 + k) ≡ packed_at document k }
{}

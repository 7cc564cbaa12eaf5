//! Laws of the queue's steps.

ghost use Rattle.std.specs.Prelude.{◌≡◌, ◌↔◌, ℕ, List, replicate, true};
ghost use Rattle.fifo_object.specs.Words.{AreOfNoOp};
ghost use Rattle.fifo_object.specs.Fifo.{IsReading, TouchesTwoLines, fifo_reads, fifo_step};

use cx_base::OP_WORDS;

/// Whatever the operation, a step touches the header's line and at most one more.
pub fn steps_touch_two_lines()
    ensures { (lines : ℕ) (image op : List ℕ) → TouchesTwoLines (λ words. fifo_step lines words op) image }
{}

/// Words of no operation are answered by 144 zeros, and leave the image.
pub fn words_of_no_operation_change_nothing()
    ensures { (lines : ℕ) (image words : List ℕ) → AreOfNoOp words → fifo_step lines image words ≡ (image, replicate OP_WORDS 0) }
{}

/// Words are taken for those of an operation that only reads exactly where they are those of a Peek or of a Len.
pub fn readings_are_peek_and_len()
    ensures { (words : List ℕ) → (fifo_reads words ≡ true) ↔ IsReading words }
{}

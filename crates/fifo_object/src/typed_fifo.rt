//! The queue as an object whose operations and replies are values of types.

ghost use Rattle.std.specs.Prelude.{◌^◌, ◌<◌, All};
ghost use Rattle.fifo_object.specs.Queue.{Queue};
ghost use Rattle.fifo_object.specs.FifoMeaning.{fifo_meaning};
ghost use Rattle.fifo_object.specs.MeaningLaws.{fifo_has_meaning};

use crate::fifo::Fifo;
use crate::operations::{FifoOp, FifoReply};
use crate::words::{FifoFault, fifo_reply_of, fifo_words};
use cx_base::{Object, OpWords};
use std::alloc::{AllocError, Global};
use typed_object::TypedObject;

impl TypedObject for Fifo {
    type Op = FifoOp;

    type Reply = FifoReply;

    ghost Store = { Queue };

    ghost meaning = { λ f. fifo_meaning f.lines };

    ghost has_meaning = { λ f. fifo_has_meaning f.lines f.some };

    fn duplicate(&self) -> Fifo {
        Fifo::of(self.lines())
    }

    fn words_of(&self, op: &FifoOp) -> OpWords {
        fifo_words(op)
    }

    fn is_reading(&self, op: &FifoOp) -> bool {
        op.only_reads()
    }

    fn reply_of(&self, alloc: Global, words: &OpWords) -> Result<Option<FifoReply>, AllocError> {
        match fifo_reply_of(alloc, words) {
            Ok(reply) => Ok(Some(reply)),
            Err(FifoFault::Memory) => Err(AllocError),
            Err(FifoFault::BadOp) => Ok(None),
        }
    }

    fn op_is_a_value(&self, _op: &FifoOp) {}

    fn reply_is_a_value(&self, reply: &FifoReply) {
        match reply {
            FifoReply::Item(text) => are_bytes(text.as_slice()),
            FifoReply::Length(number) => is_below(*number),
            FifoReply::Pushed | FifoReply::Full | FifoReply::Empty => {}
        }
    }

    fn items_in(&self, _alloc: Global, words: &[u64]) -> Result<u64, AllocError> {
        Ok(words[2])
    }
}

/// Each item of a slice of bytes is below 256.
fn are_bytes(text: &[u8])
    ensures { All (λ b. b < 256) text.now }
{}

/// A number of 64 bits is below 2^64.
fn is_below(number: u64)
    ensures { number < 2 ^ 64 }
{}

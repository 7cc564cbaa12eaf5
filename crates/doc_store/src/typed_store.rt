//! The document store as an object whose operations and replies are values of types.

ghost use Rattle.std.specs.Prelude.{◌^◌, ◌<◌, All, FitsSigned};
ghost use Rattle.std.specs.Int.{w64};
ghost use Rattle.doc_model.specs.Revisions.{RevisedStore};
ghost use Rattle.doc_store.specs.DocumentMeaning.{document_meaning};
ghost use Rattle.doc_store.specs.MeaningLaws.{documents_have_meaning};

use crate::store::{DocStore, documents};
use cx_base::{Object, OpWords};
use doc_model::{Op, OpFault, Reply, op_words, reply_of};
use std::alloc::{AllocError, Global};
use typed_object::TypedObject;

impl TypedObject for DocStore {
    type Op = Op;

    type Reply = Reply;

    ghost Store = { RevisedStore };

    ghost meaning = { λ s. document_meaning s.lines };

    ghost has_meaning = { λ s. documents_have_meaning s.lines s.some s.few };

    fn duplicate(&self) -> DocStore {
        DocStore::of(self.lines())
    }

    fn words_of(&self, op: &Op) -> OpWords {
        op_words(op)
    }

    fn is_reading(&self, op: &Op) -> bool {
        op.only_reads()
    }

    fn reply_of(&self, alloc: Global, words: &OpWords) -> Result<Option<Reply>, AllocError> {
        match reply_of(alloc, words) {
            Ok(reply) => Ok(Some(reply)),
            Err(OpFault::Memory) => Err(AllocError),
            Err(OpFault::BadOp) => Ok(None),
        }
    }

    fn op_is_a_value(&self, op: &Op) {
        match op {
            Op::Add { amount, .. } => has_64_bits(*amount),
            Op::PutIf { revision, .. } => is_below(*revision),
            _ => {}
        }
    }

    fn reply_is_a_value(&self, reply: &Reply) {
        match reply {
            Reply::Doc(text) | Reply::Key(text) => are_bytes(text.as_slice()),
            Reply::Sum(sum) => has_64_bits(*sum),
            Reply::Number(number)
            | Reply::Set(number)
            | Reply::Stale(number)
            | Reply::Revision(number) => is_below(*number),
            _ => {}
        }
    }

    fn items_in(&self, alloc: Global, words: &[u64]) -> Result<u64, AllocError> {
        Ok(documents(alloc, words)?.len() as u64)
    }
}

/// Each item of a slice of bytes is below 256.
fn are_bytes(text: &[u8])
    ensures { All (λ b. b < 256) text.now }
{}

/// A signed number of 64 bits fits 64 bits.
fn has_64_bits(number: i64)
    ensures { FitsSigned w64 number }
{}

/// A number of 64 bits is below 2^64.
fn is_below(number: u64)
    ensures { number < 2 ^ 64 }
{}

//! The counters as an object of operations and replies.

ghost use Rattle.std.specs.Prelude.{◌^◌, ◌<◌, ℕ, List};
ghost use Rattle.bounded_counters.specs.CounterMeaning.{counter_meaning, counters_have_meaning};

use crate::counters::Counters;
use crate::operations::{Op, Reply};
use cx_base::{Object, OpWords};
use std::alloc::{AllocError, Global};
use typed_object::TypedObject;

impl TypedObject for Counters {
    type Op = Op;

    type Reply = Reply;

    ghost Store = { List ℕ };

    ghost meaning = { λ c. counter_meaning c.lines c.bound };

    ghost has_meaning = { λ c. counters_have_meaning c.lines c.bound };

    fn duplicate(&self) -> Counters {
        Counters::of(self.lines(), self.bound())
    }

    fn words_of(&self, op: &Op) -> OpWords {
        op.words()
    }

    fn is_reading(&self, op: &Op) -> bool {
        op.only_reads()
    }

    fn reply_of(&self, _alloc: Global, words: &OpWords) -> Result<Option<Reply>, AllocError> {
        Ok(Reply::of(words))
    }

    fn op_is_a_value(&self, op: &Op) {
        match op {
            Op::Add { counter, amount } => {
                is_below(*counter);
                is_below(*amount);
            }
            Op::Read { counter } => is_below(*counter),
            Op::Other => {}
        }
    }

    fn reply_is_a_value(&self, _reply: &Reply) {}

    fn items_in(&self, _alloc: Global, words: &[u64]) -> Result<u64, AllocError> {
        Ok(words.len() as u64 - 1)
    }
}

/// A number of 64 bits is below 2^64.
fn is_below(number: u64)
    ensures { number < 2 ^ 64 }
{}

//! The object of the tests: a running sum.

ghost use Rattle.std.specs.Prelude.{◌≡◌, ◌<◌, slice_index};
ghost use Rattle.cx_base.specs.OldFormat.{no_old_format, takes_over_nothing};
ghost use Rattle.cx_base.specs.Tally.{IsTally, tally_opening, tally_reads, tally_reply, tally_step};
ghost use Rattle.cx_base.specs.TallyLaws.{tally_opens, tally_keeps, tally_shape, tally_replies, tally_leaves};

use crate::memory::{Halt, Memory};
use crate::object::{OP_WORDS, Object, OpWords};
use std::alloc::{AllocError, Global};

/// An object of 64 lines and version 7. Word 0 of an operation is added to word 1 of the image, wrapping; an
/// operation whose word 1 is 1 only reads. Word 0 of the reply is the sum.
#[derive(Clone, Copy, Debug, PartialEq, Eq)]
pub struct Tally;

const WORDS: u64 = 512;

const VERSION: u64 = 7;

impl Object for Tally {
    ghost line_count = { λ _. 64 };

    ghost version_number = { λ _. 7 };

    ghost lawful = { λ _. IsTally };

    ghost opening = { λ _. tally_opening };

    ghost step = { λ _. tally_step };

    ghost only_reads = { λ _. tally_reads };

    ghost old_format = { λ _. no_old_format };

    ghost opens = { tally_opens };

    ghost keeps = { tally_keeps };

    ghost shape = { tally_shape };

    ghost replies = { tally_replies };

    ghost leaves = { tally_leaves };

    ghost takes_over = { λ _. takes_over_nothing 64 7 IsTally };

    fn lines(&self) -> u64 {
        64
    }

    fn version(&self) -> u64 {
        VERSION
    }

    fn format<M: Memory>(&self, mem: &mut M) -> Result<(), Halt> {
        for at in 0..WORDS {
            mem.store(at, opening_word(at))?;
        }
        Ok(())
    }

    fn reads(&self, op: &OpWords) -> bool {
        op[1] == 1
    }

    fn run_into<M: Memory>(
        &self,
        mem: &mut M,
        op: &OpWords,
        reply: &mut OpWords,
    ) -> Result<(), Halt> {
        if self.reads(op) {
            return self.query_into(mem, op, reply);
        }
        let sum = mem.load(1)?.wrapping_add(op[0]);
        mem.store(1, sum)?;
        *reply = reply_of(sum);
        Ok(())
    }

    fn query_into<M: Memory>(
        &self,
        mem: &mut M,
        _op: &OpWords,
        reply: &mut OpWords,
    ) -> Result<(), Halt> {
        *reply = reply_of(mem.load(1)?);
        Ok(())
    }

    fn check(&self, _alloc: Global, words: &[u64]) -> Result<bool, AllocError> {
        Ok(words.len() == 512 && words[0] == VERSION)
    }

    fn old_version(&self) -> Option<u64> {
        None
    }

    fn check_old(&self, _alloc: Global, _words: &[u64]) -> Result<bool, AllocError> {
        Ok(false)
    }

    fn upgrade(&self, _words: &mut [u64]) {}
}

/// A word of the opening image.
fn opening_word(at: u64) -> u64
    requires { at < 512 }
    ensures { result ≡ slice_index tally_opening at }
{
    if at == 0 { VERSION } else { 0 }
}

/// A reply with this sum.
fn reply_of(sum: u64) -> OpWords
    ensures { result ≡ tally_reply sum }
{
    let mut words = [0; OP_WORDS];
    words[0] = sum;
    words
}

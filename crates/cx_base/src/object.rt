//! Sequential objects: a deterministic step on an image of words.

ghost use Rattle.std.specs.Prelude.{◌≡◌, ◌*◌, ◌↔◌, ℕ, Bool, List, slice_index, IsTrue, IfOk};
ghost use Rattle.cx_base.specs.Calls.{Changes, Finds};
ghost use Rattle.cx_base.specs.Memory.{Words, Always};
ghost use Rattle.cx_base.specs.OldFormat.{CanUpgrade, OldFormat, TakesOver};

use crate::memory::{Halt, Memory};
use std::alloc::{AllocError, Global};

/// The words of an operation, and of its reply.
pub const OP_WORDS: usize = 144;

/// The words of an entry of the log: the number that its caller gave it, and the operation.
pub const ENTRY_WORDS: usize = 1 + OP_WORDS;

/// The words of a write set: how many stores it has, and the address and the word of each of at most 256.
pub const SET_WORDS: usize = 1 + 2 * 256;

/// An operation, or a reply.
pub type OpWords = [u64; OP_WORDS];

/// A sequential object. Its state is an image, which is a list of words in lines of 8, and its meaning is a step
/// from an image and an operation to the image after it and a reply. Operations and replies have 144 words.
pub trait Object: Drop {
    /// The lines of its image.
    ghost line_count: { Self → ℕ };

    /// The first word of each lawful image.
    ghost version_number: { Self → ℕ };

    /// Whether an image may be the object's.
    ghost lawful: { Self → List ℕ → Type 0 };

    /// The image that it opens with.
    ghost opening: { Self → List ℕ };

    /// The image after an operation, and the reply.
    ghost step: { Self → List ℕ → List ℕ → List ℕ × List ℕ };

    /// Whether an operation only reads.
    ghost only_reads: { Self → List ℕ → Bool };

    /// The format that its images had before, from which they are taken over.
    ghost old_format: { Self → OldFormat };

    /// The lines of its image, a line is 8 words. It is a constant of the value.
    fn lines(&self) -> u64
        ensures { result ≡ line_count self.now };

    /// The version of its image's format. It is a constant of the value.
    fn version(&self) -> u64
        ensures { result ≡ version_number self.now };

    /// Makes the opening image, whatever the words were. `Halt` comes only where no access is left.
    fn format<M: Memory>(&self, mem: &mut M) -> Result<(), Halt>
        requires size { M.size mem.old ≡ 8 * line_count self.now }
        requires writable { IsTrue (M.writable mem.old) }
        ensures { Changes M.Memory mem.old mem.new result (λ _ _ now. now ≡ opening self.now) };

    /// Whether an operation only reads.
    fn reads(&self, op: &OpWords) -> bool
        ensures { result ≡ only_reads self.now op.now };

    /// Does one step, and writes the reply into the caller's buffer, whatever was there. `Halt` comes only where no access is left.
    fn run_into<M: Memory>(
        &self,
        mem: &mut M,
        op: &OpWords,
        reply: &mut OpWords,
    ) -> Result<(), Halt>
        requires size { M.size mem.old ≡ 8 * line_count self.now }
        requires writable { IsTrue (M.writable mem.old) }
        requires lawful { Always (M.stands mem.old) (lawful self.now) }
        ensures { Changes M.Memory mem.old mem.new result (λ _ before now. step self.now before op.now ≡ (now, reply.new)) };

    /// Writes the reply to an operation that only reads into the caller's buffer, and stores nothing. `Halt` comes only where no access is left.
    fn query_into<M: Memory>(
        &self,
        mem: &mut M,
        op: &OpWords,
        reply: &mut OpWords,
    ) -> Result<(), Halt>
        requires size { M.size mem.old ≡ 8 * line_count self.now }
        requires lawful { Always (M.stands mem.old) (lawful self.now) }
        requires reads { IsTrue (only_reads self.now op.now) }
        ensures { Finds M.Memory mem.old mem.new result (λ _ now. step self.now now op.now ≡ (now, reply.new)) };

    /// Does one step as `run_into` does, and gives the reply, which moves 144 words. `Halt` comes only where no access is left.
    fn run<M: Memory>(&self, mem: &mut M, op: &OpWords) -> Result<OpWords, Halt>
        requires size { M.size mem.old ≡ 8 * line_count self.now }
        requires writable { IsTrue (M.writable mem.old) }
        requires lawful { Always (M.stands mem.old) (lawful self.now) }
        ensures { Changes M.Memory mem.old mem.new result (λ reply before now. step self.now before op.now ≡ (now, reply)) }
    {
        let mut reply = [0; OP_WORDS];
        self.run_into(mem, op, &mut reply)?;
        Ok(reply)
    }

    /// Gives the reply to an operation that only reads, as `query_into` does. `Halt` comes only where no access is left.
    fn query<M: Memory>(&self, mem: &mut M, op: &OpWords) -> Result<OpWords, Halt>
        requires size { M.size mem.old ≡ 8 * line_count self.now }
        requires lawful { Always (M.stands mem.old) (lawful self.now) }
        requires reads { IsTrue (only_reads self.now op.now) }
        ensures { Finds M.Memory mem.old mem.new result (λ reply now. step self.now now op.now ≡ (now, reply)) }
    {
        let mut reply = [0; OP_WORDS];
        self.query_into(mem, op, &mut reply)?;
        Ok(reply)
    }

    /// Whether words are a lawful image. `Err` says that memory ran out.
    fn check(&self, alloc: Global, words: &[u64]) -> Result<bool, AllocError>
        ensures { IfOk result (λ yes. IsTrue yes ↔ lawful self.now words.now) };

    /// The version of the format before, where there was one. It is a constant of the value.
    fn old_version(&self) -> Option<u64>
        ensures { result ≡ (old_format self.now).version };

    /// Whether words are a lawful image of the old version. `Err` says that memory ran out.
    fn check_old(&self, alloc: Global, words: &[u64]) -> Result<bool, AllocError>
        ensures { IfOk result (λ yes. IsTrue yes ↔ (old_format self.now).lawful words.now) };

    /// Makes the image that one of the old version becomes. Without an old version it changes nothing.
    fn upgrade(&self, words: &mut [u64])
        requires { CanUpgrade (old_format self.now) words.old }
        ensures { words.new ≡ (old_format self.now).upgraded words.old };

    /// The opening image is lawful.
    ghost opens: { (o : Self) → lawful o (opening o) };

    /// A step of a lawful image leaves a lawful image.
    ghost keeps: { (o : Self) (image op : List ℕ) → lawful o image → Words 144 op → lawful o (step o image op).0 };

    /// A lawful image has 8 words for each line, the first of which is the version.
    ghost shape: { (o : Self) (image : List ℕ) → lawful o image → Words (8 * line_count o) image × (slice_index image 0 ≡ version_number o) };

    /// A reply has 144 words.
    ghost replies: { (o : Self) (image op : List ℕ) → lawful o image → Words 144 op → Words 144 (step o image op).1 };

    /// An operation that only reads leaves the image.
    ghost leaves: { (o : Self) (image op : List ℕ) → lawful o image → Words 144 op → IsTrue (only_reads o op) → (step o image op).0 ≡ image };

    /// What an image of the old version becomes is lawful, and without an old version `upgrade` changes no words.
    ghost takes_over: { (o : Self) → TakesOver (line_count o) (version_number o) (lawful o) (old_format o) };
}

//! Objects whose operations and replies are values of types.

ghost use Rattle.std.specs.Prelude.{◌≡◌, IfOk};
ghost use Rattle.typed_object.specs.Meaning.{HasMeaning, IsReadAs, Meaning};

use cx_base::{Object, OpWords};
use std::alloc::{AllocError, Global};

/// An object whose operations and replies are values of types. Each image that it may have stands for a store, over which its
/// operations have their meaning: the words of an operation are what the object's step is given, and a reply is read from the words
/// that the step answers.
pub trait TypedObject: Object {
    /// What it may be asked.
    type Op: Drop + Sync;

    /// What it answers.
    type Reply: Drop + Send;

    /// What its images stand for.
    ghost Store: { Type 0 };

    /// What its operations mean.
    ghost meaning: { Self → Meaning Self.Op Self.Reply Store };

    /// Makes an equal object, for a service of its own.
    fn duplicate(&self) -> Self
        ensures { result ≡ self.now };

    /// The words of an operation.
    fn words_of(&self, op: &Self::Op) -> OpWords
        requires { (meaning self.now).is_op op.now }
        ensures { result ≡ (meaning self.now).encoding.op_words op.now };

    /// Whether an operation only reads.
    fn is_reading(&self, op: &Self::Op) -> bool
        ensures { result ≡ (meaning self.now).is_reading op.now };

    /// The reply that has these words; nothing where none has. `Err` says that memory ran out.
    fn reply_of(&self, alloc: Global, words: &OpWords) -> Result<Option<Self::Reply>, AllocError>
        ensures { IfOk result (IsReadAs (meaning self.now) words.now) };

    /// What the type says of each operation, as that a number has 64 bits.
    fn op_is_a_value(&self, op: &Self::Op)
        ensures { (meaning self.now).is_op_value op.now };

    /// What the type says of each reply.
    fn reply_is_a_value(&self, reply: &Self::Reply)
        ensures { (meaning self.now).is_reply_value reply.now };

    /// The number of items in the store that a lawful image stands for. `Err` says that memory ran out.
    fn items_in(&self, alloc: Global, words: &[u64]) -> Result<u64, AllocError>
        requires { Self.lawful self.now words.now }
        ensures { IfOk result (λ n. (store : Store) → (meaning self.now).stands words.now store → n ≡ (meaning self.now).items store) };

    /// The steps of its images are what its operations mean.
    ghost has_meaning: { (o : Self) → HasMeaning (Self.lawful o) (Self.opening o) (Self.step o) (Self.only_reads o) (meaning o) };
}

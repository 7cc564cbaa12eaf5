//! The objects that C may have.

ghost use Rattle.std.proofs.Common.{inl, inr};
ghost use Rattle.std.specs.Prelude.{◌≡◌, ℕ, refl};
ghost use Rattle.c_images.specs.Words.{IsKind};
ghost use Rattle.c_images.specs.declared.replies.ReplyKind.{ReplyKind as reply_kind_type};
ghost use Rattle.c_images.specs.declared.replies.ReplyKind.TheVariants as reply_kinds;

use crate::images::{DOCUMENTS, PROGRAM, QUEUE};
use c_images::ReplyKind;
use cx_base::Object;
use doc_store::DocStore;
use fifo_object::Fifo;
use program_object::ProgramObject;

/// An object that C may have.
pub trait OfC: Object {
    /// The number of its kind in the head of an image: 1 is a document store, 2 a queue, 3 the object of a program.
    ghost KIND: { ℕ };

    /// The number of its kind in the head of an image, for code.
    const KIND: u64;

    /// The kind of replies that the result slots of its replicas keep.
    ghost replies_kept: { reply_kind_type };

    /// The kind of replies that the result slots of its replicas keep, for code.
    fn reply_kind() -> ReplyKind
        ensures { result ≡ replies_kept };

    /// The number of its kind is one that an image may have.
    ghost known: { IsKind KIND };
}

impl OfC for DocStore {
    ghost KIND = { 1 };

    const KIND: u64 = DOCUMENTS;

    ghost replies_kept = { reply_kinds.Document };

    ghost known = { inl refl };

    fn reply_kind() -> ReplyKind {
        ReplyKind::Document
    }
}

impl OfC for Fifo {
    ghost KIND = { 2 };

    const KIND: u64 = QUEUE;

    ghost replies_kept = { reply_kinds.Queue };

    ghost known = { inr (inl refl) };

    fn reply_kind() -> ReplyKind {
        ReplyKind::Queue
    }
}

impl OfC for ProgramObject {
    ghost KIND = { 3 };

    const KIND: u64 = PROGRAM;

    ghost replies_kept = { reply_kinds.Program };

    ghost known = { inr (inr refl) };

    fn reply_kind() -> ReplyKind {
        ReplyKind::Program
    }
}

//! What is linked into the queue, and what a service begins with.

ghost use Rattle.std.specs.Prelude.{◌≡◌, length};
ghost use Rattle.cx_base.specs.Memory.{Words};

use cx_base::{Items, OP_WORDS, OpWords};

/// One update: its caller, its number among the caller's updates, and the operation of the object.
#[derive(Clone, Debug, PartialEq, Eq, Drop)]
pub struct Entry {
    pub caller: u32,
    pub number: u64,
    pub op: OpWords,
}

/// The region with which a service begins, and its place.
#[derive(Drop)]
pub struct Base {
    pub place: u64,
    pub words: Items<u64>,
}

/// What a crash leaves of a service, as numbers: its callers, the lines of its object, how many words its replicas have in
/// all, the root, and address and value of each word given, by rising addresses. The word at an address is the value of its pair, and 0
/// where it has none.
#[derive(Drop)]
pub struct Image {
    pub callers: u32,
    pub lines: u64,
    pub count: u64,
    pub root: u64,
    pub pairs: Items<(u64, u64)>,
}

/// The law that an operation is 144 words of 64 bits.
pub fn op_fits(op: &[u64])
    requires { length op.now ≡ OP_WORDS }
    ensures { Words OP_WORDS op.now }
{}

//! Operations and replies, and both as words.

ghost use Rattle.std.specs.Prelude.{◌≡◌};
ghost use Rattle.object_to_copy.specs.Meaning.{is_reading};
ghost use Rattle.object_to_copy.specs.Operations as spec;

use cx_base::{OP_WORDS, OpWords};

/// What 144 words ask for.
#[derive(Clone, Copy, Debug, PartialEq, Eq)]
pub enum Op {
    /// Take a number, where it is higher than the one that is there.
    Raise { to: u64 },
    /// Tell the number.
    Read,
    /// Nothing: the words are no operation's.
    Other,
}

/// What an operation is answered.
#[derive(Clone, Copy, Debug, PartialEq, Eq)]
pub enum Reply {
    /// The number, after the operation.
    Value(u64),
    /// The words were no operation's.
    NoOperation,
}

impl Op {
    /// The operation as words.
    pub fn words(self) -> OpWords
        ensures { result ≡ spec.op_words self }
    {
        match self {
            Op::Raise { to } => words_with(1, to, 0),
            Op::Read => words_with(2, 0, 0),
            Op::Other => words_with(0, 0, 0),
        }
    }

    /// The operation that words stand for.
    pub fn of(words: &OpWords) -> Op
        ensures { result ≡ spec.op_in words.now }
    {
        match words[0] {
            1 => Op::Raise { to: words[1] },
            2 => Op::Read,
            _ => Op::Other,
        }
    }

    /// Whether the operation only reads.
    pub fn only_reads(self) -> bool
        ensures { result ≡ is_reading self }
    {
        match self {
            Op::Read => true,
            Op::Raise { .. } | Op::Other => false,
        }
    }
}

impl Reply {
    /// The reply as words.
    pub fn words(self) -> OpWords
        ensures { result ≡ spec.reply_words self }
    {
        match self {
            Reply::Value(number) => words_with(1, number, 0),
            Reply::NoOperation => words_with(0, 0, 0),
        }
    }

    /// What the words of a reply tell.
    pub fn of(words: &OpWords) -> Reply
        ensures { result ≡ spec.reply_in words.now }
    {
        match words[0] {
            1 => Reply::Value(words[1]),
            _ => Reply::NoOperation,
        }
    }
}

/// Operations and replies are read back from their words.
#[tactic(auto, using(crate::specs::Operations::op_is_read, crate::specs::Operations::reply_is_read))]
pub fn words_are_read()
    ensures operations { (op : Op) → spec.op_in (spec.op_words op) ≡ op }
    ensures replies { (reply : Reply) → spec.reply_in (spec.reply_words reply) ≡ reply }
{}

/// The words of a kind and two numbers.
#[tactic(auto, unfolding(crate::specs::Operations::words_with))]
fn words_with(kind: u64, first: u64, second: u64) -> OpWords
    ensures { result ≡ spec.words_with kind first second }
{
    let mut words = [0; OP_WORDS];
    words[0] = kind;
    words[1] = first;
    words[2] = second;
    words
}

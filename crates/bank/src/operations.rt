//! Operations on the accounts and the replies to them, and both as words.

ghost use Rattle.std.specs.Prelude.{◌≡◌};
ghost use Rattle.bank.specs.Meaning.{is_reading};
ghost use Rattle.bank.specs.Operations as spec;

use cx_base::{OP_WORDS, OpWords};

/// What 144 words ask for. Accounts are numbered from 0.
#[derive(Clone, Copy, Debug, PartialEq, Eq)]
pub enum Op {
    /// Take an amount from one account and give it to another.
    Transfer { from: u64, to: u64, amount: u64 },
    /// Tell what an account has.
    Balance { account: u64 },
    /// Tell what all accounts have together.
    Audit,
    /// Nothing: the words are no operation's.
    Other,
}

/// What an operation is answered.
#[derive(Clone, Copy, Debug, PartialEq, Eq)]
pub enum Reply {
    /// The amount was moved.
    Moved,
    /// The account has less than the amount: this is what it has. Nothing has changed.
    Overdraft(u64),
    /// What the account has, or all have.
    Value(u64),
    /// There is no such account.
    Missing,
    /// The words were no operation's.
    NoOperation,
}

impl Op {
    /// The operation as words.
    pub fn words(self) -> OpWords
        ensures { result ≡ spec.op_words self }
    {
        match self {
            Op::Transfer { from, to, amount } => words_with(1, from, to, amount),
            Op::Balance { account } => words_with(2, account, 0, 0),
            Op::Audit => words_with(3, 0, 0, 0),
            Op::Other => words_with(0, 0, 0, 0),
        }
    }

    /// The operation that words stand for.
    pub fn of(words: &OpWords) -> Op
        ensures { result ≡ spec.op_in words.now }
    {
        match words[0] {
            1 => Op::Transfer {
                from: words[1],
                to: words[2],
                amount: words[3],
            },
            2 => Op::Balance { account: words[1] },
            3 => Op::Audit,
            _ => Op::Other,
        }
    }

    /// Whether the operation only reads.
    pub fn only_reads(self) -> bool
        ensures { result ≡ is_reading self }
    {
        match self {
            Op::Balance { .. } | Op::Audit => true,
            Op::Transfer { .. } | Op::Other => false,
        }
    }
}

impl Reply {
    /// The reply as words.
    pub fn words(self) -> OpWords
        ensures { result ≡ spec.reply_words self }
    {
        match self {
            Reply::Moved => words_with(1, 0, 0, 0),
            Reply::Overdraft(has) => words_with(2, has, 0, 0),
            Reply::Value(has) => words_with(3, has, 0, 0),
            Reply::Missing => words_with(4, 0, 0, 0),
            Reply::NoOperation => words_with(0, 0, 0, 0),
        }
    }

    /// What the words of a reply tell.
    pub fn of(words: &OpWords) -> Reply
        ensures { result ≡ spec.reply_in words.now }
    {
        match words[0] {
            1 => Reply::Moved,
            2 => Reply::Overdraft(words[1]),
            3 => Reply::Value(words[1]),
            4 => Reply::Missing,
            _ => Reply::NoOperation,
        }
    }
}

/// Operations and replies are read back from their words.
#[tactic(auto, using(crate::proofs::ReadBack::op_is_read, crate::proofs::ReadBack::reply_is_read))]
pub fn words_are_read()
    ensures operations { (op : Op) → spec.op_in (spec.op_words op) ≡ op }
    ensures replies { (reply : Reply) → spec.reply_in (spec.reply_words reply) ≡ reply }
{}

/// The words of a kind and three numbers.
#[tactic(auto, unfolding(crate::specs::Operations::words_with))]
fn words_with(kind: u64, first: u64, second: u64, third: u64) -> OpWords
    ensures { result ≡ spec.words_with kind first second third }
{
    let mut words = [0; OP_WORDS];
    words[0] = kind;
    words[1] = first;
    words[2] = second;
    words[3] = third;
    words
}

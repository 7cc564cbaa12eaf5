//! Operations on the counters and the replies to them, and both as words.

ghost use Rattle.std.specs.Prelude.{◌≡◌, ℕ};
ghost use Rattle.bounded_counters.specs.Counters.{is_reading};
ghost use Rattle.bounded_counters.specs.Operations as spec;

use cx_base::{OP_WORDS, OpWords};

/// What 144 words ask for. Counters are numbered from 0.
#[derive(Clone, Copy, Debug, PartialEq, Eq)]
pub enum Op {
    /// Add an amount to a counter.
    Add { counter: u64, amount: u64 },
    /// Tell what a counter has.
    Read { counter: u64 },
    /// Nothing: the words are no operation's.
    Other,
}

/// What an operation is answered.
#[derive(Clone, Copy, Debug, PartialEq, Eq)]
pub enum Reply {
    /// What the counter has, after the operation.
    Value(u64),
    /// The sum is not below the bound. Nothing has changed.
    Full,
    /// There is no such counter.
    Missing,
    /// The words were no operation's.
    NoOperation,
}

/// The words of an addition.
pub fn add_words(counter: u64, amount: u64) -> OpWords
    ensures { result ≡ spec.add_words counter amount }
{
    words_with(1, counter, amount)
}

/// The words of a reading.
pub fn read_words(counter: u64) -> OpWords
    ensures { result ≡ spec.reading_words counter }
{
    words_with(2, counter, 0)
}

impl Op {
    /// The operation as words; they stand for it.
    pub fn words(self) -> OpWords
        ensures { result ≡ spec.op_words self }
    {
        match self {
            Op::Add { counter, amount } => add_words(counter, amount),
            Op::Read { counter } => read_words(counter),
            Op::Other => words_with(0, 0, 0),
        }
    }

    /// Whether it only tells.
    pub fn only_reads(self) -> bool
        ensures { result ≡ is_reading self }
    {
        match self {
            Op::Read { .. } => true,
            Op::Add { .. } | Op::Other => false,
        }
    }

    /// The operation that words stand for.
    pub fn of(words: &OpWords) -> Op
        ensures { result ≡ spec.op_in words.now }
    {
        match words[0] {
            1 => Op::Add {
                counter: words[1],
                amount: words[2],
            },
            2 => Op::Read { counter: words[1] },
            _ => Op::Other,
        }
    }
}

impl Reply {
    /// The reply as words.
    pub fn words(self) -> OpWords
        ensures { result ≡ spec.reply_words self }
    {
        match self {
            Reply::Value(count) => words_with(1, count, 0),
            Reply::Full => words_with(2, 0, 0),
            Reply::Missing => words_with(3, 0, 0),
            Reply::NoOperation => words_with(0, 0, 0),
        }
    }

    /// The reply that has these words, if one has.
    pub fn of(words: &OpWords) -> Option<Reply>
        ensures { spec.IsCounterReply words.now result }
    {
        let reply = Reply::read(words);
        if reply.words() == *words {
            Some(reply)
        } else {
            None
        }
    }

    /// What a reply's words tell of it.
    fn read(words: &OpWords) -> Reply
        ensures { result ≡ spec.reply_in words.now }
    {
        match words[0] {
            1 => Reply::Value(words[1]),
            2 => Reply::Full,
            3 => Reply::Missing,
            _ => Reply::NoOperation,
        }
    }
}

/// The words of an operation stand for it.
#[tactic(auto, unfolding(crate::specs::Operations::words_with))]
pub fn operations_are_read()
    ensures additions { (counter amount : ℕ) → spec.op_in (spec.add_words counter amount) ≡ Op.Add counter amount }
    ensures readings { (counter : ℕ) → spec.op_in (spec.reading_words counter) ≡ Op.Read counter }
{}

/// The words of a kind and two numbers.
#[tactic(auto, unfolding(crate::specs::Operations::words_with))]
fn words_with(kind: u64, first: u64, second: u64) -> OpWords
    ensures { result ≡ spec.words_with kind first second }
{
    let mut words = [0; OP_WORDS];
    words[0] = kind;
    words[1] = first;
    words[2] = second;
    words
}

//! Operations and replies as 144 words. Word 0 is the kind, word 1 the length of the text or the number, and words 2 to 8 hold the
//! text, eight bytes a word. What a kind does not use is 0.

ghost use Rattle.std.specs.Prelude.{◌≡◌, ◌↔◌, ◌≤◌, ◌&&◌, nat_le, length, IfOk, IsErrOf};
ghost use Rattle.std.specs.List.{list_all};
ghost use Rattle.fifo_object.specs.Queue.{IsOp, IsReply};
ghost use Rattle.fifo_object.specs.Words as spec;
ghost use Rattle.fifo_object.specs.declared.words.FifoFault.TheVariants.{BadOp, Memory};

use crate::operations::{FifoOp, FifoReply};
use cx_base::{Bytes, OP_WORDS, OpWords, pack, unpack};
use std::alloc::{AllocError, Global};
use std::error::Error;
use std::fmt;

/// Why words were not read.
#[derive(Clone, Copy, Debug, PartialEq, Eq)]
pub enum FifoFault {
    /// No operation, or no reply, has these words.
    BadOp,
    /// Out of memory.
    Memory,
}

impl fmt::Display for FifoFault {
    fn fmt<W: fmt::Write>(&self, f: &mut fmt::Formatter<W>) -> fmt::Result {
        match self {
            FifoFault::BadOp => f.write_str("no operation or reply has these words"),
            FifoFault::Memory => f.write_str("out of memory"),
        }
    }
}

impl Error for FifoFault {}

impl From<AllocError> for FifoFault {
    ghost from_gives = { λ _ e. e ≡ Memory };

    fn from(_e: AllocError) -> FifoFault {
        FifoFault::Memory
    }
}

/// The words of an item that is neither a text nor a number.
const NO_ITEM: [u64; 8] = [0; 8];

/// The words of an operation. They take no memory.
pub fn fifo_words(op: &FifoOp) -> OpWords
    requires { IsOp op.now }
    ensures { result ≡ spec.op_words op.now }
{
    match op {
        FifoOp::Push { text } => words_of(1, &item_of(text.as_slice())),
        FifoOp::Pop => words_of(2, &NO_ITEM),
        FifoOp::Peek => words_of(3, &NO_ITEM),
        FifoOp::Len => words_of(4, &NO_ITEM),
    }
}

/// The words of a reply. They take no memory.
pub fn fifo_reply_words(reply: &FifoReply) -> OpWords
    requires { IsReply reply.now }
    ensures { result ≡ spec.reply_words reply.now }
{
    match reply {
        FifoReply::Pushed => words_of(1, &NO_ITEM),
        FifoReply::Full => words_of(2, &NO_ITEM),
        FifoReply::Item(text) => words_of(3, &item_of(text.as_slice())),
        FifoReply::Empty => words_of(4, &NO_ITEM),
        FifoReply::Length(number) => words_of(5, &item_of_number(*number)),
    }
}

/// The operation that has these words. `BadOp` comes exactly where none within the limits has them, and
/// `Memory` means out of memory.
pub fn fifo_of(alloc: Global, words: &OpWords) -> Result<FifoOp, FifoFault>
    ensures found { IfOk result (λ op. IsOp op × (spec.op_words op ≡ words.now)) }
    ensures bad { IsErrOf result FifoFault.BadOp ↔ spec.AreOfNoOp words.now }
{
    if !is_op(words) {
        return Err(FifoFault::BadOp);
    }
    Ok(op_in(alloc, words)?)
}

/// The reply that has these words. `BadOp` comes exactly where none within the limits has them, and
/// `Memory` means out of memory.
pub fn fifo_reply_of(alloc: Global, words: &OpWords) -> Result<FifoReply, FifoFault>
    ensures found { IfOk result (λ reply. IsReply reply × (spec.reply_words reply ≡ words.now)) }
    ensures bad { IsErrOf result FifoFault.BadOp ↔ spec.AreOfNoReply words.now }
{
    if !is_reply(words) {
        return Err(FifoFault::BadOp);
    }
    Ok(reply_in(alloc, words)?)
}

/// The kind of operation that has these words, and 0 where none within the limits has them. It takes no memory.
#[tactic(auto, unfolding(crate::specs::Words::kind_in))]
pub fn kind_in(words: &OpWords) -> u64
    ensures { result ≡ spec.kind_in words.now }
{
    if is_op(words) { words[0] } else { 0 }
}

/// The words of a kind and an item.
pub fn words_of(kind: u64, item: &[u64]) -> OpWords
    requires { length item.now ≡ 8 }
    ensures { result ≡ spec.words_of_item kind item.now }
{
    let mut words = [0; OP_WORDS];
    words[0] = kind;
    words[1..9].copy_from_slice(item);
    words
}

/// A number in the place of an item.
pub fn item_of_number(number: u64) -> [u64; 8]
    ensures { result ≡ spec.number_item number }
{
    [number, 0, 0, 0, 0, 0, 0, 0]
}

/// Whether eight words are a text's: its length, and its bytes packed.
#[tactic(auto, unfolding(crate::specs::Words::is_item))]
pub fn is_item(item: &[u64]) -> bool
    requires { length item.now ≡ 8 }
    ensures { result ≡ spec.is_item item.now }
{
    let mut bytes = [0; 56];
    let text = text_in(item, &mut bytes);
    is_text(text) && item_of(text).as_slice() == item
}

/// The eight words of a text.
fn item_of(text: &[u8]) -> [u64; 8]
    requires { length text.now ≤ 56 }
    ensures { result ≡ spec.item_words text.now }
{
    let mut item = [0; 8];
    item[0] = text.len() as u64;
    pack(text, &mut item[1..]);
    item
}

/// The text of an item. Of a longer one it is the first 56 bytes.
#[tactic(auto, unfolding(crate::specs::Words::text_in))]
fn text_in<'a>(item: &[u64], into: &'a mut [u8; 56]) -> &'a [u8]
    requires { length item.now ≡ 8 }
    ensures { result.now ≡ spec.text_in item.now }
{
    let text = &mut into[..item[0].min(56) as usize];
    unpack(&item[1..], text);
    text
}

/// The text of an item, copied. `Err` means out of memory.
fn copied_text(alloc: Global, item: &[u64]) -> Result<Bytes, AllocError>
    requires { length item.now ≡ 8 }
    ensures { IfOk result (λ text. text ≡ spec.text_in item.now) }
{
    let mut bytes = [0; 56];
    let text = text_in(item, &mut bytes);
    Bytes::of(alloc, text)
}

/// Whether bytes are a text: 1 to 56, each 0x21 to 0x7E.
pub fn is_text(text: &[u8]) -> bool
    ensures { result ≡ spec.is_text text.now }
{
    !text.is_empty() && text.len() <= 56 && are_visible(text)
}

/// Whether each byte is a visible character of ASCII.
fn are_visible(bytes: &[u8]) -> bool
    ensures { result ≡ list_all (λ b. nat_le 33 b && nat_le b 126) bytes.now }
{
    bytes.iter().all(|byte| *byte >= 0x21 && *byte <= 0x7E)
}

/// Whether an operation within the limits has these words.
#[tactic(auto, unfolding(crate::specs::Words::is_op_in))]
fn is_op(words: &OpWords) -> bool
    ensures { result ≡ spec.is_op_in words.now }
{
    match words[0] {
        1 => has_text(1, words),
        2..=4 => words_of(words[0], &NO_ITEM) == *words,
        _ => false,
    }
}

/// Whether a reply within the limits has these words.
#[tactic(auto, unfolding(crate::specs::Words::is_reply_in))]
fn is_reply(words: &OpWords) -> bool
    ensures { result ≡ spec.is_reply_in words.now }
{
    match words[0] {
        3 => has_text(3, words),
        5 => words_of(5, &item_of_number(words[1])) == *words,
        1 | 2 | 4 => words_of(words[0], &NO_ITEM) == *words,
        _ => false,
    }
}

/// Whether these are the words of a kind and a text.
#[tactic(auto, unfolding(crate::specs::Words::has_text))]
fn has_text(kind: u64, words: &OpWords) -> bool
    ensures { result ≡ spec.has_text kind words.now }
{
    let item = &words[1..9];
    is_item(item) && words_of(kind, item) == *words
}

/// The operation that words stand for.
#[tactic(auto, unfolding(crate::specs::Words::op_in))]
fn op_in(alloc: Global, words: &OpWords) -> Result<FifoOp, AllocError>
    ensures { IfOk result (λ op. op ≡ spec.op_in words.now) }
{
    match words[0] {
        1 => Ok(FifoOp::Push {
            text: copied_text(alloc, &words[1..9])?,
        }),
        2 => Ok(FifoOp::Pop),
        3 => Ok(FifoOp::Peek),
        _ => Ok(FifoOp::Len),
    }
}

/// The reply that words stand for.
#[tactic(auto, unfolding(crate::specs::Words::reply_in))]
fn reply_in(alloc: Global, words: &OpWords) -> Result<FifoReply, AllocError>
    ensures { IfOk result (λ reply. reply ≡ spec.reply_in words.now) }
{
    match words[0] {
        1 => Ok(FifoReply::Pushed),
        2 => Ok(FifoReply::Full),
        3 => Ok(FifoReply::Item(copied_text(alloc, &words[1..9])?)),
        4 => Ok(FifoReply::Empty),
        _ => Ok(FifoReply::Length(words[1])),
    }
}

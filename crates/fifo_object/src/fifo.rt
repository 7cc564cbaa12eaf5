//! The queue over the words of any memory.

ghost use Rattle.std.specs.Prelude.{◌≡◌, ◌+◌, ◌-◌, ◌*◌, ◌^◌, ◌<◌, ◌≤◌, ◌↔◌, IsTrue, IfOk, length, replicate};
ghost use Rattle.cx_base.specs.Calls.{Changes, Finds};
ghost use Rattle.cx_base.specs.OldFormat.{no_old_format, takes_over_nothing};
ghost use Rattle.fifo_object.specs.Words as spec;
ghost use Rattle.fifo_object.specs.Fifo.{HasItems, HoldsFifo, IsFifo, IsQueueHeader, MayAnswerQueue, MayChangeQueue, MayTell, count_in, fifo_opening, fifo_reads, fifo_step, front_words, queue_head, item_at, pop_step, push_step};
ghost use Rattle.fifo_object.specs.FifoLaws as laws;

use crate::words::{is_item, item_of_number, kind_in};
use cx_base::{Halt, Memory, OP_WORDS, Object, OpWords, store_words};
use std::alloc::{AllocError, Global};

const VERSION: u64 = 16;

/// The words of the header that have the place of the first item and the number of items.
const HEAD_AT: u64 = 1;

const COUNT_AT: u64 = 2;

/// A reply that is neither a text nor a number.
const NO_ITEM: [u64; 8] = [0; 8];

/// A queue of texts in a number of lines of 8 words, of which each but the first has a place for one. What it has stands in a
/// memory that is lent to each call; the value itself is only the number of lines.
#[derive(Drop)]
pub struct Fifo {
    lines: u64,
    ghost some: { 2 ≤ lines },
    ghost few: { lines ≤ 2 ^ 32 },
}

/// Where the items of a queue are.
#[derive(Clone, Copy)]
struct Ends {
    head: u64,
    count: u64,
}

impl Fifo {
    /// A queue in that many lines.
    pub fn of(lines: u64) -> Fifo
        requires some { 2 ≤ lines }
        requires few { lines ≤ 2 ^ 32 }
        ensures { result.lines ≡ lines }
    {
        Fifo { lines }
    }

    /// Loads the header's words.
    fn ends<M: Memory>(&self, mem: &mut M) -> Result<Ends, Halt>
        requires { HoldsFifo M.Memory self.now.lines mem.old }
        ensures finds { Finds M.Memory mem.old mem.new result (λ ends now. (queue_head now ≡ ends.head) × (count_in now ≡ ends.count)) }
        ensures bounds { IfOk result (λ ends. (ends.head < self.now.lines - 1) × (ends.count ≤ self.now.lines - 1)) }
    {
        let head = mem.load(HEAD_AT)?;
        let count = mem.load(COUNT_AT)?;
        Ok(Ends { head, count })
    }

    /// Puts an item behind the last.
    fn push<M: Memory>(&self, mem: &mut M, item: &[u64], reply: &mut OpWords) -> Result<(), Halt>
        requires may { MayChangeQueue M.Memory self.now.lines mem.old reply.old }
        requires item { length item.now ≡ 8 }
        ensures { Changes M.Memory mem.old mem.new result (λ _ before now. push_step self.now.lines item.now before ≡ (now, reply.new)) }
    {
        let ends = self.ends(mem)?;
        if self.lines - 1 <= ends.count {
            put_words(2, &NO_ITEM, reply);
            return Ok(());
        }
        let place = (ends.head + ends.count) % (self.lines - 1);
        store_words(mem, 8 * (place + 1), item)?;
        mem.store(COUNT_AT, ends.count + 1)?;
        put_words(1, &NO_ITEM, reply);
        Ok(())
    }

    /// Takes the item at the front.
    fn pop<M: Memory>(&self, mem: &mut M, reply: &mut OpWords) -> Result<(), Halt>
        requires { MayChangeQueue M.Memory self.now.lines mem.old reply.old }
        ensures { Changes M.Memory mem.old mem.new result (λ _ before now. pop_step self.now.lines before ≡ (now, reply.new)) }
    {
        let ends = self.ends(mem)?;
        if ends.count == 0 {
            put_words(4, &NO_ITEM, reply);
            return Ok(());
        }
        self.item_reply(mem, ends.head, reply)?;
        mem.store(HEAD_AT, (ends.head + 1) % (self.lines - 1))?;
        mem.store(COUNT_AT, ends.count - 1)?;
        Ok(())
    }

    /// Tells the item at the front.
    fn peek<M: Memory>(&self, mem: &mut M, reply: &mut OpWords) -> Result<(), Halt>
        requires { MayAnswerQueue M.Memory self.now.lines mem.old reply.old }
        ensures { Finds M.Memory mem.old mem.new result (λ _ now. reply.new ≡ front_words now) }
    {
        let ends = self.ends(mem)?;
        if ends.count == 0 {
            put_words(4, &NO_ITEM, reply);
            return Ok(());
        }
        self.item_reply(mem, ends.head, reply)
    }

    /// The reply that is the item at a place.
    fn item_reply<M: Memory>(
        &self,
        mem: &mut M,
        place: u64,
        reply: &mut OpWords,
    ) -> Result<(), Halt>
        requires may { MayTell M.Memory self.now.lines mem.old reply.old }
        requires place { place < self.now.lines - 1 }
        ensures { Finds M.Memory mem.old mem.new result (λ _ now. reply.new ≡ spec.words_of_item 3 (item_at now place)) }
    {
        let mut item = [0; 8];
        mem.load_words(8 * (place + 1), &mut item)?;
        put_words(3, &item, reply);
        Ok(())
    }

    /// Tells the number of items.
    fn len<M: Memory>(&self, mem: &mut M, reply: &mut OpWords) -> Result<(), Halt>
        requires { MayTell M.Memory self.now.lines mem.old reply.old }
        ensures { Finds M.Memory mem.old mem.new result (λ _ now. reply.new ≡ spec.words_of_item 5 (spec.number_item (count_in now))) }
    {
        let count = mem.load(COUNT_AT)?;
        put_words(5, &item_of_number(count), reply);
        Ok(())
    }

    /// Answers an operation that only reads.
    fn answer<M: Memory>(&self, mem: &mut M, op: &OpWords, reply: &mut OpWords) -> Result<(), Halt>
        requires may { MayAnswerQueue M.Memory self.now.lines mem.old reply.old }
        requires reads { IsTrue (fifo_reads op.now) }
        ensures { Finds M.Memory mem.old mem.new result (λ _ now. fifo_step self.now.lines now op.now ≡ (now, reply.new)) }
    {
        match kind_in(op) {
            3 => self.peek(mem, reply),
            _ => self.len(mem, reply),
        }
    }

    /// Whether words have a header.
    fn has_header(&self, words: &[u64]) -> bool
        requires { length words.now ≡ 8 * self.now.lines }
        ensures { IsTrue result ↔ IsQueueHeader self.now.lines words.now }
    {
        words[0] == VERSION
            && words[1] < self.lines - 1
            && words[2] <= self.lines - 1
            && words[3] == 0
            && words[4] == 0
            && words[5] == 0
            && words[6] == 0
            && words[7] == 0
    }

    /// Whether what stands at the places of the items are texts.
    fn has_items(&self, words: &[u64]) -> bool
        requires size { length words.now ≡ 8 * self.now.lines }
        requires header { IsQueueHeader self.now.lines words.now }
        ensures { IsTrue result ↔ HasItems self.now.lines words.now }
    {
        for i in 0..words[2] {
            if !has_item(words, (words[1] + i) % (self.lines - 1)) {
                return false;
            }
        }
        true
    }

    /// Whether words are an image of this queue.
    fn is_image(&self, words: &[u64]) -> bool
        ensures { IsTrue result ↔ IsFifo self.now.lines words.now }
    {
        words.len() as u64 == 8 * self.lines && self.has_header(words) && self.has_items(words)
    }
}

/// Puts the words of a kind and an item where the reply is made, in words that are 0: to move such words costs as much as the step.
fn put_words(kind: u64, item: &[u64], reply: &mut OpWords)
    requires item { length item.now ≡ 8 }
    requires zero { reply.old ≡ replicate OP_WORDS 0 }
    ensures { reply.new ≡ spec.words_of_item kind item.now }
{
    reply[0] = kind;
    reply[1..9].copy_from_slice(item);
}

/// Whether what stands at a place is a text.
fn has_item(words: &[u64], place: u64) -> bool
    requires { 8 * (place + 1) + 8 ≤ length words.now }
    ensures { result ≡ spec.is_item (item_at words.now place) }
{
    let at = 8 * (place as usize + 1);
    is_item(&words[at..at + 8])
}

impl Object for Fifo {
    ghost line_count = { λ f. f.lines };

    ghost version_number = { λ _. 16 };

    ghost lawful = { λ f. IsFifo f.lines };

    ghost opening = { λ f. fifo_opening f.lines };

    ghost step = { λ f. fifo_step f.lines };

    ghost only_reads = { λ _. fifo_reads };

    ghost old_format = { λ _. no_old_format };

    ghost opens = { λ f. laws.opens f.lines f.some };

    ghost keeps = { λ f image op i w. laws.keeps f.lines f.some f.few image op i };

    ghost shape = { λ f. laws.shape f.lines };

    ghost replies = { λ f image op i w. laws.replies f.lines f.few image op i };

    ghost leaves = { λ f image op i w. laws.leaves f.lines image op };

    ghost takes_over = { λ f. takes_over_nothing f.lines 16 (IsFifo f.lines) };

    fn lines(&self) -> u64 {
        self.lines
    }

    fn version(&self) -> u64 {
        VERSION
    }

    fn format<M: Memory>(&self, mem: &mut M) -> Result<(), Halt> {
        mem.store(0, VERSION)?;
        for at in 1..8 * self.lines {
            mem.store(at, 0)?;
        }
        Ok(())
    }

    fn reads(&self, op: &OpWords) -> bool {
        let kind = kind_in(op);
        kind == 3 || kind == 4
    }

    fn run_into<M: Memory>(
        &self,
        mem: &mut M,
        op: &OpWords,
        reply: &mut OpWords,
    ) -> Result<(), Halt> {
        *reply = [0; OP_WORDS];
        match kind_in(op) {
            1 => self.push(mem, &op[1..9], reply),
            2 => self.pop(mem, reply),
            3 => self.peek(mem, reply),
            4 => self.len(mem, reply),
            _ => Ok(()),
        }
    }

    fn query_into<M: Memory>(
        &self,
        mem: &mut M,
        op: &OpWords,
        reply: &mut OpWords,
    ) -> Result<(), Halt> {
        *reply = [0; OP_WORDS];
        self.answer(mem, op, reply)
    }

    fn check(&self, _alloc: Global, words: &[u64]) -> Result<bool, AllocError> {
        Ok(self.is_image(words))
    }

    fn old_version(&self) -> Option<u64> {
        None
    }

    fn check_old(&self, _alloc: Global, _words: &[u64]) -> Result<bool, AllocError> {
        Ok(false)
    }

    fn upgrade(&self, _words: &mut [u64]) {}
}

//! The accounts over the words of any memory.

ghost use Rattle.std.specs.Prelude.{◌≡◌, ◌+◌, ◌*◌, ◌^◌, ◌<◌, ◌≤◌, ◌↔◌, ℕ, List, length, nat_le, nat_lt, sum, IfNone, IfSome, IsTrue};
ghost use Rattle.cx_base.specs.Calls.{Changes, Finds};
ghost use Rattle.cx_base.specs.OldFormat.{no_old_format, takes_over_nothing};
ghost use Rattle.bank.specs.Meaning.{FitsAccounts, HoldsBank, IsBank, MayChangeBank, StepsAccounts, accounts_in, bank_opening, bank_reads, bank_step, blank};
ghost use Rattle.bank.specs.Laws as laws;
ghost use Rattle.bank.specs.declared.operations.Op.TheVariants.{Transfer, Balance, Audit};

use crate::operations::{Op, Reply};
use cx_base::{Halt, Memory, Object, OpWords, load_below};
use std::alloc::{AllocError, Global};

/// The first word of each image.
const VERSION: u64 = 1;

/// A number of accounts that have a total together, all of it in account 0 at first. What they have stands in a memory that is lent to each
/// call: account k in word k + 1. The value itself is only what is fixed, and it is copied where a service and its recovery both need it.
#[derive(Clone, Copy, Debug)]
pub struct Bank {
    lines: u64,
    count: u64,
    total: u64,
    ghost within: { lines ≤ 2 ^ 32 },
    ghost fits: { FitsAccounts lines count total },
}

impl Bank {
    /// `count` accounts in `lines` lines of 8 words; a service takes 64 lines at least.
    pub fn of(lines: u64, count: u64, total: u64) -> Bank
        requires within { lines ≤ 2 ^ 32 }
        requires fits { FitsAccounts lines count total }
        ensures lines { result.lines ≡ lines }
        ensures count { result.count ≡ count }
        ensures total { result.total ≡ total }
    {
        Bank {
            lines,
            count,
            total,
        }
    }

    /// Whether there is this account.
    fn has(&self, account: u64) -> bool
        ensures { result ≡ nat_lt account self.now.count }
    {
        account < self.count
    }

    /// Does what an operation asks for.
    fn answer<M: Memory>(&self, mem: &mut M, op: Op) -> Result<Reply, Halt>
        requires { MayChangeBank M.Memory self.now.lines self.now.count self.now.total mem.old }
        ensures { Changes M.Memory mem.old mem.new result (StepsAccounts self.now.count op) }
    {
        match op {
            Op::Transfer { from, to, amount } => self.transfer(mem, from, to, amount),
            Op::Balance { account } => self.balance(mem, account),
            Op::Audit => self.audit(mem),
            Op::Other => Ok(Reply::NoOperation),
        }
    }

    /// Takes an amount from an account that covers it, and gives it to another.
    fn transfer<M: Memory>(
        &self,
        mem: &mut M,
        from: u64,
        to: u64,
        amount: u64,
    ) -> Result<Reply, Halt>
        requires { MayChangeBank M.Memory self.now.lines self.now.count self.now.total mem.old }
        ensures { Changes M.Memory mem.old mem.new result (StepsAccounts self.now.count (Transfer from to amount)) }
    {
        if !self.has(from) || !self.has(to) {
            return Ok(Reply::Missing);
        }
        let has = load_below(mem, from + 1, self.total + 1)?;
        if !covers(has, amount) {
            return Ok(Reply::Overdraft(has));
        }
        mem.store(from + 1, has - amount)?;
        let there = load_below(mem, to + 1, self.total - amount + 1)?;
        mem.store(to + 1, there + amount)?;
        Ok(Reply::Moved)
    }

    /// Tells what an account has.
    fn balance<M: Memory>(&self, mem: &mut M, account: u64) -> Result<Reply, Halt>
        requires { HoldsBank M.Memory self.now.lines self.now.count self.now.total mem.old }
        ensures { Finds M.Memory mem.old mem.new result (λ reply now. StepsAccounts self.now.count (Balance account) reply now now) }
    {
        if !self.has(account) {
            return Ok(Reply::Missing);
        }
        Ok(Reply::Value(mem.load(account + 1)?))
    }

    /// Tells what all have together.
    fn audit<M: Memory>(&self, mem: &mut M) -> Result<Reply, Halt>
        requires { HoldsBank M.Memory self.now.lines self.now.count self.now.total mem.old }
        ensures { Finds M.Memory mem.old mem.new result (λ reply now. StepsAccounts self.now.count Audit reply now now) }
    {
        let mut sum = 0;
        for account in 0..self.count {
            let amount = mem.load(account + 1)?;
            sum += amount;
        }
        Ok(Reply::Value(sum))
    }

    /// Makes the image in which no account has anything.
    fn clear<M: Memory>(&self, mem: &mut M) -> Result<(), Halt>
        requires size { M.size mem.old ≡ 8 * self.now.lines }
        requires writable { IsTrue (M.writable mem.old) }
        ensures { Changes M.Memory mem.old mem.new result (λ _ _ now. now ≡ blank self.now.lines) }
    {
        mem.store(0, VERSION)?;
        for at in 1..8 * self.lines {
            mem.store(at, 0)?;
        }
        Ok(())
    }

    /// Whether words are an image.
    fn is_image(&self, words: &[u64]) -> bool
        ensures { IsTrue result ↔ IsBank self.now.lines self.now.count self.now.total words.now }
    {
        words.len() as u64 == 8 * self.lines && words[0] == VERSION && self.is_right(words)
    }

    /// Whether the accounts have the total.
    fn is_right(&self, words: &[u64]) -> bool
        requires { length words.now ≡ 8 * self.now.lines }
        ensures { IsTrue result ↔ (sum (accounts_in self.now.count words.now) ≡ self.now.total) }
    {
        let (accounts, _) = words[1..].split_at(self.count as usize);
        match sum_of(accounts) {
            Some(sum) => sum == self.total,
            None => false,
        }
    }
}

/// Whether an account that has so much covers an amount.
fn covers(has: u64, amount: u64) -> bool
    ensures { result ≡ nat_le amount has }
{
    amount <= has
}

/// The sum of words, where it is one.
fn sum_of(words: &[u64]) -> Option<u64>
    ensures some { IfSome result (λ total. total ≡ sum words.now) }
    ensures none { IfNone result (2 ^ 64 ≤ sum words.now) }
{
    let mut total: u64 = 0;
    for word in words {
        total = total.checked_add(*word)?;
    }
    Some(total)
}

/// No operation on the accounts changes their sum.
pub fn sums_are_kept()
    ensures { (count : ℕ) (image op : List ℕ) → count < length image → sum (accounts_in count (bank_step count image op).0) ≡ sum (accounts_in count image) }
{}

impl Object for Bank {
    ghost line_count = { λ o. o.lines };

    ghost version_number = { λ _. 1 };

    ghost lawful = { λ o. IsBank o.lines o.count o.total };

    ghost opening = { λ o. bank_opening o.lines o.total };

    ghost step = { λ o. bank_step o.count };

    ghost only_reads = { λ _. bank_reads };

    ghost old_format = { λ _. no_old_format };

    ghost opens = { λ o. laws.opens o.lines o.count o.total o.fits };

    ghost keeps = { λ o image op i w. laws.keeps o.lines o.count o.total o.fits image op i };

    ghost shape = { λ o. laws.shape o.lines o.count o.total };

    ghost replies = { λ o image op i w. laws.replies o.lines o.count o.total o.fits image op i };

    ghost leaves = { λ o image op i w. laws.leaves o.lines o.count o.total image op };

    ghost takes_over = { λ o. takes_over_nothing o.lines 1 (IsBank o.lines o.count o.total) };

    fn lines(&self) -> u64 {
        self.lines
    }

    fn version(&self) -> u64 {
        VERSION
    }

    fn format<M: Memory>(&self, mem: &mut M) -> Result<(), Halt> {
        self.clear(mem)?;
        mem.store(1, self.total)
    }

    fn reads(&self, op: &OpWords) -> bool {
        Op::of(op).only_reads()
    }

    fn run_into<M: Memory>(
        &self,
        mem: &mut M,
        op: &OpWords,
        reply: &mut OpWords,
    ) -> Result<(), Halt> {
        *reply = self.answer(mem, Op::of(op))?.words();
        Ok(())
    }

    fn query_into<M: Memory>(
        &self,
        mem: &mut M,
        op: &OpWords,
        reply: &mut OpWords,
    ) -> Result<(), Halt> {
        *reply = match Op::of(op) {
            Op::Balance { account } => self.balance(mem, account)?.words(),
            Op::Audit => self.audit(mem)?.words(),
            _ => unreachable!(),
        };
        Ok(())
    }

    fn check(&self, _alloc: Global, words: &[u64]) -> Result<bool, AllocError> {
        Ok(self.is_image(words))
    }

    fn old_version(&self) -> Option<u64> {
        None
    }

    fn check_old(&self, _alloc: Global, _words: &[u64]) -> Result<bool, AllocError> {
        Ok(false)
    }

    fn upgrade(&self, _words: &mut [u64]) {}
}

//! Callers of a bank, and their lives.

ghost use Rattle.cx_service.specs.Callers.{IsCallerOf};
ghost use Rattle.service_parts.specs.Callers.{IsHandedBy};

use bank::{Bank, Op, Reply};
use cx_base::OP_WORDS;
use cx_core::Base;
use cx_service::{Caller, Handed, Service};
use service_parts::{AskOutcome, Worked, Worker, ask, recovered, serve};
use std::alloc::{AllocError, Global};
use std::sync::Wait;
use std::thread::Threads;

/// The number of accounts.
const ACCOUNTS: u64 = 64;

/// How many accounts each of the four callers sees to. Its first steps pay out to them, one step to each account.
const EACH: u64 = 16;

/// What all accounts have together.
const ALL: u64 = 64_000;

/// How many answers of each kind there were.
#[derive(Clone, Copy, Debug)]
pub struct CallCounts {
    /// Transfers that were made.
    pub moved: u64,
    /// Transfers that were refused as overdrafts.
    pub refused: u64,
    /// Audits that found what all accounts have together.
    pub right: u64,
}

/// What a caller that looked at the bank found.
#[derive(Clone, Copy, Debug)]
pub struct Found {
    /// What account 0 has.
    pub first: u64,
    /// What all accounts have together.
    pub all: u64,
}

/// What the callers of a life were answered, and what was found after the loss of power that followed.
#[derive(Clone, Copy, Debug)]
pub struct BankLife {
    pub counts: CallCounts,
    pub found: Found,
}

const NOT_FOUND: Found = Found { first: 0, all: 0 };

const NOTHING: CallCounts = CallCounts {
    moved: 0,
    refused: 0,
    right: 0,
};

impl CallCounts {
    /// These counts with one answer more. Other replies are not counted.
    fn with(self, reply: Reply) -> CallCounts {
        match reply {
            Reply::Moved => CallCounts {
                moved: self.moved.wrapping_add(1),
                ..self
            },
            Reply::Overdraft(_) => CallCounts {
                refused: self.refused.wrapping_add(1),
                ..self
            },
            Reply::Value(ALL) => CallCounts {
                right: self.right.wrapping_add(1),
                ..self
            },
            _ => self,
        }
    }

    /// The counts of all callers together, of which `each` has one for each caller.
    fn of_all(each: &[CallCounts]) -> CallCounts {
        let mut all = NOTHING;
        for one in each {
            all.moved = all.moved.wrapping_add(one.moved);
            all.refused = all.refused.wrapping_add(one.refused);
            all.right = all.right.wrapping_add(one.right);
        }
        all
    }
}

impl BankLife {
    /// What all callers were answered, and what the only one that looked found.
    fn of(counts: &[CallCounts], found: &[Found]) -> BankLife {
        BankLife {
            counts: CallCounts::of_all(counts),
            found: found.first().copied().unwrap_or(NOT_FOUND),
        }
    }
}

/// Four callers work, the power is lost, and one caller looks at what is recovered. Then four callers work from there on, the power is lost again, and one
/// caller looks again. Where each transfer was made once, the first look finds 2,575 in account 0, and the second 4,150. `Err` means out of memory.
pub fn two_losses<R: Wait + Threads + Sync>(
    rt: &R,
    alloc: Global,
) -> Result<(BankLife, BankLife), AllocError> {
    let bank = Bank::of(64, ACCOUNTS, ALL);
    let base = Base::fresh(alloc, &bank)?;
    let (counts, remains) = serve(rt, alloc, bank, 4, &base, &Mover { from: 0 })?;
    let base = recovered(alloc, &bank, &remains, 0)?;
    let (found, _remains) = serve(rt, alloc, bank, 1, &base, &Looker)?;
    let first = BankLife::of(&counts, &found);
    let (counts, remains) = serve(rt, alloc, bank, 4, &base, &Mover { from: EACH })?;
    let base = recovered(alloc, &bank, &remains, 0)?;
    let (found, _remains) = serve(rt, alloc, bank, 1, &base, &Looker)?;
    Ok((first, BankLife::of(&counts, &found)))
}

/// Operation number `step` of caller `number`. The first 16 move 1,000 from account 0 to each of the caller's accounts. Then five times 18 follow: 16 move
/// 5 from each of its accounts to account 0, one tries an overdraft, and one adds up all accounts.
fn operation(number: u32, step: u64) -> Op {
    let own = EACH * number as u64;
    if step < EACH {
        return Op::Transfer {
            from: 0,
            to: own + step,
            amount: 1_000,
        };
    }
    match (step - EACH) % 18 {
        16 => Op::Transfer {
            from: own + 15,
            to: 0,
            amount: 1_001,
        },
        17 => Op::Audit,
        account => Op::Transfer {
            from: own + account,
            to: 0,
            amount: 5,
        },
    }
}

/// Callers that do their operations from number `from` on. Each returns how many answers of each kind there were.
struct Mover {
    from: u64,
}

impl Worker<Bank> for Mover {
    type Output = CallCounts;

    ghost tells = { λ _ _ _ _ _. Unit {0} };

    fn work<R: Wait>(&self, rt: &R, service: &Service<Bank>, caller: Caller) -> Worked<CallCounts> {
        let number = caller.number();
        let mut caller = caller;
        let mut output = NOTHING;
        let mut reply = [0; OP_WORDS];
        for step in self.from..EACH + 90 {
            match ask(
                rt,
                service,
                caller,
                &operation(number, step).words(),
                &mut reply,
            ) {
                AskOutcome::Told(back, _) => {
                    output = output.with(Reply::of(&reply));
                    caller = back;
                }
                AskOutcome::Worn(back) => caller = back,
                AskOutcome::Stopped(stopped) => {
                    let caller = Handed::Stopped(stopped);
                    return Worked { caller, output };
                }
            }
        }
        let caller = Handed::Idle(caller);
        Worked { caller, output }
    }
}

/// A caller that reads what account 0 has, and what all accounts have together, and returns both.
struct Looker;

impl Worker<Bank> for Looker {
    type Output = Found;

    ghost tells = { λ _ _ _ _ _. Unit {0} };

    fn work<R: Wait>(&self, rt: &R, service: &Service<Bank>, caller: Caller) -> Worked<Found> {
        let Worked {
            caller,
            output: first,
        } = value(rt, service, caller, Op::Balance { account: 0 });
        let Handed::Idle(caller) = caller else {
            let output = Found { first, all: 0 };
            return Worked { caller, output };
        };
        let Worked {
            caller,
            output: all,
        } = value(rt, service, caller, Op::Audit);
        let output = Found { first, all };
        Worked { caller, output }
    }
}

/// A caller asks for one operation. Returns the caller, and the value in the reply, or 0 where the reply has none or the operation is not answered.
fn value<R: Wait>(rt: &R, service: &Service<Bank>, caller: Caller, op: Op) -> Worked<u64>
    requires { IsCallerOf service.now caller }
    ensures { IsHandedBy service.now caller result.caller }
{
    let mut reply = [0; OP_WORDS];
    match ask(rt, service, caller, &op.words(), &mut reply) {
        AskOutcome::Told(back, _) => {
            let caller = Handed::Idle(back);
            let output = match Reply::of(&reply) {
                Reply::Value(has) => has,
                _ => 0,
            };
            Worked { caller, output }
        }
        AskOutcome::Worn(back) => {
            let caller = Handed::Idle(back);
            Worked { caller, output: 0 }
        }
        AskOutcome::Stopped(stopped) => {
            let caller = Handed::Stopped(stopped);
            Worked { caller, output: 0 }
        }
    }
}

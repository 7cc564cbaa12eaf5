//! Callers on threads whose steps wait for one another: each of eight callers is in its command while the seven others are in theirs, and
//! one stays in the middle of its fifth command until the others have ended.

ghost use Rattle.cx_base.specs.OldFormat.{no_old_format, takes_over_nothing};
ghost use Rattle.cx_base.specs.Tally.{IsTally, tally_opening, tally_reads, tally_step};
ghost use Rattle.cx_base.specs.TallyLaws.{tally_opens, tally_keeps, tally_shape, tally_replies, tally_leaves};

use crate::holds::holds;
use crate::tasks::{HELD, LATE, Work};
use crate::threads::{is_as_alone, run_on_threads};
use cx_base::tally::Tally;
use cx_base::{Halt, Memory, Object, OpWords};
use std::alloc::{AllocError, Global};
use std::sync::atomic::{AtomicBool, AtomicU64, Ordering};
use std::test::Fail;
use std::thread::{Threads, yield_now};

// The turns that a step waits at most.
const TURNS: u64 = 1_000_000_000;

// Where steps meet: of those that are to be held the first `held` wait until all of them have come and `reads` reads were made.
#[derive(Drop)]
struct Meeting {
    held: u64,
    reads: u64,
    come: AtomicU64,
    read: AtomicU64,
    is_worn: AtomicBool,
}

impl Meeting {
    fn of(held: u64, reads: u64) -> Meeting {
        Meeting {
            held,
            reads,
            come: AtomicU64::new(0),
            read: AtomicU64::new(0),
            is_worn: AtomicBool::new(false),
        }
    }

    // Waits until this many steps have come, and this many reads were made.
    fn wait(&self, steps: u64, reads: u64) {
        for _turn in 0..TURNS {
            let come = self.come.load(Ordering::SeqCst) >= steps;
            if come && self.read.load(Ordering::SeqCst) >= reads {
                return;
            }
            yield_now();
        }
        self.is_worn.store(true, Ordering::SeqCst);
    }

    // A step that is to be held comes.
    fn come(&self) {
        if self.come.fetch_add(1, Ordering::SeqCst) < self.held {
            self.wait(self.held, self.reads);
        }
    }

    // Whether as many steps came as are to be held, and none of them waited in vain.
    fn was_held(&self) -> bool {
        self.come.load(Ordering::SeqCst) >= self.held && !self.is_worn.load(Ordering::SeqCst)
    }
}

// The running sum, some of whose steps meet.
#[derive(Drop)]
struct MeetingTally<'a> {
    meeting: &'a Meeting,
}

impl Object for MeetingTally<'_> {
    ghost line_count = { λ _. 64 };

    ghost version_number = { λ _. 7 };

    ghost lawful = { λ _. IsTally };

    ghost opening = { λ _. tally_opening };

    ghost step = { λ _. tally_step };

    ghost only_reads = { λ _. tally_reads };

    ghost old_format = { λ _. no_old_format };

    ghost opens = { tally_opens };

    ghost keeps = { tally_keeps };

    ghost shape = { tally_shape };

    ghost replies = { tally_replies };

    ghost leaves = { tally_leaves };

    ghost takes_over = { λ _. takes_over_nothing 64 7 IsTally };

    fn lines(&self) -> u64 {
        Tally.lines()
    }

    fn version(&self) -> u64 {
        Tally.version()
    }

    fn format<M: Memory>(&self, mem: &mut M) -> Result<(), Halt> {
        Tally.format(mem)
    }

    // a caller asks whether an operation only reads before it submits it
    fn reads(&self, op: &OpWords) -> bool {
        if op[0] == LATE {
            self.meeting.wait(self.meeting.held, 0);
        }
        Tally.reads(op)
    }

    fn run_into<M: Memory>(
        &self,
        mem: &mut M,
        op: &OpWords,
        reply: &mut OpWords,
    ) -> Result<(), Halt> {
        if op[0] == HELD {
            self.meeting.come();
        }
        Tally.run_into(mem, op, reply)
    }

    fn query_into<M: Memory>(
        &self,
        mem: &mut M,
        op: &OpWords,
        reply: &mut OpWords,
    ) -> Result<(), Halt> {
        self.meeting.read.fetch_add(1, Ordering::SeqCst);
        Tally.query_into(mem, op, reply)
    }

    fn check(&self, alloc: Global, words: &[u64]) -> Result<bool, AllocError> {
        Tally.check(alloc, words)
    }

    fn old_version(&self) -> Option<u64> {
        None
    }

    fn check_old(&self, _alloc: Global, _words: &[u64]) -> Result<bool, AllocError> {
        Ok(false)
    }

    fn upgrade(&self, _words: &mut [u64]) {}
}

// How many steps are held until how many reads were made, what each of eight callers asks for, and how many updates and reads that is.
type Row = (u64, u64, Work, u64, u64);

const ROWS: [Row; 2] = [
    // the first step of each caller
    (8, 0, Work::Held { count: 3 }, 24, 0),
    // the fifth update of caller 0; each other begins then, and reads when all its updates are answered
    (1, 7, Work::HeldInFifth, 64, 8),
];

// Whether the steps were held, and the callers' replies are the object's alone.
fn is_right<R: Threads + Sync>(rt: &R, alloc: Global, row: &Row) -> Result<bool, AllocError> {
    let (held, until, work, updates, reads) = *row;
    let meeting = Meeting::of(held, until);
    let object = MeetingTally { meeting: &meeting };
    let ran = run_on_threads(rt, alloc, object, 8, work)?;
    let is_alone = is_as_alone(alloc, &ran, &Tally, &(8, work, updates, reads))?;
    Ok(is_alone && meeting.was_held())
}

// The first row whose steps were not held, or whose callers were told something else than the object alone replies.
fn first_wrong<R: Threads + Sync>(
    rt: &R,
    alloc: Global,
    rows: &[Row],
) -> Result<Option<usize>, AllocError> {
    for (i, row) in rows.iter().enumerate() {
        if !is_right(rt, alloc, row)? {
            return Ok(Some(i));
        }
    }
    Ok(None)
}

#[test]
fn callers_are_in_their_commands_at_once(rt: HostRuntime) -> Result<(), Fail> {
    holds(&rt, first_wrong(&rt, rt.alloc(), &ROWS)?.is_none());
    Ok(())
}

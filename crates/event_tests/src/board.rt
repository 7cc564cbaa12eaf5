//! The state on which the tests make steps: shared words and local states of callers, over the first base of Tally, an object with a running sum.

ghost use Rattle.std.specs.Prelude.{◌≤◌};
ghost use Rattle.cx_base.specs.Tally.{IsTally};
ghost use Rattle.cx_core.specs.Base.{LawfulBase};

use core_events::{CoreState, apply};
use cx_base::tally::Tally;
use cx_core::{Base, Event, Kind};
use std::alloc::{AllocError, Global};
use std::process::Abort;

/// Asserts that a case is right.
pub fn holds(rt: &impl Abort, is_right: bool) {
    assert!(rt; is_right);
}

/// The state that the steps of a test change, over the first base of Tally. A region, which is one replica, has 1,680 words.
#[derive(Drop)]
pub struct Board {
    pub state: CoreState,
    ghost lawful: { LawfulBase 64 IsTally state.base },
}

/// A step that a test tries: the caller, the kind of step, and whether the step is allowed.
pub type Row = (u32, Kind, bool);

impl Board {
    /// The opening state of `callers` callers. `Err` means out of memory.
    pub fn open(alloc: Global, callers: u32) -> Result<Board, AllocError>
        requires some { 1 ≤ callers }
        requires few { callers ≤ 8 }
    {
        let base = Base::fresh(alloc, &Tally)?;
        Ok(Board {
            state: CoreState::opening(alloc, &Tally, callers, &base)?,
        })
    }

    /// Makes a step if it is allowed, and returns whether it was. `Err` means out of memory.
    pub fn step(&mut self, alloc: Global, caller: u32, kind: Kind) -> Result<bool, AllocError> {
        apply(alloc, &Tally, &mut self.state, &Event { caller, kind })
    }

    /// Makes the steps of `rows` in order, and returns the index of the first that is allowed though its row says that it is not, or the reverse;
    /// `None` if there is no such row. `Err` means out of memory.
    pub fn first_wrong(
        &mut self,
        alloc: Global,
        rows: &[Row],
    ) -> Result<Option<usize>, AllocError> {
        for (i, row) in rows.iter().enumerate() {
            if self.step(alloc, row.0, row.1)? != row.2 {
                return Ok(Some(i));
            }
        }
        Ok(None)
    }

    /// Caller `caller` takes replica `r` exclusively, stores `words` there, which are pairs of address and word, makes each durable, and downgrades
    /// its right. It returns whether each of these steps was allowed; `Err` means out of memory.
    pub fn prepare(
        &mut self,
        alloc: Global,
        caller: u32,
        r: u64,
        words: &[(u64, u64)],
    ) -> Result<bool, AllocError> {
        if !self.step(alloc, caller, Kind::TryExclusive { r })? {
            return Ok(false);
        }
        for (i, v) in words {
            if !self.step(alloc, caller, Kind::StoreWord { r, i: *i, v: *v })?
                || !self.step(alloc, caller, Kind::Persist { r, i: *i })?
            {
                return Ok(false);
            }
        }
        self.step(alloc, caller, Kind::Downgrade { r })
    }
}

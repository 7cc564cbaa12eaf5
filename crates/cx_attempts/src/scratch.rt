//! Room that a caller's turns work in.

ghost use Rattle.std.specs.Prelude.{◌≡◌, IfOk};

use cx_base::{ENTRY_WORDS, OP_WORDS};
use cx_core::Entry;
use redo_set::WriteSet;
use std::alloc::{AllocError, Global};

/// What a caller's turns need beside its seat, made before any of them: room for an entry and for a write set, and how many write sets of
/// others were taken, which stays at 2^64 - 1 once there.
#[derive(Drop)]
pub struct Scratch {
    pub words: [u64; ENTRY_WORDS],
    pub next: Entry,
    pub set: WriteSet,
    pub taken: u64,
}

impl Scratch {
    /// Room with nothing in it yet. `Err` means out of memory.
    pub fn new(alloc: Global) -> Result<Scratch, AllocError>
        ensures { IfOk result (λ scratch. scratch.taken ≡ 0) }
    {
        let set = WriteSet::new(alloc)?;
        Ok(Scratch {
            words: [0; ENTRY_WORDS],
            next: Entry {
                caller: 0,
                number: 0,
                op: [0; OP_WORDS],
            },
            set,
            taken: 0,
        })
    }
}

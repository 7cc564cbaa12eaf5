//! The running table of an object.

ghost use Rattle.std.specs.Prelude.{◌≡◌, ◌≤◌};
ghost use Rattle.table_invariant.specs.Running.{IsTableWithinLimits};

use atomic_table::Table;
use core_guards::callers::Callers;
use cx_base::Object;
use cx_core::Base;
use std::alloc::Global;
use std::marker::Model;
use table_invariant::{CoreRule, Key, View};

/// The words of the core as atomic words that threads share, and the object. Contracts see which table it is, its number
/// of callers, the lines of the object, the base that it was made with, and the object.
#[derive(Drop)]
pub struct Shared<O: Object> {
    pub(crate) table: Table<u8, View, Key<O>, CoreRule<O>, Global>,
    pub(crate) callers: Callers,
    pub(crate) lines: u64,
    pub(crate) base: Base,
    pub(crate) object: O,
}

impl<O: Object> Model for Shared<O> {
    ghost use Rattle.std.specs.Prelude.{◌≡◌};
    ghost use Rattle.table_invariant.specs.Running.{Running, IsTableWithinLimits};

    ghost Value = { Running O };

    ghost view = { λ s. record { table = s.table.shared.table_id; callers = s.callers.number; lines = s.lines; base = s.base; object = s.object } };

    ghost invariant = { λ s. IsTableWithinLimits O.line_count O.lawful (record { table = s.table.shared.table_id; callers = s.callers.number; lines = s.lines; base = s.base; object = s.object }) × (s.table.shared.key.callers ≡ s.callers.number) × (s.table.shared.key.base.value ≡ s.base) × (s.table.shared.key.object.value ≡ s.object) };
}

impl<O: Object> Shared<O> {
    /// A running table is within its limits. This does nothing: a call that reads no field of the table has the fact from here, since a proof learns
    /// what a type promises of a value only where a field is read, or by a contract.
    #[inline(always)]
    pub(crate) fn table_is_running(&self)
        ensures { IsTableWithinLimits O.line_count O.lawful self.now }
    {
        let _table = &self.table;
    }

    /// The number of callers.
    pub fn callers(&self) -> u32
        ensures value { result ≡ self.now.callers }
        ensures some { 1 ≤ result }
        ensures few { result ≤ 8 }
    {
        self.callers.number
    }

    /// The lines of the object. A running table is within its limits.
    pub fn lines(&self) -> u64
        ensures value { result ≡ self.now.lines }
        ensures running { IsTableWithinLimits O.line_count O.lawful self.now }
    {
        self.lines
    }

    /// The object.
    pub fn object(&self) -> &O
        ensures { result.now ≡ self.now.object }
    {
        &self.object
    }
}

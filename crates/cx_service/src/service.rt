//! A service of an object.

ghost use Rattle.std.specs.Prelude.{◌≡◌};
ghost use Rattle.table_invariant.specs.Running.{IsTableWithinLimits};

use cx_base::Object;
use cx_table::Shared;
use std::marker::Model;

/// An object that 1 to 8 callers share. Contracts see the service as its table: which table that is, its number of callers, the lines of the object,
/// the base from which the table opened, and the object.
#[derive(Drop)]
pub struct Service<O: Object> {
    pub(crate) shared: Shared<O>,
    /// The place of the base from which the service opened.
    pub(crate) place: u64,
}

impl<O: Object> Model for Service<O> {
    ghost use Rattle.table_invariant.specs.Running.{Running};

    ghost Value = { Running O };

    ghost use Rattle.std.specs.Prelude.{◌≡◌};

    ghost view = { λ s. s.shared };

    ghost invariant = { λ s. s.place ≡ s.shared.base.place };
}

impl<O: Object> Service<O> {
    /// The lines of the object. A running service is within its limits.
    pub fn lines(&self) -> u64
        ensures value { result ≡ self.now.lines }
        ensures running { IsTableWithinLimits O.line_count O.lawful self.now }
    {
        self.shared.lines()
    }

    /// The place of the base from which the service opened.
    pub fn place(&self) -> u64
        ensures { result ≡ self.now.base.place }
    {
        self.place
    }

    /// The object.
    pub fn object(&self) -> &O
        ensures { result.now ≡ self.now.object }
    {
        self.shared.object()
    }
}

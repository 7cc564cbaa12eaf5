//! How a run ended.

ghost use Rattle.std.specs.Prelude.{◌≡◌, []};
ghost use Rattle.cx_program.specs.Status.{status_code};
ghost use Rattle.cx_program.specs.declared.status.Status.TheVariants.{Fine};

use cx_base::Items;
use cx_table::Trail;
use std::alloc::Global;

/// The result of a run.
#[derive(Clone, Copy, Debug, PartialEq, Eq)]
pub enum Status {
    /// The output was written.
    Fine,
    /// The words are none of the commands.
    Usage,
    /// The input is no script, or no image text where one is read.
    Refused,
    /// The source failed.
    ReadFault,
    /// The sink failed.
    WriteFault,
    /// Memory was wanting.
    Memory,
    /// The image was refused.
    BadImage,
    /// The input has too many bytes.
    TooLong,
}

impl Status {
    /// The exit code of the program.
    pub fn code(self) -> u8
        ensures { result ≡ status_code self }
    {
        match self {
            Status::Fine => 0,
            Status::Usage => 2,
            Status::Refused => 3,
            Status::ReadFault => 4,
            Status::WriteFault => 5,
            Status::Memory => 6,
            Status::BadImage => 7,
            Status::TooLong => 8,
        }
    }
}

/// What a run leaves behind: how it ended, and the trail of each life that was run, in order. Where the status is not `Fine` there is
/// none.
#[derive(Drop)]
pub struct FinishedRun {
    pub status: Status,
    pub trails: Items<Trail>,
    pub ghost none: { (status ≡ Fine → ⊥) → trails ≡ [] },
}

impl FinishedRun {
    /// A run that ended so, with the trails of its lives. Every run ends by this.
    pub(crate) fn new(status: Status, trails: Items<Trail>) -> FinishedRun
        requires { (status ≡ Fine → ⊥) → trails ≡ [] }
        ensures { (result.status ≡ status) × (result.trails ≡ trails) }
    {
        FinishedRun { status, trails }
    }

    /// A run that ended without lives.
    pub(crate) fn without_lives(alloc: Global, status: Status) -> FinishedRun
        ensures { (result.status ≡ status) × (result.trails ≡ []) }
    {
        FinishedRun::new(status, Items::new(alloc))
    }
}

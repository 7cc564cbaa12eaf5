//! The outcome of a caller's last entry.

use cx_base::OpWords;

/// The outcome of a caller's last entry, as a base has it.
#[derive(Clone, Debug, PartialEq, Eq, Drop)]
pub enum Outcome {
    /// No entry of the caller's was applied.
    Never,
    /// The caller's last entry that was applied: its number among the caller's entries of all lives so far, and the reply to it.
    Applied { number: u64, reply: OpWords },
}

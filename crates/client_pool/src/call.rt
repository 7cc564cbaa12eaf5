//! The calls of a client.

use cx_core::SeenRead;
use cx_service::{Answer, Seen};
use seat_pool::AnsweredCall;

/// What a client was answered.
#[derive(Clone, Copy, Debug, PartialEq, Eq, Drop)]
pub enum Answered {
    /// The operation is an entry of this caller in the queue, with this answer.
    Updated { caller: u32, answer: Answer },
    /// The operation only reads, and was answered beside the queue with what was seen.
    Read { seen: Seen },
}

/// An answered call of a client, for proofs: the entry with its answer, or the read, that the client was answered. No value of this type is made.
pub enum Call {
    Entry(AnsweredCall),
    Look(SeenRead),
}

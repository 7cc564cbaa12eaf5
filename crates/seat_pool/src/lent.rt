//! What is lent to a client.

use crate::hand::LenderPass;
use crossbeam_queue::Pass;
use cx_service::{Caller, Handed};

/// What is lent to a client: its pass of the queue, and the caller that it keeps between its calls, in whatever state that is.
#[derive(Drop)]
pub struct Lent {
    pub pass: Pass<Caller, LenderPass>,
    pub kept: Option<Handed>,
}

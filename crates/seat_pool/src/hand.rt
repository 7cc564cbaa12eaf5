//! What a pass of the queue knows, for proofs. No value of these types is made.

use cx_core::{Answer, Base, Linked, SeenRead};
use cx_service::Caller;
use std::collections::LinkedList;

/// The service that lends its callers: its base, its number of callers, the step limit of each, and a caller whose table is the service's.
pub struct ServiceView {
    pub base: Base,
    pub callers: u32,
    pub limits: LinkedList<u64>,
    pub first: Caller,
}

/// A call that is answered: of which caller it is, its entry, and its answer.
pub struct AnsweredCall {
    pub caller: u32,
    pub entry: Linked,
    pub answer: Answer,
}

/// A caller that was given back: as it was when it was taken out of the queue, and as it was when it was given back.
pub struct Returned {
    pub taken: Caller,
    pub back: Caller,
}

/// What a pass of the queue knows, for proofs. `home` is the service that lends the callers, once the pass knows it. The right to know the whole queue is
/// cut into 1,024 `parts`: the first pass has all of them, and each further pass gets one of another's; a pass without any has done nothing. Then come the
/// numbers of the callers that the pass placed in the queue; those that it holds, as they were when it took them out; the calls of which it learned that
/// they were answered, each with its answer (`told_calls`); the reads of which it learned (`shown`); and the callers that it gave back.
pub struct LenderPass {
    pub home: Option<ServiceView>,
    pub parts: u32,
    pub placed: LinkedList<u32>,
    pub held: LinkedList<Caller>,
    pub told_calls: LinkedList<AnsweredCall>,
    pub shown: LinkedList<SeenRead>,
    pub returned: LinkedList<Returned>,
}

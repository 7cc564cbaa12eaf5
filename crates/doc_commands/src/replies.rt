//! The clients' last commands, read from their slots.

ghost use Rattle.std.specs.Prelude.{◌<◌, ◌≤◌, IfOk, MatchResult, length};
ghost use Rattle.doc_commands.specs.Outcomes.{AreOutcomes, HoldsStoreReplies, IsOutcomesFault, IsReplyFault, IsReplyOf, IsSlotFault, TellsSlot};

use cx_base::{Items, OpWords};
use cx_core::{Base, OBJECT_START};
use doc_model::{OpFault, Reply, reply_of};
use doc_store::DocStore;
use doc_text::Applied;
use recovery::{ImageFault, Outcome, outcome};
use std::alloc::Global;
use typed_object::TypedObject;

/// The last command of each client with a number, in rising order of the clients. A slot with a number that holds no reply is refused
/// as `Body`.
pub(crate) fn outcomes_of(alloc: Global, base: &Base) -> Result<Items<Applied>, ImageFault>
    requires { OBJECT_START ≤ length base.now.words }
    ensures outcomes { MatchResult result (AreOutcomes base.now.words) (IsOutcomesFault base.now.words) }
    ensures replies { IfOk result (λ _. HoldsStoreReplies base.now.words) }
{
    let mut outcomes = Items::new(alloc);
    for client in 0..8 {
        if let Some(applied) = last_command(alloc, base, client)? {
            if outcomes.push(applied).is_err() {
                return Err(ImageFault::Memory);
            }
        }
    }
    Ok(outcomes)
}

/// The last command of a client; `None` where no command of the client was ever applied.
fn last_command(alloc: Global, base: &Base, client: u32) -> Result<Option<Applied>, ImageFault>
    requires client { client < 8 }
    requires words { OBJECT_START ≤ length base.now.words }
    ensures { MatchResult result (TellsSlot client base.now.words) (IsSlotFault client base.now.words) }
{
    match outcome(base, client) {
        Outcome::Never => Ok(None),
        Outcome::Applied { number, reply } => {
            let reply = read_reply(alloc, &reply)?;
            Ok(Some(Applied {
                client,
                number,
                reply,
            }))
        }
    }
}

/// The reply that these words are. `Body` comes exactly where they are the words of no reply of documents.
fn read_reply(alloc: Global, words: &OpWords) -> Result<Reply, ImageFault>
    ensures { MatchResult result (IsReplyOf words.now) (IsReplyFault words.now) }
{
    match reply_of(alloc, words) {
        Ok(reply) => {
            DocStore::of(1).reply_is_a_value(&reply);
            Ok(reply)
        }
        Err(OpFault::BadOp) => Err(ImageFault::Body),
        Err(OpFault::Memory) => Err(ImageFault::Memory),
    }
}

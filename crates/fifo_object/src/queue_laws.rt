//! Laws of the words and of the meaning.

ghost use Rattle.std.specs.Prelude.{◌≡◌, ◌++◌, ℕ, List};
ghost use Rattle.fifo_object.specs.Queue.{IsOp, IsReply, Queue, all_popped, all_pushed, queue_after_all};
ghost use Rattle.fifo_object.specs.Words.{op_words, reply_words};
ghost use Rattle.fifo_object.specs.declared.operations.FifoOp.{FifoOp};
ghost use Rattle.fifo_object.specs.declared.operations.FifoReply.{FifoReply};

/// Two operations, or two replies, within the limits that have the same words are one.
pub fn fifo_words_are_one_to_one()
    ensures ops { (one other : FifoOp) → IsOp one → IsOp other → op_words one ≡ op_words other → one ≡ other }
    ensures replies { (one other : FifoReply) → IsReply one → IsReply other → reply_words one ≡ reply_words other → one ≡ other }
{}

/// What was in the queue and what is pushed into it comes out in that order: first what is popped, and the rest is left.
pub fn queues_keep_their_order()
    ensures { (lines : ℕ) (queue : Queue) (ops : List FifoOp) →
        queue ++ all_pushed lines queue ops ≡ all_popped lines queue ops ++ queue_after_all lines queue ops }
{}

//! What stands behind a pointer that C holds, and what each call does with it.

ghost use Rattle.std.specs.Prelude.{◌≡◌};
ghost use Rattle.githoppu_c.specs.Again.{ComesBack, ContentComesBack, ContentTakenBack, TakenComesBack};
ghost use Rattle.githoppu_c.specs.Checkpoints.{CheckpointsSession, ContentCheckpoints};
ghost use Rattle.githoppu_c.specs.Closings.{ClosesAs, ContentCloses, ContentImages, Images, content_left};
ghost use Rattle.githoppu_c.specs.Codes.{closing_code};
ghost use Rattle.githoppu_c.specs.Contents.{CallHasResult, ContentCalls, ContentFinishes, FinishesSession, IsCallable, IsContentCallable, LeavesCallable, LeavesContentCallable};
ghost use Rattle.githoppu_c.specs.Places.{ContentMayHavePlace, ContentSees, MayHavePlace, ContentCatchesUp};

use crate::checkpoint::take_to;
use crate::codes::{AGAIN, DONE, LOST, NO_MEMORY, OTHERS, OUT_OF_TURN};
use crate::images::write_to;
use crate::objects::OfC;
use c_images::{
    taken_images_are_taken_up, written_images_are_taken_up, written_images_keep_replies,
};
use c_sessions::{
    Called, Closing, Session, SessionCatchUp, Tries, Unclosed, close_kept, close_rest,
};
use cx_base::{Object, OpWords};
use cx_service::Kept;
use cx_table::Remains;
use doc_store::DocStore;
use fifo_object::Fifo;
use program_object::ProgramObject;
use recovery::closed_tables_are_whole;
use std::alloc::Global;
use std::mem;

/// What a handle of C's holds, of an object `O`. A call that the state does not take is refused as out of turn, and changes nothing.
#[derive(Drop)]
pub enum HandleState<O: Object> {
    /// An open session.
    Session(Session<O>),
    /// A service with all its callers, which was not closed since memory ran out. It is to be closed again.
    Kept(Kept<O>),
    /// What the last session found of a service that it could not close yet. It is to be closed again.
    Unclosed(Unclosed<O>),
    /// What a closed service left: images are written of it.
    Closed(Remains),
    /// Nothing any more: the session was closed while other sessions of its service were not.
    Gone,
}

/// What a handle of C's holds, by the kind of object: a document store, a queue, or the object of a program.
#[derive(Drop)]
pub enum AnyHandleState {
    Documents(HandleState<DocStore>),
    Queue(HandleState<Fifo>),
    Program(HandleState<ProgramObject>),
}

impl<O: OfC> HandleState<O> {
    /// Does the operation `op`, in at most `tries` tries. After `Done` its reply stands in `reply`. Where the handle holds no session the answer is
    /// `OutOfTurn`, and the handle stays as it is.
    pub fn call(&mut self, op: &OpWords, reply: &mut OpWords, tries: Tries) -> Called
        requires callable { IsContentCallable O.Object O.replies_kept self.old }
        ensures { LeavesContentCallable O.Object O.replies_kept self.new (ContentCalls O.Object op.now tries.count result reply.new self.old self.new) }
    {
        match self {
            HandleState::Session(session) => session.call(op, reply, tries),
            _ => Called::OutOfTurn,
        }
    }

    /// Drives the linked entry of the session on, in at most `tries` attempts. After `Done` the entry is answered, and its reply stands in `reply`.
    /// Where the handle holds no session the answer is `OutOfTurn`, and the handle stays as it is.
    pub fn finish(&mut self, reply: &mut OpWords, tries: Tries) -> Called
        requires callable { IsContentCallable O.Object O.replies_kept self.old }
        ensures { LeavesContentCallable O.Object O.replies_kept self.new (ContentFinishes tries.count result reply.new self.old self.new) }
    {
        match self {
            HandleState::Session(session) => session.finish(reply, tries),
            _ => Called::OutOfTurn,
        }
    }

    /// The place of the session: who catches up with it sees all that this session was answered. `None` where the handle holds no session.
    pub fn place(&self) -> Option<u64>
        ensures { ContentMayHavePlace self.now result }
    {
        match self {
            HandleState::Session(session) => Some(session.place()),
            _ => None,
        }
    }

    /// Has the session catch up with `place`, the place of another session of its service. From `Caught` on its answers stand at or above `place`.
    /// Where the handle holds no session the answer is `OutOfTurn`, and the handle stays as it is.
    pub fn catch_up(&mut self, place: u64) -> SessionCatchUp
        requires callable { IsContentCallable O.Object O.replies_kept self.old }
        ensures { LeavesContentCallable O.Object O.replies_kept self.new (ContentSees place result self.old self.new) }
    {
        match self {
            HandleState::Session(session) => session.catch_up(place),
            _ => SessionCatchUp::OutOfTurn,
        }
    }

    /// Has the session write an image of its object into `words`, while other sessions go on. Such an image is a head of 8 words and one region,
    /// which is a whole replica. `needed` becomes the number of its words; where `words` has another length the answer is BAD_SIZE, and nothing else
    /// is changed. After DONE `base_of` of `c_images` reads the same place and replica from `words`, unless memory runs out. Where the handle holds
    /// no session the answer is OUT_OF_TURN, no word is written, and `needed` is 0.
    pub fn checkpoint(&mut self, words: &mut [u64], needed: &mut u64) -> i32
        requires callable { IsContentCallable O.Object O.replies_kept self.old }
        ensures checkpoints { LeavesContentCallable O.Object O.replies_kept self.new (ContentCheckpoints O.Object O.KIND words.old words.new needed.new result self.old self.new) }
        ensures back { ContentTakenBack O.Object O.KIND words.new result self.old }
    {
        match self {
            HandleState::Session(session) => {
                // a law: `base_of` refuses an image that a session took only where memory runs out, and else reads the replica that was taken
                taken_images_are_taken_up::<O>();
                take_to(session, O::KIND, words, needed)
            }
            _ => {
                *needed = 0;
                OUT_OF_TURN
            }
        }
    }

    /// Closes the session, or what an earlier closing left to be closed. The answer is the status of the call; the handle then holds what is left.
    pub fn close(&mut self, alloc: Global) -> i32
        requires callable { IsContentCallable O.Object O.replies_kept self.old }
        ensures { LeavesContentCallable O.Object O.replies_kept self.new (ContentCloses O.Object result self.old self.new) }
    {
        let (after, code) = mem::replace(self, HandleState::Gone).closed(alloc);
        *self = after;
        code
    }

    /// Closes what a handle holds, where it can be closed. The result is what the handle holds then, and the status of the call.
    fn closed(self, alloc: Global) -> (HandleState<O>, i32)
        requires callable { IsContentCallable O.Object O.replies_kept self }
        ensures callable { IsContentCallable O.Object O.replies_kept result.0 }
        ensures closes { ContentCloses O.Object result.1 self result.0 }
    {
        match self {
            HandleState::Session(session) => left(session.close(alloc)),
            // memory ran out when the service was closed: it is tried again
            HandleState::Kept(kept) => match close_kept(alloc, kept) {
                Ok(remains) => (HandleState::Closed(remains), DONE),
                Err(kept) => (HandleState::Kept(kept), NO_MEMORY),
            },
            HandleState::Unclosed(rest) => left(close_rest(alloc, rest)),
            // what is closed, or gone, stays as it is
            other => (other, OUT_OF_TURN),
        }
    }

    /// Writes an image that a crash could leave of the closed service into `words`: `choice` picks the root, and the values of the dirty words.
    /// `needed` becomes the number of words of the image; where `words` has another length the answer is BAD_SIZE, and no word is written. After DONE
    /// `base_of` of `c_images` refuses `words` only where memory runs out. Where the handle holds no closed service the answer is OUT_OF_TURN, no
    /// word is written, and `needed` is 0.
    pub fn image(&self, choice: u64, words: &mut [u64], needed: &mut u64) -> i32
        requires callable { IsContentCallable O.Object O.replies_kept self.now }
        ensures images { ContentImages O.KIND choice words.old words.new needed.new result self.now }
        ensures back { ContentComesBack O.Object O.KIND O.replies_kept choice words.new result self.now }
    {
        match self {
            HandleState::Closed(remains) => {
                // a law: a closed service leaves all that an image is made of
                closed_tables_are_whole::<O>();
                // a law: `base_of` refuses an image that is written here only where memory runs out
                written_images_are_taken_up::<O>();
                // a law: each result in what `base_of` reads keeps a reply of the object's kind, where the object's steps give such replies only
                written_images_keep_replies::<O>();
                write_to(remains, O::KIND, choice, words, needed)
            }
            _ => {
                *needed = 0;
                OUT_OF_TURN
            }
        }
    }
}

/// What a handle holds after its session was closed with the result `closing`, and the status of that call.
fn left<O: Object>(closing: Closing<O>) -> (HandleState<O>, i32)
    ensures { (result.0 ≡ content_left closing) × (result.1 ≡ closing_code closing) }
{
    match closing {
        Closing::Others => (HandleState::Gone, OTHERS),
        Closing::Again(session) => (HandleState::Session(session), AGAIN),
        Closing::Closed(remains, _) => (HandleState::Closed(remains), DONE),
        Closing::Kept(kept, _) => (HandleState::Kept(kept), NO_MEMORY),
        Closing::Missing(rest) => (HandleState::Unclosed(rest), LOST),
        Closing::Shared(rest) => (HandleState::Unclosed(rest), AGAIN),
    }
}

impl AnyHandleState {
    /// Does the operation `op`, in at most `tries` tries. After `Done` its reply stands in `reply`. Where the handle holds no session the answer is
    /// `OutOfTurn`, and the handle stays as it is.
    pub fn call(&mut self, op: &OpWords, reply: &mut OpWords, tries: Tries) -> Called
        requires callable { IsCallable self.old }
        ensures { LeavesCallable self.new (CallHasResult op.now tries.count self.old result self.new reply.new) }
    {
        match self {
            AnyHandleState::Documents(content) => content.call(op, reply, tries),
            AnyHandleState::Queue(content) => content.call(op, reply, tries),
            AnyHandleState::Program(content) => content.call(op, reply, tries),
        }
    }

    /// Drives the linked entry of the session on, in at most `tries` attempts. After `Done` the entry is answered, and its reply stands in `reply`.
    /// Where the handle holds no session the answer is `OutOfTurn`, and the handle stays as it is.
    pub fn finish(&mut self, reply: &mut OpWords, tries: Tries) -> Called
        requires callable { IsCallable self.old }
        ensures { LeavesCallable self.new (FinishesSession tries.count self.old result self.new reply.new) }
    {
        match self {
            AnyHandleState::Documents(content) => content.finish(reply, tries),
            AnyHandleState::Queue(content) => content.finish(reply, tries),
            AnyHandleState::Program(content) => content.finish(reply, tries),
        }
    }

    /// The place of the session: who catches up with it sees all that this session was answered. `None` where the handle holds no session.
    pub fn place(&self) -> Option<u64>
        ensures { MayHavePlace self.now result }
    {
        match self {
            AnyHandleState::Documents(content) => content.place(),
            AnyHandleState::Queue(content) => content.place(),
            AnyHandleState::Program(content) => content.place(),
        }
    }

    /// Has the session catch up with `place`, the place of another session of its service. From `Caught` on its answers stand at or above `place`.
    /// Where the handle holds no session the answer is `OutOfTurn`, and the handle stays as it is.
    pub fn catch_up(&mut self, place: u64) -> SessionCatchUp
        requires callable { IsCallable self.old }
        ensures { LeavesCallable self.new (ContentCatchesUp place self.old result self.new) }
    {
        match self {
            AnyHandleState::Documents(content) => content.catch_up(place),
            AnyHandleState::Queue(content) => content.catch_up(place),
            AnyHandleState::Program(content) => content.catch_up(place),
        }
    }

    /// Has the session write an image of its object into `words`, while other sessions go on, and the number of words that it takes into `needed`.
    /// The answer is the status of the call: DONE where the image is written, and OUT_OF_TURN, with 0 in `needed`, where the handle holds no session.
    pub fn checkpoint(&mut self, words: &mut [u64], needed: &mut u64) -> i32
        requires callable { IsCallable self.old }
        ensures checkpoints { LeavesCallable self.new (CheckpointsSession self.old self.new words.old words.new needed.new result) }
        ensures back { TakenComesBack self.old words.new result }
    {
        match self {
            AnyHandleState::Documents(content) => content.checkpoint(words, needed),
            AnyHandleState::Queue(content) => content.checkpoint(words, needed),
            AnyHandleState::Program(content) => {
                // a law: `base_of` refuses an image that a session took only where memory runs out, and else reads the replica that was taken
                taken_images_are_taken_up::<ProgramObject>();
                content.checkpoint(words, needed)
            }
        }
    }

    /// Closes the session, or what an earlier closing left to be closed. The answer is the status of the call; the handle then holds what is left.
    pub fn close(&mut self, alloc: Global) -> i32
        requires callable { IsCallable self.old }
        ensures { LeavesCallable self.new (ClosesAs self.old self.new result) }
    {
        match self {
            AnyHandleState::Documents(content) => content.close(alloc),
            AnyHandleState::Queue(content) => content.close(alloc),
            AnyHandleState::Program(content) => content.close(alloc),
        }
    }

    /// Writes an image that a crash could leave of the closed service into `words`, and the number of words that it takes into `needed`. `choice`
    /// picks the root, and the values of the dirty words. The answer is the status of the call: DONE where the image is written, and OUT_OF_TURN,
    /// with 0 in `needed`, where the handle holds no closed service.
    pub fn image(&self, choice: u64, words: &mut [u64], needed: &mut u64) -> i32
        requires callable { IsCallable self.now }
        ensures images { Images self.now choice words.old words.new needed.new result }
        ensures back { ComesBack self.now choice words.new result }
    {
        match self {
            AnyHandleState::Documents(content) => content.image(choice, words, needed),
            AnyHandleState::Queue(content) => content.image(choice, words, needed),
            AnyHandleState::Program(content) => {
                // a law: `base_of` refuses an image that is written here only where memory runs out
                written_images_are_taken_up::<ProgramObject>();
                content.image(choice, words, needed)
            }
        }
    }
}

// Does nothing, and compiles only where values of `T` may go to another thread.
const fn goes_to_a_thread<T: Send>() {}

/// A check by the compiler, which does nothing: what stands behind a pointer that C holds may go to another thread, in each of its cases.
pub const fn contents_cross_threads() {
    goes_to_a_thread::<Session<DocStore>>();
    goes_to_a_thread::<Session<Fifo>>();
    goes_to_a_thread::<Session<ProgramObject>>();
    goes_to_a_thread::<Kept<DocStore>>();
    goes_to_a_thread::<Kept<Fifo>>();
    goes_to_a_thread::<Kept<ProgramObject>>();
    goes_to_a_thread::<Unclosed<DocStore>>();
    goes_to_a_thread::<Unclosed<Fifo>>();
    goes_to_a_thread::<Unclosed<ProgramObject>>();
    goes_to_a_thread::<Remains>();
}

//! What a session takes while others go on, as words of C's.

ghost use Rattle.std.specs.Prelude.{◌≡◌};
ghost use Rattle.std.specs.Arc.{arc_value};
ghost use Rattle.table_invariant.specs.Running.{IsTableWithinLimits};
ghost use Rattle.c_sessions.specs.Sessions.{IsSessionOpen};
ghost use Rattle.githoppu_c.specs.Checkpoints.{TakesAs};

use crate::codes::{AGAIN, BAD_SIZE, DONE, OUT_OF_TURN, STOPPED};
use c_images::{base_image_words, base_words, write_base};
use c_sessions::{Session, SessionCheckpoint, Tries};
use cx_base::Object;

/// Has the session write an image of its object into `words`, in 16 tries, while other sessions go on. Such an image is a head of 8 words and one
/// region, which is a whole replica. `needed` becomes the number of its words. Where `words` has another length, the answer is BAD_SIZE, and nothing
/// else is changed. The answers are DONE, AGAIN where other sessions were in the way in each try, STOPPED at the step limit, and OUT_OF_TURN where
/// the session is stopped or has a linked entry.
pub fn take_to<O: Object>(
    session: &mut Session<O>,
    kind: u64,
    words: &mut [u64],
    needed: &mut u64,
) -> i32
    requires opened { IsSessionOpen session.old }
    ensures opened { IsSessionOpen session.new }
    ensures same { arc_value session.new.service ≡ arc_value session.old.service }
    ensures running { IsTableWithinLimits O.line_count O.lawful (arc_value session.old.service) }
    ensures takes { TakesAs O.Object kind session.old session.new words.old words.new needed.new result }
{
    let lines = session.lines();
    let callers = session.callers();
    let count = base_image_words(lines);
    *needed = count;
    // the buffer has to be exactly as long as the image
    if words.len() as u64 != count {
        return BAD_SIZE;
    }
    // the session writes the replica behind the place of the head
    let region = base_words(lines) as usize;
    let tries = Tries { count: 16 };
    match session.checkpoint(&mut words[8..8 + region], tries) {
        SessionCheckpoint::At(place) => {
            // the head says what the replica is of, and at which place
            write_base(kind, callers, lines, place, words);
            DONE
        }
        SessionCheckpoint::Again => AGAIN,
        SessionCheckpoint::Stopped => STOPPED,
        SessionCheckpoint::OutOfTurn => OUT_OF_TURN,
    }
}

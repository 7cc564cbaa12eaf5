//! What the calls answer, as numbers.

ghost use Rattle.std.specs.Prelude.{◌≡◌};
ghost use Rattle.githoppu_c.specs.Codes as spec;
ghost use Rattle.githoppu_c.specs.Places as places;

use c_images::WordsFault;
use c_sessions::{Called, OpenFault, SessionCatchUp};
use recovery::ImageFault;

/// The call did what it was asked for, and what it tells is written.
pub const DONE: i32 = 0;
/// An operation is linked and not answered yet.
pub const PENDING: i32 = 1;
/// Others were in the way: a call linked nothing, and a closing or an image is to be asked for again. Of an opening or a recovery: the sessions'
/// new queue did not take its first entry.
pub const AGAIN: i32 = 2;
/// Nothing is linked: the session has no free cell in the log, since another session needs the entries in its cells.
pub const FULL: i32 = 3;
/// Nothing is linked: all tickets of the log are used.
pub const WORN: i32 = 4;
/// The session has reached its step limit.
pub const STOPPED: i32 = 5;
/// The call is refused and changes nothing: what the handle holds is not in a state for it. For instance, an operation is asked of what is no
/// session, or of a session that has a linked entry.
pub const OUT_OF_TURN: i32 = 6;
/// A size is wrong: the number of lines, of sessions or of words, the number of a session (above 7), or the fuel (above 2^20).
pub const BAD_SIZE: i32 = 7;
/// Out of memory.
pub const NO_MEMORY: i32 = 8;
/// The session is closed, and other sessions of its object are not closed yet.
pub const OTHERS: i32 = 11;
/// A caller was missing when the last session was closed.
pub const LOST: i32 = 12;
/// The words are no image.
pub const NO_IMAGE: i32 = 13;
/// The image is of another kind of object.
pub const OTHER_KIND: i32 = 14;
/// The image has not as many words as its callers and lines make.
pub const IMAGE_SIZE: i32 = 15;
/// The root's place is above 2^40.
pub const IMAGE_ROOT: i32 = 16;
/// The object's version is not known.
pub const IMAGE_VERSION: i32 = 17;
/// The replica that the root names says another place than the root.
pub const IMAGE_PLACE: i32 = 18;
/// The results or the object are not lawful, or a result keeps no reply of such an object.
pub const IMAGE_BODY: i32 = 19;
/// A result has a number above the place.
pub const IMAGE_NUMBERS: i32 = 20;

/// The status that C is given for `called`, the result of an operation or of finishing one.
pub fn code_of(called: Called) -> i32
    ensures { result ≡ spec.code_of called }
{
    match called {
        Called::Done(_) => DONE,
        Called::Pending => PENDING,
        Called::Again => AGAIN,
        Called::Full => FULL,
        Called::Worn => WORN,
        Called::Stopped => STOPPED,
        Called::OutOfTurn => OUT_OF_TURN,
    }
}

/// The status for `fault`: why no sessions were opened, though their sizes were right.
pub fn open_code(fault: OpenFault) -> i32
    ensures { result ≡ spec.open_code fault }
{
    match fault {
        OpenFault::Start(_) => NO_MEMORY,
        OpenFault::InTheWay => AGAIN,
    }
}

/// The current place is below the one that a session was to catch up with.
pub const BEHIND: i32 = 23;

/// The words are no program.
pub const BAD_PROGRAM: i32 = 25;

/// The status that C is given for `sight`, the result of catching up with a place.
pub fn sight_code(sight: SessionCatchUp) -> i32
    ensures { result ≡ places.sight_code sight }
{
    match sight {
        SessionCatchUp::Caught => DONE,
        SessionCatchUp::Behind(_) => BEHIND,
        SessionCatchUp::Stopped => STOPPED,
        SessionCatchUp::OutOfTurn => OUT_OF_TURN,
    }
}

/// The status for `fault`: why no service can start from the words of an image.
pub fn fault_code(fault: WordsFault) -> i32
    ensures { result ≡ spec.fault_code fault }
{
    match fault {
        WordsFault::Head => NO_IMAGE,
        WordsFault::Kind { .. } => OTHER_KIND,
        WordsFault::Image(fault) => image_code(fault),
        WordsFault::Numbers => IMAGE_NUMBERS,
    }
}

/// The status for `fault`: the check of recovery that an image does not pass, or that memory ran out.
fn image_code(fault: ImageFault) -> i32
    ensures { result ≡ spec.image_code fault }
{
    match fault {
        ImageFault::Size { .. } => IMAGE_SIZE,
        ImageFault::Root { .. } => IMAGE_ROOT,
        ImageFault::Version { .. } => IMAGE_VERSION,
        ImageFault::Place { .. } => IMAGE_PLACE,
        ImageFault::Body => IMAGE_BODY,
        ImageFault::Memory => NO_MEMORY,
    }
}

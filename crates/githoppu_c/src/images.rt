//! What a closed service left, as words of C's.

ghost use Rattle.recovery.specs.Crashes.{AreRemainsWhole};
ghost use Rattle.githoppu_c.specs.Closings.{WritesRemains};

use crate::codes::{BAD_SIZE, DONE};
use c_images::{image_words, write_image};
use cx_table::Remains;

/// The kind of object that the head of an image names, of a document store.
pub const DOCUMENTS: u64 = 1;

/// The kind of object that the head of an image names, of a queue.
pub const QUEUE: u64 = 2;

/// The kind of object that the head of an image names, of the object of a program.
pub const PROGRAM: u64 = 3;

/// Writes an image that a crash could leave of a closed service into `words`. `remains` is what the service left, and `choice` picks the root and the
/// values of the dirty words. `needed` becomes the number of words of the image. The answer is DONE, or BAD_SIZE where `words` has another length:
/// then no word is written.
pub fn write_to(
    remains: &Remains,
    kind: u64,
    choice: u64,
    words: &mut [u64],
    needed: &mut u64,
) -> i32
    requires { AreRemainsWhole remains.now }
    ensures { WritesRemains kind remains.now choice words.old words.new needed.new result }
{
    let count = image_words(remains);
    *needed = count;
    if words.len() as u64 != count {
        return BAD_SIZE;
    }
    write_image(remains, kind, choice, words);
    DONE
}

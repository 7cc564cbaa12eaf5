//! The problem: what a crash leaves of a service, or a checkpoint of it, is to be kept as plain words by a caller that is no part of these proofs, as
//! a C program, in memory or in a file; and a service is to be opened from words of which nothing is known.
//!
//! The idea: an image says in a head what it is of. Writing one takes no memory; reading one checks whatever the later calls rely on, so any words
//! are either refused, with the reason, or taken up as a lawful base. There is no checksum here: a changed byte of a value is not seen.
//!
//! The words are eight of head and then, in format 1, those of all replicas, one after another, and in format 2 those of one region, which stand for each
//! replica. The head is "githoppu" in its bytes, the format, the kind of object, the callers, the lines of the object and the root; the last two words
//! are 0.
//!
//! - `write_image` writes what a crash leaves of a closed service, by choice, as recovery's `crash_image` has it, in format 1, and takes no memory.
//! - `write_base` writes an image of one region, in format 2. `taken_images_are_taken_up`: where that is a lawful base at its place, the image is refused
//!   only where memory runs out, and else the base is taken up.
//! - `head_of`, `base_of`: the base from which a service may start again, or why there is none: a refusal of recovery's, or one by what recovery does
//!   not look at: the head, the kind of object and the numbers of the results.
//!   `words_are_answered_exactly`: which of these is answered for words of either format, unless memory runs out.
//! - `written_images_are_taken_up`: what `write_image` wrote is refused only where memory runs out, and what is taken up of it holds each
//!   answer (`IsKeptBy`).
//! - `holds_replies`: whether a base's results keep replies of a document store, of a queue, or of a program's object. Where those of the base did that
//!   a service was opened from, and the object's step answers by no others, those of the closed service do (`written_images_keep_replies`), and so
//!   do those of an image that was taken before the closing (`taken_images_keep_replies`).
#![tactic(auto)]

mod head;
mod laws;
mod reader;
mod replies;
mod taken;
mod writer;

pub use head::{Head, head_of};
pub use laws::{
    taken_images_are_taken_up, taken_images_keep_replies, words_are_answered_exactly,
    written_images_are_taken_up, written_images_keep_replies, written_images_tell_outcomes,
};
pub use reader::{WordsFault, base_of};
pub use replies::{ReplyKind, holds_replies};
pub use taken::{base_image_words, base_words, write_base};
pub use writer::{image_words, write_image};

//! What a crash leaves has to outlive the process, so that another program can look at it, damage it on purpose, or recover from it.
//!
//! So it is written as lines of numbers: how many callers, lines and words there are, the root, and each word that is not 0 with its place, in rising
//! order.
//!
//! - An image is read exactly where the bytes are an image text, and may be recovered from; else the first line is named with which the lines so
//!   far are none, or the missing one: `read_image` (`read`, `only`, `readable`, `refused`).
//! - The text of an image is its definition: `image_text`; it is read as an image with the same words: `image_texts_are_read`.
#![tactic(auto)]

mod heads;
mod lines;
mod printer;
mod reader;

pub use cx_core::Image;
pub use lines::{ImageHead, ImageLines, ImageReason, TextFault};
pub use printer::{image_text, image_texts_are_read};
pub use reader::read_image;

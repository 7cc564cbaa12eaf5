//! Scripts, reports, images and traces are texts that people and other programs write. That a reader takes more than its format says, or names the
//! wrong line, is easily missed by tests.
//!
//! A format is a relation between a text and what it says. It gives how one further line changes what was said so far (`LineReader`), and one loop
//! reads every format, up to the first line that no text of the format can have there. A number has one spelling, so that text and value are one to
//! one.
//!
//! - A text is read as a number, or an integer, exactly where it is one of 64 bits in decimal, without leading zeros and without -0:
//!   `number_of`, `integer_of` (`some`, `none`).
//! - Number and text, integer and text are one to one: `number_text_is_one_to_one`, `integer_text_is_one_to_one`.
//! - For any language that is read line by line, a text is read exactly where it is of the language, and then it says that; else the first line
//!   is named with which the lines so far say nothing together, and why: `read_lines` (`read`, `only`, `refused`).
#![tactic(auto)]

mod lines;
mod numbers;
mod reader;
mod words;
mod writer;

pub use lines::next_line;
pub use numbers::{integer_of, integer_text_is_one_to_one, number_of, number_text_is_one_to_one};
pub use reader::{LineReader, TextFault, read_lines};
pub use words::{is_one_word, is_word, split_word};
pub use writer::{write_labelled, write_number, write_signed};

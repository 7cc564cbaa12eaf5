//! That a text is read exactly where it is of a language is proved; that the language is the one of the pages on formats is not. So what is read and
//! written is tried by rows that were worked by hand.
//!
//! They are parts of scripts of documents, the script of a load, reports, images and traces. Texts by their lines, limits and every reason of refusal,
//! of pools and of a queue too, and what images and traces are answered, go through the program: `tools/tests/text_tests.py`. The crate has tests alone.
#![tactic(auto)]

#[cfg(test)]
mod holds;
#[cfg(test)]
mod image_texts;
#[cfg(test)]
mod loads;
#[cfg(test)]
mod named;
#[cfg(test)]
mod records;
#[cfg(test)]
mod reports;
#[cfg(test)]
mod scripts;
#[cfg(test)]
mod summaries;
#[cfg(test)]
mod trace_texts;

//! A program that prints a report of threads and crashes promises little, unless it is said what a printed text means. Here each command on documents
//! (`run`, `image`, `load`, `pool`, `recover` and `trace`) is one call, whose contract says that of its text.
//!
//! Where lives are run, a text is the report of records of legal lives, and the records are witnessed by the execution logs (trails) of the services
//! that ran them, which the call hands out beside the text; such a call may wait. Where an image or a trace is read, there is
//! one answer to it, unless memory runs out. The definitions are in `specs/`, one file for each kind of answer.
//!
//! Scripts whose lives are run in turn (`specs/ScriptTexts.antt`):
//!
//! - The lives themselves, over a document store of the script's lines: `run_lives`.
//! - A report of all of them: `report_of_script`. Its records are of legal lives of the script, each witnessed by the execution log of the
//!   service that ran it, and the text is the report of these records (`IsReport`).
//! - The image text of what the last crash left, and no text where there is no life: `image_of_script`. For such records there is
//!   one image, from which the base is recovered with which a next life would begin (`IsLastImage`).
//! - Four lines on the one life of a load: `summary_of_load` (`IsSummary`).
//! - Different legal lives have different reports: `different_lives_have_different_reports`.
//!
//! Scripts of a pool, whose clients share the callers of one service (`specs/PoolTexts.antt`):
//!
//! - The record of its life, and what its service left: `run_pool` (`RunsPool`).
//! - A report of its life: `report_of_pool`. Its record is one of a pool life of the script's one life, witnessed by the execution log of the
//!   service that ran it, and the text is the report of it (`IsPoolReport`).
//!
//! Image texts, told as documents: the place, each client's last command and the pairs, or why there is nothing to tell (`specs/ImageTexts.antt`):
//!
//! - From an image is recovered the place of its root, the last command of each client with a number, in rising order of the clients, and
//!   the pairs of the store with their revisions, in the order of their keys; an image of version 1 is upgraded. A fault names the first
//!   check that the image does not pass; a slot with a number that holds no reply of documents is of the last of them: `recovered`. By
//!   these clauses there is one answer for each image where memory does not run out: `answers_are_one`. The pairs of an image of version 1 are told
//!   with revision 1: `old_pairs_have_first_revisions`.
//! - Bytes are answered by what is recovered from the image that they say, by its fault, or by their first line at fault, each exactly
//!   where it is so: `answer_image` (`ends`, `writes`), `ends_are_one`.
//!
//! Recorded traces of a core over documents (`specs/TraceTexts.antt`):
//!
//! - The one verdict that is of the trace, from the base with which a service of documents opens anew; where it is `Yes` each state passed
//!   is lawful, and nothing answered is lost: `verdict_of_trace` (`IsTraceVerdict`).
//!
//! Tested through the program (`tools/tests/image_tests.py`, `tools/tests/text_tests.py`): the worked texts of images, and slots with words that
//! are no reply.
#![tactic(auto)]

mod image_answer;
mod image_texts;
mod images;
mod laws;
mod lives;
mod loads;
mod pool_reports;
mod recovered_documents;
mod replies;
mod script_reports;
mod verdicts;

pub use image_answer::{ImageAnswer, ImageEnd, answer_image, ends_are_one};
pub use images::image_of_script;
pub use laws::different_lives_have_different_reports;
pub use lives::run_lives;
pub use loads::summary_of_load;
pub use pool_reports::{report_of_pool, run_pool};
pub use recovered_documents::{answers_are_one, old_pairs_have_first_revisions, recovered};
pub use script_reports::report_of_script;
pub use verdicts::verdict_of_trace;

//! Did a queue keep its order, whatever its clients did at once and whatever crashes took away? To answer that there has to be a text of what was
//! asked, a record of what happened, and a definition of what may happen. The command `fifo` runs the clients of a queue on threads, life after life,
//! with crashes between them, and prints what happened. Its contract says what the printed text means.
//!
//! A script has the commands of each client in each life, and a record the one history of a life, its reads, and how much of it the crash kept. A
//! life is legal where each reply is that of the queue in this history. Over all lives the order is then one equation between lists of texts. Lines,
//! headers, lives and the order of refusals are those of all scripts (`script_text`); there are no cut lines, so a line that begins with `cut` names
//! no client. What is said of a printed life is proved from the execution log (trail) of the service that ran it, which the call hands out beside the
//! text.
//!
//! Lives:
//!
//! - A legal life without cuts is a legal life of a queue, where its record is without what only cuts have: `uncut_lives_are_fifo_lives`.
//! - Over all lives of a script, the texts of the kept pops that were given one, followed by the texts left at the end, are the texts of the
//!   kept pushes that were taken, in order: `lives_keep_their_order`.
//! - Whatever the threads do, the records are those of legal lives of the queue, witnessed by the execution logs of the services:
//!   `run_fifo` (`legal` and `witness` of `HaveFifoLived`). The call may wait.
//! - The service of each life began with the number of each client's kept entries of all lives before it, and the reply to the last of
//!   them: `lives_begin_with_results`.
//!
//! Texts:
//!
//! - A script is read exactly where the bytes are one, and keeps the limits; else the first line is named with which the lines so far are no
//!   script, and the first reason that fits it: `read_fifo_script` (`script`, `only`, `limits`, `refused`).
//! - The report of records is its definition: `fifo_report`. The records of legal lives can be reported: `legal_lives_can_be_reported`.
//! - A report of all lives: `report_of_queue`. Its records are of legal lives of the queue, each witnessed by the execution log of the
//!   service that ran it, and the text is the report of these records (`IsFifoReport`, in `specs/Texts.antt`).
//! - Over all the lives in a report the queue's order is kept: `reports_keep_their_order`.
#![tactic(auto)]

mod commands;
mod lives;
mod order_laws;
mod printer;
mod reader;
mod reasons;
mod record;
mod report_laws;
mod reports;
mod run_laws;
mod runs;

pub use lives::{lives_keep_their_order, uncut_lives_are_fifo_lives};
pub use order_laws::reports_keep_their_order;
pub use printer::fifo_report;
pub use reader::read_fifo_script;
pub use reasons::{FifoReason, FifoTextFault};
pub use record::{FifoCommand, FifoLife, FifoLine, FifoRead, FifoRecord, FifoScript};
pub use report_laws::legal_lives_can_be_reported;
pub use reports::report_of_queue;
pub use run_laws::lives_begin_with_results;
pub use runs::{FifoLived, run_fifo};

//! Texts of traces, and how many steps are read from each.

use crate::holds::holds;
use std::alloc::Global;
use trace_text::read_trace;

/// A row: how many steps each text has, which is one for each line after the first; then the texts, with a `|` between two.
type StepsRow = (usize, &'static [u8]);

// The first line of a text has the number of callers and the lines of the object. Each line after it is a step of a caller, or a crash.
static TEXTS: [StepsRow; 4] = [
    // no step: a line may end with LF, with CR and LF, or with the text
    (0, b"trace 1 64|trace 1 64\n|trace 8 16384\r\n|trace 8 64"),
    // one step: a load of CUR, a look at a slot, and a crash, the last two with the greatest numbers
    (
        1,
        b"trace 1 64\n0 load_cur|trace 1 64\r\n0 load_cur\r\n|trace 8 64\n7 look 18446744073709551615|trace 1 64\ncrash 18446744073709551615 place 18446744073709551615",
    ),
    // one step: raises of DUR, each with one kind of read, and a load that is marked as a refusal
    (
        1,
        b"trace 1 64\n0 raise 1 read get k|trace 1 64\n0 raise 1 read rev k|trace 1 64\n0 raise 1 read next|trace 1 64\n0 raise 1 read next k|trace 1 64\n0 raise 18446744073709551615 read count|trace 1 64\n0 load_word 0 0 refused",
    ),
    // one text with 30 steps, in which each kind stands
    (
        30,
        b"trace 1 64\n0 write_cell 0 0 0\n0 link 0\n0 look 0\n0 read_cell 0 0 0\n0 load_free\n0 try_exclusive 0\n0 try_shared 0\n0 back_off 0\n0 downgrade 0\n0 release_exclusive 0\n0 load_word 0 0\n0 load_word 0 0 refused\n0 store_word 0 0 0\n0 persist 0 0\n0 load_cur\n0 publish\n0 raise 0\n0 retire\n0 protect 0\n0 confirm\n0 unprotect\n0 close_low 0\n0 scan 0\n0 open_free\n0 write_set 0 0 0\n0 offer 0\n0 load_offer 0 0\n0 read_set 0 0 0\n0 note_gap 0 0 0\n0 load_gap 0 0",
    ),
];

// Asserts that each text is read, with as many steps as its row says.
#[test]
fn traces_are_read(rt: HostRuntime) {
    holds(&rt, first_other(rt.alloc(), &TEXTS).is_none());
}

/// The index of the first row with a text that is refused, or is read with another number of steps; `None` if there is no such row.
fn first_other(alloc: Global, rows: &[StepsRow]) -> Option<usize> {
    for (i, (count, texts)) in rows.iter().enumerate() {
        for text in texts.split(|b| *b == b'|') {
            if !is_read(alloc, text, *count) {
                return Some(i);
            }
        }
    }
    None
}

// Whether a text is read as a trace of `count` steps.
fn is_read(alloc: Global, text: &[u8], count: usize) -> bool {
    match read_trace(alloc, text) {
        Ok(trace) => trace.steps.len() == count,
        Err(_) => false,
    }
}

//! Words that a program is given, by a fake environment.

use crate::holds::holds;
use crate::program_runs::{USAGE, run_over};
use cx_base::{OpenGate, Sink, SureSink, SureSource};
use cx_program::words;
use std::alloc::{AllocError, Global};
use std::env::{Env, FillError};
use std::sync::Wait;
use std::test::Fail;
use std::thread::Threads;

/// An environment with the arguments in `all`: a byte 0 stands between two, and the first one is the program's name.
#[derive(Drop)]
struct Arguments<'a> {
    all: &'a [u8],
}

impl Env for Arguments<'_> {
    // copies argument `i` into the front of `buf`, and returns its length
    fn arg(&self, i: usize, buf: &mut [u8]) -> Result<usize, FillError> {
        let all = self.all;
        let Some(arg) = all.split(|b| *b == 0).nth(i) else {
            return Err(FillError::NotPresent);
        };
        let Some(front) = buf.get_mut(..arg.len()) else {
            return Err(FillError::TooLong);
        };
        front.copy_from_slice(arg);
        Ok(arg.len())
    }

    // there are no environment variables
    fn var(&self, _name: &str, _buf: &mut [u8]) -> Result<usize, FillError> {
        Err(FillError::NotPresent)
    }

    fn var_at(&self, _i: usize, _buf: &mut [u8]) -> Result<usize, FillError> {
        Err(FillError::NotPresent)
    }
}

/// Arguments, with a byte 0 between two, and the words that a program with them is given. The first argument is the program's name.
const ROWS: [(&[u8], &[&str]); 8] = [
    (b"cx_tool\0run", &["run"]),
    (
        b"cx_tool\0load\07\04\0\xc3\xa4",
        &["load", "7", "4", "\u{e4}"],
    ),
    // an empty word
    (b"cx_tool\0\0run", &["", "run"]),
    // no word behind the name; in the second row the name is empty
    (b"cx_tool", &[]),
    (b"", &[]),
    // where one word is not UTF-8, there are none at all
    (b"cx_tool\0\xff", &[]),
    (b"cx_tool\0run\0\xc3", &[]),
    (b"cx_tool\0\xe4\0run", &[]),
];

// Whether `got` has just the words of `want`, in their order.
fn are_words(got: &[String], want: &[&str]) -> bool {
    for (word, wanted) in got.iter().zip(want) {
        if word.as_str() != *wanted {
            return false;
        }
    }
    got.len() == want.len()
}

/// The index of the first of `rows` whose arguments give the program other words; `None` where there is none.
fn first_wrong(alloc: Global, rows: &[(&[u8], &[&str])]) -> Result<Option<usize>, AllocError> {
    for (i, (all, want)) in rows.iter().enumerate() {
        let given = words(&(Arguments { all }, alloc))?;
        if !are_words(&given, want) {
            return Ok(Some(i));
        }
    }
    Ok(None)
}

/// Whether a program with the arguments in `all` ends with the exit code 2, which stands for wrong words, and writes how it is used.
fn is_refused<R: Threads + Wait + Sync + AllocGlobal>(
    rt: &R,
    all: &[u8],
) -> Result<bool, AllocError> {
    let alloc = rt.alloc();
    let given = words(&(Arguments { all }, alloc))?;
    let mut sink = SureSink::new(Vec::with_capacity(alloc, 128)?);
    let mut source = SureSource::new(Vec::from_slice(alloc, b"lines 64\n")?);
    let (code, _) = run_over(rt, &given, &mut source, &mut sink, &OpenGate);
    Ok(code == 2 && sink.written() == USAGE.as_bytes())
}

#[test]
fn words_come_behind_the_name_of_the_program(rt: HostRuntime) -> Result<(), Fail> {
    holds(&rt, first_wrong(rt.alloc(), &ROWS)?.is_none());
    holds(&rt, is_refused(&rt, b"cx_tool\0run\0\xff")?);
    Ok(())
}

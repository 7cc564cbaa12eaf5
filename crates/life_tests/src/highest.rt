//! The highest number, the object that `object_to_copy` has for users to copy: its operations on words, and its images.

use crate::holds::holds;
use crate::objects::{Answered, opening, queried, stepped};
use cx_base::Object;
use object_to_copy::{Highest, Op, Reply};
use std::alloc::{AllocError, Global};
use std::test::Fail;

// The object in 64 lines.
fn highest() -> Highest {
    Highest::of(64)
}

// An operation, its reply, and the highest number after it.
type Case = (Op, Reply, u64);

// Operations one after another from the opening image on, which has the number 0. A raise to a number that is not above the highest leaves it.
const CASES: [Case; 8] = [
    (Op::Read, Reply::Value(0), 0),
    (Op::Raise { to: 0 }, Reply::Value(0), 0),
    (Op::Raise { to: 5 }, Reply::Value(5), 5),
    (Op::Raise { to: 4 }, Reply::Value(5), 5),
    (Op::Other, Reply::NoOperation, 5),
    (Op::Raise { to: u64::MAX }, Reply::Value(u64::MAX), u64::MAX),
    (Op::Raise { to: 6 }, Reply::Value(u64::MAX), u64::MAX),
    (Op::Read, Reply::Value(u64::MAX), u64::MAX),
];

// Whether words are 64 lines with the version 1, the number, and zeros behind it as `format` made them.
fn have(words: &[u64], number: u64) -> bool {
    words.len() == 512
        && words[0] == 1
        && words[1] == number
        && words[2..].iter().all(|word| *word == 0)
}

// Whether the reply is `reply`, and the words that were left have `number`.
fn is_answer(answered: &Answered, reply: Reply, number: u64) -> bool {
    have(&answered.words, number) && Reply::of(&answered.reply) == reply
}

// Whether `query` gives a read the case's reply and leaves the words, which have the case's number already, and gives no reply to any other
// operation.
fn answers_query(alloc: Global, words: Vec<u64>, case: &Case) -> Result<bool, AllocError> {
    let (op, reply, number) = case;
    match queried(alloc, &highest(), words, &op.words())? {
        Some(answered) => Ok(*op == Op::Read && is_answer(&answered, *reply, *number)),
        None => Ok(*op != Op::Read),
    }
}

// The index of the first of the cases, done one after another from the opening image on, that has another reply or leaves another number. `None`
// where there is none; the number of cases where there is no opening image.
fn first_other_case(alloc: Global, cases: &[Case]) -> Result<Option<usize>, AllocError> {
    let object = highest();
    let Some(mut words) = opening(alloc, &object)? else {
        return Ok(Some(cases.len()));
    };
    for (i, case) in cases.iter().enumerate() {
        let (op, reply, number) = case;
        match stepped(alloc, &object, words, &op.words())? {
            Some(answered) if is_answer(&answered, *reply, *number) => words = answered.words,
            _ => return Ok(Some(i)),
        }
        if !answers_query(alloc, words.clone()?, case)? {
            return Ok(Some(i));
        }
    }
    Ok(None)
}

// The number of words, the version in the first of them, and whether they are an image.
const IMAGES: [(usize, u64, bool); 6] = [
    (512, 1, true),
    // other versions
    (512, 0, false),
    (512, 2, false),
    // other than 64 lines of 8 words
    (511, 1, false),
    (520, 1, false),
    (0, 1, false),
];

// The index of the first row for which `check` returns another answer than `truth`; `None` where there is none. Behind the version each word is the
// greatest number, since the words there may be any.
fn first_other_image(
    alloc: Global,
    rows: &[(usize, u64, bool)],
) -> Result<Option<usize>, AllocError> {
    for (i, (len, version, truth)) in rows.iter().enumerate() {
        let mut words = vec![in alloc; u64::MAX; *len]?;
        if let Some(first) = words.first_mut() {
            *first = *version;
        }
        if highest().check(alloc, &words)? != *truth {
            return Ok(Some(i));
        }
    }
    Ok(None)
}

#[test]
fn the_highest_number_stays(rt: HostRuntime) -> Result<(), Fail> {
    let alloc = rt.alloc();
    holds(&rt, first_other_case(alloc, &CASES)?.is_none());
    holds(&rt, first_other_image(alloc, &IMAGES)?.is_none());
    holds(&rt, highest().lines() == 64 && highest().version() == 1);
    Ok(())
}

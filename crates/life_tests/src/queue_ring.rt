//! The queue over the words of a memory, full and empty at each place of its ring, and its images.

use crate::holds::holds;
use cx_base::{Halt, Object, VecMemory};
use fifo_object::Fifo;
use std::alloc::{AllocError, Global};
use std::test::Fail;

/// A step: the kind of the operation, the only byte of its text, and the answer. Kinds of operations: 1 push, 2 pop, 3 peek, 4 the number of texts; 7
/// is none.
type Step = (u64, u64, Answer);

/// An answer: the kind of the reply, its word 1, which is the length of a text or a number, and the first word of the text. Kinds of replies: 1
/// pushed, 2 full, 3 a text, 4 empty, 5 the number of texts; 0 where the words were no operation.
type Answer = (u64, u64, u64);

/// A queue in 2, 3 or 5 lines. The first line is its header, and each other is a place for one text.
fn queue_in(lines: u64) -> Fifo {
    match lines {
        2 => Fifo::of(2),
        3 => Fifo::of(3),
        _ => Fifo::of(5),
    }
}

/// The words of an operation of a kind; a push has a text of this one byte.
fn asked(kind: u64, byte: u64) -> [u64; 144] {
    let mut words = [0; 144];
    words[0] = kind;
    if kind == 1 {
        words[1] = 1;
        words[2] = byte;
    }
    words
}

/// The words after an operation on `words`, and its answer. `None` where `words` are no image, or an access is refused.
fn stepped(
    alloc: Global,
    fifo: &Fifo,
    words: Vec<u64>,
    op: &[u64; 144],
) -> Result<Option<(Vec<u64>, Answer)>, AllocError> {
    if !fifo.check(alloc, &words)? {
        return Ok(None);
    }
    let mut memory = VecMemory::of(words, None);
    match fifo.run(&mut memory, op) {
        Ok(reply) => Ok(Some((memory.into_words(), (reply[0], reply[1], reply[2])))),
        Err(Halt) => Ok(None),
    }
}

/// The image that a queue opens with, made over words that are all 9. `None` where an access is refused.
fn opened(alloc: Global, fifo: &Fifo) -> Result<Option<Vec<u64>>, AllocError> {
    let mut words = Vec::new(alloc);
    for _ in 0..8 * fifo.lines() {
        words.push(9)?;
    }
    if words.len() as u64 != 8 * fifo.lines() {
        return Ok(None);
    }
    let mut memory = VecMemory::of(words, None);
    match fifo.format(&mut memory) {
        Ok(()) => Ok(Some(memory.into_words())),
        Err(Halt) => Ok(None),
    }
}

/// The steps by which the head of a queue of `places` places is moved to `head`, and then the queue is filled, refuses a further text, and is
/// emptied.
fn steps(alloc: Global, places: u8, head: u8) -> Result<Vec<Step>, AllocError> {
    let mut steps: Vec<Step> = Vec::new(alloc);
    // a text that is pushed and popped moves the head by one place
    for _ in 0..head {
        steps.push((1, 0x7A, (1, 0, 0)))?;
        steps.push((2, 0, (3, 1, 0x7A)))?;
    }
    // the queue is empty
    steps.push((2, 0, (4, 0, 0)))?;
    steps.push((3, 0, (4, 0, 0)))?;
    steps.push((4, 0, (5, 0, 0)))?;
    // each place is filled; a peek sees the first text, and the number of texts rises
    for i in 0..places as u64 {
        steps.push((1, 0x21 + i, (1, 0, 0)))?;
        steps.push((3, 0, (3, 1, 0x21)))?;
        steps.push((4, 0, (5, i + 1, 0)))?;
    }
    // the queue is full, and words of no operation change nothing
    steps.push((1, 0x7E, (2, 0, 0)))?;
    steps.push((7, 0, (0, 0, 0)))?;
    // the texts come out in the order in which they were pushed
    for i in 0..places as u64 {
        steps.push((2, 0, (3, 1, 0x21 + i)))?;
    }
    steps.push((2, 0, (4, 0, 0)))?;
    Ok(steps)
}

/// The index of the first of `steps`, made one after another on a new queue in `lines` lines, that has another answer than its row says. `None` where
/// there is none.
fn first_wrong_step(
    alloc: Global,
    lines: u64,
    steps: &[Step],
) -> Result<Option<usize>, AllocError> {
    let fifo = queue_in(lines);
    let Some(mut words) = opened(alloc, &fifo)? else {
        return Ok(Some(0));
    };
    for (i, (kind, byte, wanted)) in steps.iter().enumerate() {
        let Some((next, answer)) = stepped(alloc, &fifo, words, &asked(*kind, *byte))? else {
            return Ok(Some(i));
        };
        if answer != *wanted {
            return Ok(Some(i));
        }
        words = next;
    }
    Ok(None)
}

/// The number of lines and the head of the first queue that does not answer each of its `steps` as wanted. `None` where there is none. Each place of
/// each queue is tried as its head.
fn first_wrong_queue(alloc: Global) -> Result<Option<(u8, u8)>, AllocError> {
    for lines in [2u8, 3, 5] {
        for head in 0..lines - 1 {
            let steps = steps(alloc, lines - 1, head)?;
            if first_wrong_step(alloc, lines as u64, &steps)?.is_some() {
                return Ok(Some((lines, head)));
            }
        }
    }
    Ok(None)
}

/// An image of three lines with one text, `ab`, at the second place. The header is the version 16, the head 1 and the number of texts 1. The words at
/// the first place are those of no text.
const IMAGE: [u64; 24] = [
    16, 1, 1, 0, 0, 0, 0, 0, 99, 99, 99, 99, 99, 99, 99, 99, 2, 0x6261, 0, 0, 0, 0, 0, 0,
];

/// A word of `IMAGE`, its new value, and whether the words are an image with that value.
const IMAGES: [(usize, u64, bool); 21] = [
    // the version is 16
    (0, 16, true),
    (0, 1, false),
    (0, 17, false),
    // the head is a place, and a text stands there: the places are 0 and 1
    (1, 0, false),
    (1, 2, false),
    (1, u64::MAX, false),
    // without a text the places are not looked at; with two, no text stands at the first place; there are two places
    (2, 0, true),
    (2, 2, false),
    (2, 3, false),
    (2, u64::MAX, false),
    // the rest of the header, words 3 to 7, is 0
    (3, 1, false),
    (4, 1, false),
    (5, 1, false),
    (6, 1, false),
    (7, 1, false),
    // the place without a text is not looked at
    (8, 1, true),
    // the length of the text is 1 to 56, and no byte stands behind the text
    (16, 0, false),
    (16, 57, false),
    (16, 1, false),
    // the second byte is a space, which is not visible
    (17, 0x2061, false),
    // the last word behind the text is not 0
    (23, 1, false),
];

/// The index of the first row for which `check` returns another answer, where word `at` of `IMAGE` is `word`; `None` where there is none.
fn first_wrong_image(
    alloc: Global,
    rows: &[(usize, u64, bool)],
) -> Result<Option<usize>, AllocError> {
    let fifo = queue_in(3);
    for (i, (at, word, is_lawful)) in rows.iter().enumerate() {
        let mut words = IMAGE;
        if *at < 24 {
            words[*at] = *word;
        }
        if fifo.check(alloc, &words)? != *is_lawful {
            return Ok(Some(i));
        }
    }
    Ok(None)
}

#[test]
fn queues_are_rings(rt: HostRuntime) -> Result<(), Fail> {
    holds(&rt, first_wrong_queue(rt.alloc())?.is_none());
    Ok(())
}

#[test]
fn images_are_checked(rt: HostRuntime) -> Result<(), Fail> {
    let alloc = rt.alloc();
    holds(&rt, first_wrong_image(alloc, &IMAGES)?.is_none());
    // two lines are no image of a queue in three
    holds(&rt, !queue_in(3).check(alloc, &IMAGE[..16])?);
    Ok(())
}

//! Worked rows: texts of numbers, and commands with their replies.

use crate::holds::holds;
use crate::rows::{Row, are_answered};
use doc_model::{integer_of, number_of};
use std::test::Fail;

// A text, the number of 64 bits that it is, and the number of 64 bits with a sign that it is, each if it is one.
static NUMBERS: [(&str, Option<u64>, Option<i64>); 16] = [
    // 0 has no sign, and no number begins with 0
    ("0", Some(0), Some(0)),
    ("-0", None, None),
    ("01", None, None),
    ("-1", None, Some(-1)),
    // the ends of the numbers with a sign
    (
        "9223372036854775807",
        Some(9223372036854775807),
        Some(9223372036854775807),
    ),
    ("9223372036854775808", Some(9223372036854775808), None),
    ("-9223372036854775808", None, Some(-9223372036854775808)),
    ("-9223372036854775809", None, None),
    // the end of the numbers without a sign
    ("18446744073709551615", Some(18446744073709551615), None),
    ("18446744073709551616", None, None),
    // texts that are no number: without a digit, with a plus, with a space, and with a letter
    ("", None, None),
    ("-", None, None),
    ("+1", None, None),
    (" 1", None, None),
    ("1 ", None, None),
    ("a", None, None),
];

/// The number of the first row whose text is read as another number than `number`, or as another one with a sign than `integer`; `None` where all
/// rows are right.
fn first_other_number(rows: &[(&str, Option<u64>, Option<i64>)]) -> Option<usize> {
    for (i, (text, number, integer)) in rows.iter().enumerate() {
        if number_of(text.as_bytes()) != *number || integer_of(text.as_bytes()) != *integer {
            return Some(i);
        }
    }
    None
}

#[test]
fn numbers_are_read_in_one_form_alone(rt: HostRuntime) {
    holds(&rt, first_other_number(&NUMBERS).is_none());
}

// A row is an operation and its reply, each by its kind, key, document and number. Of the operations, 1 is a put, 2 a removal, 3 an addition, 4 a
// get, 5 the next key, 6 the count. Of the replies, 1 is new, 2 replaced, 3 deleted, 4 absent, 5 a document, 6 a sum, 7 no number, 8 an overflow, 10
// a key, 11 a number. As words, 18446744073709551595 is -21, and 18446744073709551615 is -1.
static COMMANDS: [(Row, Row); 24] = [
    // the empty store: no pair is counted, and there is no least key
    ((6, "", "", 0), (11, "", "", 0)),
    ((5, "", "", 0), (4, "", "", 0)),
    // c and a are put, and a again
    ((1, "c", "text", 0), (1, "", "", 0)),
    ((1, "a", "1", 0), (1, "", "", 0)),
    ((1, "a", "20", 0), (2, "", "", 0)),
    // a has the document put last, and b is missing
    ((4, "a", "", 0), (5, "", "20", 0)),
    ((4, "b", "", 0), (4, "", "", 0)),
    // two pairs, and the next key above none, above a, above b and above c
    ((6, "", "", 0), (11, "", "", 2)),
    ((5, "", "", 0), (10, "a", "", 0)),
    ((5, "a", "", 0), (10, "c", "", 0)),
    ((5, "b", "", 0), (10, "c", "", 0)),
    ((5, "c", "", 0), (4, "", "", 0)),
    // -21 is added to the 20 of a
    (
        (3, "a", "", 18446744073709551595),
        (6, "", "", 18446744073709551615),
    ),
    ((4, "a", "", 0), (5, "", "-1", 0)),
    // 5 is added to the missing b, and nothing to c, as its document is no number
    ((3, "b", "", 5), (6, "", "", 5)),
    ((3, "c", "", 1), (7, "", "", 0)),
    ((4, "c", "", 0), (5, "", "text", 0)),
    // the greatest number is put at b: 1 more overflows, and changes nothing
    ((1, "b", "9223372036854775807", 0), (2, "", "", 0)),
    ((3, "b", "", 1), (8, "", "", 0)),
    ((4, "b", "", 0), (5, "", "9223372036854775807", 0)),
    // b is removed, and is then missing: c is the next key above a, and two pairs are left
    ((2, "b", "", 0), (3, "", "", 0)),
    ((2, "b", "", 0), (4, "", "", 0)),
    ((5, "a", "", 0), (10, "c", "", 0)),
    ((6, "", "", 0), (11, "", "", 2)),
];

#[test]
fn commands_have_their_meanings(rt: HostRuntime) -> Result<(), Fail> {
    holds(&rt, are_answered(rt.alloc(), 64, &COMMANDS)?);
    Ok(())
}

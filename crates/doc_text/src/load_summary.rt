//! The result of a load.

ghost use Rattle.std.specs.Prelude.{◌≡◌, ◌++◌, IfOk, OnOk};
ghost use Rattle.std.specs.Fmt.{signed_decimal};
ghost use Rattle.doc_text.specs.Summary.{integer_sum, document_number, summary_text};

use crate::script_parts::LifeRecord;
use doc_model::Pair;
use itoa::Buffer;
use plain_text::{integer_of, write_labelled};
use std::alloc::{AllocError, Global};

/// A life in four lines: its clients, the entries of its history, and, where it left these pairs, their number and the sum of the
/// documents that are 64-bit integers. `Err` means out of memory.
pub fn summary(alloc: Global, life: &LifeRecord, pairs: &[Pair]) -> Result<Vec<u8>, AllocError>
    ensures { IfOk result (λ text. text.items ≡ summary_text life.now pairs.now) }
{
    let mut out = Vec::new(alloc);
    write_labelled(&mut out, b"clients ", u64::from(life.clients))?;
    write_labelled(&mut out, b"\nupdates ", life.journal.len() as u64)?;
    write_labelled(&mut out, b"\ndocuments ", pairs.len() as u64)?;
    out.extend_from_slice(b"\nsum ")?;
    write_wide(&mut out, sum_of(pairs))?;
    out.extend_from_slice(b"\n")?;
    Ok(out)
}

/// The sum of the documents that are integers of 64 bits. There are too few of them for the sum to leave 128 bits.
fn sum_of(pairs: &[Pair]) -> i128
    ensures { result ≡ integer_sum pairs.now }
{
    let mut sum = 0i128;
    for pair in pairs {
        sum += i128::from(number_in(pair));
    }
    sum
}

/// The integer that a document is, and 0 where it is none.
fn number_in(pair: &Pair) -> i64
    ensures { result ≡ document_number pair.now }
{
    integer_of(pair.doc.as_slice()).unwrap_or(0)
}

/// Writes a number of 128 bits in decimal.
fn write_wide(out: &mut Vec<u8>, number: i128) -> Result<(), AllocError>
    ensures { OnOk result (out.new.items ≡ out.old.items ++ signed_decimal number) }
{
    let mut digits = Buffer::new();
    out.extend_from_slice(digits.format(number).as_bytes())
}

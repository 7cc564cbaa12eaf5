//! What is known of a JSON text without its value being built.

ghost use Rattle.std.specs.Prelude.{◌≡◌, ◌<◌, length, Err, IfOk, IfSome, IsTrue, OnOk};
ghost use Rattle.json.specs.Print.{IsNumber};
ghost use Rattle.doc_text.specs.Document.{document_of};
ghost use Rattle.doc_text.specs.Measure.{IsInteger, ReadsNumber, IsNoNumber, ReadsValue, HasNoValue, ReadsItems, HasNoItems, ReadsMembers, HasNoMembers};

use crate::measured_members::MeasuredMembers;
use crate::script_parts::Reason;
use json::{Invalid, Reader, Scratch, Token};
use plain_text::{integer_of, number_of};
use serde_json::Value;
use std::alloc::{AllocError, AllocFailed, Global};

/// How deep arrays and objects may nest.
const MAX_DEPTH: usize = 127;

/// The most bytes of a document.
pub(crate) const MAX_DOCUMENT: usize = 1024;

/// What is known of a value.
#[derive(Clone, Copy, Drop)]
pub(crate) struct Measure {
    /// Whether some number of it is no 64-bit integer.
    pub(crate) has_float: bool,
    /// A lower bound of the number of bytes of its compact text.
    pub(crate) least: usize,
}

/// Why a value was not measured.
#[derive(Clone, Copy, Debug, Drop, PartialEq, Eq)]
pub(crate) enum Unmeasured {
    /// There is none.
    NoValue,
    /// A member of an object with many keys has a fraction. A later member may take its place.
    Undecided,
    /// Out of memory.
    Memory,
}

impl From<AllocError> for Unmeasured {
    ghost use Rattle.doc_text.specs.declared.measure.Unmeasured.TheVariants.{Memory};

    ghost from_gives = { λ _ e. e ≡ Memory };

    fn from(_e: AllocError) -> Unmeasured {
        Unmeasured::Memory
    }
}

impl<T: Drop> From<AllocFailed<T>> for Unmeasured {
    ghost use Rattle.doc_text.specs.declared.measure.Unmeasured.TheVariants.{Memory};

    ghost from_gives = { λ _ e. e ≡ Memory };

    fn from(_e: AllocFailed<T>) -> Unmeasured {
        Unmeasured::Memory
    }
}

impl From<Invalid> for Unmeasured {
    ghost use Rattle.doc_text.specs.declared.measure.Unmeasured.TheVariants.{NoValue};

    ghost from_gives = { λ _ e. e ≡ NoValue };

    fn from(_e: Invalid) -> Unmeasured {
        Unmeasured::NoValue
    }
}

/// Why a text is no document, where that is known without its value being built. `Err` means out of memory.
pub(crate) fn refusal_unbuilt(alloc: Global, json: &str) -> Result<Option<Reason>, AllocError>
    ensures { IfOk result (λ found. IfSome found (λ reason. document_of json.now ≡ Err reason)) }
{
    let mut scratch = Scratch::new(alloc);
    let mut reader = Reader::new(json, &mut scratch)?;
    let measure = match measure_value(alloc, &mut reader, MAX_DEPTH) {
        Ok(measure) => measure,
        Err(Unmeasured::NoValue) => return Ok(Some(Reason::Json)),
        Err(Unmeasured::Undecided) => return Ok(None),
        Err(Unmeasured::Memory) => return Err(AllocError),
    };
    if reader.next().is_some() {
        return Ok(Some(Reason::Json));
    }
    if measure.has_float {
        return Ok(Some(Reason::Fraction));
    }
    if measure.least > MAX_DOCUMENT {
        return Ok(Some(Reason::Long));
    }
    Ok(None)
}

/// Reads past a value.
#[cycle(measure_value)]
fn measure_value(
    alloc: Global,
    reader: &mut Reader<'_>,
    depth: usize,
) -> Result<Measure, Unmeasured>
    ensures ok { IfOk result (λ m. ReadsValue depth reader.old reader.new m) }
    ensures shorter { OnOk result (length reader.new < length reader.old) }
    ensures refused { result ≡ Err Unmeasured.NoValue → HasNoValue depth reader.old }
{
    let token = reader.next().ok_or(Unmeasured::NoValue)?;
    match token {
        Token::String(text) => Ok(Measure {
            has_float: false,
            least: text.len(),
        }),
        Token::Number(text) => measure_number(alloc, text),
        Token::Bool(_) => Ok(Measure {
            has_float: false,
            least: 4,
        }),
        Token::Null => Ok(Measure {
            has_float: false,
            least: 4,
        }),
        Token::EndObject | Token::EndArray | Token::Key(_) | Token::Bad => Err(Unmeasured::NoValue),
        Token::BeginArray => {
            if depth == 0 {
                return Err(Unmeasured::NoValue);
            }
            measure_items(alloc, reader, depth - 1)
        }
        Token::BeginObject => {
            if depth == 0 {
                return Err(Unmeasured::NoValue);
            }
            measure_members(alloc, reader, depth - 1)
        }
    }
}

/// Measures a number by its text.
fn measure_number(alloc: Global, text: &str) -> Result<Measure, Unmeasured>
    requires { IsNumber text.now }
    ensures ok { IfOk result (ReadsNumber text.now) }
    ensures refused { result ≡ Err Unmeasured.NoValue → IsNoNumber text.now }
{
    if is_integer(text.as_bytes()) {
        return Ok(Measure {
            has_float: false,
            least: 1,
        });
    }
    match Value::from_str(alloc, text) {
        Ok(value) => Ok(Measure {
            has_float: value.is_f64(),
            least: 0,
        }),
        Err(error) => Err(if error.is_memory() {
            Unmeasured::Memory
        } else {
            Unmeasured::NoValue
        }),
    }
}

/// Whether the text is a 64-bit integer as it is written out.
fn is_integer(text: &[u8]) -> bool
    ensures { IsTrue result → IsInteger text.now }
{
    match number_of(text) {
        Some(_) => true,
        None => integer_of(text).is_some(),
    }
}

/// Reads past the items of an array, and the bracket behind them.
#[cycle(measure_value)]
fn measure_items(
    alloc: Global,
    reader: &mut Reader<'_>,
    depth: usize,
) -> Result<Measure, Unmeasured>
    ensures ok { IfOk result (λ m. ReadsItems depth reader.old reader.new m) }
    ensures shorter { OnOk result (length reader.new < length reader.old) }
    ensures refused { result ≡ Err Unmeasured.NoValue → HasNoItems depth reader.old }
{
    let mut has_float = false;
    let mut least: usize = 1;
    'items: while !reader.take_end_array() {
        let item = measure_value(alloc, reader, depth)?;
        has_float |= item.has_float;
        least = least.saturating_add(1).saturating_add(item.least);
    }
    Ok(Measure { has_float, least })
}

/// Reads past the members of an object, and the brace behind them.
#[cycle(measure_value)]
fn measure_members(
    alloc: Global,
    reader: &mut Reader<'_>,
    depth: usize,
) -> Result<Measure, Unmeasured>
    ensures ok { IfOk result (λ m. ReadsMembers depth reader.old reader.new m) }
    ensures shorter { OnOk result (length reader.new < length reader.old) }
    ensures refused { result ≡ Err Unmeasured.NoValue → HasNoMembers depth reader.old }
{
    let mut found = MeasuredMembers::new(alloc);
    'members: while let Some(name) = reader.next_key()? {
        let key = String::from_str(alloc, name)?;
        let member = measure_value(alloc, reader, depth)?;
        found.add(key, member)?;
    }
    Ok(found.measure())
}

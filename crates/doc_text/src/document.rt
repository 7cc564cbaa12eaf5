//! Documents: JSON, kept as its compact text.

ghost use Rattle.std.specs.Prelude.{◌≡◌, Err, IfOk, IfSome, IsUtf8};
ghost use Rattle.serde_json.specs.Written.{has_float, items_have_float, members_have_float};
ghost use Rattle.serde_json.specs.View.{view, items_view, members_view};
ghost use Rattle.cx_base.specs.Store.{IsDocument};
ghost use Rattle.doc_text.specs.Document.{document_of};
ghost use Rattle.script_text.specs.Reading.{IsTextRead};

use crate::measure::{MAX_DOCUMENT, refusal_unbuilt};
use crate::script_parts::Reason;
use cx_base::Bytes;
use serde_json::{Map, Value};
use std::alloc::{AllocError, Global};

/// The document that a JSON text is kept as, or why it is none. `Err` means out of memory.
pub(crate) fn read_document(alloc: Global, json: &[u8]) -> Result<Result<Bytes, Reason>, AllocError>
    requires { IsUtf8 json.now }
    ensures { IfOk result (IsTextRead IsDocument (document_of json.now)) }
{
    if let Some(reason) = long_refusal(alloc, json)? {
        return Ok(Err(reason));
    }
    let value = match Value::from_slice(alloc, json) {
        Ok(value) => value,
        Err(error) => {
            return if error.is_memory() {
                Err(AllocError)
            } else {
                Ok(Err(Reason::Json))
            };
        }
    };
    if has_float(&value) {
        return Ok(Err(Reason::Fraction));
    }
    let text = value.to_string(alloc)?;
    if text.len() > MAX_DOCUMENT {
        return Ok(Err(Reason::Long));
    }
    Ok(Ok(Bytes::of_vec(text.into_bytes())))
}

/// Why a text that is longer than a document is none, where that is known without its value being built: such a text may
/// be all of an input, and a value takes many times the memory of its text. `Err` means out of memory.
fn long_refusal(alloc: Global, json: &[u8]) -> Result<Option<Reason>, AllocError>
    ensures { IfOk result (λ found. IfSome found (λ reason. document_of json.now ≡ Err reason)) }
{
    if json.len() <= MAX_DOCUMENT {
        return Ok(None);
    }
    match simdutf8::basic::from_utf8(json) {
        Ok(text) => refusal_unbuilt(alloc, text),
        Err(_) => Ok(None),
    }
}

/// Whether some number of the value is no 64-bit integer.
#[cycle(has_float)]
fn has_float(value: &Value) -> bool
    ensures { result ≡ has_float (view value.now) }
{
    match value {
        Value::Null | Value::Bool(_) | Value::String(_) => false,
        Value::Number(number) => number.is_f64(),
        Value::Array(items) => items_have_float(items),
        Value::Object(members) => members_have_float(members),
    }
}

/// Whether some number in these items is no 64-bit integer.
#[cycle(has_float)]
fn items_have_float(items: &Vec<Value>) -> bool
    ensures { result ≡ items_have_float (items_view items.now.items) }
{
    for item in items {
        if has_float(item) {
            return true;
        }
    }
    false
}

/// Whether some number in these members is no 64-bit integer.
#[cycle(has_float)]
fn members_have_float(members: &Map<String, Value>) -> bool
    ensures { result ≡ members_have_float (members_view members.now.entries) }
{
    for (_key, member) in members.iter() {
        if has_float(member) {
            return true;
        }
    }
    false
}

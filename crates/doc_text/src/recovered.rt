//! What is recovered from an image, as text.

ghost use Rattle.std.specs.Prelude.{◌≡◌, ◌++◌, IfOk, OnOk, flat_map};
ghost use Rattle.doc_text.specs.Recovered.{applied_text, document_text, head_text, place_text, recovered_text};

use crate::commands::Documents;
use cx_base::Items;
use doc_model::{Pair, Reply};
use plain_text::write_labelled;
use script_text::ReportWriter;
use std::alloc::{AllocError, Global};

/// A client's last command that was applied: its number among the client's commands of all lives, and its reply.
#[derive(Drop)]
pub struct Applied {
    pub client: u32,
    pub number: u64,
    pub reply: Reply,
}

/// What is recovered: the place, for each client with a command applied the last one, and the pairs in the order of their keys.
#[derive(Drop)]
pub struct Recovered {
    pub place: u64,
    pub outcomes: Items<Applied>,
    pub documents: Items<Pair>,
}

/// What is recovered as text: the place, then the clients, then the documents, each in the order given. `Err` means out of memory.
pub fn recovered_text(alloc: Global, found: &Recovered) -> Result<Vec<u8>, AllocError>
    ensures { IfOk result (λ text. text.items ≡ recovered_text found.now) }
{
    let mut out = Vec::new(alloc);
    let documents = found.documents.as_slice();
    write_head(&mut out, found.place, documents.len() as u64)?;
    write_outcomes(&mut out, found.outcomes.as_slice())?;
    write_documents(&mut out, documents)?;
    Ok(out)
}

// Each function below appends a part of the text to what is written. After an `Err` what is written is of no use.

/// Appends the first line.
fn write_head(out: &mut Vec<u8>, place: u64, documents: u64) -> Result<(), AllocError>
    ensures { OnOk result (out.new.items ≡ out.old.items ++ head_text place documents) }
{
    write_place(out, place)?;
    write_labelled(out, b" documents ", documents)?;
    out.extend_from_slice(b"\n")
}

/// Writes the place that was recovered.
#[tactic(auto, unfolding(crate::specs::Recovered::place_text))]
fn write_place(out: &mut Vec<u8>, place: u64) -> Result<(), AllocError>
    ensures { OnOk result (out.new.items ≡ out.old.items ++ place_text place) }
{
    write_labelled(out, b"recovered place ", place)
}

/// Writes a line for each client's last entry that was applied.
fn write_outcomes(out: &mut Vec<u8>, outcomes: &[Applied]) -> Result<(), AllocError>
    ensures { OnOk result (out.new.items ≡ out.old.items ++ flat_map applied_text outcomes.now) }
{
    for applied in outcomes {
        write_applied(out, applied)?;
    }
    Ok(())
}

/// Writes the line of a client's last entry that was applied, with its reply.
fn write_applied(out: &mut Vec<u8>, applied: &Applied) -> Result<(), AllocError>
    ensures { OnOk result (out.new.items ≡ out.old.items ++ applied_text applied.now) }
{
    write_labelled(out, b"client ", u64::from(applied.client))?;
    write_labelled(out, b" applied ", applied.number)?;
    out.extend_from_slice(b" = ")?;
    Documents::write_reply(out, &applied.reply)?;
    out.extend_from_slice(b"\n")
}

/// Writes a line for each document.
fn write_documents(out: &mut Vec<u8>, documents: &[Pair]) -> Result<(), AllocError>
    ensures { OnOk result (out.new.items ≡ out.old.items ++ flat_map document_text documents.now) }
{
    for pair in documents {
        write_document(out, pair)?;
    }
    Ok(())
}

/// Writes the line of a document: its key, its revision and its text.
fn write_document(out: &mut Vec<u8>, pair: &Pair) -> Result<(), AllocError>
    ensures { OnOk result (out.new.items ≡ out.old.items ++ document_text pair.now) }
{
    out.extend_from_slice(b"document ")?;
    out.extend_from_slice(pair.key.as_slice())?;
    write_labelled(out, b" rev ", pair.revision)?;
    out.extend_from_slice(b" ")?;
    out.extend_from_slice(pair.doc.as_slice())?;
    out.extend_from_slice(b"\n")
}

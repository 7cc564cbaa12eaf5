//! Each operation over sorted pairs.

ghost use Rattle.std.specs.Prelude.{◌≡◌, IfOk, is_some, if◌then◌else◌};
ghost use Rattle.std.specs.Option.{option_map_or};
ghost use Rattle.cx_base.specs.Store.{KeysRise};
ghost use Rattle.doc_model.specs.Meaning as meaning;
ghost use Rattle.doc_model.specs.Place.{DoesOp, IsAtPlace, IsGapFor, pairs_of};
ghost use Rattle.doc_model.specs.Revisions.{pairs_in, next_revision, removed, revision_at};

use crate::operations::{Op, Pair, Reply};
use crate::places::{document_of, has_room, place_above, place_of, revision_of};
use cx_base::Bytes;
use plain_text::integer_of;
use std::alloc::{AllocError, Global};
use std::marker::Model;

/// Pairs in the order of their keys, and the last revision that a write gave.
#[derive(Drop)]
pub(crate) struct Table {
    pub(crate) pairs: Vec<Pair>,
    pub(crate) last: u64,
}

impl Model for Table {
    ghost use Rattle.doc_model.specs.Revisions.{RevisedStore};

    ghost Value = { RevisedStore };

    ghost view = { λ t. record { last = t.last; triples = t.pairs.items } };
}

/// The revision that a write gives.
fn revision_after(last: u64) -> u64
    ensures { result ≡ next_revision last }
{
    if last < u64::MAX { last + 1 } else { last }
}

/// Puts a document in the place of the one that its key has.
fn replace_at(
    table: &mut Table,
    alloc: Global,
    lines: u64,
    at: usize,
    key: &[u8],
    doc: &[u8],
) -> Result<Reply, AllocError>
    requires { IsAtPlace table.old.triples key.now at }
    ensures { DoesOp (meaning.put_reply lines (pairs_in table.old) key.now doc.now) (meaning.store_after_put lines table.old key.now doc.now) table.old table.new result }
{
    if !has_room(lines, &table.pairs[..at], key, doc, &table.pairs[at + 1..]) {
        return Ok(Reply::NoRoom);
    }
    let doc = Bytes::of(alloc, doc)?;
    let revision = revision_after(table.last);
    let pair = &mut table.pairs[at];
    pair.doc = doc;
    pair.revision = revision;
    table.last = revision;
    Ok(Reply::Replaced)
}

/// Adds a pair at the place where its key goes.
fn insert_at(
    table: &mut Table,
    alloc: Global,
    lines: u64,
    at: usize,
    key: &[u8],
    doc: &[u8],
) -> Result<Reply, AllocError>
    requires { IsGapFor table.old.triples key.now at }
    ensures { DoesOp (meaning.put_reply lines (pairs_in table.old) key.now doc.now) (meaning.store_after_put lines table.old key.now doc.now) table.old table.new result }
{
    if !has_room(lines, &table.pairs[..at], key, doc, &table.pairs[at..]) {
        return Ok(Reply::NoRoom);
    }
    let revision = revision_after(table.last);
    let pair = Pair {
        key: Bytes::of(alloc, key)?,
        doc: Bytes::of(alloc, doc)?,
        revision,
    };
    table.pairs.insert(at, pair)?;
    table.last = revision;
    Ok(Reply::New)
}

/// Sets the document of a key, where there is room. An `Err` leaves the pairs as they were.
fn put(
    table: &mut Table,
    alloc: Global,
    lines: u64,
    key: &[u8],
    doc: &[u8],
) -> Result<Reply, AllocError>
    requires { KeysRise (pairs_in table.old) }
    ensures { DoesOp (meaning.put_reply lines (pairs_in table.old) key.now doc.now) (meaning.store_after_put lines table.old key.now doc.now) table.old table.new result }
{
    match place_of(&table.pairs, key) {
        Ok(at) => replace_at(table, alloc, lines, at, key, doc),
        Err(at) => insert_at(table, alloc, lines, at, key, doc),
    }
}

/// Sets the document of a key, and tells the revision that this gives.
fn set(
    table: &mut Table,
    alloc: Global,
    lines: u64,
    key: &[u8],
    doc: &[u8],
) -> Result<Reply, AllocError>
    requires { KeysRise (pairs_in table.old) }
    ensures { DoesOp (meaning.set_reply lines table.old key.now doc.now) (meaning.store_after_put lines table.old key.now doc.now) table.old table.new result }
{
    let revision = revision_after(table.last);
    match put(table, alloc, lines, key, doc)? {
        Reply::NoRoom => Ok(Reply::NoRoom),
        _ => Ok(Reply::Set(revision)),
    }
}

/// Sets the document of a key that has a revision. An `Err` leaves the pairs as they were.
fn put_if(
    table: &mut Table,
    alloc: Global,
    lines: u64,
    key: &[u8],
    revision: u64,
    doc: &[u8],
) -> Result<Reply, AllocError>
    requires { KeysRise (pairs_in table.old) }
    ensures { DoesOp (meaning.put_if_reply lines table.old key.now revision doc.now) (meaning.store_after_put_if lines table.old key.now revision doc.now) table.old table.new result }
{
    let standing = revision_of(&table.pairs, key);
    if standing != revision {
        return Ok(Reply::Stale(standing));
    }
    set(table, alloc, lines, key, doc)
}

/// Removes a key.
fn delete(table: &mut Table, key: &[u8]) -> Reply
    requires { KeysRise (pairs_in table.old) }
    ensures reply { result ≡ (if is_some (meaning.document_at key.now (pairs_in table.old)) then Reply.Deleted else Reply.Absent) }
    ensures next { table.new ≡ removed key.now table.old }
{
    match place_of(&table.pairs, key) {
        Ok(at) => {
            table.pairs.remove(at);
            Reply::Deleted
        }
        Err(_) => Reply::Absent,
    }
}

/// The number that an addition begins with: what the document says, and 0 where the key is missing.
fn number_at(table: &Table, key: &[u8]) -> Option<i64>
    requires { KeysRise (pairs_in table.now) }
    ensures { result ≡ meaning.number_at key.now (pairs_in table.now) }
{
    match document_of(&table.pairs, key) {
        Some(doc) => integer_of(doc),
        None => Some(0),
    }
}

/// Puts the text of a sum.
fn put_sum(
    table: &mut Table,
    alloc: Global,
    lines: u64,
    key: &[u8],
    sum: i64,
) -> Result<Reply, AllocError>
    requires { KeysRise (pairs_in table.old) }
    ensures { DoesOp (meaning.sum_reply lines (pairs_in table.old) key.now sum) (meaning.store_after_sum lines table.old key.now sum) table.old table.new result }
{
    let text = format!(in alloc; "{sum}")?;
    match put(table, alloc, lines, key, text.as_bytes())? {
        Reply::NoRoom => Ok(Reply::NoRoom),
        _ => Ok(Reply::Sum(sum)),
    }
}

/// Adds to the number that is the document of a key. An `Err` leaves the pairs as they were.
fn add(
    table: &mut Table,
    alloc: Global,
    lines: u64,
    key: &[u8],
    amount: i64,
) -> Result<Reply, AllocError>
    requires { KeysRise (pairs_in table.old) }
    ensures { DoesOp (meaning.add_reply lines (pairs_in table.old) key.now amount (meaning.number_at key.now (pairs_in table.old))) (meaning.store_after_add lines table.old key.now amount (meaning.number_at key.now (pairs_in table.old))) table.old table.new result }
{
    let Some(before) = number_at(table, key) else {
        return Ok(Reply::NotNumber);
    };
    match before.checked_add(amount) {
        Some(sum) => put_sum(table, alloc, lines, key, sum),
        None => Ok(Reply::Overflow),
    }
}

/// A copy of the document of a key.
fn get(alloc: Global, table: &Table, key: &[u8]) -> Result<Reply, AllocError>
    requires { KeysRise (pairs_in table.now) }
    ensures { IfOk result (λ reply. reply ≡ option_map_or Reply.Doc (meaning.document_at key.now (pairs_in table.now)) Reply.Absent) }
{
    match document_of(&table.pairs, key) {
        Some(doc) => Ok(Reply::Doc(Bytes::of(alloc, doc)?)),
        None => Ok(Reply::Absent),
    }
}

/// The revision of a key.
fn rev(table: &Table, key: &[u8]) -> Reply
    requires { KeysRise (pairs_in table.now) }
    ensures { result ≡ option_map_or Reply.Revision (revision_at key.now table.now) Reply.Absent }
{
    match place_of(&table.pairs, key) {
        Ok(at) => {
            let pair = &table.pairs[at];
            Reply::Revision(pair.revision)
        }
        Err(_) => Reply::Absent,
    }
}

/// A copy of the least key of some pairs.
fn least(alloc: Global, pairs: &[Pair]) -> Result<Reply, AllocError>
    ensures { IfOk result (λ reply. reply ≡ meaning.least_key (pairs_of pairs.now)) }
{
    match pairs {
        [pair, ..] => Ok(Reply::Key(Bytes::of(alloc, pair.key.as_slice())?)),
        [] => Ok(Reply::Absent),
    }
}

/// A copy of the least key above this one.
fn next(alloc: Global, table: &Table, above: &[u8]) -> Result<Reply, AllocError>
    requires { KeysRise (pairs_in table.now) }
    ensures { IfOk result (λ reply. reply ≡ meaning.least_key (meaning.pairs_above above.now (pairs_in table.now))) }
{
    let from = place_above(&table.pairs, above);
    least(alloc, &table.pairs[from..])
}

/// Does one operation. An `Err` leaves the pairs as they were.
pub(crate) fn step(
    table: &mut Table,
    alloc: Global,
    lines: u64,
    op: &Op,
) -> Result<Reply, AllocError>
    requires { KeysRise (pairs_in table.old) }
    ensures { DoesOp (meaning.reply_to lines table.old op.now) (meaning.store_after lines table.old op.now) table.old table.new result }
{
    match op {
        Op::Put { key, doc } => put(table, alloc, lines, key.as_slice(), doc.as_slice()),
        Op::Del { key } => Ok(delete(table, key.as_slice())),
        Op::Add { key, amount } => add(table, alloc, lines, key.as_slice(), *amount),
        Op::Get { key } => get(alloc, table, key.as_slice()),
        Op::Next { above } => next(alloc, table, above.as_slice()),
        Op::Count => Ok(Reply::Number(table.pairs.len() as u64)),
        Op::PutIf { key, revision, doc } => put_if(
            table,
            alloc,
            lines,
            key.as_slice(),
            *revision,
            doc.as_slice(),
        ),
        Op::Rev { key } => Ok(rev(table, key.as_slice())),
    }
}

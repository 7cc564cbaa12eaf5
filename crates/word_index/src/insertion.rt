//! A pair is put in.

ghost use Rattle.std.specs.Prelude.{◌≡◌, ◌≢◌, ◌-◌, ◌*◌, ℕ, List, IfOk};
ghost use Rattle.cx_base.specs.Calls.{Changes, Finds};
ghost use Rattle.cx_base.specs.Memory.{Becomes};
ghost use Rattle.cx_base.specs.Packing.{unpacked};
ghost use Rattle.cx_base.specs.Store.{Store, lines_of, pair_lines};
ghost use Rattle.doc_model.specs.Revisions.{next_revision};
ghost use Rattle.avl_words.specs.Lines.{IsLoadable, IsStorable, word_of};
ghost use Rattle.index_validation.specs.Layout.{IsIndex, StandsFor};
ghost use Rattle.word_index.specs.Answers.{IsPackedPair, IsNodeOf};
ghost use Rattle.word_index.specs.Packed.{IsPacked};
ghost use Rattle.word_index.specs.Exact.{with_new_pair};
ghost use Rattle.word_index.specs.Fresh.{CanTake};
ghost use Rattle.word_index.specs.Insertion.{PairWritten, CanAdd, Adds, CanWrite, WritesAt, LinesAt, IsInsertKnown, PutsDocument};
ghost use Rattle.word_index.specs.Walk.{HasNode, FewVisits, Walked};

use crate::rewrite::exchange;
use crate::taken::{put_line, take_line, write_text};
use crate::texts::{Doc, Key};
use crate::walk::{End, seek_place};
use avl_words::{Way, put, put_node, word};
use cx_base::{Halt, Memory, Steps};
use std::sync::ledger::Ledger;
use write_buffer::{Held, WriteBuffer, store_held};

/// What `insert` did: the key is new, or its document was replaced, or there is no room and nothing has changed.
#[derive(Clone, Copy, Debug, PartialEq, Eq)]
pub enum Inserted {
    New,
    Replaced,
    NoRoom,
}

/// The lines that a pair takes.
fn lines_of_pair(key: &Key, doc: &Doc<'_>) -> u64
    ensures { result ≡ pair_lines (unpacked key.now.len key.now.words, unpacked doc.now.len doc.now.words.now) }
{
    1 + key.len.div_ceil(56) + doc.len.div_ceil(56)
}

/// The lines that the pair of a node takes.
fn lines_of_node<M: Memory>(mem: &mut M, node: u64) -> Result<u64, Halt>
    requires { IsLoadable M.Memory mem.old (λ ws. HasNode ws node) }
    ensures { Finds M.Memory mem.old mem.new result (λ n ws. (pair : List ℕ × List ℕ) → IsNodeOf ws node pair → n ≡ pair_lines pair) }
{
    let key = word(mem, node, 4)?;
    let document = word(mem, node, 6)?;
    Ok(1 + key.div_ceil(56) + document.div_ceil(56))
}

/// The lines that the pair of a node takes, 0 where there is no node.
fn lines_at<M: Memory>(mem: &mut M, node: u64) -> Result<u64, Halt>
    requires { IsLoadable M.Memory mem.old (λ ws. node ≢ 0 → HasNode ws node) }
    ensures { Finds M.Memory mem.old mem.new result (λ n. LinesAt node n) }
{
    if node == 0 {
        Ok(0)
    } else {
        lines_of_node(mem, node)
    }
}

/// The lines that the store takes.
fn lines_in_use<M: Memory>(mem: &mut M) -> Result<u64, Halt>
    requires { IsLoadable M.Memory mem.old IsIndex }
    ensures { Finds M.Memory mem.old mem.new result (λ n ws. (version : ℕ) (store : Store) → StandsFor ws version store → n ≡ lines_of store) }
{
    let end = word(mem, 0, 3)?;
    let given = word(mem, 0, 4)?;
    Ok(end - 1 - given)
}

/// Writes a node, as a leaf, and the blocks of a pair with a revision into new lines, and gives the node.
fn write_pair<M: Memory>(mem: &mut M, key: &Key, doc: &Doc<'_>, revision: u64) -> Result<u64, Halt>
    requires memory { IsStorable M.Memory mem.old (λ ws. CanTake ws (pair_lines (unpacked key.now.len key.now.words, unpacked doc.now.len doc.now.words.now))) }
    requires key { IsPacked 8 key.now.len key.now.words }
    ensures changes { Changes M.Memory mem.old mem.new result (λ node. PairWritten (unpacked key.now.len key.now.words, unpacked doc.now.len doc.now.words.now) revision node) }
    ensures exact { IfOk result (λ node. Becomes (M.stands mem.old) (M.stands mem.new) (λ old now. with_new_pair (unpacked key.now.len key.now.words, unpacked doc.now.len doc.now.words.now) revision old ≡ (node, now))) }
{
    let node = take_line(mem)?;
    let key_first = write_text(mem, &key.words, key.len.div_ceil(56) as usize)?;
    let doc_first = write_text(mem, doc.words, doc.len.div_ceil(56) as usize)?;
    put_line(
        mem,
        node,
        &[0, 0, 1, key_first, key.len, doc_first, doc.len, revision],
    )?;
    Ok(node)
}

/// Puts a new pair where the walk to its key ended at nothing.
fn put_pair<M: Memory>(
    mem: &mut M,
    way: &Way,
    key: &Key,
    doc: &Doc<'_>,
    revision: u64,
) -> Result<(), Halt>
    requires memory { IsStorable M.Memory mem.old (λ ws. CanAdd ws way.now.nodes way.now.sides way.now.depth (unpacked key.now.len key.now.words, unpacked doc.now.len doc.now.words.now)) }
    requires key { IsPacked 8 key.now.len key.now.words }
    ensures { Changes M.Memory mem.old mem.new result (λ _. Adds way.now.nodes way.now.sides way.now.depth (unpacked key.now.len key.now.words, unpacked doc.now.len doc.now.words.now) revision) }
{
    let node = write_pair(mem, key, doc, revision)?;
    put_node(mem, way, node)?;
    let pairs = word(mem, 0, 5)?;
    put(mem, 0, 5, pairs + 1)?;
    Ok(())
}

/// Adds a pair over a write buffer. The buffer's room covers each change in at most 16,384 lines, so that there each word that changes is stored once.
/// `Halt` comes only where no access is left; the words may then be anything.
fn add<M: Memory>(
    mem: &mut M,
    way: &Way,
    key: &Key,
    doc: &Doc<'_>,
    revision: u64,
) -> Result<(), Halt>
    requires memory { IsStorable M.Memory mem.old (λ ws. CanAdd ws way.now.nodes way.now.sides way.now.depth (unpacked key.now.len key.now.words, unpacked doc.now.len doc.now.words.now)) }
    requires key { IsPacked 8 key.now.len key.now.words }
    ensures { Changes M.Memory mem.old mem.new result (λ _. Adds way.now.nodes way.now.sides way.now.depth (unpacked key.now.len key.now.words, unpacked doc.now.len doc.now.words.now) revision) }
{
    let mut held = Held::none();
    let mut buffer = WriteBuffer::over(mem, 0, &mut held);
    put_pair(&mut buffer, way, key, doc, revision)?;
    let WriteBuffer { .. } = buffer;
    store_held(mem, &held)
}

/// The revision that the next write gives.
fn next_revision<M: Memory>(mem: &mut M) -> Result<u64, Halt>
    requires { IsLoadable M.Memory mem.old IsIndex }
    ensures { Finds M.Memory mem.old mem.new result (λ revision ws. revision ≡ next_revision (word_of ws 0 6)) }
{
    let last = word(mem, 0, 6)?;
    Ok(last.saturating_add(1))
}

/// Puts a document with a revision at a key, at the node that the walk to the key ended at. Where that is a node, `alike` says whether the document
/// needs as many blocks as the node's own.
fn write_at<M: Memory>(
    mem: &mut M,
    key: &Key,
    doc: &Doc<'_>,
    way: &Way,
    node: u64,
    alike: bool,
    revision: u64,
) -> Result<Inserted, Halt>
    requires memory { IsStorable M.Memory mem.old (λ ws. CanWrite ws way.now.nodes way.now.sides way.now.depth node alike (unpacked key.now.len key.now.words, unpacked doc.now.len doc.now.words.now)) }
    requires key { IsPacked 8 key.now.len key.now.words }
    ensures { Changes M.Memory mem.old mem.new result (WritesAt way.now.nodes way.now.sides way.now.depth node (unpacked key.now.len key.now.words, unpacked doc.now.len doc.now.words.now) revision) }
{
    if node == 0 {
        add(mem, way, key, doc, revision)?;
        return Ok(Inserted::New);
    }
    exchange(mem, node, doc, alike)?;
    put(mem, node, 7, revision)?;
    Ok(Inserted::Replaced)
}

/// Puts a document at a key, where there is room, at the node that the walk to it ended at; of `lines` lines `used` are in use, of which `old` are
/// of the old pair.
fn put_at<M: Memory>(
    mem: &mut M,
    lines: u64,
    key: &Key,
    doc: &Doc<'_>,
    way: &Way,
    end: End,
    used: u64,
    old: u64,
) -> Result<Inserted, Halt>
    requires memory { IsStorable M.Memory mem.old (IsInsertKnown (unpacked key.now.len key.now.words) way.now.nodes way.now.sides way.now.depth end.node end.above used old lines) }
    requires pair { IsPackedPair key.now doc.now.len doc.now.words.now }
    ensures { Changes M.Memory mem.old mem.new result (PutsDocument (unpacked key.now.len key.now.words) (unpacked doc.now.len doc.now.words.now)) }
{
    let new = lines_of_pair(key, doc);
    let needed = used - old + new;
    if lines - 1 < needed {
        return Ok(Inserted::NoRoom);
    }
    let revision = next_revision(mem)?;
    let inserted = write_at(mem, key, doc, way, end.node, old == new, revision)?;
    put(mem, 0, 6, revision)?;
    Ok(inserted)
}

/// Puts a document at a key, in the words of `lines` lines. `NoRoom` comes exactly where the store would then need more
/// than `lines - 1` lines. Any other answer gives the pair the next revision, which becomes the last one given. `Halt` comes
/// only where no access is left; the words may then be anything. The bound on visits holds of the words before, and where the
/// call halts of some words that may have been there.
pub fn insert<M: Memory, L: Ledger>(
    mem: &mut M,
    lines: u64,
    key: &Key,
    doc: &Doc<'_>,
    visits: &mut Steps<L>,
) -> Result<Inserted, Halt>
    requires memory { IsStorable M.Memory mem.old IsIndex }
    requires lines { M.size mem.old ≡ 8 * lines }
    requires pair { IsPackedPair key.now doc.now.len doc.now.words.now }
    ensures changes { Changes M.Memory mem.old mem.new result (PutsDocument (unpacked key.now.len key.now.words) (unpacked doc.now.len doc.now.words.now)) }
    ensures visits { IfOk result (λ _. Becomes (M.stands mem.old) (M.stands mem.new) (λ old now. FewVisits (visits.new - visits.old) old)) }
    ensures walked { Walked (M.stands mem.old) (visits.new - visits.old) }
{
    let mut way = Way::none();
    let end = seek_place(mem, key, visits, &mut way)?;
    let used = lines_in_use(mem)?;
    let old = lines_at(mem, end.node)?;
    let inserted = put_at(mem, lines, key, doc, &way, end, used, old)?;
    Ok(inserted)
}

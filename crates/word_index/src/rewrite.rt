//! A document takes another's place.

ghost use Rattle.std.specs.Prelude.{◌≡◌};
ghost use Rattle.cx_base.specs.Calls.{Changes};
ghost use Rattle.cx_base.specs.Packing.{unpacked};
ghost use Rattle.cx_base.specs.Store.{blocks};
ghost use Rattle.avl_words.specs.Lines.{IsStorable};
ghost use Rattle.word_index.specs.Exact.{with_refilled, with_renewed, with_rewritten};
ghost use Rattle.word_index.specs.Rewriting.{CanExchange, CanRefit, CanRenew, IsOld};

use crate::chain_words::fill_chain;
use crate::given_back::give_chain;
use crate::taken::write_text;
use crate::texts::Doc;
use avl_words::{put, put_new, word};
use cx_base::{Halt, Memory};
use write_buffer::{Held, WriteBuffer, store_held};

/// Writes a document into the blocks of another of as many blocks.
fn refill<M: Memory>(mem: &mut M, node: u64, first: u64, doc: &Doc<'_>) -> Result<(), Halt>
    requires { IsStorable M.Memory mem.old (λ ws. IsOld ws node first (blocks (unpacked doc.now.len doc.now.words.now)) (unpacked doc.now.len doc.now.words.now)) }
    ensures { Changes M.Memory mem.old mem.new result (λ _ old now. now ≡ with_refilled (unpacked doc.now.len doc.now.words.now) node old) }
{
    fill_chain(mem, first, doc.words, doc.len.div_ceil(56) as usize)?;
    put_new(mem, node, 6, doc.len)?;
    Ok(())
}

/// Gives back the blocks of a document, and writes another into new ones.
fn renew<M: Memory>(
    mem: &mut M,
    node: u64,
    first: u64,
    count: u64,
    doc: &Doc<'_>,
) -> Result<(), Halt>
    requires { IsStorable M.Memory mem.old (λ ws. IsOld ws node first count (unpacked doc.now.len doc.now.words.now)) }
    ensures { Changes M.Memory mem.old mem.new result (λ _ old now. now ≡ with_renewed (unpacked doc.now.len doc.now.words.now) node old) }
{
    put(mem, node, 5, 0)?;
    put(mem, node, 6, 0)?;
    give_chain(mem, first, count)?;
    let text = write_text(mem, doc.words, doc.len.div_ceil(56) as usize)?;
    put(mem, node, 5, text)?;
    put(mem, node, 6, doc.len)?;
    Ok(())
}

/// Puts a document in place of a node's own of as many blocks, into the same blocks. No word is stored twice, so none has to be held back.
fn refit<M: Memory>(mem: &mut M, node: u64, doc: &Doc<'_>) -> Result<(), Halt>
    requires { IsStorable M.Memory mem.old (λ ws. CanRefit ws node (unpacked doc.now.len doc.now.words.now)) }
    ensures { Changes M.Memory mem.old mem.new result (λ _ old now. now ≡ with_rewritten (unpacked doc.now.len doc.now.words.now) node old) }
{
    let first = word(mem, node, 5)?;
    refill(mem, node, first, doc)
}

/// Puts a document in place of a node's own of more or fewer blocks, into new ones.
fn replace<M: Memory>(mem: &mut M, node: u64, doc: &Doc<'_>) -> Result<(), Halt>
    requires { IsStorable M.Memory mem.old (λ ws. CanRenew ws node (unpacked doc.now.len doc.now.words.now)) }
    ensures { Changes M.Memory mem.old mem.new result (λ _ old now. now ≡ with_rewritten (unpacked doc.now.len doc.now.words.now) node old) }
{
    let first = word(mem, node, 5)?;
    let count = word(mem, node, 6)?.div_ceil(56);
    renew(mem, node, first, count, doc)
}

/// Rewrites a node's document over a write buffer. The buffer's room covers each change in at most 16,384 lines, so that there each word that changes is
/// stored once. `Halt` comes only where no access is left; the words may then be anything.
fn rewrite<M: Memory>(mem: &mut M, node: u64, doc: &Doc<'_>) -> Result<(), Halt>
    requires { IsStorable M.Memory mem.old (λ ws. CanRenew ws node (unpacked doc.now.len doc.now.words.now)) }
    ensures { Changes M.Memory mem.old mem.new result (λ _ old now. now ≡ with_rewritten (unpacked doc.now.len doc.now.words.now) node old) }
{
    let mut held = Held::none();
    let mut buffer = WriteBuffer::over(mem, node, &mut held);
    replace(&mut buffer, node, doc)?;
    let WriteBuffer { .. } = buffer;
    store_held(mem, &held)
}

/// Puts a document in place of a node's own. `alike` says whether both need the same number of blocks. `Halt` comes only where no access is left.
pub fn exchange<M: Memory>(mem: &mut M, node: u64, doc: &Doc<'_>, alike: bool) -> Result<(), Halt>
    requires { IsStorable M.Memory mem.old (λ ws. CanExchange ws node alike (unpacked doc.now.len doc.now.words.now)) }
    ensures { Changes M.Memory mem.old mem.new result (λ _ old now. now ≡ with_rewritten (unpacked doc.now.len doc.now.words.now) node old) }
{
    if alike {
        refit(mem, node, doc)
    } else {
        rewrite(mem, node, doc)
    }
}

//! A pair is taken out.

ghost use Rattle.std.specs.Prelude.{◌≡◌, ◌-◌, IfOk};
ghost use Rattle.cx_base.specs.Calls.{Changes};
ghost use Rattle.cx_base.specs.Memory.{Becomes};
ghost use Rattle.cx_base.specs.Packing.{unpacked};
ghost use Rattle.avl_words.specs.Lines.{IsStorable};
ghost use Rattle.index_validation.specs.Layout.{IsIndex};
ghost use Rattle.word_index.specs.Exact.{is_key_in, with_key_removed};
ghost use Rattle.word_index.specs.Removal.{CanCut, Cuts, TakesOut};
ghost use Rattle.word_index.specs.Walk.{FewVisits, Walked};

use crate::given_pairs::give_pair;
use crate::texts::Key;
use crate::walk::seek_place;
use avl_words::{Way, put, take_node, word};
use cx_base::{Halt, Memory, Steps};
use std::sync::ledger::Ledger;
use write_buffer::{Held, WriteBuffer, store_held};

/// Takes the node at the end of a way out of the tree.
fn cut<M: Memory>(mem: &mut M, way: &mut Way, node: u64) -> Result<(), Halt>
    requires { IsStorable M.Memory mem.old (λ ws. CanCut ws way.old.nodes way.old.sides way.old.depth node) }
    ensures { Changes M.Memory mem.old mem.new result (λ _. Cuts way.old.nodes way.old.sides way.old.depth node) }
{
    take_node(mem, way, node)?;
    let pairs = word(mem, 0, 5)?;
    put(mem, 0, 5, pairs - 1)?;
    Ok(())
}

/// Takes the node at the end of a way out of the tree, and gives its lines back.
fn cut_pair<M: Memory>(mem: &mut M, way: &mut Way, node: u64) -> Result<(), Halt>
    requires { IsStorable M.Memory mem.old (λ ws. CanCut ws way.old.nodes way.old.sides way.old.depth node) }
    ensures { Changes M.Memory mem.old mem.new result (λ _. TakesOut way.old.nodes way.old.sides way.old.depth node) }
{
    cut(mem, way, node)?;
    give_pair(mem, node)?;
    Ok(())
}

/// Takes a pair out over a write buffer. The buffer's room covers each change in at most 16,384 lines, so that there each word that changes is stored once.
/// `Halt` comes only where no access is left; the words may then be anything.
fn take_out<M: Memory>(mem: &mut M, way: &mut Way, node: u64) -> Result<(), Halt>
    requires { IsStorable M.Memory mem.old (λ ws. CanCut ws way.old.nodes way.old.sides way.old.depth node) }
    ensures { Changes M.Memory mem.old mem.new result (λ _. TakesOut way.old.nodes way.old.sides way.old.depth node) }
{
    let mut held = Held::none();
    let mut buffer = WriteBuffer::over(mem, node, &mut held);
    cut_pair(&mut buffer, way, node)?;
    let WriteBuffer { .. } = buffer;
    store_held(mem, &held)
}

/// Takes the pair of a key out, and says whether the key was there. `Halt` comes only where no access is left; the
/// words may then be anything. The bound on visits is said as for `insert`.
pub fn remove<M: Memory, L: Ledger>(
    mem: &mut M,
    key: &Key,
    visits: &mut Steps<L>,
) -> Result<bool, Halt>
    requires { IsStorable M.Memory mem.old IsIndex }
    ensures changes { Changes M.Memory mem.old mem.new result (λ there old now. (there ≡ is_key_in (unpacked key.now.len key.now.words) old) × (now ≡ with_key_removed (unpacked key.now.len key.now.words) old)) }
    ensures visits { IfOk result (λ _. Becomes (M.stands mem.old) (M.stands mem.new) (λ old now. FewVisits (visits.new - visits.old) old)) }
    ensures walked { Walked (M.stands mem.old) (visits.new - visits.old) }
{
    let mut way = Way::none();
    let end = seek_place(mem, key, visits, &mut way)?;
    if end.node == 0 {
        return Ok(false);
    }
    take_out(mem, &mut way, end.node)?;
    Ok(true)
}

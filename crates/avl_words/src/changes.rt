//! A node is put where a walk ended, or the node there is taken out.

ghost use Rattle.std.specs.Prelude.{◌≢◌};
ghost use Rattle.cx_base.specs.Calls.{Changes, Finds};
ghost use Rattle.avl_words.specs.Changes.{CanPut, PutsNode, CanTakeNode, TakesNode, HasTwo, CanDescend, Descends, RaisesNode};
ghost use Rattle.avl_words.specs.Lines.{IsLoadable, IsStorable};

use crate::blocks::{put_new, word};
use crate::links::{Subtree, height_of};
use crate::replacement::{Way, mend};
use cx_base::{Halt, Memory};

/// Puts a leaf where a walk ended at nothing, and balances the tree. `Halt` comes only where no access is left.
pub fn put_node<M: Memory>(mem: &mut M, way: &Way, node: u64) -> Result<(), Halt>
    requires { IsStorable M.Memory mem.old (λ ws. CanPut ws way.now.nodes way.now.sides way.now.depth node) }
    ensures { Changes M.Memory mem.old mem.new result (λ _. PutsNode way.now.nodes way.now.sides way.now.depth node) }
{
    let leaf = Subtree {
        root: node,
        height: 1,
    };
    let top = mend(mem, way, way.depth, leaf)?;
    put_new(mem, 0, 1, top)?;
    Ok(())
}

/// Notes the way from a node down to the least node below it, and gives that node.
fn descend<M: Memory>(mem: &mut M, way: &mut Way, node: u64) -> Result<u64, Halt>
    requires { IsLoadable M.Memory mem.old (λ ws. CanDescend ws way.old.nodes way.old.sides way.old.depth node) }
    ensures { Finds M.Memory mem.old mem.new result (λ least. Descends way.old.nodes way.old.sides way.old.depth node way.new.nodes way.new.sides way.new.depth least) }
{
    let mut least = node;
    for depth in way.depth..64 {
        let left = word(mem, least, 0)?;
        if left == 0 {
            way.depth = depth;
            return Ok(least);
        }
        way.nodes[depth] = least;
        way.sides[depth] = 0;
        least = left;
    }
    way.depth = 64;
    Ok(least)
}

/// The least node behind a node with two children takes its place on the way, and the way goes on down to what is left
/// of it, which is given.
fn next_up<M: Memory>(
    mem: &mut M,
    way: &mut Way,
    node: u64,
    left: u64,
    right: u64,
) -> Result<u64, Halt>
    requires memory { IsStorable M.Memory mem.old (λ ws. HasTwo ws way.old.nodes way.old.sides way.old.depth node left right) }
    requires some { (left ≢ 0) × (right ≢ 0) }
    ensures { Changes M.Memory mem.old mem.new result (λ rest. RaisesNode way.old.nodes way.old.sides way.old.depth node left right way.new.nodes way.new.sides way.new.depth rest) }
{
    let at = way.depth;
    way.nodes[at] = node;
    way.sides[at] = 1;
    way.depth = at + 1;
    let least = descend(mem, way, right)?;
    way.nodes[at] = least;
    let rest = word(mem, least, 1)?;
    put_new(mem, least, 0, left)?;
    Ok(rest)
}

/// What is to hang at the end of the way in place of a node: its one child, or what is left of the least node behind it.
fn hung_up<M: Memory>(
    mem: &mut M,
    way: &mut Way,
    node: u64,
    left: u64,
    right: u64,
) -> Result<u64, Halt>
    requires { IsStorable M.Memory mem.old (λ ws. HasTwo ws way.old.nodes way.old.sides way.old.depth node left right) }
    ensures { Changes M.Memory mem.old mem.new result (λ rest. RaisesNode way.old.nodes way.old.sides way.old.depth node left right way.new.nodes way.new.sides way.new.depth rest) }
{
    if left == 0 {
        return Ok(right);
    }
    if right == 0 {
        return Ok(left);
    }
    next_up(mem, way, node, left, right)
}

/// Takes the node of a walk's end out, and balances the tree: its one child takes its place, or the least node behind it
/// does, whose own place its right child takes. Words 0 to 2 of the node's own line stay as they are. `Halt` comes only where no access is left.
pub fn take_node<M: Memory>(mem: &mut M, way: &mut Way, node: u64) -> Result<(), Halt>
    requires { IsStorable M.Memory mem.old (λ ws. CanTakeNode ws way.old.nodes way.old.sides way.old.depth node) }
    ensures { Changes M.Memory mem.old mem.new result (λ _. TakesNode way.old.nodes way.old.sides way.old.depth node) }
{
    let left = word(mem, node, 0)?;
    let right = word(mem, node, 1)?;
    let settled = way.depth;
    let root = hung_up(mem, way, node, left, right)?;
    let height = height_of(mem, root)?;
    let top = mend(mem, way, settled, Subtree { root, height })?;
    put_new(mem, 0, 1, top)?;
    Ok(())
}

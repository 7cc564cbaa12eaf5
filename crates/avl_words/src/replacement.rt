//! A tree takes another's place at the end of a way down.

ghost use Rattle.std.specs.Prelude.{◌≡◌, ◌<◌, ◌≤◌, length};
ghost use Rattle.cx_base.specs.Calls.{Changes};
ghost use Rattle.avl_words.specs.Lines.{IsStorable};
ghost use Rattle.avl_words.specs.Mending.{CanHang, Hangs, CanRelink, Relinks, CanMend, Mends};

use crate::blocks::{put_new, word};
use crate::links::{Subtree, below, join};
use cx_base::{Halt, Memory};

/// The nodes passed on a way down, and the side taken at each: 0 is the left.
#[derive(Clone, Copy, Debug)]
pub struct Way {
    pub nodes: [u64; 64],
    pub sides: [u64; 64],
    pub depth: usize,
    pub ghost long: { (length nodes ≡ 64) × (length sides ≡ 64) },
    pub ghost few: { depth ≤ 64 },
}

impl Way {
    /// A way of no nodes.
    pub fn none() -> Way
        ensures { result.depth ≡ 0 }
    {
        Way {
            nodes: [0; 64],
            sides: [0; 64],
            depth: 0,
        }
    }
}

/// Hangs a tree at a side of a node, and balances it. Gives the tree on top. `Halt` comes only where no access is left.
pub fn hang<M: Memory>(mem: &mut M, node: u64, side: u64, child: Subtree) -> Result<Subtree, Halt>
    requires memory { IsStorable M.Memory mem.old (λ ws. CanHang ws node side child.root child.height) }
    requires side { side < 2 }
    ensures { Changes M.Memory mem.old mem.new result (λ top. Hangs node side child.root top.root top.height) }
{
    let sibling = below(mem, node, 1 - side)?;
    if side == 0 {
        let top = join(mem, node, child, sibling)?;
        Ok(top)
    } else {
        let top = join(mem, node, sibling, child)?;
        Ok(top)
    }
}

/// Links a tree to the end of the first `depth` nodes of a way, which stand for a tree as high as it. Gives the node on top of all.
fn relink<M: Memory>(mem: &mut M, way: &Way, depth: usize, node: u64) -> Result<u64, Halt>
    requires memory { IsStorable M.Memory mem.old (λ ws. CanRelink ws way.now.nodes way.now.sides depth node) }
    requires depth { depth ≤ 64 }
    ensures { Changes M.Memory mem.old mem.new result (λ top. Relinks way.now.nodes way.now.sides depth node top) }
{
    if depth == 0 {
        return Ok(node);
    }
    put_new(mem, way.nodes[depth - 1], way.sides[depth - 1], node)?;
    Ok(way.nodes[0])
}

/// Hangs a tree at the end of a way, and balances each node of the way. Gives the node on top of all. The first
/// `settled` nodes of the way stand as they did before the change: where one of them has the height that it had, those
/// above it stay as they are. `Halt` comes only where no access is left.
pub fn mend<M: Memory>(mem: &mut M, way: &Way, settled: usize, tree: Subtree) -> Result<u64, Halt>
    requires { IsStorable M.Memory mem.old (λ ws. CanMend ws way.now.nodes way.now.sides way.now.depth settled tree.root tree.height) }
    ensures { Changes M.Memory mem.old mem.new result (λ top. Mends way.now.nodes way.now.sides way.now.depth settled tree.root tree.height top) }
{
    let mut top = tree;
    for i in 0..way.depth {
        let last = way.depth - i - 1;
        let high = word(mem, way.nodes[last], 2)?;
        top = hang(mem, way.nodes[last], way.sides[last], top)?;
        if last < settled && top.height == high {
            let root = relink(mem, way, last, top.root)?;
            return Ok(root);
        }
    }
    Ok(top.root)
}

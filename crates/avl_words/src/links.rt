//! Links and heights of nodes, and how a node is balanced.

ghost use Rattle.std.specs.Prelude.{◌≡◌, ◌≢◌, ◌+◌, ◌<◌, max, IfOk};
ghost use Rattle.cx_base.specs.Calls.{Changes, Finds};
ghost use Rattle.avl_words.specs.Lines.{IsLoadable, IsStorable, IsWithin};
ghost use Rattle.avl_words.specs.Links.{high_of, with_node, CanSet, HasLink, IsSubtree, CanRotate, Rotates, CanJoin, Joins};

use crate::blocks::{put_new, word};
use cx_base::{Halt, Memory};

/// A tree of lines: the line of its root, 0 for none, and its height.
#[derive(Clone, Copy, Debug, PartialEq, Eq)]
pub struct Subtree {
    pub root: u64,
    pub height: u64,
}

/// The height of the tree below a link. `Halt` comes only where no access is left.
pub fn height_of<M: Memory>(mem: &mut M, node: u64) -> Result<u64, Halt>
    requires { IsLoadable M.Memory mem.old (λ ws. node ≢ 0 → IsWithin ws node) }
    ensures { Finds M.Memory mem.old mem.new result (λ h ws. high_of node ws ≡ h) }
{
    if node == 0 { Ok(0) } else { word(mem, node, 2) }
}

/// The tree below the link at a side of a node. `Halt` comes only where no access is left.
pub fn below<M: Memory>(mem: &mut M, node: u64, side: u64) -> Result<Subtree, Halt>
    requires memory { IsLoadable M.Memory mem.old (λ ws. HasLink ws node side) }
    requires side { side < 2 }
    ensures { Finds M.Memory mem.old mem.new result (λ t. IsSubtree node side t.root t.height) }
{
    let root = word(mem, node, side)?;
    let height = height_of(mem, root)?;
    Ok(Subtree { root, height })
}

/// Gives a node its children, the first at a side, and its height. `Halt` comes only where no access is left.
pub fn set_node<M: Memory>(
    mem: &mut M,
    node: u64,
    side: u64,
    a: Subtree,
    b: Subtree,
) -> Result<Subtree, Halt>
    requires memory { IsStorable M.Memory mem.old (λ ws. CanSet ws node a.root a.height b.root b.height) }
    requires side { side < 2 }
    ensures changes { Changes M.Memory mem.old mem.new result (λ _ old now. now ≡ with_node node side a.root b.root old) }
    ensures root { IfOk result (λ top. top.root ≡ node) }
    ensures height { IfOk result (λ top. top.height ≡ 1 + max a.height b.height) }
{
    let height = 1 + a.height.max(b.height);
    put_new(mem, node, side, a.root)?;
    put_new(mem, node, 1 - side, b.root)?;
    put_new(mem, node, 2, height)?;
    Ok(Subtree { root: node, height })
}

/// A child at a side, which is two higher than the other child, goes up, or its own child at the other side does.
/// Gives the tree on top. `Halt` comes only where no access is left.
pub fn rotate<M: Memory>(
    mem: &mut M,
    node: u64,
    side: u64,
    child: u64,
    low: Subtree,
) -> Result<Subtree, Halt>
    requires memory { IsStorable M.Memory mem.old (λ ws. CanRotate ws node side child low.root low.height) }
    requires side { side < 2 }
    ensures { Changes M.Memory mem.old mem.new result (λ top. Rotates node side child low.root top.root top.height) }
{
    let outer = below(mem, child, side)?;
    let inner = below(mem, child, 1 - side)?;
    if inner.height <= outer.height {
        let lower = set_node(mem, node, side, inner, low)?;
        let top = set_node(mem, child, side, outer, lower)?;
        Ok(top)
    } else {
        let near = below(mem, inner.root, side)?;
        let far = below(mem, inner.root, 1 - side)?;
        let first = set_node(mem, child, side, outer, near)?;
        let second = set_node(mem, node, side, far, low)?;
        let top = set_node(mem, inner.root, side, first, second)?;
        Ok(top)
    }
}

/// Balances a node where its children's heights differ by two, and sets its height. Gives the tree on top. `Halt` comes only where no access is left.
pub fn join<M: Memory>(
    mem: &mut M,
    node: u64,
    left: Subtree,
    right: Subtree,
) -> Result<Subtree, Halt>
    requires { IsStorable M.Memory mem.old (λ ws. CanJoin ws node left.root left.height right.root right.height) }
    ensures { Changes M.Memory mem.old mem.new result (λ top. Joins node left.root right.root top.root top.height) }
{
    if left.height + 2 <= right.height {
        let top = rotate(mem, node, 1, right.root, left)?;
        return Ok(top);
    }
    if right.height + 2 <= left.height {
        let top = rotate(mem, node, 0, left.root, right)?;
        return Ok(top);
    }
    let top = set_node(mem, node, 0, left, right)?;
    Ok(top)
}

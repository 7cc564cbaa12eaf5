//! A walk over the nodes of a tree in order.

ghost use Rattle.std.specs.Prelude.{◌≡◌, ◌≤◌, ◌∷◌, ◌++◌};
ghost use Rattle.index_validation.specs.Order.{nodes_in_order, to_come, HasTree, AreNoted};
ghost use Rattle.avl_words.specs.Lines.{IsWithin};

use crate::words::word_at;

/// A walk over the nodes of a tree in order: the nodes whose left subtrees are passed, the next one last.
#[derive(Clone, Copy, Debug)]
pub struct InOrder {
    pub nodes: [u64; 64],
    pub depth: usize,
}

impl InOrder {
    /// Before the first node of the tree below a link.
    pub fn of(words: &[u64], root: u64) -> InOrder
        requires { HasTree words.now root 0 }
        ensures noted { AreNoted words.now result.nodes result.depth }
        ensures all { to_come words.now result.nodes result.depth ≡ nodes_in_order root words.now }
    {
        let mut nodes = [0; 64];
        let depth = descend(words, &mut nodes, 0, root);
        InOrder { nodes, depth }
    }

    /// The next node.
    pub fn next_node(&mut self, words: &[u64]) -> u64
        requires noted { AreNoted words.now self.old.nodes self.old.depth }
        requires some { 1 ≤ self.old.depth }
        ensures there { (1 ≤ result) × IsWithin words.now result }
        ensures noted { AreNoted words.now self.new.nodes self.new.depth }
        ensures next { to_come words.now self.old.nodes self.old.depth ≡ result ∷ to_come words.now self.new.nodes self.new.depth }
    {
        let depth = self.depth - 1;
        let node = self.nodes[depth];
        self.depth = descend(words, &mut self.nodes, depth, word_at(words, node, 1));
        node
    }
}

/// Notes the nodes on the way to the least one below a link.
fn descend(words: &[u64], nodes: &mut [u64; 64], depth: usize, from: u64) -> usize
    requires noted { AreNoted words.now nodes.old depth }
    requires tree { HasTree words.now from depth }
    ensures noted { AreNoted words.now nodes.new result }
    ensures next { to_come words.now nodes.new result ≡ nodes_in_order from words.now ++ to_come words.now nodes.old depth }
{
    let mut depth = depth;
    let mut node = from;
    while node != 0 {
        nodes[depth] = node;
        depth += 1;
        node = word_at(words, node, 0);
    }
    depth
}

//! Words with the shape of a tree, and words without.

ghost use Rattle.std.specs.Prelude.{length};
ghost use Rattle.index_validation.specs.Order.{HasTree};
ghost use Rattle.avl_words.specs.Lines.{IsPartLength};

use crate::holds::holds;
use index_validation::{InOrder, is_balanced};

// Four lines, counted from 0: line 2 is a node over lines 1 and 3.
const TREE: [u64; 32] = [
    0, 2, 0, 0, 0, 0, 0, 0, // the header
    0, 0, 1, 0, 0, 0, 0, 0, // a leaf
    1, 3, 2, 0, 0, 0, 0, 0, // the root
    0, 0, 1, 0, 0, 0, 0, 0, // a leaf
];

// The line of a root, a number of nodes, and whether a tree of that many nodes is below this root.
const SHAPES: [(u64, u32, bool); 9] = [
    // no root
    (0, 0, true),
    (0, 1, false),
    // a leaf
    (1, 1, true),
    // the root of a tree of three nodes
    (2, 0, false),
    (2, 2, false),
    (2, 3, true),
    (2, 4, false),
    // lines that there are not
    (4, 1, false),
    (u64::MAX, 1, false),
];

// The number of the first row (a root, a number of nodes, and whether they are a tree) of which `is_balanced` does not say so; `None` where there is
// none.
fn first_other_shape(words: &[u64], rows: &[(u64, u32, bool)]) -> Option<usize>
    requires { IsPartLength (length words.now) }
{
    for (i, (root, count, truth)) in rows.iter().enumerate() {
        if is_balanced(words, *root, *count as u64) != *truth {
            return Some(i);
        }
    }
    None
}

// Whether a walk over the tree with its root in line 2 is over lines 1, 2 and 3, in this order, and then ends.
fn are_walked(words: &[u64]) -> bool
    requires sized { IsPartLength (length words.now) }
    requires tree { HasTree words.now 2 0 }
{
    let mut walk = InOrder::of(words, 2);
    for line in 1..4 {
        if walk.depth == 0 || walk.next_node(words) != line {
            return false;
        }
    }
    walk.depth == 0
}

#[test]
fn shapes_are_found_and_walked(rt: HostRuntime) {
    holds(&rt, first_other_shape(&TREE, &SHAPES).is_none());
    holds(&rt, is_balanced(&TREE, 2, 3) && are_walked(&TREE));
}

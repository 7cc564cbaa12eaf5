//! Whether words have the shape of a balanced tree.

ghost use Rattle.std.specs.Prelude.{◌≡◌, ◌≢◌, ◌+◌, ◌^◌, ◌<◌, ◌≤◌, ◌↔◌, IsTrue, slice_set};
ghost use Rattle.std.specs.Bool.{MatchBool};
ghost use Rattle.index_validation.specs.Shape.{HasShape, IsGood};
ghost use Rattle.avl_words.specs.Links.{high_of};

use crate::words::{high_at, word_at};

/// Whether a node is right as far as its own line and its children's heights say.
fn is_good(words: &[u64], line: u64) -> bool
    ensures { MatchBool result (IsGood words.now line) (IsGood words.now line → ⊥) }
{
    if line == 0 || (words.len() / 8) as u64 <= line {
        return false;
    }
    let left = high_at(words, word_at(words, line, 0));
    let right = high_at(words, word_at(words, line, 1));
    let high = left.max(right);
    let low = left.min(right);
    let height = word_at(words, line, 2);
    high < height && height - high == 1 && high - low <= 1
}

/// Puts a line on the stack, where it is one.
fn push(stack: &mut [u64; 66], depth: usize, line: u64) -> usize
    requires { depth < 66 }
    ensures none { line ≡ 0 → (result ≡ depth) × (stack.new ≡ stack.old) }
    ensures some { line ≢ 0 → (result ≡ depth + 1) × (stack.new ≡ slice_set stack.old depth line) }
{
    if line == 0 {
        return depth;
    }
    stack[depth] = line;
    depth + 1
}

/// Whether a balanced tree of `count` nodes stands below a line whose height is at most 64. Each turn looks at one
/// node, and its children wait on the stack. Heights fall on each way down, so no way is a ring.
fn shape_at(words: &[u64], root: u64, count: u64) -> bool
    requires { high_of root words.now ≤ 64 }
    ensures { MatchBool result (HasShape words.now root count) (HasShape words.now root count → ⊥) }
{
    let mut stack = [0; 66];
    let mut depth = push(&mut stack, 0, root);
    for _ in 0..count {
        if depth == 0 {
            return false;
        }
        depth -= 1;
        let node = stack[depth];
        if !is_good(words, node) {
            return false;
        }
        depth = push(&mut stack, depth, word_at(words, node, 1));
        depth = push(&mut stack, depth, word_at(words, node, 0));
    }
    depth == 0
}

/// Whether a balanced tree of `count` nodes stands below a line, whatever the words are. It looks at that many nodes at
/// most. A line may stand in the tree more than once.
pub fn is_balanced(words: &[u64], root: u64, count: u64) -> bool
    requires { count < 2 ^ 32 }
    ensures { IsTrue result ↔ HasShape words.now root count }
{
    if high_at(words, root) > 64 {
        return false;
    }
    shape_at(words, root, count)
}

//! Lines of a pair are given back.

ghost use Rattle.std.specs.Prelude.{◌≡◌, ◌<◌, IfOk};
ghost use Rattle.cx_base.specs.Calls.{Changes};
ghost use Rattle.cx_base.specs.Memory.{Becomes};
ghost use Rattle.avl_words.specs.Lines.{IsStorable};
ghost use Rattle.word_index.specs.Changes.{LooseText, TextGiven, HasLoosePair, PairGiven};
ghost use Rattle.word_index.specs.Exact.{with_text_given, with_pair_given};

use crate::given_back::{give_back, give_chain};
use avl_words::word;
use cx_base::{Halt, Memory};

/// Gives back the blocks that a node names by its words `at` and `at + 1`. `Halt` comes only where no access is left.
pub fn give_text<M: Memory>(mem: &mut M, node: u64, at: u64) -> Result<(), Halt>
    requires memory { IsStorable M.Memory mem.old (λ ws. LooseText ws node at) }
    requires at { at < 7 }
    ensures changes { Changes M.Memory mem.old mem.new result (λ _. TextGiven node at) }
    ensures exact { IfOk result (λ _. Becomes (M.stands mem.old) (M.stands mem.new) (λ old now. now ≡ with_text_given node at old)) }
{
    let first = word(mem, node, at)?;
    let len = word(mem, node, at + 1)?;
    give_chain(mem, first, len.div_ceil(56))
}

/// Gives back the node and the blocks of a pair that is out of the nodes. `Halt` comes only where no access is left.
pub fn give_pair<M: Memory>(mem: &mut M, node: u64) -> Result<(), Halt>
    requires { IsStorable M.Memory mem.old (λ ws. HasLoosePair ws node) }
    ensures changes { Changes M.Memory mem.old mem.new result (λ _. PairGiven node) }
    ensures exact { IfOk result (λ _. Becomes (M.stands mem.old) (M.stands mem.new) (λ old now. now ≡ with_pair_given node old)) }
{
    give_text(mem, node, 5)?;
    give_text(mem, node, 3)?;
    give_back(mem, node)
}

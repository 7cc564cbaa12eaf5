//! What is asked of an index by a key.

ghost use Rattle.std.specs.Prelude.{◌≡◌, ◌-◌, ℕ, List, replicate};
ghost use Rattle.cx_base.specs.Calls.{Finds};
ghost use Rattle.cx_base.specs.Packing.{unpacked};
ghost use Rattle.cx_base.specs.Store.{Store};
ghost use Rattle.doc_model.specs.Meaning.{pairs_above};
ghost use Rattle.avl_words.specs.Lines.{IsLoadable};
ghost use Rattle.index_validation.specs.Layout.{IsIndex, StandsFor};
ghost use Rattle.word_index.specs.Answers.{IsFoundIn, IsLeast, IsNodeOf, IsPackOf};
ghost use Rattle.word_index.specs.Walk.{HasNode, Walks};

use crate::blocks::read_text;
use crate::nodes::key_at;
use crate::texts::Key;
use crate::walk::reach;
use cx_base::{Halt, Memory, Steps};
use std::sync::ledger::Ledger;

/// The node of a key, whose word 7 is the key's revision: `None` exactly where the key is not there. `Halt` comes only where no access is left.
pub fn find<M: Memory, L: Ledger>(
    mem: &mut M,
    key: &Key,
    visits: &mut Steps<L>,
) -> Result<Option<u64>, Halt>
    requires { IsLoadable M.Memory mem.old IsIndex }
    ensures { Walks M.Memory mem.old mem.new result (visits.new - visits.old) (λ found ws. IsFoundIn ws (unpacked key.now.len key.now.words) found) }
{
    let end = reach(mem, key, false, visits)?;
    if end.node == 0 {
        Ok(None)
    } else {
        Ok(Some(end.node))
    }
}

/// The least key above a key: `None` exactly where there is none. `Halt` comes only where no access is left.
pub fn least_above<M: Memory, L: Ledger>(
    mem: &mut M,
    key: &Key,
    visits: &mut Steps<L>,
) -> Result<Option<Key>, Halt>
    requires { IsLoadable M.Memory mem.old IsIndex }
    ensures { Walks M.Memory mem.old mem.new result (visits.new - visits.old) (λ found ws. (version : ℕ) (store : Store) → StandsFor ws version store → IsLeast found (pairs_above (unpacked key.now.len key.now.words) store)) }
{
    let end = reach(mem, key, true, visits)?;
    if end.above == 0 {
        return Ok(None);
    }
    let key = key_at(mem, end.above)?;
    Ok(Some(key))
}

/// Reads the packed document of a node that `find` gave on these words into words that are 0, and gives the number of its bytes.
/// `Halt` comes only where no access is left.
pub fn read_document<M: Memory>(mem: &mut M, node: u64, into: &mut [u64]) -> Result<u64, Halt>
    requires memory { IsLoadable M.Memory mem.old (λ ws. HasNode ws node) }
    requires zero { into.old ≡ replicate 128 0 }
    ensures { Finds M.Memory mem.old mem.new result (λ len ws. (pair : List ℕ × List ℕ) → IsNodeOf ws node pair → IsPackOf 128 len into.new pair.1) }
{
    read_text(mem, node, 5, into)
}

//! A walk down the tree to the place of a key.

ghost use Rattle.std.specs.Prelude.{◌≡◌, ◌-◌, false};
ghost use Rattle.std.specs.declared.cmp.Ordering.TheVariants.{Less, Greater};
ghost use Rattle.cx_base.specs.Calls.{Finds};
ghost use Rattle.cx_base.specs.Packing.{unpacked};
ghost use Rattle.avl_words.specs.Lines.{IsLoadable};
ghost use Rattle.index_validation.specs.Layout.{IsIndex};
ghost use Rattle.word_index.specs.Walk.{AtEnd, AtSpot, VisitsFew, Walks, toward};

use crate::nodes::order_at;
use crate::texts::Key;
use avl_words::{Way, word};
use cx_base::{Halt, Memory, Steps};
use std::cmp::Ordering;
use std::sync::ledger::Ledger;

/// Where a walk ended: the node there (0 for none), and the last node at which the walk went left.
#[derive(Clone, Copy, Debug)]
pub struct End {
    pub node: u64,
    pub above: u64,
}

/// How the walk takes a node; past a key it takes the node of the key for one below it.
fn toward(past: bool, order: Ordering) -> Ordering
    ensures { result ≡ toward past order }
{
    if past && order.is_eq() {
        Ordering::Less
    } else {
        order
    }
}

/// The side of a node on which the walk goes on: 0 is the left.
fn side_of(order: Ordering) -> u64
    ensures less { order ≡ Less → result ≡ 1 }
    ensures more { order ≡ Greater → result ≡ 0 }
{
    match order {
        Ordering::Less => 1,
        Ordering::Equal | Ordering::Greater => 0,
    }
}

/// The last node at which the walk went left, after one more step.
fn above_after(side: u64, node: u64, above: u64) -> u64
    ensures left { side ≡ 0 → result ≡ node }
    ensures right { side ≡ 1 → result ≡ above }
{
    if side == 0 { node } else { above }
}

/// Walks to the place of a key, or past it, and keeps no way, which a reading does not need. `Halt` comes only where no access is left.
pub fn reach<M: Memory, L: Ledger>(
    mem: &mut M,
    key: &Key,
    past: bool,
    visits: &mut Steps<L>,
) -> Result<End, Halt>
    requires { IsLoadable M.Memory mem.old IsIndex }
    ensures { Walks M.Memory mem.old mem.new result (visits.new - visits.old) (λ end. AtEnd past (unpacked key.now.len key.now.words) end.node end.above) }
{
    let mut above = 0;
    let mut node = word(mem, 0, 1)?;
    for _depth in 0..64_u64 {
        if node == 0 {
            return Ok(End { node, above });
        }
        let order = toward(past, order_at(mem, node, key, visits)?);
        if order.is_eq() {
            return Ok(End { node, above });
        }
        let side = side_of(order);
        above = above_after(side, node, above);
        node = word(mem, node, side)?;
    }
    Ok(End { node, above })
}

/// Walks to the place of a key, or past it, and keeps the way down. A visit is one node whose key is compared.
fn seek<M: Memory, L: Ledger>(
    mem: &mut M,
    key: &Key,
    past: bool,
    visits: &mut Steps<L>,
    way: &mut Way,
) -> Result<End, Halt>
    requires { IsLoadable M.Memory mem.old IsIndex }
    ensures { Walks M.Memory mem.old mem.new result (visits.new - visits.old) (λ end. AtSpot past (unpacked key.now.len key.now.words) way.new.nodes way.new.sides way.new.depth end.node end.above) }
{
    let mut above = 0;
    let mut node = word(mem, 0, 1)?;
    for depth in 0..64 {
        if node == 0 {
            way.depth = depth;
            return Ok(End { node, above });
        }
        let order = toward(past, order_at(mem, node, key, visits)?);
        if order.is_eq() {
            way.depth = depth;
            return Ok(End { node, above });
        }
        let side = side_of(order);
        way.nodes[depth] = node;
        way.sides[depth] = side;
        above = above_after(side, node, above);
        node = word(mem, node, side)?;
    }
    way.depth = 64;
    Ok(End { node, above })
}

/// Walks to the place of a key that is put in or taken out, and keeps the way down. Whether it halts or not, its visits are few for words that
/// may have been there. `Halt` comes only where no access is left.
pub fn seek_place<M: Memory, L: Ledger>(
    mem: &mut M,
    key: &Key,
    visits: &mut Steps<L>,
    way: &mut Way,
) -> Result<End, Halt>
    requires { IsLoadable M.Memory mem.old IsIndex }
    ensures finds { Finds M.Memory mem.old mem.new result (λ end. AtSpot false (unpacked key.now.len key.now.words) way.new.nodes way.new.sides way.new.depth end.node end.above) }
    ensures visits { VisitsFew M.Memory mem.old mem.new (visits.new - visits.old) }
{
    seek(mem, key, false, visits, way)
}

//! What a closed table leaves.

use atomic_table::Seat;
use cx_core::Base;
use std::marker::Model;
use std::snapshot::Snapshot;
use table_invariant::View;

/// What a table was: which one, the base that it was made with, its history, the chain of codes with which it ended, and
/// the local states that its callers ended with. It has no bytes, only `gather` makes one, and it cannot be copied.
#[derive(Drop)]
pub struct Trail {
    pub(crate) closing: Snapshot<Seat<u8, View>>,
    pub(crate) base: Snapshot<Base>,
    pub(crate) chain: Snapshot<Vec<u64>>,
}

impl Model for Trail {
    ghost use Rattle.cx_core.specs.Merge.{history_of};
    ghost use Rattle.table_invariant.specs.Ending.{Ending, locals_known};

    ghost Value = { Ending };

    ghost view = { λ t. record { table = t.closing.value.table_id; base = t.base.value; history = history_of t.base.value.place (locals_known t.closing.value.me.0); chain = t.chain.value.items; locals = locals_known t.closing.value.me.0 } };
}

/// What a closed table leaves: its number of callers, the lines of its object, and the place of its base; the codes
/// published from the durable one on, in rising order; of each word of the replicas, one after another, the value that a
/// load gives, the value that the medium has, and whether it is dirty; and the trail.
#[derive(Drop)]
pub struct Remains {
    pub callers: u32,
    pub lines: u64,
    pub first: u64,
    pub published: Vec<u64>,
    pub volatile: Vec<u64>,
    pub durable: Vec<u64>,
    pub dirty: Vec<bool>,
    pub trail: Trail,
}

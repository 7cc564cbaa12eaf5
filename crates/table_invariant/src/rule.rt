//! The rule of the table: its words and the local states that its seats know are a lawful state of the core.

use atomic_table::TableRule;
use core_queue::SetNoted;
use cx_base::{Items, Object};
use cx_core::{Base, Local};
use std::marker::PhantomData;
use std::snapshot::Snapshot;

/// A word of an entry that a caller read: the ticket and the caller of the entry, and which of its words it is.
#[derive(Clone, Copy, Debug, PartialEq, Eq, Drop)]
pub struct Noted {
    pub ticket: u64,
    pub caller: u64,
    pub index: u64,
    pub word: u64,
}

/// When an image was begun and taken, by how many steps its caller had made, and how far it reaches. It exists in proofs alone.
#[derive(Drop)]
pub struct ImageTimes {
    /// The steps made before the load of CUR that began it.
    pub begun: u64,
    /// The steps made with the one that took it.
    pub ended: u64,
    /// The place of the code last found in CUR by then.
    pub place: u64,
    /// The place of the greatest code that the caller had raised DUR by.
    pub durable: u64,
}

/// When the operations of a caller began and were answered, by how many steps the caller had made. It exists in proofs alone.
#[derive(Drop)]
pub struct Times {
    /// For each own entry, the steps made before the one that linked it.
    pub linked: Items<u64>,
    /// For each answer to an own entry, the steps made with the one that answered it.
    pub answered: Items<u64>,
    /// The steps made before the load of CUR since which what was seen of CUR may answer a read.
    pub loaded: u64,
    /// Whether CUR was so loaded.
    pub seen: bool,
    /// For each read that was answered, the steps made before that load, and those made with the step that answered it.
    pub reads: Items<(u64, u64)>,
    /// For each image that was taken once CUR was loaded.
    pub images: Items<ImageTimes>,
}

/// A write set of the caller's own entry with a ticket, which the caller kept in its own memory and offered to nobody. It exists in proofs alone.
#[derive(Drop)]
pub struct KeptSet {
    pub ticket: u64,
    pub set: Items<u64>,
}

/// What a seat knows of one caller: its local state, the words of entries that it read, in order the loads (false) and stores
/// (true) of words of the replica that it holds exclusively, the words of write sets that it read, when its operations began and were answered,
/// the images that it took: all words of a replica that it held shared; and the write sets that it kept. It exists in proofs alone.
#[derive(Drop)]
pub struct Known {
    pub local: Local,
    pub noted: Items<Noted>,
    pub accesses: Items<(bool, u64, u64)>,
    pub sets: Items<SetNoted>,
    pub times: Times,
    pub images: Items<Items<u64>>,
    pub kept: Items<KeptSet>,
}

/// What a seat of the table knows: one item for each caller whose seat it is. A caller's seat has one item, the first
/// seat has all callers', and a seat that was joined to another has none.
pub type View = Items<Known>;

/// What is fixed when a table is made. The limit of caller `c` is item `c` of `limits`.
#[derive(Drop)]
pub struct Key<O> {
    pub callers: u32,
    pub limits: Items<u64>,
    pub base: Snapshot<Base>,
    pub object: Snapshot<O>,
}

/// The rule of a table of an object.
pub struct CoreRule<O> {
    object: PhantomData<O>,
}

impl<O: Object> TableRule<u8, View, Key<O>> for CoreRule<O> {
    ghost use Rattle.table_invariant.specs.Rule.{RuleHolds};
    ghost use Rattle.table_invariant.specs.Seats.{opening_view};

    ghost holds = { λ k. RuleHolds (record { callers = k.callers; base = k.base.value; step = O.step k.object.value; reads = O.only_reads k.object.value }) };

    ghost first = { λ k. opening_view k.callers k.base.value.place k.limits };
}

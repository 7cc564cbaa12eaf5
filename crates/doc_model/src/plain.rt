//! The plain program of the table: a sorted list of pairs.

ghost use Rattle.std.specs.Prelude.{◌≡◌, ◌↔◌, [], IfOk, IsTrue, OnOk, OnErr, length};
ghost use Rattle.cx_base.specs.Store.{KeysRise};
ghost use Rattle.doc_model.specs.Meaning.{reply_to, store_after};
ghost use Rattle.doc_model.specs.Revisions.{empty_store, pairs_in};

use crate::operations::{Op, Pair, Reply};
use crate::table::{self, Table};
use std::alloc::{AllocError, Global};
use std::marker::Model;

/// A store as a list of pairs with rising keys, and the last revision.
#[derive(Drop)]
pub struct Pairs {
    table: Table,
}

impl Model for Pairs {
    ghost use Rattle.cx_base.specs.Store.{KeysRise};
    ghost use Rattle.doc_model.specs.Revisions.{RevisedStore, pairs_in};

    ghost Value = { RevisedStore };

    ghost view = { λ p. p.table };

    ghost invariant = { λ p. KeysRise (pairs_in p.table) };
}

impl Pairs {
    /// The empty store. It takes no memory.
    pub fn new(alloc: Global) -> Self
        ensures { result ≡ empty_store }
    {
        Pairs {
            table: Table {
                pairs: Vec::new(alloc),
                last: 0,
            },
        }
    }

    /// The number of pairs.
    pub fn len(&self) -> usize
        ensures { result ≡ length self.now.triples }
    {
        self.table.pairs.len()
    }

    /// Whether there is no pair.
    pub fn is_empty(&self) -> bool
        ensures { IsTrue result ↔ (self.now.triples ≡ []) }
    {
        self.table.pairs.is_empty()
    }

    /// The last revision that a write gave, and 0 before the first.
    pub fn last(&self) -> u64
        ensures { result ≡ self.now.last }
    {
        self.table.last
    }

    /// The pairs in the order of their keys.
    pub fn as_slice(&self) -> &[Pair]
        ensures all { result.now ≡ self.now.triples }
        ensures rising { KeysRise (pairs_in self.now) }
    {
        &self.table.pairs
    }

    /// Does one operation in a store that has `lines` lines, the first of which holds no pair. An `Err` means out of
    /// memory, and leaves the store as it was.
    pub fn step(&mut self, alloc: Global, lines: u64, op: &Op) -> Result<Reply, AllocError>
        ensures reply { IfOk result (λ reply. reply ≡ reply_to lines self.old op.now) }
        ensures next { OnOk result (self.new ≡ store_after lines self.old op.now) }
        ensures err { OnErr result (self.new ≡ self.old) }
    {
        table::step(&mut self.table, alloc, lines, op)
    }
}

//! Room for the write set of one own entry, which its caller keeps and offers to nobody.

ghost use Rattle.std.specs.Prelude.{◌≡◌, ◌⊎◌, IfOk, IsTrue, None, Some};
ghost use Rattle.caller_cache.specs.Copies.{IsSetList};

use cx_base::SET_WORDS;
use std::alloc::{AllocError, Global};
use std::marker::Model;
use std::mem;

/// The ticket of the entry, where a set is kept, and the words of the set: the number of pairs, then address and value of each.
#[derive(Debug, Drop)]
pub(crate) struct Kept {
    ticket: Option<u64>,
    words: Vec<u64>,
}

impl Model for Kept {
    ghost use Rattle.std.specs.Prelude.{Option};
    ghost use Rattle.std.specs.Option.{option_map};
    ghost use Rattle.caller_cache.specs.Copies.{IsSetList};
    ghost use Rattle.table_invariant.specs.declared.rule.KeptSet.{KeptSet};

    ghost Value = { Option KeptSet };

    ghost view = { λ k. option_map (λ t. record { ticket = t; set = k.words.items }) k.ticket };

    ghost invariant = { λ k. IsSetList k.words.items };
}

impl Kept {
    /// Takes room for a set of 256 pairs, and keeps none. `Err` means out of memory.
    pub(crate) fn empty(alloc: Global) -> Result<Kept, AllocError>
        ensures { IfOk result (λ k. k ≡ None) }
    {
        Ok(Kept {
            ticket: None,
            words: Vec::from_elem(alloc, 0, SET_WORDS)?,
        })
    }

    /// Keeps the set that stands in `words`, as that of the caller's entry at `ticket`, in place of the one before. `words` is room for a set then.
    pub(crate) fn put(&mut self, ticket: u64, words: &mut Vec<u64>)
        requires { IsSetList words.old.items }
        ensures kept { self.new ≡ Some (record { ticket = ticket; set = words.old.items }) }
        ensures room { IsSetList words.new.items }
    {
        mem::swap(&mut self.words, words);
        self.ticket = Some(ticket);
    }

    /// Whether the set that is kept is that of the entry at `ticket`. If so the set is put into `words`, and none is kept then.
    pub(crate) fn take(&mut self, ticket: u64, words: &mut Vec<u64>) -> bool
        requires { IsSetList words.old.items }
        ensures taken { IsTrue result → self.old ≡ Some (record { ticket = ticket; set = words.new.items }) }
        ensures left { (self.new ≡ None) ⊎ (self.new ≡ self.old) }
        ensures room { IsSetList words.new.items }
    {
        match self.ticket {
            None => false,
            Some(found) => {
                if found != ticket {
                    return false;
                }
                mem::swap(&mut self.words, words);
                self.ticket = None;
                true
            }
        }
    }
}

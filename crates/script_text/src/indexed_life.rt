//! A life whose commands are found by client and number.

ghost use Rattle.std.specs.Prelude.{◌≡◌, ◌<◌, IfOk, length, All, []};
ghost use Rattle.std.specs.Option.{option_copied};
ghost use Rattle.life_records.specs.Scripts.{named_op};

use life_records::BorrowedLife;
use std::alloc::{AllocError, Global};
use std::marker::Model;

/// A life in which a client's command is found in constant time. Contracts see the life.
#[derive(Drop)]
pub struct IndexedLife<'a, Op> {
    life: &'a BorrowedLife<'a, Op>,
    /// The operations of each client of the life, in script order.
    by_client: Vec<Vec<&'a Op>>,
}

impl<'a, Op> Model for IndexedLife<'a, Op> {
    ghost use Rattle.std.specs.Prelude.{◌≡◌, length};
    ghost use Rattle.life_records.specs.declared.script.Life.{Life};
    ghost use Rattle.script_text.specs.Index.{IsLifeIndex};

    ghost Value = { Life Op };

    ghost view = { λ s. s.life.now };

    ghost invariant = { λ s. IsLifeIndex s.life.now s.by_client.items };
}

impl<'a, Op> IndexedLife<'a, Op> {
    /// Makes the index. Commands that name a client outside the life are passed over. `Err` means out of memory.
    pub fn of(alloc: Global, life: &'a BorrowedLife<'a, Op>) -> Result<Self, AllocError>
        ensures { IfOk result (λ indexed. indexed ≡ life.now) }
    {
        let mut by_client = empty_lists(alloc, life.clients())?;
        for command in life.commands() {
            if let Some(own) = by_client.get_mut(command.client as usize) {
                own.push(&command.op)?;
            }
        }
        Ok(IndexedLife { life, by_client })
    }

    /// The operation of a client's command, counted from 1, if there is one.
    pub fn op(&self, client: u32, command: u64) -> Option<&Op>
        requires { client < self.now.clients }
        ensures { option_copied result ≡ named_op self.now client command }
    {
        let before = command.checked_sub(1)?;
        self.by_client[client as usize]
            .get(before as usize)
            .copied()
    }
}

/// `count` empty lists.
fn empty_lists<'a, Op>(alloc: Global, count: u32) -> Result<Vec<Vec<&'a Op>>, AllocError>
    ensures count { IfOk result (λ lists. length lists.items ≡ count) }
    ensures empty { IfOk result (λ lists. All (λ own. own.items ≡ []) lists.items) }
{
    let mut lists = Vec::new(alloc);
    for _ in 0..count {
        lists.push(Vec::new(alloc))?;
    }
    Ok(lists)
}

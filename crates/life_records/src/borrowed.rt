//! A life whose cuts and commands are lent.

ghost use Rattle.std.specs.Prelude.{◌≡◌};

use crate::script::{Command, Cut, Life};
use std::marker::Model;

/// A life whose cuts and commands are lent, by a `Life` or by a type of one's own that has them. Contracts see the life.
#[derive(Drop)]
pub struct BorrowedLife<'a, Op> {
    clients: u32,
    choice: u64,
    cuts: &'a [Cut],
    commands: &'a [Command<Op>],
}

impl<'a, Op> Model for BorrowedLife<'a, Op> {
    ghost use Rattle.life_records.specs.declared.script.Life.{Life};

    ghost Value = { Life Op };

    ghost view = { λ s. record { clients = s.clients; choice = s.choice; cuts = s.cuts.now; commands = s.commands.now } };
}

impl<'a, Op> BorrowedLife<'a, Op> {
    /// The life of these parts.
    pub fn of(
        clients: u32,
        choice: u64,
        cuts: &'a [Cut],
        commands: &'a [Command<Op>],
    ) -> BorrowedLife<'a, Op>
        ensures { result ≡ record { clients = clients; choice = choice; cuts = cuts.now; commands = commands.now } }
    {
        BorrowedLife {
            clients,
            choice,
            cuts,
            commands,
        }
    }

    /// The number of clients.
    pub fn clients(&self) -> u32
        ensures { result ≡ self.now.clients }
    {
        self.clients
    }

    /// The choice that the crash makes.
    pub fn choice(&self) -> u64
        ensures { result ≡ self.now.choice }
    {
        self.choice
    }

    /// The steps that some clients may make.
    pub fn cuts(&self) -> &[Cut]
        ensures { result.now ≡ self.now.cuts }
    {
        self.cuts
    }

    /// The commands of all clients.
    pub fn commands(&self) -> &[Command<Op>]
        ensures { result.now ≡ self.now.commands }
    {
        self.commands
    }
}

impl<Op> Life<Op> {
    /// Lends the life.
    pub fn lent(&self) -> BorrowedLife<'_, Op>
        ensures { result ≡ self.now }
    {
        BorrowedLife::of(
            self.clients,
            self.choice,
            self.cuts.as_slice(),
            self.commands.as_slice(),
        )
    }
}

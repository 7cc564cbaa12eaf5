//! An event of the core as one atomic step of the table: an atomic instruction on one word.

ghost use Rattle.std.specs.Prelude.{◌≡◌, ℕ, List};
ghost use Rattle.atomic_table.specs.Table.{Allows};
ghost use Rattle.cx_core.specs.declared.local.Answer.{Answer};
ghost use Rattle.cx_core.specs.declared.local.Local.{Local};
ghost use Rattle.table_invariant.specs.Raises.{IsRaiseLearned, TeachesRaised};
ghost use Rattle.table_invariant.specs.Rule.{RuleHolds};
ghost use Rattle.table_invariant.specs.Running.{instance_at};
ghost use Rattle.table_invariant.specs.Seats.{kind_found, known_of};
ghost use Rattle.table_invariant.specs.Steps.{IsBlind, IsEventOn, MayStepKnowing, Puts, KnowledgeAfter};
ghost use Rattle.cx_table.specs.Words.{IsOnWord, KeepsTableKnowing, put_by};

use crate::root_steps::AnsweredRead;
use crate::shared::Shared;
use atomic_table::{Play, Seat};
use cx_base::Object;
use cx_core::Kind;
use std::marker::{Brand, PhantomData};
use table_invariant::View;

/// What a step tells its seat, by the word found and the seat afterwards. It is for the proofs alone: a call at `Brand` picks
/// it.
pub(crate) trait StepEffect {
    ghost use Rattle.std.specs.Prelude.{ℕ, List};
    ghost use Rattle.atomic_table.specs.Table.{Me};
    ghost use Rattle.table_invariant.specs.declared.rule.Known.{Known};

    ghost tells: { ℕ → Me ℕ (List Known) → Type 0 };
}

impl StepEffect for Brand {
    ghost tells = { λ _ _. Unit {0} };
}

/// A step that tells this. A store finds the word that it puts.
pub(crate) struct StepWith<J> {
    event: PhantomData<J>,
}

impl<J: StepEffect> Play<u8, View> for StepWith<J> {
    ghost then = { λ _ _ found after. J.tells found after };
}

/// An atomic instruction on a word, which gives the word found.
#[derive(Clone, Copy, Debug, Drop)]
pub(crate) enum Instruction {
    Load,
    /// A compare-exchange from the first word to the second.
    Exchange(u64, u64),
    Add(u64),
    Subtract(u64),
    /// A raise to at least the word.
    Raise(u64),
}

impl<O: Object> Shared<O> {
    /// Makes an instruction, and gives the word found. What it is about is for the proofs alone, and so is the kind of an event
    /// below.
    pub(crate) fn run<J: StepEffect, A>(
        &self,
        seat: &mut Seat<u8, View>,
        about: &A,
        word: usize,
        instruction: Instruction,
    ) -> u64
        requires on { IsOnWord self.now word seat.old.table_id seat.old.me }
        requires allows { Allows (RuleHolds (instance_at self.now O.step O.only_reads)) self.now.table.slots seat.old.id seat.old.me word (put_by instruction) J.tells }
        ensures { KeepsTableKnowing seat.old.table_id seat.new.table_id (J.tells result seat.new.me) }
    {
        let table = &self.table.shared;
        match instruction {
            Instruction::Load => table.load::<StepWith<J>>(seat, word),
            Instruction::Exchange(old, new) => {
                table.compare_exchange::<StepWith<J>>(seat, word, old, new)
            }
            Instruction::Add(k) => table.fetch_add::<StepWith<J>>(seat, word, k),
            Instruction::Subtract(k) => table.fetch_sub::<StepWith<J>>(seat, word, k),
            Instruction::Raise(v) => table.fetch_max::<StepWith<J>>(seat, word, v),
        }
    }

    /// An instruction that is the event of this kind. It gives the word found.
    pub(crate) fn event(
        &self,
        seat: &mut Seat<u8, View>,
        kind: &Kind,
        word: usize,
        instruction: Instruction,
    ) -> u64
        requires event { IsEventOn self.now O.step O.only_reads kind.now word seat.old.table_id seat.old.me }
        requires puts { Puts (instance_at self.now O.step O.only_reads) kind.now (known_of seat.old.me.0).local (put_by instruction) }
        ensures { KeepsTableKnowing seat.old.table_id seat.new.table_id (KnowledgeAfter (instance_at self.now O.step O.only_reads) kind.now (known_of seat.old.me.0) result seat.new.me) }
    {
        self.run::<Brand, Kind>(seat, kind, word, instruction)
    }

    /// An instruction that is the event of this kind as what its caller noted tells it. A load that may be marked as a refusal is
    /// marked by the word found. It gives that.
    pub(crate) fn learned(
        &self,
        seat: &mut Seat<u8, View>,
        kind: &Kind,
        word: usize,
        instruction: Instruction,
    ) -> u64
        requires on { IsOnWord self.now word seat.old.table_id seat.old.me }
        requires learns { MayStepKnowing (instance_at self.now O.step O.only_reads) kind.now (known_of seat.old.me.0) word (put_by instruction) }
        ensures { KeepsTableKnowing seat.old.table_id seat.new.table_id (KnowledgeAfter (instance_at self.now O.step O.only_reads) (kind_found (instance_at self.now O.step O.only_reads) kind.now (known_of seat.old.me.0).local result) (known_of seat.old.me.0) result seat.new.me) }
    {
        self.run::<Brand, Kind>(seat, kind, word, instruction)
    }

    /// A raise of DUR by a code as what its caller noted tells what it answers, with a read that is answered or without. It
    /// gives the word found.
    pub(crate) fn raise_learned(
        &self,
        seat: &mut Seat<u8, View>,
        word: usize,
        code: u64,
        read: Option<AnsweredRead>,
    ) -> u64
        requires on { IsOnWord self.now word seat.old.table_id seat.old.me }
        requires learns { (answers : List Answer) × IsRaiseLearned (instance_at self.now O.step O.only_reads) code answers read (known_of seat.old.me.0) word }
        ensures { KeepsTableKnowing seat.old.table_id seat.new.table_id ((answers : List Answer) → IsRaiseLearned (instance_at self.now O.step O.only_reads) code answers read.entry (known_of seat.old.me.0) word → TeachesRaised (instance_at self.now O.step O.only_reads) code answers read.entry (known_of seat.old.me.0) seat.new.me) }
    {
        let about = (code, read);
        self.run::<Brand, (u64, Option<AnsweredRead>)>(seat, &about, word, Instruction::Raise(code))
    }

    /// A store that is the event of this kind as what its caller noted tells it.
    pub(crate) fn store_learned(
        &self,
        seat: &mut Seat<u8, View>,
        kind: &Kind,
        word: usize,
        new: u64,
    )
        requires on { IsOnWord self.now word seat.old.table_id seat.old.me }
        requires learns { MayStepKnowing (instance_at self.now O.step O.only_reads) kind.now (known_of seat.old.me.0) word (λ _. new) }
        requires plain { (l : Local) (found : ℕ) → kind_found (instance_at self.now O.step O.only_reads) kind.now l found ≡ kind.now }
        requires blind { IsBlind (instance_at self.now O.step O.only_reads) kind.now (known_of seat.old.me.0) }
        ensures { KeepsTableKnowing seat.old.table_id seat.new.table_id (KnowledgeAfter (instance_at self.now O.step O.only_reads) kind.now (known_of seat.old.me.0) 0 seat.new.me) }
    {
        self.store_as::<Brand>(seat, kind, word, new);
    }

    /// A store of a word, by a step that tells this.
    fn store_as<J: StepEffect>(&self, seat: &mut Seat<u8, View>, kind: &Kind, word: usize, new: u64)
        requires on { IsOnWord self.now word seat.old.table_id seat.old.me }
        requires allows { Allows (RuleHolds (instance_at self.now O.step O.only_reads)) self.now.table.slots seat.old.id seat.old.me word (λ _. new) (λ _. J.tells new) }
        ensures { KeepsTableKnowing seat.old.table_id seat.new.table_id (J.tells new seat.new.me) }
    {
        self.table.shared.store::<StepWith<J>>(seat, word, new);
    }
}

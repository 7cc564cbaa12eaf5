//! The step calls on the root: CUR, which names the replica that was published last, the pins that its codes leave, and DUR, whose raise answers the
//! caller's entry and a read. A publication that wins hands out the token of the win, and the call that retires it takes that. `Halt` comes exactly
//! where the seat's steps equal its limit, and then nothing changes.

ghost use Rattle.std.specs.Prelude.{IfOk, List};
ghost use Rattle.cx_core.specs.declared.kinds.Kind.TheVariants.{LoadCur, Publish, Retire, Raise};
ghost use Rattle.table_invariant.specs.Running.{IsSeatOf};
ghost use Rattle.table_invariant.specs.Steps.{Steps};
ghost use Rattle.cx_table.specs.Tokens.{HandsWon, IsDowngradedOf, IsWonOf, TriedPublish};
ghost use Rattle.cx_table.specs.Calls.{MakesFittingStep, MakesStep, MayStep};
ghost use Rattle.cx_base.specs.Codes.{root_place_of};
ghost use Rattle.cx_core.specs.declared.local.Answer.{Answer};
ghost use Rattle.table_invariant.specs.Raises.{Raises, read_op_in};
ghost use Rattle.table_invariant.specs.Stores.{TellsAnswersIn, TellsReadsIn};

use crate::events::Instruction;
use crate::seat::CallerSeat;
use crate::shared::Shared;
use crate::tokens::{Downgraded, Won};
use cx_base::{Halt, Object, OpWords, root_replica};
use cx_core::Kind;
use cx_core::layout::{CUR_AT, DUR_AT, lock_at};
use std::marker::Model;

impl<O: Object> Shared<O> {
    /// Loads CUR: the code of the replica that was published last, and of its place. `Halt` comes only where the limit leaves no step.
    pub fn load_cur(&self, seat: &mut CallerSeat) -> Result<u64, Halt>
        requires { IsSeatOf self.now seat.old }
        ensures { MakesFittingStep O.Object self.now seat.old seat.new result (λ found. Steps self.now O.step O.only_reads LoadCur found seat.old seat.new) }
    {
        self.table_is_running();
        self.made(seat, &Kind::LoadCur, CUR_AT, Instruction::Load)
    }

    /// Publishes the replica that the caller has downgraded, at a place above that of the code last found in CUR, where each win
    /// of its own is retired: a compare-exchange of CUR from that code to the replica's. It gives the code found, and where that
    /// is the one last found before, the win, else the downgraded right back. `Halt` comes only where the limit leaves no step.
    pub fn publish(
        &self,
        seat: &mut CallerSeat,
        held: Downgraded,
    ) -> Result<(u64, Result<Won, Downgraded>), Halt>
        requires may { MayStep O.Object self.now Publish seat.old }
        requires held { IsDowngradedOf self.now.callers seat.old held }
        ensures step { MakesFittingStep O.Object self.now seat.old seat.new result (λ x. Steps self.now O.step O.only_reads Publish x.0 seat.old seat.new) }
        ensures token { IfOk result (λ x. TriedPublish self.now.callers seat.old held seat.new x.0 x.1) }
    {
        let seen = seat.summary.seen_cur;
        let code = seat.summary.downgraded_code(self.callers);
        let exchange = Instruction::Exchange(seen, code);
        let found = self.made(seat, &Kind::Publish, CUR_AT, exchange)?;
        Ok((found, won_token(code, seen, held, found)))
    }

    /// Retires a win by whose code the caller raised DUR: subtracts 1 from the lock word of the replica of the code before.
    /// It gives the word found. `Halt` comes only where the limit leaves no step.
    pub fn retire(&self, seat: &mut CallerSeat, won: Won) -> Result<u64, Halt>
        requires may { MayStep O.Object self.now Retire seat.old }
        requires won { IsWonOf self.now.callers seat.old won }
        ensures { MakesStep self.now seat.old seat.new result (λ found. Steps self.now O.step O.only_reads Retire found seat.old seat.new) }
    {
        let Won {
            code: _,
            before,
            caller: _,
        } = won;
        let r = u64::from(root_replica(self.callers.number, before));
        let word = lock_at(self.callers.number, r);
        self.made(seat, &Kind::Retire, word, Instruction::Subtract(1))
    }
}

/// The token of a publication of this code that found this one.
fn won_token(code: u64, seen: u64, held: Downgraded, found: u64) -> Result<Won, Downgraded>
    ensures { HandsWon code seen held found result }
{
    if found == seen {
        Ok(Won {
            code,
            before: seen,
            caller: held.caller,
        })
    } else {
        Err(held)
    }
}

/// A read that is to be answered: an operation that only reads, and the reply to it. It lends the words, since no step looks at
/// them.
#[derive(Drop)]
pub struct AnsweredRead<'a> {
    pub op: &'a OpWords,
    pub reply: &'a OpWords,
}

impl<'a> Model for AnsweredRead<'a> {
    ghost use Rattle.std.specs.Prelude.{List, ℕ};

    ghost Value = { List ℕ × List ℕ };

    ghost view = { λ s. (s.op.now, s.reply.now) };
}

impl<O: Object> Shared<O> {
    /// Raises DUR to a code, which is the one last found in CUR or the one that the caller won with. The caller's unanswered
    /// entry is answered where its ticket is below the code's place: its reply was read in the replica that was held
    /// exclusively, above that ticket. A read is answered at the code's place: the reply was read in the replica that is held
    /// shared. It gives the word found. `Halt` comes only where the limit leaves no step, and then nothing is answered.
    pub fn raise(
        &self,
        seat: &mut CallerSeat,
        code: u64,
        read: Option<AnsweredRead>,
    ) -> Result<u64, Halt>
        requires may { MayStep O.Object self.now (Raise code (read_op_in read)) seat.old }
        requires replies { ((answers : List Answer) × TellsAnswersIn O.Object self.now seat.old.known (root_place_of self.now.callers code) answers) × TellsReadsIn O.Object self.now seat.old.known read }
        ensures { MakesFittingStep O.Object self.now seat.old seat.new result (λ _. (answers : List Answer) → TellsAnswersIn O.Object self.now seat.old.known (root_place_of self.now.callers code) answers → Raises self.now O.step O.only_reads code answers read.entry seat.old seat.new) }
    {
        let callers = self.callers;
        let reads = read.is_some();
        seat.summary.check()?;
        let found = self.raise_learned(&mut seat.seat, DUR_AT, code, read);
        seat.summary.raise(callers, code, reads);
        Ok(found)
    }
}

//! What a raise answers: whether its guard holds, and the replies, for which the object is run along the history.

ghost use Rattle.std.specs.Prelude.{◌≡◌, ◌+◌, ◌↔◌, ℕ, Bool, List, None, length, IsTrue, IfOk};
ghost use Rattle.std.specs.Option.{option_to_list};
ghost use Rattle.core_events.specs.StepFacts.{TellsRaise};
ghost use Rattle.cx_base.specs.VecMemory.{words_of};
ghost use Rattle.cx_core.specs.Base.{LawfulBase};
ghost use Rattle.cx_core.specs.History.{image_after};
ghost use Rattle.cx_core.specs.Merge.{history_of};
ghost use Rattle.cx_core.specs.Region.{object_part};
ghost use Rattle.cx_core.specs.RootEvents.{CanRaise, answers_below, reads_at, reply_after, unanswered};

use crate::images::{copied, merged};
use core_guards::answers::{is_below, is_won_code, shows_current};
use core_guards::callers::Callers;
use cx_base::{Object, OpWords, VecMemory, root_place};
use cx_core::{Answer, Base, Entry, Linked, Local, OBJECT_START, SeenRead, op_fits};
use std::alloc::{AllocError, Global};

/// What a raise answers: the caller's own entry that is not answered yet, and a read.
#[derive(Clone, Copy, Drop)]
pub(crate) struct Acknowledged {
    pub(crate) entry: Option<Answer>,
    pub(crate) read: Option<SeenRead>,
}

/// Whether a caller may raise DUR by a code, and have this read answered.
fn can_raise<O: Object>(
    object: &O,
    callers: Callers,
    local: &Local,
    code: u64,
    read: &Option<OpWords>,
) -> bool
    ensures { (base : _) (step : List ℕ → List ℕ → List ℕ × List ℕ) → IsTrue result ↔ CanRaise (record { callers = callers.number; base = base; step = step; reads = O.only_reads object.now }) code read.now local.now }
{
    (code == local.seen_cur || is_won_code(code, local.won))
        && match read {
            None => true,
            Some(op) => {
                op_fits(op);
                object.reads(op) && shows_current(callers, local, code)
            }
        }
}

/// Whether a caller may raise DUR by a code, and what the raise then answers; none where it may not. `Err` says that
/// memory ran out, and comes only where the guard holds.
pub(crate) fn replies_of<O: Object>(
    alloc: Global,
    object: &O,
    callers: Callers,
    base: &Base,
    locals: &[Local],
    local: &Local,
    code: u64,
    read: &Option<OpWords>,
) -> Result<Option<Acknowledged>, AllocError>
    requires base { LawfulBase (O.line_count object.now) (O.lawful object.now) base.now }
    ensures { (words : List ℕ) → IfOk result (λ answers. TellsRaise answers (record { callers = callers.number; base = base.now; step = O.step object.now; reads = O.only_reads object.now }) (record { history = history_of base.now.place locals.now; words = words }) code read.now local.now) }
{
    if !can_raise(object, callers, local, code, read) {
        return Ok(None);
    }
    let place = root_place(callers.number, code);
    let entry = answer_below(alloc, object, base, locals, local, place)?;
    let before = local.answered.as_slice().len() as u64 + count(&entry);
    let read = read_at(alloc, object, base, locals, place, before, read)?;
    Ok(Some(Acknowledged { entry, read }))
}

/// The number of answers.
fn count(answer: &Option<Answer>) -> u64
    ensures { result ≡ length (option_to_list answer.now) }
{
    match answer {
        None => 0,
        Some(_) => 1,
    }
}

/// What a raise to a place answers of a caller's own entries: the reply to the first that is not answered, where its
/// ticket is below the place. `Err` says that memory ran out.
fn answer_below<O: Object>(
    alloc: Global,
    object: &O,
    base: &Base,
    locals: &[Local],
    local: &Local,
    place: u64,
) -> Result<Option<Answer>, AllocError>
    requires base { LawfulBase (O.line_count object.now) (O.lawful object.now) base.now }
    ensures { (callers : ℕ) (reads : List ℕ → Bool) → IfOk result (λ answer. option_to_list answer ≡ answers_below (record { callers = callers; base = base.now; step = O.step object.now; reads = reads }) (history_of base.now.place locals.now) place (unanswered local.now)) }
{
    let Some(own) = unanswered(local) else {
        return Ok(None);
    };
    if !is_below(own.ticket, place) {
        return Ok(None);
    }
    let ticket = own.ticket;
    let reply = reply_after(alloc, object, base, locals, ticket, &own.entry.op)?;
    Ok(Some(Answer { ticket, reply }))
}

/// The first entry of a caller that is not answered.
fn unanswered(local: &Local) -> Option<Linked>
    ensures { result ≡ unanswered local.now }
{
    let linked = local.own.as_slice().get(local.answered.len())?;
    Some(Linked {
        ticket: linked.ticket,
        entry: copied(&linked.entry),
    })
}

/// What a raise to a place answers of a read, where `before` of its caller's entries are answered. `Err` says that memory ran out.
fn read_at<O: Object>(
    alloc: Global,
    object: &O,
    base: &Base,
    locals: &[Local],
    place: u64,
    before: u64,
    read: &Option<OpWords>,
) -> Result<Option<SeenRead>, AllocError>
    requires base { LawfulBase (O.line_count object.now) (O.lawful object.now) base.now }
    ensures { (callers : ℕ) (reads : List ℕ → Bool) → IfOk result (λ seen. option_to_list seen ≡ reads_at (record { callers = callers; base = base.now; step = O.step object.now; reads = reads }) (history_of base.now.place locals.now) place before read.now) }
{
    let Some(op) = read else {
        return Ok(None);
    };
    let reply = reply_after(alloc, object, base, locals, place, op)?;
    Ok(Some(SeenRead {
        place,
        op: *op,
        reply,
        before,
    }))
}

/// The object's reply to an operation after the entries of a state with tickets below a place. `Err` says that memory ran out.
fn reply_after<O: Object>(
    alloc: Global,
    object: &O,
    base: &Base,
    locals: &[Local],
    place: u64,
    op: &OpWords,
) -> Result<OpWords, AllocError>
    requires base { LawfulBase (O.line_count object.now) (O.lawful object.now) base.now }
    ensures { (callers : ℕ) (reads : List ℕ → Bool) → IfOk result (λ reply. reply ≡ reply_after (record { callers = callers; base = base.now; step = O.step object.now; reads = reads }) (history_of base.now.place locals.now) place op.now) }
{
    let history = merged(alloc, base.place, locals)?;
    let count = place.saturating_sub(base.place).min(history.len() as u64) as usize;
    let mut memory = part_after(alloc, object, base, &history[..count])?;
    Ok(run_on(object, &mut memory, op))
}

/// The object's image after some entries from a base on, in a memory without a limit. `Err` says that memory ran out.
fn part_after<O: Object>(
    alloc: Global,
    object: &O,
    base: &Base,
    entries: &[Entry],
) -> Result<VecMemory, AllocError>
    requires base { LawfulBase (O.line_count object.now) (O.lawful object.now) base.now }
    ensures words { IfOk result (λ memory. words_of memory ≡ image_after (O.step object.now) (object_part base.now.words) entries.now) }
    ensures lawful { IfOk result (λ memory. O.lawful object.now (words_of memory) × (memory.left ≡ None)) }
{
    let words = Vec::from_slice(alloc, &base.words.as_slice()[OBJECT_START as usize..])?;
    let mut memory = VecMemory::of(words, None);
    for entry in entries {
        run_on(object, &mut memory, &entry.op);
    }
    Ok(memory)
}

/// Does the object's step on its image in a memory without a limit, and gives the reply.
fn run_on<O: Object>(object: &O, memory: &mut VecMemory, op: &OpWords) -> OpWords
    requires { O.lawful object.now (words_of memory.old) × (memory.old.left ≡ None) }
    ensures step { O.step object.now (words_of memory.old) op.now ≡ (words_of memory.new, result) }
    ensures lawful { O.lawful object.now (words_of memory.new) × (memory.new.left ≡ None) }
{
    op_fits(op);
    match object.run(memory, op) {
        Ok(reply) => reply,
        Err(_) => unreachable!(),
    }
}

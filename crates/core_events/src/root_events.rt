//! The steps on the root: CUR is loaded and replaced, DUR is raised, and a win is retired.

ghost use Rattle.std.specs.Prelude.{◌≡◌, ◌∷◌, ◌++◌, [], ℕ, List, Option, Some, max};
ghost use Rattle.std.specs.Option.{option_to_list};
ghost use Rattle.core_events.specs.Tables.{HasTableWords};
ghost use Rattle.core_events.specs.Codes.{HasCode};
ghost use Rattle.core_events.specs.StepFacts.{TellsRaise};
ghost use Rattle.cx_base.specs.Codes.{root_place_of};
ghost use Rattle.cx_core.specs.declared.kinds.Kind.TheVariants.{LoadCur, Publish, Raise, Retire};
ghost use Rattle.core_events.specs.Tries.{TriesEvent};
ghost use Rattle.cx_core.specs.Events.{Did};
ghost use Rattle.cx_core.specs.RootEvents.{before_in, code_in, outrun, published, raised_floor};
ghost use Rattle.cx_core.specs.State.{EachScene, one_more};

use crate::replies::Acknowledged;
use core_guards::callers::Callers;
use core_guards::root::{before_in, can_publish, can_retire};
use cx_base::{Items, root_code, root_place, root_replica};
use cx_core::layout::{CUR_AT, DUR_AT, lock_at};
use cx_core::{Answer, HeldDowngraded, Local, SeenRead, WonCode};
use std::alloc::{AllocError, Global};
use std::mem;

/// Whether a caller may load CUR, which is always so: the code found is fresh from here on, and the step is counted.
pub(crate) fn load_cur(callers: Callers, words: &[u64], local: &mut Local) -> bool
    requires table { HasTableWords callers.number words.now }
    ensures { (base : _) → EachScene callers.number base words.now (λ instance scene. Did result instance scene LoadCur local.old local.new words.now) }
{
    note_code(callers, local, words[CUR_AT]);
    local.fresh = true;
    true
}

/// A code is now the last one found in CUR, or put there. Every ticket below its place is linked. It is one step.
fn note_code(callers: Callers, local: &mut Local, code: u64)
    ensures { local.new ≡ record local.old { seen_cur = code; front = max local.old.front (root_place_of callers.number code); steps = one_more local.old.steps } }
{
    local.seen_cur = code;
    local.front = local.front.max(root_place(callers.number, code));
    local.steps = local.steps.saturating_add(1);
}

/// The root code of the replica that is downgraded, 0 where there is none.
fn code_in(callers: Callers, held: Option<HeldDowngraded>) -> u64
    requires code { HasCode callers.number held }
    ensures { result ≡ code_in callers.number held }
{
    match held {
        None => 0,
        Some(held) => root_code(callers.number, held.place, held.replica as u32),
    }
}

/// Whether a caller may publish the replica that it has downgraded; if so it tries, by a compare-exchange of CUR from the code last found there, and wins
/// or loses.
pub(crate) fn publish(callers: Callers, words: &mut [u64], local: &mut Local) -> bool
    requires table { HasTableWords callers.number words.old }
    requires code { HasCode callers.number local.old.downgraded }
    ensures { (base : _) → EachScene callers.number base words.old (λ instance scene. Did result instance scene Publish local.old local.new words.new) }
{
    if !can_publish(callers, local) {
        return false;
    }
    let found = words[CUR_AT];
    if found == local.seen_cur {
        words[CUR_AT] = win(callers, local);
    } else {
        lose(callers, local, found);
    }
    true
}

/// What a caller learns by a publication that won, and its code: what was downgraded is the pin of CUR, and the pin before
/// is the win's.
fn win(callers: Callers, local: &mut Local) -> u64
    requires code { HasCode callers.number local.old.downgraded }
    ensures local { local.new ≡ published callers.number local.old }
    ensures code { result ≡ code_in callers.number local.old.downgraded }
{
    let code = code_in(callers, local.downgraded);
    local.downgraded = None;
    local.won = Some(WonCode {
        code,
        before: local.seen_cur,
    });
    note_code(callers, local, code);
    local.fresh = false;
    code
}

/// What a caller learns by a publication that was lost to the code found.
fn lose(callers: Callers, local: &mut Local, found: u64)
    ensures { local.new ≡ outrun callers.number local.old found }
{
    if local.fresh {
        local.met = local.met.saturating_add(1);
    }
    note_code(callers, local, found);
    local.fresh = false;
}

/// Whether a caller may raise DUR by a code; if so DUR is raised, and the caller is given the answers in `acknowledged`, which is `None` where the guard fails.
/// `Err` says that memory ran out, and nothing changed.
pub(crate) fn raise(
    alloc: Global,
    callers: Callers,
    words: &mut [u64],
    local: &mut Local,
    code: u64,
    acknowledged: Option<Acknowledged>,
) -> Result<bool, AllocError>
    requires table { HasTableWords callers.number words.old }
    ensures { TriesEvent result (λ made. (base : _) → EachScene callers.number base words.old (λ instance scene. (read : Option (List ℕ)) → TellsRaise acknowledged instance scene code read local.old → Did made instance scene (Raise code read) local.old local.new words.new)) ((local.new ≡ local.old) × (words.new ≡ words.old)) }
{
    let Some(answers) = acknowledged else {
        return Ok(false);
    };
    acknowledge(alloc, local, root_place(callers.number, code), answers)?;
    local.raised = local.raised.max(code);
    local.fresh = false;
    local.steps = local.steps.saturating_add(1);
    words[DUR_AT] = words[DUR_AT].max(code);
    Ok(true)
}

/// Gives what a raise to a place answers. `Err` says that memory ran out, and nothing changed.
fn acknowledge(
    alloc: Global,
    local: &mut Local,
    place: u64,
    acknowledged: Acknowledged,
) -> Result<(), AllocError>
    ensures { let answers = option_to_list acknowledged.entry in let reads = option_to_list acknowledged.read in TriesEvent result (λ _. local.new ≡ record local.old { answered = local.old.answered ++ answers; seen_reads = local.old.seen_reads ++ reads; floor = raised_floor local.old.floor place answers reads }) (local.new ≡ local.old) }
{
    push_both(
        alloc,
        &mut local.answered,
        acknowledged.entry,
        &mut local.seen_reads,
        acknowledged.read,
    )?;
    if acknowledged.entry.is_some() || acknowledged.read.is_some() {
        local.floor = local.floor.max(place);
    }
    Ok(())
}

/// Adds to two lists what there is. `Err` says that memory ran out, and leaves both as they were.
fn push_both(
    alloc: Global,
    answered: &mut Items<Answer>,
    answer: Option<Answer>,
    reads: &mut Items<SeenRead>,
    read: Option<SeenRead>,
) -> Result<(), AllocError>
    ensures { TriesEvent result (λ _. (answered.new ≡ answered.old ++ option_to_list answer) × (reads.new ≡ reads.old ++ option_to_list read)) ((answered.new ≡ answered.old) × (reads.new ≡ reads.old)) }
{
    if let Some(answer) = answer {
        answered.push(answer)?;
    }
    if let Some(read) = read {
        if let Err(error) = reads.push(read) {
            if answer.is_some() {
                take_last(alloc, answered);
            }
            return Err(error);
        }
    }
    Ok(())
}

/// Takes the last item off a list.
fn take_last(alloc: Global, answered: &mut Items<Answer>)
    ensures { (before : List Answer) (last : Answer) → answered.old ≡ before ++ last ∷ [] → answered.new ≡ before }
{
    let mut items = mem::replace(answered, Items::new(alloc)).into_vec();
    items.pop();
    *answered = Items::of(items);
}

/// Whether a caller may retire its win, having raised DUR by the win's code or a later one; if so the pin on the replica of the code before is released.
pub(crate) fn retire(callers: Callers, words: &mut [u64], local: &mut Local) -> bool
    requires table { HasTableWords callers.number words.old }
    ensures { (base : _) → EachScene callers.number base words.old (λ instance scene. Did result instance scene Retire local.old local.new words.new) }
{
    if !can_retire(local.raised, local.won) {
        return false;
    }
    let before = root_replica(callers.number, before_in(local.won));
    let at = lock_at(callers.number, u64::from(before));
    words[at] = words[at].wrapping_sub(1);
    local.won = None;
    local.steps = local.steps.saturating_add(1);
    true
}

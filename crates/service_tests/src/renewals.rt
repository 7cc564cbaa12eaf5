//! A caller that renews its replica by the lines that changed stops at each of its steps: the other goes on, the closed service is right, and
//! what was answered is recovered.

ghost use Rattle.std.specs.Prelude.{◌≤◌};
ghost use Rattle.service_tests.specs.Closed.{IsClosed};

use crate::alone::{Alone, made_alone};
use crate::calls::{Call, Came};
use crate::closed::recovered_of;
use crate::holds::holds;
use crate::listed_lines::LINES;
use crate::pairs::{Ended, Turn, run_pair};
use crate::starts::NO_LIMIT;
use crate::tasks::Work;
use cx_base::Object;
use cx_core::Base;
use cx_table::Remains;
use doc_store::DocStore;
use std::alloc::{AllocError, Global};
use std::test::Fail;

// Each update changes the header, a node and a block, and its caller's number.
const WORK: Work = Work::Blocks { count: 1, wider: 1 };

// Caller 1 falls behind and stops in its second update, and then caller 0 makes one more.
const STOPS: [Turn; 5] = [(0, 2), (1, 1), (0, 18), (1, 2), (0, 19)];

// The turns of `STOPS` without the second update of caller 1.
const LINKS_NONE: [Turn; 4] = [(0, 2), (1, 1), (0, 18), (0, 19)];

// The turns of `STOPS` up to the second update of caller 1.
const LAST: [Turn; 4] = [(0, 2), (1, 1), (0, 18), (1, 2)];

// The turns of `LAST` without the second update of caller 1.
const BEFORE: [Turn; 3] = [(0, 2), (1, 1), (0, 18)];

// The turns of `LAST`, where caller 0 makes one update more before the second update of caller 1.
const LATER: [Turn; 4] = [(0, 2), (1, 1), (0, 19), (1, 2)];

// The words of a slot of the ring of gaps: a copy by lines has this many more loads for one more ticket.
const SLOT: u64 = 16;

// What two callers without a limit of steps are told of their calls, and the object alone after the same updates.
#[derive(Drop)]
struct Model {
    logs: Vec<Vec<Call>>,
    alone: Alone,
}

fn make_model(alloc: Global, turns: &[Turn]) -> Result<Option<Model>, AllocError> {
    let Ended { logs, remains } = run_pair(alloc, DocStore::of(LINES), NO_LIMIT, WORK, turns)?;
    Ok(
        match made_alone(alloc, &DocStore::of(LINES), WORK, &logs)? {
            Some(alone) if alone.is_left(&remains, &logs) => Some(Model { logs, alone }),
            _ => None,
        },
    )
}

// `none`: the model where caller 1 links no second entry. `linked`: the model where it links one.
#[derive(Drop)]
struct Models {
    none: Model,
    linked: Model,
}

fn make_both(alloc: Global, none: &[Turn], linked: &[Turn]) -> Result<Option<Models>, AllocError> {
    let Some(none) = make_model(alloc, none)? else {
        return Ok(None);
    };
    Ok(match make_model(alloc, linked)? {
        Some(linked) => Some(Models { none, linked }),
        None => None,
    })
}

// How many steps caller 1 has made after its first update, and how many after its second. `None` where its log has not two calls.
fn ends_of(logs: &[Vec<Call>]) -> Option<(u64, u64)> {
    match logs.last()?.as_slice() {
        [first, second] => Some((first.steps, second.steps)),
        _ => None,
    }
}

// How many steps caller 1 has made before its second update, and how many after it. `None` where the update does not copy by lines: where one ticket
// more before it does not take as many steps more as a slot of the ring of gaps has words.
fn ends(alloc: Global) -> Result<Option<(u64, u64)>, AllocError> {
    let ended = run_pair(alloc, DocStore::of(LINES), NO_LIMIT, WORK, &LAST)?;
    let later = run_pair(alloc, DocStore::of(LINES), NO_LIMIT, WORK, &LATER)?;
    Ok(match (ends_of(&ended.logs), ends_of(&later.logs)) {
        (Some((before, after)), Some((_, more))) if more == after.saturating_add(SLOT) => {
            Some((before, after))
        }
        _ => None,
    })
}

// The model of what caller 1 was told of its last call, which stopped at a limit or was answered.
fn model_of<'a>(models: &'a Models, last: &Call, limit: u64, after: u64) -> Option<&'a Model> {
    match last.came {
        Came::Halted(None) if last.steps == limit => Some(&models.none),
        Came::Halted(Some(_)) if last.steps == limit => Some(&models.linked),
        Came::Updated(_) if last.steps == after => Some(&models.linked),
        _ => None,
    }
}

// Whether one log has as many calls as another, and each is an update that is answered at the other's ticket with the other's reply.
fn are_answered_as(log: &[Call], want: &[Call]) -> bool {
    if log.len() != want.len() {
        return false;
    }
    for (call, other) in log.iter().zip(want.iter()) {
        match other.came {
            Came::Updated(ticket) if call.is_updated(ticket) && call.reply == other.reply => {}
            _ => return false,
        }
    }
    true
}

// Whether caller 0 was answered as in the model of what caller 1 was told, and the region published last is the model's.
fn goes_on(models: &Models, ended: &Ended, limit: u64, after: u64) -> bool {
    let [one, other] = ended.logs.as_slice() else {
        return false;
    };
    let Some(last) = other.last() else {
        return false;
    };
    let Some(model) = model_of(models, last, limit, after) else {
        return false;
    };
    match model.logs.first() {
        Some(want) => are_answered_as(one, want)
            && model.alone.is_left(&ended.remains, &model.logs),
        None => false,
    }
}

// The first limit within caller 1's second update at which caller 0 does not go on as in the model, and 0 where there are no models.
fn first_stuck(alloc: Global, step: usize) -> Result<Option<u64>, AllocError>
    requires { 1 ≤ step }
{
    let (Some((before, after)), Some(models)) = (
        ends(alloc)?,
        make_both(alloc, &LINKS_NONE, &STOPS)?,
    ) else {
        return Ok(Some(0));
    };
    for limit in (before..after.saturating_add(1)).step_by(step) {
        let ended = run_pair(alloc, DocStore::of(LINES), limit, WORK, &STOPS)?;
        if !goes_on(&models, &ended, limit, after) {
            return Ok(Some(limit));
        }
    }
    Ok(None)
}

// What the loss of power leaves of a dirty word: its durable value by choice 0, its volatile value by choice 1, and by another choice a value that is
// computed from the choice and the word's address.
const CHOICES: [u64; 3] = [0, 1, 0x9e37_79b9_7f4a_7c15];

// Whether a base is the region of one of the two models, by its place. It may be that of the model without caller 1's second entry only where this entry
// was not answered.
fn is_prefix(models: &Models, base: &Base, answered: bool) -> bool {
    let words = base.words.as_slice();
    let none = &models.none;
    let linked = &models.linked;
    if base.place == linked.alone.updates {
        linked.alone.is_region(words, &linked.logs)
    } else {
        !answered && none.alone.is_region(words, &none.logs)
    }
}

// Whether each base that is recovered by a choice of what the crash keeps is the region of one of the two models.
fn are_prefixes<O: Object>(
    alloc: Global,
    object: &O,
    models: &Models,
    remains: &Remains,
    answered: bool,
) -> Result<bool, AllocError>
    requires { IsClosed O.Object (O.line_count object.now) remains.now }
{
    for choice in CHOICES {
        match recovered_of(alloc, object, remains, choice) {
            Ok(base) if is_prefix(models, &base, answered) => {}
            _ => return Ok(false),
        }
    }
    Ok(true)
}

// Whether a service that is closed after caller 1 stopped at a limit leaves a dirty word. `None`: by some choice a base is recovered that is the region
// of neither model.
fn dirty_at(alloc: Global, models: &Models, limit: u64) -> Result<Option<bool>, AllocError> {
    let object = DocStore::of(LINES);
    let ended = run_pair(alloc, DocStore::of(LINES), limit, WORK, &LAST)?;
    let Some(last) = last_of(&ended.logs) else {
        return Ok(None);
    };
    let dirty = ended.remains.dirty.contains(&true);
    Ok(if are_prefixes(alloc, &object, models, &ended.remains, last.is_answered())? {
        Some(dirty)
    } else {
        None
    })
}

// What the last caller was told of its last call. Of two callers that is caller 1.
fn last_of(logs: &[Vec<Call>]) -> Option<&Call> {
    logs.last()?.last()
}

// At how many limits within caller 1's second update the closed service leaves a dirty word. `None`: at one of them a base is recovered that is the
// region of neither model.
fn dirty_limits(alloc: Global, step: usize) -> Result<Option<u64>, AllocError>
    requires { 1 ≤ step }
{
    let (Some((before, after)), Some(models)) = (ends(alloc)?, make_both(alloc, &BEFORE, &LAST)?)
    else {
        return Ok(None);
    };
    let mut count = 0u64;
    for limit in (before..after.saturating_add(1)).step_by(step) {
        match dirty_at(alloc, &models, limit)? {
            Some(dirty) => count = count.saturating_add(u64::from(dirty)),
            None => return Ok(None),
        }
    }
    Ok(Some(count))
}

#[test]
fn the_other_goes_on_from_each_step_of_a_copy_by_lines(rt: HostRuntime) -> Result<(), Fail> {
    holds(&rt, first_stuck(rt.alloc(), 1)?.is_none());
    Ok(())
}

#[test]
fn what_was_answered_is_recovered_from_each_step_of_a_copy_by_lines(
    rt: HostRuntime,
) -> Result<(), Fail> {
    let dirty = dirty_limits(rt.alloc(), 1)?;
    holds(&rt, dirty.is_some_and(|limits| limits > 100));
    Ok(())
}

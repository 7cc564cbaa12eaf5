//! The lives of a script, one after another: each is run, ends in a crash and is recovered, and the next begins with what was
//! recovered.

ghost use Rattle.std.specs.Prelude.{◌≡◌, ◌+◌, ◌<◌, ◌≤◌, List, [], ◌∷◌, ◌++◌, IfOk, None, length};
ghost use Rattle.cx_service.specs.Starts.{AreFewLines};
ghost use Rattle.life_records.specs.Begins.{Begun, IsBaseOf, nothing_begun};
ghost use Rattle.life_records.specs.Limits.{IsLifeInLimits, KeepsLimits};
ghost use Rattle.life_records.specs.Scripts.{command_count};
ghost use Rattle.life_records.specs.declared.script.Life.{Life};
ghost use Rattle.cx_lives.specs.Lives.{BeginsLife, CanBeginOver, HasFlags, HasLivedOver, HaveLivedOver, IsNextBase};

use crate::crash::end_in_crash;
use crate::life::run_life;
use crate::lived_laws::lives_that_ran_have_lived;
use crate::start::start_life;
use cx_base::{Gate, Items};
use cx_core::Base;
use cx_table::Trail;
use life_records::{
    BorrowedLife, LifeRecord, Script, flag_stops, fresh_bases_begin_with_nothing,
    operations_are_values, replies_are_values, steps_are_meant,
};
use recovery::{Image, reopen_image};
use std::alloc::{AllocError, Global};
use std::sync::Wait;
use std::thread::Threads;
use typed_object::TypedObject;

/// The result of the lives of a script.
#[derive(Drop)]
pub struct Lived<Reply> {
    /// The record of each life, in order.
    pub records: Items<LifeRecord<Reply>>,
    /// The trail of the service that ran each life, in order.
    pub trails: Items<Trail>,
    /// What the crash left that ended the last life; nothing where there was no life.
    pub image: Option<Image>,
    /// The base that was recovered from that image, from which a further life would begin.
    pub base: Option<Base>,
}

/// The result of one life: its record, the trail of its service, the image that the crash left, and the base that was recovered from it.
#[derive(Drop)]
pub(crate) struct Ran<Reply> {
    pub(crate) report: LifeRecord<Reply>,
    pub(crate) trail: Trail,
    pub(crate) image: Image,
    pub(crate) next: Base,
}

/// Runs the lives of a script one after another, the first from the object's opening and each next one from what was recovered after
/// the crash that ended the one before. Each life is run as `run_life` runs it, with the same gate. Its service ended with a chain
/// of root codes; the life's choice, modulo their number, picks the one whose place ends what is kept. The record's stop lines show which
/// stopped commands are among what was kept. The memory that the crash left is reopened (`reopen_image` of `recovery`): each
/// replica is made the one that was recovered, and those are the words with which every replica of the next life begins.
///
/// `Err` means out of memory, and gives nothing back, whichever lives were run before. The call waits for its workers, and does not return
/// where a life does not end: see `run_life`.
pub fn run_lives<O: TypedObject + Sync, R: Threads + Wait + Sync, G: Gate + Sync>(
    rt: &R,
    alloc: Global,
    object: &O,
    script: &Script<O::Op>,
    gate: &G,
) -> Result<Lived<O::Reply>, AllocError>
    requires lines { 0 < length script.now.lives → AreFewLines (O.line_count object.now) }
    requires limits { KeepsLimits (O.meaning object.now).is_op 8 script.now }
    ensures { IfOk result (HaveLivedOver O.Object object.now (O.meaning object.now) script.now.lives) }
{
    let mut lived = Lived::new(alloc);
    for life in script.lives.as_slice() {
        lived = run_next_life(rt, alloc, object, lived, &life.lent(), gate)?;
    }
    Ok(lived)
}

impl<Reply> Lived<Reply> {
    /// The result before any life was run.
    pub fn new(alloc: Global) -> Lived<Reply>
        ensures { result ≡ record { records = []; trails = []; image = None; base = None } }
    {
        Lived {
            records: Items::new(alloc),
            trails: Items::new(alloc),
            image: None,
            base: None,
        }
    }
}

/// Runs one life more, as `run_lives` does, from what the last one left, and reopens the memory that this one leaves.
///
/// `Err` means out of memory, and gives nothing back. The call waits for its workers, and does not return where the life does not end.
pub fn run_next_life<O: TypedObject + Sync, R: Threads + Wait + Sync, G: Gate + Sync>(
    rt: &R,
    alloc: Global,
    object: &O,
    lived: Lived<O::Reply>,
    life: &BorrowedLife<'_, O::Op>,
    gate: &G,
) -> Result<Lived<O::Reply>, AllocError>
    requires lived { (lives : List (Life O.Op)) × HaveLivedOver O.Object object.now (O.meaning object.now) lives lived × (command_count lives + length life.now.commands ≤ 100000) }
    requires lines { AreFewLines (O.line_count object.now) }
    requires life { IsLifeInLimits (O.meaning object.now).is_op 8 life.now }
    ensures { (lives : List (Life O.Op)) → HaveLivedOver O.Object object.now (O.meaning object.now) lives lived → IfOk result (HaveLivedOver O.Object object.now (O.meaning object.now) (lives ++ life.now ∷ [])) }
{
    let Lived {
        mut records,
        mut trails,
        image: _,
        base,
    } = lived;
    let base = next_base(alloc, object, base)?;
    let Ran {
        report,
        trail,
        image,
        next,
    } = run_one(rt, alloc, object, &base, life, gate)?;
    // the object's steps are what its operations mean: so the lives so far and this one are lives of one object
    steps_are_meant(object);
    records.push(report)?;
    trails.push(trail)?;
    Ok(Lived {
        records,
        trails,
        image: Some(image),
        base: Some(next),
    })
}

/// The base of the next life: the one that was recovered last, and before the first life the object's first base. `Err` means out of memory.
fn next_base<O: TypedObject>(
    alloc: Global,
    object: &O,
    base: Option<Base>,
) -> Result<Base, AllocError>
    requires lines { AreFewLines (O.line_count object.now) }
    ensures { IfOk result (IsNextBase (O.meaning object.now) (O.line_count object.now) (O.lawful object.now) base) }
{
    match base {
        Some(base) => Ok(base),
        None => first_base(alloc, object),
    }
}

/// The base of a first life, which begins with nothing. `Err` means out of memory.
pub fn first_base<O: TypedObject>(alloc: Global, object: &O) -> Result<Base, AllocError>
    requires lines { AreFewLines (O.line_count object.now) }
    ensures begins { IfOk result (λ base. BeginsLife (O.meaning object.now) (O.line_count object.now) (O.lawful object.now) (nothing_begun (O.meaning object.now)) base) }
    ensures place { IfOk result (λ base. base.place ≡ 0) }
{
    let base = Base::fresh(alloc, object)?;
    // the object's first base begins with nothing: no client has an entry before it
    fresh_bases_begin_with_nothing(object, &base);
    Ok(base)
}

/// Runs one life from a base to its crash by the life's choice, and recovers, with the memory reopened.
fn run_one<O: TypedObject + Sync, R: Threads + Wait + Sync, G: Gate + Sync>(
    rt: &R,
    alloc: Global,
    object: &O,
    base: &Base,
    life: &BorrowedLife<'_, O::Op>,
    gate: &G,
) -> Result<Ran<O::Reply>, AllocError>
    requires { CanBeginOver O.Object object.now (O.meaning object.now) life.now base.now }
    ensures { (begun : Begun O.Store) → IsBaseOf (O.meaning object.now) base.now begun → IfOk result (HasLivedOver O.Object object.now (O.meaning object.now) life.now begun base.now) }
{
    let (service, callers) = start_life(alloc, object, life, base)?;
    let (report, remains) = run_life(rt, alloc, service, callers, life, gate)?;
    let crashed = end_in_crash(alloc, object, base, life.choice(), &remains)?;
    let _memory = reopen_image(alloc, &crashed.image)?;
    let flagged = with_kept(report, crashed.kept, crashed.items);
    // each operation of the life is a value of its type
    operations_are_values(object, life);
    // each reply of the record is a value of its type
    replies_are_values(object, &flagged);
    // the record is one of a legal life, and the recovered base begins the next one
    lives_that_ran_have_lived(object, base);
    Ok(Ran {
        report: flagged,
        trail: remains.trail,
        image: crashed.image,
        next: crashed.next,
    })
}

/// The record `report` with its numbers of kept entries and of items filled in, and with the kept flag of each of its stop lines.
fn with_kept<Reply: Drop>(report: LifeRecord<Reply>, kept: u64, items: u64) -> LifeRecord<Reply>
    ensures { HasFlags report kept items result }
{
    let mut stops = report.stops.into_vec();
    flag_stops(report.journal.as_slice(), report.from, kept, &mut stops);
    LifeRecord {
        stops: Items::of(stops),
        kept,
        items,
        ..report
    }
}

//! Callers on threads of their own, and the object alone.

ghost use Rattle.std.specs.Prelude.{◌≡◌, ◌<◌, ℕ, All, IfOk, map, slice_index_or, vec_len};
ghost use Rattle.cx_table.specs.Remains.{AreSeats};
ghost use Rattle.cx_service.specs.Callers.{IsCallerOf};
ghost use Rattle.cx_service.specs.Closes.{seat_of, seats_of};
ghost use Rattle.service_tests.specs.Tests.{IsHandedBack};

use crate::alone::made_alone;
use crate::calls::{Call, Way, all_asked};
use crate::holds::holds;
use crate::starts::{all_started, has_rising_codes};
use crate::tasks::Work;
use cx_base::Object;
use cx_base::tally::Tally;
use cx_service::{Caller, Handed, Service};
use cx_table::Remains;
use doc_store::DocStore;
use std::alloc::{AllocError, Global};
use std::test::Fail;
use std::thread::{Threads, map_vec};

// A call with turns enough to be answered.
const UNTIL_ANSWERED: Way = Way {
    twice: false,
    turns: 1_000_000,
    beside: true,
};

// A caller after its calls, and what it was told of each.
#[derive(Drop)]
struct Worked {
    caller: Handed,
    log: Vec<Call>,
}

// A caller asks for its operations.
fn make_calls<O: Object>(alloc: Global, service: &Service<O>, caller: Caller, work: Work) -> Worked
    requires { IsCallerOf service.now caller }
    ensures { IsHandedBack service.now caller result.caller }
{
    let mut log = Vec::new(alloc);
    let idle = Handed::Idle(caller);
    let caller = all_asked(service, idle, work, UNTIL_ANSWERED, &mut log);
    Worked { caller, log }
}

// Each caller asks for its operations, on a thread of its own.
fn each_works<O: Object + Send + Sync, R: Threads + Sync>(
    rt: &R,
    alloc: Global,
    service: &Service<O>,
    callers: Vec<Caller>,
    work: Work,
) -> Result<Vec<Worked>, AllocError>
    requires { All (IsCallerOf service.now) callers.items }
    ensures long { IfOk result (λ v. vec_len v ≡ vec_len callers) }
    ensures each { IfOk result (λ v. (i : ℕ) (d : _) (e : _) → i < vec_len callers → IsHandedBack service.now (slice_index_or callers.items i d) (slice_index_or v.items i e).caller) }
{
    map_vec(
        rt,
        callers,
        &|caller: Caller| -> Worked
            requires { IsCallerOf service.now caller }
            ensures { IsHandedBack service.entry.now caller result.caller }
        { make_calls(alloc, service, caller, work) },
    )
}

// All the callers of a service ask for their operations, each on a thread of its own, and all of them come back.
fn all_work<O: Object + Send + Sync, R: Threads + Sync>(
    rt: &R,
    alloc: Global,
    service: &Service<O>,
    callers: Vec<Caller>,
    work: Work,
) -> Result<Vec<Worked>, AllocError>
    requires each { All (IsCallerOf service.now) callers.items }
    requires all { AreSeats service.now callers.items }
    ensures { IfOk result (λ v. AreSeats service.now (map (λ w. seat_of w.caller) v.items)) }
{
    let all = each_works(rt, alloc, service, callers, work)?;
    Ok(all)
}

// Returns the callers, and puts the log of each at the end of `logs`.
fn parted(
    alloc: Global,
    all: Vec<Worked>,
    logs: &mut Vec<Vec<Call>>,
) -> Result<Vec<Handed>, AllocError>
    ensures { IfOk result (λ h. seats_of h.items ≡ map (λ w. seat_of w.caller) all.items) }
{
    let mut callers = Vec::new(alloc);
    for worked in all {
        let Worked { caller, log } = worked;
        callers.push(caller)?;
        logs.push(log)?;
    }
    Ok(callers)
}

/// What callers were told on threads of their own, the fewest entries of others that one of them applied by their write sets, and what
/// their service left when it was closed.
#[derive(Drop)]
pub(crate) struct Ran {
    pub(crate) logs: Vec<Vec<Call>>,
    pub(crate) taken: u64,
    pub(crate) remains: Remains,
}

/// The fewest entries of others that one of the callers applied by their write sets, and 0 where a caller is in a call or stopped.
pub(crate) fn fewest_taken(callers: &[Handed]) -> u64 {
    let mut fewest = u64::MAX;
    for handed in callers {
        let taken = match handed {
            Handed::Idle(caller) => caller.taken(),
            Handed::Linked(_) | Handed::Stopped(_) => 0,
        };
        fewest = fewest.min(taken);
    }
    fewest
}

/// All the callers of a service ask for operations on threads of their own, and what each was told is put at the end of a list.
pub(crate) fn all_worked<O: Object + Send + Sync, R: Threads + Sync>(
    rt: &R,
    alloc: Global,
    service: &Service<O>,
    callers: Vec<Caller>,
    work: Work,
    logs: &mut Vec<Vec<Call>>,
) -> Result<Vec<Handed>, AllocError>
    requires each { All (IsCallerOf service.now) callers.items }
    requires all { AreSeats service.now callers.items }
    ensures { IfOk result (λ h. AreSeats service.now (seats_of h.items)) }
{
    let all = all_work(rt, alloc, service, callers, work)?;
    parted(alloc, all, logs)
}

/// Callers of a service ask for operations on threads of their own, and the service is closed.
pub(crate) fn run_on_threads<O: Object + Send + Sync, R: Threads + Sync>(
    rt: &R,
    alloc: Global,
    object: O,
    callers: u32,
    work: Work,
) -> Result<Ran, AllocError> {
    let Ok((service, seats)) = all_started(alloc, object, callers) else {
        return Err(AllocError);
    };
    let mut logs = Vec::new(alloc);
    let handed = all_worked(rt, alloc, &service, seats, work, &mut logs)?;
    let taken = fewest_taken(&handed);
    match service.close(alloc, handed) {
        Ok(remains) => Ok(Ran {
            logs,
            taken,
            remains,
        }),
        Err(_) => Err(AllocError),
    }
}

/// The number of callers, what they ask for, and how many updates and how many reads beside the queue they make in all.
pub(crate) type Row = (u32, Work, u64, u64);

// How many reads were answered beside the queue.
fn reads(logs: &[Vec<Call>]) -> u64 {
    let mut count = 0u64;
    for log in logs {
        count = count.wrapping_add(reads_in(log));
    }
    count
}

fn reads_in(log: &[Call]) -> u64 {
    let mut count = 0u64;
    for call in log {
        if call.is_beside() {
            count = count.wrapping_add(1);
        }
    }
    count
}

/// Whether the object alone gives each caller the reply that it was told, as many updates and reads were made as the row says, the region published last
/// is the object's after the updates, and the published codes rise.
pub(crate) fn is_as_alone<O: Object>(
    alloc: Global,
    ran: &Ran,
    object: &O,
    row: &Row,
) -> Result<bool, AllocError> {
    let (_, work, updates, beside) = *row;
    Ok(match made_alone(alloc, object, work, &ran.logs)? {
        Some(alone) => {
            alone.updates == updates
                && reads(&ran.logs) == beside
                && has_rising_codes(&ran.remains)
                && alone.is_left(&ran.remains, &ran.logs)
        }
        None => false,
    })
}

// Whether the callers of a row, on threads of their own over `object`, are told what the same object alone replies.
fn is_shared<O: Object + Send + Sync, R: Threads + Sync>(
    rt: &R,
    alloc: Global,
    object: O,
    alone: &O,
    row: &Row,
) -> Result<bool, AllocError> {
    let (callers, work, _, _) = *row;
    let ran = run_on_threads(rt, alloc, object, callers, work)?;
    is_as_alone(alloc, &ran, alone, row)
}

// Whether the callers of a row are told what the object alone replies. The object is the one that the row's operations are of.
fn is_right<R: Threads + Sync>(rt: &R, alloc: Global, row: &Row) -> Result<bool, AllocError> {
    match row.1 {
        Work::Documents => is_shared(rt, alloc, DocStore::of(64), &DocStore::of(64), row),
        Work::Long => is_shared(rt, alloc, DocStore::of(256), &DocStore::of(256), row),
        Work::Lagging { count: _ } => {
            is_shared(rt, alloc, DocStore::of(4096), &DocStore::of(4096), row)
        }
        _ => is_shared(rt, alloc, Tally, &Tally, row),
    }
}

// The first row whose callers are told something else than the object alone replies.
fn first_wrong<R: Threads + Sync>(
    rt: &R,
    alloc: Global,
    rows: &[Row],
) -> Result<Option<usize>, AllocError> {
    for (i, row) in rows.iter().enumerate() {
        if !is_right(rt, alloc, row)? {
            return Ok(Some(i));
        }
    }
    Ok(None)
}

const ROWS: [Row; 7] = [
    // each caller makes 24 updates and 6 reads
    (2, Work::Sums, 48, 12),
    (4, Work::Sums, 96, 24),
    (8, Work::Sums, 192, 48),
    (2, Work::Documents, 48, 12),
    (4, Work::Documents, 96, 24),
    (8, Work::Documents, 192, 48),
    // two callers make 24 updates and 6 reads each, and the two others 30 reads each
    (4, Work::Apart, 48, 72),
];

#[test]
fn callers_on_threads(rt: HostRuntime) -> Result<(), Fail> {
    holds(&rt, first_wrong(&rt, rt.alloc(), &ROWS)?.is_none());
    Ok(())
}

#[test]
fn a_long_run_on_threads(rt: HostRuntime) -> Result<(), Fail> {
    let row = (4, Work::Long, 80_000, 1_600);
    let object = DocStore::of(256);
    let ran = run_on_threads(&rt, rt.alloc(), DocStore::of(256), 4, Work::Long)?;
    holds(&rt, is_as_alone(rt.alloc(), &ran, &object, &row)?);
    holds(&rt, ran.taken > 0);
    Ok(())
}

// Callers that fall behind beside others, and renew their replicas by the lines that changed: in the last row of each number of callers each
// slot of the ring of gaps is written five times and more.
const LAGGING: [Row; 4] = [
    (2, Work::Lagging { count: 3000 }, 2972, 58),
    (2, Work::Lagging { count: 6000 }, 5913, 117),
    (4, Work::Lagging { count: 6000 }, 11826, 234),
    (8, Work::Lagging { count: 6000 }, 23652, 468),
];

#[test]
fn callers_fall_behind_on_threads(rt: HostRuntime) -> Result<(), Fail> {
    holds(&rt, first_wrong(&rt, rt.alloc(), &LAGGING)?.is_none());
    Ok(())
}

//! Media that are made ready for the next life, with a loss of power at each step, and what bases say of callers.

ghost use Rattle.std.specs.Prelude.{◌≡◌, ◌<◌, ◌≤◌, IfOk, length};
ghost use Rattle.cx_base.specs.Tally.{IsTally};
ghost use Rattle.cx_core.specs.Base.{LawfulBase};
ghost use Rattle.recovery.specs.Reopened.{HasReplicas};

use crate::calls::UPDATE;
use crate::closed::recovered;
use crate::holds::holds;
use crate::starts::{NO_LIMIT, base_at};
use crate::sum_calls::{Part, played_from};
use crate::tasks::{Work, adds};
use cx_core::Base;
use pmem_model::Medium;
use recovery::{Outcome, outcome, reopen};
use std::alloc::{AllocError, Global};
use std::test::Fail;

// The region that the root names.
#[derive(Clone, Copy)]
enum Root {
    First,
    Second,
}

impl Root {
    fn first_line(self) -> u64
        ensures { result ≤ 210 }
    {
        match self {
            Root::First => 0,
            Root::Second => 210,
        }
    }

    // A root code that names this region.
    fn code(self) -> u64 {
        match self {
            Root::First => 0,
            Root::Second => 1,
        }
    }

    // The words of this region in an image.
    fn of(self, image: &[u64]) -> &[u64] {
        let words = match self {
            Root::First => image.get(..1680),
            Root::Second => image.get(1680..),
        };
        words.unwrap_or(&[])
    }
}

// Whether both regions have the same words, no word is dirty, and no line of the region that the root names was stored to.
fn is_level(medium: &Medium, root: Root) -> bool
    requires { HasReplicas 1 64 medium.now }
{
    let own = root.first_line();
    for at in 0..1680 {
        if medium.load(at) != medium.load(1680 + at)
            || medium.is_dirty(at)
            || medium.is_dirty(1680 + at)
            || medium.stores(own + at / 8) != 0
        {
            return false;
        }
    }
    true
}

// A medium of one caller and an object of 64 lines: two regions of 210 lines. Its words have no meaning; the lines 0, 5, 10 .. of the first region are
// those of the second, and of the other words one in three.
fn scattered(alloc: Global) -> Result<Medium, AllocError>
    ensures { IfOk result (HasReplicas 1 64) }
{
    let mut words = vec![in alloc; 0; 3360]?;
    for at in 0..3360usize {
        let k = at as u64 % 1680;
        let same = at >= 1680 || k / 8 % 5 == 0 || k % 3 == 0;
        let of = if same { k } else { k + 5000 };
        words[at] = (of + 1).wrapping_mul(0x9e37_79b9_7f4a_7c15);
    }
    let medium = Medium::of(alloc, words)?;
    Ok(medium)
}

// Whether a loss of power leaves the words `want` in the region that the root names, by each of four choices.
fn stands(medium: &Medium, root: Root, image: &mut [u64], want: &[u64]) -> bool
    requires medium { HasReplicas 1 64 medium.now }
    requires image { length image.old ≡ 3360 }
    ensures { length image.new ≡ 3360 }
{
    for choice in 0..4 {
        medium.image(choice, image);
        if root.of(image) != want {
            return false;
        }
    }
    true
}

fn store(medium: &mut Medium, at: u64, word: u64)
    requires medium { HasReplicas 1 64 medium.old }
    requires at { at < 3360 }
    ensures { HasReplicas 1 64 medium.new }
{
    medium.store(at, word);
}

fn write_back(medium: &mut Medium, line: u64)
    requires medium { HasReplicas 1 64 medium.old }
    requires line { line < 420 }
    ensures { HasReplicas 1 64 medium.new }
{
    medium.write_back(line);
}

fn fence(medium: &mut Medium)
    requires { HasReplicas 1 64 medium.old }
    ensures { HasReplicas 1 64 medium.new }
{
    medium.fence();
}

fn reopen_one(medium: &mut Medium, root: u64)
    requires { HasReplicas 1 64 medium.old }
    ensures { HasReplicas 1 64 medium.new }
{
    reopen(medium, 1, 64, root);
}

// Stores to a line each word in which it differs from that line of the root's region. Returns the number of stores. `None`: after one of them a loss of
// power would not leave the words `want` in the root's region.
fn line_stores(
    medium: &mut Medium,
    root: Root,
    line: u64,
    image: &mut [u64],
    want: &[u64],
) -> Option<u64>
    requires medium { HasReplicas 1 64 medium.old }
    requires line { line < 420 }
    requires image { length image.old ≡ 3360 }
    ensures medium { HasReplicas 1 64 medium.new }
    ensures image { length image.new ≡ 3360 }
{
    let source = root.first_line() + line % 210;
    let mut stores = 0u64;
    for i in 0..8 {
        let word = medium.load(8 * source + i);
        if medium.load(8 * line + i) != word {
            store(medium, 8 * line + i, word);
            if !stands(medium, root, image, want) {
                return None;
            }
            stores = stores.wrapping_add(1);
        }
    }
    Some(stores)
}

// Makes a line equal to that line of the root's region and writes it back, as `reopen` does. Returns the number of steps. `None`: after one of them a loss
// of power would not leave the words `want` in the root's region.
fn line_steps(
    medium: &mut Medium,
    root: Root,
    line: u64,
    image: &mut [u64],
    want: &[u64],
) -> Option<u64>
    requires medium { HasReplicas 1 64 medium.old }
    requires line { line < 420 }
    requires image { length image.old ≡ 3360 }
    ensures medium { HasReplicas 1 64 medium.new }
    ensures image { length image.new ≡ 3360 }
{
    let stores = line_stores(medium, root, line, image, want)?;
    if stores == 0 {
        return Some(0);
    }
    write_back(medium, line);
    if !stands(medium, root, image, want) {
        return None;
    }
    Some(stores.wrapping_add(1))
}

// Makes all lines of both regions equal to those of the root's region, and then makes a fence. Returns the number of steps. `None`: after one of them a
// loss of power would not leave the words `want` in the root's region.
fn all_steps(medium: &mut Medium, root: Root, image: &mut [u64], want: &[u64]) -> Option<u64>
    requires medium { HasReplicas 1 64 medium.old }
    requires image { length image.old ≡ 3360 }
    ensures { HasReplicas 1 64 medium.new }
{
    let mut steps = 0u64;
    for line in 0..420 {
        let more = line_steps(medium, root, line, image, want)?;
        steps = steps.wrapping_add(more);
    }
    fence(medium);
    if !stands(medium, root, image, want) {
        return None;
    }
    Some(steps.wrapping_add(1))
}

// Whether two media have the same words, the same dirty marks, and as many stores to each line.
fn are_same(a: &Medium, b: &Medium) -> bool
    requires a { HasReplicas 1 64 a.now }
    requires b { HasReplicas 1 64 b.now }
{
    for at in 0..3360 {
        if a.load(at) != b.load(at)
            || a.is_dirty(at) != b.is_dirty(at)
            || a.stores(at / 8) != b.stores(at / 8)
        {
            return false;
        }
    }
    true
}

// The words of the root's region.
fn root_words(
    alloc: Global,
    medium: &Medium,
    root: Root,
    image: &mut [u64],
) -> Result<Vec<u64>, AllocError>
    requires medium { HasReplicas 1 64 medium.now }
    requires image { length image.old ≡ 3360 }
    ensures { length image.new ≡ 3360 }
{
    medium.image(0, image);
    Vec::from_slice(alloc, root.of(image))
}

// Whether a scattered medium is made ready by `steps` steps, a loss of power after each of them leaves the root's region, and `reopen` makes the same
// medium.
fn stands_at_each_step(
    alloc: Global,
    root: Root,
    image: &mut [u64],
    steps: u64,
) -> Result<bool, AllocError>
    requires { length image.old ≡ 3360 }
{
    let mut walked = scattered(alloc)?;
    let want = root_words(alloc, &walked, root, image)?;
    if all_steps(&mut walked, root, image, &want) != Some(steps) {
        return Ok(false);
    }
    let mut medium = scattered(alloc)?;
    reopen_one(&mut medium, root.code());
    Ok(is_level(&medium, root) && are_same(&medium, &walked))
}

// Whether a scattered medium is made ready by `steps` steps, after each of which a loss of power leaves the root's region.
fn all_stands(alloc: Global, root: Root, steps: u64) -> Result<bool, AllocError> {
    let mut image = vec![in alloc; 0; 3360]?;
    stands_at_each_step(alloc, root, &mut image, steps)
}

#[test]
fn a_loss_of_power_at_each_step_leaves_the_roots_region(rt: HostRuntime) -> Result<(), Fail> {
    // 896 stores of words that differ, a write back of each of their 168 lines, and the fence
    for root in [Root::First, Root::Second] {
        holds(&rt, all_stands(rt.alloc(), root, 1065)?);
    }
    Ok(())
}

// What a base has of a caller's last entry: its number and word 0 of its reply. `None` where no entry of the caller was applied.
type Said = Option<(u64, u64)>;

// Whether a base has of a caller's last entry what is wanted.
fn says(base: &Base, caller: u32, want: Said) -> bool
    requires base { LawfulBase 64 IsTally base.now }
    requires caller { caller < 8 }
{
    match outcome(base, caller) {
        Outcome::Never => want.is_none(),
        Outcome::Applied { number, reply } => match want {
            Some((wanted, word)) => number == wanted && reply == adds(word),
            None => false,
        },
    }
}

// The base that is recovered after a service opened from `base`, a part was asked for, and power was lost.
fn base_after(alloc: Global, base: &Base, part: Part) -> Result<Base, AllocError>
    requires { LawfulBase 64 IsTally base.now }
    ensures { IfOk result (LawfulBase 64 IsTally) }
{
    let played = played_from(alloc, base, &[NO_LIMIT, NO_LIMIT], &[part])?;
    match recovered(alloc, &played.remains, 0) {
        Ok(next) => Ok(next),
        Err(_) => Err(AllocError),
    }
}

// A life of one part, which opens from what is kept of the life before, and what the base after it has of callers 0 and 1.
type Row = (Part, Said, Said);

// Caller 0 adds 0 twice and is answered 0, then it has no entry in two lives.
const LIVES: [Row; 4] = [
    (
        (
            0,
            Work::Adds {
                amount: 0,
                count: 2,
            },
            UPDATE,
        ),
        Some((2, 0)),
        None,
    ),
    (
        (
            1,
            Work::Adds {
                amount: 5,
                count: 1,
            },
            UPDATE,
        ),
        Some((2, 0)),
        Some((1, 5)),
    ),
    (
        (
            1,
            Work::Adds {
                amount: 2,
                count: 3,
            },
            UPDATE,
        ),
        Some((2, 0)),
        Some((4, 11)),
    ),
    (
        (
            0,
            Work::Adds {
                amount: 7,
                count: 1,
            },
            UPDATE,
        ),
        Some((3, 18)),
        Some((4, 11)),
    ),
];

// The first life after which the base has something else of callers 0 and 1 than the row says, or an entry of caller 7, which makes none.
fn first_wrong(alloc: Global, lives: &[Row]) -> Result<Option<usize>, AllocError> {
    let mut base = base_at(alloc, 0)?;
    if !says(&base, 0, None) || !says(&base, 1, None) {
        return Ok(Some(lives.len()));
    }
    for (i, (part, first, second)) in lives.iter().enumerate() {
        base = base_after(alloc, &base, *part)?;
        if !says(&base, 0, *first) || !says(&base, 1, *second) || !says(&base, 7, None) {
            return Ok(Some(i));
        }
    }
    Ok(None)
}

#[test]
fn bases_say_each_callers_last_entry(rt: HostRuntime) -> Result<(), Fail> {
    holds(&rt, first_wrong(rt.alloc(), &LIVES)?.is_none());
    Ok(())
}

//! What a caller knows and did: its local state, which only its own steps change.

ghost use Rattle.std.specs.Prelude.{◌≡◌, ◌^◌, ◌≤◌};
ghost use Rattle.cx_core.specs.State.{blank_cell, opening_local};

use crate::entry::Entry;
use crate::layout::MAX_WORD;
use cx_base::{ENTRY_WORDS, Items, OpWords, SET_WORDS, root_code};
use std::alloc::Global;

/// What a caller wrote into one of its cells.
#[derive(Clone, Copy, Debug, Drop)]
pub struct Cell {
    /// The entry's number and its operation.
    pub words: [u64; ENTRY_WORDS],
    /// The ticket with which the cell was linked since it was last written.
    pub ticket: Option<u64>,
    /// The write set: the number of its pairs, then address and value of each.
    pub set: [u64; SET_WORDS],
    /// The offer word. The cell's entry is offered where it is the ticket plus 1.
    pub offer: u64,
}

/// An entry with the ticket at which it is linked.
#[derive(Clone, Debug, PartialEq, Eq, Drop)]
pub struct Linked {
    pub ticket: u64,
    pub entry: Entry,
}

/// A reply to the entry at a ticket.
#[derive(Clone, Copy, Debug, PartialEq, Eq, Drop)]
pub struct Answer {
    pub ticket: u64,
    pub reply: OpWords,
}

/// A read that was acknowledged at a place.
#[derive(Clone, Copy, Debug, PartialEq, Eq, Drop)]
pub struct SeenRead {
    pub place: u64,
    pub op: OpWords,
    pub reply: OpWords,
    /// The number of the caller's entries answered before it or by the same step.
    pub before: u64,
}

/// A link slot and the word found there.
#[derive(Clone, Copy, Debug, PartialEq, Eq, Drop)]
pub struct SeenSlot {
    pub slot: u64,
    pub word: u64,
}

/// A cell, the ticket for which its offer word was loaded, and the word found.
#[derive(Clone, Copy, Debug, PartialEq, Eq, Drop)]
pub struct SeenOffer {
    pub cell: u64,
    pub ticket: u64,
    pub word: u64,
}

/// The least protection word that a scan found, and the least caller that had it.
#[derive(Clone, Copy, Debug, PartialEq, Eq, Drop)]
pub struct SeenNeed {
    pub need: u64,
    pub caller: u64,
}

/// A replica that was tried, and the lock word found.
#[derive(Clone, Copy, Debug, PartialEq, Eq, Drop)]
pub struct SeenLock {
    pub replica: u64,
    pub word: u64,
}

/// A replica held exclusively, with its words and the addresses stored to since they were last persisted.
#[derive(Drop)]
pub struct HeldExclusive {
    pub replica: u64,
    pub words: Items<u64>,
    pub dirty: Items<u64>,
}

/// A replica held shared, with the words loaded from it by address.
#[derive(Drop)]
pub struct HeldShared {
    pub replica: u64,
    pub loaded: Items<(u64, u64)>,
}

/// A replica whose exclusive right was turned into a shared one, and its place.
#[derive(Clone, Copy, Debug, PartialEq, Eq, Drop)]
pub struct HeldDowngraded {
    pub replica: u64,
    pub place: u64,
}

/// A root code that won and is not retired, and the code before it.
#[derive(Clone, Copy, Debug, PartialEq, Eq, Drop)]
pub struct WonCode {
    pub code: u64,
    pub before: u64,
}

/// Why no cell of a caller is idle: another caller's need keeps its cells from being written again.
#[derive(Clone, Copy, Debug, PartialEq, Eq, Drop)]
pub struct FullNote {
    /// The other caller that keeps them: of the callers with the least need the least.
    pub holder: u32,
    /// The place from which on that caller needs entries. It is at most `ticket`.
    pub need: u64,
    /// The least ticket of the caller's cells.
    pub ticket: u64,
}

/// What keeps the cells from a ticket on from being written again.
#[derive(Clone, Copy, Debug, PartialEq, Eq, Drop)]
pub enum Protection {
    Unprotected,
    Stated(u64),
    Confirmed(u64),
}

/// A scan of the protection words that is not at its end.
#[derive(Clone, Copy, Debug, PartialEq, Eq, Drop)]
pub struct Scan {
    pub target: u64,
    pub bound: u64,
    /// The next caller to scan.
    pub next: u64,
    pub least: Option<SeenNeed>,
}

/// The local state of a caller. It opens with `front`, `seen_free`, `seen_low` and `floor` at the base's place and
/// with `seen_cur` and `raised` at the opening root code.
#[derive(Drop)]
pub struct Local {
    /// Which of the table's callers it is, counted from 0.
    pub number: u32,
    /// Every ticket from the base's place to below it is linked.
    pub front: u64,
    /// Its linked entries with their tickets, in order.
    pub own: Items<Linked>,
    /// The tickets and replies of its acknowledged entries, in order.
    pub answered: Items<Answer>,
    /// Its acknowledged reads, in order.
    pub seen_reads: Items<SeenRead>,
    /// What stands in its cells.
    pub cells: [Cell; 16],
    /// The link slot last looked at.
    pub seen_slot: Option<SeenSlot>,
    /// The offer word last loaded.
    pub seen_offer: Option<SeenOffer>,
    /// The greatest FREE found.
    pub seen_free: u64,
    /// The greatest LOW found.
    pub seen_low: u64,
    /// What the last whole scan found.
    pub seen_need: Option<SeenNeed>,
    /// The last word found in CUR.
    pub seen_cur: u64,
    /// Whether `seen_cur` was loaded, and nothing that ends its use came since.
    pub fresh: bool,
    /// The replicas whose exclusive try was refused since it was last emptied.
    pub refused: Items<u64>,
    /// The replica last tried.
    pub seen_lock: Option<SeenLock>,
    pub exclusive: Option<HeldExclusive>,
    pub shared: Option<HeldShared>,
    /// The replica on which it left a passer's mark.
    pub passer: Option<u64>,
    pub downgraded: Option<HeldDowngraded>,
    pub won: Option<WonCode>,
    /// The greatest code with which it raised DUR.
    pub raised: u64,
    /// The greatest place at which it was answered.
    pub floor: u64,
    pub protection: Protection,
    pub scan: Option<Scan>,
    /// The steps made. This and the counts below stay at 2^64 - 1 once there.
    pub steps: u64,
    /// The steps allowed, where 2^64 - 1 is no limit.
    pub limit: u64,
    /// The refusals met. One is met where all replicas refused an exclusive try in turn; another where the code last loaded from CUR, while fresh, proved
    /// outdated or out of reach: its replica is held exclusively or at another place, LOW is above a place stated at or above the code's, or a publication
    /// over it was lost.
    pub met: u64,
    /// The scans of the callers' needs that it ended.
    pub scans: u64,
}

/// A cell never written.
const fn blank() -> Cell
    ensures { result ≡ blank_cell }
{
    Cell {
        words: [0; ENTRY_WORDS],
        ticket: None,
        set: [0; SET_WORDS],
        offer: 0,
    }
}

impl Local {
    /// The local state with which a caller opens, of `callers` callers, where the base has this place. It takes no
    /// memory.
    pub fn opening(alloc: Global, callers: u32, place: u64, caller: u32) -> Local
        requires some { 1 ≤ callers }
        requires few { callers ≤ 8 }
        requires place { place ≤ 2 ^ 40 }
        ensures { result ≡ opening_local callers place caller }
    {
        let code = root_code(callers, place, 0);
        Local {
            number: caller,
            front: place,
            own: Items::new(alloc),
            answered: Items::new(alloc),
            seen_reads: Items::new(alloc),
            cells: [blank(); 16],
            seen_slot: None,
            seen_offer: None,
            seen_free: place,
            seen_low: place,
            seen_need: None,
            seen_cur: code,
            fresh: false,
            refused: Items::new(alloc),
            seen_lock: None,
            exclusive: None,
            shared: None,
            passer: None,
            downgraded: None,
            won: None,
            raised: code,
            floor: place,
            protection: Protection::Unprotected,
            scan: None,
            steps: 0,
            limit: MAX_WORD,
            met: 0,
            scans: 0,
        }
    }
}

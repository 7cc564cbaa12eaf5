//! Where the shared words stand in the table, and the parts of a region in it.

ghost use Rattle.std.specs.Prelude.{◌≡◌, ◌+◌, ◌*◌, ◌^◌, ◌<◌, ◌≤◌};
ghost use Rattle.cx_core.specs.Layout.{cell_at, cell_count, link_at, lock_at, need_at, offer_at, per_at, replicas_at, set_at, vol_at, word_count};
ghost use Rattle.cx_core.specs.Region as spec;

use cx_base::ENTRY_WORDS;

/// CUR, the current root code.
pub const CUR_AT: usize = 0;
/// DUR, the durable root code.
pub const DUR_AT: usize = 1;
/// LOW, below which no protection is confirmed any more.
pub const LOW_AT: usize = 2;
/// FREE, the ticket below which cells may be written again.
pub const FREE_AT: usize = 3;

/// The cells of a caller.
pub const CELLS: u64 = 16;
/// The words of a cell: the entry's number and its operation.
pub const CELL_WORDS: u64 = ENTRY_WORDS as u64;
/// The words of a write set: the number of its pairs, and 256 pairs.
pub const SET_WORDS: u64 = cx_base::SET_WORDS as u64;
/// The words of a caller's link slots, cells, offers and write sets.
pub const QUEUE_WORDS: u64 = CELLS * (1 + CELL_WORDS + 1 + SET_WORDS);
/// The protection word of a caller without one, and the limit that is none.
pub const MAX_WORD: u64 = u64::MAX;

/// What an exclusive right adds to a lock word. Each other right, and each pin, adds 1.
pub const EXCLUSIVE_MARK: u64 = 1 << 32;

/// The number of cells, and of link slots.
pub fn cell_count(callers: u32) -> u64
    ensures { result ≡ cell_count callers }
{
    CELLS * u64::from(callers)
}

/// The number of replicas.
pub fn replica_count(callers: u32) -> u64
    ensures { result ≡ 2 * callers }
{
    2 * u64::from(callers)
}

/// The protection word of a caller.
pub fn need_at(caller: u32) -> usize
    ensures { result ≡ need_at caller }
{
    4 + caller as usize
}

/// The lock word of a replica, of which there are two for each caller.
pub fn lock_at(callers: u32, replica: u64) -> usize
    requires { replica ≤ 2 * callers }
    ensures { result ≡ lock_at callers replica }
{
    4 + callers as usize + replica as usize
}

/// A link slot.
pub fn link_at(callers: u32, slot: u64) -> usize
    requires { slot ≤ cell_count callers }
    ensures { result ≡ link_at callers slot }
{
    4 + 3 * callers as usize + slot as usize
}

/// Word `i` of a cell: the entry's number, then its operation.
pub fn cell_at(callers: u32, cell: u64, i: u64) -> usize
    requires cell { cell ≤ cell_count callers }
    requires i { i < CELL_WORDS }
    ensures { result ≡ cell_at callers cell i }
{
    4 + 19 * callers as usize + (CELL_WORDS * cell + i) as usize
}

/// The offer word of a cell.
pub fn offer_at(callers: u32, cell: u64) -> usize
    requires { cell ≤ cell_count callers }
    ensures { result ≡ offer_at callers cell }
{
    4 + 2339 * callers as usize + cell as usize
}

/// Word `i` of a cell's write set.
pub fn set_at(callers: u32, cell: u64, i: u64) -> usize
    requires cell { cell ≤ cell_count callers }
    requires i { i < SET_WORDS }
    ensures { result ≡ set_at callers cell i }
{
    4 + 2355 * callers as usize + (SET_WORDS * cell + i) as usize
}

/// Where the words of replicas begin.
pub fn replicas_at(callers: u32) -> usize
    ensures { result ≡ replicas_at callers }
{
    4 + 18755 * callers as usize
}

/// Where word `i` of a replica stands, as a load gives it; `region` is the number of words of a region.
pub fn vol_at(callers: u32, region: u64, replica: u64, i: u64) -> usize
    requires small { word_count callers region < 2 ^ 64 }
    requires replica { replica < 2 * callers }
    requires i { i < region }
    ensures value { result ≡ vol_at callers region replica i }
    ensures within { result < word_count callers region }
{
    replicas_at(callers) + (region * replica + i) as usize
}

/// Word `i` of a replica as the medium holds it.
pub fn per_at(callers: u32, region: u64, replica: u64, i: u64) -> usize
    requires small { word_count callers region < 2 ^ 64 }
    requires replica { replica < 2 * callers }
    requires i { i < region }
    ensures value { result ≡ per_at callers region replica i }
    ensures within { result < word_count callers region }
{
    let vol = vol_at(callers, region, replica, i);
    vol + (region * replica_count(callers)) as usize
}

/// The words in front of the object part: the place, 7 zeros, and 8 result slots of 145 words.
pub const OBJECT_START: u64 = 1168;

/// The words of a line.
pub const LINE_WORDS: u64 = 8;

/// The lines in front of the object part.
pub const HEAD_LINES: u64 = 146;

/// Where the result slots begin.
const SLOTS_AT: u64 = 8;

/// The words of a slot: a number, and the 144 words of a reply.
const SLOT_WORDS: u64 = ENTRY_WORDS as u64;

/// The word of a region that has the place.
pub(crate) const PLACE_AT: u64 = 0;

/// A place is below this number where an entry may still come.
pub(crate) const PLACE_END: u64 = 1 << 40;

/// Where the slot of a caller begins: the number of its last entry, and after it the 144 words of the reply.
pub fn slot_start(caller: u32) -> u64
    requires { caller < 8 }
    ensures { result ≡ spec.slot_start caller }
{
    SLOTS_AT + SLOT_WORDS * u64::from(caller)
}

//! The kinds of step. Each is one atomic step of one caller on one word of the table.

use cx_base::OpWords;

/// A kind of step with its arguments. An argument out of range makes the kind's guard fail.
#[derive(Clone, Copy, Debug, PartialEq, Eq, Drop)]
pub enum Kind {
    /// Stores `v` as word `i` of the caller's cell `j`.
    WriteCell { j: u64, i: u64, v: u64 },
    /// Tries to link the entry in the caller's cell `j` at the caller's front.
    Link { j: u64 },
    /// Loads the word of link slot `s`.
    Look { s: u64 },
    /// Loads word `i` of cell `k`, which the slot last looked at names with ticket `t`.
    ReadCell { t: u64, k: u64, i: u64 },
    /// Loads FREE, the ticket below which cells may be written again.
    LoadFree,
    /// Tries to take replica `r` exclusively.
    TryExclusive { r: u64 },
    /// Tries to take replica `r` shared. Where it is held exclusively, a passer's mark stays on its lock word.
    TryShared { r: u64 },
    /// Releases the caller's shared right or downgraded right on replica `r`, or takes its passer's mark back.
    BackOff { r: u64 },
    /// Turns the caller's exclusive right on replica `r` into a shared one.
    Downgrade { r: u64 },
    /// Releases the caller's exclusive right on replica `r`.
    ReleaseExclusive { r: u64 },
    /// Loads word `i` of replica `r`. With `refused` it is marked that the word shows an outdated replica.
    LoadWord { r: u64, i: u64, refused: bool },
    /// Stores `v` as word `i` of replica `r`.
    StoreWord { r: u64, i: u64, v: u64 },
    /// Writes word `i` of replica `r` back to the medium.
    Persist { r: u64, i: u64 },
    /// Loads CUR.
    LoadCur,
    /// Tries to put the root code of the replica that the caller has downgraded in the place of the code last found in CUR.
    Publish,
    /// Raises DUR to `code`, which answers the caller's entry where its ticket is below the code's place. With `read` it also
    /// answers this operation, which only reads, at that place.
    Raise { code: u64, read: Option<OpWords> },
    /// Releases the pin on the replica of the code before the caller's win.
    Retire,
    /// States in the caller's need that it needs the tickets from `p` on.
    Protect { p: u64 },
    /// Loads LOW, which confirms the protection stated where it is at most its place.
    Confirm,
    /// Releases the caller's protection.
    Unprotect,
    /// Raises LOW, below which tickets are closed, to `target`, and begins a scan of what the callers need.
    CloseLow { target: u64 },
    /// Loads the need of caller `d`, the next one of the caller's scan.
    Scan { d: u64 },
    /// Raises FREE, the ticket below which cells may be written again, to the bound that the caller's scan found.
    OpenFree,
    /// Stores `v` as word `i` of the write set of the entry in the caller's cell `j`.
    WriteSet { j: u64, i: u64, v: u64 },
    /// Offers the write set of the entry in the caller's cell `j`.
    Offer { j: u64 },
    /// Loads the offer word of cell `k`, which the slot last looked at names with ticket `t`.
    LoadOffer { k: u64, t: u64 },
    /// Loads word `i` of the write set of cell `k`, which is offered with ticket `t`.
    ReadSet { k: u64, t: u64, i: u64 },
    /// Notes `v` as word `i` of slot `s` of the ring of gaps.
    NoteGap { s: u64, i: u64, v: u64 },
    /// Loads word `i` of slot `s` of the ring of gaps.
    LoadGap { s: u64, i: u64 },
}

/// A step of a caller.
#[derive(Clone, Copy, Debug, PartialEq, Eq, Drop)]
pub struct Event {
    pub caller: u32,
    pub kind: Kind,
}

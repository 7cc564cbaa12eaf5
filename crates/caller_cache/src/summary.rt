//! The numbers of a local state that code reads, and how each kind of step changes them.

ghost use Rattle.std.specs.Prelude.{◌≡◌, ◌&&◌, ◌+◌, ◌*◌, ◌^◌, ◌<◌, ◌≤◌, ℕ, IsTrue, MatchResult, false, length, max, slice_index_or, Some, None};
ghost use Rattle.cx_core.specs.QueueEvents.{linked, lost, seen_word};
ghost use Rattle.cx_base.specs.Codes.{root_place_of};
ghost use Rattle.cx_core.specs.declared.local.HeldDowngraded.{HeldDowngraded};
ghost use Rattle.cx_core.specs.RootEvents.{code_in, outrun, published};
ghost use Rattle.cx_core.specs.declared.kinds.Kind.TheVariants.{WriteCell, Link, Look, TryExclusive, TryShared, BackOff, LoadWord, LoadCur, Publish};
ghost use Rattle.std.specs.List.{list_all, range_with_len};
ghost use Rattle.cx_core.specs.LockEvents.{is_fresh_on, refused_by, taken};
ghost use Rattle.cx_core.specs.State.{Instance, one_more, opening_local};
ghost use Rattle.cx_core.specs.Rights.{is_at};
ghost use Rattle.caller_cache.specs.Summaries.{Follows, summary_of};
ghost use Rattle.caller_cache.specs.Raised.{is_below, raised_summary};
ghost use Rattle.table_invariant.specs.Seats.{IsAtLimit, is_outdated, unseen};

use core_guards::callers::Callers;
use core_guards::locks::is_at;
use core_guards::queue::{front_after, word_seen};
use cx_base::{Halt, root_code, root_place, root_replica};
use cx_core::layout::EXCLUSIVE_MARK;
use cx_core::{HeldDowngraded, Protection, Scan, SeenNeed, SeenOffer, SeenSlot, WonCode};

/// Whether a ticket is below a place, where there is one.
fn is_below(place: u64, ticket: Option<u64>) -> bool
    ensures { result ≡ is_below place ticket }
{
    match ticket {
        None => false,
        Some(ticket) => ticket < place,
    }
}

/// The numbers of a caller's local state that code reads: all but its lists and the words of its cells and their sets.
#[derive(Clone, Copy, Debug, Drop)]
pub struct CachedLocal {
    /// Which of the table's callers it is, counted from 0.
    pub number: u32,
    pub front: u64,
    /// The number of its linked entries.
    pub linked: u64,
    /// The ticket of its entry that is not answered yet.
    pub unanswered: Option<u64>,
    /// The tickets of its cells, and their offer words.
    pub tickets: [Option<u64>; 16],
    pub offers: [u64; 16],
    pub seen_slot: Option<SeenSlot>,
    pub seen_offer: Option<SeenOffer>,
    pub seen_free: u64,
    pub seen_low: u64,
    pub seen_cur: u64,
    pub fresh: bool,
    /// The replicas whose exclusive try was refused since it was last emptied.
    pub refused: [bool; 16],
    /// The replica that it holds exclusively, and the one that it holds shared.
    pub exclusive: Option<u64>,
    pub shared: Option<u64>,
    /// The replica on which it left a passer's mark.
    pub passer: Option<u64>,
    /// The replica on which the caller turned its exclusive right into a shared one, and the place of that replica.
    pub downgraded: Option<HeldDowngraded>,
    /// The code with which it won and that it did not retire, and the code before it.
    pub won: Option<WonCode>,
    pub raised: u64,
    pub floor: u64,
    /// What keeps the cells from a ticket on from being written again.
    pub protection: Protection,
    /// The scan of the callers' needs that is not at its end, and what the last whole one found.
    pub scan: Option<Scan>,
    pub seen_need: Option<SeenNeed>,
    /// The steps made.
    pub steps: u64,
    /// The steps allowed, where 2^64 - 1 is no limit.
    pub limit: u64,
    /// The refusals met, as `Local` counts them.
    pub met: u64,
    /// The scans of the callers' needs that it ended.
    pub scans: u64,
}

/// The numbers of a caller that made no step.
pub fn opening_summary(callers: Callers, place: u64, number: u32, limit: u64) -> CachedLocal
    requires place { place ≤ 2 ^ 40 }
    ensures { result ≡ summary_of (record (opening_local callers.number place number) { limit = limit }) }
{
    let code = root_code(callers.number, place, 0);
    CachedLocal {
        number,
        front: place,
        linked: 0,
        unanswered: None,
        tickets: [None; 16],
        offers: [0; 16],
        seen_slot: None,
        seen_offer: None,
        seen_free: place,
        seen_low: place,
        seen_cur: code,
        fresh: false,
        refused: [false; 16],
        exclusive: None,
        shared: None,
        passer: None,
        downgraded: None,
        won: None,
        raised: code,
        floor: place,
        protection: Protection::Unprotected,
        scan: None,
        seen_need: None,
        steps: 0,
        limit,
        met: 0,
        scans: 0,
    }
}

impl CachedLocal {
    /// Refuses a step where the steps equal the limit.
    pub fn check(&self) -> Result<(), Halt>
        ensures { (l : _) → self.now ≡ summary_of l → MatchResult result (λ _. ¬ IsAtLimit l) (λ _. IsAtLimit l) }
    {
        if self.steps == self.limit && self.limit != u64::MAX {
            return Err(Halt);
        }
        Ok(())
    }

    /// Counts `count` steps, each of which changes no other number, and answers whether the limit leaves them: if not, none is counted.
    pub fn count(&mut self, count: u64) -> bool
        ensures counted { IsTrue result → (self.new ≡ record self.old { steps = self.old.steps + count }) × (self.old.steps + count ≤ self.old.limit) × (self.old.steps + count < 2 ^ 64) }
        ensures short { result ≡ false → (self.new ≡ self.old) × (self.old.limit < self.old.steps + count) }
    {
        if self.steps > self.limit || count > self.limit - self.steps {
            return false;
        }
        self.steps += count;
        true
    }

    /// A word was written into cell `j`.
    pub(crate) fn write_cell(&mut self, j: u64)
        requires { j < 16 }
        ensures { (callers i v found : ℕ) → Follows callers (WriteCell j i v) found self.old self.new }
    {
        self.tickets[j as usize] = None;
        self.fresh = false;
        self.steps = self.steps.saturating_add(1);
    }

    /// The entry in cell `j` was linked at the front.
    fn win(&mut self, j: u64)
        requires j { j < 16 }
        requires front { self.old.front < 2 ^ 40 }
        requires linked { self.old.linked ≤ self.old.front }
        ensures { (l : _) → self.old ≡ summary_of l → length l.answered ≡ length l.own → self.new ≡ summary_of (linked l j) }
    {
        self.unanswered = Some(self.front);
        self.tickets[j as usize] = Some(self.front);
        self.linked += 1;
        self.front += 1;
        self.steps = self.steps.saturating_add(1);
    }

    /// The caller lost a link: the slot had the word `found` already.
    fn lose(&mut self, callers: Callers, found: u64)
        ensures { (l : _) → self.old ≡ summary_of l → self.new ≡ summary_of (lost callers.number l found) }
    {
        self.front = front_after(callers, self.front, found);
        self.steps = self.steps.saturating_add(1);
    }

    /// A link of the entry in cell `j` found this word.
    pub(crate) fn link(&mut self, callers: Callers, j: u64, found: u64)
        requires j { j < 16 }
        requires front { self.old.front < 2 ^ 40 }
        requires linked { self.old.linked ≤ self.old.front }
        ensures { Follows callers.number (Link j) found self.old self.new }
    {
        if found == self.seen_word() {
            self.win(j);
        } else {
            self.lose(callers, found);
        }
    }

    /// The word of the slot last looked at, 0 where there is none.
    pub fn seen_word(&self) -> u64
        ensures { result ≡ seen_word self.now.seen_slot }
    {
        word_seen(self.seen_slot)
    }

    /// A link slot was looked at.
    pub(crate) fn look(&mut self, callers: Callers, s: u64, found: u64)
        ensures { Follows callers.number (Look s) found self.old self.new }
    {
        self.seen_slot = Some(SeenSlot {
            slot: s,
            word: found,
        });
        self.front = front_after(callers, self.front, found);
        self.steps = self.steps.saturating_add(1);
    }

    /// Counts a step that loaded or stored a word and changes no other number.
    pub(crate) fn pass(&mut self)
        ensures { self.new ≡ record self.old { steps = one_more self.old.steps } }
    {
        self.steps = self.steps.saturating_add(1);
    }

    /// A load of FREE found this word.
    pub(crate) fn load_free(&mut self, found: u64)
        ensures { self.new ≡ record self.old { seen_free = max self.old.seen_free found; steps = one_more self.old.steps } }
    {
        self.seen_free = self.seen_free.max(found);
        self.steps = self.steps.saturating_add(1);
    }

    /// An exclusive try of a replica found this word.
    pub(crate) fn try_exclusive(&mut self, callers: Callers, r: u64, found: u64)
        requires { r < 2 * callers.number }
        ensures { Follows callers.number (TryExclusive r) found self.old self.new }
    {
        if found == 0 {
            self.take(r);
        } else {
            self.refuse(callers, r);
        }
    }

    /// The caller took replica `r` exclusively.
    fn take(&mut self, r: u64)
        ensures { (instance : Instance) (l : _) → self.old ≡ summary_of l → self.new ≡ summary_of (taken instance unseen r l) }
    {
        self.exclusive = Some(r);
        self.refused = [false; 16];
        self.steps = self.steps.saturating_add(1);
    }

    /// An exclusive try of replica `r` was refused.
    fn refuse(&mut self, callers: Callers, r: u64)
        requires { r < 2 * callers.number }
        ensures { (l : _) (found : ℕ) → self.old ≡ summary_of l → self.new ≡ summary_of (refused_by callers.number r l found) }
    {
        self.refused[r as usize] = true;
        let all = self.all_refused(callers);
        self.steps = self.steps.saturating_add(1);
        if all {
            self.refused = [false; 16];
            self.met = self.met.saturating_add(1);
        }
    }

    /// Whether an exclusive try of each replica of the table was refused since the list of refusals was last emptied.
    fn all_refused(&self, callers: Callers) -> bool
        ensures { result ≡ list_all (λ r. slice_index_or self.now.refused r false) (range_with_len 0 (2 * callers.number)) }
    {
        (0..2 * callers.number as usize).all(|r| self.refused[r])
    }

    /// A shared try of a replica found this word.
    pub(crate) fn try_shared(&mut self, callers: Callers, r: u64, found: u64)
        ensures { Follows callers.number (TryShared r) found self.old self.new }
    {
        if found < EXCLUSIVE_MARK {
            self.shared = Some(r);
        } else {
            let fresh = self.is_fresh_on(callers, r);
            self.passer = Some(r);
            if fresh {
                self.met = self.met.saturating_add(1);
                self.fresh = false;
            }
        }
        self.steps = self.steps.saturating_add(1);
    }

    /// Whether the code last loaded from CUR names this replica, and nothing ended its use.
    pub fn is_fresh_on(&self, callers: Callers, r: u64) -> bool
        ensures { (l : _) → self.now ≡ summary_of l → result ≡ is_fresh_on callers.number r l }
    {
        u64::from(root_replica(callers.number, self.seen_cur)) == r && self.fresh
    }

    /// A shared right or a downgraded one was released, or a passer's mark taken back.
    pub fn back_off(&mut self, r: u64)
        ensures { (callers found : ℕ) → Follows callers (BackOff r) found self.old self.new }
    {
        if is_at(r, self.shared) {
            self.shared = None;
        } else if is_at(r, self.passer) {
            self.passer = None;
        } else {
            self.downgraded = None;
        }
        self.steps = self.steps.saturating_add(1);
    }

    /// The exclusive right on replica `r` was turned into a shared one, where the replica's place is `place`.
    pub(crate) fn downgrade(&mut self, r: u64, place: u64)
        ensures { self.new ≡ record self.old { exclusive = None; downgraded = Some (record { replica = r; place = place }); steps = one_more self.old.steps } }
    {
        self.exclusive = None;
        self.downgraded = Some(HeldDowngraded { replica: r, place });
        self.steps = self.steps.saturating_add(1);
    }

    /// An exclusive right was released.
    pub(crate) fn release_exclusive(&mut self)
        ensures { self.new ≡ record self.old { exclusive = None; steps = one_more self.old.steps } }
    {
        self.exclusive = None;
        self.steps = self.steps.saturating_add(1);
    }

    /// A load of CUR found this code.
    pub(crate) fn load_cur(&mut self, callers: Callers, found: u64)
        ensures { Follows callers.number LoadCur found self.old self.new }
    {
        self.see_cur(callers, found);
        self.fresh = true;
        self.steps = self.steps.saturating_add(1);
    }

    /// The root code of the replica that was downgraded, 0 where there is none.
    pub fn downgraded_code(&self, callers: Callers) -> u64
        requires placed { (h : HeldDowngraded) → self.now.downgraded ≡ Some h → (h.replica < 2 * callers.number) × (h.place ≤ 2 ^ 40) }
        ensures { result ≡ code_in callers.number self.now.downgraded }
    {
        match self.downgraded {
            None => 0,
            Some(held) => root_code(callers.number, held.place, held.replica as u32),
        }
    }

    /// A publication found this word in CUR.
    pub(crate) fn publish(&mut self, callers: Callers, found: u64)
        requires placed { (h : HeldDowngraded) → self.old.downgraded ≡ Some h → (h.replica < 2 * callers.number) × (h.place ≤ 2 ^ 40) }
        ensures { Follows callers.number Publish found self.old self.new }
    {
        if found == self.seen_cur {
            let code = self.downgraded_code(callers);
            self.win_cur(callers, code);
        } else {
            self.lose_cur(callers, found);
        }
    }

    /// A publication of this code won.
    fn win_cur(&mut self, callers: Callers, code: u64)
        requires code { code ≡ code_in callers.number self.old.downgraded }
        ensures { (l : _) → self.old ≡ summary_of l → self.new ≡ summary_of (published callers.number l) }
    {
        self.won = Some(WonCode {
            code,
            before: self.seen_cur,
        });
        self.downgraded = None;
        self.see_cur(callers, code);
        self.fresh = false;
        self.steps = self.steps.saturating_add(1);
    }

    /// The caller lost a publication: CUR had the code `found`.
    fn lose_cur(&mut self, callers: Callers, found: u64)
        ensures { (l : _) → self.old ≡ summary_of l → self.new ≡ summary_of (outrun callers.number l found) }
    {
        if self.fresh {
            self.met = self.met.saturating_add(1);
        }
        self.see_cur(callers, found);
        self.fresh = false;
        self.steps = self.steps.saturating_add(1);
    }

    /// The caller retired its win: it has no code any more that won and is not retired.
    pub(crate) fn retire(&mut self)
        ensures { self.new ≡ record self.old { won = None; steps = one_more self.old.steps } }
    {
        self.won = None;
        self.steps = self.steps.saturating_add(1);
    }

    /// A word of a replica was loaded, which is marked as a refusal where that is asked for and the word shows it.
    pub(crate) fn load_word(&mut self, callers: Callers, r: u64, i: u64, mark: bool, found: u64)
        ensures { Follows callers.number (LoadWord r i mark) found self.old self.new }
    {
        if self.is_refusal(callers, r, i, mark, found) {
            self.met = self.met.saturating_add(1);
            self.fresh = false;
        }
        self.steps = self.steps.saturating_add(1);
    }

    /// Whether a load is marked as a refusal: that is asked for, and the word found shows that the code last loaded from CUR
    /// is outdated.
    fn is_refusal(&self, callers: Callers, r: u64, i: u64, mark: bool, found: u64) -> bool
        ensures { (instance : Instance) (l : _) → instance.callers ≡ callers.number → self.now ≡ summary_of l → result ≡ (mark && is_outdated instance r i l found) }
    {
        mark && i == 0
            && is_at(r, self.shared)
            && self.is_fresh_on(callers, r)
            && found != root_place(callers.number, self.seen_cur)
    }

    /// DUR was raised by a code, with a read that is answered or without.
    pub fn raise(&mut self, callers: Callers, code: u64, read: bool)
        ensures { self.new ≡ raised_summary callers.number code read self.old }
    {
        let place = root_place(callers.number, code);
        let answers = is_below(place, self.unanswered);
        if answers {
            self.unanswered = None;
        }
        if answers || read {
            self.floor = self.floor.max(place);
        }
        self.raised = self.raised.max(code);
        self.fresh = false;
        self.steps = self.steps.saturating_add(1);
    }

    /// This code was found in CUR, or put there.
    fn see_cur(&mut self, callers: Callers, code: u64)
        ensures { self.new ≡ record self.old { seen_cur = code; front = max self.old.front (root_place_of callers.number code) } }
    {
        self.seen_cur = code;
        self.front = self.front.max(root_place(callers.number, code));
    }
}

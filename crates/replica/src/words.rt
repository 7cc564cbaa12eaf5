//! What a region stands on: a running table that lends the accesses of a replica held.

ghost use Rattle.std.specs.Prelude.{◌≡◌, ◌+◌, ◌^◌, ◌<◌, ◌≤◌, ℕ, List, true, false, IfNone, IfSome, OnErr, OnOk, OnSome, IfOk, MatchResult, length};
ghost use Rattle.cx_core.specs.Region.{region_words};
ghost use Rattle.cx_core.specs.RegionEvents.{CanLoad};
ghost use Rattle.table_invariant.specs.Fitting.{Fitting};
ghost use Rattle.table_invariant.specs.Running.{IsSeatOf, Running};
ghost use Rattle.table_invariant.specs.Steps.{Halts, Steps};
ghost use Rattle.cx_core.specs.declared.kinds.Kind.TheVariants.{LoadWord};
ghost use Rattle.cx_table.specs.Calls.{MakesFittingStep, MayStep};
ghost use Rattle.cx_table.specs.Runs.{Runs, StartsAt, loads_from};
ghost use Rattle.replica.specs.Held.{Accesses, EndsRun, HaltsLoading, IsHeld, IsHeldShared, LoadsHeld, LoadsRun, LoadsShared};

use cx_base::{Halt, Object};
use cx_table::{CallerSeat, Exclusive, Shared, SharedHold};

/// The accesses of a replica held, on a running table of some object. It is a trait, though `Shared` alone implements it, since a ghost field
/// of a struct over `Shared<O>` cannot name the members of `Object` at `O` (the toolchain refuses it in a struct that owns memory), and the ghost
/// fields of a region name them.
pub trait HeldWords {
    /// The object of the table.
    ghost Object: { Type 0 };

    /// The table.
    ghost running: { Self → Running Object };

    /// The lines of the object.
    ghost line_count: { Self → ℕ };

    /// Which images are the object's.
    ghost lawful: { Self → List ℕ → Type 0 };

    /// What an operation makes of an image, and its reply.
    ghost step: { Self → List ℕ → List ℕ → List ℕ × List ℕ };

    /// Where the words of the replica held exclusively begin in the table.
    fn start_held(&self, seat: &CallerSeat, held: &Exclusive) -> usize
        requires { IsHeld (line_count self.now) (running self.now) (lawful self.now) (step self.now) seat.now held.now }
        ensures { StartsAt (running self.now) held.now.replica result };

    /// Where the words of the replica held shared begin in the table.
    fn start_shared(&self, seat: &CallerSeat, held: &SharedHold) -> usize
        requires { IsHeldShared (line_count self.now) (running self.now) (lawful self.now) seat.now held.now }
        ensures { StartsAt (running self.now) held.now.replica result };

    /// Loads a word of the replica held exclusively. `Halt` comes exactly where the seat's steps equal its limit.
    fn load_held(
        &self,
        seat: &mut CallerSeat,
        held: &Exclusive,
        start: usize,
        at: u64,
    ) -> Result<u64, Halt>
        requires held { IsHeld (line_count self.now) (running self.now) (lawful self.now) (step self.now) seat.old held.now }
        requires start { StartsAt (running self.now) held.now.replica start }
        requires at { at < region_words (line_count self.now) }
        ensures made { IfOk result (λ v. Accesses (line_count self.now) (running self.now) (lawful self.now) (step self.now) held.now (false, at, v) seat.old seat.new) }
        ensures halted { OnErr result (Halts (running self.now) seat.old seat.new) };

    /// Loads words of the replica held exclusively, from a place on, each as `load_held` does. `Halt` comes only where the seat's steps
    /// equal its limit, and then the first of the words were loaded.
    fn load_held_words(
        &self,
        seat: &mut CallerSeat,
        held: &Exclusive,
        start: usize,
        from: u64,
        into: &mut [u64],
    ) -> Result<(), Halt>
        requires held { IsHeld (line_count self.now) (running self.now) (lawful self.now) (step self.now) seat.old held.now }
        requires start { StartsAt (running self.now) held.now.replica start }
        requires within { from + length into.old ≤ region_words (line_count self.now) }
        ensures loaded { MatchResult result
            (λ _. LoadsRun (LoadsHeld (line_count self.now) (running self.now) (lawful self.now) (step self.now) held.now) from into.new seat.old seat.new)
            (λ _. HaltsLoading (LoadsHeld (line_count self.now) (running self.now) (lawful self.now) (step self.now) held.now) from into.new seat.old seat.new) }
        ensures length { length into.new ≡ length into.old };

    /// Stores a word of the replica held exclusively. `Halt` comes exactly where the seat's steps equal its limit.
    fn store_held(
        &self,
        seat: &mut CallerSeat,
        held: &Exclusive,
        at: u64,
        v: u64,
    ) -> Result<(), Halt>
        requires held { IsHeld (line_count self.now) (running self.now) (lawful self.now) (step self.now) seat.old held.now }
        requires at { at < region_words (line_count self.now) }
        ensures made { OnOk result (Accesses (line_count self.now) (running self.now) (lawful self.now) (step self.now) held.now (true, at, v) seat.old seat.new) }
        ensures halted { OnErr result (Halts (running self.now) seat.old seat.new) };

    /// Loads a word of the replica held shared by the shorter call: one after the place, where the limit leaves a step. Where it answers none,
    /// nothing was loaded.
    fn load_shared_at_once(
        &self,
        seat: &mut CallerSeat,
        held: &SharedHold,
        start: usize,
        at: u64,
    ) -> Option<u64>
        requires held { IsHeldShared (line_count self.now) (running self.now) (lawful self.now) seat.old held.now }
        requires start { StartsAt (running self.now) held.now.replica start }
        requires at { at < region_words (line_count self.now) }
        ensures made { IfSome result (λ v. LoadsShared (line_count self.now) (running self.now) (lawful self.now) held.now at v seat.old seat.new) }
        ensures none { IfNone result (seat.new ≡ seat.old) };

    /// Loads a word of the replica held shared. `Halt` comes exactly where the seat's steps equal its limit.
    fn load_shared(
        &self,
        seat: &mut CallerSeat,
        held: &SharedHold,
        start: usize,
        at: u64,
    ) -> Result<u64, Halt>
        requires held { IsHeldShared (line_count self.now) (running self.now) (lawful self.now) seat.old held.now }
        requires start { StartsAt (running self.now) held.now.replica start }
        requires at { at < region_words (line_count self.now) }
        ensures made { IfOk result (λ v. LoadsShared (line_count self.now) (running self.now) (lawful self.now) held.now at v seat.old seat.new) }
        ensures halted { OnErr result (Halts (running self.now) seat.old seat.new) };

    /// Loads words of the replica held shared, from a place on, each as `load_shared` does. `Halt` comes only where the seat's steps
    /// equal its limit, and then the first of the words were loaded.
    fn load_shared_words(
        &self,
        seat: &mut CallerSeat,
        held: &SharedHold,
        start: usize,
        from: u64,
        into: &mut [u64],
    ) -> Result<(), Halt>
        requires held { IsHeldShared (line_count self.now) (running self.now) (lawful self.now) seat.old held.now }
        requires start { StartsAt (running self.now) held.now.replica start }
        requires within { from + length into.old ≤ region_words (line_count self.now) }
        ensures loaded { MatchResult result
            (λ _. LoadsRun (LoadsShared (line_count self.now) (running self.now) (lawful self.now) held.now) from into.new seat.old seat.new)
            (λ _. HaltsLoading (LoadsShared (line_count self.now) (running self.now) (lawful self.now) held.now) from into.new seat.old seat.new) }
        ensures length { length into.new ≡ length into.old };
}

impl<O: Object> HeldWords for Shared<O> {
    ghost Object = { O };

    ghost running = { λ s. s };

    ghost line_count = { λ s. O.line_count s.object };

    ghost lawful = { λ s. O.lawful s.object };

    ghost step = { λ s. O.step s.object };

    fn start_held(&self, seat: &CallerSeat, held: &Exclusive) -> usize {
        self.start_of(seat, held.replica() as u64)
    }

    fn start_shared(&self, seat: &CallerSeat, held: &SharedHold) -> usize {
        self.start_of(seat, held.replica() as u64)
    }

    #[inline]
    fn load_held(
        &self,
        seat: &mut CallerSeat,
        held: &Exclusive,
        start: usize,
        at: u64,
    ) -> Result<u64, Halt> {
        match load_at_once(self, seat, held.replica() as u64, start, at) {
            Some(found) => Ok(found),
            // the answer is tested in this case alone
            None => Ok(load_alone(self, seat, held.replica() as u64, at)?),
        }
    }

    fn load_held_words(
        &self,
        seat: &mut CallerSeat,
        held: &Exclusive,
        start: usize,
        from: u64,
        into: &mut [u64],
    ) -> Result<(), Halt> {
        load_run(self, seat, held.replica() as u64, start, from, into)
    }

    fn store_held(
        &self,
        seat: &mut CallerSeat,
        held: &Exclusive,
        at: u64,
        v: u64,
    ) -> Result<(), Halt> {
        self.store_word(seat, held.replica() as u64, at, v)
    }

    #[inline]
    fn load_shared_at_once(
        &self,
        seat: &mut CallerSeat,
        held: &SharedHold,
        start: usize,
        at: u64,
    ) -> Option<u64> {
        load_at_once(self, seat, held.replica() as u64, start, at)
    }

    #[cold]
    #[inline(never)]
    fn load_shared(
        &self,
        seat: &mut CallerSeat,
        held: &SharedHold,
        start: usize,
        at: u64,
    ) -> Result<u64, Halt> {
        match load_at_once(self, seat, held.replica() as u64, start, at) {
            Some(found) => Ok(found),
            None => load_alone(self, seat, held.replica() as u64, at),
        }
    }

    fn load_shared_words(
        &self,
        seat: &mut CallerSeat,
        held: &SharedHold,
        start: usize,
        from: u64,
        into: &mut [u64],
    ) -> Result<(), Halt> {
        load_run(self, seat, held.replica() as u64, start, from, into)
    }
}

/// Loads a word of a replica that the caller holds exclusively or shared by the shorter call: one after the place, where the limit leaves
/// a step. Where it answers none, nothing was loaded. This is inlined into the code of each walk, and the longer call is not: what that
/// alone needs, as the replica's number and a test of its answer, stands where it is called.
#[inline]
fn load_at_once<O: Object>(
    shared: &Shared<O>,
    seat: &mut CallerSeat,
    r: u64,
    start: usize,
    i: u64,
) -> Option<u64>
    requires may { MayStep O.Object shared.now (LoadWord r i false) seat.old }
    requires start { StartsAt shared.now r start }
    ensures made { IfSome result (λ found. Steps shared.now O.step O.only_reads (LoadWord r i false) found seat.old seat.new) }
    ensures fits { OnSome result (Fitting shared.now.lines (O.lawful shared.now.object) shared.now.base (O.step shared.now.object) seat.new.known) }
    ensures none { IfNone result (seat.new ≡ seat.old) }
{
    let mut one = [0; 1];
    if i > 0 && shared.load_words(seat, r, start, i, &mut one) {
        return Some(one[0]);
    }
    None
}

/// Loads a word of a replica by the longer call, which may also load the place.
#[cold]
#[inline(never)]
fn load_alone<O: Object>(
    shared: &Shared<O>,
    seat: &mut CallerSeat,
    r: u64,
    i: u64,
) -> Result<u64, Halt>
    requires { MayStep O.Object shared.now (LoadWord r i false) seat.old }
    ensures { MakesFittingStep O.Object shared.now seat.old seat.new result (λ found. Steps shared.now O.step O.only_reads (LoadWord r i false) found seat.old seat.new) }
{
    shared.load_word(seat, r, i, false)
}

/// Loads words of a replica that the caller holds exclusively or shared, from a place on, by one call where that may be. `Halt` comes
/// only where the seat's steps equal its limit, and then the first of the words were loaded.
pub(crate) fn load_run<O: Object>(
    shared: &Shared<O>,
    seat: &mut CallerSeat,
    r: u64,
    start: usize,
    from: u64,
    into: &mut [u64],
) -> Result<(), Halt>
    requires seat { IsSeatOf shared.now seat.old × (from + length into.old < 2 ^ 64) }
    requires start { StartsAt shared.now r start }
    requires guard { (i : ℕ) → i < length into.old → CanLoad shared.now.callers (length shared.now.base.words) r (from + i) seat.old.known.local }
    ensures made { OnOk result (Runs shared.now O.step O.only_reads (O.lawful shared.now.object) (loads_from r from) into.new seat.old seat.new) }
    ensures halted { OnErr result (EndsRun O.Object shared.now (loads_from r from) into.new seat.old seat.new) }
    ensures length { length into.new ≡ length into.old }
{
    // the place is noted by itself, and where fewer steps are left the first words are loaded all the same
    if from > 0 && shared.load_words(seat, r, start, from, into) {
        return Ok(());
    }
    load_each(shared, seat, r, from, into)
}

/// Loads the words one by one.
fn load_each<O: Object>(
    shared: &Shared<O>,
    seat: &mut CallerSeat,
    r: u64,
    from: u64,
    into: &mut [u64],
) -> Result<(), Halt>
    requires seat { IsSeatOf shared.now seat.old × (from + length into.old < 2 ^ 64) }
    requires guard { (i : ℕ) → i < length into.old → CanLoad shared.now.callers (length shared.now.base.words) r (from + i) seat.old.known.local }
    ensures made { OnOk result (Runs shared.now O.step O.only_reads (O.lawful shared.now.object) (loads_from r from) into.new seat.old seat.new) }
    ensures halted { OnErr result (EndsRun O.Object shared.now (loads_from r from) into.new seat.old seat.new) }
    ensures length { length into.new ≡ length into.old }
{
    for i in 0..into.len() {
        into[i] = shared.load_word(seat, r, from + i as u64, false)?;
    }
    Ok(())
}

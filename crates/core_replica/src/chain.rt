//! The chain of codes from DUR to CUR, and the replicas that they name.

ghost use Rattle.std.specs.Prelude.{◌≡◌, ◌∷◌, [], ℕ, slice_index};
ghost use Rattle.std.specs.List.{Contains};
ghost use Rattle.cx_base.specs.Codes.{root_replica_of};
ghost use Rattle.core_replica.specs.Chain.{IsPinned};
ghost use Rattle.cx_core.specs.Chain.{IsCodeChain, RiseInPlace};
ghost use Rattle.cx_core.specs.Lawful.{Shape};
ghost use Rattle.cx_core.specs.LawfulLocks.{Locks};
ghost use Rattle.cx_core.specs.LawfulRegions.{IsReplicaImage, Regions};
ghost use Rattle.cx_core.specs.LawfulRoot.{Root};
ghost use Rattle.cx_core.specs.Layout.{cur_at, dur_at};
ghost use Rattle.cx_core.specs.State.{Instance, State};

/// Where `Root` holds, there is a chain of codes from DUR to CUR: DUR's, and then those above it that `Root` gives.
pub fn a_chain_stands()
    ensures { (instance : Instance) (s : State) (root : Root instance s.words s.locals) → IsCodeChain s.words s.locals (slice_index s.words dur_at ∷ root.above) }
{}

/// Where `Root` holds, there is one chain of codes from DUR to CUR at most.
pub fn there_is_one_chain()
    ensures { (instance : Instance) (s : State) (codes others : _) → Root instance s.words s.locals →
        IsCodeChain s.words s.locals codes → IsCodeChain s.words s.locals others → codes ≡ others }
{}

/// Where `Root` holds, the codes of a chain rise in place.
pub fn chain_rises_in_place()
    ensures { (instance : Instance) (s : State) (first : ℕ) (rest : _) → Root instance s.words s.locals →
        IsCodeChain s.words s.locals (first ∷ rest) → RiseInPlace instance.callers first rest }
{}

/// Where DUR is CUR, a chain has that one code alone.
pub fn chain_is_the_one_code()
    ensures { (s : State) (codes : _) → IsCodeChain s.words s.locals codes → slice_index s.words dur_at ≡ slice_index s.words cur_at → codes ≡ slice_index s.words cur_at ∷ [] }
{}

/// Each code of a chain names a pinned replica, which has the code's place and which nobody holds exclusively.
pub fn chain_is_pinned()
    ensures { (instance : Instance) (s : State) (codes : _) (code : ℕ) → Shape instance s.words s.locals → Locks instance.callers s.words s.locals → Root instance s.words s.locals →
        IsCodeChain s.words s.locals codes → Contains codes code → IsPinned instance s code }
{}

/// Each code of a chain names a replica that is the full image after its place, in both memories.
pub fn chain_names_images()
    ensures { (instance : Instance) (history : _) (s : State) (codes : _) (code : ℕ) → Shape instance s.words s.locals → Locks instance.callers s.words s.locals →
        Regions instance history s.words s.locals → Root instance s.words s.locals →
        IsCodeChain s.words s.locals codes → Contains codes code → IsReplicaImage instance history s.words (root_replica_of instance.callers code) }
{}

//! What guards on locks ask of a caller's local state, and of a lock's word.

ghost use Rattle.std.specs.Prelude.{◌≡◌, ◌+◌, ◌<◌, ◌↔◌, [], IsTrue, ◌==◌};
ghost use Rattle.cx_core.specs.LockEvents.{CanBackOff, CanTryExclusive, CanTryShared, IsClean, has_all, is_fresh_on};
ghost use Rattle.cx_core.specs.Region.{place_of};
ghost use Rattle.cx_core.specs.Rights.{downgraded_on, exclusive_on, held_dirty, held_words, is_at, rights, rights_on, shared_on, won_on};

use crate::callers::Callers;
use cx_base::root_replica;
use cx_core::Local;
use cx_core::layout::replica_count;

/// The replica that a caller holds exclusively.
pub fn exclusive_on(local: &Local) -> Option<u64>
    ensures { result ≡ exclusive_on local.now }
{
    match &local.exclusive {
        None => None,
        Some(held) => Some(held.replica),
    }
}

/// The replica that a caller holds shared.
pub fn shared_on(local: &Local) -> Option<u64>
    ensures { result ≡ shared_on local.now }
{
    match &local.shared {
        None => None,
        Some(held) => Some(held.replica),
    }
}

/// The replica that a caller has downgraded.
pub fn downgraded_on(local: &Local) -> Option<u64>
    ensures { result ≡ downgraded_on local.now }
{
    match &local.downgraded {
        None => None,
        Some(held) => Some(held.replica),
    }
}

/// The replica that an unretired win pins: that of the code before it.
pub fn won_on(callers: Callers, local: &Local) -> Option<u64>
    ensures { result ≡ won_on callers.number local.now }
{
    match &local.won {
        None => None,
        Some(won) => Some(u64::from(root_replica(callers.number, won.before))),
    }
}

/// Whether a right is on replica `r`.
pub fn is_at(r: u64, right: Option<u64>) -> bool
    ensures { result ≡ is_at r right }
{
    match right {
        None => false,
        Some(q) => q == r,
    }
}

/// The number of a caller's rights.
pub fn rights(callers: Callers, local: &Local) -> u64
    ensures { result ≡ rights callers.number local.now }
{
    u64::from(local.exclusive.is_some())
        + u64::from(local.shared.is_some())
        + u64::from(local.passer.is_some())
        + u64::from(local.downgraded.is_some())
        + u64::from(local.won.is_some())
}

/// Whether a caller has no right on replica `r`.
pub fn has_none_on(callers: Callers, r: u64, local: &Local) -> bool
    ensures { IsTrue result ↔ (rights_on callers.number r local.now ≡ 0) }
{
    !(is_at(r, exclusive_on(local))
        || is_at(r, shared_on(local))
        || is_at(r, local.passer)
        || is_at(r, downgraded_on(local))
        || is_at(r, won_on(callers, local)))
}

/// Whether a caller may try to take replica `r` exclusively.
pub fn can_try_exclusive(callers: Callers, local: &Local, r: u64) -> bool
    ensures { IsTrue result ↔ CanTryExclusive callers.number r local.now }
{
    r < replica_count(callers.number)
        && local.exclusive.is_none()
        && rights(callers, local) <= 1
        && has_none_on(callers, r, local)
}

/// Whether a caller may try to take replica `r` shared.
pub fn can_try_shared(callers: Callers, local: &Local, r: u64) -> bool
    ensures { IsTrue result ↔ CanTryShared callers.number r local.now }
{
    r < replica_count(callers.number)
        && local.shared.is_none()
        && local.passer.is_none()
        && rights(callers, local) <= 1
        && has_none_on(callers, r, local)
}

/// Whether a caller may back off from replica `r`.
pub fn can_back_off(callers: Callers, local: &Local, r: u64) -> bool
    ensures { IsTrue result ↔ CanBackOff callers.number r local.now }
{
    r < replica_count(callers.number)
        && (is_at(r, shared_on(local)) || is_at(r, local.passer) || is_at(r, downgraded_on(local)))
}

/// Whether all replicas are in a list.
pub fn has_all(callers: Callers, replicas: &[u64]) -> bool
    ensures { result ≡ has_all callers.number replicas.now }
{
    (0..replica_count(callers.number)).all(|r| replicas.contains(&r))
}

/// Whether nobody has a right on a replica with this lock word, and nothing pins it.
pub fn is_free(word: u64) -> bool
    ensures { IsTrue result ↔ (word ≡ 0) }
{
    word == 0
}

/// Whether the code last loaded from CUR names replica `r`, and nothing ended its use.
pub fn is_fresh_on(callers: Callers, r: u64, local: &Local) -> bool
    ensures { result ≡ is_fresh_on callers.number r local.now }
{
    u64::from(root_replica(callers.number, local.seen_cur)) == r && local.fresh
}

/// Whether no word of the replica held exclusively is dirty.
pub fn has_no_dirty(local: &Local) -> bool
    ensures { IsTrue result ↔ (held_dirty local.now.exclusive ≡ []) }
{
    match &local.exclusive {
        None => true,
        Some(held) => held.dirty.is_empty(),
    }
}

/// Whether a caller holds replica `r` exclusively with no word dirty and nothing downgraded.
pub fn is_clean(callers: Callers, local: &Local, r: u64) -> bool
    ensures { IsTrue result ↔ IsClean callers.number r local.now }
{
    r < replica_count(callers.number)
        && is_at(r, exclusive_on(local))
        && local.downgraded.is_none()
        && has_no_dirty(local)
}

/// The place word of the replica held exclusively.
pub fn held_place(local: &Local) -> u64
    ensures { result ≡ place_of (held_words local.now.exclusive) }
{
    match &local.exclusive {
        None => 0,
        Some(held) => held.words.as_slice().first().copied().unwrap_or(0),
    }
}

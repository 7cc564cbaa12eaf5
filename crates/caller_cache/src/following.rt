//! What a seat keeps in plain memory follows each step of its caller, by the kind of the step.

ghost use Rattle.caller_cache.specs.Following.{CanFollow, CopiesFollow, FollowsAt};

use crate::copies::Copies;
use crate::summary::CachedLocal;
use core_guards::callers::Callers;
use core_guards::locks::is_at;
use cx_core::Kind;

/// The numbers and the words copied follow a step of this kind that found this word. The kind is mostly known where this is called, and
/// then the code of that kind alone is left. A load of a word that may be marked as a refusal is marked by the word found.
#[inline(always)]
pub fn follow(
    summary: &mut CachedLocal,
    copy: &mut Copies,
    callers: Callers,
    kind: &Kind,
    found: u64,
)
    requires { CanFollow callers.number kind.now summary.old copy.old }
    ensures numbers { FollowsAt copy.old.place callers.number kind.now found summary.old summary.new }
    ensures copies { CopiesFollow kind.now found summary.old copy.old copy.new }
{
    match *kind {
        Kind::WriteCell { j, i, v } => {
            copy.write_cell(j, i, v);
            summary.write_cell(j);
        }
        Kind::Link { j } => summary.link(callers, j, found),
        Kind::Look { s } => summary.look(callers, s, found),
        Kind::LoadFree => summary.load_free(found),
        Kind::TryExclusive { r } => {
            summary.try_exclusive(callers, r, found);
            copy.begin();
        }
        Kind::TryShared { r } => summary.try_shared(callers, r, found),
        Kind::BackOff { r } => summary.back_off(r),
        Kind::Downgrade { r } => summary.downgrade(r, copy.place()),
        Kind::ReleaseExclusive { .. } => summary.release_exclusive(),
        Kind::LoadWord { r, i, refused } => {
            copy.load(is_at(r, summary.exclusive), i, found);
            summary.load_word(callers, r, i, refused, found);
        }
        Kind::StoreWord { i, v, .. } => {
            copy.store(i, v);
            summary.pass();
        }
        Kind::Persist { i, .. } => {
            copy.persist(i);
            summary.pass();
        }
        Kind::LoadCur => summary.load_cur(callers, found),
        Kind::Publish => summary.publish(callers, found),
        Kind::Retire => summary.retire(),
        Kind::Protect { p } => summary.protect(p),
        Kind::Confirm => summary.confirm(callers, found),
        Kind::Unprotect => summary.unprotect(),
        Kind::CloseLow { target } => summary.close_low(target),
        Kind::Scan { d } => summary.scan(d, found),
        Kind::OpenFree => summary.open_free(found),
        Kind::WriteSet { j, i, v } => {
            copy.write_set(j, i, v);
            summary.pass();
        }
        Kind::Offer { j } => summary.offer(j),
        Kind::LoadOffer { k, t } => summary.load_offer(k, t, found),
        Kind::ReadCell { .. } => summary.pass(),
        Kind::ReadSet { .. } => summary.pass(),
        Kind::NoteGap { .. } => summary.pass(),
        Kind::LoadGap { .. } => summary.pass(),
        Kind::Raise { .. } => {}
    }
}

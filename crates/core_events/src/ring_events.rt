//! The steps on the ring: what a caller needs is stated, confirmed and released, and tickets are closed, scanned and opened.

ghost use Rattle.std.specs.Prelude.{◌≡◌, ◌≤◌, length};
ghost use Rattle.core_events.specs.Tables.{HasCaller, HasTableWords};
ghost use Rattle.cx_core.specs.declared.kinds.Kind.TheVariants.{Protect, Confirm, Unprotect, CloseLow, Scan, OpenFree};
ghost use Rattle.cx_core.specs.Events.{Did};
ghost use Rattle.cx_core.specs.RingEvents.{bound_in, confirmed, confirmed_by, least_in, opened, scan_after, shows_outdated};
ghost use Rattle.cx_core.specs.State.{EachScene};

use core_guards::callers::Callers;
use core_guards::ring::{
    bound_in, can_close, confirmed_by, is_next, is_protected, is_stated, is_unprotected, least_in,
    scan_after, shows_outdated,
};
use cx_core::layout::{FREE_AT, LOW_AT, MAX_WORD, need_at};
use cx_core::{Local, Protection};

/// Whether a caller may state that it needs the tickets from place `p` on, as long as it has no protection; if so its need is `p`, and the step is counted.
pub(crate) fn protect(callers: Callers, words: &mut [u64], local: &mut Local, p: u64) -> bool
    requires table { HasCaller callers.number words.old local.old }
    ensures { (base : _) → EachScene callers.number base words.old (λ instance scene. Did result instance scene (Protect p) local.old local.new words.new) }
{
    if p > 1 << 40 || !is_unprotected(local.protection) {
        return false;
    }
    words[need_at(local.number)] = p;
    local.protection = Protection::Stated(p);
    local.steps = local.steps.saturating_add(1);
    true
}

/// What a caller learns by LOW that it found.
fn learn(callers: Callers, local: &mut Local, found: u64)
    ensures { local.new ≡ confirmed callers.number local.old found }
{
    if shows_outdated(callers, local, found) {
        local.met = local.met.saturating_add(1);
        local.fresh = false;
    }
    local.seen_low = local.seen_low.max(found);
    local.protection = confirmed_by(found, local.protection);
    local.steps = local.steps.saturating_add(1);
}

/// Whether a caller has stated a protection and not confirmed it; if so LOW is loaded, which confirms the protection where LOW is at most its place.
pub(crate) fn confirm(callers: Callers, words: &[u64], local: &mut Local) -> bool
    requires table { HasTableWords callers.number words.now }
    ensures { (base : _) → EachScene callers.number base words.now (λ instance scene. Did result instance scene Confirm local.old local.new words.now) }
{
    if !is_stated(local.protection) {
        return false;
    }
    learn(callers, local, words[LOW_AT]);
    true
}

/// Whether a caller has a protection, stated or confirmed; if so the protection is released, and the step is counted.
pub(crate) fn unprotect(callers: Callers, words: &mut [u64], local: &mut Local) -> bool
    requires table { HasCaller callers.number words.old local.old }
    ensures { (base : _) → EachScene callers.number base words.old (λ instance scene. Did result instance scene Unprotect local.old local.new words.new) }
{
    if !is_protected(local.protection) {
        return false;
    }
    words[need_at(local.number)] = MAX_WORD;
    local.protection = Protection::Unprotected;
    local.steps = local.steps.saturating_add(1);
    true
}

/// Whether a caller may close the tickets below `target`; if so it raises LOW to `target`, and begins a scan of what the callers need.
pub(crate) fn close_low(callers: Callers, words: &mut [u64], local: &mut Local, target: u64) -> bool
    requires table { HasTableWords callers.number words.old }
    ensures { (base : _) → EachScene callers.number base words.old (λ instance scene. Did result instance scene (CloseLow target) local.old local.new words.new) }
{
    if !can_close(callers, local, target) {
        return false;
    }
    words[LOW_AT] = words[LOW_AT].max(target);
    local.scan = Some(cx_core::Scan {
        target,
        bound: target,
        next: 0,
        least: None,
    });
    local.steps = local.steps.saturating_add(1);
    true
}

/// Whether caller `d` is the next one of the caller's scan; if so its need is loaded, and the step is counted.
pub(crate) fn scan(callers: Callers, words: &[u64], local: &mut Local, d: u64) -> bool
    requires table { HasTableWords callers.number words.now }
    ensures { (base : _) → EachScene callers.number base words.now (λ instance scene. Did result instance scene (Scan d) local.old local.new words.now) }
{
    if d >= u64::from(callers.number) || !is_next(d, local.scan) {
        return false;
    }
    local.scan = scan_after(d, words[need_at(d as u32)], local.scan);
    local.steps = local.steps.saturating_add(1);
    true
}

/// What a caller learns by the FREE that it raised: its scan ends.
fn end_scan(local: &mut Local, found: u64)
    ensures { local.new ≡ opened local.old found }
{
    local.seen_free = local.seen_free.max(found).max(bound_in(local.scan));
    local.seen_need = least_in(local.scan);
    local.scan = None;
    local.fresh = false;
    local.steps = local.steps.saturating_add(1);
    local.scans = local.scans.saturating_add(1);
}

/// Whether a caller's scan has loaded the need of every caller; if so FREE is raised to the bound that it found, and the scan ends.
pub(crate) fn open_free(callers: Callers, words: &mut [u64], local: &mut Local) -> bool
    requires long { 4 ≤ length words.old }
    ensures { (base : _) → EachScene callers.number base words.old (λ instance scene. Did result instance scene OpenFree local.old local.new words.new) }
{
    if !is_next(u64::from(callers.number), local.scan) {
        return false;
    }
    let found = words[FREE_AT];
    words[FREE_AT] = found.max(bound_in(local.scan));
    end_scan(local, found);
    true
}

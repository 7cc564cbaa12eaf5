//! How the steps of the ring change the numbers: what a caller needs is stated, confirmed and released, and tickets are
//! closed, scanned and opened.

ghost use Rattle.std.specs.Prelude.{◌≡◌, ◌<◌, false, max, None, Some};
ghost use Rattle.cx_core.specs.declared.kinds.Kind.TheVariants.{Confirm};
ghost use Rattle.cx_core.specs.declared.local.Protection.TheVariants.{Stated, Unprotected};
ghost use Rattle.cx_core.specs.RingEvents.{bound_in, confirmed_by, least_in, scan_after, shows_outdated};
ghost use Rattle.cx_core.specs.State.{one_more};
ghost use Rattle.caller_cache.specs.Summaries.{Follows, summary_of};

use crate::summary::CachedLocal;
use core_guards::callers::Callers;
use core_guards::ring::{bound_in, confirmed_by, least_in, scan_after};
use cx_base::root_place;
use cx_core::Protection;

impl CachedLocal {
    /// A protection was stated.
    pub(crate) fn protect(&mut self, p: u64)
        ensures { self.new ≡ record self.old { protection = Stated p; steps = one_more self.old.steps } }
    {
        self.protection = Protection::Stated(p);
        self.steps = self.steps.saturating_add(1);
    }

    /// Whether LOW was found above the place of a protection, though the code last loaded from CUR, which nothing ended the
    /// use of, is at no place above that.
    fn shows_outdated(&self, callers: Callers, found: u64) -> bool
        ensures { (l : _) → self.now ≡ summary_of l → result ≡ shows_outdated callers.number l found l.protection }
    {
        match self.protection {
            Protection::Stated(p) => {
                p < found && root_place(callers.number, self.seen_cur) <= p && self.fresh
            }
            _ => false,
        }
    }

    /// LOW was found.
    pub(crate) fn confirm(&mut self, callers: Callers, found: u64)
        ensures { Follows callers.number Confirm found self.old self.new }
    {
        if self.shows_outdated(callers, found) {
            self.met = self.met.saturating_add(1);
            self.fresh = false;
        }
        self.seen_low = self.seen_low.max(found);
        self.protection = confirmed_by(found, self.protection);
        self.steps = self.steps.saturating_add(1);
    }

    /// A protection was released.
    pub(crate) fn unprotect(&mut self)
        ensures { self.new ≡ record self.old { protection = Unprotected; steps = one_more self.old.steps } }
    {
        self.protection = Protection::Unprotected;
        self.steps = self.steps.saturating_add(1);
    }

    /// LOW was raised to a target, which begins a scan.
    pub(crate) fn close_low(&mut self, target: u64)
        ensures { self.new ≡ record self.old { scan = Some (record { target = target; bound = target; next = 0; least = None }); steps = one_more self.old.steps } }
    {
        self.scan = Some(cx_core::Scan {
            target,
            bound: target,
            next: 0,
            least: None,
        });
        self.steps = self.steps.saturating_add(1);
    }

    /// The need of caller `d` was found.
    pub(crate) fn scan(&mut self, d: u64, found: u64)
        requires { d < 8 }
        ensures { self.new ≡ record self.old { scan = scan_after d found self.old.scan; steps = one_more self.old.steps } }
    {
        self.scan = scan_after(d, found, self.scan);
        self.steps = self.steps.saturating_add(1);
    }

    /// Below which no caller that was scanned needs a ticket, 0 where there is no scan.
    pub fn bound(&self) -> u64
        ensures { result ≡ bound_in self.now.scan }
    {
        bound_in(self.scan)
    }

    /// FREE was raised to the scan's bound, which ends the scan.
    pub(crate) fn open_free(&mut self, found: u64)
        ensures { self.new ≡ record self.old { seen_free = max self.old.seen_free (max found (bound_in self.old.scan)); seen_need = least_in self.old.scan; scan = None; fresh = false; steps = one_more self.old.steps; scans = one_more self.old.scans } }
    {
        self.seen_free = self.seen_free.max(found.max(self.bound()));
        self.seen_need = least_in(self.scan);
        self.scan = None;
        self.fresh = false;
        self.steps = self.steps.saturating_add(1);
        self.scans = self.scans.saturating_add(1);
    }
}

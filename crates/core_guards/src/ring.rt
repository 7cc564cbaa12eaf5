//! What guards on the ring ask of a caller's local state: its protection and its scan.

ghost use Rattle.std.specs.Prelude.{◌≡◌, ◌+◌, ◌<◌, ◌↔◌, IsTrue};
ghost use Rattle.cx_core.specs.declared.kinds.Kind.TheVariants.{Scan};
ghost use Rattle.cx_core.specs.RingEvents.{CanClose, IsNext, IsProtected, IsStated, IsUnprotected, bound_in, confirmed_by, least_in, lesser, scan_after, shows_outdated};

use crate::callers::Callers;
use cx_base::root_place;
use cx_core::{Local, Protection, SeenNeed};

/// Whether no protection stands.
pub fn is_unprotected(protection: Protection) -> bool
    ensures { IsTrue result ↔ IsUnprotected protection }
{
    match protection {
        Protection::Unprotected => true,
        Protection::Stated(_) => false,
        Protection::Confirmed(_) => false,
    }
}

/// Whether a protection is stated and not confirmed.
pub fn is_stated(protection: Protection) -> bool
    ensures { IsTrue result ↔ IsStated protection }
{
    match protection {
        Protection::Unprotected => false,
        Protection::Stated(_) => true,
        Protection::Confirmed(_) => false,
    }
}

/// Whether a protection stands, stated or confirmed.
pub fn is_protected(protection: Protection) -> bool
    ensures { IsTrue result ↔ IsProtected protection }
{
    match protection {
        Protection::Unprotected => false,
        Protection::Stated(_) => true,
        Protection::Confirmed(_) => true,
    }
}

/// The protection after LOW was found.
pub fn confirmed_by(found: u64, protection: Protection) -> Protection
    ensures { result ≡ confirmed_by found protection }
{
    match protection {
        Protection::Stated(p) if found <= p => Protection::Confirmed(p),
        other => other,
    }
}

/// Whether LOW was found above the place of a protection, though the code last loaded from CUR, which nothing ended the use
/// of, is at no place above that.
pub fn shows_outdated(callers: Callers, local: &Local, found: u64) -> bool
    ensures { result ≡ shows_outdated callers.number local.now found local.now.protection }
{
    match local.protection {
        Protection::Stated(p) => {
            p < found && root_place(callers.number, local.seen_cur) <= p && local.fresh
        }
        _ => false,
    }
}

/// Whether a caller may close the tickets below a target.
pub fn can_close(callers: Callers, local: &Local, target: u64) -> bool
    ensures { IsTrue result ↔ CanClose callers.number target local.now }
{
    target <= root_place(callers.number, local.seen_cur) && local.scan.is_none()
}

/// Whether caller `d` is the next one of the scan.
pub fn is_next(d: u64, scan: Option<cx_core::Scan>) -> bool
    ensures { IsTrue result ↔ IsNext d scan }
{
    match scan {
        None => false,
        Some(scan) => scan.next == d,
    }
}

/// The least need found so far, and the least caller that had it, once caller `d` was found to have this need.
pub fn lesser(d: u64, found: u64, least: Option<SeenNeed>) -> SeenNeed
    ensures { result ≡ lesser d found least }
{
    match least {
        Some(least) if least.need <= found => least,
        _ => SeenNeed {
            need: found,
            caller: d,
        },
    }
}

/// A scan after the need of its next caller, `d`, was found.
pub fn scan_after(d: u64, found: u64, scan: Option<cx_core::Scan>) -> Option<cx_core::Scan>
    requires { d < 8 }
    ensures { result ≡ scan_after d found scan }
{
    match scan {
        None => None,
        Some(scan) => Some(cx_core::Scan {
            target: scan.target,
            bound: scan.bound.min(found),
            next: d + 1,
            least: Some(lesser(d, found, scan.least)),
        }),
    }
}

/// Below which no caller that was scanned needs a ticket, 0 where there is no scan.
pub fn bound_in(scan: Option<cx_core::Scan>) -> u64
    ensures { result ≡ bound_in scan }
{
    match scan {
        None => 0,
        Some(scan) => scan.bound,
    }
}

/// The least need that a scan found.
pub fn least_in(scan: Option<cx_core::Scan>) -> Option<SeenNeed>
    ensures { result ≡ least_in scan }
{
    match scan {
        None => None,
        Some(scan) => scan.least,
    }
}

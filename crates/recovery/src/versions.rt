//! The version that an object part begins with: the object's own, or the one before, from which it is upgraded.

ghost use Rattle.std.specs.Prelude.{◌≡◌, ◌≤◌, ◌⊎◌, ◌↔◌, IfOk, IsTrue, Some, length, nat_eq};
ghost use Rattle.std.specs.Option.{option_eq};
ghost use Rattle.cx_core.specs.Recovered.{upgraded_region};
ghost use Rattle.cx_core.specs.Region.{object_part};

use cx_base::Object;
use cx_core::OBJECT_START;
use std::alloc::{AllocError, Global};

/// Whether a version is the object's own or the old one.
pub(crate) fn is_known<O: Object>(object: &O, version: u64) -> bool
    ensures { IsTrue result ↔ ((version ≡ O.version_number object.now) ⊎ ((O.old_format object.now).version ≡ Some version)) }
{
    version == object.version() || is_old(object, version)
}

/// Whether a version is the old one.
fn is_old<O: Object>(object: &O, version: u64) -> bool
    ensures { result ≡ option_eq nat_eq (O.old_format object.now).version (Some version) }
{
    object.old_version() == Some(version)
}

/// Whether an object part is lawful for the version that it begins with. `Err` means out of memory.
pub(crate) fn is_lawful<O: Object>(
    alloc: Global,
    object: &O,
    part: &[u64],
) -> Result<bool, AllocError>
    requires { 1 ≤ length part.now }
    ensures { IfOk result (λ yes. IsTrue yes ↔ (O.lawful object.now part.now ⊎ (O.old_format object.now).lawful part.now)) }
{
    if part[0] == object.version() {
        object.check(alloc, part)
    } else {
        object.check_old(alloc, part)
    }
}

/// A region whose object part is upgraded where it begins with the old version.
pub(crate) fn upgraded<O: Object>(object: &O, mut words: Vec<u64>) -> Vec<u64>
    requires size { 1169 ≤ length words.items }
    requires lawful { O.lawful object.now (object_part words.items) ⊎ (O.old_format object.now).lawful (object_part words.items) }
    ensures { result.items ≡ upgraded_region (O.old_format object.now) words.items }
{
    upgrade(object, &mut words);
    words
}

/// Upgrades it in place.
fn upgrade<O: Object>(object: &O, words: &mut [u64])
    requires size { 1169 ≤ length words.old }
    requires lawful { O.lawful object.now (object_part words.old) ⊎ (O.old_format object.now).lawful (object_part words.old) }
    ensures { words.new ≡ upgraded_region (O.old_format object.now) words.old }
{
    if is_old(object, words[OBJECT_START as usize]) {
        object.upgrade(&mut words[OBJECT_START as usize..]);
    }
}

//! The base that a crash keeps.

ghost use Rattle.std.specs.Prelude.{IfOk};
ghost use Rattle.service_parts.specs.Lives.{IsKeptOf, IsLeftBy, MayServe};

use cx_base::Object;
use cx_core::Base;
use cx_table::Remains;
use recovery::{ImageFault, closed_tables_are_whole, closed_tables_recover, crash_image, recover};
use std::alloc::{AllocError, Global};

/// What a crash keeps of a life, by choice: a base from which the next service of the object starts, with all that was answered
/// in it. No image that is left is refused, so `Err` means out of memory.
pub fn recovered<O: Object>(
    alloc: Global,
    object: &O,
    remains: &Remains,
    choice: u64,
) -> Result<Base, AllocError>
    requires { IsLeftBy O.Object object.now remains.now }
    ensures may { IfOk result (MayServe O.Object object.now) }
    ensures kept { (left : IsLeftBy O.Object object.now remains.now) → IfOk result (IsKeptOf left choice) }
{
    closed_tables_are_whole::<O>();
    closed_tables_recover::<O>();
    let image = crash_image(alloc, remains, choice)?;
    match recover(alloc, object, &image) {
        Ok(base) => Ok(base),
        Err(ImageFault::Memory) => Err(AllocError),
        Err(_) => unreachable!(),
    }
}

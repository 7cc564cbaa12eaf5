//! What a loss of power leaves of closed services, and what is recovered from it.

ghost use Rattle.std.specs.Prelude.{◌≡◌, IfErr, IfOk};
ghost use Rattle.cx_base.specs.Codes.{root_place_of};
ghost use Rattle.cx_base.specs.Tally.{IsTally};
ghost use Rattle.cx_core.specs.Base.{LawfulBase};
ghost use Rattle.recovery.specs.Crashes.{left_root};
ghost use Rattle.recovery.specs.declared.recovered_base.ImageFault.TheVariants.{Memory};
ghost use Rattle.service_tests.specs.Closed.{IsClosed, IsClosedTally};

use cx_base::Object;
use cx_base::tally::Tally;
use cx_core::Base;
use cx_table::Remains;
use recovery::{ImageFault, closed_tables_are_whole, closed_tables_recover, crash_image, recover};
use std::alloc::Global;

/// What is recovered by choice after a loss of power. It fails only where memory runs out.
pub(crate) fn recovered(alloc: Global, remains: &Remains, choice: u64) -> Result<Base, ImageFault>
    requires { IsClosedTally remains.now }
    ensures place { IfOk result (λ base. base.place ≡ root_place_of remains.now.callers (left_root remains.now choice)) }
    ensures again { IfOk result (LawfulBase 64 IsTally) }
    ensures faults { IfErr result (λ fault. fault ≡ Memory) }
{
    closed_tables_are_whole::<Tally>();
    closed_tables_recover::<Tally>();
    let Ok(image) = crash_image(alloc, remains, choice) else {
        return Err(ImageFault::Memory);
    };
    recover(alloc, &Tally, &image)
}

/// What is recovered by choice after a loss of power of a closed service of any object.
pub(crate) fn recovered_of<O: Object>(
    alloc: Global,
    object: &O,
    remains: &Remains,
    choice: u64,
) -> Result<Base, ImageFault>
    requires { IsClosed O.Object (O.line_count object.now) remains.now }
{
    closed_tables_are_whole::<O>();
    let Ok(image) = crash_image(alloc, remains, choice) else {
        return Err(ImageFault::Memory);
    };
    recover(alloc, object, &image)
}

//! The crash that ends a life, by a choice, and what is recovered from what it leaves.

ghost use Rattle.std.specs.Prelude.{◌≡◌, ℕ, IfOk, true};
ghost use Rattle.cx_core.specs.Base.{LawfulBase};
ghost use Rattle.cx_core.specs.Region.{object_part};
ghost use Rattle.recovery.specs.Crashes.{AreRemainsWhole, IsLeftOf};
ghost use Rattle.recovery.specs.Images.{IsReadable};
ghost use Rattle.recovery.specs.Recovery.{IsFaultOf, IsRecovered};
ghost use Rattle.recovery.specs.declared.recovered_base.ImageFault.TheVariants.{Memory};
ghost use Rattle.cx_lives.specs.Crash.{EndsInCrash, HasClosed, HasCrashed};

use core_runs::crash::crash_images_recover;
use cx_core::{Base, OBJECT_START};
use cx_table::Remains;
use recovery::{
    Image, ImageFault, closed_tables_are_whole, closed_tables_recover, closed_tables_stay,
    crash_image, crash_images_are_left, recover,
};
use std::alloc::{AllocError, Global};
use typed_object::TypedObject;

/// What a crash left, and what was recovered from it.
#[derive(Drop)]
pub struct Crashed {
    /// What the crash left.
    pub image: Image,
    /// The base that was recovered from the image, from which a next service may begin.
    pub next: Base,
    /// The number of entries that are kept.
    pub kept: u64,
    /// The number of items of the store that the base stands for.
    pub items: u64,
}

/// Ends a closed service of the object in a crash, and recovers the base with which the next service begins. The service ended with a
/// chain of root codes; `choice`, modulo their number, picks the one that the crash leaves, whose place ends what is kept. `Err` means
/// out of memory.
pub fn end_in_crash<O: TypedObject>(
    alloc: Global,
    object: &O,
    base: &Base,
    choice: u64,
    remains: &Remains,
) -> Result<Crashed, AllocError>
    requires closed { HasClosed O.Object object.now base.now remains.now }
    ensures { IfOk result (EndsInCrash O.Object (O.meaning object.now) object.now base.now choice remains.now) }
{
    closed_services_recover(object, base, remains);
    let image = crash_image(alloc, remains, choice)?;
    let next = match recover(alloc, object, &image) {
        Ok(next) => next,
        Err(fault) => {
            let wanting = is_memory(&fault);
            if wanting {
                return Err(AllocError);
            }
            unreachable!()
        }
    };
    let kept = next.place - base.place;
    let items = count_items(alloc, object, &next)?;
    Ok(Crashed {
        image,
        next,
        kept,
        items,
    })
}

/// The law that what a closed service leaves is whole, and that its image by each choice may be read for the object and is recovered
/// unless memory runs out.
fn closed_services_recover<O: TypedObject>(object: &O, base: &Base, remains: &Remains)
    requires { HasClosed O.Object object.now base.now remains.now }
    ensures whole { AreRemainsWhole remains.now }
    ensures readable { (choice : ℕ) (image : _) → IsLeftOf remains.now choice image → IsReadable (O.line_count object.now) image }
    ensures faults { (choice : ℕ) (image : _) (fault : _) → IsLeftOf remains.now choice image →
        IsFaultOf (O.version_number object.now) (O.lawful object.now) (O.old_format object.now) image fault → fault ≡ Memory }
    ensures recovers { (choice : ℕ) (image : _) (next : _) → IsLeftOf remains.now choice image →
        IsRecovered (O.version_number object.now) (O.lawful object.now) (O.old_format object.now) image next →
        HasCrashed O.Object object.now base.now choice remains.now image next }
{
    // a closed service leaves all that a crash image is made of, and each image of it may be read for the object
    closed_tables_are_whole::<O>();
    // recovery refuses no image of a closed service, unless memory runs out, and the base that it gives holds each answer
    closed_tables_recover::<O>();
    // each image of a closed service has the object's own version, so nothing in it is upgraded
    closed_tables_stay::<O>();
    // the image of a closed service by each choice is a crash image of the state in which the service was closed
    crash_images_are_left::<O>();
    // what is recovered from a crash image is the full image after a place at or above DUR's
    crash_images_recover();
}

/// Whether the fault is that memory ran out.
fn is_memory(fault: &ImageFault) -> bool
    ensures { fault.now ≡ Memory → result ≡ true }
{
    matches!(fault, ImageFault::Memory)
}

/// The number of items of the store that a base stands for.
fn count_items<O: TypedObject>(alloc: Global, object: &O, base: &Base) -> Result<u64, AllocError>
    requires lawful { LawfulBase (O.line_count object.now) (O.lawful object.now) base.now }
    ensures { IfOk result (λ count. (store : O.Store) → (O.meaning object.now).stands (object_part base.now.words) store → count ≡ (O.meaning object.now).items store) }
{
    let (_, part) = base.words.as_slice().split_at(OBJECT_START as usize);
    object.items_in(alloc, part)
}

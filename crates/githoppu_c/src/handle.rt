//! A pointer as C hands it in.

ghost use Rattle.std.specs.Prelude.{◌≡◌};
ghost use Rattle.githoppu_c.specs.declared.content.AnyHandleState.{AnyHandleState};
ghost use Rattle.githoppu_c.specs.Sealed.{content_coded, handle_owns};

use crate::content::AnyHandleState;
use crate::raw_box::RawBox;
use std::alloc::Global;
use std::marker::Model;

/// What C holds of the library: the pointer `at` to a box from the allocator `alloc`. `content` is what the box has: a session, or what its closing
/// left.
#[repr(C)]
#[derive(Drop)]
pub struct Handle {
    at: *mut u8,
    alloc: Global,
    pub ghost content: { AnyHandleState } by { content_coded },
}

impl Model for Handle {
    ghost also_owns = { λ h. handle_owns h.alloc h.at h.content };
}

impl Handle {
    /// The box that the handle points to. The handle is used up.
    pub fn into_box(self) -> Box<AnyHandleState>
        ensures { result.value ≡ self.content }
    {
        self.into_raw_box().into_box()
    }

    /// The handle as the pointer and the allocator of its box, from which the box is made again.
    fn into_raw_box(self) -> RawBox<AnyHandleState, Global>
        ensures { result.value ≡ self.content }
    {
        RawBox {
            ptr: self.at as *mut AnyHandleState,
            alloc: self.alloc,
        }
    }
}

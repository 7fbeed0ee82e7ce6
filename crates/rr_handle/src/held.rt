//! What a handle holds.

ghost use Rattle.std.specs.Prelude.{◌≡◌, true, false};
ghost use Rattle.rr_handle.specs.Owning.{Full, Inside, full_coded, inside_coded, held_owns};

use crate::parts::Parts;
use rr_host::Host;
use std::alloc::Global;
use std::marker::Model;

/// A pointer to a node in a box, or to nothing.
#[repr(C)]
#[derive(Drop)]
pub struct Held {
    at: *mut u8,
    alloc: Global,
    pub ghost is_full: { Full } by { full_coded },
    pub ghost value: { Inside } by { inside_coded },
}

impl Model for Held {
    ghost also_owns = { λ h. held_owns h.is_full h.alloc h.at h.value };
}

impl Held {
    fn of_parts(parts: Parts<Host, Global>) -> Held
        ensures { (result.is_full ≡ true) × (result.value ≡ parts.value) }
    {
        let Parts { ptr, alloc } = parts;
        Held {
            at: ptr as *mut u8,
            alloc,
        }
    }

    fn into_parts(self) -> Parts<Host, Global>
        requires { self.is_full ≡ true }
        ensures { result.value ≡ self.value }
    {
        let Held { at, alloc } = self;
        Parts {
            ptr: at as *mut Host,
            alloc,
        }
    }

    /// Over a box.
    pub fn of(inner: Box<Host>) -> Held
        ensures full { result.is_full ≡ true }
        ensures value { result.value ≡ inner.value }
    {
        Held::of_parts(Parts::of(inner))
    }

    /// The box.
    pub fn into_box(self) -> Box<Host>
        requires { self.is_full ≡ true }
        ensures { result.value ≡ self.value }
    {
        self.into_parts().into_box()
    }
}

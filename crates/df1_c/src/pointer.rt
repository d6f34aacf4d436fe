//! The pointer of a handle: that of the box whose value the handle holds, or null. What it holds is visible only to
//! proofs.

ghost use Rattle.std.specs.Prelude.{◌≡◌, IsSome, Some, None};
ghost use Rattle.std.specs.declared.option.Option.{Option};
ghost use Rattle.std.specs.Coded.{coded_option};
ghost use Rattle.df1_c.specs.Rows.{Kept, kept_row};

use c_ends::Held;
use std::alloc::Global;
use std::marker::Model;
use std::mem::ManuallyDrop;
use std::ptr::null_mut;

/// The pointer of a box, or null, which C keeps.
#[repr(C)]
#[derive(Drop)]
pub struct Pointer {
    at: *mut u8,
    pub ghost held: { Option Kept } by { coded_option kept_row.coded },
}

impl Model for Pointer {
    ghost use Rattle.df1_c.specs.Owned.{pointer_owns};

    ghost also_owns = { λ p. pointer_owns p.at p.held };
}

unsafe impl Send for Pointer {}

impl Pointer {
    /// Returns a null pointer.
    pub(crate) fn empty() -> Pointer
        ensures { result.held ≡ None }
    {
        Pointer { at: null_mut() }
    }

    /// Returns the pointer of a box.
    pub(crate) fn seal(held: Box<ManuallyDrop<Held>>) -> Pointer
        ensures { result.held ≡ Some held.value }
    {
        let at = Box::into_raw(held);
        Pointer { at: at as *mut u8 }
    }

    /// Returns the box of a pointer that has one.
    pub(crate) fn unseal(self, alloc: Global) -> Box<ManuallyDrop<Held>>
        requires { IsSome self.held }
        ensures { Some result.value ≡ self.held }
    {
        let Pointer { at } = self;
        unsafe { Box::from_raw(alloc, at as *mut ManuallyDrop<Held>) }
    }
}

//! A handle: a plain C struct that holds a box, or nothing. A handle of all zeros holds nothing.

ghost use Rattle.std.specs.Prelude.{◌≡◌, is_some};

use crate::pointer::Pointer;
use c_ends::{Code, Held};
use std::alloc::Global;
use std::mem;
use std::mem::ManuallyDrop;

/// A handle, which C keeps.
#[repr(C)]
#[derive(Drop)]
pub struct Seat {
    pub(crate) pointer: Pointer,
    pub(crate) holds: bool,
    ghost told: { holds ≡ is_some pointer.held },
}

impl Seat {
    ghost use Rattle.std.specs.Prelude.{◌≡◌, ◌⊎◌, Some, None, is_none, MatchResult};
    ghost use Rattle.std.specs.Option.{option_map};
    ghost use Rattle.df1_c.specs.Held.{holding, value_in};

    /// Returns a handle that holds nothing.
    #[tactic(auto, unfolding(crate::specs::Held::value_in))]
    pub(crate) fn empty() -> Seat
        ensures { holding result ≡ None }
    {
        Seat {
            pointer: Pointer::empty(),
            holds: false,
        }
    }

    /// Returns whether nothing is held.
    #[tactic(auto, unfolding(crate::specs::Held::value_in))]
    pub(crate) fn is_empty(&self) -> bool
        ensures { result ≡ is_none (holding self.now) }
    {
        !self.holds
    }

    /// Returns the handle of a box.
    #[tactic(auto, unfolding(crate::specs::Held::value_in))]
    pub(crate) fn of(held: Box<ManuallyDrop<Held>>) -> Seat
        ensures { holding result ≡ value_in (Some held.value) }
    {
        Seat {
            pointer: Pointer::seal(held),
            holds: true,
        }
    }

    /// Takes the box out of a handle, and leaves it empty. Returns None exactly if the handle is empty.
    #[tactic(auto, unfolding(crate::specs::Held::value_in))]
    pub(crate) fn take(&mut self, alloc: Global) -> Option<Box<ManuallyDrop<Held>>>
        ensures empty { holding self.new ≡ None }
        ensures held { holding self.old ≡ value_in (option_map (λ held. held.value) result) }
    {
        let Seat { pointer, holds } = mem::replace(self, Seat::empty());
        if holds {
            Some(pointer.unseal(alloc))
        } else {
            None
        }
    }

    /// Fills an empty handle with what was made.
    #[tactic(auto, unfolding(crate::specs::Held::value_in))]
    pub(crate) fn fill(&mut self, alloc: Global, made: Result<Held, Code>) -> Code
        requires { holding self.old ≡ None }
        ensures { MatchResult made (λ held. ((result ≡ Code.Done) × (holding self.new ≡ Some held)) ⊎ ((result ≡ Code.NoMemory) × (holding self.new ≡ None))) (λ code. (result ≡ code) × (holding self.new ≡ None)) }
    {
        let held = match made {
            Ok(held) => held,
            Err(code) => return code,
        };
        match Box::new(alloc, ManuallyDrop::new(held)) {
            Ok(held) => {
                *self = Seat::of(held);
                Code::Done
            }
            Err(failed) => {
                let _gone = ManuallyDrop::into_inner(failed.value);
                Code::NoMemory
            }
        }
    }
}

//! A sink that keeps nothing and never fails.
ghost use Rattle.std.specs.Prelude.{◌≡◌, ◌<◌, ◌≤◌, None, Result, length, IsOk, IfOk, OnErr};
ghost use Rattle.std.specs.Io.KnownBytes.{Keeps};
ghost use Rattle.df1_base.specs.Outside.{Put};

use crate::{Failed, Sink};

/// A sink that takes every piece completely, keeps nothing and reports nothing.
#[derive(Drop)]
pub struct Nowhere;

impl Nowhere {
    /// Returns the sink.
    pub fn new() -> Self {
        Nowhere
    }
}

impl Sink for Nowhere {
    ghost held = { λ s. None };

    ghost faults = { λ s. 0 };

    fn write(&mut self, from: &[u8]) -> Result<usize, Failed>
        ensures never { IsOk result }
        ensures whole { IfOk result (λ count. count ≡ length from.now) }
    {
        Ok(from.len())
    }
}

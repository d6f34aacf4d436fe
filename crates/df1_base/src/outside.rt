//! The outside as every layer sees it: where bytes come from and where they go, each with a count of its faults.
ghost use Rattle.std.specs.Prelude.{◌≡◌, ◌<◌, ◌≤◌, List, ℕ, Option, length, take, IfOk, OnOk, OnErr};
ghost use Rattle.std.specs.Io.KnownBytes.{Keeps, IsAtEnd};
ghost use Rattle.df1_base.specs.Outside.{Rose, Took, Put, Mark, Later, unmarked};

use std::alloc::{AllocError, AllocFailed};
use thiserror::Error;

/// The failure of a source or a sink, whose count of faults rose.
#[derive(Clone, Copy, Debug, PartialEq, Eq, Error)]
#[error("a source or a sink failed")]
pub struct Failed;

/// There is no memory left.
#[derive(Clone, Copy, Debug, PartialEq, Eq, Error)]
#[error("no memory")]
pub struct NoMemory;

impl From<AllocError> for NoMemory {
    fn from(_: AllocError) -> Self {
        NoMemory
    }
}

impl<T: Drop> From<AllocFailed<T>> for NoMemory {
    fn from(_: AllocFailed<T>) -> Self {
        NoMemory
    }
}

/// A source of bytes.
pub trait Source {
    /// The bytes that are left, if the source reports them.
    ghost left: { Self → Option (List ℕ) };

    /// How often it has failed.
    ghost faults: { Self → ℕ };

    /// Moves the next bytes to the front of `into`, and returns how many: 0 for an `into` that isn't empty only at the
    /// end of the input. Returns `Failed` only if the count of faults rose, and then nothing was taken. Otherwise the
    /// count is unchanged.
    fn read(&mut self, into: &mut [u8]) -> Result<usize, Failed>
        ensures bound { IfOk result (λ count. count ≤ length into.new) }
        ensures took { IfOk result (λ count. Took (left self.old) (left self.new) (take count into.new)) }
        ensures end { IfOk result (λ count. count ≡ 0 → 0 < length into.new → IsAtEnd (left self.new)) }
        ensures failed { OnErr result (Keeps (left self.old) (left self.new)) }
        ensures calm { OnOk result (faults self.new ≡ faults self.old) }
        ensures later { faults self.old ≤ faults self.new }
        ensures cause { OnErr result (Rose (faults self.old) (faults self.new)) };
}

/// A sink for bytes.
pub trait Sink {
    /// The bytes that it holds, if the sink reports them.
    ghost held: { Self → Option (List ℕ) };

    /// How often it has failed.
    ghost faults: { Self → ℕ };

    /// What distinguishes it from others, and which of its bytes are settled: nothing, for a sink that keeps its bytes
    /// itself. A sink that passes them on to a sink that it borrows names the borrow, and what it has passed on is
    /// settled.
    ghost mark: { Self → Mark } = { λ _. unmarked };

    /// Takes bytes from the front of `from`, at least one if there is one, and returns how many. Returns `Failed` only
    /// if the count of faults rose, and then nothing was taken. Otherwise the count is unchanged. In either
    /// case it is the same sink, and takes back nothing that was settled.
    fn write(&mut self, from: &[u8]) -> Result<usize, Failed>
        ensures bound { IfOk result (λ count. count ≤ length from.now) }
        ensures some { IfOk result (λ count. 0 < length from.now → 0 < count) }
        ensures put { IfOk result (λ count. Put (held self.old) (held self.new) (take count from.now)) }
        ensures failed { OnErr result (Keeps (held self.old) (held self.new)) }
        ensures calm { OnOk result (faults self.new ≡ faults self.old) }
        ensures later { Later (mark self.old) (mark self.new) (faults self.old) (faults self.new) }
        ensures cause { OnErr result (Rose (faults self.old) (faults self.new)) };
}

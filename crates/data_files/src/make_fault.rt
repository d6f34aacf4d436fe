//! The reasons why data tables are not made.
use std::alloc::{AllocError, AllocFailed};
use thiserror::Error;

/// The reason why tables were not made.
#[derive(Clone, Copy, Debug, PartialEq, Eq, Error)]
pub enum MakeFault {
    /// There are more than 256 files.
    #[error("over 256 files")]
    TooMany,
    /// The file of this number has no elements.
    #[error("file {0} has no elements")]
    Empty(u16),
    /// The file of this number has over 1,000 elements.
    #[error("file {0} has over 1000 elements")]
    Large(u16),
    /// An earlier file has this number too.
    #[error("file {0} is given twice")]
    Twice(u16),
    /// There is no memory left.
    #[error("no memory")]
    NoMemory,
}

impl From<AllocError> for MakeFault {
    ghost use Rattle.std.specs.Prelude.{◌≡◌};
    ghost use Rattle.data_files.specs.declared.make_fault.MakeFault.TheVariants.{NoMemory};

    ghost from_gives = { λ _ e. e ≡ NoMemory };

    fn from(_: AllocError) -> Self {
        MakeFault::NoMemory
    }
}

impl<T: Drop> From<AllocFailed<T>> for MakeFault {
    ghost use Rattle.std.specs.Prelude.{◌≡◌};
    ghost use Rattle.data_files.specs.declared.make_fault.MakeFault.TheVariants.{NoMemory};

    ghost from_gives = { λ _ e. e ≡ NoMemory };

    fn from(_: AllocFailed<T>) -> Self {
        MakeFault::NoMemory
    }
}

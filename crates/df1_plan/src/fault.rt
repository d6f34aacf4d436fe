//! The causes for which a document is not a plan.
ghost use Rattle.std.specs.Prelude.{◌≡◌};

use crate::PlanKey;
use df1_base::NoMemory;
use std::alloc::{AllocError, AllocFailed};
use thiserror::Error;

/// The cause for which a document is not a plan. If several apply, the first in the order of the variants is reported,
/// and keys in byte order of their names: `File` counts as `Key(File)` and `Issue` as `Key(Issue)` in that order.
#[derive(Clone, Copy, Debug, PartialEq, Eq, Error)]
pub enum PlanFault {
    /// TOML refuses the document, for a cause other than memory.
    #[error("text")]
    Text,
    /// It has a key that a plan doesn't have.
    #[error("unknown key")]
    UnknownKey,
    /// The value of this key is refused.
    #[error("key {0}")]
    Key(PlanKey),
    /// This entry of `file`, counted from 1, is not a data file, has the number of an earlier one, or is the 257th.
    #[error("file {0}")]
    File(u32),
    /// This entry of `issue`, counted from 1, is not a command, or is the 65,536th.
    #[error("issue {0}")]
    Issue(u32),
    /// There is no memory left.
    #[error("no memory")]
    NoMemory,
}

impl From<NoMemory> for PlanFault {
    ghost use Rattle.std.specs.Prelude.{◌≡◌};
    ghost use Rattle.df1_plan.specs.declared.fault.PlanFault.TheVariants.{NoMemory as Wanting};

    ghost from_gives = { λ _ e. e ≡ Wanting };

    fn from(_: NoMemory) -> Self {
        PlanFault::NoMemory
    }
}

impl From<AllocError> for PlanFault {
    ghost use Rattle.std.specs.Prelude.{◌≡◌};
    ghost use Rattle.df1_plan.specs.declared.fault.PlanFault.TheVariants.{NoMemory as Wanting};

    ghost from_gives = { λ _ e. e ≡ Wanting };

    fn from(_: AllocError) -> Self {
        PlanFault::NoMemory
    }
}

impl<T: Drop> From<AllocFailed<T>> for PlanFault {
    ghost use Rattle.std.specs.Prelude.{◌≡◌};
    ghost use Rattle.df1_plan.specs.declared.fault.PlanFault.TheVariants.{NoMemory as Wanting};

    ghost from_gives = { λ _ e. e ≡ Wanting };

    fn from(_: AllocFailed<T>) -> Self {
        PlanFault::NoMemory
    }
}

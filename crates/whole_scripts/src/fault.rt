//! The faults by which a script of an input is not run completely.

use df1_base::{Failed, NoMemory};
use line_script::{Cause, ScriptFault};
use thiserror::Error;

/// The reason why a script of an input was not run completely.
#[derive(Clone, Copy, Debug, PartialEq, Eq, Error)]
pub enum RunFault {
    /// A line of the script is refused: its number, counted from 1, and the first cause that fits it.
    #[error("line {line}: {cause}")]
    Refusal { line: u32, cause: Cause },
    /// The input failed.
    #[error("the input failed")]
    Input,
    /// The output failed.
    #[error("the output failed")]
    Output,
    /// There is no memory left.
    #[error("no memory")]
    NoMemory,
}

impl From<ScriptFault> for RunFault {
    ghost use Rattle.std.specs.Prelude.{◌≡◌};
    ghost use Rattle.whole_scripts.specs.Whole.{fault_of};

    ghost from_gives = { λ fault e. e ≡ fault_of fault };

    fn from(fault: ScriptFault) -> Self {
        match fault {
            ScriptFault::At { line, cause } => RunFault::Refusal { line, cause },
            ScriptFault::NoMemory => RunFault::NoMemory,
        }
    }
}

impl From<NoMemory> for RunFault {
    ghost use Rattle.std.specs.Prelude.{◌≡◌};
    ghost use Rattle.whole_scripts.specs.declared.fault.RunFault.TheVariants.{NoMemory};

    ghost from_gives = { λ _ e. e ≡ NoMemory };

    fn from(_: NoMemory) -> Self {
        RunFault::NoMemory
    }
}

/// The failure is that of the output; one of the input is judged by what was read.
impl From<Failed> for RunFault {
    ghost use Rattle.std.specs.Prelude.{◌≡◌};
    ghost use Rattle.whole_scripts.specs.declared.fault.RunFault.TheVariants.{Output};

    ghost from_gives = { λ _ e. e ≡ Output };

    fn from(_: Failed) -> Self {
        RunFault::Output
    }
}

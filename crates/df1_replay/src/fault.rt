//! Why a replay of an input failed.

use line_replay::{Cause, StreamFault};
use thiserror::Error;

/// Why a replay of an input failed.
#[derive(Clone, Copy, Debug, PartialEq, Eq, Error)]
pub enum ReplayFault {
    /// A line of the script was refused: its number, counted from 1, and the first cause that fits it.
    #[error("line {line}: {cause}")]
    Refusal { line: u32, cause: Cause },
    /// The input has failed.
    #[error("the input failed")]
    Input,
    /// The output has failed.
    #[error("the output failed")]
    Output,
    /// There is no memory left.
    #[error("no memory")]
    NoMemory,
}

impl From<StreamFault> for ReplayFault {
    ghost use Rattle.std.specs.Prelude.{◌≡◌};
    ghost use Rattle.df1_replay.specs.Outcome.{fault_of};

    ghost from_gives = { λ fault e. e ≡ fault_of fault };

    fn from(fault: StreamFault) -> Self {
        match fault {
            StreamFault::At { line, cause } => ReplayFault::Refusal { line, cause },
            StreamFault::SinkFailed => ReplayFault::Output,
            StreamFault::NoMemory => ReplayFault::NoMemory,
        }
    }
}

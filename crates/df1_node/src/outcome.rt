//! The outcomes of a command, and the reasons why one is not issued.
use std::alloc::AllocError;
use thiserror::Error;

/// The outcome of a command.
#[derive(Clone, Copy, Debug, PartialEq, Eq)]
pub enum Outcome {
    /// It was not yet handed out.
    Waiting,
    /// It was handed out and is outstanding.
    Out,
    /// Its reply was accepted.
    Answered,
    /// It was given up on its way, or dropped before it was handed out.
    Undelivered,
    /// No reply came in time.
    Unanswered,
}

/// The reason why a command was not issued: the first of these that applies.
#[derive(Clone, Copy, Debug, PartialEq, Eq, Error)]
pub enum IssueFault {
    /// The payload is empty.
    #[error("the payload is empty")]
    Empty,
    /// The payload has over 245 bytes.
    #[error("the payload has over 245 bytes")]
    TooLong,
    /// Bit 6 of CMD is set, so the payload is that of a reply.
    #[error("the payload is no command")]
    NotCommand,
    /// 65,535 commands were issued already.
    #[error("65535 commands were issued")]
    Spent,
    /// There is no memory left.
    #[error("no memory")]
    NoMemory,
}

impl From<AllocError> for IssueFault {
    ghost use Rattle.std.specs.Prelude.{◌≡◌};
    ghost use Rattle.df1_node.specs.declared.outcome.IssueFault.TheVariants.{NoMemory};

    ghost from_gives = { λ _ e. e ≡ NoMemory };

    fn from(_: AllocError) -> Self {
        IssueFault::NoMemory
    }
}

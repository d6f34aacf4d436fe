//! Why a text is not a script.
ghost use Rattle.std.specs.Prelude.{◌≡◌};

use df1_base::NoMemory;
use thiserror::Error;

/// What is wrong with a line. If several causes fit, the first of these is reported.
#[derive(Clone, Copy, Debug, PartialEq, Eq, Error)]
pub enum Cause {
    /// Byte 16,777,217 of the text is among the first 1,025 bytes of the line, its line feed counted.
    #[error("size")]
    Size,
    /// The line has over 1,024 bytes before its line feed or the end of the text, including a carriage return.
    #[error("long")]
    Long,
    /// The line follows `end`, and is neither blank nor a comment.
    #[error("after")]
    After,
    /// The line is none of the forms.
    #[error("form")]
    Form,
    /// The form may not stand here.
    #[error("place")]
    Place,
    /// The line names an end that the mode doesn't have, a station that no earlier line declares, a key that isn't for
    /// that end, or a file that no earlier line declares.
    #[error("missing")]
    Missing,
    /// A number, a word or a length is out of its range, or a compatibility file is of another type than bit or
    /// integer.
    #[error("value")]
    Value,
    /// An earlier line set this key, file, station or word.
    #[error("twice")]
    Twice,
    /// It is the 65,536th command of an end.
    #[error("spent")]
    Spent,
    /// The sum of events passes 4,000,000.
    #[error("events")]
    Events,
    /// The text ended without `end`.
    #[error("open")]
    NoEnd,
}

/// Why a text is not a script.
#[derive(Clone, Copy, Debug, PartialEq, Eq, Error)]
pub enum ScriptFault {
    /// The first faulty line, counted from 1, and the first cause that fits it. For `NoEnd` the line is one more than
    /// the number of lines.
    #[error("line {line}: {cause}")]
    At { line: u32, cause: Cause },
    /// There is no memory left.
    #[error("no memory")]
    NoMemory,
}

/// Why a line can't follow the lines before it.
#[derive(Clone, Copy, Debug, PartialEq, Eq, Error)]
pub enum LineFault {
    /// The first cause that fits it.
    #[error("{0}")]
    Faulty(Cause),
    /// There is no memory left.
    #[error("no memory")]
    NoMemory,
}

impl From<NoMemory> for LineFault {
    ghost use Rattle.std.specs.Prelude.{◌≡◌};
    ghost use Rattle.line_script.specs.declared.fault.LineFault.TheVariants.{NoMemory};

    ghost from_gives = { λ _ e. e ≡ NoMemory };

    fn from(_: NoMemory) -> Self {
        LineFault::NoMemory
    }
}

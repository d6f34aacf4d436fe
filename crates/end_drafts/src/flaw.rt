//! What may be wrong with a statement that follows the lines so far.

use df1_base::NoMemory;

/// What is wrong with a statement. If several flaws fit, the first of these is reported.
#[derive(Clone, Copy, Debug, PartialEq, Eq)]
pub enum Flaw {
    /// The statement may not stand here.
    Place,
    /// The statement names an end that the mode doesn't have, a station that no earlier line declares, a key that isn't
    /// for that end, or a file that no earlier line declares.
    Missing,
    /// A number, a word or a length is out of its range, or a compatibility file is of another type than bit or
    /// integer.
    Value,
    /// An earlier line set this key, file, station or word.
    Twice,
    /// It is the 65,536th command of an end.
    Spent,
    /// The sum of events passes 4,000,000.
    Events,
}

/// Why a statement can't follow the lines before it.
#[derive(Clone, Copy, Debug, PartialEq, Eq)]
pub enum StatementFault {
    /// The first flaw that it has.
    Flawed(Flaw),
    /// There is no memory left.
    NoMemory,
}

impl From<NoMemory> for StatementFault {
    ghost use Rattle.std.specs.Prelude.{◌≡◌};
    ghost use Rattle.end_drafts.specs.declared.flaw.StatementFault.TheVariants.{NoMemory};

    ghost from_gives = { λ _ e. e ≡ NoMemory };

    fn from(_: NoMemory) -> Self {
        StatementFault::NoMemory
    }
}

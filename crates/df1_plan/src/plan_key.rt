//! The keys of a plan.
ghost use Rattle.std.specs.Prelude.{◌≡◌};
ghost use Rattle.df1_plan.specs.Keys.{is_other as the_other, is_setting as the_setting, name_of};

use end_settings::EndKey;
use std::fmt::{Display, Error, Formatter, Write};

/// A key of a plan: a setting of a full-duplex end, or one of the others, which are listed in byte order of their
/// names.
#[derive(Clone, Copy, Debug, PartialEq, Eq)]
pub enum PlanKey {
    Setting(EndKey),
    Block,
    Check,
    Compat,
    File,
    Issue,
    Peer,
}

/// The keys that are not settings.
const OTHERS: [PlanKey; 6] = [
    PlanKey::Block,
    PlanKey::Check,
    PlanKey::Compat,
    PlanKey::File,
    PlanKey::Issue,
    PlanKey::Peer,
];

impl PlanKey {
    /// Returns the name of the key in a document.
    pub fn name(self) -> &'static str
        ensures { result.now ≡ name_of self }
    {
        match self {
            PlanKey::Setting(key) => key.name(),
            PlanKey::Block => "block",
            PlanKey::Check => "check",
            PlanKey::Compat => "compat",
            PlanKey::File => "file",
            PlanKey::Issue => "issue",
            PlanKey::Peer => "peer",
        }
    }
}

impl Display for PlanKey {
    fn fmt<W: Write>(&self, f: &mut Formatter<W>) -> Result<(), Error> {
        f.write_str(self.name())
    }
}

/// Returns whether a name is that of a setting of a full-duplex end.
pub(crate) fn is_setting(name: &str) -> bool
    ensures { result ≡ the_setting name.now }
{
    match EndKey::named(name.as_bytes()) {
        Some(key) => key.roles().duplex,
        None => false,
    }
}

/// Returns whether a name is that of another key.
pub(crate) fn is_other(name: &str) -> bool
    ensures { result ≡ the_other name.now }
{
    OTHERS.iter().any(|key| name == key.name())
}

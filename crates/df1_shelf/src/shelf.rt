//! The outside that holds files: each is read whole, by its name.
use std::alloc::{AllocError, Global};
use thiserror::Error;

/// The reason why a file was not fetched.
#[derive(Clone, Copy, Debug, PartialEq, Eq, Error)]
pub enum FetchFault {
    /// The shelf failed, and its count of faults rose.
    #[error("the file cannot be read")]
    Failed,
    /// The file has more bytes than the limit.
    #[error("the file is over its limit")]
    TooLong,
    /// There is no memory left.
    #[error("no memory")]
    NoMemory,
}

impl From<AllocError> for FetchFault {
    ghost use Rattle.std.specs.Prelude.{◌≡◌};
    ghost use Rattle.df1_shelf.specs.declared.shelf.FetchFault.TheVariants.{NoMemory};

    ghost from_gives = { λ _ e. e ≡ NoMemory };

    fn from(_: AllocError) -> Self {
        FetchFault::NoMemory
    }
}

/// A store of files. It may report its files, and of each whether a fetch of it fails.
pub trait Shelf {
    ghost use Rattle.std.specs.Prelude.{◌≡◌, ◌≤◌, List, ℕ, Option, true, length, IfOk, IsErrOf};
    ghost use Rattle.df1_base.specs.Outside.{Rose};
    ghost use Rattle.df1_shelf.specs.Shelves.{Filed, IsContent, IsLonger, is_sound};
    ghost use Rattle.df1_shelf.specs.declared.shelf.FetchFault.TheVariants.{Failed, TooLong};

    /// The file of a name, if the shelf reports it.
    ghost file: { Self → List ℕ → Option Filed };

    /// How often it has failed.
    ghost faults: { Self → ℕ };

    /// Returns the whole file of a name. Returns `TooLong` only if the file has more than `limit` bytes, and `NoMemory` if
    /// memory for it is refused. `Failed` is returned only if the count of faults rose, and never at a file of which the shelf reports
    /// that its fetch doesn't fail. Otherwise the count is unchanged.
    fn fetch(&mut self, alloc: Global, name: &str, limit: usize) -> Result<Vec<u8>, FetchFault>
        ensures whole { IfOk result (λ bytes. IsContent (file self.old name.now) bytes.items) }
        ensures fits { IfOk result (λ bytes. length bytes.items ≤ limit) }
        ensures too_long { IsErrOf result TooLong → IsLonger (file self.old name.now) limit }
        ensures failed { IsErrOf result Failed → Rose (faults self.old) (faults self.new) }
        ensures sound { is_sound (file self.old name.now) ≡ true → ¬ IsErrOf result Failed }
        ensures same { (other : List ℕ) → file self.new other ≡ file self.old other }
        ensures later { faults self.old ≤ faults self.new }
        ensures calm { ¬ IsErrOf result Failed → faults self.new ≡ faults self.old };
}

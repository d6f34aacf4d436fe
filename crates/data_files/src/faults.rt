//! Faults of the files from which tables are to be made.
ghost use Rattle.std.specs.Prelude.{◌≡◌, ◌==◌};
ghost use Rattle.std.specs.List.{list_any};
ghost use Rattle.data_files.specs.Tables.{fault_of, faults, file_fault};

use crate::{FileSpec, MakeFault};

/// The maximum number of files of the tables.
pub const MAX_FILES: usize = 256;

/// The maximum number of elements of a file.
pub const MAX_ELEMENTS: u16 = 1000;

/// Returns the first fault of these files.
pub(crate) fn first_fault(specs: &[FileSpec]) -> Option<MakeFault>
    ensures { result ≡ faults specs.now }
{
    if specs.len() > MAX_FILES {
        return Some(MakeFault::TooMany);
    }
    for (place, spec) in specs.iter().enumerate() {
        let fault = fault_after(&specs[..place], *spec);
        if fault.is_some() {
            return fault;
        }
    }
    None
}

/// Returns the fault of a file that follows others.
fn fault_after(before: &[FileSpec], spec: FileSpec) -> Option<MakeFault>
    ensures { result ≡ fault_of before.now spec }
{
    file_fault(spec, has_number(before, spec.number))
}

/// Returns what is wrong with a file, where it is known whether an earlier one has its number: the first of `Empty`,
/// `Large` and `Twice` that is so, and None exactly if none is.
pub fn file_fault(spec: FileSpec, is_twice: bool) -> Option<MakeFault>
    ensures { result ≡ file_fault spec is_twice }
{
    if spec.count == 0 {
        Some(MakeFault::Empty(spec.number))
    } else if spec.count > MAX_ELEMENTS {
        Some(MakeFault::Large(spec.number))
    } else if is_twice {
        Some(MakeFault::Twice(spec.number))
    } else {
        None
    }
}

/// Returns whether one of the files has this number.
fn has_number(specs: &[FileSpec], number: u16) -> bool
    ensures { result ≡ list_any (λ other. other.number == number) specs.now }
{
    specs.iter().any(|other| other.number == number)
}

//! Data files, in the order of their declarations, and which numbers they have.
ghost use Rattle.std.specs.Prelude.{◌≡◌, ◌<◌, ◌^◌, ◌==◌, [], ◌∷◌, ◌++◌, ℕ, None, Some, IfOk, OnOk, OnErr, find, length, slice_index_or, if◌then◌else◌};
ghost use Rattle.std.specs.List.{list_any};

use data_files::FileSpec;
use df1_base::NoMemory;
use script_parts::Specs;
use script_statement::Items;
use std::alloc::Global;
use std::marker::Model;

/// Data files of one end, which contracts see as a list; a look-up of a number goes to its place in a table.
#[derive(Drop)]
pub struct GivenFiles {
    files: Vec<FileSpec>,
    numbers: Vec<Option<FileSpec>>,
}

impl Model for GivenFiles {
    ghost use Rattle.std.specs.Prelude.{List};
    ghost use Rattle.data_files.specs.declared.file_spec.FileSpec.{FileSpec as OneFile};

    ghost Value = { List OneFile };

    ghost use Rattle.end_drafts.specs.Places.{AreNumbers};

    ghost view = { λ g. g.files.items };

    ghost invariant = { λ g. AreNumbers g.numbers.items g.files.items };
}

impl GivenFiles {
    /// Returns no files.
    pub fn new(alloc: Global) -> Self
        ensures { result ≡ [] }
    {
        GivenFiles {
            files: Vec::new(alloc),
            numbers: Vec::new(alloc),
        }
    }

    /// Returns how many files there are.
    pub fn len(&self) -> usize
        ensures { result ≡ length self.now }
    {
        self.files.len()
    }

    /// Returns the first file of this number.
    pub fn file(&self, number: u16) -> Option<FileSpec>
        ensures { result ≡ find (λ spec. spec.number == number) self.now }
    {
        first_at(&self.numbers, usize::from(number))
    }

    /// Returns whether a file has this number.
    pub fn has(&self, number: u16) -> bool
        ensures { result ≡ list_any (λ spec. spec.number == number) self.now }
    {
        self.file(number).is_some()
    }

    /// Appends a file. Without memory for it, the files are unchanged.
    pub fn push(&mut self, spec: FileSpec) -> Result<(), NoMemory>
        ensures ok { OnOk result (self.new ≡ self.old ++ spec ∷ []) }
        ensures err { OnErr result (self.new ≡ self.old) }
    {
        let first = self.file(spec.number).unwrap_or(spec);
        self.files.push(spec)?;
        match put(&mut self.numbers, usize::from(spec.number), first) {
            Ok(()) => Ok(()),
            Err(fault) => {
                self.files.pop();
                Err(fault)
            }
        }
    }

    /// Returns a copy of the files, as a list.
    pub fn copied(&self, alloc: Global) -> Result<Specs, NoMemory>
        ensures { IfOk result (λ files. files ≡ self.now) }
    {
        Items::copy_of(alloc, &self.files)
    }
}

/// Returns the file at a number of a table, if there is one.
fn first_at(numbers: &[Option<FileSpec>], number: usize) -> Option<FileSpec>
    ensures { result ≡ slice_index_or numbers.now number None }
{
    match numbers.get(number) {
        Some(first) => *first,
        None => None,
    }
}

/// Puts a file at a number of a table.
fn put(numbers: &mut Vec<Option<FileSpec>>, number: usize, first: FileSpec) -> Result<(), NoMemory>
    requires { number < 2 ^ 32 }
    ensures ok { OnOk result ((i : ℕ) → slice_index_or numbers.new.items i None ≡ (if number == i then Some first else slice_index_or numbers.old.items i None)) }
    ensures err { OnErr result (numbers.new.items ≡ numbers.old.items) }
{
    if numbers.len() <= number {
        numbers.resize(number + 1, None)?;
    }
    numbers[number] = Some(first);
    Ok(())
}

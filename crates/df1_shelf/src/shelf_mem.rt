//! A shelf in memory.
ghost use Rattle.std.specs.Prelude.{◌≡◌, ◌≢◌, ◌≤◌, ◌<◌, List, ℕ, Some, None, true, false, OnOk, OnErr, IfOk, IsErrOf, length};
ghost use Rattle.df1_base.specs.Outside.{Rose};
ghost use Rattle.df1_shelf.specs.Shelved.{file_of};
ghost use Rattle.df1_shelf.specs.Shelves.{IsContent, IsLonger, is_sound};

use crate::{FetchFault, Shelf};
use df1_base::NoMemory;
use std::alloc::Global;
use std::collections::BTreeMap;

/// The bytes of a file, and whether a fetch of it fails.
#[derive(Drop)]
struct MemFile {
    bytes: Vec<u8>,
    fails: bool,
}

/// A shelf of files that were added. A fetch of a name that isn't there fails.
pub struct ShelfMem {
    alloc: Global,
    files: BTreeMap<String, MemFile>,
    pub(crate) faults: u64,
}

// By hand, so that whoever drops one proves nothing of its parts.
impl Drop for ShelfMem {
    fn drop(self) {
        let ShelfMem {
            alloc: _,
            files: _files,
            faults: _,
        } = self;
    }
}

impl ShelfMem {
    /// Returns a shelf without files.
    pub fn new(alloc: Global) -> Self
        ensures files { (name : List ℕ) → file_of result name ≡ None }
        ensures faults { result.faults ≡ 0 }
    {
        ShelfMem {
            alloc,
            files: BTreeMap::new(alloc),
            faults: 0,
        }
    }

    /// Adds a file, in place of one that had its name. If there is no memory for it, the files are unchanged.
    pub fn add(&mut self, name: &str, bytes: &[u8], fails: bool) -> Result<(), NoMemory>
        ensures added { OnOk result (file_of self.new name.now ≡ Some (record { bytes = bytes.now; fails = fails })) }
        ensures others { OnOk result ((other : List ℕ) → other ≢ name.now → file_of self.new other ≡ file_of self.old other) }
        ensures refused { OnErr result ((other : List ℕ) → file_of self.new other ≡ file_of self.old other) }
        ensures faults { self.new.faults ≡ self.old.faults }
    {
        let file = MemFile {
            bytes: bytes.to_vec(self.alloc)?,
            fails,
        };
        let name = String::from_str(self.alloc, name)?;
        self.files.insert(name, file)?;
        Ok(())
    }
}

impl Shelf for ShelfMem {
    ghost use Rattle.df1_shelf.specs.Shelved.{file_of};

    ghost file = { λ s name. file_of s name };

    ghost faults = { λ s. s.faults };

    fn fetch(&mut self, alloc: Global, name: &str, limit: usize) -> Result<Vec<u8>, FetchFault>
        ensures fails { is_sound (file_of self.old name.now) ≡ false → IsErrOf result FetchFault.Failed }
        ensures whole { IfOk result (λ bytes. IsContent (file_of self.old name.now) bytes.items) }
        ensures fits { IfOk result (λ bytes. length bytes.items ≤ limit) }
        ensures too_long { IsErrOf result FetchFault.TooLong → IsLonger (file_of self.old name.now) limit }
        ensures failed { IsErrOf result FetchFault.Failed → Rose self.old.faults self.new.faults }
        ensures sound { is_sound (file_of self.old name.now) ≡ true → ¬ IsErrOf result FetchFault.Failed }
        ensures same { (other : List ℕ) → file_of self.new other ≡ file_of self.old other }
        ensures later { self.old.faults ≤ self.new.faults }
        ensures calm { ¬ IsErrOf result FetchFault.Failed → self.new.faults ≡ self.old.faults }
    {
        match self.files.get(name) {
            Some(file) if !file.fails => copy_of(alloc, &file.bytes, limit),
            _ => {
                self.faults = self.faults.saturating_add(1);
                Err(FetchFault::Failed)
            }
        }
    }
}

/// Returns a copy of a file of at most `limit` bytes.
fn copy_of(alloc: Global, bytes: &[u8], limit: usize) -> Result<Vec<u8>, FetchFault>
    ensures whole { IfOk result (λ copy. copy.items ≡ bytes.now) }
    ensures fits { IfOk result (λ copy. length copy.items ≤ limit) }
    ensures too_long { IsErrOf result FetchFault.TooLong → limit < length bytes.now }
    ensures not_failed { ¬ IsErrOf result FetchFault.Failed }
{
    if bytes.len() > limit {
        return Err(FetchFault::TooLong);
    }
    Ok(bytes.to_vec(alloc)?)
}

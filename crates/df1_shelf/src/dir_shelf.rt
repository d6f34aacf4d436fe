//! The files of the current folder as a shelf, which reports nothing of them.
ghost use Rattle.std.specs.Prelude.{◌≡◌, ◌≤◌, IfOk, length, IsErrOf};

use crate::{FetchFault, Shelf};
use std::alloc::Global;
use std::fs;
use std::io::Read;
use std::rt::Files;

/// The most bytes that one read asks for.
const PIECE: usize = 4096;

/// A shelf over the file calls of std.
#[derive(Drop)]
pub struct DirShelf<'a, R: Files> {
    files: &'a R,
    pub(crate) faults: u64,
}

impl<'a, R: Files> DirShelf<'a, R> {
    /// Returns a shelf that has not failed yet.
    pub fn new(files: &'a R) -> Self
        ensures { result.faults ≡ 0 }
    {
        DirShelf { files, faults: 0 }
    }
}

impl<R: Files> Shelf for DirShelf<'_, R> {
    ghost use Rattle.std.specs.Prelude.{None};

    ghost file = { λ s name. None };

    ghost faults = { λ s. s.faults };

    fn fetch(&mut self, alloc: Global, name: &str, limit: usize) -> Result<Vec<u8>, FetchFault> {
        match read_file(self.files, alloc, name, limit) {
            Err(FetchFault::Failed) => {
                self.faults = self.faults.saturating_add(1);
                Err(FetchFault::Failed)
            }
            fetched => fetched,
        }
    }
}

/// Reads a file until its end, an error, or one byte past the limit.
fn read_file<R: Files>(
    files: &R,
    alloc: Global,
    name: &str,
    limit: usize,
) -> Result<Vec<u8>, FetchFault>
    ensures { IfOk result (λ bytes. length bytes.items ≤ limit) }
{
    let Ok(mut file) = fs::open(files, name) else {
        return Err(FetchFault::Failed);
    };
    let mut bytes = Vec::new(alloc);
    let mut piece = [0; PIECE];
    while bytes.len() <= limit {
        let most = (limit - bytes.len()).saturating_add(1).min(PIECE);
        let Ok(count) = file.read(&mut piece[..most]) else {
            return Err(FetchFault::Failed);
        };
        if count == 0 {
            return Ok(bytes);
        }
        bytes.extend_from_slice(&piece[..count])?;
    }
    Err(FetchFault::TooLong)
}

//! The data tables of a controller.
ghost use Rattle.std.specs.Prelude.{◌≡◌, ℕ, ◌+◌, ◌≤◌, true, length, take, drop, slice_get, IfOk, IfErr, IfSome, MatchOption, Err, None, Some, if◌then◌else◌, is_some};
ghost use Rattle.std.specs.BTreeMap.{get};
ghost use Rattle.std.specs.Ordering.{nat_cmp};
ghost use Rattle.data_files.specs.Directory.{overwritten};
ghost use Rattle.data_files.specs.Tables.{faults, file_of, flat_words, fresh, has_word, has_words, start_of, total_words, with_word, with_words, word_at, words_at};

use crate::faults::first_fault;
use crate::{FileSpec, MakeFault};
use df1_base::NoMemory;
use std::alloc::Global;
use std::collections::BTreeMap;
use std::marker::Model;

/// A file, and where its words start among the words of all files.
#[derive(Clone, Copy)]
struct File {
    spec: FileSpec,
    start: u32,
}

/// Data tables. Words are numbered from 0 in a file: the element times the words of an element, plus the sub-element.
/// There are at most 256 files of at most 3,000 words each.
pub struct Tables {
    specs: Vec<FileSpec>,
    directory: BTreeMap<u16, File>,
    words: Vec<u16>,
}

// By hand, so that whoever drops one proves nothing of its parts.
impl Drop for Tables {
    fn drop(self) {
        let Tables {
            specs: _specs,
            directory: _directory,
            words: _words,
        } = self;
    }
}

impl Model for Tables {
    ghost use Rattle.data_files.specs.Tables.{DataTables};

    ghost Value = { DataTables };

    ghost use Rattle.data_files.specs.contracts.file_spec.FileSpec as spec;
    ghost use Rattle.data_files.specs.Tables.{tables_code};

    ghost coded = { tables_code spec.the_row.coded };

    ghost use Rattle.data_files.specs.Directory.{tables_of, AreTables};

    ghost view = { λ t. tables_of t.specs.items t.words.items };

    ghost invariant = { λ t. AreTables t.specs.items t.directory t.words.items };
}

impl Tables {
    /// Creates tables of these files, with all words 0. There are at most 256 files, each of 1 to 1,000 elements, and
    /// their numbers differ; otherwise returns the first fault. `TooMany` comes before all others, and for one file
    /// `Empty` before `Large` before `Twice`.
    pub fn new(alloc: Global, specs: &[FileSpec]) -> Result<Tables, MakeFault>
        ensures ok { IfOk result (λ tables. tables ≡ fresh specs.now) }
        ensures fault { MatchOption (faults specs.now) (IfErr result (λ fault. fault ≡ MakeFault.NoMemory)) (λ fault. result ≡ Err fault) }
    {
        if let Some(fault) = first_fault(specs) {
            return Err(fault);
        }
        match Tables::zeroed(alloc, specs) {
            Ok(tables) => Ok(tables),
            Err(NoMemory) => Err(MakeFault::NoMemory),
        }
    }

    /// Creates tables of files that have no fault, with all words 0. An error is a lack of memory.
    pub fn zeroed(alloc: Global, specs: &[FileSpec]) -> Result<Tables, NoMemory>
        requires { faults specs.now ≡ None }
        ensures { IfOk result (λ tables. tables ≡ fresh specs.now) }
    {
        let mut directory = BTreeMap::new(alloc);
        let mut start = 0;
        for spec in specs {
            directory.insert(spec.number, File { spec: *spec, start })?;
            start += spec.words();
        }
        let words = vec![in alloc; 0u16; start as usize]?;
        let mut kept = Vec::new(alloc);
        kept.extend_from_slice(specs)?;
        Ok(Tables {
            specs: kept,
            directory,
            words,
        })
    }

    /// Returns the number of files, at most 256.
    pub fn files(&self) -> usize
        ensures value { result ≡ length self.now.specs }
        ensures most { result ≤ 256 }
    {
        self.specs.len()
    }

    /// Returns the file at this place, from 0, in the order in which the files were given, and None past the last.
    pub fn spec_at(&self, place: usize) -> Option<FileSpec>
        ensures { result ≡ slice_get self.now.specs place }
    {
        self.specs.get(place).copied()
    }

    /// Returns the file of this number, and None exactly if there is no such file.
    pub fn spec(&self, number: u16) -> Option<FileSpec>
        ensures { result ≡ file_of self.now.specs number }
    {
        Some(file_in(&self.directory, number)?.spec)
    }

    /// Returns the word of this index in the file of this number, and None exactly if there is no such file or word.
    pub fn word(&self, number: u16, index: u32) -> Option<u16>
        ensures value { result ≡ word_at self.now number index }
        ensures known { is_some result ≡ has_word self.now.specs number index }
    {
        let file = file_in(&self.directory, number)?;
        if index >= file.spec.words() {
            return None;
        }
        Some(self.words[file.start as usize + index as usize])
    }

    /// Sets the word of this index in the file of this number. Returns false, with nothing changed, exactly if there is
    /// no such file or word.
    pub fn set(&mut self, number: u16, index: u32, value: u16) -> bool
        ensures known { result ≡ has_word self.old.specs number index }
        ensures after { self.new ≡ (if result then with_word self.old number index value else self.old) }
    {
        let Some(file) = file_in(&self.directory, number) else {
            return false;
        };
        if index >= file.spec.words() {
            return false;
        }
        self.words[file.start as usize + index as usize] = value;
        true
    }

    /// Returns the words of all files, file after file in the order in which the files were given. The word of an index
    /// in a file is at that index after the file's start.
    pub fn flat(&self) -> &[u16]
        ensures words { result.now ≡ flat_words self.now }
        ensures size { length result.now ≡ total_words self.now.specs }
        ensures each { (number start index : ℕ) → start_of self.now.specs number ≡ Some start → has_word self.now.specs number index ≡ true → slice_get result.now (start + index) ≡ word_at self.now number index }
    {
        &self.words
    }

    /// Returns where the words of the file of this number start among the words of all files, and None exactly if there
    /// is no such file. They come after those of the files before it.
    pub fn start(&self, number: u16) -> Option<u32>
        ensures { result ≡ start_of self.now.specs number }
    {
        Some(file_in(&self.directory, number)?.start)
    }

    /// Returns `count` words of the file of this number, from the index `first` on. Returns None exactly if there is no
    /// such file, or `first` plus `count` exceeds its words.
    pub fn range(&self, number: u16, first: u32, count: u32) -> Option<&[u16]>
        ensures known { is_some result ≡ has_words self.now.specs number first count }
        ensures words { IfSome result (λ part. part.now ≡ words_at self.now number first count) }
    {
        let file = file_in(&self.directory, number)?;
        if u64::from(first) + u64::from(count) > u64::from(file.spec.words()) {
            return None;
        }
        let place = file.start as usize + first as usize;
        Some(part(&self.words, place, count as usize))
    }

    /// Sets words of the file of this number, from the index `first` on. Returns false, with nothing changed, exactly
    /// if there is no such file, or `first` plus their count exceeds its words.
    pub fn set_words(&mut self, number: u16, first: u32, words: &[u16]) -> bool
        ensures known { result ≡ has_words self.old.specs number first (length words.now) }
        ensures after { self.new ≡ (if result then with_words self.old number first words.now else self.old) }
        ensures files { self.new.specs ≡ self.old.specs }
    {
        let Some(file) = file_in(&self.directory, number) else {
            return false;
        };
        if u64::from(first) + words.len() as u64 > u64::from(file.spec.words()) {
            return false;
        }
        let place = file.start as usize + first as usize;
        overwrite(&mut self.words, place, words);
        true
    }
}

/// Returns the file of this number.
fn file_in(directory: &BTreeMap<u16, File>, number: u16) -> Option<File>
    ensures { result ≡ get nat_cmp directory.now number }
{
    directory.get(&number).copied()
}

/// Returns `count` of the words, from a place on.
fn part(words: &[u16], place: usize, count: usize) -> &[u16]
    requires { place + count ≤ length words.now }
    ensures { result.now ≡ take count (drop place words.now) }
{
    &words[place..place + count]
}

/// Overwrites the words from a place on with `new`.
fn overwrite(words: &mut [u16], place: usize, new: &[u16])
    requires { place + length new.now ≤ length words.old }
    ensures { words.new ≡ overwritten words.old place new.now }
{
    words[place..place + new.len()].copy_from_slice(new);
}

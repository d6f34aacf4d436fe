//! Data files as C passes them.

ghost use Rattle.std.specs.Prelude.{◌≡◌, ◌==◌, None, find, is_none, not, IfOk};
ghost use Rattle.std.specs.List.{list_any};
ghost use Rattle.data_files.specs.Tables.{fault_of, faults, file_of, has_word};
ghost use Rattle.c_ends.specs.Parts.{count_fault, each_fault, first_tables, kind_of, make_code, spec_of, specs_of, type_fault, with_all, word_fault};

use crate::code::Code;
use crate::parts::{FileParts, WordParts};
use data_files::{FileSpec, MAX_FILES, MakeFault, Tables, file_fault, type_byte};
use df1_base::{FileType, NoMemory};
use std::alloc::Global;

/// The types of data files.
const KINDS: [FileType; 7] = [
    FileType::Status,
    FileType::Bit,
    FileType::Timer,
    FileType::Counter,
    FileType::Control,
    FileType::Integer,
    FileType::Float,
];

/// Returns the type of a type byte, and None exactly if it is no type's (manual topic: addressing).
#[tactic(auto, unfolding(crate::specs::Parts::kind_of))]
pub fn kind_of(byte: u8) -> Option<FileType>
    ensures { result ≡ kind_of byte }
{
    KINDS.iter().copied().find(|kind| type_byte(*kind) == byte)
}

/// Returns a data file, Status if its byte is no type's.
fn spec_of(file: FileParts) -> FileSpec
    ensures { result ≡ spec_of file }
{
    FileSpec {
        number: file.number,
        kind: kind_of(file.kind).unwrap_or(FileType::Status),
        count: file.elements,
    }
}

/// Returns a code if there are too many files.
pub(crate) fn count_fault(files: &[FileParts]) -> Option<Code>
    ensures { result ≡ count_fault files.now }
{
    if files.len() > MAX_FILES {
        Some(Code::TooManyFiles)
    } else {
        None
    }
}

/// Returns a code if a file has a byte that is no type's.
pub(crate) fn type_fault(files: &[FileParts]) -> Option<Code>
    ensures { result ≡ type_fault files.now }
{
    if has_other_type(files) {
        Some(Code::BadType)
    } else {
        None
    }
}

/// Returns whether the byte of one of the files is no type's.
fn has_other_type(files: &[FileParts]) -> bool
    ensures { result ≡ list_any (λ file. is_none (kind_of file.kind)) files.now }
{
    files.iter().any(|file| kind_of(file.kind).is_none())
}

/// Returns the code of the first file that is empty, large, or there twice.
pub(crate) fn each_fault(files: &[FileParts]) -> Option<Code>
    ensures { result ≡ each_fault files.now }
{
    first_fault(files).map(code_of)
}

/// Returns the first fault of these files.
fn first_fault(files: &[FileParts]) -> Option<MakeFault>
    ensures { result ≡ faults (specs_of files.now) }
{
    if files.len() > MAX_FILES {
        return Some(MakeFault::TooMany);
    }
    for (place, file) in files.iter().enumerate() {
        let fault = fault_after(&files[..place], *file);
        if fault.is_some() {
            return fault;
        }
    }
    None
}

/// Returns what is wrong with a file that follows others.
fn fault_after(before: &[FileParts], file: FileParts) -> Option<MakeFault>
    ensures { result ≡ fault_of (specs_of before.now) (spec_of file) }
{
    file_fault(spec_of(file), has_number(before, file.number))
}

/// Returns whether one of the files has this number.
fn has_number(files: &[FileParts], number: u16) -> bool
    ensures { result ≡ list_any (λ other. other.number == number) files.now }
{
    files.iter().any(|other| other.number == number)
}

/// Returns the code of a fault.
fn code_of(fault: MakeFault) -> Code
    ensures { result ≡ make_code fault }
{
    match fault {
        MakeFault::TooMany => Code::TooManyFiles,
        MakeFault::Empty(_) => Code::EmptyFile,
        MakeFault::Large(_) => Code::LargeFile,
        MakeFault::Twice(_) => Code::FileTwice,
        MakeFault::NoMemory => Code::NoMemory,
    }
}

/// Returns the file of this number.
#[tactic(auto, using(crate::proofs::FileLemmas::find_specs))]
pub(crate) fn file_in(files: &[FileParts], number: u16) -> Option<FileSpec>
    ensures { result ≡ file_of (specs_of files.now) number }
{
    match parts_of(files, number) {
        Some(file) => Some(spec_of(file)),
        None => None,
    }
}

/// Returns what C passed of the file of this number.
fn parts_of(files: &[FileParts], number: u16) -> Option<FileParts>
    ensures { result ≡ find (λ file. file.number == number) files.now }
{
    files.iter().copied().find(|file| file.number == number)
}

/// Returns a code if one of the words is in no file.
pub(crate) fn word_fault(files: &[FileParts], words: &[WordParts]) -> Option<Code>
    ensures { result ≡ word_fault files.now words.now }
{
    if lacks_word(files, words) {
        Some(Code::NoWord)
    } else {
        None
    }
}

/// Returns whether one of the words is in no file.
fn lacks_word(files: &[FileParts], words: &[WordParts]) -> bool
    ensures { result ≡ list_any (λ word. not (has_word (specs_of files.now) word.file word.index)) words.now }
{
    words.iter().any(|word| !has_word(files, *word))
}

/// Returns whether there is such a word.
fn has_word(files: &[FileParts], word: WordParts) -> bool
    ensures { result ≡ has_word (specs_of files.now) word.file word.index }
{
    match file_in(files, word.file) {
        Some(spec) => word.index < spec.words(),
        None => false,
    }
}

/// Returns the data tables of these files, with the first values of their words. An error is a lack of memory.
pub(crate) fn tables_of(
    alloc: Global,
    files: &[FileParts],
    words: &[WordParts],
) -> Result<Tables, NoMemory>
    requires { faults (specs_of files.now) ≡ None }
    ensures { IfOk result (λ tables. tables ≡ first_tables files.now words.now) }
{
    let specs = specs_in(alloc, files)?;
    let mut tables = Tables::zeroed(alloc, specs.as_slice())?;
    set_words(&mut tables, words);
    Ok(tables)
}

/// Returns the files of an end, in a vector.
fn specs_in(alloc: Global, files: &[FileParts]) -> Result<Vec<FileSpec>, NoMemory>
    ensures { IfOk result (λ specs. specs.items ≡ specs_of files.now) }
{
    let mut specs = Vec::new(alloc);
    for file in files {
        specs.push(spec_of(*file))?;
    }
    Ok(specs)
}

/// Sets words to their first values.
fn set_words(tables: &mut Tables, words: &[WordParts])
    ensures { tables.new ≡ with_all tables.old words.now }
{
    for word in words {
        let _ = tables.set(word.file, word.index, word.value);
    }
}

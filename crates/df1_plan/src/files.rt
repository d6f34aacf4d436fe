//! The data files of a plan.
ghost use Rattle.std.specs.Prelude.{◌≡◌, ◌≢◌, ◌≤◌, ◌==◌, ◌++◌, ◌&&◌, [], All, Ok, Err, IfOk, IfErr, OnOk, length, not, nat_lt};
ghost use Rattle.std.specs.List.{list_any};
ghost use Rattle.data_files.specs.WordBytes.{words_of as the_words};
ghost use Rattle.toml.specs.View.{items_view, table_view, view};
ghost use Rattle.df1_plan.specs.Keys.{has_other};
ghost use Rattle.df1_plan.specs.Plans.{files};
ghost use Rattle.df1_plan.specs.Files.{HoldsItsWords, file_in as the_file, file_with as the_file_with, files_after, is_field as the_field, next_file as the_next, numbered, spec_in as the_spec, specs_of as the_specs, with_words, words_in as the_words_in, words_of_all as all_words};

use crate::values::{hex_in, integer_in, kind_in, value_at};
use crate::{PlanFault, PlanKey};
use data_files::{FileSpec, MAX_ELEMENTS, MAX_FILES};
use df1_base::NoMemory;
use script_parts::{Specs, WordOf, Words};
use script_statement::{Items, Who};
use std::alloc::Global;
use toml::{Table, Value};

/// A data file of a plan, and the first values of its words, from word 0 on.
#[derive(Drop)]
pub(crate) struct PlannedFile {
    pub spec: FileSpec,
    pub words: Items<u16>,
}

/// Returns the files at the key `file`, or the first entry that is refused.
pub(crate) fn files_at(alloc: Global, table: &Table) -> Result<Items<PlannedFile>, PlanFault>
    ensures ok { IfOk result (λ planned. files (table_view table.now) ≡ Ok planned) }
    ensures refused { IfErr result (λ e. e ≢ PlanFault.NoMemory → files (table_view table.now) ≡ Err e) }
{
    match value_at(table, PlanKey::File.name()) {
        None => Ok(Items::new(alloc)),
        Some(value) => match value.as_array() {
            Some(entries) => files_of(alloc, entries.as_slice()),
            None => Err(PlanFault::Key(PlanKey::File)),
        },
    }
}

/// Returns the files of these entries, or the first entry that is refused.
fn files_of(alloc: Global, entries: &[Value]) -> Result<Items<PlannedFile>, PlanFault>
    ensures ok { IfOk result (λ files. files_after [] (items_view entries.now) ≡ Ok files) }
    ensures refused { IfErr result (λ e. e ≢ PlanFault.NoMemory → files_after [] (items_view entries.now) ≡ Err e) }
{
    let mut files = Items::new(alloc);
    for entry in entries {
        match next_file(alloc, files.as_slice(), entry)? {
            Some(file) => files.push(file)?,
            None => return Err(PlanFault::File(files.as_slice().len() as u32 + 1)),
        }
    }
    Ok(files)
}

/// Returns the file of an entry after these files, if it may follow them.
fn next_file(
    alloc: Global,
    before: &[PlannedFile],
    entry: &Value,
) -> Result<Option<PlannedFile>, NoMemory>
    ensures { IfOk result (λ file. file ≡ the_next before.now (view entry.now)) }
{
    match file_in(alloc, entry)? {
        Some(file) if may_follow(before, file.spec) => Ok(Some(file)),
        _ => Ok(None),
    }
}

/// Returns whether a file may follow these: fewer than 256, none of which has its number.
fn may_follow(before: &[PlannedFile], spec: FileSpec) -> bool
    ensures { result ≡ (nat_lt (length before.now) 256 && not (list_any (λ other. other.spec.number == spec.number) before.now)) }
{
    before.len() < MAX_FILES && !has_number(before, spec.number)
}

/// Returns whether one of these files has this number.
fn has_number(files: &[PlannedFile], number: u16) -> bool
    ensures { result ≡ list_any (λ file. file.spec.number == number) files.now }
{
    files.iter().any(|file| file.spec.number == number)
}

/// Returns the file that an entry describes by itself.
fn file_in(alloc: Global, entry: &Value) -> Result<Option<PlannedFile>, NoMemory>
    ensures { IfOk result (λ file. file ≡ the_file (view entry.now)) }
{
    let Some(fields) = entry.as_table() else {
        return Ok(None);
    };
    if has_other_field(fields) {
        return Ok(None);
    }
    match spec_in(fields) {
        Some(spec) => file_with(alloc, fields, spec),
        None => Ok(None),
    }
}

/// Returns whether a field has a name that is not one of an entry's.
fn has_other_field(fields: &Table) -> bool
    ensures { result ≡ has_other the_field (table_view fields.now) }
{
    for name in fields.keys() {
        if !is_field(name.as_str()) {
            return true;
        }
    }
    false
}

/// Returns whether a name is one of an entry's fields.
fn is_field(name: &str) -> bool
    ensures { result ≡ the_field name.now }
{
    match name {
        "number" | "type" | "count" | "words" => true,
        _ => false,
    }
}

/// Returns the file that the fields describe.
fn spec_in(fields: &Table) -> Option<FileSpec>
    ensures { result ≡ the_spec (table_view fields.now) }
{
    let number = integer_in(value_at(fields, "number")?, 0, 999)?;
    let kind = kind_in(value_at(fields, "type")?)?;
    let count = integer_in(value_at(fields, "count")?, 1, u32::from(MAX_ELEMENTS))?;
    Some(FileSpec {
        number: number as u16,
        kind,
        count: count as u16,
    })
}

/// Returns a file with its first words.
fn file_with(alloc: Global, fields: &Table, spec: FileSpec) -> Result<Option<PlannedFile>, NoMemory>
    ensures { IfOk result (λ file. file ≡ the_file_with (table_view fields.now) spec) }
{
    match value_at(fields, "words") {
        None => Ok(Some(PlannedFile {
            spec,
            words: Items::new(alloc),
        })),
        Some(value) => match hex_in(alloc, value)? {
            Some(bytes) => words_in(alloc, spec, bytes.as_slice()),
            None => Ok(None),
        },
    }
}

/// Returns a file with the words of these bytes, if they are valid words of it.
fn words_in(alloc: Global, spec: FileSpec, bytes: &[u8]) -> Result<Option<PlannedFile>, NoMemory>
    ensures { IfOk result (λ file. file ≡ with_words spec (the_words_in spec bytes.now)) }
{
    let most = 2 * spec.words() as usize;
    if !bytes.len().is_multiple_of(2) || bytes.is_empty() || bytes.len() > most {
        return Ok(None);
    }
    let words = words_of(alloc, bytes)?;
    Ok(Some(PlannedFile { spec, words }))
}

/// Returns the words of these bytes, each low byte first.
fn words_of(alloc: Global, bytes: &[u8]) -> Result<Items<u16>, NoMemory>
    ensures { IfOk result (λ words. words ≡ the_words bytes.now) }
{
    let mut words = Items::new(alloc);
    let mut rest = bytes;
    while let [low, high, left @ ..] = rest {
        words.push(u16::from_le_bytes([*low, *high]))?;
        rest = left;
    }
    Ok(words)
}

/// Returns the files of an end.
pub(crate) fn specs_of(alloc: Global, files: &[PlannedFile]) -> Result<Specs, NoMemory>
    ensures { IfOk result (λ specs. specs ≡ the_specs files.now) }
{
    let mut specs = Items::new(alloc);
    for file in files {
        specs.push(file.spec)?;
    }
    Ok(specs)
}

/// Returns the first words of the files of an end.
pub(crate) fn words_of_all(alloc: Global, files: &[PlannedFile]) -> Result<Words, NoMemory>
    requires { All HoldsItsWords files.now }
    ensures { IfOk result (λ words. words ≡ all_words files.now) }
{
    let mut words = Items::new(alloc);
    for file in files {
        push_words(&mut words, file.spec.number, file.words.as_slice())?;
    }
    Ok(words)
}

/// Appends the first words of a file.
fn push_words(words: &mut Words, number: u16, values: &[u16]) -> Result<(), NoMemory>
    requires { length values.now ≤ 3000 }
    ensures { OnOk result (words.new ≡ words.old ++ numbered number 0 values.now) }
{
    let mut index = 0;
    for value in values {
        words.push(WordOf {
            who: Who::A,
            file: number,
            index,
            value: *value,
        })?;
        index += 1;
    }
    Ok(())
}

//! The calls on an end's data files: its files, their words, and runs of words.

ghost use Rattle.std.specs.Prelude.{◌≡◌, ◌+◌, ◌≤◌, IsTrue, length, Some};
ghost use Rattle.c_calls.specs.Answers.{end_code};
ghost use Rattle.c_calls.specs.Behind.{code_at, told_at, with_change};
ghost use Rattle.c_calls.specs.Words.{change_told, file_at, file_code, file_count, file_parts, first_change, is_range, node_words_set, range_code, range_told, seen_told, seen_with, word_code, word_set, word_told, words_set};

use crate::behind::node_of;
use c_ends::{Code, FileParts, Held};
use data_files::{FileSpec, type_byte};
use df1_node::Node;

/// Reports the value of a word.
pub fn tell_word(held: &Held, file: u16, index: u32, value: &mut u16) -> Code
    ensures code { result ≡ code_at (Some held.now) (λ node. word_code node file index) }
    ensures told { value.new ≡ told_at (Some held.now) (λ node. word_told node file index) value.old }
{
    let Some(node) = node_of(held) else {
        return Code::NoHandle;
    };
    let Some(word) = node.tables().word(file, index) else {
        return Code::NoWord;
    };
    *value = word;
    Code::Done
}

/// Sets a word, as a program in the controller would.
pub fn set_word(held: &mut Held, file: u16, index: u32, value: u16) -> Code
    ensures code { result ≡ code_at (Some held.old) (λ node. word_code node file index) }
    ensures after { held.new ≡ with_change (word_set file index value) held.old }
{
    let is_set = match held {
        Held::Decoder(_) => return Code::NoHandle,
        Held::Duplex(end) => end.host_mut().set_word(file, index, value),
        Held::Master(end) => end.host_mut().inner_mut().set_word(file, index, value),
        Held::Slave(end) => end.host_mut().set_word(file, index, value),
    };
    if is_set { Code::Done } else { Code::NoWord }
}

/// Reports the number of data files of the end.
pub fn tell_files(held: &Held, count: &mut u32) -> Code
    ensures code { result ≡ end_code (Some held.now) }
    ensures told { count.new ≡ told_at (Some held.now) (λ node. Some (file_count node)) count.old }
{
    let Some(node) = node_of(held) else {
        return Code::NoHandle;
    };
    *count = node.tables().files() as u32;
    Code::Done
}

/// Reports the data file at a place, from 0, in the order in which they were given.
pub fn tell_file(held: &Held, place: u32, file: &mut FileParts) -> Code
    ensures code { result ≡ code_at (Some held.now) (λ node. file_code node place) }
    ensures told { file.new ≡ told_at (Some held.now) (λ node. file_at node place) file.old }
{
    let Some(node) = node_of(held) else {
        return Code::NoHandle;
    };
    let Some(spec) = node.tables().spec_at(place as usize) else {
        return Code::NoFile;
    };
    *file = file_of(spec);
    Code::Done
}

/// Returns a data file as a C struct.
fn file_of(spec: FileSpec) -> FileParts
    ensures { result ≡ file_parts spec }
{
    FileParts {
        number: spec.number,
        kind: type_byte(spec.kind),
        elements: spec.count,
    }
}

/// Reports the values of a run of words, from the index `first` of a file on: one for each place of `values`.
pub fn tell_words(held: &Held, file: u16, first: u32, values: &mut [u16]) -> Code
    ensures code { result ≡ code_at (Some held.now) (λ node. range_code node file first (length values.old)) }
    ensures told { values.new ≡ told_at (Some held.now) (λ node. range_told node file first (length values.old)) values.old }
{
    let Some(node) = node_of(held) else {
        return Code::NoHandle;
    };
    if !has_words(node, file, first, values.len()) {
        return Code::NoWord;
    }
    let Some(words) = node.tables().range(file, first, values.len() as u32) else {
        return Code::NoWord;
    };
    values.copy_from_slice(words);
    Code::Done
}

/// Finds the first word, from the index `first` of a file on, that differs from the one in `seen`, and puts its value
/// there. `place` becomes its place in `seen`, or the length of `seen` if none differs.
pub fn tell_change(held: &Held, file: u16, first: u32, seen: &mut [u16], place: &mut usize) -> Code
    ensures code { result ≡ code_at (Some held.now) (λ node. range_code node file first (length seen.old)) }
    ensures place { place.new ≡ told_at (Some held.now) (λ node. change_told node file first seen.old) place.old }
    ensures seen { seen.new ≡ told_at (Some held.now) (λ node. seen_told node file first seen.old) seen.old }
{
    let Some(node) = node_of(held) else {
        return Code::NoHandle;
    };
    if !has_words(node, file, first, seen.len()) {
        return Code::NoWord;
    }
    let Some(words) = node.tables().range(file, first, seen.len() as u32) else {
        return Code::NoWord;
    };
    *place = see_change(words, seen);
    Code::Done
}

/// Puts the first word that differs from the one in `seen` there, and returns its place.
fn see_change(words: &[u16], seen: &mut [u16]) -> usize
    requires { length words.now ≡ length seen.old }
    ensures place { result ≡ first_change words.now seen.old }
    ensures seen { seen.new ≡ seen_with words.now seen.old }
{
    let place = first_change(words, seen);
    if place < words.len() {
        seen[place] = words[place];
    }
    place
}

/// Returns the first place at which a word differs from the one in `seen`, or the number of words if none does.
fn first_change(words: &[u16], seen: &[u16]) -> usize
    requires { length words.now ≡ length seen.now }
    ensures { result ≡ first_change words.now seen.now }
{
    for (place, word) in words.iter().enumerate() {
        if *word != seen[place] {
            return place;
        }
    }
    words.len()
}

/// Returns whether a file has `count` words from an index on.
fn has_words(node: &Node, file: u16, first: u32, count: usize) -> bool
    ensures all { result ≡ is_range node.now file first count }
    ensures few { IsTrue result → first + count ≤ 4294967295 }
{
    let Some(spec) = node.tables().spec(file) else {
        return false;
    };
    match spec.words().checked_sub(first) {
        Some(left) => count <= left as usize,
        None => false,
    }
}

/// Sets a run of words, from the index `first` of a file on, as a program in the controller would: all of them or none.
pub fn set_words(held: &mut Held, file: u16, first: u32, values: &[u16]) -> Code
    ensures code { result ≡ code_at (Some held.old) (λ node. range_code node file first (length values.now)) }
    ensures after { held.new ≡ with_change (words_set file first values.now) held.old }
{
    match held {
        Held::Decoder(_) => Code::NoHandle,
        Held::Duplex(end) => set_words_at(end.host_mut(), file, first, values),
        Held::Master(end) => set_words_at(end.host_mut().inner_mut(), file, first, values),
        Held::Slave(end) => set_words_at(end.host_mut(), file, first, values),
    }
}

fn set_words_at(node: &mut Node, file: u16, first: u32, values: &[u16]) -> Code
    ensures code { result ≡ range_code node.old file first (length values.now) }
    ensures after { node.new ≡ words_set file first values.now node.old }
{
    if !has_words(node, file, first, values.len()) {
        return Code::NoWord;
    }
    set_each(node, file, first, values);
    Code::Done
}

/// Sets words one after another.
fn set_each(node: &mut Node, file: u16, first: u32, values: &[u16])
    requires { first + length values.now ≤ 4294967295 }
    ensures { node.new ≡ node_words_set file first values.now node.old }
{
    for (place, value) in values.iter().enumerate() {
        node.set_word(file, first + place as u32, *value);
    }
}

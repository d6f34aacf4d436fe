//! The parts of an address. A part is read at the front of the text, and the remaining text is returned.
ghost use Rattle.std.specs.Prelude.{◌≡◌, ◌≤◌};
ghost use Rattle.std.specs.Option.{option_map};
ghost use Rattle.std.specs.Result.{result_map_both};
ghost use Rattle.data_addresses.specs.Reading as part;

use crate::AddressFault;
use crate::number::number_front;
use df1_base::FileType;

/// The highest number of a file or an element.
const MOST: u16 = 999;

/// The highest bit of a word.
const MOST_BIT: u16 = 15;

/// The file that an S without a number means.
const STATUS_FILE: u16 = 2;

/// Reads the letter of the type.
pub(crate) fn type_part(text: &[u8]) -> Result<(FileType, &[u8]), AddressFault>
    ensures { result_map_both (λ found. (found.0, found.1.now)) (λ fault. fault) result ≡ part.type_part text.now }
{
    match type_front(text) {
        Some(found) => Ok(found),
        None => Err(AddressFault::NoType),
    }
}

/// Returns the type at the front.
fn type_front(text: &[u8]) -> Option<(FileType, &[u8])>
    ensures { option_map (λ found. (found.0, found.1.now)) result ≡ part.type_front text.now }
{
    match text {
        [letter, rest @ ..] => Some((type_of(*letter)?, rest)),
        [] => None,
    }
}

/// Returns the type of a letter.
fn type_of(letter: u8) -> Option<FileType>
    ensures { result ≡ part.type_of letter }
{
    match letter {
        b'S' => Some(FileType::Status),
        b'B' => Some(FileType::Bit),
        b'T' => Some(FileType::Timer),
        b'C' => Some(FileType::Counter),
        b'R' => Some(FileType::Control),
        b'N' => Some(FileType::Integer),
        b'F' => Some(FileType::Float),
        _ => None,
    }
}

/// Reads the number of the file.
pub(crate) fn file_part(kind: FileType, text: &[u8]) -> Result<(u16, &[u8]), AddressFault>
    ensures { result_map_both (λ found. (found.0, found.1.now)) (λ fault. fault) result ≡ part.file_part kind text.now }
{
    if kind == FileType::Status && begins_with_colon(text) {
        return Ok((STATUS_FILE, text));
    }
    match number_front(MOST, text) {
        Some(found) => Ok(found),
        None => Err(AddressFault::NoFile),
    }
}

/// Returns whether the text begins with a colon.
fn begins_with_colon(text: &[u8]) -> bool
    ensures { result ≡ part.begins_with_colon text.now }
{
    matches!(text, [b':', ..])
}

/// Reads the colon before the element.
pub(crate) fn colon_part(text: &[u8]) -> Result<&[u8], AddressFault>
    ensures { result_map_both (λ rest. rest.now) (λ fault. fault) result ≡ part.colon_part text.now }
{
    match text {
        [b':', rest @ ..] => Ok(rest),
        _ => Err(AddressFault::NoColon),
    }
}

/// Reads the element.
pub(crate) fn element_part(text: &[u8]) -> Result<(u16, &[u8]), AddressFault>
    ensures { result_map_both (λ found. (found.0, found.1.now)) (λ fault. fault) result ≡ part.element_part text.now }
{
    match number_front(MOST, text) {
        Some(found) => Ok(found),
        None => Err(AddressFault::NoElement),
    }
}

/// Reads the sub-element after a point, or returns 0 if there is no point.
pub(crate) fn sub_part(kind: FileType, text: &[u8]) -> Result<(u16, &[u8]), AddressFault>
    ensures { result_map_both (λ found. (found.0, found.1.now)) (λ fault. fault) result ≡ part.sub_part kind text.now }
{
    let [b'.', rest @ ..] = text else {
        return Ok((0, text));
    };
    match word_front(kind, rest) {
        Some(found) => Ok(found),
        None => Err(AddressFault::NoSub),
    }
}

/// Reads a word of an element, by its name or its number.
fn word_front(kind: FileType, text: &[u8]) -> Option<(u16, &[u8])>
    ensures { option_map (λ found. (found.0, found.1.now)) result ≡ part.word_front kind text.now }
{
    match name_front(kind, text) {
        Some(found) => Some(found),
        None => number_front(most_sub(kind), text),
    }
}

/// Returns the last word of an element.
fn most_sub(kind: FileType) -> u16
    ensures is { result ≡ part.most_sub kind }
    ensures most { result ≤ 2 }
{
    match kind {
        FileType::Timer | FileType::Counter | FileType::Control => 2,
        FileType::Float => 1,
        FileType::Status | FileType::Bit | FileType::Integer => 0,
    }
}

/// Reads the name of a word at the front.
fn name_front(kind: FileType, text: &[u8]) -> Option<(u16, &[u8])>
    ensures { option_map (λ found. (found.0, found.1.now)) result ≡ part.name_front kind text.now }
{
    match text {
        [a, b, c, rest @ ..] => Some((word_named(kind, *a, *b, *c)?, rest)),
        _ => None,
    }
}

/// Returns the word of an element that these three letters name.
fn word_named(kind: FileType, a: u8, b: u8, c: u8) -> Option<u16>
    ensures { result ≡ part.word_named kind a b c }
{
    match kind {
        FileType::Timer | FileType::Counter => match (a, b, c) {
            (b'C', b'T', b'L') => Some(0),
            (b'P', b'R', b'E') => Some(1),
            (b'A', b'C', b'C') => Some(2),
            _ => None,
        },
        FileType::Control => match (a, b, c) {
            (b'C', b'T', b'L') => Some(0),
            (b'L', b'E', b'N') => Some(1),
            (b'P', b'O', b'S') => Some(2),
            _ => None,
        },
        FileType::Status | FileType::Bit | FileType::Integer | FileType::Float => None,
    }
}

/// Reads the bit after a slash, if there is a slash.
pub(crate) fn bit_part(kind: FileType, text: &[u8]) -> Result<(Option<u8>, &[u8]), AddressFault>
    ensures { result_map_both (λ found. (found.0, found.1.now)) (λ fault. fault) result ≡ part.bit_part kind text.now }
{
    let [b'/', rest @ ..] = text else {
        return Ok((None, text));
    };
    if kind == FileType::Float {
        return Err(AddressFault::NoBit);
    }
    match number_front(MOST_BIT, rest) {
        Some((bit, rest)) => Ok((Some(bit as u8), rest)),
        None => Err(AddressFault::NoBit),
    }
}

/// Checks that the text ends here.
pub(crate) fn end_part(text: &[u8]) -> Result<(), AddressFault>
    ensures { result ≡ part.end_part text.now }
{
    match text {
        [] => Ok(()),
        _ => Err(AddressFault::NoEnd),
    }
}

//! The place of the words that an order reads or writes, and its tests; the first test that fails refuses the order
//! (manual topics: addressing, status codes):
//!
//! | Test | Refused with |
//! |---|---|
//! | there is such a file | F0/06 |
//! | the type byte, if there is one, is the file's | F0/11 |
//! | the order doesn't write, or the file isn't Status | F0/0B |
//! | the sub-element is below the words of an element | F0/06 |
//! | the first word plus the offset plus the number of words is at most the file's words | F0/0A |
ghost use Rattle.std.specs.Prelude.{◌≡◌, not, true, IfOk};
ghost use Rattle.data_files.specs.Place.{is_of_type, located, type_byte};
ghost use Rattle.data_files.specs.Tables.{file_of, has_words};

use crate::Tables;
use crate::file_spec::words_of;
use df1_base::{Code, FileType};

/// There is no such file, or no such sub-element.
const NO_SUCH_PLACE: Code = Code::Ext(0x06);

/// The file is of another type.
const OTHER_TYPE: Code = Code::Ext(0x11);

/// The file can't be written.
const READ_ONLY: Code = Code::Ext(0x0B);

/// The words go past the end of the file.
const PAST_THE_END: Code = Code::Ext(0x0A);

/// The words that an order reads or writes.
#[derive(Clone, Copy, Debug, PartialEq, Eq)]
pub struct Place {
    /// The number of the file.
    pub file: u16,
    /// The type byte, if the order has one.
    pub kind: Option<u8>,
    /// The element, from 0.
    pub element: u16,
    /// The sub-element, from 0.
    pub sub: u16,
    /// The number of words from the sub-element to the first word.
    pub offset: u16,
    /// The number of words.
    pub count: u16,
    /// Whether the order writes them.
    pub writes: bool,
}

/// Returns the index in its file of the first word of a place: the element times the words of an element, plus the
/// sub-element, plus the offset. Otherwise returns the code of the first test that fails.
pub fn locate(tables: &Tables, place: &Place) -> Result<u32, Code>
    ensures found { result ≡ located (file_of tables.now.specs place.now.file) place.now }
    ensures room { IfOk result (λ first. has_words tables.now.specs place.now.file first place.now.count ≡ true) }
{
    let Some(spec) = tables.spec(place.file) else {
        return Err(NO_SUCH_PLACE);
    };
    if is_other_type(place.kind, spec.kind) {
        return Err(OTHER_TYPE);
    }
    if place.writes && spec.kind == FileType::Status {
        return Err(READ_ONLY);
    }
    let width = words_of(spec.kind);
    if u32::from(place.sub) >= width {
        return Err(NO_SUCH_PLACE);
    }
    let first = u32::from(place.element) * width + u32::from(place.sub) + u32::from(place.offset);
    if first + u32::from(place.count) > spec.words() {
        return Err(PAST_THE_END);
    }
    Ok(first)
}

/// Returns whether there is a type byte and it isn't that of the type.
fn is_other_type(byte: Option<u8>, kind: FileType) -> bool
    ensures { result ≡ not (is_of_type byte kind) }
{
    match byte {
        Some(byte) => byte != type_byte(kind),
        None => false,
    }
}

/// Returns the type byte of a file (manual topic: addressing).
pub fn type_byte(kind: FileType) -> u8
    ensures { result ≡ type_byte kind }
{
    match kind {
        FileType::Status => 0x84,
        FileType::Bit => 0x85,
        FileType::Timer => 0x86,
        FileType::Counter => 0x87,
        FileType::Control => 0x88,
        FileType::Integer => 0x89,
        FileType::Float => 0x8A,
    }
}

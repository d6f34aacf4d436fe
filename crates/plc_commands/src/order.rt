//! Orders of the commands.
ghost use Rattle.std.specs.Prelude.{◌≡◌};

use crate::Sets;
use logical_address::{Levels, Param};

/// One change of a read-modify-write: the word becomes its old value AND one mask, OR the other.
#[derive(Clone, Copy, Debug, PartialEq, Eq)]
pub struct Set {
    /// Where the word is.
    pub at: Levels,
    /// The mask of the bits that are kept.
    pub and: u16,
    /// The mask of the bits that are set.
    pub or: u16,
}

impl Default for Set {
    fn default() -> Set
        ensures { result ≡ record { at = record { area = 0; file = 0; element = 0; sub = 0 }; and = 0; or = 0 } }
    {
        let at = Levels {
            area: 0,
            file: 0,
            element: 0,
            sub: 0,
        };
        Set { at, and: 0, or: 0 }
    }
}

/// An order of one of the commands.
#[derive(Debug, Drop)]
pub enum PlcOrder<'a> {
    /// Returns these bytes.
    Echo(&'a [u8]),
    /// Reads the station's status.
    Status,
    /// Reads bytes of the compatibility file.
    Peek {
        /// The address of the first byte; word w is bytes 2w and 2w + 1.
        address: u16,
        /// The number of bytes.
        size: u8,
    },
    /// Writes words of the compatibility file.
    Poke {
        /// The address of the first byte.
        address: u16,
        /// The words, each low byte first.
        bytes: &'a [u8],
    },
    /// Writes a part of a range of words.
    RangeWrite {
        /// The number of words of the range before the part.
        offset: u16,
        /// The number of words of the range.
        total: u16,
        /// The start of the range.
        at: Levels,
        /// The words, each low byte first.
        bytes: &'a [u8],
    },
    /// Reads a part of a range of words.
    RangeRead {
        /// The number of words of the range before the part.
        offset: u16,
        /// The number of words of the range.
        total: u16,
        /// The start of the range.
        at: Levels,
        /// The number of bytes to read.
        size: u8,
    },
    /// Changes bits of words, one after another, all of them or none.
    Change(Sets),
    /// Writes a part of a range of elements.
    TypedWrite {
        /// The number of elements of the range before the part.
        offset: u16,
        /// The number of elements of the range.
        total: u16,
        /// The start of the range.
        at: Levels,
        /// The parameter of an element.
        element: Param,
        /// Whether the data is an array of elements.
        array: bool,
        /// The words of the elements, each low byte first.
        bytes: &'a [u8],
    },
    /// Reads a part of a range of elements.
    TypedRead {
        /// The number of elements of the range before the part.
        offset: u16,
        /// The number of elements of the range.
        total: u16,
        /// The start of the range.
        at: Levels,
        /// The number of elements to read.
        count: u16,
    },
}

/// A part of a range of words or elements.
#[derive(Clone, Copy)]
pub(crate) struct Window {
    /// The size of the range before the part.
    pub offset: u16,
    /// The size of the range.
    pub total: u16,
    /// The start of the range.
    pub at: Levels,
}

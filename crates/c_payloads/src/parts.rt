//! Addresses and the contents of replies, as C structs.

ghost use Rattle.std.specs.Prelude.{◌≡◌, Some};
ghost use Rattle.c_payloads.specs.Parts.{address_in, bit_in, parts_told};

use c_ends::kind_of;
use data_addresses::Address;
use data_files::type_byte;

/// The address of a word in the data files of a controller, or of one of its bits.
#[repr(C)]
#[derive(Clone, Copy)]
pub struct AddressParts {
    /// The type byte of the file.
    pub kind: u8,
    /// The number of the file; at most 999 in an address that was read.
    pub file: u16,
    /// The element, from 0; at most 999 in an address that was read.
    pub element: u16,
    /// The sub-element, from 0: the word in its element.
    pub sub: u16,
    /// Whether it names a bit.
    pub has_bit: bool,
    /// The bit, 0 to 15 in an address that was read; 0 if it names none.
    pub bit: u8,
}

/// The contents of a reply.
#[repr(C)]
#[derive(Clone, Copy)]
pub struct AnswerParts {
    /// STS: 0 if the command was executed.
    pub sts: u8,
    /// EXT STS if STS is F0, otherwise 0.
    pub ext: u8,
    /// Where the data begins in the reply: byte 6, or 7 if STS is F0.
    pub start: usize,
    /// The number of bytes of the data.
    pub count: usize,
}

/// The description of the data of a typed read.
#[repr(C)]
#[derive(Clone, Copy)]
pub struct TypedParts {
    /// The kind of an element: 2 bit string, 4 integer, 8 floating point.
    pub kind: u16,
    /// The size of an element in bytes.
    pub size: u16,
    /// Whether it is an array of elements.
    pub is_array: bool,
    /// Where the words of the elements begin in the data.
    pub start: usize,
    /// The number of their bytes.
    pub count: usize,
}

/// Returns the address in a C struct, and None exactly if its type byte is not that of a type.
pub(crate) fn address_in(parts: &AddressParts) -> Option<Address>
    ensures { result ≡ address_in parts.now }
{
    let kind = kind_of(parts.kind)?;
    Some(Address {
        kind,
        file: parts.file,
        element: parts.element,
        sub: parts.sub,
        bit: bit_in(parts),
    })
}

/// Returns the bit in a C struct.
fn bit_in(parts: &AddressParts) -> Option<u8>
    ensures { result ≡ bit_in parts.now }
{
    if parts.has_bit { Some(parts.bit) } else { None }
}

/// Returns an address as a C struct, from which `address_in` returns the same address.
pub(crate) fn parts_of(at: Address) -> AddressParts
    ensures parts { result ≡ parts_told at }
    ensures again { address_in result ≡ Some at }
{
    AddressParts {
        kind: type_byte(at.kind),
        file: at.file,
        element: at.element,
        sub: at.sub,
        has_bit: at.bit.is_some(),
        bit: at.bit.unwrap_or(0),
    }
}

//! Addresses, and how their texts are read.
ghost use Rattle.std.specs.Prelude.{◌≡◌, ℕ, List, IfOk, Ok};
ghost use Rattle.data_addresses.specs.declared.address.Address.{Address as Place};
ghost use Rattle.data_addresses.specs.Text.{SpellsAddress};
ghost use Rattle.data_addresses.specs.Reading.{address_of};
ghost use Rattle.data_addresses.specs.Fields.{levels_of, three_of};

use crate::parts::{bit_part, colon_part, element_part, end_part, file_part, sub_part, type_part};
use data_files::type_byte;
use df1_base::FileType;
use logical_address::{Levels, Three};
use thiserror::Error;

/// The address of a word in the data files of a controller, or of one of its bits.
#[derive(Clone, Copy, Debug, PartialEq, Eq)]
pub struct Address {
    /// The type of the file.
    pub kind: FileType,
    /// The number of the file; at most 999 in an address that was read.
    pub file: u16,
    /// The element, from 0; at most 999 in an address that was read.
    pub element: u16,
    /// The sub-element, from 0: the word in its element; 0 if the text has none.
    pub sub: u16,
    /// The bit of the word, if there is one; 0 to 15 in an address that was read.
    pub bit: Option<u8>,
}

/// The reason why a text is not an address: its first invalid part.
#[derive(Clone, Copy, Debug, PartialEq, Eq, Error)]
pub enum AddressFault {
    /// It doesn't begin with S, B, T, C, R, N or F.
    #[error("it doesn't begin with the letter of a file's type")]
    NoType,
    /// No number 0 to 999 follows the letter, nor does a colon follow an S.
    #[error("its file isn't a number 0 to 999")]
    NoFile,
    /// No colon follows the file.
    #[error("no colon follows its file")]
    NoColon,
    /// No number 0 to 999 follows the colon.
    #[error("its element isn't a number 0 to 999")]
    NoElement,
    /// Neither the name nor the number of a word of the element follows the point.
    #[error("its sub-element is no word of the element")]
    NoSub,
    /// No number 0 to 15 follows the slash, or the file is of floats.
    #[error("its bit isn't a number 0 to 15, or it is a float's")]
    NoBit,
    /// Something else follows the address.
    #[error("something else follows it")]
    NoEnd,
}

impl Address {
    /// Returns the place by levels: area 0, without the bit.
    pub fn levels(&self) -> Levels
        ensures { result ≡ levels_of self.now }
    {
        Levels {
            area: 0,
            file: self.file,
            element: self.element,
            sub: self.sub,
        }
    }

    /// Returns the place by three fields and the type byte, without the bit.
    pub fn three(&self) -> Three
        ensures { result ≡ three_of self.now }
    {
        Three {
            file: self.file,
            kind: type_byte(self.kind),
            element: self.element,
            sub: self.sub,
        }
    }
}

/// Reads the text of an address (manual topic: addressing), or returns the fault of its first invalid part.
pub fn read_address(text: &[u8]) -> Result<Address, AddressFault>
    ensures reads { result ≡ address_of text.now }
    ensures spelled { IfOk result (λ at. SpellsAddress at text.now) }
    ensures known { (at : Place) → SpellsAddress at text.now → result ≡ Ok at }
{
    by_parts(text)
}

/// Reads an address part by part.
#[tactic(auto, unfolding(crate::specs::Reading::address_of))]
fn by_parts(text: &[u8]) -> Result<Address, AddressFault>
    ensures { result ≡ address_of text.now }
{
    let (kind, rest) = type_part(text)?;
    let (file, rest) = file_part(kind, rest)?;
    let rest = colon_part(rest)?;
    let (element, rest) = element_part(rest)?;
    let (sub, rest) = sub_part(kind, rest)?;
    let (bit, rest) = bit_part(kind, rest)?;
    end_part(rest)?;
    Ok(Address {
        kind,
        file,
        element,
        sub,
        bit,
    })
}

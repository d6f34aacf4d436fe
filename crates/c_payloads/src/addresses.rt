//! The texts of addresses.

ghost use Rattle.std.specs.Prelude.{◌≡◌, IfOk, Some};
ghost use Rattle.std.specs.Result.{result_map_both};
ghost use Rattle.data_addresses.specs.Reading.{address_of};
ghost use Rattle.data_addresses.specs.Text.{SpellsAddress};
ghost use Rattle.c_payloads.specs.Addresses.{parts_after, reading_code, text_told};
ghost use Rattle.c_payloads.specs.Parts.{address_in};

use crate::faults::address_code;
use crate::parts::{AddressParts, address_in, parts_of};
use arrayvec::ArrayVec;
use c_ends::Code;
use data_addresses::write_address;

/// Reads the text of an address (manual topic: addressing). If a part is invalid, returns the code of the first such
/// part and leaves `address` unchanged.
pub fn read_address(text: &[u8], address: &mut AddressParts) -> Code
    ensures code { result ≡ reading_code (address_of text.now) }
    ensures told { address.new ≡ parts_after (address_of text.now) address.old }
    ensures spelled { IfOk (address_of text.now) (λ at. (address_in address.new ≡ Some at) × SpellsAddress at text.now) }
{
    match data_addresses::read_address(text) {
        Ok(at) => {
            *address = parts_of(at);
            Code::Done
        }
        Err(fault) => address_code(fault),
    }
}

/// Returns the text of an address, without leading zeros and with a zero byte at its end (manual topic: addressing), or
/// `BadType`.
pub fn address_text(at: &AddressParts) -> Result<ArrayVec<u8, 25>, Code>
    ensures { result_map_both (λ text. text.items) (λ code. code) result ≡ text_told at.now }
{
    let Some(place) = address_in(at) else {
        return Err(Code::BadType);
    };
    let mut text = ArrayVec::new();
    write_address(&place, &mut text);
    let mut ended = ArrayVec::new();
    ended.try_extend_from_slice(&text).unwrap();
    ended.push(0);
    Ok(ended)
}

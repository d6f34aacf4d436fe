//! The texts of addresses.

ghost use Rattle.std.specs.Prelude.{◌≡◌, ◌≤◌, length, IfOk, Some};
ghost use Rattle.data_addresses.specs.Reading.{address_of};
ghost use Rattle.data_addresses.specs.Text.{SpellsAddress};
ghost use Rattle.c_ends.specs.Code.{code_number};
ghost use Rattle.c_payloads.specs.Addresses.{parts_after, reading_code, text_told};
ghost use Rattle.c_payloads.specs.Parts.{address_in};
ghost use Rattle.df1_c.specs.Payloads.{given_code, given_count, given_into};

use c_calls::copy;
use c_payloads::{AddressParts, address_text, read_address};

/// Reads the text of an address.
#[unsafe(no_mangle)]
pub extern "C" fn df1_address_read(text: &[u8], address: &mut AddressParts) -> u32
    ensures code { result ≡ code_number (reading_code (address_of text.now)) }
    ensures told { address.new ≡ parts_after (address_of text.now) address.old }
    ensures spelled { IfOk (address_of text.now) (λ at. (address_in address.new ≡ Some at) × SpellsAddress at text.now) }
{
    read_address(text, address).number()
}

/// Puts the text of an address, with a zero byte at its end, into a buffer. `count` becomes its number of bytes with
/// that zero.
#[unsafe(no_mangle)]
pub extern "C" fn df1_address_text(
    address: &AddressParts,
    into: &mut [u8],
    count: &mut usize,
) -> u32
    ensures code { result ≡ code_number (given_code (text_told address.now) (length into.old)) }
    ensures bytes { into.new ≡ given_into into.old (text_told address.now) }
    ensures count { count.new ≡ given_count count.old (text_told address.now) }
    ensures most { IfOk (text_told address.now) (λ _. count.new ≤ 25) }
{
    match address_text(address) {
        Ok(text) => copy(&text, into, count).number(),
        Err(fault) => fault.number(),
    }
}

//! The text of an address, as it is written.
ghost use Rattle.std.specs.Prelude.{◌≡◌, ◌≤◌, ◌+◌, ◌++◌, ◌∷◌, [], decimal, Ok};
ghost use Rattle.arrayvec.specs.ArrayVec.{array_vec_len};
ghost use Rattle.data_addresses.specs.Text.{SpellsAddress, letter};
ghost use Rattle.data_addresses.specs.Reading.{address_of};
ghost use Rattle.data_addresses.specs.Canonical.{IsAddress, address_text, bit_text, sub_text};

use crate::Address;
use arrayvec::ArrayVec;
use df1_base::FileType;

/// The maximum number of bytes of a text.
const MOST: usize = 24;

/// Replaces `into` by the text of an address (manual topic: addressing): no leading zeros, a sub-element by its number
/// unless it is 0, and a bit if there is one. An address that can be read is read back from it.
pub fn write_address(at: &Address, into: &mut ArrayVec<u8, 24>)
    ensures text { into.new.items ≡ address_text at.now }
    ensures spelled { IsAddress at.now → SpellsAddress at.now into.new.items }
    ensures read_back { IsAddress at.now → address_of into.new.items ≡ Ok at.now }
{
    into.clear();
    add_parts(at, into);
}

/// Writes the parts of an address into an empty `into`.
fn add_parts(at: &Address, into: &mut ArrayVec<u8, MOST>)
    requires { into.old.items ≡ [] }
    ensures { into.new.items ≡ address_text at.now }
{
    into.push(letter(at.kind));
    add_number(at.file, into);
    into.push(b':');
    add_number(at.element, into);
    add_sub(at.sub, into);
    add_bit(at.bit, into);
}

/// Returns the letter of a type.
fn letter(kind: FileType) -> u8
    ensures { result ≡ letter kind }
{
    match kind {
        FileType::Status => b'S',
        FileType::Bit => b'B',
        FileType::Timer => b'T',
        FileType::Counter => b'C',
        FileType::Control => b'R',
        FileType::Integer => b'N',
        FileType::Float => b'F',
    }
}

/// Adds a point and a sub-element, unless it is 0.
fn add_sub(sub: u16, into: &mut ArrayVec<u8, MOST>)
    requires { array_vec_len into.old ≤ 12 }
    ensures text { into.new.items ≡ into.old.items ++ sub_text sub }
    ensures size { array_vec_len into.new ≤ array_vec_len into.old + 6 }
{
    if sub != 0 {
        into.push(b'.');
        add_number(sub, into);
    }
}

/// Adds a slash and a bit, if there is one.
fn add_bit(bit: Option<u8>, into: &mut ArrayVec<u8, MOST>)
    requires { array_vec_len into.old ≤ 18 }
    ensures { into.new.items ≡ into.old.items ++ bit_text bit }
{
    if let Some(bit) = bit {
        into.push(b'/');
        add_number(u16::from(bit), into);
    }
}

/// Adds a number.
fn add_number(number: u16, into: &mut ArrayVec<u8, MOST>)
    requires { array_vec_len into.old ≤ 19 }
    ensures text { into.new.items ≡ into.old.items ++ decimal number }
    ensures size { array_vec_len into.new ≤ array_vec_len into.old + 5 }
{
    into.try_extend_from_slice(itoa::Buffer::new().format(number).as_bytes())
        .unwrap();
}

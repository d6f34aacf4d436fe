//! Laws of addresses.
ghost use Rattle.std.specs.Prelude.{◌≡◌, ℕ, List, Ok, Err, Some, None, codes};
ghost use Rattle.df1_base.specs.declared.file_type.FileType.TheVariants.{Float, Integer, Status, Timer};
ghost use Rattle.data_addresses.specs.declared.address.Address.{Address as Place};
ghost use Rattle.data_addresses.specs.declared.address.AddressFault.TheVariants.{NoBit, NoElement, NoFile, NoSub, NoType};
ghost use Rattle.data_addresses.specs.Text.{SpellsAddress};
ghost use Rattle.data_addresses.specs.Reading.{address_of};
ghost use Rattle.data_addresses.specs.Canonical.{IsAddress, address_text};

/// A text is at most one address.
pub fn one_address()
    ensures { (at other : Place) (text : List ℕ) → SpellsAddress at text → SpellsAddress other text → at ≡ other }
{}

/// Each address has a text, and this text is read as that address. An address that is read has files and elements up to
/// 999, words of the element and bits of the word.
pub fn addresses_have_texts()
    ensures spelled { (at : Place) → IsAddress at → SpellsAddress at (address_text at) }
    ensures read { (at : Place) → IsAddress at → address_of (address_text at) ≡ Ok at }
    ensures only { (at : Place) (text : List ℕ) → SpellsAddress at text → IsAddress at }
{}

/// Addresses of known texts.
pub fn worked_values()
    ensures integer { address_of (codes "N7:3") ≡ Ok (record { kind = Integer; file = 7; element = 3; sub = 0; bit = None }) }
    ensures bit { address_of (codes "N7:3/5") ≡ Ok (record { kind = Integer; file = 7; element = 3; sub = 0; bit = Some 5 }) }
    ensures float { address_of (codes "F8:0") ≡ Ok (record { kind = Float; file = 8; element = 0; sub = 0; bit = None }) }
    ensures accumulator { address_of (codes "T4:1.ACC") ≡ Ok (record { kind = Timer; file = 4; element = 1; sub = 2; bit = None }) }
    ensures done_bit { address_of (codes "T4:1.0/13") ≡ Ok (record { kind = Timer; file = 4; element = 1; sub = 0; bit = Some 13 }) }
    ensures status { address_of (codes "S:1/15") ≡ Ok (record { kind = Status; file = 2; element = 1; sub = 0; bit = Some 15 }) }
    ensures output { address_of (codes "O:0") ≡ Err NoType }
    ensures no_file { address_of (codes "N:0") ≡ Err NoFile }
    ensures large_element { address_of (codes "N7:1000") ≡ Err NoElement }
    ensures no_word { address_of (codes "N7:0.1") ≡ Err NoSub }
    ensures bit_of_float { address_of (codes "F8:0/1") ≡ Err NoBit }
{}

//! The two checks that end a message on a DF1 link: the BCC, which is the two's complement of the 8-bit sum, and the
//! CRC-16 with the polynomial x^16 + x^15 + x^2 + 1, in its reflected form A001, from a register of 0.
#![tactic(auto)]

ghost use Rattle.std.specs.Prelude.{◌≡◌, ◌<◌, ℕ, List, [], ◌∷◌, Some, slice_get};
ghost use Rattle.df1_check.specs.Checks.{IsBcc, bcc, crc, crc_byte, eight_shifts};

mod running;
mod table;

pub use running::Running;
pub use table::CRC_TABLE;

/// The check that ends a message: one byte, or two.
#[derive(Clone, Copy, Debug, PartialEq, Eq)]
pub enum Check {
    Bcc,
    Crc,
}

/// Returns the two's complement of the 8-bit sum of `bytes` (block check character).
pub fn bcc(bytes: &[u8]) -> u8
    ensures value { result ≡ bcc bytes.now }
    ensures multiple { IsBcc bytes.now result }
{
    let mut check = 0u8;
    for b in bytes {
        check = check.wrapping_sub(*b);
    }
    check
}

/// Returns the CRC-16 of `bytes` (cyclic redundancy check). On the line its low byte goes first.
pub fn crc(bytes: &[u8]) -> u16
    ensures { result ≡ crc bytes.now }
{
    let mut register = 0u16;
    for b in bytes {
        register = crc_byte(register, *b);
    }
    register
}

/// Returns the register after one more byte, by one look-up.
fn crc_byte(register: u16, b: u8) -> u16
    ensures { result ≡ crc_byte register b }
{
    let register = register ^ u16::from(b);
    entry(register % 256) ^ register / 256
}

/// Returns the entry of a register below 256.
fn entry(register: u16) -> u16
    requires { register < 256 }
    ensures { result ≡ eight_shifts register }
{
    CRC_TABLE[register as usize]
}

/// Each entry of the table is what eight shifts make of its index as the register.
pub fn table_entries()
    ensures entries { (register : ℕ) → register < 256 → slice_get CRC_TABLE register ≡ Some (eight_shifts register) }
    ensures first { slice_get CRC_TABLE 0 ≡ Some 0x0000 }
    ensures second { slice_get CRC_TABLE 1 ≡ Some 0xC0C1 }
{}

/// The BCC of any bytes is the only number below 256 that makes their sum a multiple of 256.
pub fn one_bcc()
    ensures is { (bytes : List ℕ) → IsBcc bytes (bcc bytes) }
    ensures only { (bytes : List ℕ) (check : ℕ) → IsBcc bytes check → check ≡ bcc bytes }
{}

/// The checks of the manual's examples, and of the digits 1 to 9.
pub fn worked_values()
    ensures message { bcc (0x08 ∷ 0x09 ∷ 0x06 ∷ 0x00 ∷ 0x02 ∷ 0x04 ∷ 0x03 ∷ []) ≡ 0xE0 }
    ensures nothing { bcc [] ≡ 0 }
    ensures digits { crc (0x31 ∷ 0x32 ∷ 0x33 ∷ 0x34 ∷ 0x35 ∷ 0x36 ∷ 0x37 ∷ 0x38 ∷ 0x39 ∷ []) ≡ 0xBB3D }
{}

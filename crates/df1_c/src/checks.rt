//! The two checks that end a frame.

ghost use Rattle.std.specs.Prelude.{◌≡◌};
ghost use Rattle.df1_check.specs.Checks.{IsBcc, bcc, crc};

/// Returns the BCC of `bytes`, the two's complement of their 8-bit sum.
#[unsafe(no_mangle)]
pub extern "C" fn df1_bcc(bytes: &[u8]) -> u8
    ensures value { result ≡ bcc bytes.now }
    ensures multiple { IsBcc bytes.now result }
{
    df1_check::bcc(bytes)
}

/// Returns the CRC-16 of `bytes`. On the line its low byte is sent first.
#[unsafe(no_mangle)]
pub extern "C" fn df1_crc(bytes: &[u8]) -> u16
    ensures { result ≡ crc bytes.now }
{
    df1_check::crc(bytes)
}
